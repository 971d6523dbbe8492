//! How reading and writing end where they do not succeed.
ghost use Rattle.std.specs.Prelude.{◌≡◌};
ghost use Rattle.hh_io.specs.declared.fault.ReadEnd.TheVariants as read_end;
ghost use Rattle.hh_io.specs.declared.fault.SinkFault.TheVariants as sink_fault;

use std::alloc::AllocError;
use thiserror::Error;

/// A read failed, and the source's count of faults rose by one.
#[derive(Clone, Copy, PartialEq, Eq, Debug, Error)]
#[error("a read failed")]
pub struct Failed;

/// Why a sink took no more.
#[derive(Clone, Copy, PartialEq, Eq, Debug, Error)]
pub enum SinkFault {
    /// A write failed, and the sink's count of faults rose by one.
    #[error("a write failed")]
    Failed,
    /// Memory ran out, and no write failed.
    #[error("memory ran out")]
    NoMemory,
}

/// Why a whole input was not read.
#[derive(Clone, Copy, PartialEq, Eq, Debug, Error)]
pub enum ReadEnd {
    /// A read failed, and the source's count of faults rose by one.
    #[error("a read failed")]
    Fault,
    /// One byte more than the limit came.
    #[error("the input is too long")]
    TooLong,
    /// Memory ran out, and no read failed.
    #[error("memory ran out")]
    NoMemory,
}

impl From<AllocError> for SinkFault {
    ghost from_gives = { λ _ e. e ≡ sink_fault.NoMemory };

    fn from(_error: AllocError) -> SinkFault {
        SinkFault::NoMemory
    }
}

impl From<Failed> for ReadEnd {
    ghost from_gives = { λ _ e. e ≡ read_end.Fault };

    fn from(_error: Failed) -> ReadEnd {
        ReadEnd::Fault
    }
}

impl From<AllocError> for ReadEnd {
    ghost from_gives = { λ _ e. e ≡ read_end.NoMemory };

    fn from(_error: AllocError) -> ReadEnd {
        ReadEnd::NoMemory
    }
}
