//! Why a linked text has no kernel program.

ghost use Rattle.std.specs.Prelude.{◌≡◌};
ghost use Rattle.kernel_expand.specs.declared.fault.ExpandFault.TheVariants.{NoMemory as OutOfMemory};

use hh_base::memory::NoMemory;
use hh_base::value::Pos;
use thiserror::Error;

/// Why a linked text has no kernel program, in the order in which it is refused. The five counted kinds
/// carry the number that passes its limit, or 18446744073709551615 where it is larger.
#[derive(Clone, Copy, PartialEq, Eq, Debug, Error)]
pub enum ExpandFault {
    /// The nodes count more than 65,536, with their expressions and texts.
    #[error("TooLarge {0}")]
    TooLarge(u64),
    /// More than 1,024 nodes stand one inside another, a loop counting two.
    #[error("TooDeep {0}")]
    TooDeep(u64),
    /// More than 32 traps stand round one node.
    #[error("TrapsDeep {0}")]
    TrapsDeep(u64),
    /// There are more than 1,024 async sites.
    #[error("ManyAsyncs {0}")]
    ManyAsyncs(u64),
    /// The nodes count more than 1,048,576 where the body of each loop stands twice.
    #[error("CopyLarge {0}")]
    CopyLarge(u64),
    /// The body of a loop may end in the reaction in which it starts: the first such loop of the input.
    #[error("InstantLoop")]
    InstantLoop(Pos),
    #[error("memory ran out")]
    NoMemory,
}

impl From<NoMemory> for ExpandFault {
    ghost from_gives = { λ _ e. e ≡ OutOfMemory };

    fn from(_error: NoMemory) -> ExpandFault {
        ExpandFault::NoMemory
    }
}
