//! Why the tokens of a text are not read.
ghost use Rattle.std.specs.Prelude.{◌≡◌};

use grammar::fault::{Fault, Refusal};
use hh_base::memory::NoMemory;
use std::alloc::{AllocError, AllocFailed};

/// What the grammar refuses in the tokens of a text, each at a place but want of memory.
#[derive(Clone, Copy, PartialEq, Eq, Debug)]
pub enum StepError {
    Unexpected(u32),
    EndOfText(u32),
    DeepNesting(u32),
    ExprLarge(u32),
    NumberLarge(u32),
    BadCount(u32),
    NoMemory,
}

impl From<AllocError> for StepError {
    ghost use Rattle.std.specs.Prelude.{◌≡◌};
    ghost use Rattle.expression_reader.specs.declared.fault.StepError.TheVariants.{NoMemory as OutOfMemory};

    ghost from_gives = { λ _ e. e ≡ OutOfMemory };

    fn from(_: AllocError) -> StepError {
        StepError::NoMemory
    }
}

impl<T: Drop> From<AllocFailed<T>> for StepError {
    ghost use Rattle.std.specs.Prelude.{◌≡◌};
    ghost use Rattle.expression_reader.specs.declared.fault.StepError.TheVariants.{NoMemory as OutOfMemory};

    ghost from_gives = { λ _ e. e ≡ OutOfMemory };

    fn from(_: AllocFailed<T>) -> StepError {
        StepError::NoMemory
    }
}

impl From<NoMemory> for StepError {
    ghost use Rattle.std.specs.Prelude.{◌≡◌};
    ghost use Rattle.expression_reader.specs.declared.fault.StepError.TheVariants.{NoMemory as OutOfMemory};

    ghost from_gives = { λ _ e. e ≡ OutOfMemory };

    fn from(_: NoMemory) -> StepError {
        StepError::NoMemory
    }
}

impl From<Refusal> for StepError {
    ghost use Rattle.std.specs.Prelude.{◌≡◌, Some};
    ghost use Rattle.grammar.specs.Refusals.{refusal_of};
    ghost use Rattle.expression_reader.specs.Refusals.{as_refusal};

    ghost from_gives = { λ refused e. as_refusal e ≡ Some (refusal_of refused) };

    fn from(refused: Refusal) -> StepError {
        match refused.fault {
            Fault::Unexpected => StepError::Unexpected(refused.place),
            Fault::EndOfText => StepError::EndOfText(refused.place),
            Fault::Deep => StepError::DeepNesting(refused.place),
            Fault::Large => StepError::ExprLarge(refused.place),
        }
    }
}
