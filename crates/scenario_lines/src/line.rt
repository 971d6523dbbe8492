//! The lines of a scenario.
ghost use Rattle.std.specs.Prelude.{◌≡◌};
ghost use Rattle.scenario_lines.specs.declared.line.ScenarioFault.TheVariants.{NoMemory as OutOfMemory};

use exec_instance::answer::Answer;
use hh_base::value::NoMemory;
use reaction_run::event::Inputs;
use std::alloc::{AllocError, AllocFailed};
use thiserror::Error;

/// What a scenario is read for: `work` lines stand in one that is played, `settle` lines in one that is
/// served.
#[derive(Clone, Copy, PartialEq, Eq, Debug)]
pub enum Mode {
    Play,
    Serve,
}

/// A line of a scenario: a reaction to inputs; that the body of the instance with this id is run; an answer
/// to
/// an instance; that the machine is put back to its start; that all instances are waited for.
#[derive(Drop)]
pub enum Line {
    React(Inputs),
    Work(u64),
    Notify(Answer),
    Reset,
    Settle,
}

/// Why a text is no scenario.
#[derive(Clone, Copy, PartialEq, Eq, Debug, Error)]
pub enum ScenarioFault {
    /// The first line, counted from 1, that is no line of a scenario.
    #[error("line {0} is no line of a scenario")]
    Refused(u64),
    #[error("memory ran out")]
    NoMemory,
}

impl From<AllocError> for ScenarioFault {
    ghost from_gives = { λ _ e. e ≡ OutOfMemory };

    fn from(_error: AllocError) -> ScenarioFault {
        ScenarioFault::NoMemory
    }
}

impl<T: Drop> From<AllocFailed<T>> for ScenarioFault {
    ghost from_gives = { λ _ e. e ≡ OutOfMemory };

    fn from(_error: AllocFailed<T>) -> ScenarioFault {
        ScenarioFault::NoMemory
    }
}

impl From<NoMemory> for ScenarioFault {
    ghost from_gives = { λ _ e. e ≡ OutOfMemory };

    fn from(_fault: NoMemory) -> ScenarioFault {
        ScenarioFault::NoMemory
    }
}
