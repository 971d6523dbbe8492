//! A machine with the log of all that happened to it.
ghost use Rattle.std.specs.Prelude.{◌≡◌, ◌+◌, ◌<◌, ◌≤◌, ◌^◌, length, vec_len, vec_capacity};
ghost use Rattle.reaction_run.specs.Legal.{Legal, events_of};
ghost use Rattle.reaction_run.specs.Run.{final_state};

use crate::origin::Origin;
use exec_instance::answer::Answer;
use reaction_run::log::Log;
use reaction_run::reactor::Reactor;

/// A machine with the log of all that happened to it since it was given. The log is legal from the state that
/// the machine had then, by the machine's own step, and leads to its state.
#[derive(Drop)]
pub struct Logged<M: Reactor> {
    pub(crate) machine: M,
    pub(crate) log: Log,
    /// Copies of the answers that wait in the machine, with room for 8,192 more.
    pub(crate) pending: Vec<Answer>,
    pub(crate) first: Origin<M>,
    ghost legal: { Legal M.machine (M.state first.value) log },
    ghost stands: { ∥ M.state machine ≡ final_state M.machine (M.state first.value) (events_of log) ∥₁ },
    ghost signals: { M.signals machine ≡ M.signals first.value },
    ghost short: { length log < 2 ^ 64 },
    ghost copied: { pending.items ≡ (M.state machine).pending },
    ghost room: { vec_len pending + 8192 ≤ vec_capacity pending },
}
