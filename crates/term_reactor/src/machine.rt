//! The machine on terms.

ghost use Rattle.std.specs.Prelude.{◌≡◌, map};
ghost use Rattle.hh_term.specs.ProgramView.{kernel_of};
ghost use Rattle.term_machine.specs.ConstructiveMachine.{body_answers};
ghost use Rattle.term_reactor.specs.Standing.{Keeps, state_at, keeps_prop};

use crate::stand::Stand;
use hh_base::value::Kind;
use hh_term::program::Program;

mod events;
mod start;

/// A program as a machine: each event is a reaction of it by the constructive semantics.
#[derive(Drop)]
pub struct TermMachine {
    program: Program,
    kinds: Vec<Kind>,
    stand: Stand,
    pub ghost keeps: { Keeps (state_at (kernel_of program) stand) } by { keeps_prop (state_at (kernel_of program) stand) },
    pub ghost answers: { kinds.items ≡ map body_answers (kernel_of program).bodies },
}
