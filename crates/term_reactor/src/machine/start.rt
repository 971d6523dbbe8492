//! The machine before its first reaction.

ghost use Rattle.std.specs.Prelude.{◌≡◌, IfOk, map};
ghost use Rattle.hh_term.specs.ProgramView.{kernel_of};
ghost use Rattle.hh_term.specs.Views.{body_of};
ghost use Rattle.reaction_run.specs.Machine.{begin};
ghost use Rattle.term_machine.specs.ConstructiveMachine.{constructive, body_answers};
ghost use Rattle.term_machine.specs.Place.{start_of};
ghost use Rattle.term_reactor.specs.Seen.{state_of};

use super::TermMachine;
use crate::stand::Stand;
use hh_base::value::{Kind, NoMemory};
use hh_term::program::{BodyDecl, Program};
use std::alloc::Global;

/// The kinds that the bodies answer.
fn kinds_of(alloc: Global, bodies: &[BodyDecl]) -> Result<Vec<Kind>, NoMemory>
    ensures { IfOk result (λ v. v.items ≡ map body_answers (map body_of bodies.now)) }
{
    let mut kinds = Vec::with_capacity(alloc, bodies.len())?;
    for body in bodies {
        kinds.push(body.answer)?;
    }
    Ok(kinds)
}

impl TermMachine {
    /// The program before its first reaction. `last` is the last id that was given to an instance.
    pub fn boot(alloc: Global, program: Program, last: u64) -> Result<TermMachine, NoMemory>
        ensures { IfOk result (λ m. state_of m ≡ begin constructive (start_of (kernel_of program)) last) }
    {
        let kinds = kinds_of(alloc, program.bodies())?;
        let stand = Stand::at_start(alloc, &program, last)?;
        Ok(TermMachine {
            program,
            kinds,
            stand,
        })
    }
}
