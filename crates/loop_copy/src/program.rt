//! The copy of a program.

ghost use Rattle.std.specs.Prelude.{◌≡◌, IfOk};
ghost use Rattle.hh_term.specs.ProgramView.{kernel_of};
ghost use Rattle.loop_copy.specs.Copies.{copied_program};
ghost use Rattle.loop_copy.specs.CopiedView.{copied_of};

use crate::copied::Copied;
use crate::copier::Copier;
use crate::declarations::{copy_bodies, copy_signals, own_numbers};
use hh_base::value::NoMemory;
use hh_term::program::Program;
use std::alloc::Global;

/// The program with each loop's body twice, the second time with locals and async sites of its own.
pub fn copy(alloc: Global, program: &Program) -> Result<Copied, NoMemory>
    ensures { IfOk result (λ c. copied_of c ≡ copied_program (kernel_of program.now)) }
{
    let declared = program.signals();
    let interface = program.interface_len();
    let mut copier = Copier {
        numbers: own_numbers(alloc, declared.len())?,
        signals: copy_signals(alloc, declared, interface as usize)?,
        sites: Vec::new(alloc),
    };
    let term = copier.statement(alloc, program, program.term())?;
    let bodies = copy_bodies(alloc, program.bodies())?;
    let Copier {
        numbers: _,
        signals,
        sites,
    } = copier;
    Ok(Copied::new(signals, interface, bodies, sites, term))
}
