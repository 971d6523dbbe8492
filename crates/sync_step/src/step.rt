//! A reaction.

ghost use Rattle.std.specs.Prelude.{◌≡◌, length, IfOk};
ghost use Rattle.hh_term.specs.ProgramView.{kernel_of};
ghost use Rattle.hh_term.specs.Reaction.{reaction};
ghost use Rattle.hh_term.specs.Views.{control_in};
ghost use Rattle.status_rounds.specs.Before.{lasts_of};
ghost use Rattle.status_rounds.specs.Given.{NoneTwice};
ghost use Rattle.sync_step.specs.Told.{Tells};

use crate::answer::StepEnd;
use crate::deciding::undecided;
use crate::giving::give;
use crate::judging::judge_interface;
use crate::telling::told;
use hh_base::value::{NoMemory, Value};
use hh_term::mark::Marked;
use hh_term::program::Program;
use last_walk::last_pass::LastPass;
use last_walk::whole::walk;
use status_rounds::settle::{Before, settle};
use std::alloc::Global;
use std::mem;

/// The reaction of the program where its control rests, after these last statuses and values of its interface,
/// to these inputs. `last` is the last id that an instance got.
pub fn step(
    alloc: Global,
    program: &Program,
    marked: &Marked,
    before: &Before,
    inputs: &[(u32, Value)],
    last: u64,
) -> Result<StepEnd, NoMemory>
    requires before { length before.now.cells.items ≡ (kernel_of program.now).interface }
    requires inputs { NoneTwice inputs.now }
    ensures { IfOk result
        (Tells (kernel_of program.now) (reaction (kernel_of program.now) (control_in marked.now)
        (lasts_of before.now.cells.items) inputs.now last)) }
{
    let settled = settle(alloc, program, marked, before, inputs)?;
    let unknown = undecided(alloc, program.interface_len(), &settled.cells.signals)?;
    if !unknown.is_empty() {
        return Ok(StepEnd::Undecided(unknown));
    }
    let mut pass = LastPass::new(alloc, settled.cells)?;
    give(alloc, inputs, &mut pass)?;
    let Some(ran) = walk(alloc, program, marked, &settled.table, &mut pass)? else {
        return Ok(StepEnd::Undecided(Vec::new(alloc)));
    };
    let emitted = mem::replace(&mut pass.emitted, Vec::new(alloc));
    judge_interface(program, &emitted, &mut pass);
    let stepped = told(alloc, program, last, ran, &emitted, pass)?;
    Ok(StepEnd::Stepped(stepped))
}
