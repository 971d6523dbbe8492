//! The given inputs of a reaction.

ghost use Rattle.std.specs.Prelude.{[], OnOk};
ghost use Rattle.hh_term.specs.MustCan.{Table as ATable};
ghost use Rattle.last_walk.specs.LastWalk.{Noted};
ghost use Rattle.status_rounds.specs.Given.{given_all};

use hh_base::value::{NoMemory, Value};
use host_expr::cell::Cell;
use last_walk::last_pass::LastPass;
use std::alloc::Global;

/// Notes each given input as an emission.
pub fn give(alloc: Global, inputs: &[(u32, Value)], pass: &mut LastPass) -> Result<(), NoMemory>
    ensures { OnOk result ((T : ATable) → Noted T (given_all inputs.now) [] [] [] pass.old pass.new) }
{
    for input in inputs {
        let cell = Cell::Known(input.1.copy(alloc)?);
        pass.emit(input.0, &cell)?;
    }
    Ok(())
}
