//! A reset: the program is put back to its start, and its instances are killed.

ghost use Rattle.std.specs.Prelude.{◌≡◌, [], IfOk, List, map};
ghost use Rattle.hh_term.specs.ProgramView.{kernel_of};
ghost use Rattle.hh_term.specs.Touches.{stopped};
ghost use Rattle.hh_term.specs.Views.{control_of};
ghost use Rattle.last_walk.specs.LastWalk.{touch_of};
ghost use Rattle.reaction_run.specs.declared.event.Event.TheVariants.{Reset};
ghost use Rattle.reaction_run.specs.Run.{next_state, reply_of};
ghost use Rattle.term_machine.specs.ConstructiveMachine.{constructive};
ghost use Rattle.term_machine.specs.Place.{holds_in};
ghost use Rattle.term_reactor.specs.Standing.{state_at, Keeps, IsTurn};

use crate::ending::changes;
use crate::stand::{Stand, Turn, first_before};
use hh_base::value::NoMemory;
use hh_term::mark::Control;
use hh_term::program::Program;
use last_walk::instance::note_held;
use last_walk::touch::{Touch, stop_from};
use reaction_run::event::copy_answers;
use reaction_run::reply::Reply;
use sqlite_items::Items;
use std::alloc::Global;

/// The instances that control holds, none of which runs after.
fn stopped_touches(
    alloc: Global,
    program: &Program,
    control: &Control,
) -> Result<Vec<Touch>, NoMemory>
    ensures { IfOk result (λ v. map touch_of v.items
        ≡ map stopped (holds_in (kernel_of program.now) (control_of control.now))) }
{
    let mut touches = Vec::new(alloc);
    if let Control::At(mark) = control {
        note_held(program.term(), mark, &mut touches)?;
    }
    stop_from(0, &mut touches);
    Ok(touches)
}

/// Each instance that runs is killed.
pub fn reset_at(alloc: Global, program: &Program, stand: &Stand) -> Result<Turn, NoMemory>
    requires { Keeps (state_at (kernel_of program.now) stand.now) }
    ensures { IfOk result (IsTurn (kernel_of program.now)
        (reply_of constructive (state_at (kernel_of program.now) stand.now) Reset)
        (next_state constructive (state_at (kernel_of program.now) stand.now) Reset)) }
{
    let touches = stopped_touches(alloc, program, &stand.control)?;
    let changes = changes(alloc, program, &touches)?;
    let last = stand.instances.last();
    let mut instances = stand.instances.copy(alloc)?;
    let mut kills = Vec::new(alloc);
    instances.advance(alloc, &changes, &mut kills)?;
    let next = Stand {
        control: Control::Fresh,
        before: first_before(alloc, program)?,
        instances,
        pending: copy_answers(alloc, &stand.pending)?,
    };
    Ok(Turn {
        reply: Reply::Reset(Items::from_vec(kills)),
        next,
    })
}
