//! The ids of started instances.

ghost use Rattle.std.specs.Prelude.{◌≡◌, ◌+◌, ◌∷◌, map, IfOk, OnOk, List as AList};
ghost use Rattle.hh_term.specs.Touches.{marks_numbered, numbered, Touch as ATouch};
ghost use Rattle.hh_term.specs.Views.{selection_of};
ghost use Rattle.last_walk.specs.LastWalk.{touch_of};

use hh_base::value::NoMemory;
use hh_term::mark::{AsyncMark, Mark};
use last_walk::touch::Touch;

/// The next id. One that 64 bits do not hold counts as want of memory.
fn id_after(last: u64) -> Result<u64, NoMemory>
    ensures { IfOk result (λ id. id ≡ last + 1) }
{
    last.checked_add(1).ok_or(NoMemory)
}

/// Gives the next id to an instance that was started and runs after. The answer is the last id after that.
fn number_touch(last: u64, touch: &mut Touch) -> Result<u64, NoMemory>
    ensures { IfOk result (λ id. (ts : AList ATouch) → numbered last (touch_of touch.old ∷ ts)
        ≡ touch_of touch.new ∷ numbered id ts) }
{
    if touch.started.is_none() || !touch.runs_after {
        return Ok(last);
    }
    touch.id = id_after(last)?;
    Ok(touch.id)
}

/// Gives the next ids to the instances that were started and run after, in the order of their touches.
pub fn number_touches(last: u64, touches: &mut Vec<Touch>) -> Result<(), NoMemory>
    ensures { OnOk result (map touch_of touches.new.items ≡ numbered last (map touch_of touches.old.items)) }
{
    let mut last = last;
    for at in 0..touches.len() {
        last = number_touch(last, &mut touches[at])?;
    }
    Ok(())
}

fn number_mark(last: u64, instance: &mut AsyncMark) -> Result<u64, NoMemory>
    ensures { IfOk result (λ id. marks_numbered last (selection_of (Mark.Async instance.old))
        ≡ (selection_of (Mark.Async instance.new), id)) }
{
    if instance.id != 0 {
        return Ok(last);
    }
    instance.id = id_after(last)?;
    Ok(instance.id)
}

/// Gives the next ids to the instances whose marks have the id 0, from left to right. The answer is the last
/// id after that.
pub fn number_marks(last: u64, mark: &mut Mark) -> Result<u64, NoMemory>
    ensures { IfOk result (λ id. marks_numbered last (selection_of mark.old) ≡ (selection_of mark.new, id)) }
{
    match mark {
        Mark::Pause => Ok(last),
        Mark::Async(instance) => number_mark(last, instance),
        Mark::First(m) => number_marks(last, m),
        Mark::Second(m) => number_marks(last, m),
        Mark::Inside(m) => number_marks(last, m),
        Mark::Local(m, _, _) => number_marks(last, m),
        Mark::Both(m, n) => {
            let last = number_marks(last, m)?;
            number_marks(last, n)
        }
    }
}
