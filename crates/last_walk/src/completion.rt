//! How statements complete.

ghost use Rattle.std.specs.Prelude.{◌≡◌, ◌==◌, None, Some, IfOk};
ghost use Rattle.hh_term.specs.MustCan.{lower};
ghost use Rattle.hh_term.specs.Selection.{Inside};
ghost use Rattle.hh_term.specs.Step.{both_marks, mark_map, scope_mark};
ghost use Rattle.hh_term.specs.Views.{selection_of};
ghost use Rattle.last_walk.specs.LastWalk.{ends_at, in_part, selection_at, Beside, Trapped, Wrapped};

use crate::last_pass::LastPass;
use crate::touch::stop_from;
use hh_base::value::{NoMemory, Tri};
use hh_term::mark::Mark;
use host_expr::cell::{Cell, SigCell};
use std::alloc::Global;

/// How a statement completes: its completion code, and where control rests in it then.
#[derive(Drop)]
pub struct Completion {
    pub code: u16,
    pub next: Option<Mark>,
}

/// The part of a statement in which control rests.
#[derive(Clone, Copy, PartialEq, Eq, Debug)]
pub enum Part {
    First,
    Second,
    Inside,
}

pub fn completes(code: u16) -> Completion
    ensures code { result.code ≡ code }
    ensures next { selection_at result.next ≡ None }
{
    Completion { code, next: None }
}

pub fn rests(mark: Mark) -> Completion
    ensures code { result.code ≡ 1 }
    ensures next { selection_at result.next ≡ Some (selection_of mark) }
{
    Completion {
        code: 1,
        next: Some(mark),
    }
}

pub fn has_ended(end: &Option<Completion>) -> bool
    ensures { result ≡ ends_at end.now }
{
    match end {
        Some(end) => end.code == 0,
        None => false,
    }
}

fn mark_in(alloc: Global, part: Part, mark: Mark) -> Result<Mark, NoMemory>
    ensures { IfOk result (λ m. selection_of m ≡ in_part part (selection_of mark)) }
{
    let inner = Box::new(alloc, mark)?;
    Ok(match part {
        Part::First => Mark::First(inner),
        Part::Second => Mark::Second(inner),
        Part::Inside => Mark::Inside(inner),
    })
}

/// The completion of a statement from that of its part.
#[inline(never)]
pub fn within(
    alloc: Global,
    part: Part,
    end: Option<Completion>,
) -> Result<Option<Completion>, NoMemory>
    ensures { IfOk result (Wrapped (in_part part) end) }
{
    let Some(Completion { code, next }) = end else {
        return Ok(None);
    };
    let next = match next {
        Some(mark) => Some(mark_in(alloc, part, mark)?),
        None => None,
    };
    Ok(Some(Completion { code, next }))
}

fn lowered(code: u16) -> u16
    ensures { result ≡ lower code }
{
    match code {
        0 | 2 => 0,
        1 => 1,
        code => code - 1,
    }
}

/// The completion of a trap from that of its body.
#[inline(never)]
pub fn trapped(alloc: Global, end: Option<Completion>) -> Result<Option<Completion>, NoMemory>
    ensures { IfOk result (Trapped end) }
{
    let Some(Completion { code, next }) = end else {
        return Ok(None);
    };
    let next = match next {
        Some(mark) => Some(mark_in(alloc, Part::Inside, mark)?),
        None => None,
    };
    let code = lowered(code);
    Ok(Some(Completion { code, next }))
}

fn both(alloc: Global, first: Option<Mark>, second: Option<Mark>) -> Result<Option<Mark>, NoMemory>
    ensures { IfOk result (λ m. selection_at m ≡ both_marks (selection_at first) (selection_at second)) }
{
    Ok(match (first, second) {
        (Some(m), Some(n)) => {
            let first = Box::new(alloc, m)?;
            Some(Mark::Both(first, Box::new(alloc, n)?))
        }
        (Some(m), None) => Some(Mark::First(Box::new(alloc, m)?)),
        (None, Some(n)) => Some(Mark::Second(Box::new(alloc, n)?)),
        (None, None) => None,
    })
}

/// The completion of two parts at once, whose touches are those from this place on. Where the code is not 1 no
/// control rests in them, and none of their instances runs after.
#[inline(never)]
pub fn beside(
    alloc: Global,
    from: usize,
    first: Completion,
    second: Completion,
    pass: &mut LastPass,
) -> Result<Completion, NoMemory>
    ensures { IfOk result (λ r. Beside from first second r pass.old pass.new) }
{
    let code = first.code.max(second.code);
    if code != 1 {
        stop_from(from, &mut pass.touches);
        return Ok(completes(code));
    }
    let next = both(alloc, first.next, second.next)?;
    Ok(Completion { code, next })
}

/// The mark of a scope whose signal has this cell.
fn mark_of_scope(alloc: Global, mark: Mark, cell: SigCell) -> Result<Mark, NoMemory>
    ensures { IfOk result (λ m. selection_of m ≡ scope_mark cell (selection_of mark)) }
{
    let inner = Box::new(alloc, mark)?;
    let SigCell {
        status,
        value,
        preval,
        ..
    } = cell;
    let value = match value {
        Cell::Known(value) => value,
        Cell::Unknown | Cell::Faulted(_, _) => preval,
    };
    Ok(Mark::Local(inner, status == Tri::One, value))
}

/// The completion of a scope from that of its body, where its signal has this cell.
pub fn in_scope(alloc: Global, end: Completion, cell: SigCell) -> Result<Completion, NoMemory>
    ensures code { IfOk result (λ r. r.code ≡ end.code) }
    ensures next { IfOk result (λ r. selection_at r.next ≡ mark_map (scope_mark cell) (selection_at end.next)) }
{
    let Completion { code, next } = end;
    let next = match next {
        Some(mark) => Some(mark_of_scope(alloc, mark, cell)?),
        None => None,
    };
    Ok(Completion { code, next })
}
