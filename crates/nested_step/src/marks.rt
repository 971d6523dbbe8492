//! Where control rests after a step.

ghost use Rattle.std.specs.Prelude.{◌≡◌, ◌+◌, None, Some, IfOk};
ghost use Rattle.hh_term.specs.Step.{both_marks, mark_map, scope_mark, value_in};
ghost use Rattle.hh_term.specs.Touches.{held_mark, marks_numbered};
ghost use Rattle.hh_term.specs.Views.{selection_of};
ghost use Rattle.nested_step.specs.View.{in_part, selection_at};

use hh_base::value::{NoMemory, Tri, Value};
use hh_term::mark::{AsyncMark, Mark};
use host_expr::cell::{Cell, SigCell};
use std::alloc::Global;

/// The part of a statement in which control rests.
#[derive(Clone, Copy, PartialEq, Eq, Debug)]
pub enum Part {
    First,
    Second,
    Inside,
}

fn mark_in(alloc: Global, part: Part, mark: Mark) -> Result<Mark, NoMemory>
    ensures { IfOk result (λ m. selection_of m ≡ in_part part (selection_of mark)) }
{
    let inner = Box::new(alloc, mark)?;
    Ok(match part {
        Part::First => Mark::First(inner),
        Part::Second => Mark::Second(inner),
        Part::Inside => Mark::Inside(inner),
    })
}

/// The mark of a part as one of the whole statement.
pub fn next_in(alloc: Global, part: Part, next: Option<Mark>) -> Result<Option<Mark>, NoMemory>
    ensures { IfOk result (λ m. selection_at m ≡ mark_map (in_part part) (selection_at next)) }
{
    match next {
        Some(mark) => Ok(Some(mark_in(alloc, part, mark)?)),
        None => Ok(None),
    }
}

/// The marks of two parts at once.
pub fn both(
    alloc: Global,
    first: Option<Mark>,
    second: Option<Mark>,
) -> Result<Option<Mark>, NoMemory>
    ensures { IfOk result (λ m. selection_at m ≡ both_marks (selection_at first) (selection_at second)) }
{
    Ok(match (first, second) {
        (Some(m), Some(n)) => {
            let first = Box::new(alloc, m)?;
            Some(Mark::Both(first, Box::new(alloc, n)?))
        }
        (Some(m), None) => Some(Mark::First(Box::new(alloc, m)?)),
        (None, Some(n)) => Some(Mark::Second(Box::new(alloc, n)?)),
        (None, None) => None,
    })
}

/// The value of a signal that completes with this cell.
pub fn value_now(alloc: Global, cell: &SigCell) -> Result<Value, NoMemory>
    ensures { IfOk result (λ v. v ≡ value_in cell.now.preval cell.now.value) }
{
    match &cell.value {
        Cell::Known(value) => value.copy(alloc),
        Cell::Unknown | Cell::Faulted(_, _) => cell.preval.copy(alloc),
    }
}

fn mark_of_scope(alloc: Global, cell: &SigCell, mark: Mark) -> Result<Mark, NoMemory>
    ensures { IfOk result (λ m. selection_of m ≡ scope_mark cell.now (selection_of mark)) }
{
    let inner = Box::new(alloc, mark)?;
    Ok(Mark::Local(inner, cell.status == Tri::One, value_now(alloc, cell)?))
}

/// The mark of the body of a scope, whose signal has this cell, as one of the scope.
pub fn next_in_scope(
    alloc: Global,
    cell: &SigCell,
    next: Option<Mark>,
) -> Result<Option<Mark>, NoMemory>
    ensures { IfOk result (λ m. selection_at m ≡ mark_map (scope_mark cell.now) (selection_at next)) }
{
    match next {
        Some(mark) => Ok(Some(mark_of_scope(alloc, cell, mark)?)),
        None => Ok(None),
    }
}

fn held_instance(alloc: Global, instance: &AsyncMark) -> Result<Mark, NoMemory>
    ensures { IfOk result (λ m. selection_of m ≡ held_mark (selection_of (Mark.Async instance.now))) }
{
    let copy = instance.copy(alloc)?;
    Ok(Mark::Async(AsyncMark {
        suspended: true,
        ..copy
    }))
}

/// The mark, each instance in it suspended.
pub fn held(alloc: Global, mark: &Mark) -> Result<Mark, NoMemory>
    ensures { IfOk result (λ m. selection_of m ≡ held_mark (selection_of mark.now)) }
{
    match mark {
        Mark::Pause => Ok(Mark::Pause),
        Mark::Async(instance) => held_instance(alloc, instance),
        Mark::First(m) => Ok(Mark::First(Box::new(alloc, held(alloc, m)?)?)),
        Mark::Second(m) => Ok(Mark::Second(Box::new(alloc, held(alloc, m)?)?)),
        Mark::Both(m, n) => {
            let first = Box::new(alloc, held(alloc, m)?)?;
            Ok(Mark::Both(first, Box::new(alloc, held(alloc, n)?)?))
        }
        Mark::Inside(m) => Ok(Mark::Inside(Box::new(alloc, held(alloc, m)?)?)),
        Mark::Local(m, status, value) => {
            let body = Box::new(alloc, held(alloc, m)?)?;
            Ok(Mark::Local(body, *status, value.copy(alloc)?))
        }
    }
}

/// The next id. One that 64 bits do not hold counts as want of memory.
pub fn id_after(last: u64) -> Result<u64, NoMemory>
    ensures { IfOk result (λ id. id ≡ last + 1) }
{
    last.checked_add(1).ok_or(NoMemory)
}

fn numbered_instance(
    alloc: Global,
    last: u64,
    instance: &AsyncMark,
) -> Result<(Mark, u64), NoMemory>
    ensures { IfOk result (λ r. marks_numbered last (selection_of (Mark.Async instance.now))
        ≡ (selection_of r.0, r.1)) }
{
    let copy = instance.copy(alloc)?;
    if copy.id != 0 {
        return Ok((Mark::Async(copy), last));
    }
    let id = id_after(last)?;
    Ok((Mark::Async(AsyncMark { id, ..copy }), id))
}

/// The mark, whose new instances have the next ids from left to right, and the last id after them.
pub fn numbered(alloc: Global, last: u64, mark: &Mark) -> Result<(Mark, u64), NoMemory>
    ensures { IfOk result (λ r. marks_numbered last (selection_of mark.now) ≡ (selection_of r.0, r.1)) }
{
    match mark {
        Mark::Pause => Ok((Mark::Pause, last)),
        Mark::Async(instance) => numbered_instance(alloc, last, instance),
        Mark::First(m) => {
            let (body, last) = numbered(alloc, last, m)?;
            Ok((Mark::First(Box::new(alloc, body)?), last))
        }
        Mark::Second(m) => {
            let (body, last) = numbered(alloc, last, m)?;
            Ok((Mark::Second(Box::new(alloc, body)?), last))
        }
        Mark::Both(m, n) => {
            let (first, last) = numbered(alloc, last, m)?;
            let (second, last) = numbered(alloc, last, n)?;
            let first = Box::new(alloc, first)?;
            Ok((Mark::Both(first, Box::new(alloc, second)?), last))
        }
        Mark::Inside(m) => {
            let (body, last) = numbered(alloc, last, m)?;
            Ok((Mark::Inside(Box::new(alloc, body)?), last))
        }
        Mark::Local(m, status, value) => {
            let (body, last) = numbered(alloc, last, m)?;
            let body = Box::new(alloc, body)?;
            Ok((Mark::Local(body, *status, value.copy(alloc)?), last))
        }
    }
}
