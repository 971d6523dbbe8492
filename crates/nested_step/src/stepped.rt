//! What a statement does in a step, and how the steps of its parts make that of the whole.

ghost use Rattle.std.specs.Prelude.{◌≡◌, ◌==◌, ◌++◌, ◌∷◌, [], None, Some, cond, map, IfOk};
ghost use Rattle.host_expr.specs.declared.cell.Cell.TheVariants as ACell;
ghost use Rattle.hh_term.specs.MustCan.{lower};
ghost use Rattle.hh_term.specs.Selection.{Selection as ASelection};
ghost use Rattle.hh_term.specs.Step.{beside as beside_each, closed, completes, emit_step, joined, on_test};
ghost use Rattle.hh_term.specs.Step.{rests, then_start, with_fault, wrap, wrapped};
ghost use Rattle.hh_term.specs.Views.{selection_of};
ghost use Rattle.nested_step.specs.View.{beside_of, in_part, step_of, stepped_of, touch_of, trap_of};

use crate::marks::{Part, both, next_in};
use crate::touches::{Touch, stopped};
use hh_base::value::{FaultKind, NoMemory, Pos, Value};
use hh_term::mark::Mark;
use host_expr::cell::Cell;
use nested_reaction::bag::Bag;
use std::alloc::Global;

/// Emissions, completion code, where control rests then, what was done to instances, faults, and the signals that
/// were emitted twice without a combine word.
#[derive(Drop)]
pub struct Stepped {
    pub bag: Bag,
    pub code: u16,
    pub next: Option<Mark>,
    pub touches: Vec<Touch>,
    pub faults: Vec<(Pos, FaultKind)>,
    pub doubled: Vec<u32>,
}

/// A step with this code that does nothing.
pub fn completes(alloc: Global, code: u16) -> Stepped
    ensures { stepped_of result ≡ completes code }
{
    Stepped {
        bag: Vec::new(alloc),
        code,
        next: None,
        touches: Vec::new(alloc),
        faults: Vec::new(alloc),
        doubled: Vec::new(alloc),
    }
}

/// A step after which control rests here, with these touches.
pub fn rests(alloc: Global, mark: Mark, touches: Vec<Touch>) -> Stepped
    ensures { stepped_of result ≡ rests (selection_of mark) (map touch_of touches.items) }
{
    Stepped {
        bag: Vec::new(alloc),
        code: 1,
        next: Some(mark),
        touches,
        faults: Vec::new(alloc),
        doubled: Vec::new(alloc),
    }
}

/// The step, with the fault of the cell if it has one before the others.
pub fn with_fault(mut a: Stepped, cell: &Cell) -> Result<Stepped, NoMemory>
    ensures { IfOk result (λ b. stepped_of b ≡ with_fault cell.now (stepped_of a)) }
{
    if let Cell::Faulted(pos, kind) = cell {
        a.faults.insert(0, (*pos, *kind))?;
    }
    Ok(a)
}

/// An emission, which is undefined where its value is unknown.
pub fn emits(alloc: Global, signal: u32, cell: Cell) -> Result<Option<Stepped>, NoMemory>
    ensures { IfOk result (λ a. step_of a ≡ emit_step signal cell) }
{
    if matches!(&cell, Cell::Unknown) {
        return Ok(None);
    }
    let mut a = with_fault(completes(alloc, 0), &cell)?;
    a.bag.push((signal, cell))?;
    Ok(Some(a))
}

/// The step of a part as one of the whole statement.
fn wrapped(alloc: Global, part: Part, mut a: Stepped) -> Result<Stepped, NoMemory>
    ensures { IfOk result (λ b. stepped_of b ≡ wrapped (in_part part) (stepped_of a)) }
{
    a.next = next_in(alloc, part, a.next)?;
    Ok(a)
}

/// The same where the step may be undefined.
pub fn wrap(alloc: Global, part: Part, a: Option<Stepped>) -> Result<Option<Stepped>, NoMemory>
    ensures { IfOk result (λ b. step_of b ≡ wrap (in_part part) (step_of a)) }
{
    match a {
        Some(a) => Ok(Some(wrapped(alloc, part, a)?)),
        None => Ok(None),
    }
}

/// By a test: the first where it holds, the second where it does not or faults, undefined where it is unknown.
pub fn on_test(
    cell: &Cell,
    first: Option<Stepped>,
    second: Option<Stepped>,
) -> Result<Option<Stepped>, NoMemory>
    ensures { IfOk result (λ a. step_of a ≡ on_test cell.now (step_of first) (step_of second)) }
{
    match cell {
        Cell::Unknown => Ok(None),
        Cell::Known(Value::Bool(true)) => Ok(first),
        Cell::Known(_) => Ok(second),
        Cell::Faulted(_, _) => match second {
            Some(a) => Ok(Some(with_fault(a, cell)?)),
            None => Ok(None),
        },
    }
}

/// The second step after the first.
fn joined(mut a: Stepped, mut b: Stepped) -> Result<Stepped, NoMemory>
    ensures { IfOk result (λ c. stepped_of c ≡ joined (stepped_of a) (stepped_of b)) }
{
    a.bag.append(&mut b.bag)?;
    a.touches.append(&mut b.touches)?;
    a.faults.append(&mut b.faults)?;
    a.doubled.append(&mut b.doubled)?;
    a.code = b.code;
    a.next = b.next;
    Ok(a)
}

/// The first step alone where it does not end, else the second after it.
fn followed(
    alloc: Global,
    of_first: Part,
    of_second: Part,
    first: Stepped,
    second: Option<Stepped>,
) -> Result<Option<Stepped>, NoMemory>
    ensures { IfOk result (λ a. step_of a ≡ then_start (in_part of_first) (in_part of_second) (Some (stepped_of first))
        (step_of second)) }
{
    if first.code != 0 {
        return Ok(Some(wrapped(alloc, of_first, first)?));
    }
    match second {
        Some(second) => {
            let second = wrapped(alloc, of_second, second)?;
            Ok(Some(joined(first, second)?))
        }
        None => Ok(None),
    }
}

/// The second part is started where the first ends.
pub fn then_start(
    alloc: Global,
    of_first: Part,
    of_second: Part,
    first: Option<Stepped>,
    second: Option<Stepped>,
) -> Result<Option<Stepped>, NoMemory>
    ensures { IfOk result (λ a. step_of a ≡ then_start (in_part of_first) (in_part of_second) (step_of first)
        (step_of second)) }
{
    match first {
        Some(first) => followed(alloc, of_first, of_second, first, second),
        None => Ok(None),
    }
}

/// There is a mark after the step, and its instances run on, exactly where the code is 1.
fn closed(alloc: Global, mut a: Stepped) -> Result<Stepped, NoMemory>
    ensures { IfOk result (λ b. stepped_of b ≡ closed (stepped_of a)) }
{
    if a.code == 1 {
        return Ok(a);
    }
    a.touches = stopped(alloc, &a.touches)?;
    a.next = None;
    Ok(a)
}

fn beside_each(alloc: Global, mut a: Stepped, mut b: Stepped) -> Result<Stepped, NoMemory>
    ensures { IfOk result (λ c. stepped_of c ≡ beside_each (stepped_of a) (stepped_of b)) }
{
    let code = a.code.max(b.code);
    let next = both(alloc, a.next.take(), b.next.take())?;
    let mut all = joined(a, b)?;
    all.code = code;
    all.next = next;
    closed(alloc, all)
}

/// The steps of two parts at once.
pub fn beside(
    alloc: Global,
    first: Option<Stepped>,
    second: Option<Stepped>,
) -> Result<Option<Stepped>, NoMemory>
    ensures { IfOk result (λ c. step_of c ≡ beside_of (step_of first) (step_of second)) }
{
    match (first, second) {
        (Some(a), Some(b)) => Ok(Some(beside_each(alloc, a, b)?)),
        _ => Ok(None),
    }
}

fn lowered(code: u16) -> u16
    ensures { result ≡ lower code }
{
    match code {
        0 | 2 => 0,
        1 => 1,
        code => code - 1,
    }
}

/// The step of a trap from that of its body.
pub fn trapped(alloc: Global, body: Option<Stepped>) -> Result<Option<Stepped>, NoMemory>
    ensures { IfOk result (λ a. step_of a ≡ trap_of (step_of body)) }
{
    match body {
        Some(body) => {
            let mut a = wrapped(alloc, Part::Inside, body)?;
            a.code = lowered(a.code);
            Ok(Some(a))
        }
        None => Ok(None),
    }
}
