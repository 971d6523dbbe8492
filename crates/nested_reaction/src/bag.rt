//! The emissions that run, or may run.

ghost use Rattle.std.specs.Prelude.{◌≡◌, ◌++◌, [], cond, not, IfOk, OnOk};
ghost use Rattle.host_expr.specs.Environment.{is_known};
ghost use Rattle.hh_term.specs.MustCan.{all_known, cells_of, status_by, value_by, without};

use crate::combination::{combined, values_in};
use crate::environment::copy_cell;
use hh_base::value::{CombineWord, Kind, NoMemory, Tri, Value};
use host_expr::cell::Cell;
use std::alloc::Global;

/// Emissions in the order in which they were met: a signal, and what it was emitted with.
pub type Bag = Vec<(u32, Cell)>;

/// What a signal's emissions are with.
pub fn cells_of(alloc: Global, signal: u32, bag: &[(u32, Cell)]) -> Result<Vec<Cell>, NoMemory>
    ensures { IfOk result (λ v. v.items ≡ cells_of signal bag.now) }
{
    match bag {
        [] => Ok(Vec::new(alloc)),
        [first, rest @ ..] => {
            let mut cells = cells_of(alloc, signal, rest)?;
            if first.0 != signal {
                return Ok(cells);
            }
            cells.insert(0, copy_cell(alloc, &first.1)?)?;
            Ok(cells)
        }
    }
}

/// The emissions of the other signals.
pub fn without(alloc: Global, signal: u32, bag: &[(u32, Cell)]) -> Result<Bag, NoMemory>
    ensures { IfOk result (λ v. v.items ≡ without signal bag.now) }
{
    match bag {
        [] => Ok(Vec::new(alloc)),
        [first, rest @ ..] => {
            let mut others = without(alloc, signal, rest)?;
            if first.0 == signal {
                return Ok(others);
            }
            others.insert(0, (first.0, copy_cell(alloc, &first.1)?))?;
            Ok(others)
        }
    }
}

fn is_known(cell: &Cell) -> bool
    ensures { result ≡ is_known cell.now }
{
    !matches!(cell, Cell::Unknown)
}

fn all_known(cells: &[Cell]) -> bool
    ensures { result ≡ all_known cells.now }
{
    match cells {
        [] => true,
        [first, rest @ ..] => is_known(first) && all_known(rest),
    }
}

/// Present where it must be emitted, absent where it cannot be.
pub fn status_by(must: &[Cell], can: &[Cell]) -> Tri
    ensures { result ≡ status_by must.now can.now }
{
    match (must, can) {
        ([_, ..], _) => Tri::One,
        ([], []) => Tri::Zero,
        ([], [_, ..]) => Tri::Unknown,
    }
}

/// The previous value where it cannot be emitted, the combination where all emissions are decided and known.
pub fn value_by(
    alloc: Global,
    kind: Kind,
    word: Option<CombineWord>,
    before: &Value,
    must: &[Cell],
    can: &[Cell],
) -> Result<Cell, NoMemory>
    ensures { IfOk result (λ c. c ≡ value_by kind word before.now must.now can.now) }
{
    if can.is_empty() {
        return Ok(Cell::Known(before.copy(alloc)?));
    }
    if must.len() == can.len() && all_known(must) {
        let values = values_in(alloc, kind, must)?;
        return Ok(Cell::Known(combined(alloc, kind, word, &values)?));
    }
    Ok(Cell::Unknown)
}

/// Adds the second bag behind the first where the flag is set.
pub fn append_where(flag: bool, first: &mut Bag, second: &mut Bag) -> Result<(), NoMemory>
    ensures { OnOk result (first.new.items ≡ first.old.items ++ cond flag second.old.items []) }
{
    if flag {
        first.append(second)?;
    }
    Ok(())
}
