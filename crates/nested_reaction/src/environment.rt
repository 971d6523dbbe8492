//! What is known of the signals in scope.

ghost use Rattle.std.specs.Prelude.{◌≡◌, ◌≤◌, [], length, IfOk, OnOk};
ghost use Rattle.host_expr.specs.Environment.{env_of, environment_of, put, unsolved};

use hh_base::value::{NoMemory, Tri, Value};
use host_expr::cell::{Cell, Cells, SigCell};
use std::alloc::Global;

pub fn copy_cell(alloc: Global, cell: &Cell) -> Result<Cell, NoMemory>
    ensures { IfOk result (λ c. c ≡ cell.now) }
{
    Ok(match cell {
        Cell::Unknown => Cell::Unknown,
        Cell::Known(value) => Cell::Known(value.copy(alloc)?),
        Cell::Faulted(pos, kind) => Cell::Faulted(*pos, *kind),
    })
}

pub fn copy_signal(alloc: Global, signal: &SigCell) -> Result<SigCell, NoMemory>
    ensures { IfOk result (λ c. c ≡ signal.now) }
{
    let value = copy_cell(alloc, &signal.value)?;
    let preval = signal.preval.copy(alloc)?;
    Ok(SigCell {
        status: signal.status,
        value,
        pre: signal.pre,
        preval,
    })
}

/// A signal of which nothing is known yet but its previous status and value.
pub fn unsolved(pre: bool, preval: Value) -> SigCell
    ensures { result ≡ unsolved pre preval }
{
    SigCell {
        status: Tri::Unknown,
        value: Cell::Unknown,
        pre,
        preval,
    }
}

fn copy_signals(alloc: Global, signals: &[SigCell]) -> Result<Vec<SigCell>, NoMemory>
    ensures { IfOk result (λ v. v.items ≡ signals.now) }
{
    let mut copies = Vec::with_capacity(alloc, signals.len())?;
    for signal in signals {
        copies.push(copy_signal(alloc, signal)?)?;
    }
    Ok(copies)
}

/// Signals of which nothing is known behind the others, so that there are at least as many.
fn lengthen(signals: &mut Vec<SigCell>, count: usize) -> Result<(), NoMemory>
    ensures env { OnOk result (env_of signals.new.items ≡ env_of signals.old.items) }
    ensures count { OnOk result (count ≤ length signals.new.items) }
{
    for signal in signals.len()..count {
        signals.push(unsolved(false, Value::Unit))?;
    }
    Ok(())
}

/// An environment with this cell for the signal: an inner scope hides the outer one.
pub fn with(alloc: Global, cells: &Cells, signal: u32, cell: SigCell) -> Result<Cells, NoMemory>
    ensures env { IfOk result (λ c. environment_of c ≡ put (environment_of cells.now) signal cell) }
    ensures args { IfOk result (λ c. c.args.items ≡ []) }
{
    let mut signals = copy_signals(alloc, &cells.signals)?;
    lengthen(&mut signals, signal as usize + 1)?;
    signals[signal as usize] = cell;
    Ok(Cells {
        signals,
        args: Vec::new(alloc),
    })
}
