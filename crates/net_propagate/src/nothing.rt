//! A valuation under which nothing is known.
ghost use Rattle.std.specs.Prelude.{◌≡◌, ℕ, replicate, length, false, IfOk};
ghost use Rattle.hh_base.specs.declared.value.Tri.TheVariants as tri;
ghost use Rattle.hh_base.specs.declared.value.Value.TheVariants as value;
ghost use Rattle.host_expr.specs.Environment.{unsolved, env_of};
ghost use Rattle.net_solution.specs.Places.{neither};
ghost use Rattle.net_propagate.specs.Settling.{IsBlank, HasRoomOf, HasRoom};

use hh_base::memory::NoMemory;
use hh_base::value::{Tri, Value};
use host_expr::cell::{Cell, Cells, SigCell};
use net_list::record::NetRecords;
use net_solution::valuation::{Before, Valuation};
use std::alloc::Global;

fn forget_gates(gates: &mut Vec<Tri>)
    ensures { gates.new.items ≡ replicate (length gates.old.items) tri.Unknown }
{
    gates.fill(Tri::Unknown);
}

/// A signal of which nothing is known.
pub fn unseen() -> SigCell
    ensures { result ≡ unsolved false value.Unit }
{
    SigCell {
        status: Tri::Unknown,
        value: Cell::Unknown,
        pre: false,
        preval: Value::Unit,
    }
}

fn forget_cells(cells: &mut Vec<SigCell>)
    ensures blank { (s : ℕ) → env_of cells.new.items s ≡ unsolved false value.Unit }
    ensures room { length cells.new.items ≡ length cells.old.items }
{
    'cells: for signal in 0..cells.len() {
        cells[signal] = unseen();
    }
}

fn forget_before(before: &mut Vec<Before>)
    ensures { before.new.items ≡ replicate (length before.old.items) neither }
{
    before.fill(Before {
        pre: false,
        base: false,
    });
}

/// Forgets all that is known.
pub fn forget(place: &mut Valuation)
    ensures blank { IsBlank place.new }
    ensures room { HasRoomOf place.old place.new }
{
    forget_gates(&mut place.gates);
    forget_cells(&mut place.cells.signals);
    forget_before(&mut place.before);
}

fn no_gates(alloc: Global, count: usize) -> Result<Vec<Tri>, NoMemory>
    ensures { IfOk result (λ v. length v.items ≡ count) }
{
    let mut gates = Vec::with_capacity(alloc, count)?;
    'gates: for gate in 0..count {
        gates.push(Tri::Unknown)?;
    }
    Ok(gates)
}

fn no_cells(alloc: Global, count: usize) -> Result<Vec<SigCell>, NoMemory>
    ensures { IfOk result (λ v. length v.items ≡ count) }
{
    let mut cells = Vec::with_capacity(alloc, count)?;
    'cells: for signal in 0..count {
        cells.push(unseen())?;
    }
    Ok(cells)
}

fn no_before(alloc: Global, count: usize) -> Result<Vec<Before>, NoMemory>
    ensures { IfOk result (λ v. length v.items ≡ count) }
{
    let mut before = Vec::with_capacity(alloc, count)?;
    'signals: for signal in 0..count {
        before.push(Before {
            pre: false,
            base: false,
        })?;
    }
    Ok(before)
}

/// Nothing is known, with an item for each gate and signal.
pub fn room_for(alloc: Global, nets: &NetRecords) -> Result<Valuation, NoMemory>
    ensures { IfOk result (HasRoom nets.now) }
{
    let gates = no_gates(alloc, nets.gates.len())?;
    let signals = no_cells(alloc, nets.signals.len())?;
    let before = no_before(alloc, nets.signals.len())?;
    let cells = Cells {
        signals,
        args: Vec::new(alloc),
    };
    Ok(Valuation {
        gates,
        cells,
        before,
    })
}
