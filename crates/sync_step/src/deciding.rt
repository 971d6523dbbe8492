//! What is decided.

ghost use Rattle.std.specs.Prelude.{◌≡◌, ◌≤◌, ◌&&◌, length, IfOk, ℕ, List as AList};
ghost use Rattle.hh_base.specs.declared.value.Value.{Value as AValue};
ghost use Rattle.host_expr.specs.Environment.{env_of, is_decided, is_known};
ghost use Rattle.hh_term.specs.Reaction.{outers_from, undecided, Last};

use hh_base::value::{NoMemory, Tri};
use host_expr::cell::{Cell, SigCell};
use std::alloc::Global;

fn is_settled(cell: &SigCell) -> bool
    ensures { result ≡ (is_decided cell.now.status && is_known cell.now.value) }
{
    cell.status != Tri::Unknown && !matches!(cell.value, Cell::Unknown)
}

/// Of the first so many signals those whose status or value is unknown, in order.
pub fn undecided(alloc: Global, count: u32, cells: &[SigCell]) -> Result<Vec<u32>, NoMemory>
    requires { count ≤ length cells.now }
    ensures { IfOk result (λ v. (is : AList (ℕ × AValue)) (ls : AList Last) → length ls ≡ count →
        v.items ≡ undecided (env_of cells.now) (outers_from 0 is ls)) }
{
    let mut signals = Vec::new(alloc);
    for signal in 0..count {
        if !is_settled(&cells[signal as usize]) {
            signals.push(signal)?;
        }
    }
    Ok(signals)
}
