//! That the work list and plain rounds come to the same.
ghost use Rattle.std.specs.Prelude.{◌≡◌, IfOk};
ghost use Rattle.net_solution.specs.Places.{valuation_of};
ghost use Rattle.net_propagate.specs.Settling.{IsReserved};

use crate::settle::{Place, settle};
use hh_base::item::Item;
use hh_base::memory::NoMemory;
use hh_base::value::Value;
use host_expr::cell::Cells;
use net_list::nets::Nets;
use net_solution::rounds::settle_by_rounds;
use net_solution::valuation::Valuation;
use std::alloc::Global;

/// Settles a reaction by plain rounds, whose valuation it answers, and by a work list, whose valuation the
/// place holds. They are the same.
pub fn settle_both_ways(
    alloc: Global,
    nets: &Nets,
    registers: &[bool],
    cells: &Cells,
    answered: &[Option<Item>],
    given: &[(u32, Value)],
    place: &mut Place,
) -> Result<Valuation, NoMemory>
    requires { IsReserved nets.now place.old }
    ensures same { IfOk result (λ v. valuation_of v ≡ valuation_of place.new.valuation) }
    ensures reserved { IsReserved nets.now place.new }
{
    settle(alloc, nets, registers, cells, answered, given, place)?;
    let rounds = settle_by_rounds(alloc, nets, registers, cells, answered, given)?;
    Ok(rounds)
}
