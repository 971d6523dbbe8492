//! Steps of a valuation to the least solution: a gate, or a signal's value, takes what its equation gives.
ghost use Rattle.std.specs.Prelude.{◌≡◌, ◌≤◌, [], IfOk, OnErr, set, get_or};
ghost use Rattle.hh_base.specs.declared.value.Tri.TheVariants as tri;
ghost use Rattle.host_expr.specs.Environment.{is_known, env_of};
ghost use Rattle.net_solution.specs.Solution.{statuses, value_at};
ghost use Rattle.net_solution.specs.Places.{valuation_of};
ghost use Rattle.net_propagate.specs.Settling.{
  IsUnderWay,
  nets_in,
  question_in,
  is_gate_given,
  is_value_given,
  given_seen,
  left_in,
};
ghost use Rattle.net_propagate.specs.Settling.{Taken};

use crate::task::Task;
use crate::value::value_now;
use hh_base::memory::NoMemory;
use hh_base::value::Tri;
use host_expr::cell::{Cell, SigCell};
use net_solution::gate::gate_value;
use net_solution::valuation::{Valuation, is_decided};
use std::alloc::Global;

/// The status of a gate.
pub fn status_at(gates: &[Tri], gate: usize) -> Tri
    ensures { result ≡ get_or gates.now gate tri.Unknown }
{
    match gates.get(gate) {
        Some(status) => *status,
        None => Tri::Unknown,
    }
}

/// What the equation of a gate gives by what is known.
fn gate_now(alloc: Global, task: &Task<'_>, place: &Valuation, gate: usize) -> Result<Tri, NoMemory>
    requires { place.now.cells.args.items ≡ [] }
    ensures { IfOk result
        (λ t. t ≡ statuses (given_seen (nets_in task.now) (question_in task.now) place.now) gate) }
{
    match task.nets.gates.get(gate) {
        Some(gate) => gate_value(alloc, task.nets, &task.asked, place, gate),
        None => Ok(Tri::Unknown),
    }
}

fn put_gate(gates: &mut Vec<Tri>, gate: usize, status: Tri)
    ensures { gates.new.items ≡ set gates.old.items gate status }
{
    if gate < gates.len() {
        gates[gate] = status;
    }
}

/// A gate that is unknown takes what its equation gives. Tells whether that is known.
pub fn take_gate(
    alloc: Global,
    task: &Task<'_>,
    place: &mut Valuation,
    gate: usize,
) -> Result<bool, NoMemory>
    requires { IsUnderWay task.now place.old }
    ensures way { IsUnderWay task.now place.new }
    ensures up { left_in place.new ≤ left_in place.old }
    ensures taken { IfOk result (λ more. Taken place.old place.new
        (is_gate_given (nets_in task.now) (question_in task.now) place.old gate) more) }
{
    if is_decided(status_at(&place.gates, gate)) {
        return Ok(false);
    }
    let status = gate_now(alloc, task, place, gate)?;
    if is_decided(status) {
        put_gate(&mut place.gates, gate, status);
        return Ok(true);
    }
    Ok(false)
}

fn is_known(cell: &Cell) -> bool
    ensures { result ≡ is_known cell.now }
{
    !matches!(cell, Cell::Unknown)
}

fn is_value_known(cells: &[SigCell], signal: usize) -> bool
    ensures { result ≡ is_known (env_of cells.now signal).value }
{
    match cells.get(signal) {
        Some(cell) => is_known(&cell.value),
        None => false,
    }
}

fn put_value(cells: &mut Vec<SigCell>, signal: usize, value: Cell)
    ensures { cells.new.items
        ≡ set cells.old.items signal (record (env_of cells.old.items signal) { value = value }) }
{
    if signal < cells.len() {
        cells[signal].value = value;
    }
}

/// A value that is unknown takes what its equation gives. Tells whether that is known.
pub fn take_value(
    alloc: Global,
    task: &Task<'_>,
    place: &mut Valuation,
    signal: usize,
) -> Result<bool, NoMemory>
    requires { IsUnderWay task.now place.old }
    ensures way { IsUnderWay task.now place.new }
    ensures up { left_in place.new ≤ left_in place.old }
    ensures taken { IfOk result (λ more. Taken place.old place.new
        (is_value_given (nets_in task.now) (question_in task.now) place.old signal) more) }
{
    if is_value_known(&place.cells.signals, signal) {
        return Ok(false);
    }
    let value = value_now(alloc, task, place, signal)?;
    if is_known(&value) {
        put_value(&mut place.cells.signals, signal, value);
        return Ok(true);
    }
    Ok(false)
}
