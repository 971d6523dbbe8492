//! All equations are taken once, in their order.
ghost use Rattle.std.specs.Prelude.{◌≡◌, ◌≤◌, IfOk, length};
ghost use Rattle.net_propagate.specs.Settling.{
  IsUnderWay,
  nets_in,
  question_in,
  is_gate_given,
  is_value_given,
  left_in,
  Taken,
  Swept,
};
ghost use Rattle.net_propagate.specs.Settling.{SweptAll};

use crate::news::{News, Node};
use crate::step::{take_gate, take_value};
use crate::task::Task;
use hh_base::memory::NoMemory;
use net_solution::valuation::Valuation;
use std::alloc::Global;

/// Takes a gate's equation, and notes the gate where it is new.
pub fn note_gate(
    alloc: Global,
    task: &Task<'_>,
    place: &mut Valuation,
    news: &mut News,
    gate: usize,
) -> Result<bool, NoMemory>
    requires { IsUnderWay task.now place.old }
    ensures way { IsUnderWay task.now place.new }
    ensures up { left_in place.new ≤ left_in place.old }
    ensures taken { IfOk result (λ more. Taken place.old place.new
        (is_gate_given (nets_in task.now) (question_in task.now) place.old gate) more) }
{
    let more = take_gate(alloc, task, place, gate)?;
    news.note_if(more, Node::Gate(gate))?;
    Ok(more)
}

/// Takes the equation of a signal's value, and notes the value where it is new.
pub fn note_value(
    alloc: Global,
    task: &Task<'_>,
    place: &mut Valuation,
    news: &mut News,
    signal: usize,
) -> Result<bool, NoMemory>
    requires { IsUnderWay task.now place.old }
    ensures way { IsUnderWay task.now place.new }
    ensures up { left_in place.new ≤ left_in place.old }
    ensures taken { IfOk result (λ more. Taken place.old place.new
        (is_value_given (nets_in task.now) (question_in task.now) place.old signal) more) }
{
    let more = take_value(alloc, task, place, signal)?;
    news.note_if(more, Node::Value(signal))?;
    Ok(more)
}

fn sweep_gates(
    alloc: Global,
    task: &Task<'_>,
    place: &mut Valuation,
    news: &mut News,
) -> Result<bool, NoMemory>
    requires { IsUnderWay task.now place.old }
    ensures way { IsUnderWay task.now place.new }
    ensures up { left_in place.new ≤ left_in place.old }
    ensures swept { IfOk result (λ more. Swept place.old place.new
        (is_gate_given (nets_in task.now) (question_in task.now)) (length (nets_in task.now).gates) more) }
{
    let mut more = false;
    'gates: for gate in 0..task.nets.gates.len() {
        more |= note_gate(alloc, task, place, news, gate)?;
    }
    Ok(more)
}

fn sweep_values(
    alloc: Global,
    task: &Task<'_>,
    place: &mut Valuation,
    news: &mut News,
) -> Result<bool, NoMemory>
    requires { IsUnderWay task.now place.old }
    ensures way { IsUnderWay task.now place.new }
    ensures up { left_in place.new ≤ left_in place.old }
    ensures swept { IfOk result (λ more. Swept place.old place.new
        (is_value_given (nets_in task.now) (question_in task.now)) (length (nets_in task.now).signals) more) }
{
    let mut more = false;
    'signals: for signal in 0..task.nets.signals.len() {
        more |= note_value(alloc, task, place, news, signal)?;
    }
    Ok(more)
}

/// Takes each equation once. Tells whether one gave something.
pub fn sweep(
    alloc: Global,
    task: &Task<'_>,
    place: &mut Valuation,
    news: &mut News,
) -> Result<bool, NoMemory>
    requires { IsUnderWay task.now place.old }
    ensures way { IsUnderWay task.now place.new }
    ensures up { left_in place.new ≤ left_in place.old }
    ensures swept { IfOk result (SweptAll (nets_in task.now) (question_in task.now) place.old place.new) }
{
    let gates = sweep_gates(alloc, task, place, news)?;
    let values = sweep_values(alloc, task, place, news)?;
    Ok(gates | values)
}
