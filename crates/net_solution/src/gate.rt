//! The equation of a gate.
ghost use Rattle.std.specs.Prelude.{◌≡◌, [], IfOk, slice_get, get_or};
ghost use Rattle.std.specs.List.{list_any, list_all};
ghost use Rattle.host_expr.specs.Environment.{is_present};
ghost use Rattle.hh_base.specs.declared.value.Tri.TheVariants as tri;
ghost use Rattle.host_expr.specs.Evaluation.{truth};
ghost use Rattle.net_solution.specs.Places.{question_of, seen_in};
ghost use Rattle.net_solution.specs.Equations.{status_of_truth, opposite, and_over, or_over, test_status};
ghost use Rattle.net_solution.specs.Equations.{tested, gate_value, is_absent};

use crate::expression::expression_value;
use crate::question::{Asked, is_given, is_last, is_part, state_of};
use crate::valuation::{Valuation, is_present, status_of};
use hh_base::memory::NoMemory;
use hh_base::value::{Tri, Value};
use host_expr::cell::Cell;
use net_list::gate::NetGate;
use net_list::record::NetRecords;
use std::alloc::Global;

fn status_of_truth(truth: bool) -> Tri
    ensures { result ≡ status_of_truth truth }
{
    if truth { Tri::One } else { Tri::Zero }
}

fn opposite(status: Tri) -> Tri
    ensures { result ≡ opposite status }
{
    match status {
        Tri::Zero => Tri::One,
        Tri::One => Tri::Zero,
        Tri::Unknown => Tri::Unknown,
    }
}

fn is_absent(status: Tri) -> bool
    ensures { result ≡ is_absent status }
{
    matches!(status, Tri::Zero)
}

fn is_any_absent(gates: &[Tri], inputs: &[u32]) -> bool
    ensures { result ≡ list_any (λ g. is_absent (get_or gates.now g tri.Unknown)) inputs.now }
{
    inputs.iter().any(|gate| is_absent(status_of(gates, *gate)))
}

fn is_any_present(gates: &[Tri], inputs: &[u32]) -> bool
    ensures { result ≡ list_any (λ g. is_present (get_or gates.now g tri.Unknown)) inputs.now }
{
    inputs
        .iter()
        .any(|gate| is_present(status_of(gates, *gate)))
}

fn are_all_absent(gates: &[Tri], inputs: &[u32]) -> bool
    ensures { result ≡ list_all (λ g. is_absent (get_or gates.now g tri.Unknown)) inputs.now }
{
    inputs.iter().all(|gate| is_absent(status_of(gates, *gate)))
}

fn are_all_present(gates: &[Tri], inputs: &[u32]) -> bool
    ensures { result ≡ list_all (λ g. is_present (get_or gates.now g tri.Unknown)) inputs.now }
{
    inputs
        .iter()
        .all(|gate| is_present(status_of(gates, *gate)))
}

/// One input that is 0 decides an `and`.
pub fn and_over(gates: &[Tri], inputs: &[u32]) -> Tri
    ensures { result ≡ and_over (λ g. get_or gates.now g tri.Unknown) inputs.now }
{
    if is_any_absent(gates, inputs) {
        Tri::Zero
    } else if are_all_present(gates, inputs) {
        Tri::One
    } else {
        Tri::Unknown
    }
}

/// One input that is 1 decides an `or`.
pub fn or_over(gates: &[Tri], inputs: &[u32]) -> Tri
    ensures { result ≡ or_over (λ g. get_or gates.now g tri.Unknown) inputs.now }
{
    if is_any_present(gates, inputs) {
        Tri::One
    } else if are_all_absent(gates, inputs) {
        Tri::Zero
    } else {
        Tri::Unknown
    }
}

fn truth(value: &Value) -> bool
    ensures { result ≡ truth value.now }
{
    match value {
        Value::Bool(truth) => *truth,
        _ => false,
    }
}

fn test_status(cell: &Cell) -> Tri
    ensures { result ≡ test_status cell.now }
{
    match cell {
        Cell::Unknown => Tri::Unknown,
        Cell::Known(value) => status_of_truth(truth(value)),
        Cell::Faulted(_, _) => Tri::Zero,
    }
}

fn test_value(
    alloc: Global,
    nets: &NetRecords,
    place: &Valuation,
    test: u32,
) -> Result<Tri, NoMemory>
    requires { place.now.cells.args.items ≡ [] }
    ensures { IfOk result (λ t. t
        ≡ test_status (tested (seen_in place.now) (slice_get nets.now.tests test))) }
{
    match nets.tests.get(test as usize) {
        Some(test) => {
            let cell = expression_value(alloc, &test.expr, &place.cells, &place.before)?;
            Ok(test_status(&cell))
        }
        None => Ok(Tri::Unknown),
    }
}

/// What the equation of a gate gives. The time is that of one walk over its inputs, or over its test's
/// expression.
pub fn gate_value(
    alloc: Global,
    nets: &NetRecords,
    asked: &Asked<'_>,
    place: &Valuation,
    gate: &NetGate,
) -> Result<Tri, NoMemory>
    requires { place.now.cells.args.items ≡ [] }
    ensures { IfOk result (λ t. t ≡ gate_value nets.now (question_of asked.now)
        (λ g. get_or place.now.gates.items g tri.Unknown) (seen_in place.now) gate.now) }
{
    match gate {
        NetGate::Zero => Ok(Tri::Zero),
        NetGate::One => Ok(Tri::One),
        NetGate::Not(input) => Ok(opposite(status_of(&place.gates, *input))),
        NetGate::And(inputs) => Ok(and_over(&place.gates, inputs.as_slice())),
        NetGate::Or(inputs) => Ok(or_over(&place.gates, inputs.as_slice())),
        NetGate::Reg(register) => Ok(status_of_truth(state_of(asked, *register))),
        NetGate::Test(test) => test_value(alloc, nets, place, *test),
        NetGate::Input(signal) => Ok(status_of_truth(is_given(asked, *signal))),
        NetGate::Answer(exec) => Ok(status_of_truth(is_last(asked, *exec))),
        NetGate::Part(exec) => Ok(status_of_truth(is_part(asked, *exec))),
    }
}
