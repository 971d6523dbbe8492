//! Least solutions of small nets.

use crate::nets::{Gate, Reads, add_emit, add_signal, add_test, gate_of, no_nets};
use crate::random::last_cells;
use hh_base::memory::NoMemory;
use hh_base::value::{Tri, Value};
use host_expr::cell::{Cell, Cells};
use net_list::record::NetRecords;
use net_propagate::settle::{Place, reserve_records, settle_records};
use net_solution::question::Asked;
use net_solution::valuation::Valuation;
use std::alloc::Global;
use std::test::Fail;

/// Nets of number signals, each with the gates of its status, its previous status and its base value, with
/// what each test reads, with the control, the signal and what is read of each emission; and what gates and
/// the first value come to, with 5 as the last value.
#[derive(Clone, Copy)]
struct Row {
    gates: &'static [Gate],
    signals: &'static [(u32, u32, u32)],
    tests: &'static [Reads],
    emits: &'static [(u32, u32, Reads)],
    statuses: &'static [Tri],
    value: Option<i64>,
}

/// `if (S.now) { emit S; }`; a test before what it reads; two emissions that are added up; a value that waits
/// for an emission, and one for itself; emissions that are not made; a last and a first value; and an unknown
/// base value, a faulted test, and inputs that decide a gate alone.
const ROWS: [Row; 9] = [
    Row {
        gates: &[Gate::Or(&[2]), Gate::Test(0), Gate::And(&[3, 1]), Gate::One],
        signals: &[(0, 3, 3)],
        tests: &[Reads::Now(0)],
        emits: &[(2, 0, Reads::Nothing)],
        statuses: &[Tri::Unknown, Tri::Unknown, Tri::Unknown, Tri::One],
        value: None,
    },
    Row {
        gates: &[
            Gate::Test(0),
            Gate::Not(0),
            Gate::Or(&[3]),
            Gate::Or(&[4, 5]),
            Gate::One,
            Gate::Zero,
        ],
        signals: &[(2, 5, 4)],
        tests: &[Reads::Now(0)],
        emits: &[(3, 0, Reads::Number(3))],
        statuses: &[Tri::One, Tri::Zero, Tri::One, Tri::One, Tri::One, Tri::Zero],
        value: Some(3),
    },
    Row {
        gates: &[Gate::One, Gate::Zero, Gate::Or(&[2]), Gate::Or(&[0, 1])],
        signals: &[(3, 1, 0)],
        tests: &[],
        emits: &[(0, 0, Reads::Number(3)), (0, 0, Reads::Number(2))],
        statuses: &[Tri::One, Tri::Zero, Tri::Unknown, Tri::One],
        value: Some(5),
    },
    Row {
        gates: &[Gate::One, Gate::Zero, Gate::Or(&[2])],
        signals: &[(0, 1, 0)],
        tests: &[],
        emits: &[(2, 0, Reads::Number(3)), (0, 0, Reads::Number(2))],
        statuses: &[Tri::One, Tri::Zero, Tri::Unknown],
        value: None,
    },
    Row {
        gates: &[Gate::One, Gate::Zero],
        signals: &[(0, 1, 0)],
        tests: &[],
        emits: &[(0, 0, Reads::OneMore(0))],
        statuses: &[Tri::One, Tri::Zero],
        value: None,
    },
    Row {
        gates: &[Gate::One, Gate::Zero],
        signals: &[(0, 1, 0)],
        tests: &[],
        emits: &[(1, 0, Reads::OneMore(0)), (0, 0, Reads::Number(2))],
        statuses: &[Tri::One, Tri::Zero],
        value: Some(2),
    },
    Row {
        gates: &[Gate::One, Gate::Zero],
        signals: &[(1, 1, 0)],
        tests: &[],
        emits: &[(1, 0, Reads::Number(2))],
        statuses: &[Tri::One, Tri::Zero],
        value: Some(5),
    },
    Row {
        gates: &[Gate::One, Gate::Zero],
        signals: &[(1, 1, 1)],
        tests: &[],
        emits: &[],
        statuses: &[Tri::One, Tri::Zero],
        value: Some(7),
    },
    Row {
        gates: &[
            Gate::Or(&[0]),
            Gate::Or(&[0, 4]),
            Gate::And(&[0, 5]),
            Gate::Test(0),
            Gate::One,
            Gate::Zero,
        ],
        signals: &[(5, 5, 0)],
        tests: &[Reads::DividedByNought],
        emits: &[],
        statuses: &[
            Tri::Unknown,
            Tri::One,
            Tri::Zero,
            Tri::Zero,
            Tri::One,
            Tri::Zero,
        ],
        value: None,
    },
];

fn add_gates(alloc: Global, nets: &mut NetRecords, gates: &[Gate]) -> Result<(), NoMemory> {
    for gate in gates {
        nets.gates.push(gate_of(alloc, *gate)?)?;
    }
    Ok(())
}

fn add_signals(nets: &mut NetRecords, signals: &[(u32, u32, u32)]) -> Result<(), NoMemory> {
    for signal in signals {
        add_signal(nets, signal.0, signal.1, signal.2)?;
    }
    Ok(())
}

fn add_tests(alloc: Global, nets: &mut NetRecords, tests: &[Reads]) -> Result<(), NoMemory> {
    for reads in tests {
        add_test(alloc, nets, *reads)?;
    }
    Ok(())
}

fn add_emits(
    alloc: Global,
    nets: &mut NetRecords,
    emits: &[(u32, u32, Reads)],
) -> Result<(), NoMemory> {
    for emit in emits {
        add_emit(alloc, nets, emit.0, emit.1, emit.2)?;
    }
    Ok(())
}

fn nets_of(alloc: Global, row: &Row) -> Result<NetRecords, NoMemory> {
    let mut nets = no_nets(alloc)?;
    add_gates(alloc, &mut nets, row.gates)?;
    add_signals(&mut nets, row.signals)?;
    add_tests(alloc, &mut nets, row.tests)?;
    add_emits(alloc, &mut nets, row.emits)?;
    Ok(nets)
}

fn settled(alloc: Global, nets: &NetRecords, cells: &Cells) -> Result<Place, NoMemory> {
    let asked = Asked {
        registers: &[true, false],
        cells,
        answered: &[],
        given: &[],
    };
    let mut place = reserve_records(alloc, nets)?;
    settle_records(alloc, nets, &asked, &mut place)?;
    Ok(place)
}

fn has_statuses(place: &Valuation, statuses: &[Tri]) -> bool {
    for (gate, status) in statuses.iter().enumerate() {
        match place.gates.get(gate) {
            Some(found) if *found == *status => {}
            _ => return false,
        }
    }
    true
}

/// The first signal's value, where it is a known number.
fn value_of(place: &Valuation) -> Option<i64> {
    match place.cells.signals.get(0) {
        Some(cell) => match &cell.value {
            Cell::Known(Value::Int(number)) => Some(*number),
            _ => None,
        },
        None => None,
    }
}

fn comes_true(alloc: Global, row: &Row) -> Result<bool, NoMemory> {
    let nets = nets_of(alloc, row)?;
    let cells = last_cells(alloc)?;
    let place = settled(alloc, &nets, &cells)?;
    Ok(has_statuses(&place.valuation, row.statuses) && value_of(&place.valuation) == row.value)
}

#[test]
fn small_nets(rt: HostRuntime) -> Result<(), Fail> {
    for row in ROWS.iter() {
        assert!(rt; comes_true(rt.alloc(), row)?);
    }
    Ok(())
}
