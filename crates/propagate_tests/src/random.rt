//! Random nets, by the work list and by plain rounds.

use crate::nets::{Reads, add_emit, add_signal, add_test, no_nets};
use hh_base::memory::NoMemory;
use hh_base::value::{Tri, Value};
use host_expr::cell::{Cell, Cells, SigCell};
use net_list::gate::{NetGate, Wires};
use net_list::record::NetRecords;
use net_propagate::settle::{reserve_records, settle_records};
use net_solution::question::Asked;
use net_solution::rounds;
use net_solution::valuation::Valuation;
use std::alloc::Global;
use std::test::Fail;

const GATES: u32 = 50;

const SIGNALS: u32 = 6;

const TESTS: u32 = 8;

const EMITS: u32 = 12;

/// A number below this one. (A linear congruential generator.)
fn draw(seed: &mut u32, below: u32) -> u32 {
    *seed = seed.wrapping_mul(1_664_525).wrapping_add(1_013_904_223);
    match (*seed >> 12).checked_rem(below) {
        Some(number) => number,
        None => 0,
    }
}

fn random_inputs(alloc: Global, seed: &mut u32) -> Result<Wires, NoMemory> {
    let mut wires = Wires::new(alloc);
    for input in 0..draw(seed, 4) {
        wires.push(draw(seed, GATES))?;
    }
    Ok(wires)
}

fn random_gate(alloc: Global, seed: &mut u32) -> Result<NetGate, NoMemory> {
    match draw(seed, 12) {
        0 => Ok(NetGate::Reg(0)),
        1 => Ok(NetGate::Reg(1)),
        2 | 3 => Ok(NetGate::Not(draw(seed, GATES))),
        4 => Ok(NetGate::Input(draw(seed, SIGNALS))),
        5 | 6 => Ok(NetGate::Test(draw(seed, TESTS))),
        7 | 8 => Ok(NetGate::And(random_inputs(alloc, seed)?)),
        _ => Ok(NetGate::Or(random_inputs(alloc, seed)?)),
    }
}

fn random_reads(seed: &mut u32) -> Reads {
    let signal = draw(seed, SIGNALS);
    match draw(seed, 7) {
        0 => Reads::Now(signal),
        1 => Reads::Pre(signal),
        2 => Reads::Value(signal),
        3 => Reads::Last(signal),
        4 => Reads::OneMore(signal),
        5 => Reads::DividedByNought,
        _ => Reads::Number(5),
    }
}

fn add_gates(alloc: Global, nets: &mut NetRecords, seed: &mut u32) -> Result<(), NoMemory> {
    for gate in 0..GATES {
        nets.gates.push(random_gate(alloc, seed)?)?;
    }
    Ok(())
}

fn add_tests(alloc: Global, nets: &mut NetRecords, seed: &mut u32) -> Result<(), NoMemory> {
    for test in 0..TESTS {
        add_test(alloc, nets, random_reads(seed))?;
    }
    Ok(())
}

fn add_signals(nets: &mut NetRecords, seed: &mut u32) -> Result<(), NoMemory> {
    for signal in 0..SIGNALS {
        add_signal(
            nets,
            draw(seed, GATES),
            draw(seed, GATES),
            draw(seed, GATES),
        )?;
    }
    Ok(())
}

fn add_emits(alloc: Global, nets: &mut NetRecords, seed: &mut u32) -> Result<(), NoMemory> {
    for emit in 0..EMITS {
        let reads = random_reads(seed);
        add_emit(alloc, nets, draw(seed, GATES), draw(seed, SIGNALS), reads)?;
    }
    Ok(())
}

fn random_nets(alloc: Global, seed: u32) -> Result<NetRecords, NoMemory> {
    let mut nets = no_nets(alloc)?;
    let mut seed = seed;
    add_gates(alloc, &mut nets, &mut seed)?;
    add_tests(alloc, &mut nets, &mut seed)?;
    add_signals(&mut nets, &mut seed)?;
    add_emits(alloc, &mut nets, &mut seed)?;
    Ok(nets)
}

/// The last value of each signal is 5.
pub fn last_cells(alloc: Global) -> Result<Cells, NoMemory> {
    let mut signals = Vec::new(alloc);
    for signal in 0..SIGNALS {
        signals.push(SigCell {
            status: Tri::Unknown,
            value: Cell::Unknown,
            pre: false,
            preval: Value::Int(5),
        })?;
    }
    Ok(Cells {
        signals,
        args: Vec::new(alloc),
    })
}

fn is_same_value(value: &Value, other: &Value) -> bool {
    match (value, other) {
        (Value::Unit, Value::Unit) => true,
        (Value::Int(number), Value::Int(found)) => *number == *found,
        (Value::Bool(truth), Value::Bool(found)) => *truth == *found,
        _ => false,
    }
}

fn is_same_cell(cell: &Cell, other: &Cell) -> bool {
    match (cell, other) {
        (Cell::Unknown, Cell::Unknown) => true,
        (Cell::Known(value), Cell::Known(found)) => is_same_value(value, found),
        (Cell::Faulted(_, _), Cell::Faulted(_, _)) => true,
        _ => false,
    }
}

fn are_same_gates(place: &Valuation, rounds: &Valuation) -> bool {
    for (gate, status) in place.gates.iter().enumerate() {
        match rounds.gates.get(gate) {
            Some(found) if *found == *status => {}
            _ => return false,
        }
    }
    place.gates.len() == GATES as usize
}

fn are_same_values(place: &Valuation, rounds: &Valuation) -> bool {
    for (signal, cell) in place.cells.signals.iter().enumerate() {
        match rounds.cells.signals.get(signal) {
            Some(found) if is_same_cell(&cell.value, &found.value) => {}
            _ => return false,
        }
    }
    place.cells.signals.len() == SIGNALS as usize
}

fn is_same_by_rounds(
    alloc: Global,
    nets: &NetRecords,
    asked: &Asked<'_>,
) -> Result<bool, NoMemory> {
    let rounds = rounds::settle_records(alloc, nets, asked)?;
    let mut place = reserve_records(alloc, nets)?;
    settle_records(alloc, nets, asked, &mut place)?;
    Ok(are_same_gates(&place.valuation, &rounds) && are_same_values(&place.valuation, &rounds))
}

fn settles_as_rounds(alloc: Global, seed: u32) -> Result<bool, NoMemory> {
    let nets = random_nets(alloc, seed)?;
    let cells = last_cells(alloc)?;
    let asked = Asked {
        registers: &[true, false],
        cells: &cells,
        answered: &[],
        given: &[(0, Value::Int(4)), (3, Value::Int(9))],
    };
    is_same_by_rounds(alloc, &nets, &asked)
}

#[test]
fn random_nets_settle_as_by_rounds(rt: HostRuntime) -> Result<(), Fail> {
    for seed in 0..200 {
        assert!(rt; settles_as_rounds(rt.alloc(), seed)?);
    }
    Ok(())
}
