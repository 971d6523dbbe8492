//! Nets that are made part by part.

use hh_base::memory::NoMemory;
use hh_base::value::{CombineWord, Dir, Kind, Pos, Value};
use hh_term::program::SignalDecl;
use host_expr::expr::{Expr, ExprNode, Op};
use net_list::gate::{NetGate, Wires};
use net_list::record::{NetEmit, NetRecords, NetSignal, NetTest, Sent};
use sqlite_items::{Boxed, Items};
use std::alloc::Global;

/// No gates and no signals; register 0 holds, and register 1 does not.
pub fn no_nets(alloc: Global) -> Result<NetRecords, NoMemory> {
    let mut registers = Items::new(alloc);
    registers.push((true, 0))?;
    registers.push((false, 0))?;
    Ok(NetRecords {
        version: 2,
        signals: Items::new(alloc),
        bodies: Items::new(alloc),
        registers,
        gates: Items::new(alloc),
        tests: Items::new(alloc),
        emits: Items::new(alloc),
        execs: Items::new(alloc),
        done: 0,
    })
}

/// The inputs of a gate.
pub fn wires(alloc: Global, inputs: &[u32]) -> Result<Wires, NoMemory> {
    let mut wires = Wires::new(alloc);
    for input in inputs {
        wires.push(*input)?;
    }
    Ok(wires)
}

fn leaf(node: ExprNode<u32>) -> Expr<u32> {
    Expr { pos: Pos(0), node }
}

/// What a test reads of a signal, or what an emission carries.
#[derive(Clone, Copy)]
pub enum Reads {
    Nothing,
    Number(i64),
    Now(u32),
    Pre(u32),
    Value(u32),
    Last(u32),
    OneMore(u32),
    DividedByNought,
}

fn added(alloc: Global, op: Op, left: Expr<u32>, number: i64) -> Result<Expr<u32>, NoMemory> {
    let left = Boxed::new(alloc, left)?;
    let right = Boxed::new(alloc, leaf(ExprNode::Int(number)))?;
    Ok(leaf(ExprNode::Arith(op, left, right)))
}

/// An expression that reads so.
pub fn reading(alloc: Global, reads: Reads) -> Result<Expr<u32>, NoMemory> {
    match reads {
        Reads::Nothing => Ok(leaf(ExprNode::Bool(true))),
        Reads::Number(number) => Ok(leaf(ExprNode::Int(number))),
        Reads::Now(signal) => Ok(leaf(ExprNode::Now(signal))),
        Reads::Pre(signal) => Ok(leaf(ExprNode::Pre(signal))),
        Reads::Value(signal) => Ok(leaf(ExprNode::NowVal(signal))),
        Reads::Last(signal) => Ok(leaf(ExprNode::PreVal(signal))),
        Reads::OneMore(signal) => added(alloc, Op::Add, leaf(ExprNode::NowVal(signal)), 1),
        Reads::DividedByNought => added(alloc, Op::Div, leaf(ExprNode::Int(1)), 0),
    }
}

/// A gate of a row.
#[derive(Clone, Copy)]
pub enum Gate {
    Zero,
    One,
    Reg(u32),
    Not(u32),
    And(&'static [u32]),
    Or(&'static [u32]),
    Test(u32),
    Input(u32),
}

pub fn gate_of(alloc: Global, gate: Gate) -> Result<NetGate, NoMemory> {
    match gate {
        Gate::Zero => Ok(NetGate::Zero),
        Gate::One => Ok(NetGate::One),
        Gate::Reg(register) => Ok(NetGate::Reg(register)),
        Gate::Not(input) => Ok(NetGate::Not(input)),
        Gate::And(inputs) => Ok(NetGate::And(wires(alloc, inputs)?)),
        Gate::Or(inputs) => Ok(NetGate::Or(wires(alloc, inputs)?)),
        Gate::Test(test) => Ok(NetGate::Test(test)),
        Gate::Input(signal) => Ok(NetGate::Input(signal)),
    }
}

/// Adds a test.
pub fn add_test(alloc: Global, nets: &mut NetRecords, reads: Reads) -> Result<(), NoMemory> {
    let expr = reading(alloc, reads)?;
    nets.tests.push(NetTest {
        control: 0,
        expr,
        pos: Pos(0),
    })?;
    Ok(())
}

/// Adds an emission.
pub fn add_emit(
    alloc: Global,
    nets: &mut NetRecords,
    control: u32,
    signal: u32,
    reads: Reads,
) -> Result<(), NoMemory> {
    let expr = reading(alloc, reads)?;
    nets.emits.push(NetEmit {
        control,
        signal,
        sent: Sent::Computed(expr),
        pos: Pos(0),
    })?;
    Ok(())
}

/// Adds a number signal with these gates for its status, its previous status and its base value. Its first
/// value is 7, and several emissions are added up.
pub fn add_signal(nets: &mut NetRecords, status: u32, pre: u32, sel: u32) -> Result<(), NoMemory> {
    nets.signals.push(NetSignal {
        decl: SignalDecl {
            name: None,
            dir: Dir::Local,
            kind: Kind::Int,
            first: Value::Int(7),
            combine: Some(CombineWord::Plus),
            pos: Pos(0),
        },
        status,
        pre,
        sel,
    })?;
    Ok(())
}
