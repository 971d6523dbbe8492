//! The first line with a place that is not there.
ghost use Rattle.std.specs.Prelude.{◌≡◌, ◌+◌, ◌<◌, ◌^◌, length, map, IfOk, IfErr, OnOk};
ghost use Rattle.net_list.specs.Form.{ListsCounted};
ghost use Rattle.net_list.specs.Range.{signal_in_range, body_in_range, register_in_range, gate_in_range};
ghost use Rattle.net_list.specs.Range.{test_in_range, emit_in_range, exec_in_range, AllInRange};
ghost use Rattle.net_range.specs.RuledLines.{section, IsFirstRefused, past};
ghost use Rattle.net_range.specs.LinesInRange.{lines_in_range};

use crate::line::{
    body_in_range, emit_in_range, exec_in_range, gate_in_range, is_gate, register_in_range,
    signal_in_range, test_in_range,
};
use net_list::record::NetRecords;
use thiserror::Error;

/// A line that names a place that is not there; it is the first such one, counted from 1.
#[derive(Clone, Copy, PartialEq, Eq, Debug, Error)]
#[error("line {line} names a place that is not there")]
pub struct OutOfRange {
    pub line: u64,
}

/// The number of the line behind the signals, whose count stands on line `from`, or of the first of these lines
/// that is out of range.
fn past_signals(nets: &NetRecords, from: u64) -> Result<u64, u64>
    requires { from + length nets.now.signals < 2 ^ 63 }
    ensures lines { result ≡ past from (section (signal_in_range nets.now) nets.now.signals) }
    ensures count { IfOk result (λ next. next ≡ from + 1 + length nets.now.signals) }
{
    let mut line = from + 1;
    for signal in nets.signals.as_slice() {
        if !signal_in_range(nets, signal) {
            return Err(line);
        }
        line += 1;
    }
    Ok(line)
}

/// The number of the line behind the bodies, whose count stands on line `from`, or of the first of these lines
/// that is out of range.
fn past_bodies(nets: &NetRecords, from: u64) -> Result<u64, u64>
    requires { from + length nets.now.bodies < 2 ^ 63 }
    ensures lines { result ≡ past from (section body_in_range nets.now.bodies) }
    ensures count { IfOk result (λ next. next ≡ from + 1 + length nets.now.bodies) }
{
    let mut line = from + 1;
    for body in nets.bodies.as_slice() {
        if !body_in_range(body) {
            return Err(line);
        }
        line += 1;
    }
    Ok(line)
}

/// The number of the line behind the registers, whose count stands on line `from`, or of the first of these
/// lines that is out of range.
fn past_registers(nets: &NetRecords, from: u64) -> Result<u64, u64>
    requires { from + length nets.now.registers < 2 ^ 63 }
    ensures lines { result ≡ past from (section (register_in_range nets.now) nets.now.registers) }
    ensures count { IfOk result (λ next. next ≡ from + 1 + length nets.now.registers) }
{
    let mut line = from + 1;
    for register in nets.registers.as_slice() {
        if !register_in_range(nets, register) {
            return Err(line);
        }
        line += 1;
    }
    Ok(line)
}

/// The number of the line behind the gates, whose count stands on line `from`, or of the first of these lines
/// that is out of range.
fn past_gates(nets: &NetRecords, from: u64) -> Result<u64, u64>
    requires { from + length nets.now.gates < 2 ^ 63 }
    ensures lines { result ≡ past from (section (gate_in_range nets.now) nets.now.gates) }
    ensures count { IfOk result (λ next. next ≡ from + 1 + length nets.now.gates) }
{
    let mut line = from + 1;
    for gate in nets.gates.as_slice() {
        if !gate_in_range(nets, gate) {
            return Err(line);
        }
        line += 1;
    }
    Ok(line)
}

/// The number of the line behind the tests, whose count stands on line `from`, or of the first of these lines
/// that is out of range.
fn past_tests(nets: &NetRecords, from: u64) -> Result<u64, u64>
    requires { from + length nets.now.tests < 2 ^ 63 }
    ensures lines { result ≡ past from (section (test_in_range nets.now) nets.now.tests) }
    ensures count { IfOk result (λ next. next ≡ from + 1 + length nets.now.tests) }
{
    let mut line = from + 1;
    for test in nets.tests.as_slice() {
        if !test_in_range(nets, test) {
            return Err(line);
        }
        line += 1;
    }
    Ok(line)
}

/// The number of the line behind the emits, whose count stands on line `from`, or of the first of these lines
/// that is out of range.
fn past_emits(nets: &NetRecords, from: u64) -> Result<u64, u64>
    requires { from + length nets.now.emits < 2 ^ 63 }
    ensures lines { result ≡ past from (section (emit_in_range nets.now) nets.now.emits) }
    ensures count { IfOk result (λ next. next ≡ from + 1 + length nets.now.emits) }
{
    let mut line = from + 1;
    for emit in nets.emits.as_slice() {
        if !emit_in_range(nets, emit) {
            return Err(line);
        }
        line += 1;
    }
    Ok(line)
}

/// The number of the line behind the execs, whose count stands on line `from`, or of the first of these lines
/// that is out of range.
fn past_execs(nets: &NetRecords, from: u64) -> Result<u64, u64>
    requires { from + length nets.now.execs < 2 ^ 63 }
    ensures lines { result ≡ past from (section (exec_in_range nets.now) nets.now.execs) }
    ensures count { IfOk result (λ next. next ≡ from + 1 + length nets.now.execs) }
{
    let mut line = from + 1;
    for exec in nets.execs.as_slice() {
        if !exec_in_range(nets, exec) {
            return Err(line);
        }
        line += 1;
    }
    Ok(line)
}

/// The number of the line behind the last one, or of the first that is out of range.
#[tactic(auto, using(crate::proofs::Walk::past_append))]
fn past_lines(nets: &NetRecords) -> Result<u64, u64>
    requires { ListsCounted nets.now }
    ensures { result ≡ past 1 (lines_in_range nets.now) }
{
    let bodies = past_signals(nets, 2)?;
    let registers = past_bodies(nets, bodies)?;
    let gates = past_registers(nets, registers)?;
    let tests = past_gates(nets, gates)?;
    let emits = past_tests(nets, tests)?;
    let execs = past_emits(nets, emits)?;
    let done = past_execs(nets, execs)?;
    if !is_gate(nets, nets.done) {
        return Err(done);
    }
    Ok(done + 2)
}

/// Whether each place that the lines of these nets name is there, or the first line that names another one.
pub fn check_range(nets: &NetRecords) -> Result<(), OutOfRange>
    requires { ListsCounted nets.now }
    ensures range { OnOk result (AllInRange nets.now) }
    ensures first { IfErr result (λ e. IsFirstRefused (lines_in_range nets.now) e.line) }
{
    match past_lines(nets) {
        Ok(_) => Ok(()),
        Err(line) => Err(OutOfRange { line }),
    }
}
