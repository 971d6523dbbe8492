//! The first line whose kinds do not fit.
ghost use Rattle.std.specs.Prelude.{◌≡◌, [], ◌∷◌, ◌+◌, ◌<◌, ◌^◌, true, length, map, IfOk, IfErr, OnOk};
ghost use Rattle.net_list.specs.Form.{ListsCounted};
ghost use Rattle.net_list.specs.Lookup.{kinds_of};
ghost use Rattle.net_list.specs.Kinds.{signal_fits, body_fits, test_fits, emit_fits, exec_fits, AllFit};
ghost use Rattle.net_range.specs.RuledLines.{section, IsFirstRefused, past};
ghost use Rattle.net_kinds.specs.LinesFit.{lines_over, lines_fit, IsMisfit};

use crate::expression::bodies_fit;
use crate::line::{emit_fits, exec_fits, kinds_of, signal_fits, test_fits};
use hh_base::value::NoMemory;
use host_expr::cell::Scope;
use net_list::record::NetRecords;
use std::alloc::Global;
use thiserror::Error;

/// Why kinds do not fit, or could not be judged.
#[derive(Clone, Copy, PartialEq, Eq, Debug, Error)]
pub enum KindFault {
    /// The first line whose kinds or whose name do not fit, counted from 1.
    #[error("the kinds of line {0} do not fit")]
    Line(u64),
    #[error("memory ran out")]
    NoMemory,
}

impl From<NoMemory> for KindFault {
    ghost use Rattle.net_kinds.specs.declared.kinds.KindFault.TheVariants as fault;

    ghost from_gives = { λ _ e. e ≡ fault.NoMemory };

    fn from(_error: NoMemory) -> KindFault {
        KindFault::NoMemory
    }
}

/// The number of the line behind the signals, whose count stands on line `from`, or of the first of these lines
/// whose kinds do not fit.
fn past_signals(nets: &NetRecords, from: u64) -> Result<u64, u64>
    requires { from + length nets.now.signals < 2 ^ 63 }
    ensures lines { result ≡ past from (section signal_fits nets.now.signals) }
    ensures count { IfOk result (λ next. next ≡ from + 1 + length nets.now.signals) }
{
    let mut line = from + 1;
    for signal in nets.signals.as_slice() {
        if !signal_fits(signal) {
            return Err(line);
        }
        line += 1;
    }
    Ok(line)
}

/// The number of the line behind the tests, whose count stands on line `from`, or of the first of these lines
/// whose kinds do not fit.
fn past_tests(nets: &NetRecords, scope: &Scope, from: u64) -> Result<u64, u64>
    requires no_parameters { scope.now.args.items ≡ [] }
    requires room { from + length nets.now.tests < 2 ^ 63 }
    ensures lines { result ≡ past from (section (test_fits scope.now.signals.items) nets.now.tests) }
    ensures count { IfOk result (λ next. next ≡ from + 1 + length nets.now.tests) }
{
    let mut line = from + 1;
    for test in nets.tests.as_slice() {
        if !test_fits(test, scope) {
            return Err(line);
        }
        line += 1;
    }
    Ok(line)
}

/// The number of the line behind the emits, whose count stands on line `from`, or of the first of these lines
/// whose kinds do not fit.
fn past_emits(nets: &NetRecords, scope: &Scope, from: u64) -> Result<u64, u64>
    requires no_parameters { scope.now.args.items ≡ [] }
    requires room { from + length nets.now.emits < 2 ^ 63 }
    ensures lines { result ≡ past from (section (emit_fits nets.now scope.now.signals.items) nets.now.emits) }
    ensures count { IfOk result (λ next. next ≡ from + 1 + length nets.now.emits) }
{
    let mut line = from + 1;
    for emit in nets.emits.as_slice() {
        if !emit_fits(nets, emit, scope) {
            return Err(line);
        }
        line += 1;
    }
    Ok(line)
}

/// The number of the line behind the execs, whose count stands on line `from`, or of the first of these lines
/// whose kinds do not fit.
fn past_execs(nets: &NetRecords, scope: &Scope, from: u64) -> Result<u64, u64>
    requires no_parameters { scope.now.args.items ≡ [] }
    requires room { from + length nets.now.execs < 2 ^ 63 }
    ensures lines { result ≡ past from (section (exec_fits nets.now scope.now.signals.items) nets.now.execs) }
    ensures count { IfOk result (λ next. next ≡ from + 1 + length nets.now.execs) }
{
    let mut line = from + 1;
    for exec in nets.execs.as_slice() {
        if !exec_fits(nets, exec, scope) {
            return Err(line);
        }
        line += 1;
    }
    Ok(line)
}

/// The same of the bodies, where it is known which of them fit.
fn past_bodies(fit: &[bool], from: u64) -> Result<u64, u64>
    requires { from + length fit.now < 2 ^ 63 }
    ensures lines { result ≡ past from (true ∷ fit.now) }
    ensures count { IfOk result (λ next. next ≡ from + 1 + length fit.now) }
{
    let mut line = from + 1;
    for fits in fit {
        if !*fits {
            return Err(line);
        }
        line += 1;
    }
    Ok(line)
}

/// The number of the line behind the last one, or of the first whose kinds do not fit.
#[tactic(auto, using(crate::proofs::Unruled::past_append, crate::proofs::Unruled::past_unruled))]
fn past_lines(nets: &NetRecords, scope: &Scope, fit: &[bool]) -> Result<u64, u64>
    requires counted { ListsCounted nets.now }
    requires no_parameters { scope.now.args.items ≡ [] }
    requires bodies { fit.now ≡ map body_fits nets.now.bodies }
    ensures { result ≡ past 1 (lines_over nets.now scope.now.signals.items) }
{
    let bodies = past_signals(nets, 2)?;
    let registers = past_bodies(fit, bodies)?;
    let gates = registers + 1 + nets.registers.len() as u64;
    let tests = gates + 1 + nets.gates.len() as u64;
    let emits = past_tests(nets, scope, tests)?;
    let execs = past_emits(nets, scope, emits)?;
    let done = past_execs(nets, scope, execs)?;
    Ok(done + 2)
}

/// Whether the kinds and the names of each line of these nets fit, or the first line where they do not. That
/// two interface signals have two names is another rule.
pub fn check_kinds(alloc: Global, nets: &NetRecords) -> Result<(), KindFault>
    requires { ListsCounted nets.now }
    ensures kinds { OnOk result (AllFit nets.now) }
    ensures first { IfErr result (λ fault. IsMisfit (lines_fit nets.now) fault) }
{
    let fit = bodies_fit(alloc, nets.bodies.as_slice())?;
    let signals = kinds_of(alloc, nets)?;
    let args = Vec::new(alloc);
    match past_lines(nets, &Scope { signals, args }, &fit) {
        Ok(_) => Ok(()),
        Err(line) => Err(KindFault::Line(line)),
    }
}
