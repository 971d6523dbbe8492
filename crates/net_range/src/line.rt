//! The places that a line names.
ghost use Rattle.std.specs.Prelude.{◌≡◌, length};
ghost use Rattle.std.specs.List.{list_all};
ghost use Rattle.net_list.specs.Range.{is_in, signal_in_range, body_in_range, register_in_range};
ghost use Rattle.net_list.specs.Range.{takes_input, is_input, gate_in_range, test_in_range};
ghost use Rattle.net_list.specs.Range.{sent_in_range, emit_in_range, target_in_range};
ghost use Rattle.net_list.specs.Range.{exec_gates_in_range, exec_in_range};

use crate::reads::{all_read, body_reads_within, line_reads};
use hh_base::value::Dir;
use hh_term::program::BodyDecl;
use net_list::gate::NetGate;
use net_list::record::{NetEmit, NetExec, NetRecords, NetSignal, NetTest, Sent};

/// Whether there is such a gate.
pub(crate) fn is_gate(nets: &NetRecords, gate: u32) -> bool
    ensures { result ≡ is_in nets.now.gates gate }
{
    (gate as usize) < nets.gates.len()
}

fn is_exec(nets: &NetRecords, exec: u32) -> bool
    ensures { result ≡ is_in nets.now.execs exec }
{
    (exec as usize) < nets.execs.len()
}

fn are_gates(nets: &NetRecords, gates: &[u32]) -> bool
    ensures { result ≡ list_all (is_in nets.now.gates) gates.now }
{
    gates.iter().all(|gate| is_gate(nets, *gate))
}

pub(crate) fn signal_in_range(nets: &NetRecords, signal: &NetSignal) -> bool
    ensures { result ≡ signal_in_range nets.now signal.now }
{
    is_gate(nets, signal.status) && is_gate(nets, signal.pre) && is_gate(nets, signal.sel)
}

pub(crate) fn body_in_range(body: &BodyDecl) -> bool
    ensures { result ≡ body_in_range body.now }
{
    body_reads_within(&body.expr, body.params.len())
}

pub(crate) fn register_in_range(nets: &NetRecords, register: &(bool, u32)) -> bool
    ensures { result ≡ register_in_range nets.now register.now }
{
    is_gate(nets, register.1)
}

fn takes_input(dir: Dir) -> bool
    ensures { result ≡ takes_input dir }
{
    match dir {
        Dir::Input | Dir::Both => true,
        Dir::Output | Dir::Local => false,
    }
}

fn is_input(nets: &NetRecords, signal: u32) -> bool
    ensures { result ≡ is_input nets.now signal }
{
    match nets.signals.get(signal as usize) {
        Some(signal) => takes_input(signal.decl.dir),
        None => false,
    }
}

pub(crate) fn gate_in_range(nets: &NetRecords, gate: &NetGate) -> bool
    ensures { result ≡ gate_in_range nets.now gate.now }
{
    match gate {
        NetGate::Zero | NetGate::One => true,
        NetGate::Not(gate) => is_gate(nets, *gate),
        NetGate::And(gates) | NetGate::Or(gates) => are_gates(nets, gates.as_slice()),
        NetGate::Reg(register) => (*register as usize) < nets.registers.len(),
        NetGate::Test(test) => (*test as usize) < nets.tests.len(),
        NetGate::Input(signal) => is_input(nets, *signal),
        NetGate::Answer(exec) | NetGate::Part(exec) => is_exec(nets, *exec),
    }
}

pub(crate) fn test_in_range(nets: &NetRecords, test: &NetTest) -> bool
    ensures { result ≡ test_in_range nets.now test.now }
{
    is_gate(nets, test.control) && line_reads(nets, &test.expr)
}

fn is_signal(nets: &NetRecords, signal: u32) -> bool
    ensures { result ≡ is_in nets.now.signals signal }
{
    (signal as usize) < nets.signals.len()
}

fn sent_in_range(nets: &NetRecords, sent: &Sent) -> bool
    ensures { result ≡ sent_in_range nets.now sent.now }
{
    match sent {
        Sent::Nothing => true,
        Sent::Computed(expr) => line_reads(nets, expr),
        Sent::Answer(exec) => is_exec(nets, *exec),
    }
}

pub(crate) fn emit_in_range(nets: &NetRecords, emit: &NetEmit) -> bool
    ensures { result ≡ emit_in_range nets.now emit.now }
{
    is_gate(nets, emit.control) && is_signal(nets, emit.signal) && sent_in_range(nets, &emit.sent)
}

fn target_in_range(nets: &NetRecords, signal: Option<u32>) -> bool
    ensures { result ≡ target_in_range nets.now signal }
{
    match signal {
        Some(signal) => is_signal(nets, signal),
        None => true,
    }
}

fn exec_gates_in_range(nets: &NetRecords, exec: &NetExec) -> bool
    ensures { result ≡ exec_gates_in_range nets.now exec.now }
{
    is_gate(nets, exec.go)
        && is_gate(nets, exec.reg)
        && is_gate(nets, exec.end)
        && is_gate(nets, exec.used)
        && is_gate(nets, exec.held)
        && is_gate(nets, exec.resumed)
        && is_gate(nets, exec.next)
}

pub(crate) fn exec_in_range(nets: &NetRecords, exec: &NetExec) -> bool
    ensures { result ≡ exec_in_range nets.now exec.now }
{
    (exec.site.body as usize) < nets.bodies.len()
        && target_in_range(nets, exec.site.signal)
        && exec_gates_in_range(nets, exec)
        && all_read(nets, exec.site.args.as_slice())
}
