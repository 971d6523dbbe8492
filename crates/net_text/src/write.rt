//! The whole text.
ghost use Rattle.std.specs.Prelude.{◌≡◌, ◌++◌, codes, OnOk, IfOk};
ghost use Rattle.std.specs.List.{flat_map};
ghost use Rattle.net_text.specs.Lines.{signal_line, body_line, register_line, gate_line, test_line};
ghost use Rattle.net_text.specs.Lines.{emit_line, exec_line};
ghost use Rattle.net_text.specs.NetText.{heading, section, declarations, circuit, records, text_in, IsNetText};

use crate::line::{
    write_body, write_emit, write_exec, write_gate, write_register, write_signal, write_test,
};
use crate::part::{write_count, write_number};
use hh_base::value::NoMemory;
use hh_term::program::BodyDecl;
use net_list::gate::NetGate;
use net_list::nets::Nets;
use net_list::record::{NetEmit, NetExec, NetSignal, NetTest};
use std::alloc::Global;

/// Adds a line of a word and a number.
fn write_heading(word: &[u8], number: u32, out: &mut Vec<u8>) -> Result<(), NoMemory>
    ensures { OnOk result (out.new.items ≡ out.old.items ++ heading word.now number) }
{
    out.extend_from_slice(word)?;
    write_number(number, out)?;
    out.push(b'\n')?;
    Ok(())
}

/// Adds a line of a word and a count.
fn write_counted(word: &[u8], count: usize, out: &mut Vec<u8>) -> Result<(), NoMemory>
    ensures { OnOk result (out.new.items ≡ out.old.items ++ heading word.now count) }
{
    out.extend_from_slice(word)?;
    write_count(count, out)?;
    out.push(b'\n')?;
    Ok(())
}

fn write_each_signal(signals: &[NetSignal], out: &mut Vec<u8>) -> Result<(), NoMemory>
    ensures { OnOk result (out.new.items ≡ out.old.items ++ flat_map signal_line signals.now) }
{
    for signal in signals {
        write_signal(signal, out)?;
    }
    Ok(())
}

fn write_signals(signals: &[NetSignal], out: &mut Vec<u8>) -> Result<(), NoMemory>
    ensures { OnOk result (out.new.items ≡ out.old.items ++ section (codes "signals") signal_line signals.now) }
{
    write_counted(b"signals", signals.len(), out)?;
    write_each_signal(signals, out)
}

fn write_each_body(bodies: &[BodyDecl], out: &mut Vec<u8>) -> Result<(), NoMemory>
    ensures { OnOk result (out.new.items ≡ out.old.items ++ flat_map body_line bodies.now) }
{
    for body in bodies {
        write_body(body, out)?;
    }
    Ok(())
}

fn write_bodies(bodies: &[BodyDecl], out: &mut Vec<u8>) -> Result<(), NoMemory>
    ensures { OnOk result (out.new.items ≡ out.old.items ++ section (codes "bodies") body_line bodies.now) }
{
    write_counted(b"bodies", bodies.len(), out)?;
    write_each_body(bodies, out)
}

fn write_each_register(registers: &[(bool, u32)], out: &mut Vec<u8>) -> Result<(), NoMemory>
    ensures { OnOk result (out.new.items ≡ out.old.items ++ flat_map register_line registers.now) }
{
    for register in registers {
        write_register(register, out)?;
    }
    Ok(())
}

fn write_registers(registers: &[(bool, u32)], out: &mut Vec<u8>) -> Result<(), NoMemory>
    ensures { OnOk result (out.new.items ≡ out.old.items ++
        section (codes "registers") register_line registers.now) }
{
    write_counted(b"registers", registers.len(), out)?;
    write_each_register(registers, out)
}

fn write_each_gate(gates: &[NetGate], out: &mut Vec<u8>) -> Result<(), NoMemory>
    ensures { OnOk result (out.new.items ≡ out.old.items ++ flat_map gate_line gates.now) }
{
    for gate in gates {
        write_gate(gate, out)?;
    }
    Ok(())
}

fn write_gates(gates: &[NetGate], out: &mut Vec<u8>) -> Result<(), NoMemory>
    ensures { OnOk result (out.new.items ≡ out.old.items ++ section (codes "gates") gate_line gates.now) }
{
    write_counted(b"gates", gates.len(), out)?;
    write_each_gate(gates, out)
}

fn write_each_test(tests: &[NetTest], out: &mut Vec<u8>) -> Result<(), NoMemory>
    ensures { OnOk result (out.new.items ≡ out.old.items ++ flat_map (test_line 2) tests.now) }
{
    for test in tests {
        write_test(test, out)?;
    }
    Ok(())
}

fn write_tests(tests: &[NetTest], out: &mut Vec<u8>) -> Result<(), NoMemory>
    ensures { OnOk result (out.new.items ≡ out.old.items ++ section (codes "tests") (test_line 2) tests.now) }
{
    write_counted(b"tests", tests.len(), out)?;
    write_each_test(tests, out)
}

fn write_each_emit(emits: &[NetEmit], out: &mut Vec<u8>) -> Result<(), NoMemory>
    ensures { OnOk result (out.new.items ≡ out.old.items ++ flat_map (emit_line 2) emits.now) }
{
    for emit in emits {
        write_emit(emit, out)?;
    }
    Ok(())
}

fn write_emits(emits: &[NetEmit], out: &mut Vec<u8>) -> Result<(), NoMemory>
    ensures { OnOk result (out.new.items ≡ out.old.items ++ section (codes "emits") (emit_line 2) emits.now) }
{
    write_counted(b"emits", emits.len(), out)?;
    write_each_emit(emits, out)
}

fn write_each_exec(execs: &[NetExec], out: &mut Vec<u8>) -> Result<(), NoMemory>
    ensures { OnOk result (out.new.items ≡ out.old.items ++ flat_map (exec_line 2) execs.now) }
{
    for exec in execs {
        write_exec(exec, out)?;
    }
    Ok(())
}

fn write_execs(execs: &[NetExec], out: &mut Vec<u8>) -> Result<(), NoMemory>
    ensures { OnOk result (out.new.items ≡ out.old.items ++ section (codes "execs") (exec_line 2) execs.now) }
{
    write_counted(b"execs", execs.len(), out)?;
    write_each_exec(execs, out)
}

fn write_declarations(nets: &Nets, out: &mut Vec<u8>) -> Result<(), NoMemory>
    ensures { OnOk result (out.new.items ≡ out.old.items ++ declarations nets.now) }
{
    write_signals(nets.signals(), out)?;
    write_bodies(nets.bodies(), out)
}

fn write_circuit(nets: &Nets, out: &mut Vec<u8>) -> Result<(), NoMemory>
    ensures { OnOk result (out.new.items ≡ out.old.items ++ circuit nets.now) }
{
    write_registers(nets.registers(), out)?;
    write_gates(nets.gates(), out)
}

fn write_records(nets: &Nets, out: &mut Vec<u8>) -> Result<(), NoMemory>
    ensures { OnOk result (out.new.items ≡ out.old.items ++ records 2 nets.now) }
{
    write_tests(nets.tests(), out)?;
    write_emits(nets.emits(), out)?;
    write_execs(nets.execs(), out)
}

/// Adds the text in version 2.
fn write_text(nets: &Nets, out: &mut Vec<u8>) -> Result<(), NoMemory>
    ensures { OnOk result (out.new.items ≡ out.old.items ++ text_in 2 nets.now) }
{
    write_heading(b"hhnet", 2, out)?;
    write_declarations(nets, out)?;
    write_circuit(nets, out)?;
    write_records(nets, out)?;
    write_heading(b"done", nets.done(), out)?;
    out.extend_from_slice(b"end\n")?;
    Ok(())
}

/// The text of nets of version 2: the one spelling that the grammar has for them.
pub fn write_nets(alloc: Global, nets: &Nets) -> Result<Vec<u8>, NoMemory>
    requires { nets.now.version ≡ 2 }
    ensures { IfOk result (λ text. IsNetText text.items nets.now) }
{
    let _rules = nets.records();
    let mut text = Vec::new(alloc);
    write_text(nets, &mut text)?;
    Ok(text)
}
