//! Lines of version 2.
ghost use Rattle.std.specs.Prelude.{◌≡◌, ◌++◌, OnOk};
ghost use Rattle.std.specs.List.{flat_map};
ghost use Rattle.net_text.specs.Parts.{number};
ghost use Rattle.net_text.specs.Lines.{signal_line, body_line, body_word, written_if_there};
ghost use Rattle.net_text.specs.Lines.{register_line, gate_parts, gate_line, test_line, sent_parts};
ghost use Rattle.net_text.specs.Lines.{emit_line, exec_gates, handlers, exec_parts, exec_line};

use crate::expression::{write_expression, write_expressions};
use crate::part::{
    dir_word, write_combine, write_first, write_first_number, write_handler, write_kind,
    write_kinds, write_name, write_number, write_numbers, write_part, write_signal_or_none,
};
use hh_base::value::NoMemory;
use hh_term::program::BodyDecl;
use host_expr::expr::Expr;
use net_list::gate::NetGate;
use net_list::record::{NetEmit, NetExec, NetSignal, NetTest, Sent};

/// Adds a word and a number.
fn write_numbered(word: &[u8], place: u32, out: &mut Vec<u8>) -> Result<(), NoMemory>
    ensures { OnOk result (out.new.items ≡ out.old.items ++ (word.now ++ number place)) }
{
    out.extend_from_slice(word)?;
    write_number(place, out)
}

/// Adds a word and the inputs of a gate.
fn write_inputs(word: &[u8], gates: &[u32], out: &mut Vec<u8>) -> Result<(), NoMemory>
    ensures { OnOk result (out.new.items ≡ out.old.items ++ (word.now ++ flat_map number gates.now)) }
{
    out.extend_from_slice(word)?;
    write_numbers(gates, out)
}

fn write_gate_parts(gate: &NetGate, out: &mut Vec<u8>) -> Result<(), NoMemory>
    ensures { OnOk result (out.new.items ≡ out.old.items ++ gate_parts gate.now) }
{
    match gate {
        NetGate::Zero => out.push(b'0')?,
        NetGate::One => out.push(b'1')?,
        NetGate::Not(gate) => write_numbered(b"not", *gate, out)?,
        NetGate::And(gates) => write_inputs(b"and", gates.as_slice(), out)?,
        NetGate::Or(gates) => write_inputs(b"or", gates.as_slice(), out)?,
        NetGate::Reg(register) => write_numbered(b"reg", *register, out)?,
        NetGate::Test(test) => write_numbered(b"test", *test, out)?,
        NetGate::Input(signal) => write_numbered(b"in", *signal, out)?,
        NetGate::Answer(exec) => write_numbered(b"ans", *exec, out)?,
        NetGate::Part(exec) => write_numbered(b"part", *exec, out)?,
    }
    Ok(())
}

/// Adds the line of a gate.
pub(crate) fn write_gate(gate: &NetGate, out: &mut Vec<u8>) -> Result<(), NoMemory>
    ensures { OnOk result (out.new.items ≡ out.old.items ++ gate_line gate.now) }
{
    write_gate_parts(gate, out)?;
    out.push(b'\n')?;
    Ok(())
}

/// Adds the line of a register.
pub(crate) fn write_register(register: &(bool, u32), out: &mut Vec<u8>) -> Result<(), NoMemory>
    ensures { OnOk result (out.new.items ≡ out.old.items ++ register_line register.now) }
{
    out.push(if register.0 { b'1' } else { b'0' })?;
    write_number(register.1, out)?;
    out.push(b'\n')?;
    Ok(())
}

/// Adds the line of a signal.
pub(crate) fn write_signal(signal: &NetSignal, out: &mut Vec<u8>) -> Result<(), NoMemory>
    ensures { OnOk result (out.new.items ≡ out.old.items ++ signal_line signal.now) }
{
    out.extend_from_slice(dir_word(signal.decl.dir))?;
    write_name(&signal.decl.name, out)?;
    write_kind(signal.decl.kind, out)?;
    write_first(&signal.decl.first, out)?;
    write_combine(signal.decl.combine, out)?;
    write_number(signal.decl.pos.0, out)?;
    write_number(signal.status, out)?;
    write_number(signal.pre, out)?;
    write_number(signal.sel, out)?;
    out.push(b'\n')?;
    Ok(())
}

fn body_word(expr: &Option<Expr<u32>>) -> &'static [u8]
    ensures { result.now ≡ body_word expr.now }
{
    match expr {
        Some(_) => b"body",
        None => b"host",
    }
}

fn write_if_there(expr: &Option<Expr<u32>>, out: &mut Vec<u8>) -> Result<(), NoMemory>
    ensures { OnOk result (out.new.items ≡ out.old.items ++ written_if_there expr.now) }
{
    match expr {
        Some(expr) => write_expression(expr, out),
        None => Ok(()),
    }
}

/// Adds the line of a body.
pub(crate) fn write_body(body: &BodyDecl, out: &mut Vec<u8>) -> Result<(), NoMemory>
    ensures { OnOk result (out.new.items ≡ out.old.items ++ body_line body.now) }
{
    out.extend_from_slice(body_word(&body.expr))?;
    write_part(body.name.as_bytes(), out)?;
    write_kind(body.answer, out)?;
    write_kinds(body.params.as_slice(), out)?;
    write_if_there(&body.expr, out)?;
    write_number(body.pos.0, out)?;
    out.push(b'\n')?;
    Ok(())
}

/// Adds the line of a test.
pub(crate) fn write_test(test: &NetTest, out: &mut Vec<u8>) -> Result<(), NoMemory>
    ensures { OnOk result (out.new.items ≡ out.old.items ++ test_line 2 test.now) }
{
    write_first_number(test.control, out)?;
    write_expression(&test.expr, out)?;
    write_number(test.pos.0, out)?;
    out.push(b'\n')?;
    Ok(())
}

fn write_sent(sent: &Sent, out: &mut Vec<u8>) -> Result<(), NoMemory>
    ensures { OnOk result (out.new.items ≡ out.old.items ++ sent_parts sent.now) }
{
    match sent {
        Sent::Nothing => write_part(b"-", out),
        Sent::Computed(expr) => {
            out.extend_from_slice(b" =")?;
            write_expression(expr, out)
        }
        Sent::Answer(exec) => write_numbered(b" ans", *exec, out),
    }
}

/// Adds the line of an emission.
pub(crate) fn write_emit(emit: &NetEmit, out: &mut Vec<u8>) -> Result<(), NoMemory>
    ensures { OnOk result (out.new.items ≡ out.old.items ++ emit_line 2 emit.now) }
{
    write_first_number(emit.control, out)?;
    write_number(emit.signal, out)?;
    write_sent(&emit.sent, out)?;
    write_number(emit.pos.0, out)?;
    out.push(b'\n')?;
    Ok(())
}

fn write_exec_gates(exec: &NetExec, out: &mut Vec<u8>) -> Result<(), NoMemory>
    ensures { OnOk result (out.new.items ≡ out.old.items ++ exec_gates 2 exec.now) }
{
    write_number(exec.go, out)?;
    write_number(exec.reg, out)?;
    write_number(exec.end, out)?;
    write_number(exec.used, out)?;
    write_number(exec.held, out)?;
    write_number(exec.resumed, out)?;
    write_number(exec.next, out)
}

fn write_handlers(exec: &NetExec, out: &mut Vec<u8>) -> Result<(), NoMemory>
    ensures { OnOk result (out.new.items ≡ out.old.items ++ handlers exec.now) }
{
    write_handler(&exec.site.kill, out)?;
    write_handler(&exec.site.suspend, out)?;
    write_handler(&exec.site.resume, out)
}

/// Adds what stands behind the body of an async site: the signal of its answers, its gates, its handlers, its
/// arguments and its place.
fn write_exec_parts(exec: &NetExec, out: &mut Vec<u8>) -> Result<(), NoMemory>
    ensures { OnOk result (out.new.items ≡ out.old.items ++ exec_parts 2 exec.now) }
{
    write_signal_or_none(exec.site.signal, out)?;
    write_exec_gates(exec, out)?;
    write_handlers(exec, out)?;
    write_expressions(exec.site.args.as_slice(), out)?;
    write_number(exec.pos.0, out)
}

/// Adds the line of an async site.
pub(crate) fn write_exec(exec: &NetExec, out: &mut Vec<u8>) -> Result<(), NoMemory>
    ensures { OnOk result (out.new.items ≡ out.old.items ++ exec_line 2 exec.now) }
{
    write_first_number(exec.site.body, out)?;
    write_exec_parts(exec, out)?;
    out.push(b'\n')?;
    Ok(())
}
