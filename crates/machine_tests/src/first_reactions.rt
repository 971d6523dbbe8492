//! First reactions of programs, as their step tells them.

use crate::programs::{compiled, name_of};
use hh_base::literal::print_literal;
use hh_base::value::{FaultKind, Value};
use hh_term::mark::Marked;
use hh_term::program::{Program, SignalDecl};
use last_walk::touch::Touch;
use status_rounds::settle::Before;
use std::alloc::Global;
use std::test::Fail;
use sync_step::answer::{SignalNow, StepEnd, Stepped};
use sync_step::step::step;

/// A text, the first signal's value where it is given, and what is told: the completion code, and of each
/// signal of the interface whether it is present, how many emissions ran, and its value; then refusals.
const TOLD: [(&str, Option<i64>, &str); 16] = [
    (
        "module M(in A: int, in B, in R, out O) { do { fork { await (A.now); } par { await (B.now); } emit O; } every (R.now); }",
        Some(3),
        "1: A+1=3 B-0 R-0 O-0",
    ),
    (
        "module M(out P, out Q) { loop { signal S { if (S.now) { emit P; } else { emit Q; } pause; emit S; } } }",
        None,
        "1: P-0 Q+1",
    ),
    (
        "module M(out N: int combine plus) { loop { fork { trap T { loop { emit N(1); if (N.now) { break T; } pause; } } } par { pause; } } }",
        None,
        "1: N+1=1",
    ),
    (
        "module M(out X, out Y) { fork { if (Y.now) { emit X; } } par { emit Y; emit Y; } }",
        None,
        "0: X+1 Y+2",
    ),
    (
        "module M(out V: int combine plus) { emit V(1); emit V(2); emit V(3); }",
        None,
        "0: V+3=6",
    ),
    (
        "module M(out V: int = 4) { if (V.preval == 4 && !V.pre) { pause; } }",
        None,
        "1: V-0=4",
    ),
    (
        "module M(inout V: int combine min) { emit V(1); emit V(2); }",
        Some(0),
        "0: V+3=0",
    ),
    (
        "module M(in A: int, out V: int) { trap T { fork { break T; } par { emit V(A.nowval); halt; } } }",
        Some(8),
        "0: A+1=8 V+1=8",
    ),
    // What is refused is told beside it; a value that has a fault or is multiple counts as 0.
    (
        "module M(out V: int combine plus) { emit V(9223372036854775807); emit V(1); }",
        None,
        "0: V+2=0 fault 13 overflow",
    ),
    (
        "module M(out U: int, out V: int) { emit V(1); emit V(2); emit U(V.nowval); emit U(5); }",
        None,
        "0: U+2=0 V+2=0 multiple U",
    ),
    (
        "module M(in A: int, out V: int) { if (A.now) { emit V(1 / 0); } pause; }",
        Some(1),
        "1: A+1=1 V+1=0 fault 56 divide",
    ),
    // The first of two faults by position, not by what runs first.
    (
        "module M(out V: int, out W: int) { fork { if (W.nowval == 0) { emit V(1 / 0); } } par { emit W(9223372036854775807 + 1); } }",
        None,
        "0: V+1=0 W+1=0 fault 72 divide",
    ),
    (
        "module M(out S) { if (S.now) { } else { emit S; } }",
        None,
        "undecided S",
    ),
    (
        "module M(out V: int, out W: int) { emit V(W.nowval); emit W(V.nowval); }",
        None,
        "undecided V W",
    ),
    (
        "module M(out O) { emit O; signal S { if (S.now) { emit S; } } }",
        None,
        "undecided",
    ),
    (
        "module M(out X) { if (X.now) { signal T { emit T; if (T.now) { } else { emit X; } } } }",
        None,
        "undecided X",
    ),
];

/// A text, and the asyncs that are touched: site, id, first argument where it is started, and whether it runs
/// after.
const TOUCHED: [(&str, Option<i64>, &str); 3] = [
    (
        "host f(int): int; module M() { fork { async call f(4); } par { async call f(5); } }",
        None,
        "1: 0#7(4)+ 1#8(5)+",
    ),
    (
        "host f(int): int; module M() { trap T { fork { async call f(1); } par { break T; } } async call f(2); }",
        None,
        "1: 0#0(1)- 1#7(2)+",
    ),
    (
        "host f(int): int; module M(out V: int) { if (V.now) { async (V) call f(1); } else { async (V) call f(V.preval - 1); } }",
        None,
        "1: V-0=0 1#7(-1)+",
    ),
];

fn before(alloc: Global, program: &Program) -> Result<Before, Fail> {
    let mut cells = Vec::new(alloc);
    for signal in program.signals() {
        if cells.len() < program.interface_len() as usize {
            cells.push((false, signal.first.copy(alloc)?))?;
        }
    }
    Ok(Before { cells })
}

fn first_step(alloc: Global, program: &Program, given: Option<i64>) -> Result<StepEnd, Fail> {
    let marked = Marked::boot(program);
    let before = before(alloc, program)?;
    if before.cells.len() != program.interface_len() as usize {
        return Err(Fail::new("the interface has other signals"));
    }
    Ok(match given {
        Some(number) => step(
            alloc,
            program,
            &marked,
            &before,
            &[(0, Value::Int(number))],
            6,
        )?,
        None => step(alloc, program, &marked, &before, &[], 6)?,
    })
}

fn name_at(signals: &[SignalDecl], signal: u32) -> &str {
    match signals.get(signal as usize) {
        Some(signal) => name_of(signal),
        None => "",
    }
}

fn literal(alloc: Global, value: &Value) -> Result<String, Fail> {
    let mut text = Vec::new(alloc);
    if !matches!(value, Value::Unit) {
        text.push(b'=')?;
        print_literal(alloc, value, &mut text)?;
    }
    Ok(String::from_utf8(text)?)
}

fn signal_text(alloc: Global, name: &str, now: &SignalNow) -> Result<String, Fail> {
    let sign = if now.status { '+' } else { '-' };
    let value = literal(alloc, &now.value)?;
    Ok(format!(in alloc; " {name}{sign}{}{value}", now.emissions)?)
}

fn touch_text(alloc: Global, touch: &Touch) -> Result<String, Fail> {
    let sign = if touch.runs_after { '+' } else { '-' };
    let argument = match &touch.started {
        Some(args) => match args.as_slice() {
            [Value::Int(number), ..] => *number,
            _ => 0,
        },
        None => 0,
    };
    Ok(format!(in alloc; " {}#{}({argument}){sign}", touch.site, touch.id)?)
}

fn fault_word(fault: FaultKind) -> &'static str {
    match fault {
        FaultKind::Divide => "divide",
        FaultKind::Overflow => "overflow",
        FaultKind::TextLong => "textlong",
    }
}

fn stepped_text(alloc: Global, signals: &[SignalDecl], stepped: &Stepped) -> Result<String, Fail> {
    let mut text = String::new(alloc);
    if let Some(code) = stepped.code {
        write!(text, "{code}:")?;
    }
    for now in &stepped.signals {
        let signal = signal_text(alloc, name_at(signals, now.signal), now)?;
        text.push_str(signal.as_str())?;
    }
    for touch in &stepped.touches {
        let touch = touch_text(alloc, touch)?;
        text.push_str(touch.as_str())?;
    }
    if let Some(name) = &stepped.multiple {
        write!(text, " multiple {}", name.as_str())?;
    }
    if let Some((pos, fault)) = &stepped.fault {
        write!(text, " fault {} {}", pos.0, fault_word(*fault))?;
    }
    Ok(text)
}

fn undecided_text(
    alloc: Global,
    signals: &[SignalDecl],
    undecided: &[u32],
) -> Result<String, Fail> {
    let mut text = String::from_str(alloc, "undecided")?;
    for signal in undecided {
        write!(text, " {}", name_at(signals, *signal))?;
    }
    Ok(text)
}

fn told(alloc: Global, text: &str, given: Option<i64>) -> Result<String, Fail> {
    let program = compiled(alloc, text)?;
    match first_step(alloc, &program, given)? {
        StepEnd::Undecided(signals) => undecided_text(alloc, program.signals(), &signals),
        StepEnd::Stepped(stepped) => stepped_text(alloc, program.signals(), &stepped),
    }
}

fn tell_each(alloc: Global, rows: &[(&str, Option<i64>, &str)]) -> Result<(), Fail> {
    for (text, given, want) in rows {
        let found = told(alloc, text, *given)?;
        if found.as_str() != *want {
            return Err(Fail::new(format!(in alloc; "{found} and not {want}")?));
        }
    }
    Ok(())
}

#[test]
fn signals_are_told(rt: HostRuntime) -> Result<(), Fail> {
    tell_each(rt.alloc(), &TOLD)
}

#[test]
fn touches_are_told(rt: HostRuntime) -> Result<(), Fail> {
    tell_each(rt.alloc(), &TOUCHED)
}
