//! Each reaction of random programs, by the engine and by the plain recursion.

use crate::dice::Dice;
use crate::programs::write_program;
use crate::standing::{none_twice, stand};
use hh_base::item::Item;
use hh_base::value::{Tri, Value, same_value};
use hh_term::mark::Marked;
use hh_term::program::Program;
use host_expr::cell::{Cell, SigCell};
use last_walk::touch::Touch;
use module_compile::compile::compile;
use nested_reaction::interface::solve;
use status_rounds::settle::Before;
use std::alloc::Global;
use std::test::Fail;
use sync_step::answer::{SignalNow, StepEnd, Stepped};
use sync_step::step::step;

const PROGRAMS: u64 = 200;

const REACTIONS: u64 = 4;

/// Where a program stands, and the last id that an instance got.
#[derive(Drop)]
struct Stand {
    marked: Marked,
    before: Before,
    last: u64,
}

fn is_decided(cell: &SigCell) -> bool {
    cell.status != Tri::Unknown && !matches!(cell.value, Cell::Unknown)
}

/// Whether the signal is listed exactly where it is undecided.
fn lists(undecided: &[u32], signal: u32, cell: &SigCell) -> bool {
    undecided.contains(&signal) != is_decided(cell)
}

fn same_signal(now: &SignalNow, cell: &SigCell) -> bool {
    let value = match &cell.value {
        Cell::Known(value) => value,
        Cell::Unknown | Cell::Faulted(_, _) => &cell.preval,
    };
    is_decided(cell) && now.status == (cell.status == Tri::One) && same_value(&now.value, value)
}

fn same_at(end: &StepEnd, signal: u32, cell: &SigCell) -> bool {
    match end {
        StepEnd::Undecided(undecided) => lists(undecided, signal, cell),
        StepEnd::Stepped(stepped) => match stepped.signals.get(signal as usize) {
            Some(now) => now.signal == signal && same_signal(now, cell),
            None => false,
        },
    }
}

/// Whether the two tell the same of each signal of the interface.
fn same(program: &Program, end: &StepEnd, cells: &[SigCell]) -> bool {
    for signal in 0..program.interface_len() {
        match cells.get(signal as usize) {
            Some(cell) if same_at(end, signal, cell) => {}
            _ => return false,
        }
    }
    true
}

/// The pure signal `a` or not, and the number `n` or not.
fn inputs(alloc: Global, dice: &mut Dice) -> Result<Vec<(u32, Value)>, Fail> {
    let mut inputs = Vec::new(alloc);
    if dice.below(2) == 0 {
        inputs.push((0, Value::Unit))?;
    }
    if dice.below(3) == 0 {
        inputs.push((1, Value::Int(dice.below(3) as i64)))?;
    }
    Ok(inputs)
}

fn first_before(alloc: Global, program: &Program) -> Result<Before, Fail> {
    let mut cells = Vec::new(alloc);
    for signal in program.signals() {
        if cells.len() < program.interface_len() as usize {
            cells.push((false, signal.first.copy(alloc)?))?;
        }
    }
    Ok(Before { cells })
}

fn next_before(alloc: Global, signals: &[SignalNow]) -> Result<Before, Fail> {
    let mut cells = Vec::new(alloc);
    for signal in signals {
        cells.push((signal.status, signal.value.copy(alloc)?))?;
    }
    Ok(Before { cells })
}

/// How many instances got an id.
fn count_started(touches: &[Touch]) -> u64 {
    let mut count = 0u64;
    for touch in touches {
        if touch.started.is_some() && touch.runs_after {
            count = count.saturating_add(1);
        }
    }
    count
}

/// Goes where an accepted reaction leads.
fn go_on(alloc: Global, program: &Program, stepped: &Stepped, at: &mut Stand) -> Result<(), Fail> {
    if stepped.multiple.is_some() || stepped.fault.is_some() {
        return Ok(());
    }
    at.last = at.last.saturating_add(count_started(&stepped.touches));
    at.before = next_before(alloc, &stepped.signals)?;
    at.marked = stand(alloc, program, &stepped.next)?;
    Ok(())
}

/// An answer to one of the instances, which may be the last one.
fn answer(dice: &mut Dice, at: &mut Stand) {
    let id = dice.below(at.last.saturating_add(1));
    let value = Value::Int(dice.below(3) as i64);
    let last = dice.below(2) == 0;
    let _ = at.marked.answer(id, Item { value, last });
}

/// Whether the plain recursion tells the same.
fn agrees(
    alloc: Global,
    program: &Program,
    at: &Stand,
    inputs: &[(u32, Value)],
    end: &StepEnd,
) -> Result<bool, Fail> {
    if at.before.cells.len() != program.interface_len() as usize {
        return Err(Fail::new("the interface does not fit"));
    }
    let cells = solve(alloc, program, &at.marked, &at.before.cells, inputs)?;
    Ok(same(program, end, &cells.signals))
}

/// The reaction to these inputs by the engine, which is compared. The answer tells whether both are the same.
fn react(
    alloc: Global,
    program: &Program,
    inputs: &[(u32, Value)],
    at: &mut Stand,
) -> Result<bool, Fail> {
    if !none_twice(inputs) || at.before.cells.len() != program.interface_len() as usize {
        return Err(Fail::new("the inputs do not fit"));
    }
    let end = step(alloc, program, &at.marked, &at.before, inputs, at.last)?;
    if !agrees(alloc, program, at, inputs, &end)? {
        return Ok(false);
    }
    if let StepEnd::Stepped(stepped) = &end {
        go_on(alloc, program, stepped, at)?;
    }
    Ok(true)
}

fn react_at_random(
    alloc: Global,
    dice: &mut Dice,
    program: &Program,
    at: &mut Stand,
) -> Result<bool, Fail> {
    let inputs = inputs(alloc, dice)?;
    let same = react(alloc, program, &inputs, at)?;
    answer(dice, at);
    Ok(same)
}

fn runs_the_same(alloc: Global, dice: &mut Dice, program: &Program) -> Result<bool, Fail> {
    let mut at = Stand {
        marked: Marked::boot(program),
        before: first_before(alloc, program)?,
        last: 0,
    };
    for _ in 0..REACTIONS {
        if !react_at_random(alloc, dice, program, &mut at)? {
            return Ok(false);
        }
    }
    Ok(true)
}

fn compiled(alloc: Global, text: &str) -> Result<Program, Fail> {
    if text.len() >= 1 << 32 {
        return Err(Fail::new("the text is too long"));
    }
    match compile(alloc, text.as_bytes()) {
        Ok(program) => Ok(program),
        Err(_) => Err(Fail::new(format!(in alloc; "no program: {text}")?)),
    }
}

/// Whether the program of this text runs the same by both.
fn text_runs_the_same(alloc: Global, dice: &mut Dice, text: &str) -> Result<bool, Fail> {
    let program = compiled(alloc, text)?;
    runs_the_same(alloc, dice, &program)
}

fn print_program(rt: &HostRuntime, text: &str) -> Result<(), Fail> {
    println!(rt; "{text}")?;
    Ok(())
}

/// The program of this text is printed where the two differ.
fn compare(rt: &HostRuntime, dice: &mut Dice, text: &str) -> Result<(), Fail> {
    if text_runs_the_same(rt.alloc(), dice, text)? {
        return Ok(());
    }
    print_program(rt, text)?;
    Err(Fail::new("the program that is printed runs differently"))
}

fn compare_one(rt: &HostRuntime, dice: &mut Dice, depth: u64) -> Result<(), Fail> {
    let text = write_program(rt.alloc(), dice, depth)?;
    compare(rt, dice, &text)
}

fn compare_all(rt: &HostRuntime, dice: &mut Dice) -> Result<(), Fail> {
    for _ in 0..PROGRAMS {
        compare_one(rt, dice, 3)?;
    }
    Ok(())
}

#[test]
fn small_programs(rt: HostRuntime) -> Result<(), Fail> {
    let mut dice = Dice::new(1);
    compare_all(&rt, &mut dice)
}
