//! The reaction of a program.

ghost use Rattle.std.specs.Prelude.{◌≡◌, ◌+◌, ◌<◌, ◌≤◌, ◌++◌, [], fold, suc, length, map, IfOk, ℕ, List as AList};
ghost use Rattle.hh_base.specs.declared.value.Value.{Value as AValue};
ghost use Rattle.host_expr.specs.Environment.{blank, environment_of};
ghost use Rattle.hh_term.specs.MustCan.{cells_of, table_of};
ghost use Rattle.hh_term.specs.ProgramView.{kernel_of};
ghost use Rattle.hh_term.specs.Reaction.{Last, completed, concluded, earlier, fault_rank, first_declared, given_bag};
ghost use Rattle.hh_term.specs.Reaction.{is_earlier, leave_all, now_of, outers_from, program_step, ran, reaction};
ghost use Rattle.hh_term.specs.Reaction.{solved, undecided};
ghost use Rattle.hh_term.specs.Views.{control_in, control_of};
ghost use Rattle.nested_reaction.specs.View.{body_of, lasts_of, outer_at};
ghost use Rattle.nested_step.specs.View.{completed_in, control_by, judged_by, now_in, outcome_of, ran_of, run_in};
ghost use Rattle.nested_step.specs.View.{selection_at, step_of, stepped_of};
ghost use Rattle.hh_term.specs.Step.{leave};

use crate::declared::position_of;
use crate::leaving::{is_settled, leave};
use crate::marks::{numbered as numbered_mark, value_now};
use crate::outcome::{Completed, Now, Outcome};
use crate::stepped::{Stepped, completes};
use crate::touches::{by_site, numbered};
use crate::walk::{resume, start};
use hh_base::value::{FaultKind, NoMemory, Pos, Tri, Value};
use hh_term::mark::{Control, Mark, Marked};
use hh_term::program::Program;
use host_expr::cell::{Cell, Cells, SigCell};
use nested_reaction::bag::{Bag, cells_of};
use nested_reaction::environment::{copy_cell, copy_signal, unsolved};
use nested_reaction::interface::solve;
use std::alloc::Global;

/// What a program did: the code is none where it had ended before.
#[derive(Drop)]
pub struct Ran {
    pub stepped: Stepped,
    pub code: Option<u16>,
}

fn run_of(step: Option<Stepped>) -> Option<Ran>
    ensures { ran_of result ≡ ran (step_of step) }
{
    match step {
        Some(stepped) => Some(Ran {
            code: Some(stepped.code),
            stepped,
        }),
        None => None,
    }
}

fn program_step(
    alloc: Global,
    program: &Program,
    marked: &Marked,
    cells: &Cells,
) -> Result<Option<Ran>, NoMemory>
    requires { cells.now.args.items ≡ [] }
    ensures { IfOk result (λ r. ran_of r ≡ program_step (table_of (kernel_of program.now))
        (kernel_of program.now).statement (control_in marked.now) (environment_of cells.now)) }
{
    match marked.control() {
        Control::Fresh => Ok(run_of(start(alloc, program, program.term(), cells)?)),
        Control::At(mark) => Ok(run_of(resume(alloc, program, program.term(), mark, cells)?)),
        Control::Ended => Ok(Some(Ran {
            stepped: completes(alloc, 0),
            code: None,
        })),
    }
}

/// The value given to the signal, as an emission.
fn given(alloc: Global, inputs: &[(u32, Value)], signal: u32) -> Result<Bag, NoMemory>
    ensures { IfOk result (λ b. (l : Last) → b.items ≡ given_bag (outer_at inputs.now signal l)) }
{
    match inputs {
        [] => Ok(Vec::new(alloc)),
        [first, rest @ ..] => {
            if first.0 != signal {
                return given(alloc, rest, signal);
            }
            let mut bag = Vec::new(alloc);
            bag.push((signal, Cell::Known(first.1.copy(alloc)?)))?;
            Ok(bag)
        }
    }
}

/// The next signal of the interface.
fn next(program: &Program, signal: u32) -> u32
    requires { signal < (kernel_of program.now).interface }
    ensures { result ≡ suc signal }
{
    signal.saturating_add(1).min(program.interface_len())
}

/// What is known of the signal.
fn cell_at(alloc: Global, cells: &Cells, signal: u32) -> Result<SigCell, NoMemory>
    ensures { IfOk result (λ c. c ≡ environment_of cells.now signal) }
{
    match cells.signals.get(signal as usize) {
        Some(cell) => copy_signal(alloc, cell),
        None => Ok(unsolved(false, Value::Unit)),
    }
}

/// Of the signals of the interface from this one on those that are undecided.
fn undecided(
    alloc: Global,
    program: &Program,
    signal: u32,
    lasts: &[(bool, Value)],
    cells: &Cells,
) -> Result<Vec<u32>, NoMemory>
    requires { signal + length lasts.now ≤ (kernel_of program.now).interface }
    ensures { IfOk result (λ v. (is : AList (ℕ × AValue)) → v.items ≡ undecided (environment_of cells.now)
        (outers_from signal is (lasts_of lasts.now))) }
{
    match lasts {
        [] => Ok(Vec::new(alloc)),
        [_, rest @ ..] => {
            let cell = cell_at(alloc, cells, signal)?;
            let mut others = undecided(alloc, program, next(program, signal), rest, cells)?;
            if !is_settled(&cell) {
                others.insert(0, signal)?;
            }
            Ok(others)
        }
    }
}

/// The step, with the given input as one more emission.
fn with_given(
    alloc: Global,
    inputs: &[(u32, Value)],
    signal: u32,
    mut a: Stepped,
) -> Result<Stepped, NoMemory>
    ensures { IfOk result (λ b. (l : Last) → stepped_of b ≡ record (stepped_of a) {
      bag = given_bag (outer_at inputs.now signal l) ++ a.bag.items;
    }) }
{
    let mut bag = given(alloc, inputs, signal)?;
    bag.append(&mut a.bag)?;
    a.bag = bag;
    Ok(a)
}

/// The step outside the scope of a signal of the interface, whose given input is one more emission.
fn leave_one(
    alloc: Global,
    program: &Program,
    inputs: &[(u32, Value)],
    signal: u32,
    a: Stepped,
) -> Result<Stepped, NoMemory>
    ensures { IfOk result (λ b. (l : Last) → stepped_of b ≡ leave (table_of (kernel_of program.now)) signal
        (record (stepped_of a) { bag = given_bag (outer_at inputs.now signal l) ++ a.bag.items })) }
{
    let met = with_given(alloc, inputs, signal, a)?;
    let left = leave(alloc, program, signal, met)?;
    Ok(left)
}

/// The step outside the scopes of the signals of the interface from this one on.
fn leave_all(
    alloc: Global,
    program: &Program,
    inputs: &[(u32, Value)],
    signal: u32,
    lasts: &[(bool, Value)],
    a: Stepped,
) -> Result<Stepped, NoMemory>
    requires { signal + length lasts.now ≤ (kernel_of program.now).interface }
    ensures { IfOk result (λ b. stepped_of b ≡ leave_all (table_of (kernel_of program.now))
        (outers_from signal inputs.now (lasts_of lasts.now)) (stepped_of a)) }
{
    match lasts {
        [] => Ok(a),
        [_, rest @ ..] => {
            let inner = leave_all(alloc, program, inputs, next(program, signal), rest, a)?;
            let left = leave_one(alloc, program, inputs, signal, inner)?;
            Ok(left)
        }
    }
}

fn copy_bag(alloc: Global, bag: &[(u32, Cell)]) -> Result<Bag, NoMemory>
    ensures { IfOk result (λ b. b.items ≡ bag.now) }
{
    match bag {
        [] => Ok(Vec::new(alloc)),
        [first, rest @ ..] => {
            let mut others = copy_bag(alloc, rest)?;
            others.insert(0, (first.0, copy_cell(alloc, &first.1)?))?;
            Ok(others)
        }
    }
}

/// How many emissions of the signal ran, a given input among them.
fn emissions(
    alloc: Global,
    inputs: &[(u32, Value)],
    signal: u32,
    bag: &[(u32, Cell)],
) -> Result<u64, NoMemory>
    ensures { IfOk result (λ n. (l : Last) → n ≡ length (cells_of signal
        (given_bag (outer_at inputs.now signal l) ++ bag.now))) }
{
    let mut all = given(alloc, inputs, signal)?;
    all.append(&mut copy_bag(alloc, bag)?)?;
    let cells = cells_of(alloc, signal, &all)?;
    Ok(cells.len() as u64)
}

fn now_of(
    alloc: Global,
    inputs: &[(u32, Value)],
    signal: u32,
    cells: &Cells,
    bag: &[(u32, Cell)],
) -> Result<Now, NoMemory>
    ensures { IfOk result (λ n. (l : Last) → now_in n ≡ now_of (environment_of cells.now) bag.now
        (outer_at inputs.now signal l)) }
{
    let cell = cell_at(alloc, cells, signal)?;
    Ok(Now {
        signal,
        emissions: emissions(alloc, inputs, signal, bag)?,
        status: cell.status == Tri::One,
        value: value_now(alloc, &cell)?,
    })
}

/// The signals of the interface from this one on.
fn signals_now(
    alloc: Global,
    program: &Program,
    inputs: &[(u32, Value)],
    signal: u32,
    lasts: &[(bool, Value)],
    cells: &Cells,
    bag: &[(u32, Cell)],
) -> Result<Vec<Now>, NoMemory>
    requires { signal + length lasts.now ≤ (kernel_of program.now).interface }
    ensures { IfOk result (λ v. map now_in v.items ≡ map (now_of (environment_of cells.now) bag.now)
        (outers_from signal inputs.now (lasts_of lasts.now))) }
{
    match lasts {
        [] => Ok(Vec::new(alloc)),
        [_, rest @ ..] => {
            let after = next(program, signal);
            let mut others = signals_now(alloc, program, inputs, after, rest, cells, bag)?;
            others.insert(0, now_of(alloc, inputs, signal, cells, bag)?)?;
            Ok(others)
        }
    }
}

fn control_after(alloc: Global, last: u64, next: &Option<Mark>) -> Result<Control, NoMemory>
    ensures { IfOk result (λ c. control_of c ≡ control_by last (selection_at next.now)) }
{
    match next {
        Some(mark) => Ok(Control::At(numbered_mark(alloc, last, mark)?.0)),
        None => Ok(Control::Ended),
    }
}

/// What the program did, as far as it is told.
fn completed(
    alloc: Global,
    program: &Program,
    before: &[(bool, Value)],
    inputs: &[(u32, Value)],
    last: u64,
    cells: &Cells,
    ran: &Ran,
) -> Result<Completed, NoMemory>
    requires { length before.now ≡ (kernel_of program.now).interface }
    ensures { IfOk result (λ d. completed_in d ≡ completed (table_of (kernel_of program.now))
        (outers_from 0 inputs.now (lasts_of before.now)) last (environment_of cells.now) (run_in ran.now)) }
{
    let signals = signals_now(alloc, program, inputs, 0, before, cells, &ran.stepped.bag)?;
    let next = control_after(alloc, last, &ran.stepped.next)?;
    let touches = by_site(alloc, &ran.stepped.touches)?;
    Ok(Completed {
        signals,
        code: ran.code,
        next,
        touches: numbered(alloc, last, &touches)?,
    })
}

fn first_declared(program: &Program, first: u32, second: u32) -> u32
    ensures { result ≡ first_declared (table_of (kernel_of program.now)) first second }
{
    if position_of(program, second).0 < position_of(program, first).0 {
        return second;
    }
    first
}

/// Of the signals that of least declaration position.
fn first_doubled(program: &Program, first: u32, others: &[u32]) -> u32
    ensures { result ≡ fold (first_declared (table_of (kernel_of program.now))) first others.now }
{
    match others {
        [] => first,
        [second, rest @ ..] => {
            first_doubled(program, first_declared(program, first, *second), rest)
        }
    }
}

fn rank(kind: FaultKind) -> u8
    ensures { result ≡ fault_rank kind }
{
    match kind {
        FaultKind::Divide => 0,
        FaultKind::Overflow => 1,
        FaultKind::TextLong => 2,
    }
}

fn is_earlier(first: (Pos, FaultKind), second: (Pos, FaultKind)) -> bool
    ensures { result ≡ is_earlier first second }
{
    first.0.0 < second.0.0 || (first.0.0 == second.0.0 && rank(first.1) < rank(second.1))
}

fn earlier(first: (Pos, FaultKind), second: (Pos, FaultKind)) -> (Pos, FaultKind)
    ensures { result ≡ earlier first second }
{
    if is_earlier(second, first) {
        second
    } else {
        first
    }
}

/// Of the faults that of least position, there of the first kind.
fn first_fault(first: (Pos, FaultKind), others: &[(Pos, FaultKind)]) -> (Pos, FaultKind)
    ensures { result ≡ fold earlier first others.now }
{
    match others {
        [] => first,
        [second, rest @ ..] => first_fault(earlier(first, *second), rest),
    }
}

/// A signal that was emitted twice comes before a fault, and a fault before what was done.
fn judged(program: &Program, left: &Stepped, done: Completed) -> Outcome
    ensures { outcome_of result ≡ judged_by (table_of (kernel_of program.now)) (stepped_of left.now) (completed_in done) }
{
    match (left.doubled.as_slice(), left.faults.as_slice()) {
        ([first, rest @ ..], _) => Outcome::Doubled(first_doubled(program, *first, rest)),
        ([], [first, rest @ ..]) => {
            let fault = first_fault(*first, rest);
            Outcome::Faulted(fault.0, fault.1)
        }
        ([], []) => Outcome::Completes(done),
    }
}

fn concluded(
    alloc: Global,
    program: &Program,
    before: &[(bool, Value)],
    inputs: &[(u32, Value)],
    last: u64,
    cells: &Cells,
    ran: Option<Ran>,
) -> Result<Outcome, NoMemory>
    requires { length before.now ≡ (kernel_of program.now).interface }
    ensures { IfOk result (λ o. outcome_of o ≡ concluded (table_of (kernel_of program.now))
        (outers_from 0 inputs.now (lasts_of before.now)) last (environment_of cells.now) (ran_of ran)) }
{
    match ran {
        Some(ran) => {
            let done = completed(alloc, program, before, inputs, last, cells, &ran)?;
            let left = leave_all(alloc, program, inputs, 0, before, ran.stepped)?;
            Ok(judged(program, &left, done))
        }
        None => Ok(Outcome::Undecided(Vec::new(alloc))),
    }
}

/// The interface of a program as it is solved, with nothing but signals.
fn solved(
    alloc: Global,
    program: &Program,
    marked: &Marked,
    before: &[(bool, Value)],
    inputs: &[(u32, Value)],
) -> Result<Cells, NoMemory>
    requires { length before.now ≡ (kernel_of program.now).interface }
    ensures env { IfOk result (λ c. environment_of c ≡ solved (table_of (kernel_of program.now))
        (outers_from 0 inputs.now (lasts_of before.now)) (body_of (kernel_of program.now) (control_in marked.now)) blank) }
    ensures args { IfOk result (λ c. c.args.items ≡ []) }
{
    let cells = solve(alloc, program, marked, before, inputs)?;
    Ok(Cells {
        signals: cells.signals,
        args: Vec::new(alloc),
    })
}

/// The reaction of the program where its control rests, after these last statuses and values of its interface, to these
/// inputs. `last` is the last id that an instance got.
pub fn react(
    alloc: Global,
    program: &Program,
    marked: &Marked,
    before: &[(bool, Value)],
    inputs: &[(u32, Value)],
    last: u64,
) -> Result<Outcome, NoMemory>
    requires { length before.now ≡ (kernel_of program.now).interface }
    ensures { IfOk result (λ o. outcome_of o ≡ reaction (kernel_of program.now) (control_in marked.now)
        (lasts_of before.now) inputs.now last) }
{
    let cells = solved(alloc, program, marked, before, inputs)?;
    let unknown = undecided(alloc, program, 0, before, &cells)?;
    if !unknown.is_empty() {
        return Ok(Outcome::Undecided(unknown));
    }
    let ran = program_step(alloc, program, marked, &cells)?;
    concluded(alloc, program, before, inputs, last, &cells, ran)
}
