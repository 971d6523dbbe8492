//! The last walk over a statement.

ghost use Rattle.std.specs.Prelude.{◌≡◌, ◌<◌, ◌≤◌, ◌&&◌, [], length, not, IfOk, Some};
ghost use Rattle.host_expr.specs.Environment.{env_of, is_decided, is_known};
ghost use Rattle.host_expr.specs.Evaluation.{eval_of};
ghost use Rattle.host_expr.specs.Expression.{expression_of, optional_expression};
ghost use Rattle.hh_term.specs.MustCan.{emitted, table_of, Table as ATable};
ghost use Rattle.hh_term.specs.ProgramView.{kernel_of};
ghost use Rattle.hh_term.specs.Selection.{Both, First, Inside, Resume, Scope, Second, Start};
ghost use Rattle.hh_term.specs.Statement.{Local, Loop, Par, Seq, Trap};
ghost use Rattle.hh_term.specs.Statement.{Statement as AStatement};
ghost use Rattle.hh_term.specs.Step.{emit_step};
ghost use Rattle.hh_term.specs.Views.{statement_of, selection_of};
ghost use Rattle.last_walk.specs.LastWalk.{held_step, verdict, Asks, Closed, Did, MayEnter, Tested, Walked};
ghost use Rattle.last_walk.specs.LastWalk.{WalkedIn};
ghost use Rattle.status_table.specs.Flat.{cell_with};
ghost use Rattle.status_table.specs.TableView.{cells_in};
ghost use Rattle.status_table.specs.Walking.{Fits};

use crate::completion::{
    Completion, Part, beside, completes, has_ended, in_scope, rests, trapped, within,
};
use crate::instance::{held, note_held, resume_async, start_async};
use crate::last_pass::{LastPass, Outer};
use hh_base::value::{NoMemory, Tri, Value};
use hh_term::mark::Mark;
use hh_term::program::Program;
use hh_term::term::{Term, TermNode};
use host_expr::cell::{Cell, SigCell};
use host_expr::eval::eval;
use host_expr::expr::Expr;
use status_table::state::Statuses;
use status_table::walk::emission;
use std::alloc::Global;

/// Where a walk is: how many loops are round the statement, and the level of the locals in it.
#[derive(Clone, Copy, PartialEq, Eq, Debug)]
pub struct Place {
    pub depth: usize,
    pub level: usize,
}

/// Whether a test holds, or None where it is unknown. A fault counts as not holding.
fn verdict(cell: &Cell) -> Option<bool>
    ensures { result ≡ verdict cell.now }
{
    match cell {
        Cell::Unknown => None,
        Cell::Known(Value::Bool(true)) => Some(true),
        Cell::Known(_) | Cell::Faulted(_, _) => Some(false),
    }
}

#[inline(never)]
fn test(alloc: Global, condition: &Expr<u32>, pass: &mut LastPass) -> Result<Option<bool>, NoMemory>
    requires { pass.old.cells.args.items ≡ [] }
    ensures same { pass.new ≡ record pass.old { fault = pass.new.fault } }
    ensures tested { IfOk result (λ r. (T : ATable) → Tested T
        (eval_of (expression_of condition.now) (env_of pass.old.cells.signals.items) []) r pass.old pass.new) }
{
    let cell = eval(alloc, condition, &pass.cells)?;
    pass.note_fault(&cell);
    Ok(verdict(&cell))
}

/// An emission. None where its value is unknown.
#[inline(never)]
fn emit(
    alloc: Global,
    signal: u32,
    value: &Option<Expr<u32>>,
    pass: &mut LastPass,
) -> Result<Option<Completion>, NoMemory>
    requires { pass.old.cells.args.items ≡ [] }
    ensures { IfOk result (λ r. (T : ATable) → Did T
        (emit_step signal (emitted (optional_expression value.now) (env_of pass.old.cells.signals.items))) r
        pass.old pass.new) }
{
    let cell = emission(alloc, value, &pass.cells)?;
    if is_unknown(&cell) {
        return Ok(None);
    }
    pass.note_fault(&cell);
    pass.emit(signal, &cell)?;
    Ok(Some(completes(0)))
}

fn is_unknown(cell: &Cell) -> bool
    ensures { is_known cell.now ≡ not result }
{
    matches!(cell, Cell::Unknown)
}

fn is_solved(cell: &SigCell) -> bool
    ensures { result ≡ (is_decided cell.now.status && is_known cell.now.value) }
{
    cell.status != Tri::Unknown && !is_unknown(&cell.value)
}

/// A suspended statement is held: its instances are touched, and its mark stays.
#[inline(never)]
fn hold(
    alloc: Global,
    term: &Term,
    mark: &Mark,
    pass: &mut LastPass,
) -> Result<Option<Completion>, NoMemory>
    ensures { IfOk result (λ r. (T : ATable) →
        Did T (Some (held_step (statement_of term.now) (selection_of mark.now))) r
        pass.old pass.new) }
{
    note_held(term, mark, &mut pass.touches)?;
    let end = within(alloc, Part::Inside, Some(rests(held(alloc, mark)?)))?;
    Ok(end)
}

/// Enters the scope of a local signal. The answer is None where its status or its value is unknown.
#[inline(never)]
fn enter_scope(
    alloc: Global,
    table: &Statuses,
    signal: u32,
    level: usize,
    pre: bool,
    before: &Value,
    pass: &mut LastPass,
) -> Result<Option<Outer>, NoMemory>
    requires cell { signal < length pass.old.cells.signals.items }
    requires emitted { signal < length pass.old.emitted.items }
    ensures { IfOk result (λ r. MayEnter signal (cell_with (cells_in table.now signal level) pre before.now) r
        pass.old pass.new) }
{
    let inner = table.cell(alloc, signal, level, pre, before)?;
    if !is_solved(&inner) {
        return Ok(None);
    }
    Ok(Some(pass.enter(signal, inner)))
}

/// Leaves the scope of a local signal whose body completed so.
#[inline(never)]
fn leave_scope(
    alloc: Global,
    program: &Program,
    signal: u32,
    outer: Outer,
    body: Completion,
    pass: &mut LastPass,
) -> Result<Completion, NoMemory>
    requires cell { signal < length pass.old.cells.signals.items }
    requires emitted { signal < length pass.old.emitted.items }
    ensures { IfOk result
        (λ r. Closed (table_of (kernel_of program.now)) signal outer body r pass.old pass.new) }
{
    let cell = pass.leave(program, signal, outer);
    let end = in_scope(alloc, body, cell)?;
    Ok(end)
}

/// Starts the statement. The answer is None where the status or the value of a local signal that it meets is
/// unknown, or a test or an argument.
#[cycle(start)]
pub fn start(
    alloc: Global,
    program: &Program,
    table: &Statuses,
    term: &Term,
    at: Place,
    pass: &mut LastPass,
) -> Result<Option<Completion>, NoMemory>
    requires fits { Fits (length pass.old.cells.signals.items) (length table.now.rows.items) at.depth
        (statement_of term.now) }
    requires emitted { length pass.old.emitted.items ≡ length pass.old.cells.signals.items }
    requires args { pass.old.cells.args.items ≡ [] }
    requires declared { length pass.old.cells.signals.items ≤ length (kernel_of program.now).signals }
    requires depth { at.depth < length table.now.rows.items }
    ensures { IfOk result (λ r. Walked (table_of (kernel_of program.now)) (cells_in table.now)
        (statement_of term.now) at.depth at.level Start r pass.old pass.new) }
{
    match &term.node {
        TermNode::Nothing => Ok(Some(completes(0))),
        TermNode::Pause => Ok(Some(rests(Mark::Pause))),
        TermNode::Exit(k) => Ok(Some(completes(u16::from(*k) + 2))),
        TermNode::Emit(s, value) => emit(alloc, *s, value, pass),
        TermNode::Async(n) => start_async(alloc, program, *n, pass),
        TermNode::If(condition, p, q) => match test(alloc, condition, pass)? {
            None => Ok(None),
            Some(true) => start_part(alloc, program, table, Part::First, p, at, pass),
            Some(false) => start_part(alloc, program, table, Part::Second, q, at, pass),
        },
        TermNode::Suspend(_, p) => start_part(alloc, program, table, Part::Inside, p, at, pass),
        TermNode::Seq(p, q) => start_sequence(alloc, program, table, p, q, at, pass),
        TermNode::Par(p, q) => start_fork(alloc, program, table, p, q, at, pass),
        TermNode::Loop(p) => {
            let depth = at.depth + 1;
            let inner = Place { depth, ..at };
            start_part(alloc, program, table, Part::Inside, p, inner, pass)
        }
        TermNode::Trap(p) => start_trap(alloc, program, table, p, at, pass),
        TermNode::Local(s, p) => start_scope(alloc, program, table, *s, p, at, pass),
    }
}

/// Starts the only part of a statement that runs.
#[cycle(start)]
#[inline(never)]
fn start_part(
    alloc: Global,
    program: &Program,
    table: &Statuses,
    part: Part,
    term: &Term,
    at: Place,
    pass: &mut LastPass,
) -> Result<Option<Completion>, NoMemory>
    requires { Asks (length table.now.rows.items) (length (kernel_of program.now).signals) at.depth
        (statement_of term.now) pass.old }
    ensures { IfOk result (λ r. WalkedIn part (table_of (kernel_of program.now)) (cells_in table.now)
        (statement_of term.now) at.depth at.level Start r pass.old pass.new) }
{
    let end = start(alloc, program, table, term, at, pass)?;
    let end = within(alloc, part, end)?;
    Ok(end)
}

#[cycle(start)]
#[inline(never)]
fn start_sequence(
    alloc: Global,
    program: &Program,
    table: &Statuses,
    p: &Term,
    q: &Term,
    at: Place,
    pass: &mut LastPass,
) -> Result<Option<Completion>, NoMemory>
    requires { Asks (length table.now.rows.items) (length (kernel_of program.now).signals) at.depth
        (Seq (statement_of p.now) (statement_of q.now)) pass.old }
    ensures { IfOk result (λ r. Walked (table_of (kernel_of program.now)) (cells_in table.now)
        (Seq (statement_of p.now) (statement_of q.now)) at.depth at.level Start r pass.old pass.new) }
{
    let first = start(alloc, program, table, p, at, pass)?;
    if !has_ended(&first) {
        let end = within(alloc, Part::First, first)?;
        return Ok(end);
    }
    let second = start(alloc, program, table, q, at, pass)?;
    let end = within(alloc, Part::Second, second)?;
    Ok(end)
}

#[cycle(start)]
#[inline(never)]
fn start_fork(
    alloc: Global,
    program: &Program,
    table: &Statuses,
    p: &Term,
    q: &Term,
    at: Place,
    pass: &mut LastPass,
) -> Result<Option<Completion>, NoMemory>
    requires { Asks (length table.now.rows.items) (length (kernel_of program.now).signals) at.depth
        (Par (statement_of p.now) (statement_of q.now)) pass.old }
    ensures { IfOk result (λ r. Walked (table_of (kernel_of program.now)) (cells_in table.now)
        (Par (statement_of p.now) (statement_of q.now)) at.depth at.level Start r pass.old pass.new) }
{
    let from = pass.touches.len();
    let Some(first) = start(alloc, program, table, p, at, pass)? else {
        return Ok(None);
    };
    let Some(second) = start(alloc, program, table, q, at, pass)? else {
        return Ok(None);
    };
    let end = beside(alloc, from, first, second, pass)?;
    Ok(Some(end))
}

#[cycle(start)]
#[inline(never)]
fn start_trap(
    alloc: Global,
    program: &Program,
    table: &Statuses,
    p: &Term,
    at: Place,
    pass: &mut LastPass,
) -> Result<Option<Completion>, NoMemory>
    requires { Asks (length table.now.rows.items) (length (kernel_of program.now).signals) at.depth
        (statement_of p.now) pass.old }
    ensures { IfOk result (λ r. Walked (table_of (kernel_of program.now)) (cells_in table.now)
        (Trap (statement_of p.now)) at.depth at.level Start r pass.old pass.new) }
{
    let end = start(alloc, program, table, p, at, pass)?;
    let end = trapped(alloc, end)?;
    Ok(end)
}

#[cycle(start)]
#[inline(never)]
fn start_scope(
    alloc: Global,
    program: &Program,
    table: &Statuses,
    signal: u32,
    p: &Term,
    at: Place,
    pass: &mut LastPass,
) -> Result<Option<Completion>, NoMemory>
    requires { Asks (length table.now.rows.items) (length (kernel_of program.now).signals) at.depth
        (Local signal (statement_of p.now)) pass.old }
    ensures { IfOk result (λ r. Walked (table_of (kernel_of program.now)) (cells_in table.now)
        (Local signal (statement_of p.now)) at.depth at.level Start r pass.old pass.new) }
{
    let first = &program.signals()[signal as usize].first;
    let Some(outer) = enter_scope(alloc, table, signal, at.level, false, first, pass)? else {
        return Ok(None);
    };
    let Some(body) = start(alloc, program, table, p, at, pass)? else {
        return Ok(None);
    };
    let end = leave_scope(alloc, program, signal, outer, body, pass)?;
    Ok(Some(end))
}

/// Resumes the statement where control rests in it, as `start` starts it.
#[cycle(resume)]
pub fn resume(
    alloc: Global,
    program: &Program,
    table: &Statuses,
    term: &Term,
    mark: &Mark,
    at: Place,
    pass: &mut LastPass,
) -> Result<Option<Completion>, NoMemory>
    requires fits { Fits (length pass.old.cells.signals.items) (length table.now.rows.items) at.depth
        (statement_of term.now) }
    requires emitted { length pass.old.emitted.items ≡ length pass.old.cells.signals.items }
    requires args { pass.old.cells.args.items ≡ [] }
    requires declared { length pass.old.cells.signals.items ≤ length (kernel_of program.now).signals }
    requires depth { at.depth < length table.now.rows.items }
    ensures { IfOk result (λ r. Walked (table_of (kernel_of program.now)) (cells_in table.now)
        (statement_of term.now) at.depth at.level (Resume (selection_of mark.now)) r pass.old pass.new) }
{
    match (&term.node, mark) {
        (TermNode::Nothing | TermNode::Pause, _) => Ok(Some(completes(0))),
        (TermNode::Exit(k), _) => Ok(Some(completes(u16::from(*k) + 2))),
        (TermNode::Emit(s, value), _) => emit(alloc, *s, value, pass),
        (TermNode::Async(n), Mark::Async(instance)) => {
            let end = resume_async(alloc, program, *n, instance, pass)?;
            Ok(Some(end))
        }
        (TermNode::If(_, p, _), Mark::First(m)) => {
            resume_part(alloc, program, table, Part::First, p, m, at, pass)
        }
        (TermNode::If(_, _, q), Mark::Second(m)) => {
            resume_part(alloc, program, table, Part::Second, q, m, at, pass)
        }
        (TermNode::Suspend(condition, p), Mark::Inside(m)) => match test(alloc, condition, pass)? {
            None => Ok(None),
            Some(true) => hold(alloc, p, m, pass),
            Some(false) => resume_part(alloc, program, table, Part::Inside, p, m, at, pass),
        },
        (TermNode::Seq(p, q), Mark::First(m)) => {
            resume_first(alloc, program, table, p, m, q, at, pass)
        }
        (TermNode::Seq(_, q), Mark::Second(m)) => {
            resume_part(alloc, program, table, Part::Second, q, m, at, pass)
        }
        (TermNode::Par(p, _), Mark::First(m)) => {
            resume_left(alloc, program, table, p, m, at, pass)
        }
        (TermNode::Par(_, q), Mark::Second(m)) => {
            resume_right(alloc, program, table, q, m, at, pass)
        }
        (TermNode::Par(p, q), Mark::Both(m, n)) => {
            resume_fork(alloc, program, table, p, m, q, n, at, pass)
        }
        (TermNode::Loop(p), Mark::Inside(m)) => resume_loop(alloc, program, table, p, m, at, pass),
        (TermNode::Trap(p), Mark::Inside(m)) => resume_trap(alloc, program, table, p, m, at, pass),
        (TermNode::Local(s, p), Mark::Local(m, pre, before)) => {
            resume_scope(alloc, program, table, *s, p, m, *pre, before, at, pass)
        }
        _ => Ok(None),
    }
}

/// Resumes the only part of a statement that runs.
#[cycle(resume)]
#[inline(never)]
fn resume_part(
    alloc: Global,
    program: &Program,
    table: &Statuses,
    part: Part,
    p: &Term,
    m: &Mark,
    at: Place,
    pass: &mut LastPass,
) -> Result<Option<Completion>, NoMemory>
    requires { Asks (length table.now.rows.items) (length (kernel_of program.now).signals) at.depth
        (statement_of p.now) pass.old }
    ensures { IfOk result (λ r. WalkedIn part (table_of (kernel_of program.now)) (cells_in table.now)
        (statement_of p.now) at.depth at.level (Resume (selection_of m.now)) r pass.old pass.new) }
{
    let end = resume(alloc, program, table, p, m, at, pass)?;
    let end = within(alloc, part, end)?;
    Ok(end)
}

/// Resumes the first part of a sequence, and starts the second where the first ends.
#[cycle(resume)]
#[inline(never)]
fn resume_first(
    alloc: Global,
    program: &Program,
    table: &Statuses,
    p: &Term,
    m: &Mark,
    q: &Term,
    at: Place,
    pass: &mut LastPass,
) -> Result<Option<Completion>, NoMemory>
    requires { Asks (length table.now.rows.items) (length (kernel_of program.now).signals) at.depth
        (Seq (statement_of p.now) (statement_of q.now)) pass.old }
    ensures { IfOk result (λ r. Walked (table_of (kernel_of program.now)) (cells_in table.now)
        (Seq (statement_of p.now) (statement_of q.now)) at.depth at.level
        (Resume (First (selection_of m.now))) r pass.old pass.new) }
{
    let first = resume(alloc, program, table, p, m, at, pass)?;
    if !has_ended(&first) {
        let end = within(alloc, Part::First, first)?;
        return Ok(end);
    }
    let second = start(alloc, program, table, q, at, pass)?;
    let end = within(alloc, Part::Second, second)?;
    Ok(end)
}

/// Resumes the first branch of a fork whose second has ended.
#[cycle(resume)]
#[inline(never)]
fn resume_left(
    alloc: Global,
    program: &Program,
    table: &Statuses,
    p: &Term,
    m: &Mark,
    at: Place,
    pass: &mut LastPass,
) -> Result<Option<Completion>, NoMemory>
    requires { Asks (length table.now.rows.items) (length (kernel_of program.now).signals) at.depth
        (statement_of p.now) pass.old }
    ensures { (q : AStatement) →
        IfOk result (λ r. Walked (table_of (kernel_of program.now)) (cells_in table.now)
        (Par (statement_of p.now) q) at.depth at.level (Resume (First (selection_of m.now)))
        r pass.old pass.new) }
{
    let from = pass.touches.len();
    let Some(end) = resume(alloc, program, table, p, m, at, pass)? else {
        return Ok(None);
    };
    let end = beside(alloc, from, end, completes(0), pass)?;
    Ok(Some(end))
}

/// Resumes the second branch of a fork whose first has ended.
#[cycle(resume)]
#[inline(never)]
fn resume_right(
    alloc: Global,
    program: &Program,
    table: &Statuses,
    p: &Term,
    m: &Mark,
    at: Place,
    pass: &mut LastPass,
) -> Result<Option<Completion>, NoMemory>
    requires { Asks (length table.now.rows.items) (length (kernel_of program.now).signals) at.depth
        (statement_of p.now) pass.old }
    ensures { (q : AStatement) →
        IfOk result (λ r. Walked (table_of (kernel_of program.now)) (cells_in table.now)
        (Par q (statement_of p.now)) at.depth at.level (Resume (Second (selection_of m.now)))
        r pass.old pass.new) }
{
    let from = pass.touches.len();
    let Some(end) = resume(alloc, program, table, p, m, at, pass)? else {
        return Ok(None);
    };
    let end = beside(alloc, from, completes(0), end, pass)?;
    Ok(Some(end))
}

#[cycle(resume)]
#[inline(never)]
fn resume_fork(
    alloc: Global,
    program: &Program,
    table: &Statuses,
    p: &Term,
    m: &Mark,
    q: &Term,
    n: &Mark,
    at: Place,
    pass: &mut LastPass,
) -> Result<Option<Completion>, NoMemory>
    requires { Asks (length table.now.rows.items) (length (kernel_of program.now).signals) at.depth
        (Par (statement_of p.now) (statement_of q.now)) pass.old }
    ensures { IfOk result (λ r. Walked (table_of (kernel_of program.now)) (cells_in table.now)
        (Par (statement_of p.now) (statement_of q.now)) at.depth at.level
        (Resume (Both (selection_of m.now) (selection_of n.now))) r pass.old pass.new) }
{
    let from = pass.touches.len();
    let Some(first) = resume(alloc, program, table, p, m, at, pass)? else {
        return Ok(None);
    };
    let Some(second) = resume(alloc, program, table, q, n, at, pass)? else {
        return Ok(None);
    };
    let end = beside(alloc, from, first, second, pass)?;
    Ok(Some(end))
}

/// Resumes the body of a loop, and starts it anew where it ends.
#[cycle(resume)]
#[inline(never)]
fn resume_loop(
    alloc: Global,
    program: &Program,
    table: &Statuses,
    p: &Term,
    m: &Mark,
    at: Place,
    pass: &mut LastPass,
) -> Result<Option<Completion>, NoMemory>
    requires { Asks (length table.now.rows.items) (length (kernel_of program.now).signals) at.depth
        (Loop (statement_of p.now)) pass.old }
    ensures { IfOk result (λ r. Walked (table_of (kernel_of program.now)) (cells_in table.now)
        (Loop (statement_of p.now)) at.depth at.level (Resume (Inside (selection_of m.now)))
        r pass.old pass.new) }
{
    let depth = at.depth + 1;
    let inner = Place { depth, ..at };
    let first = resume(alloc, program, table, p, m, inner, pass)?;
    if !has_ended(&first) {
        let end = within(alloc, Part::Inside, first)?;
        return Ok(end);
    }
    let anew = Place {
        depth,
        level: depth,
    };
    let second = start(alloc, program, table, p, anew, pass)?;
    let end = within(alloc, Part::Inside, second)?;
    Ok(end)
}

#[cycle(resume)]
#[inline(never)]
fn resume_trap(
    alloc: Global,
    program: &Program,
    table: &Statuses,
    p: &Term,
    m: &Mark,
    at: Place,
    pass: &mut LastPass,
) -> Result<Option<Completion>, NoMemory>
    requires { Asks (length table.now.rows.items) (length (kernel_of program.now).signals) at.depth
        (Trap (statement_of p.now)) pass.old }
    ensures { IfOk result (λ r. Walked (table_of (kernel_of program.now)) (cells_in table.now)
        (Trap (statement_of p.now)) at.depth at.level (Resume (Inside (selection_of m.now)))
        r pass.old pass.new) }
{
    let end = resume(alloc, program, table, p, m, at, pass)?;
    let end = trapped(alloc, end)?;
    Ok(end)
}

#[cycle(resume)]
#[inline(never)]
fn resume_scope(
    alloc: Global,
    program: &Program,
    table: &Statuses,
    signal: u32,
    p: &Term,
    m: &Mark,
    pre: bool,
    before: &Value,
    at: Place,
    pass: &mut LastPass,
) -> Result<Option<Completion>, NoMemory>
    requires { Asks (length table.now.rows.items) (length (kernel_of program.now).signals) at.depth
        (Local signal (statement_of p.now)) pass.old }
    ensures { IfOk result (λ r. Walked (table_of (kernel_of program.now)) (cells_in table.now)
        (Local signal (statement_of p.now)) at.depth at.level
        (Resume (Scope (selection_of m.now) pre before.now)) r pass.old pass.new) }
{
    let Some(outer) = enter_scope(alloc, table, signal, at.level, pre, before, pass)? else {
        return Ok(None);
    };
    let Some(body) = resume(alloc, program, table, p, m, at, pass)? else {
        return Ok(None);
    };
    let end = leave_scope(alloc, program, signal, outer, body, pass)?;
    Ok(Some(end))
}
