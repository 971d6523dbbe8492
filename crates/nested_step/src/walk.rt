//! The step of a statement, in one recursion over it.

ghost use Rattle.std.specs.Prelude.{◌≡◌, [], false, Some, IfOk};
ghost use Rattle.host_expr.specs.Environment.{environment_of, unsolved as unsolved_cell};
ghost use Rattle.host_expr.specs.Evaluation.{eval_of};
ghost use Rattle.host_expr.specs.Expression.{expression_of, optional_expression};
ghost use Rattle.hh_term.specs.MustCan.{emitted, must_can, round, solve, table_of, Executed};
ghost use Rattle.hh_term.specs.ProgramView.{kernel_of};
ghost use Rattle.hh_term.specs.Selection.{First, Inside, Resume, Second, Start};
ghost use Rattle.hh_term.specs.Step.{emit_step, local_step, on_test, rests, step, wrap};
ghost use Rattle.hh_term.specs.Touches.{held_mark, held_touches};
ghost use Rattle.hh_term.specs.Views.{selection_of, statement_of};
ghost use Rattle.nested_step.specs.View.{step_of, stepped_of};

use crate::instance::{resume_async, start_async};
use crate::leaving::leave_scope;
use crate::marks::{Part, held};
use crate::stepped::{
    Stepped, beside, completes, emits, on_test, rests, then_start, trapped, wrap,
};
use crate::touches::held_touches;
use hh_base::value::{NoMemory, Value};
use hh_term::mark::Mark;
use hh_term::program::Program;
use hh_term::term::{Term, TermNode};
use host_expr::cell::{Cell, Cells, SigCell};
use host_expr::eval::eval;
use host_expr::expr::Expr;
use nested_reaction::declared::first_of;
use nested_reaction::environment::{copy_signal, unsolved, with};
use nested_reaction::must_can::raised;
use nested_reaction::walk as must_can;
use std::alloc::Global;

fn emission(alloc: Global, value: &Option<Expr<u32>>, cells: &Cells) -> Result<Cell, NoMemory>
    requires { cells.now.args.items ≡ [] }
    ensures { IfOk result (λ c. c ≡ emitted (optional_expression value.now) (environment_of cells.now)) }
{
    match value {
        Some(value) => eval(alloc, value, cells),
        None => Ok(Cell::Known(Value::Unit)),
    }
}

fn emit(
    alloc: Global,
    signal: u32,
    value: &Option<Expr<u32>>,
    cells: &Cells,
) -> Result<Option<Stepped>, NoMemory>
    requires { cells.now.args.items ≡ [] }
    ensures { IfOk result (λ a. step_of a
        ≡ emit_step signal (emitted (optional_expression value.now) (environment_of cells.now))) }
{
    let cell = emission(alloc, value, cells)?;
    emits(alloc, signal, cell)
}

/// By a condition: the first where it holds, the second where it does not.
fn choose(
    alloc: Global,
    condition: &Expr<u32>,
    cells: &Cells,
    first: Option<Stepped>,
    second: Option<Stepped>,
) -> Result<Option<Stepped>, NoMemory>
    requires { cells.now.args.items ≡ [] }
    ensures { IfOk result (λ a. step_of a ≡ on_test (eval_of (expression_of condition.now) (environment_of cells.now) [])
        (step_of first) (step_of second)) }
{
    let cell = eval(alloc, condition, cells)?;
    on_test(&cell, first, second)
}

/// A body that is held where its control rests.
fn hold(alloc: Global, body: &Term, mark: &Mark) -> Result<Option<Stepped>, NoMemory>
    ensures { IfOk result (λ a. step_of a ≡ Some (rests (Inside (held_mark (selection_of mark.now)))
        (held_touches (statement_of body.now) (selection_of mark.now)))) }
{
    let touches = held_touches(alloc, body, mark)?;
    let mark = Mark::Inside(Box::new(alloc, held(alloc, mark)?)?);
    Ok(Some(rests(alloc, mark, touches)))
}

/// A test between two parts, of which one is the statement's step.
fn choose_part(
    alloc: Global,
    condition: &Expr<u32>,
    cells: &Cells,
    first: Option<Stepped>,
    second: Option<Stepped>,
) -> Result<Option<Stepped>, NoMemory>
    requires { cells.now.args.items ≡ [] }
    ensures { IfOk result (λ a. step_of a ≡ on_test (eval_of (expression_of condition.now) (environment_of cells.now) [])
        (wrap First (step_of first)) (wrap Second (step_of second))) }
{
    let first = wrap(alloc, Part::First, first)?;
    let second = wrap(alloc, Part::Second, second)?;
    choose(alloc, condition, cells, first, second)
}

/// A body that is held where the condition holds, and else steps so.
fn choose_held(
    alloc: Global,
    condition: &Expr<u32>,
    body: &Term,
    mark: &Mark,
    cells: &Cells,
    resumed: Option<Stepped>,
) -> Result<Option<Stepped>, NoMemory>
    requires { cells.now.args.items ≡ [] }
    ensures { IfOk result (λ a. step_of a ≡ on_test (eval_of (expression_of condition.now) (environment_of cells.now) [])
        (Some (rests (Inside (held_mark (selection_of mark.now)))
        (held_touches (statement_of body.now) (selection_of mark.now)))) (wrap Inside (step_of resumed))) }
{
    let resumed = wrap(alloc, Part::Inside, resumed)?;
    let held = hold(alloc, body, mark)?;
    choose(alloc, condition, cells, held, resumed)
}

/// One round over the body of a local signal, which is started.
fn start_round(
    alloc: Global,
    program: &Program,
    signal: u32,
    body: &Term,
    cells: &Cells,
    cell: SigCell,
) -> Result<SigCell, NoMemory>
    ensures { IfOk result (λ d. d ≡ round (table_of (kernel_of program.now)) signal
        (must_can (table_of (kernel_of program.now)) (statement_of body.now) Start Executed)
        (environment_of cells.now) cell) }
{
    let inner = with(alloc, cells, signal, copy_signal(alloc, &cell)?)?;
    let done = must_can::start(alloc, program, body, true, &inner)?;
    raised(alloc, program, signal, &cell, &done)
}

/// What is known of a local signal, whose body is started.
fn solve_started(
    alloc: Global,
    program: &Program,
    signal: u32,
    body: &Term,
    cells: &Cells,
) -> Result<SigCell, NoMemory>
    ensures { IfOk result (λ d. d ≡ solve (table_of (kernel_of program.now)) signal
        (must_can (table_of (kernel_of program.now)) (statement_of body.now) Start Executed)
        (environment_of cells.now) (unsolved_cell false ((table_of (kernel_of program.now)).first signal))) }
{
    let opened = unsolved(false, first_of(alloc, program, signal)?);
    let once = start_round(alloc, program, signal, body, cells, opened)?;
    start_round(alloc, program, signal, body, cells, once)
}

/// One round over the body of a local signal, which is resumed.
fn resume_round(
    alloc: Global,
    program: &Program,
    signal: u32,
    body: &Term,
    mark: &Mark,
    cells: &Cells,
    cell: SigCell,
) -> Result<SigCell, NoMemory>
    ensures { IfOk result (λ d. d ≡ round (table_of (kernel_of program.now)) signal
        (must_can (table_of (kernel_of program.now)) (statement_of body.now) (Resume (selection_of mark.now)) Executed)
        (environment_of cells.now) cell) }
{
    let inner = with(alloc, cells, signal, copy_signal(alloc, &cell)?)?;
    let done = must_can::resume(alloc, program, body, mark, true, &inner)?;
    raised(alloc, program, signal, &cell, &done)
}

/// What is known of a local signal with this cell before any round, whose body is resumed.
fn solve_resumed(
    alloc: Global,
    program: &Program,
    signal: u32,
    body: &Term,
    mark: &Mark,
    cells: &Cells,
    opened: SigCell,
) -> Result<SigCell, NoMemory>
    ensures { IfOk result (λ d. d ≡ solve (table_of (kernel_of program.now)) signal
        (must_can (table_of (kernel_of program.now)) (statement_of body.now) (Resume (selection_of mark.now)) Executed)
        (environment_of cells.now) opened) }
{
    let once = resume_round(alloc, program, signal, body, mark, cells, opened)?;
    resume_round(alloc, program, signal, body, mark, cells, once)
}

/// The step of a statement that is started. None where it is undefined: the status or the value of a local signal, a test,
/// an argument or a value that it meets is unknown.
#[cycle(start)]
pub fn start(
    alloc: Global,
    program: &Program,
    term: &Term,
    cells: &Cells,
) -> Result<Option<Stepped>, NoMemory>
    requires { cells.now.args.items ≡ [] }
    ensures { IfOk result (λ a. step_of a ≡ step (table_of (kernel_of program.now)) (statement_of term.now) Start
        (environment_of cells.now)) }
{
    match &term.node {
        TermNode::Nothing => Ok(Some(completes(alloc, 0))),
        TermNode::Pause => Ok(Some(rests(alloc, Mark::Pause, Vec::new(alloc)))),
        TermNode::Exit(k) => Ok(Some(completes(alloc, u16::from(*k) + 2))),
        TermNode::Emit(s, value) => emit(alloc, *s, value, cells),
        TermNode::Async(n) => start_async(alloc, program, *n, cells),
        TermNode::If(condition, p, q) => {
            let first = start(alloc, program, p, cells)?;
            let second = start(alloc, program, q, cells)?;
            choose_part(alloc, condition, cells, first, second)
        }
        TermNode::Suspend(_, p) | TermNode::Loop(p) => {
            let body = start(alloc, program, p, cells)?;
            wrap(alloc, Part::Inside, body)
        }
        TermNode::Seq(p, q) => {
            let first = start(alloc, program, p, cells)?;
            let second = start(alloc, program, q, cells)?;
            then_start(alloc, Part::First, Part::Second, first, second)
        }
        TermNode::Par(p, q) => {
            let first = start(alloc, program, p, cells)?;
            let second = start(alloc, program, q, cells)?;
            beside(alloc, first, second)
        }
        TermNode::Trap(p) => {
            let body = start(alloc, program, p, cells)?;
            trapped(alloc, body)
        }
        TermNode::Local(s, p) => start_scope(alloc, program, *s, p, cells),
    }
}

/// A local signal, whose body is started.
#[cycle(start)]
#[inline(never)]
fn start_scope(
    alloc: Global,
    program: &Program,
    signal: u32,
    body: &Term,
    cells: &Cells,
) -> Result<Option<Stepped>, NoMemory>
    ensures { IfOk result (λ a. step_of a ≡ local_step (table_of (kernel_of program.now)) signal
        (must_can (table_of (kernel_of program.now)) (statement_of body.now) Start Executed)
        (step (table_of (kernel_of program.now)) (statement_of body.now) Start) (environment_of cells.now)
        (unsolved_cell false ((table_of (kernel_of program.now)).first signal))) }
{
    let cell = solve_started(alloc, program, signal, body, cells)?;
    let inner = with(alloc, cells, signal, copy_signal(alloc, &cell)?)?;
    let done = start(alloc, program, body, &inner)?;
    leave_scope(alloc, program, signal, &cell, done)
}

/// The step of a statement that is resumed where its control rests. None where it is undefined, also where the mark is not
/// one of the statement.
#[cycle(resume)]
pub fn resume(
    alloc: Global,
    program: &Program,
    term: &Term,
    mark: &Mark,
    cells: &Cells,
) -> Result<Option<Stepped>, NoMemory>
    requires { cells.now.args.items ≡ [] }
    ensures { IfOk result (λ a. step_of a ≡ step (table_of (kernel_of program.now)) (statement_of term.now)
        (Resume (selection_of mark.now)) (environment_of cells.now)) }
{
    match (&term.node, mark) {
        (TermNode::Nothing | TermNode::Pause, _) => Ok(Some(completes(alloc, 0))),
        (TermNode::Exit(k), _) => Ok(Some(completes(alloc, u16::from(*k) + 2))),
        (TermNode::Emit(s, value), _) => emit(alloc, *s, value, cells),
        (TermNode::Async(n), Mark::Async(instance)) => {
            Ok(Some(resume_async(alloc, program, *n, instance)?))
        }
        (TermNode::If(_, p, _), Mark::First(m)) => {
            let body = resume(alloc, program, p, m, cells)?;
            wrap(alloc, Part::First, body)
        }
        (TermNode::If(_, _, q) | TermNode::Seq(_, q), Mark::Second(m)) => {
            let body = resume(alloc, program, q, m, cells)?;
            wrap(alloc, Part::Second, body)
        }
        (TermNode::Suspend(condition, p), Mark::Inside(m)) => {
            let body = resume(alloc, program, p, m, cells)?;
            choose_held(alloc, condition, p, m, cells, body)
        }
        (TermNode::Seq(p, q), Mark::First(m)) => {
            let first = resume(alloc, program, p, m, cells)?;
            let second = start(alloc, program, q, cells)?;
            then_start(alloc, Part::First, Part::Second, first, second)
        }
        (TermNode::Par(p, _), Mark::First(m)) => {
            let first = resume(alloc, program, p, m, cells)?;
            beside(alloc, first, Some(completes(alloc, 0)))
        }
        (TermNode::Par(_, q), Mark::Second(m)) => {
            let second = resume(alloc, program, q, m, cells)?;
            beside(alloc, Some(completes(alloc, 0)), second)
        }
        (TermNode::Par(p, q), Mark::Both(m, n)) => {
            let first = resume(alloc, program, p, m, cells)?;
            let second = resume(alloc, program, q, n, cells)?;
            beside(alloc, first, second)
        }
        (TermNode::Loop(p), Mark::Inside(m)) => {
            let first = resume(alloc, program, p, m, cells)?;
            let second = start(alloc, program, p, cells)?;
            then_start(alloc, Part::Inside, Part::Inside, first, second)
        }
        (TermNode::Trap(p), Mark::Inside(m)) => {
            let body = resume(alloc, program, p, m, cells)?;
            trapped(alloc, body)
        }
        (TermNode::Local(s, p), Mark::Local(m, pre, before)) => {
            let opened = unsolved(*pre, before.copy(alloc)?);
            resume_scope(alloc, program, *s, p, m, cells, opened)
        }
        _ => Ok(None),
    }
}

/// A local signal with this cell before any round, whose body is resumed.
#[cycle(resume)]
#[inline(never)]
fn resume_scope(
    alloc: Global,
    program: &Program,
    signal: u32,
    body: &Term,
    mark: &Mark,
    cells: &Cells,
    opened: SigCell,
) -> Result<Option<Stepped>, NoMemory>
    ensures { IfOk result (λ a. step_of a ≡ local_step (table_of (kernel_of program.now)) signal
        (must_can (table_of (kernel_of program.now)) (statement_of body.now) (Resume (selection_of mark.now)) Executed)
        (step (table_of (kernel_of program.now)) (statement_of body.now) (Resume (selection_of mark.now)))
        (environment_of cells.now) opened) }
{
    let cell = solve_resumed(alloc, program, signal, body, mark, cells, opened)?;
    let inner = with(alloc, cells, signal, copy_signal(alloc, &cell)?)?;
    let done = resume(alloc, program, body, mark, &inner)?;
    leave_scope(alloc, program, signal, &cell, done)
}
