//! Must and Can of a statement, in one recursion over it.

ghost use Rattle.std.specs.Prelude.{◌≡◌, ◌∷◌, [], false, cond, IfOk};
ghost use Rattle.host_expr.specs.Environment.{environment_of, unsolved as unsolved_cell};
ghost use Rattle.host_expr.specs.Evaluation.{eval_of, truth};
ghost use Rattle.host_expr.specs.Expression.{expression_of, optional_expression};
ghost use Rattle.hh_term.specs.MustCan.{answered, emitted, gives, must_can, round, scoped, table_of};
ghost use Rattle.hh_term.specs.ProgramView.{kernel_of};
ghost use Rattle.hh_term.specs.Selection.{Resume, Start};
ghost use Rattle.hh_term.specs.Views.{selection_of, statement_of};
ghost use Rattle.nested_reaction.specs.View.{index_of, must_can_of, verdict};

use crate::declared::{first_of, target_of};
use crate::environment::{copy_signal, unsolved, with};
use crate::must_can::{
    MustCan, beside, completes, emits, hide, in_sequence, is_end, one_of, raised, trapped,
};
use hh_base::item::Queue;
use hh_base::value::{NoMemory, Value};
use hh_term::mark::Mark;
use hh_term::program::Program;
use hh_term::term::{Term, TermNode};
use host_expr::cell::{Cell, Cells, SigCell};
use host_expr::eval::eval;
use host_expr::expr::Expr;
use std::alloc::Global;

/// What a test gives. A fault counts as not holding.
#[derive(Clone, Copy, PartialEq, Eq, Debug)]
pub enum Verdict {
    Undecided,
    Holds,
    Fails,
}

fn judge(alloc: Global, condition: &Expr<u32>, cells: &Cells) -> Result<Verdict, NoMemory>
    requires { cells.now.args.items ≡ [] }
    ensures { IfOk result
        (λ v. v ≡ verdict (eval_of (expression_of condition.now) (environment_of cells.now) [])) }
{
    Ok(match eval(alloc, condition, cells)? {
        Cell::Unknown => Verdict::Undecided,
        Cell::Known(Value::Bool(true)) => Verdict::Holds,
        Cell::Known(_) | Cell::Faulted(_, _) => Verdict::Fails,
    })
}

fn emission(alloc: Global, value: &Option<Expr<u32>>, cells: &Cells) -> Result<Cell, NoMemory>
    requires { cells.now.args.items ≡ [] }
    ensures { IfOk result (λ c. c ≡ emitted (optional_expression value.now) (environment_of cells.now)) }
{
    match value {
        Some(value) => eval(alloc, value, cells),
        None => Ok(Cell::Known(Value::Unit)),
    }
}

fn emit(
    alloc: Global,
    signal: u32,
    value: &Option<Expr<u32>>,
    sure: bool,
    cells: &Cells,
) -> Result<MustCan, NoMemory>
    requires { cells.now.args.items ≡ [] }
    ensures { IfOk result (λ a. must_can_of a ≡ gives
        ((signal, emitted (optional_expression value.now) (environment_of cells.now)) ∷ []) 0 (index_of sure)) }
{
    let cell = emission(alloc, value, cells)?;
    emits(alloc, signal, cell, 0, sure)
}

/// An instance that is resumed uses the first answer of its queue, and ends where that is the last.
fn answer(
    alloc: Global,
    program: &Program,
    site: u32,
    queue: &Queue,
    sure: bool,
) -> Result<MustCan, NoMemory>
    ensures { IfOk result
        (λ a. must_can_of a ≡ answered ((table_of (kernel_of program.now)).target site) queue.now
        (index_of sure)) }
{
    let Some(first) = queue.get(0) else {
        return Ok(completes(alloc, 1, sure));
    };
    let code = if first.last { 0 } else { 1 };
    match target_of(program, site) {
        Some(signal) => emits(
            alloc,
            signal,
            Cell::Known(first.value.copy(alloc)?),
            code,
            sure,
        ),
        None => Ok(completes(alloc, code, sure)),
    }
}

/// What the statement must and can do where it is started. `sure` tells that it is known to be executed.
#[cycle(start)]
pub fn start(
    alloc: Global,
    program: &Program,
    term: &Term,
    sure: bool,
    cells: &Cells,
) -> Result<MustCan, NoMemory>
    requires { cells.now.args.items ≡ [] }
    ensures { IfOk result
        (λ a. must_can_of a ≡ must_can (table_of (kernel_of program.now)) (statement_of term.now) Start
        (index_of sure) (environment_of cells.now)) }
{
    match &term.node {
        TermNode::Nothing => Ok(completes(alloc, 0, sure)),
        TermNode::Pause | TermNode::Async(_) => Ok(completes(alloc, 1, sure)),
        TermNode::Exit(k) => Ok(completes(alloc, u16::from(*k) + 2, sure)),
        TermNode::Emit(s, value) => emit(alloc, *s, value, sure, cells),
        TermNode::If(condition, p, q) => match judge(alloc, condition, cells)? {
            Verdict::Holds => start(alloc, program, p, sure, cells),
            Verdict::Fails => start(alloc, program, q, sure, cells),
            Verdict::Undecided => {
                let first = start(alloc, program, p, false, cells)?;
                let second = start(alloc, program, q, false, cells)?;
                one_of(first, second)
            }
        },
        TermNode::Suspend(_, p) => start(alloc, program, p, sure, cells),
        TermNode::Seq(p, q) => {
            let first = start(alloc, program, p, sure, cells)?;
            let second = start(alloc, program, q, is_end(&first), cells)?;
            in_sequence(first, second)
        }
        TermNode::Par(p, q) => {
            let first = start(alloc, program, p, sure, cells)?;
            let second = start(alloc, program, q, sure, cells)?;
            beside(first, second)
        }
        TermNode::Loop(p) => start(alloc, program, p, sure, cells),
        TermNode::Trap(p) => {
            let body = start(alloc, program, p, sure, cells)?;
            Ok(trapped(body))
        }
        TermNode::Local(s, p) => start_scope(alloc, program, *s, p, sure, cells),
    }
}

/// One round over the body of a local signal, which is started.
#[cycle(start)]
#[inline(never)]
fn start_round(
    alloc: Global,
    program: &Program,
    signal: u32,
    body: &Term,
    sure: bool,
    cells: &Cells,
    cell: SigCell,
) -> Result<SigCell, NoMemory>
    ensures { IfOk result (λ d. d ≡ round (table_of (kernel_of program.now)) signal
        (must_can (table_of (kernel_of program.now)) (statement_of body.now) Start (index_of sure))
        (environment_of cells.now)
        cell) }
{
    let inner = with(alloc, cells, signal, copy_signal(alloc, &cell)?)?;
    let done = start(alloc, program, body, sure, &inner)?;
    raised(alloc, program, signal, &cell, &done)
}

/// A local signal, whose body is started.
#[cycle(start)]
#[inline(never)]
fn start_scope(
    alloc: Global,
    program: &Program,
    signal: u32,
    body: &Term,
    sure: bool,
    cells: &Cells,
) -> Result<MustCan, NoMemory>
    ensures { IfOk result (λ a. must_can_of a ≡ scoped (table_of (kernel_of program.now)) signal
        (must_can (table_of (kernel_of program.now)) (statement_of body.now) Start (index_of sure))
        (environment_of cells.now)
        (unsolved_cell false ((table_of (kernel_of program.now)).first signal))) }
{
    let opened = unsolved(false, first_of(alloc, program, signal)?);
    let once = start_round(alloc, program, signal, body, sure, cells, opened)?;
    let twice = start_round(alloc, program, signal, body, sure, cells, once)?;
    let inner = with(alloc, cells, signal, twice)?;
    let done = start(alloc, program, body, sure, &inner)?;
    hide(alloc, signal, done)
}

/// What the statement must and can do where it is resumed from this mark, as of `start`.
#[cycle(resume)]
pub fn resume(
    alloc: Global,
    program: &Program,
    term: &Term,
    mark: &Mark,
    sure: bool,
    cells: &Cells,
) -> Result<MustCan, NoMemory>
    requires { cells.now.args.items ≡ [] }
    ensures { IfOk result
        (λ a. must_can_of a ≡ must_can (table_of (kernel_of program.now)) (statement_of term.now)
        (Resume (selection_of mark.now)) (index_of sure) (environment_of cells.now)) }
{
    match (&term.node, mark) {
        (TermNode::Emit(s, value), _) => emit(alloc, *s, value, sure, cells),
        (TermNode::Exit(k), _) => Ok(completes(alloc, u16::from(*k) + 2, sure)),
        (TermNode::Nothing | TermNode::Pause, _) => Ok(completes(alloc, 0, sure)),
        (TermNode::Async(n), Mark::Async(a)) => answer(alloc, program, *n, &a.queue, sure),
        (TermNode::If(_, p, _), Mark::First(m)) => resume(alloc, program, p, m, sure, cells),
        (TermNode::If(_, _, q), Mark::Second(m)) => resume(alloc, program, q, m, sure, cells),
        (TermNode::Suspend(condition, p), Mark::Inside(m)) => {
            match judge(alloc, condition, cells)? {
                Verdict::Holds => Ok(completes(alloc, 1, sure)),
                Verdict::Fails => resume(alloc, program, p, m, sure, cells),
                Verdict::Undecided => {
                    let body = resume(alloc, program, p, m, false, cells)?;
                    one_of(body, completes(alloc, 1, false))
                }
            }
        }
        (TermNode::Seq(p, q), Mark::First(m)) => {
            let first = resume(alloc, program, p, m, sure, cells)?;
            let second = start(alloc, program, q, is_end(&first), cells)?;
            in_sequence(first, second)
        }
        (TermNode::Seq(_, q), Mark::Second(m)) => resume(alloc, program, q, m, sure, cells),
        (TermNode::Par(p, _), Mark::First(m)) => {
            let first = resume(alloc, program, p, m, sure, cells)?;
            beside(first, completes(alloc, 0, sure))
        }
        (TermNode::Par(_, q), Mark::Second(m)) => {
            let second = resume(alloc, program, q, m, sure, cells)?;
            beside(completes(alloc, 0, sure), second)
        }
        (TermNode::Par(p, q), Mark::Both(m, n)) => {
            let first = resume(alloc, program, p, m, sure, cells)?;
            let second = resume(alloc, program, q, n, sure, cells)?;
            beside(first, second)
        }
        (TermNode::Loop(p), Mark::Inside(m)) => {
            let first = resume(alloc, program, p, m, sure, cells)?;
            let second = start(alloc, program, p, is_end(&first), cells)?;
            in_sequence(first, second)
        }
        (TermNode::Trap(p), Mark::Inside(m)) => {
            let body = resume(alloc, program, p, m, sure, cells)?;
            Ok(trapped(body))
        }
        (TermNode::Local(s, p), Mark::Local(m, pre, before)) => {
            let opened = unsolved(*pre, before.copy(alloc)?);
            resume_scope(alloc, program, *s, p, m, sure, cells, opened)
        }
        _ => Ok(completes(alloc, 0, sure)),
    }
}

/// One round over the body of a local signal, which is resumed.
#[cycle(resume)]
#[inline(never)]
fn resume_round(
    alloc: Global,
    program: &Program,
    signal: u32,
    body: &Term,
    mark: &Mark,
    sure: bool,
    cells: &Cells,
    cell: SigCell,
) -> Result<SigCell, NoMemory>
    ensures { IfOk result (λ d. d ≡ round (table_of (kernel_of program.now)) signal
        (must_can (table_of (kernel_of program.now)) (statement_of body.now)
        (Resume (selection_of mark.now)) (index_of sure))
        (environment_of cells.now) cell) }
{
    let inner = with(alloc, cells, signal, copy_signal(alloc, &cell)?)?;
    let done = resume(alloc, program, body, mark, sure, &inner)?;
    raised(alloc, program, signal, &cell, &done)
}

/// A local signal with this cell before any round, whose body is resumed.
#[cycle(resume)]
#[inline(never)]
fn resume_scope(
    alloc: Global,
    program: &Program,
    signal: u32,
    body: &Term,
    mark: &Mark,
    sure: bool,
    cells: &Cells,
    opened: SigCell,
) -> Result<MustCan, NoMemory>
    ensures { IfOk result (λ a. must_can_of a ≡ scoped (table_of (kernel_of program.now)) signal
        (must_can (table_of (kernel_of program.now)) (statement_of body.now)
        (Resume (selection_of mark.now)) (index_of sure))
        (environment_of cells.now) opened) }
{
    let once = resume_round(alloc, program, signal, body, mark, sure, cells, opened)?;
    let twice = resume_round(alloc, program, signal, body, mark, sure, cells, once)?;
    let inner = with(alloc, cells, signal, twice)?;
    let done = resume(alloc, program, body, mark, sure, &inner)?;
    hide(alloc, signal, done)
}
