//! Async statements in the last walk.

ghost use Rattle.std.specs.Prelude.{◌≡◌, ◌∷◌, ◌++◌, [], false, Some, map, zip, slice_get, IfOk, OnOk};
ghost use Rattle.host_expr.specs.Combination.{counts_as};
ghost use Rattle.host_expr.specs.Environment.{env_of, is_known};
ghost use Rattle.host_expr.specs.Evaluation.{eval_of};
ghost use Rattle.host_expr.specs.Expression.{expression_of};
ghost use Rattle.hh_term.specs.MustCan.{all_known, answer_bag, table_of, Table as ATable};
ghost use Rattle.hh_term.specs.ProgramView.{kernel_of};
ghost use Rattle.hh_term.specs.Selection.{AtAsync};
ghost use Rattle.hh_term.specs.Step.{argument_value, async_step as step_of_async};
ghost use Rattle.hh_term.specs.Step.{resume_async as resumed_async};
ghost use Rattle.hh_term.specs.Touches.{held_mark, held_touches};
ghost use Rattle.hh_term.specs.Views.{selection_of, statement_of};
ghost use Rattle.last_walk.specs.LastWalk.{faults_in, rest_of, selection_at, touch_of, Did, Done, Noted};

use crate::completion::{Completion, completes, rests};
use crate::last_pass::LastPass;
use crate::touch::Touch;
use hh_base::item::{Item, Queue};
use hh_base::value::{Kind, NoMemory, Value, Values, copy_values, default_of};
use hh_term::mark::{AsyncMark, Mark};
use hh_term::program::Program;
use hh_term::term::{Term, TermNode};
use host_expr::cell::{Cell, Cells};
use host_expr::eval::eval;
use host_expr::expr::Expr;
use sqlite_items::Items;
use status_table::declared::target_of;
use std::alloc::Global;

/// Control rests in this instance.
fn rests_in(id: u64, args: Values, queue: Queue) -> Completion
    ensures code { result.code ≡ 1 }
    ensures next { selection_at result.next ≡ Some (AtAsync id args queue false) }
{
    rests(Mark::Async(AsyncMark {
        id,
        args,
        queue,
        suspended: false,
    }))
}

fn evaluated(alloc: Global, expressions: &[Expr<u32>], cells: &Cells) -> Result<Vec<Cell>, NoMemory>
    requires { cells.now.args.items ≡ [] }
    ensures { IfOk result
        (λ v. v.items ≡ map (λ e. eval_of (expression_of e) (env_of cells.now.signals.items) [])
        expressions.now) }
{
    let mut values = Vec::with_capacity(alloc, expressions.len())?;
    for expression in expressions {
        values.push(eval(alloc, expression, cells)?)?;
    }
    Ok(values)
}

/// What the arguments of an async site evaluate to.
fn arguments(
    alloc: Global,
    program: &Program,
    site: u32,
    cells: &Cells,
) -> Result<Vec<Cell>, NoMemory>
    requires { cells.now.args.items ≡ [] }
    ensures { IfOk result (λ v. v.items ≡ map (λ e. eval_of e (env_of cells.now.signals.items) [])
        ((table_of (kernel_of program.now)).args site)) }
{
    match program.sites().get(site as usize) {
        Some(declared) => {
            let cells = evaluated(alloc, declared.args.as_slice(), cells)?;
            Ok(cells)
        }
        None => Ok(Vec::new(alloc)),
    }
}

fn params_of(program: &Program, site: u32) -> &[Kind]
    ensures { result.now ≡ (table_of (kernel_of program.now)).params site }
{
    match program.sites().get(site as usize) {
        Some(declared) => match program.bodies().get(declared.body as usize) {
            Some(body) => body.params.as_slice(),
            None => &[],
        },
        None => &[],
    }
}

fn is_known(cell: &Cell) -> bool
    ensures { result ≡ is_known cell.now }
{
    !matches!(cell, Cell::Unknown)
}

fn are_known(cells: &[Cell]) -> bool
    ensures { result ≡ all_known cells.now }
{
    match cells {
        [] => true,
        [cell, rest @ ..] => is_known(cell) && are_known(rest),
    }
}

fn note_faults(cells: &[Cell], pass: &mut LastPass)
    ensures { (T : ATable) → Noted T [] [] (faults_in cells.now) [] pass.old pass.new }
{
    for cell in cells {
        pass.note_fault(cell);
    }
}

fn counted(alloc: Global, kind: Kind, cell: &Cell) -> Result<Value, NoMemory>
    ensures { IfOk result (λ v. v ≡ counts_as kind cell.now) }
{
    match cell {
        Cell::Known(value) => Ok(value.copy(alloc)?),
        Cell::Unknown | Cell::Faulted(_, _) => Ok(default_of(alloc, kind)),
    }
}

fn argument_values(alloc: Global, params: &[Kind], cells: &[Cell]) -> Result<Values, NoMemory>
    ensures { IfOk result (λ v. v ≡ map argument_value (zip params.now cells.now)) }
{
    let mut values = Vec::with_capacity(alloc, params.len())?;
    for (kind, cell) in params.iter().zip(cells.iter()) {
        values.push(counted(alloc, *kind, cell)?)?;
    }
    Ok(Items::from_vec(values))
}

/// Starts an async statement. Its instance gets its id where the reaction ends.
#[inline(never)]
pub fn start_async(
    alloc: Global,
    program: &Program,
    site: u32,
    pass: &mut LastPass,
) -> Result<Option<Completion>, NoMemory>
    requires { pass.old.cells.args.items ≡ [] }
    ensures { IfOk result
        (λ r. Did (table_of (kernel_of program.now)) (step_of_async (table_of (kernel_of program.now))
        site (map (λ e. eval_of e (env_of pass.old.cells.signals.items) [])
        ((table_of (kernel_of program.now)).args site))) r pass.old pass.new) }
{
    let cells = arguments(alloc, program, site, &pass.cells)?;
    if !are_known(&cells) {
        return Ok(None);
    }
    note_faults(&cells, pass);
    let args = argument_values(alloc, params_of(program, site), &cells)?;
    let started = Some(copy_values(alloc, args.as_slice())?);
    pass.touches.push(Touch {
        started,
        runs_after: true,
        ..Touch::of(site, 0)
    })?;
    Ok(Some(rests_in(0, args, Queue::new(alloc))))
}

/// The emission that carries an answer.
fn emit_answer(
    alloc: Global,
    program: &Program,
    site: u32,
    answer: &Item,
    pass: &mut LastPass,
) -> Result<(), NoMemory>
    ensures { OnOk result (Noted (table_of (kernel_of program.now))
        (answer_bag ((table_of (kernel_of program.now)).target site) answer.now.value)
        [] [] [] pass.old pass.new) }
{
    if let Some(signal) = target_of(program, site) {
        let cell = Cell::Known(answer.value.copy(alloc)?);
        pass.emit(signal, &cell)?;
    }
    Ok(())
}

/// The answers behind the first.
fn behind_first(alloc: Global, queue: &Queue) -> Result<Queue, NoMemory>
    ensures { IfOk result (λ q. q ≡ rest_of queue.now) }
{
    let mut rest = queue.copy(alloc)?;
    rest.pop();
    Ok(rest)
}

/// An instance with this answer uses it, and ends with it where it is its last.
fn use_answer(
    alloc: Global,
    program: &Program,
    site: u32,
    instance: &AsyncMark,
    answer: &Item,
    pass: &mut LastPass,
) -> Result<Completion, NoMemory>
    requires { slice_get instance.now.queue 0 ≡ Some answer.now }
    ensures { IfOk result
        (λ r. Done (table_of (kernel_of program.now)) (resumed_async (table_of (kernel_of program.now))
        site instance.now.id instance.now.args instance.now.queue) r pass.old pass.new) }
{
    emit_answer(alloc, program, site, answer, pass)?;
    if answer.last {
        pass.touches.push(Touch {
            ended: true,
            resumed: true,
            ..Touch::of(site, instance.id)
        })?;
        return Ok(completes(0));
    }
    pass.touches.push(Touch {
        used: true,
        resumed: true,
        runs_after: true,
        ..Touch::of(site, instance.id)
    })?;
    let args = copy_values(alloc, instance.args.as_slice())?;
    let queue = behind_first(alloc, &instance.queue)?;
    Ok(rests_in(instance.id, args, queue))
}

/// Resumes an instance, which uses the first answer that waits for it.
#[inline(never)]
pub fn resume_async(
    alloc: Global,
    program: &Program,
    site: u32,
    instance: &AsyncMark,
    pass: &mut LastPass,
) -> Result<Completion, NoMemory>
    ensures { IfOk result
        (λ r. Done (table_of (kernel_of program.now)) (resumed_async (table_of (kernel_of program.now))
        site instance.now.id instance.now.args instance.now.queue) r pass.old pass.new) }
{
    if let Some(answer) = instance.queue.get(0) {
        let end = use_answer(alloc, program, site, instance, answer, pass)?;
        return Ok(end);
    }
    pass.touches.push(Touch {
        resumed: true,
        runs_after: true,
        ..Touch::of(site, instance.id)
    })?;
    let args = copy_values(alloc, instance.args.as_slice())?;
    Ok(rests_in(instance.id, args, Queue::new(alloc)))
}

/// The mark, each instance in it held.
pub fn held(alloc: Global, mark: &Mark) -> Result<Mark, NoMemory>
    ensures { IfOk result (λ m. selection_of m ≡ held_mark (selection_of mark.now)) }
{
    Ok(match mark {
        Mark::Pause => Mark::Pause,
        Mark::Async(a) => {
            let instance = a.copy(alloc)?;
            Mark::Async(AsyncMark {
                suspended: true,
                ..instance
            })
        }
        Mark::First(m) => Mark::First(Box::new(alloc, held(alloc, m)?)?),
        Mark::Second(m) => Mark::Second(Box::new(alloc, held(alloc, m)?)?),
        Mark::Both(m, n) => {
            let first = Box::new(alloc, held(alloc, m)?)?;
            Mark::Both(first, Box::new(alloc, held(alloc, n)?)?)
        }
        Mark::Inside(m) => Mark::Inside(Box::new(alloc, held(alloc, m)?)?),
        Mark::Local(m, status, value) => {
            let body = Box::new(alloc, held(alloc, m)?)?;
            Mark::Local(body, *status, value.copy(alloc)?)
        }
    })
}

/// Notes that each instance in the mark is held.
pub fn note_held(term: &Term, mark: &Mark, touches: &mut Vec<Touch>) -> Result<(), NoMemory>
    ensures { OnOk result (map touch_of touches.new.items ≡ map touch_of touches.old.items ++ held_touches
        (statement_of term.now) (selection_of mark.now)) }
{
    match (&term.node, mark) {
        (TermNode::If(_, p, _) | TermNode::Seq(p, _) | TermNode::Par(p, _), Mark::First(m))
        | (TermNode::If(_, _, p) | TermNode::Seq(_, p) | TermNode::Par(_, p), Mark::Second(m))
        | (TermNode::Suspend(_, p) | TermNode::Loop(p) | TermNode::Trap(p), Mark::Inside(m))
        | (TermNode::Local(_, p), Mark::Local(m, _, _)) => note_held(p, m, touches),
        (TermNode::Par(p, q), Mark::Both(m, n)) => {
            note_held(p, m, touches)?;
            note_held(q, n, touches)
        }
        (TermNode::Async(site), Mark::Async(instance)) => {
            touches.push(Touch {
                held: true,
                runs_after: true,
                ..Touch::of(*site, instance.id)
            })?;
            Ok(())
        }
        _ => Ok(()),
    }
}
