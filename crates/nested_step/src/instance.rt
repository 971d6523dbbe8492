//! Async statements.

ghost use Rattle.std.specs.Prelude.{◌≡◌, ◌∷◌, [], false, map, slice_get, Some, zip, IfOk};
ghost use Rattle.host_expr.specs.Combination.{counts_as};
ghost use Rattle.host_expr.specs.Environment.{environment_of, is_known};
ghost use Rattle.host_expr.specs.Evaluation.{eval_of};
ghost use Rattle.host_expr.specs.Expression.{expression_of};
ghost use Rattle.hh_term.specs.MustCan.{all_known, answer_bag, table_of, Table as ATable};
ghost use Rattle.hh_term.specs.ProgramView.{kernel_of};
ghost use Rattle.hh_term.specs.Selection.{AtAsync};
ghost use Rattle.hh_term.specs.Step.{add_faults, answer_step, argument_value, async_step, resume_async, rests};
ghost use Rattle.hh_term.specs.Step.{start_async};
ghost use Rattle.nested_step.specs.View.{step_of, stepped_of, touch_of};

use crate::declared::params_of;
use crate::stepped::{Stepped, completes, rests, with_fault};
use crate::touches::Touch;
use hh_base::item::{Item, Queue};
use hh_base::value::{Kind, NoMemory, Value, Values, copy_values, default_of};
use hh_term::mark::{AsyncMark, Mark};
use hh_term::program::Program;
use host_expr::cell::{Cell, Cells};
use host_expr::eval::eval;
use host_expr::expr::Expr;
use nested_reaction::bag::Bag;
use nested_reaction::declared::target_of;
use sqlite_items::Items;
use std::alloc::Global;

fn evaluated(alloc: Global, expressions: &[Expr<u32>], cells: &Cells) -> Result<Vec<Cell>, NoMemory>
    requires { cells.now.args.items ≡ [] }
    ensures { IfOk result (λ v. v.items ≡ map (λ e. eval_of e (environment_of cells.now) [])
        (map expression_of expressions.now)) }
{
    match expressions {
        [] => Ok(Vec::new(alloc)),
        [first, rest @ ..] => {
            let mut others = evaluated(alloc, rest, cells)?;
            others.insert(0, eval(alloc, first, cells)?)?;
            Ok(others)
        }
    }
}

/// What the arguments of an async site evaluate to.
fn arguments(
    alloc: Global,
    program: &Program,
    site: u32,
    cells: &Cells,
) -> Result<Vec<Cell>, NoMemory>
    requires { cells.now.args.items ≡ [] }
    ensures { IfOk result (λ v. v.items ≡ map (λ e. eval_of e (environment_of cells.now) [])
        ((table_of (kernel_of program.now)).args site)) }
{
    match program.sites().get(site as usize) {
        Some(declared) => evaluated(alloc, declared.args.as_slice(), cells),
        None => Ok(Vec::new(alloc)),
    }
}

fn is_known(cell: &Cell) -> bool
    ensures { result ≡ is_known cell.now }
{
    !matches!(cell, Cell::Unknown)
}

fn all_known(cells: &[Cell]) -> bool
    ensures { result ≡ all_known cells.now }
{
    match cells {
        [] => true,
        [first, rest @ ..] => is_known(first) && all_known(rest),
    }
}

/// The step, with the faults of the cells before the others.
fn add_faults(cells: &[Cell], a: Stepped) -> Result<Stepped, NoMemory>
    ensures { IfOk result (λ b. stepped_of b ≡ add_faults cells.now (stepped_of a)) }
{
    match cells {
        [] => Ok(a),
        [first, rest @ ..] => with_fault(add_faults(rest, a)?, first),
    }
}

fn counted(alloc: Global, kind: Kind, cell: &Cell) -> Result<Value, NoMemory>
    ensures { IfOk result (λ v. v ≡ counts_as kind cell.now) }
{
    match cell {
        Cell::Known(value) => value.copy(alloc),
        Cell::Unknown | Cell::Faulted(_, _) => Ok(default_of(alloc, kind)),
    }
}

/// The values of the arguments. One that faults counts as the default of its kind.
fn argument_values(alloc: Global, params: &[Kind], cells: &[Cell]) -> Result<Vec<Value>, NoMemory>
    ensures { IfOk result (λ v. v.items ≡ map argument_value (zip params.now cells.now)) }
{
    match params {
        [] => Ok(Vec::new(alloc)),
        [kind, kinds @ ..] => match cells {
            [] => Ok(Vec::new(alloc)),
            [cell, rest @ ..] => {
                let mut others = argument_values(alloc, kinds, rest)?;
                others.insert(0, counted(alloc, *kind, cell)?)?;
                Ok(others)
            }
        },
    }
}

/// Control rests in this instance.
fn rests_in(
    alloc: Global,
    id: u64,
    args: Values,
    queue: Queue,
    touch: Touch,
) -> Result<Stepped, NoMemory>
    ensures { IfOk result (λ a. stepped_of a ≡ rests (AtAsync id args queue false) (touch_of touch ∷ [])) }
{
    let mut touches = Vec::new(alloc);
    touches.push(touch)?;
    let mark = Mark::Async(AsyncMark {
        id,
        args,
        queue,
        suspended: false,
    });
    Ok(rests(alloc, mark, touches))
}

/// A new instance with these arguments.
fn start_instance(alloc: Global, site: u32, args: Values) -> Result<Stepped, NoMemory>
    ensures { IfOk result (λ a. stepped_of a ≡ start_async site args) }
{
    let touch = Touch {
        site,
        id: 0,
        started: Some(copy_values(alloc, args.as_slice())?),
        used: false,
        ended: false,
        held: false,
        resumed: false,
        runs_after: true,
    };
    rests_in(alloc, 0, args, Queue::new(alloc), touch)
}

/// An async statement that is started: undefined where an argument is unknown.
pub fn start_async(
    alloc: Global,
    program: &Program,
    site: u32,
    cells: &Cells,
) -> Result<Option<Stepped>, NoMemory>
    requires { cells.now.args.items ≡ [] }
    ensures { IfOk result (λ a. step_of a ≡ async_step (table_of (kernel_of program.now)) site
        (map (λ e. eval_of e (environment_of cells.now) []) ((table_of (kernel_of program.now)).args site))) }
{
    let cells = arguments(alloc, program, site, cells)?;
    if !all_known(&cells) {
        return Ok(None);
    }
    let args = argument_values(alloc, params_of(program, site), &cells)?;
    let started = start_instance(alloc, site, Items::from_vec(args))?;
    Ok(Some(add_faults(&cells, started)?))
}

/// The emission of an answer.
fn answer_bag(alloc: Global, target: Option<u32>, value: &Value) -> Result<Bag, NoMemory>
    ensures { IfOk result (λ b. b.items ≡ answer_bag target value.now) }
{
    let mut bag = Vec::new(alloc);
    if let Some(signal) = target {
        bag.push((signal, Cell::Known(value.copy(alloc)?)))?;
    }
    Ok(bag)
}

/// An instance that uses an answer, which may be its last; the rest waits.
fn use_answer(
    alloc: Global,
    site: u32,
    instance: &AsyncMark,
    last: bool,
    rest: Queue,
) -> Result<Stepped, NoMemory>
    ensures { IfOk result (λ a. (T : ATable) → stepped_of a ≡ answer_step T site instance.now.id instance.now.args last rest) }
{
    let touch = Touch {
        site,
        id: instance.id,
        started: None,
        used: !last,
        ended: last,
        held: false,
        resumed: true,
        runs_after: !last,
    };
    if last {
        let mut a = completes(alloc, 0);
        a.touches.push(touch)?;
        return Ok(a);
    }
    let args = copy_values(alloc, instance.args.as_slice())?;
    rests_in(alloc, instance.id, args, rest, touch)
}

/// An instance for which no answer waits.
fn run_on(alloc: Global, site: u32, instance: &AsyncMark) -> Result<Stepped, NoMemory>
    ensures { IfOk result (λ a. (T : ATable) → stepped_of a
        ≡ resume_async T site instance.now.id instance.now.args []) }
{
    let touch = Touch {
        site,
        id: instance.id,
        started: None,
        used: false,
        ended: false,
        held: false,
        resumed: true,
        runs_after: true,
    };
    let args = copy_values(alloc, instance.args.as_slice())?;
    rests_in(alloc, instance.id, args, Queue::new(alloc), touch)
}

/// An instance for which this answer waits before the rest.
fn run_with(
    alloc: Global,
    program: &Program,
    site: u32,
    instance: &AsyncMark,
    answer: &Item,
    rest: Queue,
) -> Result<Stepped, NoMemory>
    ensures { IfOk result (λ a. stepped_of a ≡ resume_async (table_of (kernel_of program.now)) site instance.now.id
        instance.now.args (answer.now ∷ rest)) }
{
    let mut a = use_answer(alloc, site, instance, answer.last, rest)?;
    a.bag = answer_bag(alloc, target_of(program, site), &answer.value)?;
    Ok(a)
}

/// An instance that is resumed uses the first answer that waits for it.
pub fn resume_async(
    alloc: Global,
    program: &Program,
    site: u32,
    instance: &AsyncMark,
) -> Result<Stepped, NoMemory>
    ensures { IfOk result (λ a. stepped_of a ≡ resume_async (table_of (kernel_of program.now)) site instance.now.id
        instance.now.args instance.now.queue) }
{
    let mut rest = instance.queue.copy(alloc)?;
    match rest.pop() {
        Some(answer) => {
            let a = run_with(alloc, program, site, instance, &answer, rest)?;
            Ok(a)
        }
        None => {
            let a = run_on(alloc, site, instance)?;
            Ok(a)
        }
    }
}
