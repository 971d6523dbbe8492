//! One round: a walk over the statement.

ghost use Rattle.std.specs.Prelude.{◌≡◌, ◌<◌, ◌≤◌, ◌∷◌, ℕ, [], false, length, IfOk, OnOk, Some, None};
ghost use Rattle.host_expr.specs.Evaluation.{eval_of};
ghost use Rattle.host_expr.specs.Environment.{env_of, environment_of};
ghost use Rattle.host_expr.specs.Expression.{expression_of, optional_expression};
ghost use Rattle.hh_term.specs.Codes.{only};
ghost use Rattle.hh_term.specs.Flags.{Agrees};
ghost use Rattle.hh_term.specs.MustCan.{table_of, emitted, greater as greater_code, lower, lower_code};
ghost use Rattle.hh_term.specs.MustCan.{go_on as go_on_code, is_end, answer_bag, gives as gives_all};
ghost use Rattle.hh_term.specs.Selection.{Start, Resume};
ghost use Rattle.hh_term.specs.Statement.{Emit as EmitStatement};
ghost use Rattle.hh_term.specs.ProgramView.{kernel_of};
ghost use Rattle.hh_term.specs.Views.{statement_of, selection_of};
ghost use Rattle.status_table.specs.TableView.{cells_in};
ghost use Rattle.status_table.specs.Walking.{Counted, Fits, Tallied, Visited, code_of, first_bag, first_code};
ghost use Rattle.status_table.specs.Walking.{index_of, tested};

use crate::declared::{kind_of, target_of};
use crate::state::{Outer, Pass, Statuses, add_executed, add_possible};
use hh_base::item::Queue;
use hh_base::value::{NoMemory, Value};
use hh_term::codes::{Flags, follow, join, lower, put_only, take_greater};
use hh_term::mark::Mark;
use hh_term::program::Program;
use hh_term::term::{Term, TermNode};
use host_expr::cell::{Cell, Cells};
use host_expr::eval::eval;
use host_expr::expr::Expr;
use std::alloc::Global;

/// What a test gives. A fault counts as not holding.
#[derive(Clone, Copy, PartialEq, Eq, Debug)]
pub enum Verdict {
    Undecided,
    Holds,
    Fails,
}

/// Where a walk is: how many loops are round the statement, the level of the locals in it, and whether it is
/// known to be executed.
#[derive(Clone, Copy, PartialEq, Eq, Debug)]
pub struct Place {
    pub depth: usize,
    pub level: usize,
    pub sure: bool,
}

fn holds(alloc: Global, condition: &Expr<u32>, cells: &Cells) -> Result<Verdict, NoMemory>
    ensures { IfOk result (λ t. t ≡ tested
        (eval_of (expression_of condition.now) (environment_of cells.now) cells.now.args.items)) }
{
    Ok(match eval(alloc, condition, cells)? {
        Cell::Unknown => Verdict::Undecided,
        Cell::Known(Value::Bool(true)) => Verdict::Holds,
        Cell::Known(_) | Cell::Faulted(_, _) => Verdict::Fails,
    })
}

/// The code of a statement that completes with it, known where it is known to be executed.
fn gives(code: u16, sure: bool, codes: &mut Flags) -> Option<u16>
    requires { code < 258 }
    ensures code { result ≡ code_of code sure }
    ensures codes { Agrees codes.new (only code) }
{
    put_only(codes, code as usize);
    if sure { Some(code) } else { None }
}

fn greater(a: Option<u16>, b: Option<u16>) -> Option<u16>
    ensures { result ≡ greater_code a b }
{
    match (a, b) {
        (Some(a), Some(b)) => Some(a.max(b)),
        _ => None,
    }
}

fn lowered(code: Option<u16>) -> Option<u16>
    ensures { result ≡ lower_code code }
{
    match code {
        Some(0 | 2) => Some(0),
        Some(1) => Some(1),
        Some(code) => Some(code - 1),
        None => None,
    }
}

fn is_end(code: Option<u16>) -> bool
    ensures { index_of result ≡ is_end code }
{
    code == Some(0)
}

fn go_on(first: Option<u16>, second: Option<u16>) -> Option<u16>
    ensures { result ≡ go_on_code first second }
{
    match first {
        Some(0) => second,
        code => code,
    }
}

/// What an emission is with: the value of its expression, or the one of pure signals.
pub fn emission(alloc: Global, value: &Option<Expr<u32>>, cells: &Cells) -> Result<Cell, NoMemory>
    requires { cells.now.args.items ≡ [] }
    ensures { IfOk result (λ c. c ≡ emitted (optional_expression value.now) (env_of cells.now.signals.items)) }
{
    match value {
        Some(value) => eval(alloc, value, cells),
        None => Ok(Cell::Known(Value::Unit)),
    }
}

/// An emission, evaluated only where it must be.
fn emit(
    alloc: Global,
    program: &Program,
    signal: u32,
    value: &Option<Expr<u32>>,
    sure: bool,
    pass: &mut Pass,
) -> Result<(), NoMemory>
    requires { pass.old.cells.args.items ≡ [] }
    ensures { OnOk result (Counted (table_of (kernel_of program.now))
        (gives_all ((signal, emitted (optional_expression value.now) (env_of pass.old.cells.signals.items)) ∷
        []) 0 (index_of sure)) pass.old pass.new) }
{
    if sure {
        let cell = emission(alloc, value, &pass.cells)?;
        add_executed(alloc, program, signal, cell, &mut pass.tallies)?;
        return Ok(());
    }
    add_possible(program, signal, &mut pass.tallies)?;
    Ok(())
}

/// The first answer of an instance's queue is used.
fn answer(
    alloc: Global,
    program: &Program,
    site: u32,
    queue: &Queue,
    sure: bool,
    pass: &mut Pass,
) -> Result<(), NoMemory>
    ensures { OnOk result ((k : ℕ) → Counted (table_of (kernel_of program.now))
        (gives_all (first_bag ((table_of (kernel_of program.now)).target site) queue.now) k (index_of sure))
        pass.old pass.new) }
{
    match (queue.get(0), target_of(program, site)) {
        (Some(first), Some(signal)) => {
            if sure {
                let cell = Cell::Known(first.value.copy(alloc)?);
                add_executed(alloc, program, signal, cell, &mut pass.tallies)?;
                return Ok(());
            }
            add_possible(program, signal, &mut pass.tallies)?;
            Ok(())
        }
        _ => Ok(()),
    }
}

fn first_code(queue: &Queue) -> u16
    ensures { result ≡ first_code queue.now }
{
    match queue.get(0) {
        Some(first) if first.last => 0,
        _ => 1,
    }
}

/// Starts the statement: counts the emissions and notes the raises. `codes` gets the codes with which it can
/// complete, and the answer is that with which it must, if there is one.
pub fn start(
    alloc: Global,
    program: &Program,
    table: &Statuses,
    term: &Term,
    at: Place,
    pass: &mut Pass,
    codes: &mut Flags,
) -> Result<Option<u16>, NoMemory>
    requires fits { Fits (length pass.old.cells.signals.items) (length table.now.rows.items) at.depth
        (statement_of term.now) }
    requires tallies { length pass.old.tallies.items ≡ length pass.old.cells.signals.items }
    requires args { pass.old.cells.args.items ≡ [] }
    requires declared { length pass.old.cells.signals.items ≤ length (kernel_of program.now).signals }
    requires depth { at.depth < length table.now.rows.items }
    ensures { IfOk result (λ c. Visited (table_of (kernel_of program.now)) (cells_in table.now)
        (statement_of term.now) at.depth at.level Start at.sure c codes.new pass.old pass.new) }
{
    match &term.node {
        TermNode::Nothing => Ok(gives(0, at.sure, codes)),
        TermNode::Pause | TermNode::Async(_) => Ok(gives(1, at.sure, codes)),
        TermNode::Exit(k) => Ok(gives(u16::from(*k) + 2, at.sure, codes)),
        TermNode::Emit(s, value) => {
            emit(alloc, program, *s, value, at.sure, pass)?;
            Ok(gives(0, at.sure, codes))
        }
        TermNode::If(condition, p, q) => match holds(alloc, condition, &pass.cells)? {
            Verdict::Holds => {
                let end = start(alloc, program, table, p, at, pass, codes)?;
                Ok(end)
            }
            Verdict::Fails => {
                let end = start(alloc, program, table, q, at, pass, codes)?;
                Ok(end)
            }
            Verdict::Undecided => {
                let mut others = [false; 258];
                let maybe = Place { sure: false, ..at };
                start(alloc, program, table, p, maybe, pass, codes)?;
                start(alloc, program, table, q, maybe, pass, &mut others)?;
                join(codes, &others);
                Ok(None)
            }
        },
        TermNode::Suspend(_, p) => {
            let end = start(alloc, program, table, p, at, pass, codes)?;
            Ok(end)
        }
        TermNode::Seq(p, q) => {
            let first = start(alloc, program, table, p, at, pass, codes)?;
            if !codes[0] {
                return Ok(first);
            }
            let mut others = [false; 258];
            let sure = is_end(first);
            let behind = Place { sure, ..at };
            let second = start(alloc, program, table, q, behind, pass, &mut others)?;
            follow(codes, &others);
            Ok(go_on(first, second))
        }
        TermNode::Par(p, q) => {
            let mut others = [false; 258];
            let first = start(alloc, program, table, p, at, pass, codes)?;
            let second = start(alloc, program, table, q, at, pass, &mut others)?;
            take_greater(codes, &others);
            Ok(greater(first, second))
        }
        TermNode::Loop(p) => {
            let depth = at.depth + 1;
            let inner = Place { depth, ..at };
            let end = start(alloc, program, table, p, inner, pass, codes)?;
            Ok(end)
        }
        TermNode::Trap(p) => {
            let code = start(alloc, program, table, p, at, pass, codes)?;
            lower(codes);
            Ok(lowered(code))
        }
        TermNode::Local(s, p) => {
            let first = &program.signals()[*s as usize].first;
            let outer = table.enter(alloc, *s, at.level, false, first, pass)?;
            let code = start(alloc, program, table, p, at, pass, codes)?;
            pass.leave(alloc, kind_of(program, *s), *s, at.level, outer)?;
            Ok(code)
        }
    }
}

/// Resumes the statement where control rests in it, as `start` starts it.
pub fn resume(
    alloc: Global,
    program: &Program,
    table: &Statuses,
    term: &Term,
    mark: &Mark,
    at: Place,
    pass: &mut Pass,
    codes: &mut Flags,
) -> Result<Option<u16>, NoMemory>
    requires fits { Fits (length pass.old.cells.signals.items) (length table.now.rows.items) at.depth
        (statement_of term.now) }
    requires tallies { length pass.old.tallies.items ≡ length pass.old.cells.signals.items }
    requires args { pass.old.cells.args.items ≡ [] }
    requires declared { length pass.old.cells.signals.items ≤ length (kernel_of program.now).signals }
    requires depth { at.depth < length table.now.rows.items }
    ensures { IfOk result (λ c. Visited (table_of (kernel_of program.now)) (cells_in table.now)
        (statement_of term.now) at.depth at.level (Resume (selection_of mark.now)) at.sure c codes.new
        pass.old pass.new) }
{
    match (&term.node, mark) {
        (TermNode::Emit(s, value), _) => {
            emit(alloc, program, *s, value, at.sure, pass)?;
            Ok(gives(0, at.sure, codes))
        }
        (TermNode::Exit(k), _) => Ok(gives(u16::from(*k) + 2, at.sure, codes)),
        (TermNode::Nothing | TermNode::Pause, _) => Ok(gives(0, at.sure, codes)),
        (TermNode::Async(n), Mark::Async(a)) => {
            answer(alloc, program, *n, &a.queue, at.sure, pass)?;
            Ok(gives(first_code(&a.queue), at.sure, codes))
        }
        (TermNode::If(_, p, _), Mark::First(m)) => {
            let end = resume(alloc, program, table, p, m, at, pass, codes)?;
            Ok(end)
        }
        (TermNode::If(_, _, q), Mark::Second(m)) => {
            let end = resume(alloc, program, table, q, m, at, pass, codes)?;
            Ok(end)
        }
        (TermNode::Suspend(condition, p), Mark::Inside(m)) => {
            match holds(alloc, condition, &pass.cells)? {
                Verdict::Holds => Ok(gives(1, at.sure, codes)),
                Verdict::Fails => {
                    let end = resume(alloc, program, table, p, m, at, pass, codes)?;
                    Ok(end)
                }
                Verdict::Undecided => {
                    let mut others = [false; 258];
                    let maybe = Place { sure: false, ..at };
                    resume(alloc, program, table, p, m, maybe, pass, codes)?;
                    gives(1, false, &mut others);
                    join(codes, &others);
                    Ok(None)
                }
            }
        }
        (TermNode::Seq(p, q), Mark::First(m)) => {
            let first = resume(alloc, program, table, p, m, at, pass, codes)?;
            if !codes[0] {
                return Ok(first);
            }
            let mut others = [false; 258];
            let sure = is_end(first);
            let behind = Place { sure, ..at };
            let second = start(alloc, program, table, q, behind, pass, &mut others)?;
            follow(codes, &others);
            Ok(go_on(first, second))
        }
        (TermNode::Seq(_, q), Mark::Second(m)) => {
            let end = resume(alloc, program, table, q, m, at, pass, codes)?;
            Ok(end)
        }
        (TermNode::Par(p, _), Mark::First(m)) => {
            let mut others = [false; 258];
            let first = resume(alloc, program, table, p, m, at, pass, codes)?;
            let second = gives(0, at.sure, &mut others);
            take_greater(codes, &others);
            Ok(greater(first, second))
        }
        (TermNode::Par(_, q), Mark::Second(m)) => {
            let mut others = [false; 258];
            let first = gives(0, at.sure, codes);
            let second = resume(alloc, program, table, q, m, at, pass, &mut others)?;
            take_greater(codes, &others);
            Ok(greater(first, second))
        }
        (TermNode::Par(p, q), Mark::Both(m, n)) => {
            let mut others = [false; 258];
            let first = resume(alloc, program, table, p, m, at, pass, codes)?;
            let second = resume(alloc, program, table, q, n, at, pass, &mut others)?;
            take_greater(codes, &others);
            Ok(greater(first, second))
        }
        (TermNode::Loop(p), Mark::Inside(m)) => {
            let depth = at.depth + 1;
            let inner = Place { depth, ..at };
            let first = resume(alloc, program, table, p, m, inner, pass, codes)?;
            if !codes[0] {
                return Ok(first);
            }
            let mut others = [false; 258];
            let anew = Place {
                depth,
                level: depth,
                sure: is_end(first),
            };
            let second = start(alloc, program, table, p, anew, pass, &mut others)?;
            follow(codes, &others);
            Ok(go_on(first, second))
        }
        (TermNode::Trap(p), Mark::Inside(m)) => {
            let code = resume(alloc, program, table, p, m, at, pass, codes)?;
            lower(codes);
            Ok(lowered(code))
        }
        (TermNode::Local(s, p), Mark::Local(m, pre, before)) => {
            let outer = table.enter(alloc, *s, at.level, *pre, before, pass)?;
            let code = resume(alloc, program, table, p, m, at, pass, codes)?;
            pass.leave(alloc, kind_of(program, *s), *s, at.level, outer)?;
            Ok(code)
        }
        _ => Ok(gives(0, at.sure, codes)),
    }
}
