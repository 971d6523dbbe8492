//! What an expression gives in a reaction.

ghost use Rattle.std.specs.Prelude.{◌≡◌, IfOk, not, slice_get};
ghost use Rattle.hh_base.specs.declared.value.Value.TheVariants as value;
ghost use Rattle.host_expr.specs.declared.cell.Cell.TheVariants as cell;
ghost use Rattle.host_expr.specs.Environment.{is_decided, is_known, is_present, env_of, environment_of};
ghost use Rattle.host_expr.specs.Expression.{expression_of};
ghost use Rattle.host_expr.specs.Evaluation.{truth, then_with, arith, negated, compared, argument};
ghost use Rattle.host_expr.specs.Evaluation.{reads_known, run, eval_of};
ghost use Rattle.host_expr.specs.Parts.{value_of, cell_of};

use crate::arithmetic::{arith, compare, negate};
use crate::cell::{Cell, Cells, SigCell};
use crate::expr::{Expr, ExprNode, Op, Rel};
use crate::part::{Datum, Part, lent, lent_cell};
use hh_base::memory::NoMemory;
use hh_base::value::{Pos, Tri, Value};
use std::alloc::Global;

fn is_status_known(cells: &[SigCell], signal: u32) -> bool
    ensures { result ≡ is_decided (env_of cells.now signal).status }
{
    match cells.get(signal as usize) {
        Some(cell) => cell.status != Tri::Unknown,
        None => false,
    }
}

fn is_value_known(cells: &[SigCell], signal: u32) -> bool
    ensures { result ≡ is_known (env_of cells.now signal).value }
{
    match cells.get(signal as usize) {
        Some(cell) => !matches!(cell.value, Cell::Unknown),
        None => false,
    }
}

/// Whether each status and value that the expression reads is known, also in a part that is not taken.
fn reads_known(expr: &Expr<u32>, cells: &[SigCell]) -> bool
    ensures { result ≡ reads_known (expression_of expr.now) (env_of cells.now) }
{
    match &expr.node {
        ExprNode::Int(_) | ExprNode::Bool(_) | ExprNode::Text(_) => true,
        ExprNode::Pre(_) | ExprNode::PreVal(_) | ExprNode::Arg(_) => true,
        ExprNode::Now(signal) => is_status_known(cells, *signal),
        ExprNode::NowVal(signal) => is_value_known(cells, *signal),
        ExprNode::Not(a) | ExprNode::Neg(a) => reads_known(a.get(), cells),
        ExprNode::Arith(_, a, b) | ExprNode::Compare(_, a, b) => {
            reads_known(a.get(), cells) && reads_known(b.get(), cells)
        }
        ExprNode::And(a, b) | ExprNode::Or(a, b) => {
            reads_known(a.get(), cells) && reads_known(b.get(), cells)
        }
        ExprNode::Choose(a, b, c) => {
            reads_known(a.get(), cells)
                && reads_known(b.get(), cells)
                && reads_known(c.get(), cells)
        }
    }
}

fn flag<'a>(truth: bool) -> Part<'a>
    ensures { cell_of result ≡ cell.Known (value.Bool truth) }
{
    Part::Known(Datum::Bool(truth))
}

fn status_now<'a>(cells: &[SigCell], signal: u32) -> Part<'a>
    ensures { cell_of result ≡ cell.Known (value.Bool (is_present (env_of cells.now signal).status)) }
{
    match cells.get(signal as usize) {
        Some(cell) => flag(cell.status == Tri::One),
        None => flag(false),
    }
}

fn status_before<'a>(cells: &[SigCell], signal: u32) -> Part<'a>
    ensures { cell_of result ≡ cell.Known (value.Bool (env_of cells.now signal).pre) }
{
    match cells.get(signal as usize) {
        Some(cell) => flag(cell.pre),
        None => flag(false),
    }
}

fn value_now(cells: &[SigCell], signal: u32) -> Part<'_>
    ensures { cell_of result ≡ (env_of cells.now signal).value }
{
    match cells.get(signal as usize) {
        Some(cell) => lent_cell(&cell.value),
        None => Part::Unknown,
    }
}

fn value_before(cells: &[SigCell], signal: u32) -> Part<'_>
    ensures { cell_of result ≡ cell.Known (env_of cells.now signal).preval }
{
    match cells.get(signal as usize) {
        Some(cell) => Part::Known(lent(&cell.preval)),
        None => Part::Known(Datum::Unit),
    }
}

fn argument(args: &[Value], place: u32) -> Part<'_>
    ensures { cell_of result ≡ argument (slice_get args.now place) }
{
    match args.get(place as usize) {
        Some(value) => Part::Known(lent(value)),
        None => Part::Unknown,
    }
}

fn not_part<'a>(part: Part<'a>) -> Part<'a>
    ensures { cell_of result ≡ then_with (cell_of part.entry) (λ v. cell.Known (value.Bool (not (truth v)))) }
{
    match part {
        Part::Known(datum) => flag(!datum.truth()),
        Part::Unknown => Part::Unknown,
        Part::Faulted(pos, kind) => Part::Faulted(pos, kind),
    }
}

fn negated_part<'a>(pos: Pos, part: Part<'a>) -> Part<'a>
    ensures { cell_of result ≡ then_with (cell_of part.entry) (negated pos) }
{
    match part {
        Part::Known(datum) => negate(pos, &datum),
        Part::Unknown => Part::Unknown,
        Part::Faulted(pos, kind) => Part::Faulted(pos, kind),
    }
}

fn arith_with<'a>(
    alloc: Global,
    pos: Pos,
    op: Op,
    left: Datum<'a>,
    right: Part<'a>,
) -> Result<Part<'a>, NoMemory>
    ensures { IfOk result
        (λ p. cell_of p ≡ then_with (cell_of right.entry) (arith pos op (value_of left.entry))) }
{
    match right {
        Part::Known(right) => arith(alloc, pos, op, left, &right),
        Part::Unknown => Ok(Part::Unknown),
        Part::Faulted(pos, kind) => Ok(Part::Faulted(pos, kind)),
    }
}

fn compare_with<'a>(rel: Rel, left: &Datum<'_>, right: Part<'a>) -> Part<'a>
    ensures { cell_of result
        ≡ then_with (cell_of right.entry)
        (λ w. cell.Known (value.Bool (compared rel (value_of left.now) w))) }
{
    match right {
        Part::Known(right) => flag(compare(rel, left, &right)),
        Part::Unknown => Part::Unknown,
        Part::Faulted(pos, kind) => Part::Faulted(pos, kind),
    }
}

/// From left to right up to the first fault, and only what is taken.
fn run<'a>(alloc: Global, expr: &'a Expr<u32>, cells: &'a Cells) -> Result<Part<'a>, NoMemory>
    ensures { IfOk result
        (λ p. cell_of p ≡ run (expression_of expr.now) (environment_of cells.now) cells.now.args.items) }
{
    match &expr.node {
        ExprNode::Int(number) => Ok(Part::Known(Datum::Int(*number))),
        ExprNode::Bool(truth) => Ok(flag(*truth)),
        ExprNode::Text(text) => Ok(Part::Known(Datum::Lent(text))),
        ExprNode::Now(signal) => Ok(status_now(&cells.signals, *signal)),
        ExprNode::Pre(signal) => Ok(status_before(&cells.signals, *signal)),
        ExprNode::NowVal(signal) => Ok(value_now(&cells.signals, *signal)),
        ExprNode::PreVal(signal) => Ok(value_before(&cells.signals, *signal)),
        ExprNode::Arg(place) => Ok(argument(&cells.args, *place)),
        ExprNode::Not(a) => Ok(not_part(run(alloc, a.get(), cells)?)),
        ExprNode::Neg(a) => Ok(negated_part(expr.pos, run(alloc, a.get(), cells)?)),
        ExprNode::Arith(op, a, b) => match run(alloc, a.get(), cells)? {
            Part::Known(a) => arith_with(alloc, expr.pos, *op, a, run(alloc, b.get(), cells)?),
            stopped => Ok(stopped),
        },
        ExprNode::Compare(rel, a, b) => match run(alloc, a.get(), cells)? {
            Part::Known(a) => Ok(compare_with(*rel, &a, run(alloc, b.get(), cells)?)),
            stopped => Ok(stopped),
        },
        ExprNode::And(a, b) => match run(alloc, a.get(), cells)? {
            Part::Known(a) if a.truth() => run(alloc, b.get(), cells),
            Part::Known(_) => Ok(flag(false)),
            stopped => Ok(stopped),
        },
        ExprNode::Or(a, b) => match run(alloc, a.get(), cells)? {
            Part::Known(a) if a.truth() => Ok(flag(true)),
            Part::Known(_) => run(alloc, b.get(), cells),
            stopped => Ok(stopped),
        },
        ExprNode::Choose(a, b, c) => match run(alloc, a.get(), cells)? {
            Part::Known(a) if a.truth() => run(alloc, b.get(), cells),
            Part::Known(_) => run(alloc, c.get(), cells),
            stopped => Ok(stopped),
        },
    }
}

/// The value of the expression: unknown exactly where a status or value that it reads is unknown, also in a
/// part that is not taken, and else its value or its first fault from the left, at the position of that
/// operator. A signal or a parameter that the cells do not have is unknown. The time is that of one walk over
/// the expression.
pub fn eval(alloc: Global, expr: &Expr<u32>, cells: &Cells) -> Result<Cell, NoMemory>
    ensures { IfOk result
        (λ c. c ≡ eval_of (expression_of expr.now) (environment_of cells.now) cells.now.args.items) }
{
    if !reads_known(expr, &cells.signals) {
        return Ok(Cell::Unknown);
    }
    run(alloc, expr, cells)?.into_cell(alloc)
}
