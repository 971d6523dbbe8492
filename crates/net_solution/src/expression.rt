//! What an expression of nets gives.
ghost use Rattle.std.specs.Prelude.{◌≡◌, [], IfOk};
ghost use Rattle.host_expr.specs.Expression.{expression_of};
ghost use Rattle.net_solution.specs.Places.{known_by, seen_by};
ghost use Rattle.net_solution.specs.Seen.{before_known, expression_value};

use crate::valuation::Before;
use hh_base::memory::NoMemory;
use host_expr::cell::{Cell, Cells};
use host_expr::eval::eval;
use host_expr::expr::{Expr, ExprNode};
use sqlite_items::Boxed;
use std::alloc::Global;

fn is_pre_known(before: &[Before], signal: u32) -> bool
    ensures { result ≡ (known_by before.now signal).pre }
{
    match before.get(signal as usize) {
        Some(known) => known.pre,
        None => false,
    }
}

fn is_base_known(before: &[Before], signal: u32) -> bool
    ensures { result ≡ (known_by before.now signal).base }
{
    match before.get(signal as usize) {
        Some(known) => known.base,
        None => false,
    }
}

#[cycle(known)]
fn before_known(expr: &Expr<u32>, before: &[Before]) -> bool
    ensures { result ≡ before_known (expression_of expr.now) (known_by before.now) }
{
    match &expr.node {
        ExprNode::Pre(signal) => is_pre_known(before, *signal),
        ExprNode::PreVal(signal) => is_base_known(before, *signal),
        ExprNode::Not(a) | ExprNode::Neg(a) => part_known(a, before),
        ExprNode::Arith(_, a, b) | ExprNode::Compare(_, a, b) => {
            part_known(a, before) && part_known(b, before)
        }
        ExprNode::And(a, b) | ExprNode::Or(a, b) => part_known(a, before) && part_known(b, before),
        ExprNode::Choose(a, b, c) => {
            part_known(a, before) && part_known(b, before) && part_known(c, before)
        }
        _ => true,
    }
}

#[cycle(known)]
fn part_known(part: &Boxed<Expr<u32>>, before: &[Before]) -> bool
    ensures { result ≡ before_known (expression_of part.now) (known_by before.now) }
{
    before_known(part.get(), before)
}

/// The value of an expression: unknown exactly where a status, a value, a previous status or a base value
/// that
/// it reads is unknown, and else its value or its first fault. The time is that of one walk over it.
pub fn expression_value(
    alloc: Global,
    expr: &Expr<u32>,
    cells: &Cells,
    before: &[Before],
) -> Result<Cell, NoMemory>
    requires { cells.now.args.items ≡ [] }
    ensures { IfOk result (λ c. c
        ≡ expression_value (expression_of expr.now) (seen_by cells.now.signals.items before.now)) }
{
    if !before_known(expr, before) {
        return Ok(Cell::Unknown);
    }
    eval(alloc, expr, cells)
}
