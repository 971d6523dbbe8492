//! What expressions read.
ghost use Rattle.std.specs.Prelude.{◌≡◌, length};
ghost use Rattle.std.specs.List.{list_all};
ghost use Rattle.host_expr.specs.Expression.{expression_of};
ghost use Rattle.net_list.specs.Range.{reads_within, body_reads_within, line_reads};

use host_expr::expr::{Expr, ExprNode};
use net_list::record::NetRecords;
use sqlite_items::Boxed;

/// Whether each signal and each parameter that the expression reads is one of so many.
#[cycle(reads)]
fn reads_within(expr: &Expr<u32>, signals: usize, params: usize) -> bool
    ensures { result ≡ reads_within signals params (expression_of expr.now) }
{
    match &expr.node {
        ExprNode::Now(signal) | ExprNode::Pre(signal) => (*signal as usize) < signals,
        ExprNode::NowVal(signal) | ExprNode::PreVal(signal) => (*signal as usize) < signals,
        ExprNode::Arg(place) => (*place as usize) < params,
        ExprNode::Not(a) | ExprNode::Neg(a) => part_reads(a, signals, params),
        ExprNode::Arith(_, a, b) | ExprNode::Compare(_, a, b) => {
            part_reads(a, signals, params) && part_reads(b, signals, params)
        }
        ExprNode::And(a, b) | ExprNode::Or(a, b) => {
            part_reads(a, signals, params) && part_reads(b, signals, params)
        }
        ExprNode::Choose(a, b, c) => {
            part_reads(a, signals, params)
                && part_reads(b, signals, params)
                && part_reads(c, signals, params)
        }
        _ => true,
    }
}

#[cycle(reads)]
fn part_reads(part: &Boxed<Expr<u32>>, signals: usize, params: usize) -> bool
    ensures { result ≡ reads_within signals params (expression_of part.now) }
{
    reads_within(part.get(), signals, params)
}

/// Whether the expression of a body reads its parameters alone.
pub(crate) fn body_reads_within(expr: &Option<Expr<u32>>, params: usize) -> bool
    ensures { result ≡ body_reads_within params expr.now }
{
    match expr {
        Some(expr) => reads_within(expr, 0, params),
        None => true,
    }
}

/// Whether an expression of a line reads signals alone, and such as are there.
pub(crate) fn line_reads(nets: &NetRecords, expr: &Expr<u32>) -> bool
    ensures { result ≡ line_reads nets.now expr.now }
{
    reads_within(expr, nets.signals.len(), 0)
}

/// Whether each of the expressions does.
pub(crate) fn all_read(nets: &NetRecords, exprs: &[Expr<u32>]) -> bool
    ensures { result ≡ list_all (line_reads nets.now) exprs.now }
{
    exprs.iter().all(|expr| line_reads(nets, expr))
}
