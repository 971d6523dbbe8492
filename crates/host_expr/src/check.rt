//! Whether the kinds of an expression fit.

ghost use Rattle.std.specs.Prelude.{◌≡◌, Option, Some, None, IfOk, IfErr, OnErr, slice_get};
ghost use Rattle.std.specs.Option.{option_copied};
ghost use Rattle.host_expr.specs.Expression.{expression_of};
ghost use Rattle.host_expr.specs.Kinds.{status_kind, value_kind, only_int, only_bool, both_bool};
ghost use Rattle.host_expr.specs.Kinds.{arith_kind, one_valued, compare_kind, choose_kind};
ghost use Rattle.host_expr.specs.Kinds.{kind_of_expression};
ghost use Rattle.host_expr.specs.Misfit.{judged_expr, first_misfit};
ghost use Rattle.host_expr.specs.Verdicts.{IsVerdict};

use crate::cell::Scope;
use crate::expr::{Expr, ExprNode, Op, Rel};
use hh_base::value::{Kind, Pos};
use thiserror::Error;

/// A node whose parts fit and which itself does not.
#[derive(Clone, Copy, PartialEq, Eq, Debug, Error)]
#[error("the kinds do not fit at byte {}", .pos.0)]
pub struct TypeFault {
    pub pos: Pos,
}

/// The kind of a status of a signal with this number.
fn status_kind(kinds: &[Kind], signal: u32) -> Option<Kind>
    ensures { result ≡ status_kind (slice_get kinds.now signal) }
{
    match kinds.get(signal as usize) {
        Some(_) => Some(Kind::Bool),
        None => None,
    }
}

/// The kind of a value of a signal or parameter with this number. A pure one has none.
fn value_kind(kinds: &[Kind], place: u32) -> Option<Kind>
    ensures { result ≡ value_kind (slice_get kinds.now place) }
{
    match kinds.get(place as usize) {
        Some(Kind::Pure) | None => None,
        Some(kind) => Some(*kind),
    }
}

fn arith_kind(op: Op, left: Kind, right: Kind) -> Option<Kind>
    ensures { result ≡ arith_kind op (Some left) (Some right) }
{
    match (op, left, right) {
        (_, Kind::Int, Kind::Int) => Some(Kind::Int),
        (Op::Add, Kind::Text, Kind::Text) => Some(Kind::Text),
        _ => None,
    }
}

fn one_valued(left: Kind, right: Kind) -> Option<Kind>
    ensures { result ≡ one_valued (Some left) (Some right) }
{
    match (left, right) {
        (Kind::Int, Kind::Int) => Some(Kind::Int),
        (Kind::Bool, Kind::Bool) => Some(Kind::Bool),
        (Kind::Text, Kind::Text) => Some(Kind::Text),
        _ => None,
    }
}

fn compare_kind(rel: Rel, left: Kind, right: Kind) -> Option<Kind>
    ensures { result ≡ compare_kind rel (Some left) (Some right) }
{
    match (rel, left, right) {
        (Rel::Eq | Rel::Ne, _, _) => match one_valued(left, right) {
            Some(_) => Some(Kind::Bool),
            None => None,
        },
        (_, Kind::Int, Kind::Int) => Some(Kind::Bool),
        _ => None,
    }
}

fn both_bool(left: Kind, right: Kind) -> Option<Kind>
    ensures { result ≡ both_bool (Some left) (Some right) }
{
    match (left, right) {
        (Kind::Bool, Kind::Bool) => Some(Kind::Bool),
        _ => None,
    }
}

fn choose_kind(test: Kind, first: Kind, second: Kind) -> Option<Kind>
    ensures { result ≡ choose_kind (Some test) (one_valued (Some first) (Some second)) }
{
    match test {
        Kind::Bool => one_valued(first, second),
        _ => None,
    }
}

fn only_bool(kind: Kind) -> Option<Kind>
    ensures { result ≡ only_bool (Some kind) }
{
    match kind {
        Kind::Bool => Some(Kind::Bool),
        _ => None,
    }
}

fn only_int(kind: Kind) -> Option<Kind>
    ensures { result ≡ only_int (Some kind) }
{
    match kind {
        Kind::Int => Some(Kind::Int),
        _ => None,
    }
}

fn or_fault(pos: Pos, kind: Option<Kind>) -> Result<Kind, TypeFault>
    ensures kind { IfOk result (λ k. kind ≡ Some k) }
    ensures fault { IfErr result (λ e. (kind ≡ None) × (e.pos ≡ pos)) }
{
    match kind {
        Some(kind) => Ok(kind),
        None => Err(TypeFault { pos }),
    }
}

/// The kind of the expression, or its first misfit.
fn judge(expr: &Expr<u32>, scope: &Scope) -> Result<Kind, TypeFault>
    ensures { IsVerdict (judged_expr scope.now.signals.items scope.now.args.items expr.now) result }
{
    let pos = expr.pos;
    match &expr.node {
        ExprNode::Int(_) => Ok(Kind::Int),
        ExprNode::Bool(_) => Ok(Kind::Bool),
        ExprNode::Text(_) => Ok(Kind::Text),
        ExprNode::Now(signal) => or_fault(pos, status_kind(&scope.signals, *signal)),
        ExprNode::Pre(signal) => or_fault(pos, status_kind(&scope.signals, *signal)),
        ExprNode::NowVal(signal) => or_fault(pos, value_kind(&scope.signals, *signal)),
        ExprNode::PreVal(signal) => or_fault(pos, value_kind(&scope.signals, *signal)),
        ExprNode::Arg(place) => or_fault(pos, value_kind(&scope.args, *place)),
        ExprNode::Not(a) => or_fault(pos, only_bool(judge(a.get(), scope)?)),
        ExprNode::Neg(a) => or_fault(pos, only_int(judge(a.get(), scope)?)),
        ExprNode::Arith(op, a, b) => {
            let left = judge(a.get(), scope)?;
            or_fault(pos, arith_kind(*op, left, judge(b.get(), scope)?))
        }
        ExprNode::Compare(rel, a, b) => {
            let left = judge(a.get(), scope)?;
            or_fault(pos, compare_kind(*rel, left, judge(b.get(), scope)?))
        }
        ExprNode::And(a, b) => {
            let left = judge(a.get(), scope)?;
            or_fault(pos, both_bool(left, judge(b.get(), scope)?))
        }
        ExprNode::Or(a, b) => {
            let left = judge(a.get(), scope)?;
            or_fault(pos, both_bool(left, judge(b.get(), scope)?))
        }
        ExprNode::Choose(a, b, c) => {
            let test = judge(a.get(), scope)?;
            let first = judge(b.get(), scope)?;
            or_fault(pos, choose_kind(test, first, judge(c.get(), scope)?))
        }
    }
}

/// The kind of the expression's value, where its kinds fit and it reads no signal or parameter that the scope
/// does not have, else the first node in the order of the text whose parts fit and which itself does not.
pub fn check(expr: &Expr<u32>, scope: &Scope) -> Result<Kind, TypeFault>
    ensures kind { IfOk result
        (λ k. kind_of_expression scope.now.signals.items scope.now.args.items (expression_of expr.now)
        ≡ Some k) }
    ensures fault { OnErr result
        (kind_of_expression scope.now.signals.items scope.now.args.items (expression_of expr.now)
        ≡ None) }
    ensures place { IfErr result
        (λ e. first_misfit scope.now.signals.items scope.now.args.items expr.now ≡ Some e.pos) }
{
    judge(expr, scope)
}
