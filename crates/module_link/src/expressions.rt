//! Expressions with their names resolved.

ghost use Rattle.std.specs.Prelude.{◌≡◌, IfOk};
ghost use Rattle.module_link.specs.Resolved.{resolved_expr};
ghost use Rattle.module_link.specs.Places.{ArePlaces, signal_place_of, parameter_place_of};

use crate::places::Places;
use hh_base::memory::NoMemory;
use hh_base::name::Name;
use host_expr::expr::{Expr, ExprNode};
use sqlite_items::Boxed;
use std::alloc::Global;

/// The expression, where names have these places.
#[cycle(resolve)]
pub fn resolve_expr(
    alloc: Global,
    places: &Places,
    expr: &Expr<Name>,
) -> Result<Expr<u32>, NoMemory>
    requires { ArePlaces places.now }
    ensures { IfOk result (λ e. e ≡ resolved_expr (signal_place_of places.now) (parameter_place_of places.now)
        expr.now) }
{
    let node = match &expr.node {
        ExprNode::Int(number) => ExprNode::Int(*number),
        ExprNode::Bool(truth) => ExprNode::Bool(*truth),
        ExprNode::Text(text) => ExprNode::Text(text.copy(alloc)?),
        ExprNode::Now(name) => ExprNode::Now(places.signal(name)),
        ExprNode::Pre(name) => ExprNode::Pre(places.signal(name)),
        ExprNode::NowVal(name) => ExprNode::NowVal(places.signal(name)),
        ExprNode::PreVal(name) => ExprNode::PreVal(places.signal(name)),
        ExprNode::Arg(name) => ExprNode::Arg(places.parameter(name)),
        ExprNode::Not(a) => ExprNode::Not(resolve_part(alloc, places, a)?),
        ExprNode::Neg(a) => ExprNode::Neg(resolve_part(alloc, places, a)?),
        ExprNode::Arith(op, a, b) => {
            let a = resolve_part(alloc, places, a)?;
            ExprNode::Arith(*op, a, resolve_part(alloc, places, b)?)
        }
        ExprNode::Compare(rel, a, b) => {
            let a = resolve_part(alloc, places, a)?;
            ExprNode::Compare(*rel, a, resolve_part(alloc, places, b)?)
        }
        ExprNode::And(a, b) => {
            let a = resolve_part(alloc, places, a)?;
            ExprNode::And(a, resolve_part(alloc, places, b)?)
        }
        ExprNode::Or(a, b) => {
            let a = resolve_part(alloc, places, a)?;
            ExprNode::Or(a, resolve_part(alloc, places, b)?)
        }
        ExprNode::Choose(a, b, c) => {
            let a = resolve_part(alloc, places, a)?;
            let b = resolve_part(alloc, places, b)?;
            ExprNode::Choose(a, b, resolve_part(alloc, places, c)?)
        }
    };
    Ok(Expr {
        pos: expr.pos,
        node,
    })
}

#[cycle(resolve)]
fn resolve_part(
    alloc: Global,
    places: &Places,
    part: &Boxed<Expr<Name>>,
) -> Result<Boxed<Expr<u32>>, NoMemory>
    requires { ArePlaces places.now }
    ensures { IfOk result (λ e. e ≡ resolved_expr (signal_place_of places.now) (parameter_place_of places.now)
        part.now) }
{
    Ok(Boxed::new(alloc, resolve_expr(alloc, places, part.get())?)?)
}
