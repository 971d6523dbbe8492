//! Expressions whose signals go by their numbers.

ghost use Rattle.std.specs.Prelude.{◌≡◌, IfOk, slice_index_or};
ghost use Rattle.kernel_expand.specs.Renaming.{renamed};
ghost use Rattle.statement_build.specs.Renaming.{renamed_node};

use hh_base::memory::NoMemory;
use host_expr::expr::{Expr, ExprNode};
use sqlite_items::Boxed;
use std::alloc::Global;

/// The number of the signal of this place, by the list of all.
pub fn number_at(places: &[u32], place: u32) -> u32
    ensures { result ≡ slice_index_or places.now place 0 }
{
    match places.get(place as usize) {
        Some(number) => *number,
        None => 0,
    }
}

/// The expression with each signal replaced by what stands at its place in the list.
#[cycle(rename)]
#[tactic(auto, unfolding(kernel_expand::specs::Renaming::renamed, crate::specs::Renaming::renamed_node))]
pub fn renamed(alloc: Global, expr: &Expr<u32>, places: &[u32]) -> Result<Expr<u32>, NoMemory>
    ensures { IfOk result (λ e. e ≡ renamed (λ s. slice_index_or places.now s 0) expr.now) }
{
    let node = renamed_node(alloc, &expr.node, places)?;
    Ok(Expr {
        pos: expr.pos,
        node,
    })
}

#[cycle(rename)]
#[tactic(auto, unfolding(kernel_expand::specs::Renaming::renamed, crate::specs::Renaming::renamed_node))]
fn renamed_node(
    alloc: Global,
    node: &ExprNode<u32>,
    places: &[u32],
) -> Result<ExprNode<u32>, NoMemory>
    ensures { IfOk result (λ n. n ≡ renamed_node (λ s. slice_index_or places.now s 0) node.now) }
{
    match node {
        ExprNode::Int(number) => Ok(ExprNode::Int(*number)),
        ExprNode::Bool(truth) => Ok(ExprNode::Bool(*truth)),
        ExprNode::Text(text) => Ok(ExprNode::Text(text.copy(alloc)?)),
        ExprNode::Now(signal) => Ok(ExprNode::Now(number_at(places, *signal))),
        ExprNode::Pre(signal) => Ok(ExprNode::Pre(number_at(places, *signal))),
        ExprNode::NowVal(signal) => Ok(ExprNode::NowVal(number_at(places, *signal))),
        ExprNode::PreVal(signal) => Ok(ExprNode::PreVal(number_at(places, *signal))),
        ExprNode::Arg(place) => Ok(ExprNode::Arg(*place)),
        ExprNode::Not(a) => Ok(ExprNode::Not(renamed_part(alloc, a, places)?)),
        ExprNode::Neg(a) => Ok(ExprNode::Neg(renamed_part(alloc, a, places)?)),
        ExprNode::Arith(op, a, b) => {
            let a = renamed_part(alloc, a, places)?;
            let b = renamed_part(alloc, b, places)?;
            Ok(ExprNode::Arith(*op, a, b))
        }
        ExprNode::Compare(rel, a, b) => {
            let a = renamed_part(alloc, a, places)?;
            let b = renamed_part(alloc, b, places)?;
            Ok(ExprNode::Compare(*rel, a, b))
        }
        ExprNode::And(a, b) => {
            let a = renamed_part(alloc, a, places)?;
            let b = renamed_part(alloc, b, places)?;
            Ok(ExprNode::And(a, b))
        }
        ExprNode::Or(a, b) => {
            let a = renamed_part(alloc, a, places)?;
            let b = renamed_part(alloc, b, places)?;
            Ok(ExprNode::Or(a, b))
        }
        ExprNode::Choose(a, b, c) => {
            let a = renamed_part(alloc, a, places)?;
            let b = renamed_part(alloc, b, places)?;
            let c = renamed_part(alloc, c, places)?;
            Ok(ExprNode::Choose(a, b, c))
        }
    }
}

#[cycle(rename)]
fn renamed_part(
    alloc: Global,
    part: &Boxed<Expr<u32>>,
    places: &[u32],
) -> Result<Boxed<Expr<u32>>, NoMemory>
    ensures { IfOk result (λ e. e ≡ renamed (λ s. slice_index_or places.now s 0) part.now) }
{
    let part = renamed(alloc, part.get(), places)?;
    Ok(Boxed::new(alloc, part)?)
}
