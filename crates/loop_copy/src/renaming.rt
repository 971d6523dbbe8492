//! Expressions and async sites whose signals have other numbers.

ghost use Rattle.std.specs.Prelude.{◌≡◌, IfOk, map, option_map};
ghost use Rattle.host_expr.specs.Expression.{expression_of, optional_expression};
ghost use Rattle.hh_term.specs.Views.{site_of};
ghost use Rattle.loop_copy.specs.Renaming.{numbers_in, renamed, renamed_expr, renamed_node, renamed_site};

use hh_base::memory::NoMemory;
use hh_base::text::Text;
use hh_term::program::Site;
use host_expr::expr::{Expr, ExprNode};
use sqlite_items::{Boxed, Items};
use std::alloc::Global;

/// The number of a signal, by the list of all. One that is not in the list keeps its own.
pub fn number_in(numbers: &[u32], signal: u32) -> u32
    ensures { result ≡ numbers_in numbers.now signal }
{
    match numbers.get(signal as usize) {
        Some(number) => *number,
        None => signal,
    }
}

/// The expression with the numbers of its signals.
#[cycle(rename)]
#[tactic(auto, unfolding(crate::specs::Renaming::renamed_expr, crate::specs::Renaming::renamed_node))]
fn renamed_expr(alloc: Global, expr: &Expr<u32>, numbers: &[u32]) -> Result<Expr<u32>, NoMemory>
    ensures { IfOk result (λ e. e ≡ renamed_expr (numbers_in numbers.now) expr.now) }
{
    let node = renamed_node(alloc, &expr.node, numbers)?;
    Ok(Expr {
        pos: expr.pos,
        node,
    })
}

#[cycle(rename)]
#[tactic(auto, unfolding(crate::specs::Renaming::renamed_expr, crate::specs::Renaming::renamed_node))]
fn renamed_node(
    alloc: Global,
    node: &ExprNode<u32>,
    numbers: &[u32],
) -> Result<ExprNode<u32>, NoMemory>
    ensures { IfOk result (λ n. n ≡ renamed_node (numbers_in numbers.now) node.now) }
{
    match node {
        ExprNode::Int(number) => Ok(ExprNode::Int(*number)),
        ExprNode::Bool(truth) => Ok(ExprNode::Bool(*truth)),
        ExprNode::Text(text) => Ok(ExprNode::Text(text.copy(alloc)?)),
        ExprNode::Now(signal) => Ok(ExprNode::Now(number_in(numbers, *signal))),
        ExprNode::Pre(signal) => Ok(ExprNode::Pre(number_in(numbers, *signal))),
        ExprNode::NowVal(signal) => Ok(ExprNode::NowVal(number_in(numbers, *signal))),
        ExprNode::PreVal(signal) => Ok(ExprNode::PreVal(number_in(numbers, *signal))),
        ExprNode::Arg(place) => Ok(ExprNode::Arg(*place)),
        ExprNode::Not(a) => Ok(ExprNode::Not(renamed_part(alloc, a, numbers)?)),
        ExprNode::Neg(a) => Ok(ExprNode::Neg(renamed_part(alloc, a, numbers)?)),
        ExprNode::Arith(op, a, b) => {
            let a = renamed_part(alloc, a, numbers)?;
            let b = renamed_part(alloc, b, numbers)?;
            Ok(ExprNode::Arith(*op, a, b))
        }
        ExprNode::Compare(rel, a, b) => {
            let a = renamed_part(alloc, a, numbers)?;
            let b = renamed_part(alloc, b, numbers)?;
            Ok(ExprNode::Compare(*rel, a, b))
        }
        ExprNode::And(a, b) => {
            let a = renamed_part(alloc, a, numbers)?;
            let b = renamed_part(alloc, b, numbers)?;
            Ok(ExprNode::And(a, b))
        }
        ExprNode::Or(a, b) => {
            let a = renamed_part(alloc, a, numbers)?;
            let b = renamed_part(alloc, b, numbers)?;
            Ok(ExprNode::Or(a, b))
        }
        ExprNode::Choose(a, b, c) => {
            let a = renamed_part(alloc, a, numbers)?;
            let b = renamed_part(alloc, b, numbers)?;
            let c = renamed_part(alloc, c, numbers)?;
            Ok(ExprNode::Choose(a, b, c))
        }
    }
}

#[cycle(rename)]
fn renamed_part(
    alloc: Global,
    part: &Boxed<Expr<u32>>,
    numbers: &[u32],
) -> Result<Boxed<Expr<u32>>, NoMemory>
    ensures { IfOk result (λ e. e ≡ renamed_expr (numbers_in numbers.now) part.now) }
{
    let part = renamed_expr(alloc, part.get(), numbers)?;
    Ok(Boxed::new(alloc, part)?)
}

/// A test or a value with the numbers of its signals.
pub fn renumbered(alloc: Global, expr: &Expr<u32>, numbers: &[u32]) -> Result<Expr<u32>, NoMemory>
    ensures { IfOk result (λ e. expression_of e ≡ renamed (numbers_in numbers.now) (expression_of expr.now)) }
{
    let expr = renamed_expr(alloc, expr, numbers)?;
    Ok(expr)
}

/// What is emitted, with the numbers of its signals.
pub fn renumbered_value(
    alloc: Global,
    value: &Option<Expr<u32>>,
    numbers: &[u32],
) -> Result<Option<Expr<u32>>, NoMemory>
    ensures { IfOk result (λ v. optional_expression v
        ≡ option_map (renamed (numbers_in numbers.now)) (optional_expression value.now)) }
{
    match value {
        None => Ok(None),
        Some(value) => Ok(Some(renumbered(alloc, value, numbers)?)),
    }
}

fn renumbered_all(
    alloc: Global,
    args: &[Expr<u32>],
    numbers: &[u32],
) -> Result<Vec<Expr<u32>>, NoMemory>
    ensures { IfOk result (λ v. v.items ≡ map (renamed_expr (numbers_in numbers.now)) args.now) }
{
    let mut copies = Vec::with_capacity(alloc, args.len())?;
    for arg in args {
        copies.push(renamed_expr(alloc, arg, numbers)?)?;
    }
    Ok(copies)
}

fn copy_text(alloc: Global, text: &Option<Text>) -> Result<Option<Text>, NoMemory>
    ensures { IfOk result (λ t. t ≡ text.now) }
{
    match text {
        None => Ok(None),
        Some(text) => Ok(Some(text.copy(alloc)?)),
    }
}

fn target(signal: Option<u32>, numbers: &[u32]) -> Option<u32>
    ensures { result ≡ option_map (numbers_in numbers.now) signal }
{
    match signal {
        None => None,
        Some(signal) => Some(number_in(numbers, signal)),
    }
}

/// The same async site with the numbers of its signals.
pub fn renumbered_site(alloc: Global, site: &Site, numbers: &[u32]) -> Result<Site, NoMemory>
    ensures { IfOk result (λ s. site_of s ≡ renamed_site (numbers_in numbers.now) (site_of site.now)) }
{
    let args = renumbered_all(alloc, site.args.as_slice(), numbers)?;
    let kill = copy_text(alloc, &site.kill)?;
    let suspend = copy_text(alloc, &site.suspend)?;
    let resume = copy_text(alloc, &site.resume)?;
    Ok(Site {
        body: site.body,
        signal: target(site.signal, numbers),
        args: Items::from_vec(args),
        kill,
        suspend,
        resume,
    })
}
