//! Copies of expressions, bodies and async sites as nets have them.

ghost use Rattle.std.specs.Prelude.{◌≡◌, IfOk, map, option_map};
ghost use Rattle.net_block.specs.Written.{written, written_body, written_node, written_place, written_site};

use hh_base::memory::NoMemory;
use hh_base::text::Text;
use hh_base::value::{Kind, Pos};
use hh_term::program::{BodyDecl, Kinds, Site};
use host_expr::expr::{Expr, ExprNode};
use sqlite_items::{Boxed, Items};
use std::alloc::Global;

/// The place of a node: only operators of arithmetic, which may fault, have one.
#[tactic(auto, unfolding(crate::specs::Written::written_place))]
fn place_of(node: &ExprNode<u32>, pos: Pos) -> Pos
    ensures { result ≡ written_place node.now pos }
{
    match node {
        ExprNode::Neg(_) => pos,
        ExprNode::Arith(_, _, _) => pos,
        _ => Pos(0),
    }
}

/// A copy of an expression, in which only operators of arithmetic have a place.
#[cycle(write)]
#[tactic(auto, unfolding(crate::specs::Written::written, crate::specs::Written::written_node))]
pub fn written(alloc: Global, expr: &Expr<u32>) -> Result<Expr<u32>, NoMemory>
    ensures { IfOk result (λ e. e ≡ written expr.now) }
{
    let node = written_node(alloc, &expr.node)?;
    let pos = place_of(&node, expr.pos);
    Ok(Expr { pos, node })
}

#[cycle(write)]
#[tactic(auto, unfolding(crate::specs::Written::written, crate::specs::Written::written_node))]
fn written_node(alloc: Global, node: &ExprNode<u32>) -> Result<ExprNode<u32>, NoMemory>
    ensures { IfOk result (λ n. n ≡ written_node node.now) }
{
    match node {
        ExprNode::Int(number) => Ok(ExprNode::Int(*number)),
        ExprNode::Bool(truth) => Ok(ExprNode::Bool(*truth)),
        ExprNode::Text(text) => Ok(ExprNode::Text(text.copy(alloc)?)),
        ExprNode::Now(signal) => Ok(ExprNode::Now(*signal)),
        ExprNode::Pre(signal) => Ok(ExprNode::Pre(*signal)),
        ExprNode::NowVal(signal) => Ok(ExprNode::NowVal(*signal)),
        ExprNode::PreVal(signal) => Ok(ExprNode::PreVal(*signal)),
        ExprNode::Arg(place) => Ok(ExprNode::Arg(*place)),
        ExprNode::Not(a) => Ok(ExprNode::Not(written_part(alloc, a)?)),
        ExprNode::Neg(a) => Ok(ExprNode::Neg(written_part(alloc, a)?)),
        ExprNode::Arith(op, a, b) => {
            let a = written_part(alloc, a)?;
            let b = written_part(alloc, b)?;
            Ok(ExprNode::Arith(*op, a, b))
        }
        ExprNode::Compare(rel, a, b) => {
            let a = written_part(alloc, a)?;
            let b = written_part(alloc, b)?;
            Ok(ExprNode::Compare(*rel, a, b))
        }
        ExprNode::And(a, b) => {
            let a = written_part(alloc, a)?;
            let b = written_part(alloc, b)?;
            Ok(ExprNode::And(a, b))
        }
        ExprNode::Or(a, b) => {
            let a = written_part(alloc, a)?;
            let b = written_part(alloc, b)?;
            Ok(ExprNode::Or(a, b))
        }
        ExprNode::Choose(a, b, c) => {
            let a = written_part(alloc, a)?;
            let b = written_part(alloc, b)?;
            let c = written_part(alloc, c)?;
            Ok(ExprNode::Choose(a, b, c))
        }
    }
}

#[cycle(write)]
fn written_part(alloc: Global, part: &Boxed<Expr<u32>>) -> Result<Boxed<Expr<u32>>, NoMemory>
    ensures { IfOk result (λ e. e ≡ written part.now) }
{
    let part = written(alloc, part.get())?;
    Ok(Boxed::new(alloc, part)?)
}

fn written_all(alloc: Global, args: &[Expr<u32>]) -> Result<Vec<Expr<u32>>, NoMemory>
    ensures { IfOk result (λ v. v.items ≡ map written args.now) }
{
    let mut copies = Vec::with_capacity(alloc, args.len())?;
    for arg in args {
        copies.push(written(alloc, arg)?)?;
    }
    Ok(copies)
}

fn copy_text(alloc: Global, text: &Option<Text>) -> Result<Option<Text>, NoMemory>
    ensures { IfOk result (λ t. t ≡ text.now) }
{
    match text {
        None => Ok(None),
        Some(text) => Ok(Some(text.copy(alloc)?)),
    }
}

/// A copy of an async site, with its arguments as nets have them.
pub fn written_site(alloc: Global, site: &Site) -> Result<Site, NoMemory>
    ensures { IfOk result (λ s. s ≡ written_site site.now) }
{
    let args = written_all(alloc, site.args.as_slice())?;
    let kill = copy_text(alloc, &site.kill)?;
    let suspend = copy_text(alloc, &site.suspend)?;
    let resume = copy_text(alloc, &site.resume)?;
    Ok(Site {
        body: site.body,
        signal: site.signal,
        args: Items::from_vec(args),
        kill,
        suspend,
        resume,
    })
}

fn copy_kinds(alloc: Global, kinds: &[Kind]) -> Result<Kinds, NoMemory>
    ensures { IfOk result (λ ks. ks ≡ kinds.now) }
{
    let mut copies = Vec::with_capacity(alloc, kinds.len())?;
    for kind in kinds {
        copies.push(*kind)?;
    }
    Ok(Items::from_vec(copies))
}

fn written_if_there(alloc: Global, expr: &Option<Expr<u32>>) -> Result<Option<Expr<u32>>, NoMemory>
    ensures { IfOk result (λ e. e ≡ option_map written expr.now) }
{
    match expr {
        None => Ok(None),
        Some(expr) => Ok(Some(written(alloc, expr)?)),
    }
}

/// A copy of a body, with its expression as nets have it.
pub fn written_body(alloc: Global, body: &BodyDecl) -> Result<BodyDecl, NoMemory>
    ensures { IfOk result (λ b. b ≡ written_body body.now) }
{
    let name = body.name.copy(alloc)?;
    let params = copy_kinds(alloc, body.params.as_slice())?;
    let expr = written_if_there(alloc, &body.expr)?;
    Ok(BodyDecl {
        name,
        params,
        answer: body.answer,
        expr,
        pos: body.pos,
    })
}

/// A copy of the bodies, in their order.
pub fn written_bodies(alloc: Global, bodies: &[BodyDecl]) -> Result<Vec<BodyDecl>, NoMemory>
    ensures { IfOk result (λ v. v.items ≡ map written_body bodies.now) }
{
    let mut copies = Vec::with_capacity(alloc, bodies.len())?;
    for body in bodies {
        copies.push(written_body(alloc, body)?)?;
    }
    Ok(copies)
}
