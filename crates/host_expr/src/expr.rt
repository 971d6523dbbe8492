//! The tree of expressions.

ghost use Rattle.std.specs.Prelude.{◌≡◌, ◌↔◌, IsTrue, IfOk};

use hh_base::memory::NoMemory;
use hh_base::text::{Text, same_text};
use hh_base::value::Pos;
use sqlite_items::Boxed;
use std::alloc::Global;

/// The most leaves and operators that an expression has.
pub const EXPRESSION_LIMIT: u32 = 1_024;

/// So many bytes of a literal text, begun, count as one more node.
pub const TEXT_BLOCK: usize = 64;

/// An expression. `R` names what it reads: a name as written, or the number of a signal or parameter.
#[cycle(expr)]
#[derive(Drop)]
pub struct Expr<R: Drop> {
    pub pos: Pos,
    pub node: ExprNode<R>,
}

/// Literals, what is read of a signal (its status and value, now and in the previous reaction) or of a
/// parameter, and operators over their operands from left to right. `And`, `Or` and `Choose` evaluate only
/// what is taken.
#[cycle(expr)]
#[derive(Drop)]
pub enum ExprNode<R: Drop> {
    Int(i64),
    Bool(bool),
    Text(Text),
    Now(R),
    Pre(R),
    NowVal(R),
    PreVal(R),
    Arg(R),
    Not(Boxed<Expr<R>>),
    Neg(Boxed<Expr<R>>),
    Arith(Op, Boxed<Expr<R>>, Boxed<Expr<R>>),
    Compare(Rel, Boxed<Expr<R>>, Boxed<Expr<R>>),
    And(Boxed<Expr<R>>, Boxed<Expr<R>>),
    Or(Boxed<Expr<R>>, Boxed<Expr<R>>),
    Choose(Boxed<Expr<R>>, Boxed<Expr<R>>, Boxed<Expr<R>>),
}

/// The operators of arithmetic: `+`, `-`, `*`, `/` and `%`. `/` rounds towards zero, and `+` joins texts.
#[derive(Clone, Copy, PartialEq, Eq, Debug)]
pub enum Op {
    Add,
    Sub,
    Mul,
    Div,
    Rem,
}

/// The comparisons: `==`, `!=`, `<`, `<=`, `>` and `>=`.
#[derive(Clone, Copy, PartialEq, Eq, Debug)]
pub enum Rel {
    Eq,
    Ne,
    Lt,
    Le,
    Gt,
    Ge,
}

/// Whether two expressions are the same, positions included.
#[cycle(same)]
pub fn same_expr(a: &Expr<u32>, b: &Expr<u32>) -> bool
    ensures { IsTrue result ↔ (a.now ≡ b.now) }
{
    a.pos == b.pos && same_node(&a.node, &b.node)
}

#[cycle(same)]
fn same_node(a: &ExprNode<u32>, b: &ExprNode<u32>) -> bool
    ensures { IsTrue result ↔ (a.now ≡ b.now) }
{
    match (a, b) {
        (ExprNode::Int(a), ExprNode::Int(b)) => a == b,
        (ExprNode::Bool(a), ExprNode::Bool(b)) => a == b,
        (ExprNode::Text(a), ExprNode::Text(b)) => same_text(a, b),
        (ExprNode::Now(a), ExprNode::Now(b)) => a == b,
        (ExprNode::Pre(a), ExprNode::Pre(b)) => a == b,
        (ExprNode::NowVal(a), ExprNode::NowVal(b)) => a == b,
        (ExprNode::PreVal(a), ExprNode::PreVal(b)) => a == b,
        (ExprNode::Arg(a), ExprNode::Arg(b)) => a == b,
        (ExprNode::Not(a), ExprNode::Not(b)) => same_part(a, b),
        (ExprNode::Neg(a), ExprNode::Neg(b)) => same_part(a, b),
        (ExprNode::Arith(op, a, b), ExprNode::Arith(other, c, d)) => {
            op == other && same_part(a, c) && same_part(b, d)
        }
        (ExprNode::Compare(rel, a, b), ExprNode::Compare(other, c, d)) => {
            rel == other && same_part(a, c) && same_part(b, d)
        }
        (ExprNode::And(a, b), ExprNode::And(c, d)) => same_part(a, c) && same_part(b, d),
        (ExprNode::Or(a, b), ExprNode::Or(c, d)) => same_part(a, c) && same_part(b, d),
        (ExprNode::Choose(a, b, c), ExprNode::Choose(d, e, f)) => {
            same_part(a, d) && same_part(b, e) && same_part(c, f)
        }
        _ => false,
    }
}

#[cycle(same)]
fn same_part(a: &Boxed<Expr<u32>>, b: &Boxed<Expr<u32>>) -> bool
    ensures { IsTrue result ↔ (a.now ≡ b.now) }
{
    same_expr(a.get(), b.get())
}

/// A copy of the expression, positions included.
#[cycle(copy)]
pub fn copy_expr(alloc: Global, expr: &Expr<u32>) -> Result<Expr<u32>, NoMemory>
    ensures { IfOk result (λ e. e ≡ expr.now) }
{
    let node = match &expr.node {
        ExprNode::Int(number) => ExprNode::Int(*number),
        ExprNode::Bool(truth) => ExprNode::Bool(*truth),
        ExprNode::Text(text) => ExprNode::Text(text.copy(alloc)?),
        ExprNode::Now(signal) => ExprNode::Now(*signal),
        ExprNode::Pre(signal) => ExprNode::Pre(*signal),
        ExprNode::NowVal(signal) => ExprNode::NowVal(*signal),
        ExprNode::PreVal(signal) => ExprNode::PreVal(*signal),
        ExprNode::Arg(place) => ExprNode::Arg(*place),
        ExprNode::Not(a) => ExprNode::Not(copy_part(alloc, a)?),
        ExprNode::Neg(a) => ExprNode::Neg(copy_part(alloc, a)?),
        ExprNode::Arith(op, a, b) => {
            ExprNode::Arith(*op, copy_part(alloc, a)?, copy_part(alloc, b)?)
        }
        ExprNode::Compare(rel, a, b) => {
            ExprNode::Compare(*rel, copy_part(alloc, a)?, copy_part(alloc, b)?)
        }
        ExprNode::And(a, b) => ExprNode::And(copy_part(alloc, a)?, copy_part(alloc, b)?),
        ExprNode::Or(a, b) => ExprNode::Or(copy_part(alloc, a)?, copy_part(alloc, b)?),
        ExprNode::Choose(a, b, c) => {
            let a = copy_part(alloc, a)?;
            ExprNode::Choose(a, copy_part(alloc, b)?, copy_part(alloc, c)?)
        }
    };
    Ok(Expr {
        pos: expr.pos,
        node,
    })
}

#[cycle(copy)]
fn copy_part(alloc: Global, part: &Boxed<Expr<u32>>) -> Result<Boxed<Expr<u32>>, NoMemory>
    ensures { IfOk result (λ e. e ≡ part.now) }
{
    Ok(Boxed::new(alloc, copy_expr(alloc, part.get())?)?)
}
