//! The operators of expressions, and what a name in one stands for.
ghost use Rattle.std.specs.Prelude.{◌≡◌, Some, IfOk};
ghost use Rattle.expression_reader.specs.Trees as tree;

use hh_base::name::Name;
use hh_base::value::Pos;
use host_expr::expr::{Expr, ExprNode, Op, Rel};
use sqlite_items::Boxed;
use std::alloc::{AllocError, Global};

/// The levels at which operators of two operands group to the left, from the loosest.
#[derive(Clone, Copy, PartialEq, Eq, Debug)]
pub enum Grouping {
    Either,
    Both,
    Sum,
    Product,
}

/// An operator of two operands.
#[derive(Clone, Copy, PartialEq, Eq, Debug)]
pub enum Operator {
    Arith(Op),
    Compare(Rel),
    And,
    Or,
}

/// What a name in an expression stands for: by the word behind its dot, or a parameter.
#[derive(Clone, Copy, PartialEq, Eq, Debug)]
pub enum Access {
    Now,
    Pre,
    NowVal,
    PreVal,
    Parameter,
}

impl Access {
    /// The node that it makes of this name.
    pub fn of(self, name: Name) -> ExprNode<Name>
        ensures { result ≡ tree.accessed self name }
    {
        match self {
            Access::Now => ExprNode::Now(name),
            Access::Pre => ExprNode::Pre(name),
            Access::NowVal => ExprNode::NowVal(name),
            Access::PreVal => ExprNode::PreVal(name),
            Access::Parameter => ExprNode::Arg(name),
        }
    }
}

/// The node of an expression at this place.
pub fn node(pos: u32, node: ExprNode<Name>) -> Expr<Name>
    ensures { result ≡ tree.node pos node }
{
    Expr {
        pos: Pos(pos),
        node,
    }
}

/// The operator at its place, between its operands.
pub fn apply(
    alloc: Global,
    left: Expr<Name>,
    operator: (u32, Operator),
    right: Expr<Name>,
) -> Result<Expr<Name>, AllocError>
    ensures { IfOk result (λ e. e ≡ tree.applied left (operator, right)) }
{
    let left = Boxed::new(alloc, left)?;
    let right = Boxed::new(alloc, right)?;
    let (pos, operator) = operator;
    let applied = match operator {
        Operator::Arith(op) => ExprNode::Arith(op, left, right),
        Operator::Compare(rel) => ExprNode::Compare(rel, left, right),
        Operator::And => ExprNode::And(left, right),
        Operator::Or => ExprNode::Or(left, right),
    };
    Ok(node(pos, applied))
}

/// The choice whose `?` stands at this place.
pub fn choose(
    alloc: Global,
    test: Expr<Name>,
    pos: u32,
    then: Expr<Name>,
    other: Expr<Name>,
) -> Result<Expr<Name>, AllocError>
    ensures { IfOk result (λ e. e ≡ tree.chosen test (Some (pos, then, other))) }
{
    let test = Boxed::new(alloc, test)?;
    let then = Boxed::new(alloc, then)?;
    let other = Boxed::new(alloc, other)?;
    Ok(node(pos, ExprNode::Choose(test, then, other)))
}
