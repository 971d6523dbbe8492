//! How much the expressions and texts of a statement count.

ghost use Rattle.std.specs.Prelude.{◌≡◌, ℕ, sum_by};
ghost use Rattle.host_expr.specs.Expression.{expression_of, optional_expression};
ghost use Rattle.host_expr.specs.Measures.{size_of_expression, text_blocks};
ghost use Rattle.hh_term.specs.Sizes.{size_of_optional, handler_blocks};
ghost use Rattle.module_tree.specs.declared.source.ExprAt.{ExprAt as AExprAt};
ghost use Rattle.kernel_expand.specs.Interpretation.{value_of};
ghost use Rattle.kernel_expand.specs.Measures.{counted, blocks_of_first, weight_of_async};

use hh_base::text::Text;
use hh_base::value::Value;
use host_expr::expr::{Expr, ExprNode, TEXT_BLOCK};
use module_tree::source::{AsyncNode, ExprAt};
use sqlite_items::Boxed;

fn blocks(text: &Text) -> u64
    ensures { result ≡ text_blocks text.now }
{
    text.len().div_ceil(TEXT_BLOCK) as u64
}

#[cycle(weight)]
fn of_expression(expr: &Expr<u32>) -> u64
    ensures { result ≡ counted (size_of_expression (expression_of expr.now)) }
{
    match &expr.node {
        ExprNode::Text(text) => blocks(text).saturating_add(1),
        ExprNode::Not(a) | ExprNode::Neg(a) => of_part(a).saturating_add(1),
        ExprNode::Arith(_, a, b) | ExprNode::Compare(_, a, b) => of_part(a)
            .saturating_add(of_part(b))
            .saturating_add(1),
        ExprNode::And(a, b) | ExprNode::Or(a, b) => of_part(a)
            .saturating_add(of_part(b))
            .saturating_add(1),
        ExprNode::Choose(a, b, c) => {
            let operands = of_part(a).saturating_add(of_part(b));
            operands.saturating_add(of_part(c)).saturating_add(1)
        }
        _ => 1,
    }
}

#[cycle(weight)]
fn of_part(part: &Boxed<Expr<u32>>) -> u64
    ensures { result ≡ counted (size_of_expression (expression_of part.now)) }
{
    of_expression(part.get())
}

/// One for each leaf and operator of a test, and one more for each 64 bytes of a literal text begun.
pub fn of_test(test: &ExprAt<u32>) -> u64
    ensures { result ≡ counted (size_of_expression (expression_of test.now.expr)) }
{
    of_expression(&test.expr)
}

/// The same of what is emitted, and 0 where nothing is.
pub fn of_value(value: &Option<ExprAt<u32>>) -> u64
    ensures { result ≡ counted (size_of_optional (optional_expression (value_of value.now))) }
{
    match value {
        None => 0,
        Some(value) => of_test(value),
    }
}

/// The blocks of 64 bytes of a first value.
pub fn of_first(first: &Option<Value>) -> u64
    ensures { result ≡ blocks_of_first first.now }
{
    match first {
        Some(Value::Text(text)) => blocks(text),
        _ => 0,
    }
}

fn of_handler(handler: &Option<Text>) -> u64
    ensures { result ≡ handler_blocks handler.now }
{
    match handler {
        None => 0,
        Some(text) => blocks(text),
    }
}

fn of_arguments(arguments: &[ExprAt<u32>]) -> u64
    ensures { result ≡ counted (sum_by (λ (x : AExprAt ℕ). size_of_expression (expression_of x.expr))
        arguments.now) }
{
    let mut weight: u64 = 0;
    for argument in arguments {
        weight = weight.saturating_add(of_test(argument));
    }
    weight
}

/// What the arguments and the handlers of an async site count.
pub fn of_site(node: &AsyncNode<u32>) -> u64
    ensures { result ≡ counted (weight_of_async node.now) }
{
    of_arguments(node.args.as_slice())
        .saturating_add(of_handler(&node.kill))
        .saturating_add(of_handler(&node.suspend))
        .saturating_add(of_handler(&node.resume))
}
