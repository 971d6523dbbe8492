//! Expressions in prefix form.
ghost use Rattle.std.specs.Prelude.{◌≡◌, ◌++◌, OnOk};
ghost use Rattle.std.specs.List.{flat_map};
ghost use Rattle.hh_base.specs.Literal.{printed, quoted};
ghost use Rattle.host_expr.specs.Expression.{expression_of};
ghost use Rattle.net_text.specs.Parts.{spaced, number, counted};
ghost use Rattle.net_text.specs.ExpressionText.{op_word, rel_word, placed_word, node_word};
ghost use Rattle.net_text.specs.Lines.{written};

use crate::part::{write_count, write_first_number, write_number, write_part};
use hh_base::literal::{print_literal, quote};
use hh_base::value::{NoMemory, Pos, Value};
use host_expr::expr::{Expr, ExprNode, Op, Rel};
use sqlite_items::Boxed;

fn op_word(op: Op) -> &'static [u8]
    ensures { result.now ≡ op_word op }
{
    match op {
        Op::Add => b"add",
        Op::Sub => b"sub",
        Op::Mul => b"mul",
        Op::Div => b"div",
        Op::Rem => b"rem",
    }
}

fn rel_word(rel: Rel) -> &'static [u8]
    ensures { result.now ≡ rel_word rel }
{
    match rel {
        Rel::Eq => b"eq",
        Rel::Ne => b"ne",
        Rel::Lt => b"lt",
        Rel::Le => b"le",
        Rel::Gt => b"gt",
        Rel::Ge => b"ge",
    }
}

/// Adds a space and an operator with its place.
fn write_placed(word: &[u8], pos: Pos, out: &mut Vec<u8>) -> Result<(), NoMemory>
    ensures { OnOk result (out.new.items ≡ out.old.items ++ spaced (placed_word word.now pos)) }
{
    write_part(word, out)?;
    out.push(b'@')?;
    write_first_number(pos.0, out)
}

/// Adds a space, a word, a space and the number of what it reads.
fn write_read(word: &[u8], place: u32, out: &mut Vec<u8>) -> Result<(), NoMemory>
    ensures { OnOk result (out.new.items ≡ out.old.items ++ spaced (word.now ++ number place)) }
{
    write_part(word, out)?;
    write_number(place, out)
}

/// Adds a space and the literal of a value that no one owns.
fn write_literal_of(value: Value, out: &mut Vec<u8>) -> Result<(), NoMemory>
    ensures { OnOk result (out.new.items ≡ out.old.items ++ spaced (printed value)) }
{
    out.push(b' ')?;
    print_literal(*out.allocator(), &value, out)
}

/// Adds a space and a text in quotes.
fn write_quoted(text: &[u8], out: &mut Vec<u8>) -> Result<(), NoMemory>
    ensures { OnOk result (out.new.items ≡ out.old.items ++ spaced (quoted text.now)) }
{
    let literal = quote(*out.allocator(), text)?;
    write_part(&literal, out)
}

/// Adds what stands for a node before its operands.
fn write_node(expr: &Expr<u32>, out: &mut Vec<u8>) -> Result<(), NoMemory>
    ensures { OnOk result (out.new.items ≡ out.old.items ++ spaced (node_word (expression_of expr.now))) }
{
    match &expr.node {
        ExprNode::Int(number) => write_literal_of(Value::Int(*number), out),
        ExprNode::Bool(truth) => write_literal_of(Value::Bool(*truth), out),
        ExprNode::Text(text) => write_quoted(text.as_bytes(), out),
        ExprNode::Now(signal) => write_read(b"now", *signal, out),
        ExprNode::Pre(signal) => write_read(b"pre", *signal, out),
        ExprNode::NowVal(signal) => write_read(b"nowval", *signal, out),
        ExprNode::PreVal(signal) => write_read(b"preval", *signal, out),
        ExprNode::Arg(place) => write_read(b"arg", *place, out),
        ExprNode::Not(_) => write_part(b"not", out),
        ExprNode::Neg(_) => write_placed(b"neg", expr.pos, out),
        ExprNode::Arith(op, _, _) => write_placed(op_word(*op), expr.pos, out),
        ExprNode::Compare(rel, _, _) => write_part(rel_word(*rel), out),
        ExprNode::And(_, _) => write_part(b"all", out),
        ExprNode::Or(_, _) => write_part(b"any", out),
        ExprNode::Choose(_, _, _) => write_part(b"choose", out),
    }
}

/// Adds an expression.
#[cycle(expression)]
pub(crate) fn write_expression(expr: &Expr<u32>, out: &mut Vec<u8>) -> Result<(), NoMemory>
    ensures { OnOk result (out.new.items ≡ out.old.items ++ written expr.now) }
{
    write_node(expr, out)?;
    match &expr.node {
        ExprNode::Not(a) | ExprNode::Neg(a) => write_operand(a, out),
        ExprNode::Arith(_, a, b) | ExprNode::Compare(_, a, b) => {
            write_operand(a, out)?;
            write_operand(b, out)
        }
        ExprNode::And(a, b) | ExprNode::Or(a, b) => {
            write_operand(a, out)?;
            write_operand(b, out)
        }
        ExprNode::Choose(a, b, c) => {
            write_operand(a, out)?;
            write_operand(b, out)?;
            write_operand(c, out)
        }
        _ => Ok(()),
    }
}

#[cycle(expression)]
fn write_operand(operand: &Boxed<Expr<u32>>, out: &mut Vec<u8>) -> Result<(), NoMemory>
    ensures { OnOk result (out.new.items ≡ out.old.items ++ written operand.now) }
{
    write_expression(operand.get(), out)
}

fn write_each(exprs: &[Expr<u32>], out: &mut Vec<u8>) -> Result<(), NoMemory>
    ensures { OnOk result (out.new.items ≡ out.old.items ++ flat_map written exprs.now) }
{
    for expr in exprs {
        write_expression(expr, out)?;
    }
    Ok(())
}

/// Adds how many expressions there are, and the expressions.
pub(crate) fn write_expressions(exprs: &[Expr<u32>], out: &mut Vec<u8>) -> Result<(), NoMemory>
    ensures { OnOk result (out.new.items ≡ out.old.items ++ counted written exprs.now) }
{
    write_count(exprs.len(), out)?;
    write_each(exprs, out)
}
