//! Arithmetic and comparison of values.

ghost use Rattle.std.specs.Prelude.{◌≡◌, IfOk};
ghost use Rattle.std.specs.Option.{option_copied};
ghost use Rattle.hh_base.specs.declared.value.Pos.{Pos as APos};
ghost use Rattle.hh_base.specs.declared.value.Value.TheVariants as value;
ghost use Rattle.host_expr.specs.declared.expr.Op.TheVariants.{Add};
ghost use Rattle.host_expr.specs.Evaluation.{calculated, joined, arith, negated, is_before, same_value};
ghost use Rattle.host_expr.specs.Evaluation.{compared};
ghost use Rattle.host_expr.specs.Parts.{value_of, cell_of, added, number_or_fault};

use crate::expr::{Op, Rel};
use crate::part::{Datum, Part};
use hh_base::memory::NoMemory;
use hh_base::text::{TEXT_LIMIT, Text, same_text};
use hh_base::value::{FaultKind, Pos};
use std::alloc::Global;

/// What the operator makes of two numbers, or why it makes nothing.
fn calculated(op: Op, left: i64, right: i64) -> Result<i64, FaultKind>
    ensures { (p : APos) → number_or_fault p result ≡ calculated p op left right }
{
    let number = match op {
        Op::Add => left.checked_add(right),
        Op::Sub => left.checked_sub(right),
        Op::Mul => left.checked_mul(right),
        Op::Div => {
            if right == 0 {
                return Err(FaultKind::Divide);
            }
            left.checked_div(right)
        }
        Op::Rem => {
            if right == 0 {
                return Err(FaultKind::Divide);
            }
            left.checked_rem(right)
        }
    };
    number.ok_or(FaultKind::Overflow)
}

fn number_part<'a>(pos: Pos, number: Result<i64, FaultKind>) -> Part<'a>
    ensures { cell_of result ≡ number_or_fault pos number }
{
    match number {
        Ok(number) => Part::Known(Datum::Int(number)),
        Err(kind) => Part::Faulted(pos, kind),
    }
}

fn calculate<'a>(pos: Pos, op: Op, left: i64, right: &Datum<'_>) -> Part<'a>
    ensures { cell_of result ≡ arith pos op (value.Int left) (value_of right.now) }
{
    match right {
        Datum::Int(right) => number_part(pos, calculated(op, left, *right)),
        Datum::Unit | Datum::Bool(_) | Datum::Lent(_) | Datum::Joined(_) => Part::Unknown,
    }
}

/// A lent text and the other.
fn join_lent<'a>(alloc: Global, pos: Pos, left: &Text, right: &Text) -> Result<Part<'a>, NoMemory>
    ensures { IfOk result (λ r. cell_of r ≡ joined pos Add left.now right.now) }
{
    if left.len() + right.len() > TEXT_LIMIT {
        return Ok(Part::Faulted(pos, FaultKind::TextLong));
    }
    Ok(Part::Known(Datum::Joined(left.join(alloc, right)?)))
}

/// An owned text and the other, which is added in place.
fn join_owned<'a>(pos: Pos, left: Text, right: &Text) -> Result<Part<'a>, NoMemory>
    ensures { IfOk result (λ r. cell_of r ≡ joined pos Add left right.now) }
{
    if left.len() + right.len() > TEXT_LIMIT {
        return Ok(Part::Faulted(pos, FaultKind::TextLong));
    }
    let mut text = left;
    text.append(right)?;
    Ok(Part::Known(Datum::Joined(text)))
}

/// The text that is added, where the operator is `+` and the value a text.
fn added<'a>(op: Op, value: &'a Datum<'_>) -> Option<&'a Text>
    ensures { option_copied result ≡ added op (value_of value.now) }
{
    match op {
        Op::Add => value.text(),
        Op::Sub | Op::Mul | Op::Div | Op::Rem => None,
    }
}

/// What the operator makes of two values.
pub(crate) fn arith<'a>(
    alloc: Global,
    pos: Pos,
    op: Op,
    left: Datum<'a>,
    right: &Datum<'_>,
) -> Result<Part<'a>, NoMemory>
    ensures { IfOk result (λ r. cell_of r ≡ arith pos op (value_of left.entry) (value_of right.now)) }
{
    match left {
        Datum::Int(left) => Ok(calculate(pos, op, left, right)),
        Datum::Lent(left) => match added(op, right) {
            Some(right) => join_lent(alloc, pos, left, right),
            None => Ok(Part::Unknown),
        },
        Datum::Joined(left) => match added(op, right) {
            Some(right) => join_owned(pos, left, right),
            None => Ok(Part::Unknown),
        },
        Datum::Unit | Datum::Bool(_) => Ok(Part::Unknown),
    }
}

/// The value with its sign turned.
pub(crate) fn negate<'a>(pos: Pos, datum: &Datum<'_>) -> Part<'a>
    ensures { cell_of result ≡ negated pos (value_of datum.now) }
{
    match datum {
        Datum::Int(number) => number_part(pos, number.checked_neg().ok_or(FaultKind::Overflow)),
        Datum::Unit | Datum::Bool(_) | Datum::Lent(_) | Datum::Joined(_) => Part::Unknown,
    }
}

fn is_before(left: &Datum<'_>, right: &Datum<'_>) -> bool
    ensures { result ≡ is_before (value_of left.now) (value_of right.now) }
{
    match (left, right) {
        (Datum::Int(left), Datum::Int(right)) => left < right,
        _ => false,
    }
}

fn is_text(datum: &Datum<'_>, text: &Text) -> bool
    ensures { result ≡ same_value (value.Text text.now) (value_of datum.now) }
{
    match datum.text() {
        Some(other) => same_text(text, other),
        None => false,
    }
}

fn is_same(left: &Datum<'_>, right: &Datum<'_>) -> bool
    ensures { result ≡ same_value (value_of left.now) (value_of right.now) }
{
    match left {
        Datum::Unit => matches!(right, Datum::Unit),
        Datum::Int(left) => matches!(right, Datum::Int(right) if left == right),
        Datum::Bool(left) => matches!(right, Datum::Bool(right) if left == right),
        Datum::Lent(text) => is_text(right, text),
        Datum::Joined(text) => is_text(right, text),
    }
}

/// Whether the two values are as the comparison says.
pub(crate) fn compare(rel: Rel, left: &Datum<'_>, right: &Datum<'_>) -> bool
    ensures { result ≡ compared rel (value_of left.now) (value_of right.now) }
{
    match rel {
        Rel::Eq => is_same(left, right),
        Rel::Ne => !is_same(left, right),
        Rel::Lt => is_before(left, right),
        Rel::Le => !is_before(right, left),
        Rel::Gt => is_before(right, left),
        Rel::Ge => !is_before(left, right),
    }
}
