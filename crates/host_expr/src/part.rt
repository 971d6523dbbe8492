//! What a part of an expression gives while the whole is evaluated.

ghost use Rattle.std.specs.Prelude.{◌≡◌, IfOk};
ghost use Rattle.std.specs.Option.{option_copied};
ghost use Rattle.host_expr.specs.Evaluation.{truth};
ghost use Rattle.host_expr.specs.Parts.{value_of, cell_of, text_in};

use crate::cell::Cell;
use hh_base::memory::NoMemory;
use hh_base::text::Text;
use hh_base::value::{FaultKind, Pos, Value};
use std::alloc::Global;

/// A value. A text is lent by what holds it, or owned where it was joined.
#[derive(Drop)]
pub(crate) enum Datum<'a> {
    Unit,
    Int(i64),
    Bool(bool),
    Lent(&'a Text),
    Joined(Text),
}

/// As `Cell`, with a value that may be lent.
#[derive(Drop)]
pub(crate) enum Part<'a> {
    Unknown,
    Known(Datum<'a>),
    Faulted(Pos, FaultKind),
}

/// The value where it lies.
pub(crate) fn lent(value: &Value) -> Datum<'_>
    ensures { value_of result ≡ value.now }
{
    match value {
        Value::Unit => Datum::Unit,
        Value::Int(number) => Datum::Int(*number),
        Value::Bool(truth) => Datum::Bool(*truth),
        Value::Text(text) => Datum::Lent(text),
    }
}

/// The cell where it lies.
pub(crate) fn lent_cell(cell: &Cell) -> Part<'_>
    ensures { cell_of result ≡ cell.now }
{
    match cell {
        Cell::Unknown => Part::Unknown,
        Cell::Known(value) => Part::Known(lent(value)),
        Cell::Faulted(pos, kind) => Part::Faulted(*pos, *kind),
    }
}

impl<'a> Datum<'a> {
    pub(crate) fn truth(&self) -> bool
        ensures { result ≡ truth (value_of self.now) }
    {
        match self {
            Datum::Bool(truth) => *truth,
            _ => false,
        }
    }

    pub(crate) fn text(&self) -> Option<&Text>
        ensures { option_copied result ≡ text_in (value_of self.now) }
    {
        match self {
            Datum::Lent(text) => Some(text),
            Datum::Joined(text) => Some(text),
            _ => None,
        }
    }

    /// The value on its own. A text that was lent is copied.
    fn into_value(self, alloc: Global) -> Result<Value, NoMemory>
        ensures { IfOk result (λ v. v ≡ value_of self.entry) }
    {
        Ok(match self {
            Datum::Unit => Value::Unit,
            Datum::Int(number) => Value::Int(number),
            Datum::Bool(truth) => Value::Bool(truth),
            Datum::Lent(text) => Value::Text(text.copy(alloc)?),
            Datum::Joined(text) => Value::Text(text),
        })
    }
}

impl<'a> Part<'a> {
    /// The cell on its own. A text that was lent is copied.
    pub(crate) fn into_cell(self, alloc: Global) -> Result<Cell, NoMemory>
        ensures { IfOk result (λ c. c ≡ cell_of self.entry) }
    {
        Ok(match self {
            Part::Unknown => Cell::Unknown,
            Part::Known(datum) => Cell::Known(datum.into_value(alloc)?),
            Part::Faulted(pos, kind) => Cell::Faulted(pos, kind),
        })
    }
}
