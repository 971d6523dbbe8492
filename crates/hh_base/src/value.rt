//! Kinds and values of signals.
ghost use Rattle.std.specs.Prelude.{◌≡◌, ◌↔◌, IsTrue, IfOk};
ghost use Rattle.hh_base.specs.Value.{kind_of, default_of};

use crate::text::{Text, same_text};
use sqlite_items::Items;
use std::alloc::Global;

/// A place in the input: the number of bytes before it.
#[derive(Clone, Copy, PartialEq, Eq, PartialOrd, Ord, Debug)]
pub struct Pos(pub u32);

pub use crate::memory::NoMemory;

/// What values a signal carries.
#[derive(Clone, Copy, PartialEq, Eq, Debug)]
pub enum Kind {
    Pure,
    Int,
    Bool,
    Text,
}

/// Who emits a signal: the environment, the program, both, or the program behind its interface.
#[derive(Clone, Copy, PartialEq, Eq, Debug)]
pub enum Dir {
    Input,
    Output,
    Both,
    Local,
}

/// A value of a signal. `Unit` is the one value of a pure signal.
#[derive(Drop)]
pub enum Value {
    Unit,
    Int(i64),
    Bool(bool),
    Text(Text),
}

impl Value {
    /// The kind of the signals that carry the value.
    pub fn kind(&self) -> Kind
        ensures { result ≡ kind_of self.now }
    {
        match self {
            Value::Unit => Kind::Pure,
            Value::Int(_) => Kind::Int,
            Value::Bool(_) => Kind::Bool,
            Value::Text(_) => Kind::Text,
        }
    }

    /// A value of its own that is the same.
    pub fn copy(&self, alloc: Global) -> Result<Value, NoMemory>
        ensures { IfOk result (λ v. v ≡ self.now) }
    {
        Ok(match self {
            Value::Unit => Value::Unit,
            Value::Int(number) => Value::Int(*number),
            Value::Bool(truth) => Value::Bool(*truth),
            Value::Text(text) => Value::Text(text.copy(alloc)?),
        })
    }
}

/// What a signal of the kind counts as where it has no value: 0, false, the empty text.
pub fn default_of(alloc: Global, kind: Kind) -> Value
    ensures { result ≡ default_of kind }
{
    match kind {
        Kind::Pure => Value::Unit,
        Kind::Int => Value::Int(0),
        Kind::Bool => Value::Bool(false),
        Kind::Text => Value::Text(Text::empty(alloc)),
    }
}

/// Whether two values are the same.
pub fn same_value(a: &Value, b: &Value) -> bool
    ensures { IsTrue result ↔ (a.now ≡ b.now) }
{
    match (a, b) {
        (Value::Unit, Value::Unit) => true,
        (Value::Int(a), Value::Int(b)) => a == b,
        (Value::Bool(a), Value::Bool(b)) => a == b,
        (Value::Text(a), Value::Text(b)) => same_text(a, b),
        _ => false,
    }
}

/// Why an expression or a combination has no value.
#[derive(Clone, Copy, PartialEq, Eq, Debug)]
pub enum FaultKind {
    Divide,
    Overflow,
    TextLong,
}

/// How several emissions of one signal in one reaction make one value.
#[derive(Clone, Copy, PartialEq, Eq, Debug)]
pub enum CombineWord {
    Plus,
    Min,
    Max,
    And,
    Or,
}

/// A status in three-valued logic.
#[derive(Clone, Copy, PartialEq, Eq, Debug)]
pub enum Tri {
    Unknown,
    Zero,
    One,
}

/// Values in order. Contracts see the list.
pub type Values = Items<Value>;

/// A copy of the values, in their order.
pub fn copy_values(alloc: Global, values: &[Value]) -> Result<Values, NoMemory>
    ensures { IfOk result (λ v. v ≡ values.now) }
{
    let mut copies = Vec::with_capacity(alloc, values.len())?;
    for value in values {
        copies.push(value.copy(alloc)?)?;
    }
    Ok(Items::from_vec(copies))
}
