//! What is known of a signal, and of an expression's value, within a reaction.

use hh_base::value::{FaultKind, Kind, Pos, Tri, Value};

/// A value that is unknown so far, known, or a fault at an operator's position.
#[derive(Drop)]
pub enum Cell {
    Unknown,
    Known(Value),
    Faulted(Pos, FaultKind),
}

/// A signal in a reaction: status and value now, and those of the previous reaction.
#[derive(Drop)]
pub struct SigCell {
    pub status: Tri,
    pub value: Cell,
    pub pre: bool,
    pub preval: Value,
}

/// What an expression reads: signals and parameters by their numbers.
#[derive(Drop)]
pub struct Cells {
    pub signals: Vec<SigCell>,
    pub args: Vec<Value>,
}

/// The kinds of what an expression reads.
#[derive(Drop)]
pub struct Scope {
    pub signals: Vec<Kind>,
    pub args: Vec<Kind>,
}
