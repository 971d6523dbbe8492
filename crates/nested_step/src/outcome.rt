//! How a reaction ends.

use crate::touches::Touch;
use hh_base::value::{FaultKind, Pos, Value};
use hh_term::mark::Control;

/// A signal of the interface: how many of its emissions ran, a given input among them, whether it is present, and its
/// value.
#[derive(Drop)]
pub struct Now {
    pub signal: u32,
    pub emissions: u64,
    pub status: bool,
    pub value: Value,
}

/// A reaction that completes: its interface, its code (none where the program had ended before), where control rests then
/// with the ids of the started instances, and its touches in rising site.
#[derive(Drop)]
pub struct Completed {
    pub signals: Vec<Now>,
    pub code: Option<u16>,
    pub next: Control,
    pub touches: Vec<Touch>,
}

/// How a reaction ends: these signals of the interface are undecided, or none of them but one in it; a signal was emitted
/// twice without a combine word; a fault; or it completes.
#[derive(Drop)]
pub enum Outcome {
    Undecided(Vec<u32>),
    Doubled(u32),
    Faulted(Pos, FaultKind),
    Completes(Completed),
}
