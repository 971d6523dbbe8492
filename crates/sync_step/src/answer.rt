//! What a reaction answers.

use hh_base::name::Name;
use hh_base::value::{FaultKind, Pos, Value};
use hh_term::mark::Control;
use last_walk::touch::Touch;

/// A signal of the interface in a reaction: how many of its emissions ran, a given input among them, whether it
/// is present, and its value.
#[derive(Drop)]
pub struct SignalNow {
    pub signal: u32,
    pub emissions: u64,
    pub status: bool,
    pub value: Value,
}

/// What a program did. Where `multiple` or `fault` tells something the reaction is refused, by the first of
/// the two that does.
#[derive(Drop)]
pub struct Stepped {
    /// The interface, in order of declaration.
    pub signals: Vec<SignalNow>,
    /// The completion code. None where the program had ended before.
    pub code: Option<u16>,
    /// Where control rests. The instances that were started and run after have their ids.
    pub next: Control,
    /// In rising site. Those of one site stand in the order of their incarnations, a resumed one first.
    pub touches: Vec<Touch>,
    /// Of the signals that were emitted twice without a combine word, the name of that declared first.
    pub multiple: Option<Name>,
    /// The first fault by position, there by kind.
    pub fault: Option<(Pos, FaultKind)>,
}

/// How a reaction ends.
#[derive(Drop)]
pub enum StepEnd {
    /// The undecided signals of the interface, in order of declaration. There are none where it is a local
    /// signal, or what rests on one, that is undecided.
    Undecided(Vec<u32>),
    Stepped(Stepped),
}
