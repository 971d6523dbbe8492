//! What is told of instances.

use hh_base::text::Text;
use hh_base::value::{Value, Values};

/// Why an answer did not enter.
#[derive(Clone, Copy, PartialEq, Eq, Debug)]
pub enum Reason {
    /// No instance runs with its id any more.
    Stale,
    /// Its id was never given.
    Unknown,
    /// Its instance has a last answer already.
    Repeated,
    /// Its value is not of the kind that the body answers, or it is a partial answer and none are taken.
    Mistyped,
}

/// An effect of an accepted reaction on an instance or an answer, by id: an answer that did not enter and why;
/// the value that an instance used and goes on, or ended with; that it was killed, suspended or resumed, with
/// the action that its async names; that it was started, with the place of its body and its arguments.
#[derive(Drop)]
pub enum Effect {
    Dropped(u64, Reason),
    More(u64, Value),
    Ended(u64, Value),
    Killed(u64, Option<Text>),
    Suspended(u64, Option<Text>),
    Resumed(u64, Option<Text>),
    Started(u64, u32, Values),
}
