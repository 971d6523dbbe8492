//! How a call on a shared machine ends without an answer.

/// The seat has no turn left, and nothing was done; or memory ran out in the turn, and there is no entry of it.
#[derive(Drop)]
pub enum TurnEnd {
    Spent,
    NoMemory,
}
