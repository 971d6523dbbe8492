//! What a seat knows. It stands in proofs alone, and no value of it is made.
use std::collections::LinkedList;

/// Where a seat stands: outside of a turn, with a ticket that is not served yet, or in turn.
pub enum Stage<E> {
    Outside,
    Waiting(u64),
    /// Its ticket, and the history before the turn.
    InTurn(u64, LinkedList<E>),
}

/// What a seat knows.
pub struct SeatView<E, B> {
    /// From what the history begins. None where the seat was joined into another.
    pub start: Option<B>,
    /// The history as far as the seat has seen it.
    pub seen: LinkedList<E>,
    /// The places of the entries that were made in turns of the seat, in rising order.
    pub mine: LinkedList<u64>,
    /// How many turns are left to it.
    pub allowance: u64,
    /// How many turns it has spent.
    pub spent: u64,
    pub stage: Stage<E>,
    /// What both seats of a join had seen, until the next load tells that it begins what was seen.
    pub note: LinkedList<LinkedList<E>>,
}
