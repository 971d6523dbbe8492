//! Uses of turns and of an inbox by several threads, and their tests.
#![tactic(auto)]

pub mod adding;
#[cfg(test)]
mod inboxes;
pub mod posting;
pub mod tally;
#[cfg(test)]
mod turns;
