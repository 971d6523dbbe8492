//! One round of a reaction over a flat table of statuses, and what it is that rounds reach.
#![tactic(auto)]

pub mod declared;
pub mod laws;
pub mod state;
pub mod tally;
pub mod walk;
