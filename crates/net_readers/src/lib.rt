//! What reads what in nets: made once, and used in each reaction.
#![tactic(auto)]

pub mod readers;
