//! The graph of runs of a module text: which runs lie on a cycle, and an order in which callees come first.
#![tactic(auto)]

pub mod callers;
pub mod components;
pub mod flood;
pub mod search;
