//! The machine on terms: its step is the constructive semantics.
#![tactic(auto)]

pub mod laws;
pub mod queues;
