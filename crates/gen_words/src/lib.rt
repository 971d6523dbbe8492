//! The words of the command `gen`.
#![tactic(auto)]

pub mod order;
