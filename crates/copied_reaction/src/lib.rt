//! Laws of the reactions of copied programs.
#![tactic(auto)]

pub mod laws;
