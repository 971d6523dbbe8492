//! Laws of copied programs: what they do is what the programs do.
#![tactic(auto)]

pub mod laws;
