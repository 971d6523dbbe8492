//! Kernel programs, where control rests in them, and what a reaction of one is.
#![tactic(auto)]

pub mod codes;
pub mod laws;
pub mod limits;
pub mod mark;
pub mod program;
pub mod term;
