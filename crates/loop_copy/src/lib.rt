//! Programs in which each loop's body stands twice, so that no signal has two incarnations in one reaction.
#![tactic(auto)]

pub mod copied;
mod copier;
mod declarations;
pub mod laws;
pub mod program;
mod renaming;
