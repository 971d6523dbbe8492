//! The tree of a module text, and the levels of its expressions.
#![tactic(auto)]

pub mod level;
pub mod limits;
pub mod linked;
pub mod source;
