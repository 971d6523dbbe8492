//! The printer of module texts: what is written of a source tree.
#![tactic(auto)]

pub mod print;
