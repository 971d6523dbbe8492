//! The emissions of one signal in one reaction, and the value that they combine to.
#![tactic(auto)]

pub mod bag;
pub mod combination;
pub mod laws;
