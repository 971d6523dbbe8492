//! The text of nets: what it is, and the writing of it.
#![tactic(auto)]

mod expression;
mod line;
mod part;
pub mod write;
