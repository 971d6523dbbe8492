//! The parts of the lines of a net text, read one after the other.
#![tactic(auto)]

pub mod decode;
pub mod expression;
pub mod fault;
pub mod gate;
pub mod literal;
pub mod section;
pub mod signal;
pub mod unread;
pub mod word;
