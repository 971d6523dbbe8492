//! The order of touches, and the ids of started instances.
#![tactic(auto)]

pub mod ids;
pub mod order;
