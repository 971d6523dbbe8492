//! The tree of a text without faults, with its names resolved.
#![tactic(auto)]

mod callees;
pub mod link;
pub mod resolve;
mod scopes;
mod statements;
mod walk;
