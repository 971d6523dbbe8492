//! The lines of a net text for bodies, tests, emissions and async sites.
#![tactic(auto)]

pub mod body;
pub mod exec;
pub mod part;
pub mod sent;
