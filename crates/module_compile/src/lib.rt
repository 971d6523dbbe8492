//! From a module text to a kernel program: read, linked and expanded.
#![tactic(auto)]

pub mod compile;
pub mod fault;
