//! Where bytes come from and where they go: sources and sinks that may fail, and how a whole input is
//! read and a whole text is put.
#![tactic(auto)]

mod calls;
pub mod fault;
pub mod memory;
pub mod sink;
pub mod source;
pub mod standard;
pub mod sure;
#[cfg(test)]
mod tests;
