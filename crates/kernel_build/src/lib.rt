//! Writing the expansion of a linked text out as a kernel program.
#![tactic(auto)]

pub mod expand;
mod laws;
mod refused;
mod walk;
