//! Scenarios played on a machine, whatever its step is.
#![tactic(auto)]

mod line;
pub mod play;
