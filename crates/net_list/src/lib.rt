//! Nets: gates and registers with the signals, tests, emissions and async sites that they stand for.
#![tactic(auto)]

pub mod gate;
pub mod nets;
pub mod record;
