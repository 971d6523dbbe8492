//! Programs of any size with their scenarios, as load for measurements.
#![tactic(auto)]

pub mod make;
