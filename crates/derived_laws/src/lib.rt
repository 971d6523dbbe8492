//! The direct rule of each statement that is not of the kernel.
#![tactic(auto)]

pub mod laws;
