//! A machine that threads share in turns, with one legal history.
#![tactic(auto)]

pub mod calls;
pub mod closing;
pub mod ends;
mod jobs;
pub mod opening;
pub mod shared;
