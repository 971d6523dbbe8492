//! Answers that many threads post and one takes, in the order in which they were posted.
#![tactic(auto)]

pub mod limits;
pub mod passes;
pub mod posting;
mod steps;
pub mod taking;
pub mod view;
