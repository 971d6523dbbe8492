//! Rounds over a flat table of statuses to a standstill: the interface of a reaction is solved, and the table
//! gives its step.
#![tactic(auto)]

mod opening;
mod round;
pub mod settle;
