//! Scenarios of the whole language: the lines that a machine is given.
#![tactic(auto)]

mod command;
mod cut;
mod interface;
pub mod line;
mod lines;
mod literals;
mod parts;
pub mod read;
