//! The commands of `hiphop`.
#![tactic(auto)]

mod bodies;
pub mod command;
pub mod ending;
pub mod generator;
pub mod limits;
pub mod play;
mod ready;
mod refusal;
mod script;
mod split;
mod summary;
