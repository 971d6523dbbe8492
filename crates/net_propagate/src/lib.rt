//! The least solution of nets in a reaction, by a work list.
#![tactic(auto)]

pub mod laws;
mod news;
mod nothing;
mod see;
pub mod settle;
mod step;
mod sweep;
pub mod task;
mod tell;
mod value;
pub mod watchers;
