//! A machine with its legal log, and the desk at which it takes answers from an inbox.
#![tactic(auto)]

pub mod closing;
pub mod desk;
pub mod laws;
pub mod logged;
mod logging;
mod looking;
pub mod origin;
mod story;
mod taking;
