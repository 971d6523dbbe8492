//! Events of a machine, its replies, runs of events and logs, and the laws of every run.
#![tactic(auto)]

mod apart;
pub mod event;
pub mod interface;
pub mod laws;
pub mod log;
pub mod lookup;
pub mod reactor;
pub mod reply;
