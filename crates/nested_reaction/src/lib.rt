//! The statuses and the values of a reaction, solved one scope inside another as the definition goes, plainly
//! and slowly: each scope is walked three times, and each walk makes its bags anew.
#![tactic(auto)]

pub mod bag;
pub mod combination;
pub mod declared;
pub mod environment;
pub mod interface;
pub mod must_can;
pub mod walk;
