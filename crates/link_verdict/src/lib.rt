//! The verdict on a module text: the first fault of names, kinds and runs, or none.
#![tactic(auto)]

pub mod blocks;
pub mod cycles;
pub mod first;
pub mod modules;
