//! Instances of asyncs: how answers enter them, and what a reaction does to them.
#![tactic(auto)]

pub mod answer;
pub mod change;
pub mod effect;
pub mod instance;
pub mod instances;
pub mod table;
