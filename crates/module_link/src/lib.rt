//! A text without faults of names, kinds and runs, with each name replaced by the place of what it means.
#![tactic(auto)]

pub mod copies;
pub mod expressions;
pub mod leaves;
pub mod places;
pub mod runs;
pub mod tables;
pub mod text;
