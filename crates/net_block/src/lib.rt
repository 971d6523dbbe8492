//! The gates and records of statements.
#![tactic(auto)]

pub mod codes;
pub mod drawing;
pub mod ends;
pub mod number;
pub mod rows;
pub mod sites;
pub mod written;
