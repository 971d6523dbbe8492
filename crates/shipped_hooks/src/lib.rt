//! The two hooks of the program as it is shipped, put into a table by whoever holds their closures.
#![tactic(auto)]

pub mod store;
