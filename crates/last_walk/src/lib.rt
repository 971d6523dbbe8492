//! The last walk of a reaction, in which all is decided that it meets.
#![tactic(auto)]

pub mod completion;
pub mod instance;
pub mod last_pass;
pub mod touch;
pub mod walk;
pub mod whole;
