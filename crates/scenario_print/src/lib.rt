//! The print of what a machine answers, in scenarios of the whole language.
#![tactic(auto)]

pub mod print;
