//! What all crates speak of: kinds, values, names and the words of a command line.
#![tactic(auto)]

pub mod command_line;
pub mod item;
pub mod keyword;
pub mod literal;
pub mod memory;
pub mod name;
pub mod text;
pub mod value;
