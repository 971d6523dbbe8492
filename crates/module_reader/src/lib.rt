//! The reader of module texts: their grammar, and the tree or the first fault of a text.
#![tactic(auto)]

mod declarations;
mod delays;
pub mod fault;
mod lists;
mod parts;
pub mod read;
mod statements;
