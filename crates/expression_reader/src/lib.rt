//! The reader of the tokens of a module text, and of the expressions in it.
#![tactic(auto)]

pub mod cursor;
mod expressions;
pub mod fault;
mod operator;
pub mod terminal;
mod tokens_left;
