//! Expressions over signals: their tree, their kinds and what they evaluate to.
#![tactic(auto)]

mod arithmetic;
pub mod cell;
pub mod check;
pub mod eval;
pub mod expr;
pub mod laws;
mod part;
