//! The least solution of nets in a reaction: the equations of gates and of signals' values, and the plain
//! way to their least solution, by rounds.
#![tactic(auto)]

pub mod expression;
pub mod gate;
pub mod laws;
pub mod question;
pub mod rounds;
pub mod signal;
pub mod valuation;
