//! Whether kinds fit in nets.
#![tactic(auto)]

mod expression;
pub mod kinds;
mod line;
