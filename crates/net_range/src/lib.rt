//! Whether each place that nets name is there.
#![tactic(auto)]

mod line;
pub mod range;
mod reads;
