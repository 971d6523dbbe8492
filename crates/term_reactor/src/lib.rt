//! The machine on terms of the code, a reactor whose step is the constructive semantics.
#![tactic(auto)]

mod ending;
mod kills;
pub mod machine;
mod reaction;
mod stand;
