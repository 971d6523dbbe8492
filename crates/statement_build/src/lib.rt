//! What each statement of a linked text comes to in the kernel, but for its blocks, and what is numbered
//! meanwhile.
#![tactic(auto)]

pub mod around;
pub mod builder;
pub mod chain;
pub mod declarations;
pub mod innermost;
mod renaming;
pub mod shapes;
pub mod steps;
