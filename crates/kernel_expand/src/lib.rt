//! The expansion of linked module texts to the kernel.
#![tactic(auto)]

mod blocks;
pub mod fault;
pub mod forms;
pub mod laws;
pub mod loops;
pub mod measure;
mod rows;
pub mod sizes;
pub mod terms;
mod weights;
