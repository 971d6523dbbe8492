//! The names of a module text: what each of them means, and the faults of a text in which one of them means
//! nothing.
#![tactic(auto)]

pub mod fault;
pub mod judge;
pub mod names;
pub mod parts;
pub mod runs;
pub mod scope;
pub mod table;
pub mod text;
pub mod walk;
