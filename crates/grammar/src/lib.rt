//! Languages and readers as combinators, generic in the kinds of tokens, with their laws in `proofs/`, and a
//! cursor over tokens whose steps read as the readers of one token do.
#![tactic(auto)]

pub mod cursor;
pub mod fault;
pub mod kinds;
#[cfg(test)]
mod tests;
pub mod tokens;
