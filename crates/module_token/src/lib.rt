//! The tokens of a module's text: words, keywords, numbers, quoted texts and punctuation, and the first
//! place at which a text has none of them.
#![tactic(auto)]

pub mod fault;
mod front;
mod number;
pub mod punct;
mod quoted;
mod sign;
pub mod token;
pub mod tokens;
mod word;
