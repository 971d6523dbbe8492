//! Tests of the calls that all crates stand on: words, values, and what a statement does at once.
#![tactic(auto)]

#[cfg(test)]
mod ends_now;
#[cfg(test)]
mod words_and_values;
