//! Tests of the way from a module text to its program.
#![tactic(auto)]

#[cfg(test)]
mod limits;
#[cfg(test)]
mod refusals;
#[cfg(test)]
mod verdict;
