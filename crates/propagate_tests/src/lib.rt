//! Tests of the work list: small nets, and random ones against plain rounds.
#![tactic(auto)]

#[cfg(test)]
mod nets;
#[cfg(test)]
mod random;
#[cfg(test)]
mod small;
