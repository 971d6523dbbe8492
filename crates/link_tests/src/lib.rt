//! Tests of the calls that link module texts.
#![tactic(auto)]

#[cfg(test)]
mod first_faults;
#[cfg(test)]
mod places;
