//! Tests of the parts of an engine: tallies of emissions, and instances of asyncs.
#![tactic(auto)]

#[cfg(test)]
mod instances;
#[cfg(test)]
mod tallies;
