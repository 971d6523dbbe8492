//! Tests of parts of the kernel: expressions, combinations of emissions, and sizes of expansions.
#![tactic(auto)]

#[cfg(test)]
mod combinations;
#[cfg(test)]
mod expansion_sizes;
#[cfg(test)]
mod expressions;
