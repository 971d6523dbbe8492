//! Tests of the equations of gates, by tables.
#![tactic(auto)]

#[cfg(test)]
mod gates;
