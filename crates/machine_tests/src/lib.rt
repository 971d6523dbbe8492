//! Tests of reactions and of machines, over programs that are compiled from texts.
#![tactic(auto)]

#[cfg(test)]
mod first_reactions;
#[cfg(test)]
mod instances;
#[cfg(test)]
mod playing;
#[cfg(test)]
mod programs;
#[cfg(test)]
mod questions;
#[cfg(test)]
mod reactions;
#[cfg(test)]
mod scripts;
