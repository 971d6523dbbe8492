//! Random small programs, whose reactions by the engine are compared with those by the plain recursion of the
//! definition.
#![tactic(auto)]

#[cfg(test)]
mod comparing;
#[cfg(test)]
mod dice;
#[cfg(test)]
mod programs;
#[cfg(test)]
mod standing;
