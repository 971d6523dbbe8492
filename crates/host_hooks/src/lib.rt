//! Bodies that the host stores for async statements, what each promises of its answers, and the call of a
//! running instance's body.
#![tactic(auto)]

pub mod call;
pub mod hook;
mod kinds;
pub mod law;
pub mod shipped;
pub mod table;
