//! A value that threads take in turns, and seats that know the history that it stands for.
#![tactic(auto)]

pub mod calls;
pub mod cell;
pub mod seat;
mod steps;
pub mod storied;
mod turn;
pub mod view;
