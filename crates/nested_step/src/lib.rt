//! The step of a statement and the reaction of a program as the definition goes, plainly and slowly: each part is stepped
//! whether or not it runs, each scope is solved anew, and each answer is made anew.
#![tactic(auto)]

pub mod declared;
pub mod instance;
pub mod leaving;
pub mod marks;
pub mod outcome;
pub mod reaction;
pub mod stepped;
pub mod touches;
pub mod walk;
