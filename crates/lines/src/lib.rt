//! The lines of a script, and how a script is read.
#![tactic(auto)]

pub mod laws;
pub mod line;
pub mod number;
pub mod script;
