//! Playing the lines of scripts on a group, and printing what comes of them.
#![tactic(auto)]

pub mod laws;
mod mail;
mod play;
pub mod player;
pub mod printer;
pub mod printing;
mod recovery;
pub mod run_fault;
mod sent;
mod standing;
mod writing;
