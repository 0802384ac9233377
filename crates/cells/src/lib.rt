//! A node with the record of its life.
#![tactic(auto)]

pub mod cell;
pub mod copies;
pub mod laws;
pub mod locked;
mod publishing;
mod refused;
