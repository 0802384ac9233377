//! Beginnings of flights: what an auditor keeps of the flights of a group, and later compares them with.
#![tactic(auto)]

pub mod beginning;
pub mod group;
pub mod laws;
pub mod line;
mod stem;
pub mod words;

pub use beginning::{Beginning, Found};
