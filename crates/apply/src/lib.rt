//! The tables that a list of entries leaves: what its requests come to, and what is answered of it.
#![tactic(auto)]

mod asking;
mod executing;
pub mod laws;
mod refused;
pub mod tables;

pub use tables::Tables;
