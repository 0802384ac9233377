//! Answers to questions from versions.
#![tactic(auto)]

pub mod ask;
mod found;
mod named;
mod refused;
mod shown;

pub use ask::Ask;
