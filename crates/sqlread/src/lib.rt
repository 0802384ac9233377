//! Reading transactions and queries.
#![tactic(auto)]

mod action;
mod assignment;
mod given;
mod insert;
pub mod laws;
pub mod query;
mod refused;
pub mod statement;
pub mod term;
pub mod time;
pub mod token;
pub mod transaction;
