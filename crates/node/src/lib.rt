//! One member with what it keeps over a restart, what it tells of requests and of what is sealed, and what it answers.
#![tactic(auto)]

pub mod durable;
pub mod node;
mod reading;
pub mod recall;
mod refused;
mod telling;

pub use node::{Fault, Node, Out};
pub use raft::state::Work;
