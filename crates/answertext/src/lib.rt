//! The text of an answer, and where texts go.
#![tactic(auto)]

mod answers;
pub mod outlet;
pub mod sink;
mod slot;

pub use answers::{Lines, write_answer};
