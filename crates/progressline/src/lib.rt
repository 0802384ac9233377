//! How far a long work is, in one line of a terminal.
#![tactic(auto)]

mod line;
mod pace;
mod row;
mod telling;
mod uncovered;

pub use line::ProgressLine;
pub use telling::{Progress, Silence};
pub use uncovered::Uncovered;
