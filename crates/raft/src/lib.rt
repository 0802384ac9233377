//! One member of a group that replicates a log: what it keeps, and what it does at each input.
//! After Figure 2 of "In search of an understandable consensus algorithm" by Ongaro and Ousterhout,
//! with fixed members.
#![tactic(auto)]

mod counted;
mod floors;
mod following;
pub mod forms;
mod inputs;
mod leading;
mod logs;
mod reading;
mod refused;
mod seals;
mod sending;
pub mod short_log;
pub mod state;
mod step;
mod taking;
mod voting;

pub use forms::is_start;
pub use short_log::ShortLog;
pub use state::{Core, Effect, Taken, Work};
