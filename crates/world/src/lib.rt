//! All members of a group in one program, through lists of events.
#![tactic(auto)]

pub mod event;
mod group;
pub mod history;
pub mod laws;
pub mod output;
mod outset;
mod refused;
pub mod resumed;
mod seat;

pub use node::durable::StoredState;
