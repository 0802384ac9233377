//! A network whose members are threads of one process: what becomes of each message, and inboxes.
#![tactic(auto)]

pub mod inboxes;
pub mod weather;

pub use inboxes::{Address, Inbox, Unsent};
pub use weather::{Fate, Weather};
