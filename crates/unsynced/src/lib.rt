//! Databases in files that are brought to the disk when it is asked for, and not at each commit.
#![tactic(auto)]

mod disk;
mod opening;

pub use disk::Unsynced;
pub use opening::{Database, Stored, close, close_files, open};
