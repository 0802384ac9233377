//! Databases of a store's members, made anew from its journals where they are missing or hold something else.
#![tactic(auto)]

mod looking;
mod making;
mod restoring;

pub use restoring::{Restored, restore};
