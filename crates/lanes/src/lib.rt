//! What the members of a group did in a run, for a picture: lanes and arrows, and the picture as text.
#![tactic(auto)]

mod album;
pub mod fates;
pub mod recorder;
pub mod role;
pub mod run;
mod text;
mod wording;

pub use text::{columns_of, run_as_text};
