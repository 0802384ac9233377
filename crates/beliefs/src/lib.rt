//! Answers drawn as pictures of what was believed: days from left to right, system time upwards.
#![tactic(auto)]

pub mod calendar;
pub mod lines;
mod part;
pub mod picture;
mod text;
pub mod widths;

pub use picture::{Asking, Time};
pub use text::beliefs_as_text;
