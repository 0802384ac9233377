//! Answers drawn for a browser: days rightwards, system time upwards, a box for each version.
#![tactic(auto)]

mod below;
mod boxes;
mod colours;
mod page;
mod places;
mod plan;
mod rulers;
mod ticks;
mod ticks_of_time;

pub use page::{MOST, beliefs_as_svg};
