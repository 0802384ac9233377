//! A run drawn for a browser: a lane for each member, time downwards, an arrow for each message.
#![tactic(auto)]

mod angles;
mod arrows;
mod dates;
mod drawing;
mod legend;
mod page;
mod placing;
mod sides;

pub use page::run_as_svg;
