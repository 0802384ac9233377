//! The commands over a store that is kept in a folder: making it, opening it, its log, its flights, its audit, and databases that are made anew.
#![tactic(auto)]

mod commands;
mod drawing;
mod evidence;
mod gathered;
mod held;
mod help;
mod line_limit;
mod line_reader;
mod members;
mod outputs;
mod printing;
mod requests;
mod restores;
mod room;
mod session;
mod sharing;
mod stop;
mod taking;
mod transfers;

pub use commands::run;
pub use drawing::draw_beliefs;
pub use stop::{Fault, Stop};
