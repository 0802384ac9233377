//! Flights: what is recorded of each life of a node, and the one text that a flight is stored as, written and read.
#![tactic(auto)]

pub mod answers;
mod bodies;
pub mod entries;
mod file;
pub mod flight;
pub mod laws;
pub mod life;
mod lives;
pub mod outcome;
mod packets;
pub mod parts;
mod reading;
pub mod records;
mod refused;
pub mod steps;
mod writing;

pub use file::write_flight;
pub use flight::{Answered, Flight, Version};
pub use reading::read_flight;
pub use records::Records;
pub use writing::{put_answers, text_of_flight};
