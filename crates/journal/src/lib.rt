//! The text of a store's journals: its blocks, their lines, and what a log comes to in short.
#![tactic(auto)]

pub mod blocks;
pub mod digest;
pub mod laws;
pub mod line;
mod parts;
mod pieces;
pub mod reading;
mod refused;
pub mod stored;
pub mod writing;

pub use line::{Line, Taken};
pub use reading::{read_line, read_lines};
pub use stored::Summary;
pub use writing::{put_line, put_lines};
