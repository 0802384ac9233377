//! The folder of a run: the databases and flights of its nodes, made where nothing was before, and left whole.
#![tactic(auto)]

mod databases;
mod files;
mod flights;

pub use databases::{Image, Made, make_databases};
pub use files::Folder;
