//! Rows of CSV files into a store, and out of it.
#![tactic(auto)]

mod asked;
mod export;
mod fields;
mod header;
mod import;
mod keeping;
mod line;
mod printing;
mod questions;
mod requests;
mod rows;
mod stop;
mod taking;
mod told;
mod unread;
mod written;

pub use asked::{Export, Import, Order, Versions, Work, look_at, work_on};
pub use stop::Fault;
