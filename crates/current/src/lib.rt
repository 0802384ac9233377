//! The current rows of all tables, run by statements.
#![tactic(auto)]

mod compare;
mod correction;
pub mod current;
pub mod laws;
mod named;
mod plan;
mod references;
mod refused;
pub mod row;
mod strand;
mod strands;
mod suspects;
mod table;
pub mod touched;

pub use current::Current;
pub use row::Row;
pub use strand::Changes;
pub use touched::Touched;
