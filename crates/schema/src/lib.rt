//! Table definitions, and the checks that make a schema of them.
#![tactic(auto)]

mod build;
mod checks;
pub mod name;
pub mod schema;
pub mod syntax;
pub mod table;

pub use name::{Name, is_word};
pub use schema::Schema;
pub use table::{Kind, Reference, Table};
