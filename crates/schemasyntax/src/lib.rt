//! The syntax of schemas: texts read into what they say, with the exact place of an error.
#![tactic(auto)]

mod entry;
pub mod forms;
pub mod laws;
mod schema;

pub use entry::read_schema_form;
pub use forms::{ApplicationPeriod, Column, ColumnType, ForeignKey, KeyNames, SystemPeriod, Table};
pub use namesyntax::Name;
