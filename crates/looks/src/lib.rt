//! Answers, outcomes and refusals in other forms than lines: CSV, JSON and tables.
#![tactic(auto)]

mod bare;
mod objects;
mod outcomes;
mod records;
mod separated;
mod slot;
mod table;

pub use objects::answer_as_json;
pub use outcomes::{outcome_as_json, refused_as_json, sent_as_json, told_as_json};
pub use separated::answer_as_csv;
pub use slot::shown_value;
pub use table::{Asked, answer_as_table};
