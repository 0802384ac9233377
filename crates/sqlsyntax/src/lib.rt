//! The syntax of transactions and queries: texts read into what they say, with the exact place of an error.
#![tactic(auto)]

mod entry;
pub mod forms;
pub mod laws;
mod query;
mod shared;
mod transaction;

pub use entry::{read_query_form, read_transaction_form};
pub use forms::{
    Assignment, Comparison, Delete, Insert, Literal, NewValue, Operator, Portion, Predicate, Query,
    Relation, Span, Statement, SystemTime, Term, Update,
};
pub use namesyntax::Name;
