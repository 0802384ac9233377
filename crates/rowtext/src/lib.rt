//! The text of a transaction; that of an answer is handed on.
#![tactic(auto)]

pub mod laws;
mod named;
mod parts;
pub mod transactions;

pub use answertext::{Lines, write_answer};
pub use named::has_named;
pub use transactions::{SqlLiteral, TransactionFault, Written, write_transaction};
