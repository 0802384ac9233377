//! What the syntax of schemas shares with that of transactions and queries: names, and the refusal of a text.
#![tactic(auto)]

mod answer;
pub mod forms;
pub mod lists;
pub mod names;

pub use answer::refusal;
pub use forms::Name;
