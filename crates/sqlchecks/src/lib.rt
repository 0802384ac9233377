//! The checks that statements and queries share: names of tables and columns, literals, comparisons, days and instants.
#![tactic(auto)]

pub mod column;
pub mod comparison;
pub mod field;
pub mod literal;
