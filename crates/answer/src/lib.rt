//! Answers to questions: the last instant that was asked about, the columns, and the rows.
#![tactic(auto)]

mod columns;

pub use columns::columns_of;
use fault::Text;
use model::stamp::Stamp;
use model::value::Value;
use period::Period;

/// What a column shows of a row.
#[derive(Clone, Copy, Debug, PartialEq, Eq)]
pub enum Shows {
    /// The value at this place of the key.
    Key(usize),
    /// The value at this place among the values.
    Value(usize),
    /// The start of the application period.
    Start,
    /// The end of the application period.
    End,
    /// The system start.
    SystemStart,
    /// The system end.
    SystemEnd,
}

/// A column of a table: its name as declared, and what it shows.
#[derive(Debug, Drop)]
pub struct Column {
    pub name: Text,
    pub shows: Shows,
}

/// A row as an answer shows it.
#[derive(Debug, Drop)]
pub struct Shown {
    /// The values of the key columns.
    pub key: Vec<Value>,
    /// The values of the value columns.
    pub values: Vec<Value>,
    pub period: Period,
    /// The system start.
    pub system_start: Stamp,
    /// The system end, none where it is open.
    pub end: Option<Stamp>,
}

/// The last instant of a question, the table's columns in declared order, and the rows that it asks for.
#[derive(Debug, Drop)]
pub struct Answer {
    pub last: Stamp,
    pub columns: Vec<Column>,
    pub rows: Vec<Shown>,
}
