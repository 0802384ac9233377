//! Where a row keeps the value of a column.

/// A column of a row that is of its key, or one of its values.
#[derive(Clone, Copy, Debug, PartialEq, Eq)]
pub enum Field {
    /// The so many-th column of the key, counted from 0.
    Key(usize),
    /// The so many-th of the value columns, counted from 0.
    Value(usize),
}
