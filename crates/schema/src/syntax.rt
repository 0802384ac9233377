//! CREATE TABLE statements, as they are written.

use crate::Name;

/// The type of a column as it is written.
#[derive(Clone, Copy, Debug, PartialEq, Eq)]
pub enum ColumnType {
    Integer,
    /// VARCHAR with its length as a number, or none where that is above 64 bits.
    Varchar(Option<u64>),
    Date,
    /// TIMESTAMP(6) GENERATED ALWAYS AS ROW START.
    RowStart,
    /// TIMESTAMP(6) GENERATED ALWAYS AS ROW END.
    RowEnd,
}

/// A column of a table.
#[derive(Debug, Drop)]
pub struct Column {
    pub name: Name,
    pub column_type: ColumnType,
}

/// PERIOD FOR a name, from one column to another.
#[derive(Debug, Drop)]
pub struct ApplicationPeriod {
    pub name: Name,
    pub start: Name,
    pub end: Name,
}

/// PERIOD FOR SYSTEM_TIME, from one column to another.
#[derive(Debug, Drop)]
pub struct SystemPeriod {
    pub start: Name,
    pub end: Name,
}

/// The columns of a key in order, and the period whose overlaps it tells apart.
#[derive(Debug, Drop)]
pub struct KeyNames {
    pub columns: Vec<Name>,
    pub period: Name,
}

/// FOREIGN KEY with its own names, the parent table and the names that it refers to there.
#[derive(Debug, Drop)]
pub struct ForeignKey {
    pub names: KeyNames,
    pub parent: Name,
    pub parent_names: KeyNames,
}

/// A whole CREATE TABLE statement.
#[derive(Debug, Drop)]
pub struct CreateTable {
    pub name: Name,
    pub columns: Vec<Column>,
    pub application_period: ApplicationPeriod,
    pub system_period: SystemPeriod,
    pub key: KeyNames,
    pub foreign_keys: Vec<ForeignKey>,
}
