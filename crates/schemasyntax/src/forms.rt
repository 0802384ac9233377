//! What schemas say, as they are written: nothing is looked up, and no digits are computed.

use namesyntax::Name;
use sqltokens::Digits;

/// The type of a column.
#[derive(Clone, Copy)]
pub enum ColumnType<'a> {
    Integer,
    /// VARCHAR with its length.
    Varchar(Digits<'a>),
    Date,
    /// TIMESTAMP(6) GENERATED ALWAYS AS ROW START.
    RowStart,
    /// TIMESTAMP(6) GENERATED ALWAYS AS ROW END.
    RowEnd,
}

/// A column of a table.
#[derive(Clone, Copy)]
pub struct Column<'a> {
    pub name: Name<'a>,
    pub column_type: ColumnType<'a>,
}

/// PERIOD FOR a name, from one column to another.
#[derive(Clone, Copy)]
pub struct ApplicationPeriod<'a> {
    pub name: Name<'a>,
    pub start: Name<'a>,
    pub end: Name<'a>,
}

/// PERIOD FOR SYSTEM_TIME, from one column to another.
#[derive(Clone, Copy)]
pub struct SystemPeriod<'a> {
    pub start: Name<'a>,
    pub end: Name<'a>,
}

/// The columns of a key, one or more, and the period behind them.
#[derive(Drop)]
pub struct KeyNames<'a> {
    pub columns: Vec<Name<'a>>,
    pub period: Name<'a>,
}

/// FOREIGN KEY with its own names, the parent table and the names that it refers to there.
#[derive(Drop)]
pub struct ForeignKey<'a> {
    pub names: KeyNames<'a>,
    pub parent: Name<'a>,
    pub parent_names: KeyNames<'a>,
}

/// A CREATE TABLE.
#[derive(Drop)]
pub struct Table<'a> {
    pub name: Name<'a>,
    /// One or more.
    pub columns: Vec<Column<'a>>,
    pub application_period: ApplicationPeriod<'a>,
    pub system_period: SystemPeriod<'a>,
    pub key: KeyNames<'a>,
    pub foreign_keys: Vec<ForeignKey<'a>>,
}
