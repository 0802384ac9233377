//! What a command line asks for.
ghost use Rattle.std.specs.Prelude.{◌≤◌};

use crate::dot::Form;

/// What a command line asks `new` for.
#[derive(Debug, PartialEq, Clone, Copy)]
pub struct NewStore<'a> {
    /// The folder.
    pub dir: &'a str,
    /// How many members there are: 3 to 7.
    pub members: u8,
    /// The name of the file with the tables.
    pub schema: &'a str,
    pub ghost fewest: { 3 ≤ members },
    pub ghost most: { members ≤ 7 },
}

/// What a command line asks `open` for.
#[derive(Debug, PartialEq, Clone, Copy)]
pub struct OpenStore<'a> {
    /// The folder.
    pub dir: &'a str,
    /// The name of the file whose lines are taken; none for standard input.
    pub script: Option<&'a str>,
    /// Whether each block of the journal is brought to the disk before the next step: where it is not, a kill of the process loses
    /// nothing, but a power cut may.
    pub syncs: bool,
    /// What clocks show, in microseconds since 1970, below 2^63; none for what the system's clock shows.
    pub clock: Option<u64>,
    /// How answers are shown at first; none for tables at a terminal and lines elsewhere.
    pub form: Option<Form>,
}

/// What a command line asks `import` for.
#[derive(Debug, PartialEq, Clone, Copy)]
pub struct ImportRows<'a> {
    /// The folder.
    pub dir: &'a str,
    /// The name of the table.
    pub table: &'a str,
    /// The name of the CSV file.
    pub file: &'a str,
    /// The line from which on rows are taken; none for all of them.
    pub from: Option<u64>,
}

/// What a command line asks `export` for.
#[derive(Debug, PartialEq, Clone, Copy)]
pub struct ExportRows<'a> {
    /// The folder.
    pub dir: &'a str,
    /// The name of the table.
    pub table: &'a str,
    /// The instant as of which rows are written; none for those that are believed now.
    pub as_of: Option<&'a str>,
    /// Whether all versions are written.
    pub is_all: bool,
}

/// What a command line asks for.
#[derive(Debug, PartialEq, Clone, Copy)]
pub enum Command<'a> {
    /// To make a store.
    New(NewStore<'a>),
    /// To open the store in a folder, and take lines.
    Open(OpenStore<'a>),
    /// To list the decided requests of the store in the folder of this name.
    Log(&'a str),
    /// To write the flights of the store in a folder into another one.
    Flights { dir: &'a str, out: &'a str },
    /// To judge the store in the folder of this name.
    Audit(&'a str),
    /// To store the rows of a CSV file.
    Import(ImportRows<'a>),
    /// To write the rows of a table as CSV.
    Export(ExportRows<'a>),
    /// To make missing or altered databases of the store in the folder of this name anew.
    Restore(&'a str),
}
