//! What texts say, as they are written: nothing is looked up, and no digits or dates are computed.

use namesyntax::Name;
use sqltokens::{Digits, Quoted};

/// A sign that compares two values.
#[derive(Clone, Copy, Debug, PartialEq, Eq)]
pub enum Operator {
    Equal,
    NotEqual,
    Less,
    LessEqual,
    Greater,
    GreaterEqual,
}

/// A literal.
#[derive(Clone, Copy)]
pub enum Literal<'a> {
    /// What stands between the quotes behind DATE, of the shape dddd-dd-dd.
    Date(Quoted<'a>),
    Text(Quoted<'a>),
    /// Digits, with a minus before them or none.
    Number { negative: bool, digits: Digits<'a> },
}

/// A column compared with a literal.
#[derive(Clone, Copy)]
pub struct Comparison<'a> {
    pub column: Name<'a>,
    pub operator: Operator,
    pub literal: Literal<'a>,
}

/// `PERIOD (DATE from, DATE to)`: both of the shape dddd-dd-dd.
#[derive(Clone, Copy)]
pub struct Span<'a> {
    pub from: Quoted<'a>,
    pub to: Quoted<'a>,
}

/// How two periods lie to each other.
#[derive(Clone, Copy, Debug, PartialEq, Eq)]
pub enum Relation {
    Overlaps,
    Equals,
    Precedes,
    Succeeds,
    ImmediatelyPrecedes,
    ImmediatelySucceeds,
}

/// What a query asks of a column or of a period.
#[derive(Clone, Copy)]
pub enum Predicate<'a> {
    Compares(Operator, Literal<'a>),
    /// The day is of the shape dddd-dd-dd.
    ContainsDay(Quoted<'a>),
    ContainsSpan(Span<'a>),
    Relates(Relation, Span<'a>),
}

/// One term of a query's WHERE: the column or period, and what is asked of it.
#[derive(Clone, Copy)]
pub struct Term<'a> {
    pub name: Name<'a>,
    pub predicate: Predicate<'a>,
}

/// The system time that a query asks about. Timestamps are of the shape dddd-dd-dd dd:dd:dd.dddddd.
#[derive(Clone, Copy)]
pub enum SystemTime<'a> {
    AsOf(Quoted<'a>),
    FromTo { from: Quoted<'a>, to: Quoted<'a> },
    Between { from: Quoted<'a>, to: Quoted<'a> },
}

/// A SELECT.
#[derive(Drop)]
pub struct Query<'a> {
    pub table: Name<'a>,
    /// None where the text has no FOR SYSTEM_TIME.
    pub time: Option<SystemTime<'a>>,
    /// One or more terms, none where the text has no WHERE.
    pub terms: Option<Vec<Term<'a>>>,
}

/// `FOR PORTION OF period FROM DATE from TO DATE to`: both dates of the shape dddd-dd-dd.
#[derive(Clone, Copy)]
pub struct Portion<'a> {
    pub period: Name<'a>,
    pub from: Quoted<'a>,
    pub to: Quoted<'a>,
}

/// What a column is set to.
#[derive(Clone, Copy)]
pub enum NewValue<'a> {
    Literal(Literal<'a>),
    /// A column's value with the digits subtracted from it, or else added to it.
    Changed {
        column: Name<'a>,
        subtracted: bool,
        digits: Digits<'a>,
    },
}

/// A column, and what it is set to.
#[derive(Clone, Copy)]
pub struct Assignment<'a> {
    pub column: Name<'a>,
    pub value: NewValue<'a>,
}

/// An INSERT: one or more columns, and one or more literals.
#[derive(Drop)]
pub struct Insert<'a> {
    pub table: Name<'a>,
    pub columns: Vec<Name<'a>>,
    pub values: Vec<Literal<'a>>,
}

/// An UPDATE.
#[derive(Drop)]
pub struct Update<'a> {
    pub table: Name<'a>,
    /// None where the text has no FOR PORTION OF.
    pub portion: Option<Portion<'a>>,
    /// One or more.
    pub assignments: Vec<Assignment<'a>>,
    /// One or more comparisons, none where the text has no WHERE.
    pub comparisons: Option<Vec<Comparison<'a>>>,
}

/// A DELETE.
#[derive(Drop)]
pub struct Delete<'a> {
    pub table: Name<'a>,
    /// None where the text has no FOR PORTION OF.
    pub portion: Option<Portion<'a>>,
    /// One or more comparisons, none where the text has no WHERE.
    pub comparisons: Option<Vec<Comparison<'a>>>,
}

/// One statement of a transaction.
#[derive(Drop)]
pub enum Statement<'a> {
    Insert(Insert<'a>),
    Update(Update<'a>),
    Delete(Delete<'a>),
}
