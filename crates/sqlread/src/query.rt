//! Queries.
ghost use Rattle.std.specs.Prelude.{◌≡◌, map, option_map};
ghost use Rattle.sqlsyntax.specs.Queries.{time_form, term_form, query_form};
ghost use Rattle.sqlchecks.specs.Answering.{Gives, each_of};
ghost use Rattle.sqlchecks.specs.Literals.{instant_named};
ghost use Rattle.namesyntax.specs.Parsing.{GivesInMemory};
ghost use Rattle.sqlread.specs.Shapes.{time_of, term_of, query_of};
ghost use Rattle.sqlread.specs.Changes.{if_given, all_given};
ghost use Rattle.sqlread.specs.Questions.{time_in, term_in, question_in};
ghost use Rattle.sqlread.specs.Texts.{query_in};

pub use crate::term::Term;
use crate::term::read_terms;
pub use crate::time::SystemTime;
use crate::transaction::MAX_TEXT;
use fault::Refusal;
use model::stamp::Stamp;
use schema::{Schema, Table};
use sqlchecks::column::find_table;
use sqlchecks::literal::read_instant;
use sqlsyntax::{Query as QueryText, SystemTime as TimeText, Term as TermText, read_query_form};
use sqltokens::Quoted;
use std::alloc::{AllocError, Global};

/// A question about one table. Without a time it asks about the instant that is closed where it is answered.
#[derive(Debug, Drop)]
pub struct Query {
    /// The table's place in the schema, from 0.
    pub table: usize,
    /// The instants of FOR SYSTEM_TIME, none where the text has none.
    pub time: Option<SystemTime>,
    /// A row passes where each of these holds: one or more, none where the text has no WHERE.
    pub terms: Vec<Term>,
}

impl Clone for Query {
    ghost is_clone = { λ query copy. query_of copy ≡ query_of query };

    fn clone(&self) -> Result<Query, AllocError> {
        Ok(Query {
            table: self.table,
            time: self.time,
            terms: self.terms.clone()?,
        })
    }
}

/// The instant that a timestamp names, or `OutOfRange`.
fn read_stamp(text: Quoted) -> Result<Stamp, Refusal>
    ensures { Gives (λ at. at) result (instant_named text.entry.source.now) }
{
    Ok(Stamp::new(read_instant(text)?.microseconds))
}

/// The instants of FOR SYSTEM_TIME: `OutOfRange` for each that is none, then `EmptyPeriod` where none lies between.
#[tactic(auto, unfolding(crate::specs::Questions::time_in))]
pub(crate) fn read_time(time: TimeText) -> Result<SystemTime, Refusal>
    ensures { Gives time_of result (time_in (time_form time.entry)) }
{
    match time {
        TimeText::AsOf(at) => Ok(SystemTime::as_of(read_stamp(at)?)),
        TimeText::FromTo { from, to } => {
            let first = read_stamp(from)?;
            let end = read_stamp(to)?.micros();
            if first.micros() >= end {
                return Err(Refusal::EmptyPeriod);
            }
            let last = Stamp::new(end - 1);
            Ok(SystemTime { first, last })
        }
        TimeText::Between { from, to } => {
            let first = read_stamp(from)?;
            let last = read_stamp(to)?;
            if first.micros() > last.micros() {
                return Err(Refusal::EmptyPeriod);
            }
            Ok(SystemTime { first, last })
        }
    }
}

/// FOR SYSTEM_TIME, where the query has it.
fn read_optional_time(time: Option<TimeText>) -> Result<Option<SystemTime>, Refusal>
    ensures { Gives (option_map time_of) result (if_given time_in (option_map time_form time.entry)) }
{
    match time {
        Some(time) => Ok(Some(read_time(time)?)),
        None => Ok(None),
    }
}

/// The terms of WHERE, none where the query has no WHERE.
fn read_optional_terms(
    alloc: Global,
    table: &Table,
    terms: &Option<Vec<TermText>>,
) -> Result<Vec<Term>, Refusal>
    ensures { GivesInMemory (λ ts. map term_of ts.items) result (all_given (each_of (term_in table.now)) (option_map (λ v. map term_form v.items) terms.now)) }
{
    match terms {
        Some(terms) => read_terms(alloc, table, terms),
        None => Ok(Vec::new(alloc)),
    }
}

/// The query of a SELECT, or the first of its checks that fails.
#[tactic(auto, unfolding(crate::specs::Questions::question_in, crate::specs::Changes::in_table))]
fn question(alloc: Global, schema: &Schema, text: &QueryText) -> Result<Query, Refusal>
    ensures { GivesInMemory query_of result (question_in schema.now (query_form text.now)) }
{
    let place = find_table(schema, text.table.written)?;
    let (_, table) = schema.table(place);
    let time = read_optional_time(text.time)?;
    let terms = read_optional_terms(alloc, table, &text.terms)?;
    Ok(Query {
        table: place,
        time,
        terms,
    })
}

/// Reads the text of one query, with blanks wherever they may stand and words without regard to case:
///
/// ```text
/// SELECT "*" FROM name [ FOR SYSTEM_TIME ( AS OF stamp | FROM stamp TO stamp | BETWEEN stamp AND stamp ) ]
///     [ WHERE term { AND term } ] ";"
/// term     = name operator literal | name CONTAINS ( date | span ) | name relation span
/// relation = OVERLAPS | EQUALS | PRECEDES | SUCCEEDS | IMMEDIATELY PRECEDES | IMMEDIATELY SUCCEEDS
/// span     = PERIOD "(" date "," date ")"
/// stamp    = TIMESTAMP text of the shape dddd-dd-dd dd:dd:dd.dddddd
/// ```
///
/// with operators, literals and dates as in a transaction.
///
/// The first of these that holds is the refusal: `TooLarge` for a text of more than `MAX_TEXT` bytes; `Syntax` with
/// the byte at which the first token begins after which no such text goes on, or the text's length; `UnknownTable`;
/// for each timestamp `OutOfRange` where it is no instant from 1970-01-01 00:00:00 to 9999-12-30 23:59:59.999999;
/// `EmptyPeriod` where FROM does not lie before TO, or BETWEEN lies after AND; then for each term in turn
///
/// - of a comparison `UnknownColumn` for a name that is no column of the key and no value column, `WrongType` for a
///   literal of another type than the column's, and `OutOfRange` for a number outside 64 bits with a sign, a day that
///   the calendar does not have between 0001-01-01 and 9999-12-31, or a text of more than 255 bytes;
/// - of another term `UnknownColumn` for a name that is not the table's application period, `OutOfRange` for each date
///   that is no day between 0001-01-01 and 9999-12-31, and `EmptyPeriod` for a period whose start is not before its
///   end.
///
/// `NoMemory` can come at any point before the answer.
#[tactic(auto, unfolding(crate::specs::Texts::query_in))]
pub fn read_query(alloc: Global, schema: &Schema, text: &str) -> Result<Query, Refusal>
    ensures { GivesInMemory query_of result (query_in schema.now text.now) }
{
    if text.len() > MAX_TEXT {
        return Err(Refusal::TooLarge);
    }
    let form = read_query_form(alloc, text)?;
    question(alloc, schema, &form)
}
