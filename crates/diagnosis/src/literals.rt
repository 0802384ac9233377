//! Literals that a column does not take.
use crate::days::why_no_day;
use crate::walk::{Spot, Stop, Walk, wrong, wrong_as};
use fault::Refusal;
use period::{Day, Instant};
use schema::Kind;
use sqlchecks::literal::literal_value;
use sqlsyntax::{Literal, Span};
use sqltokens::Quoted;
use std::alloc::{AllocError, Global};

/// How many tokens a literal has.
pub(crate) fn token_count(literal: Literal) -> usize {
    match literal {
        Literal::Date(_) | Literal::Number { negative: true, .. } => 2,
        Literal::Text(_)
        | Literal::Number {
            negative: false,
            ..
        } => 1,
    }
}

// What values of a kind are.
fn told_kind<'a>(kind: Kind) -> &'a str {
    match kind {
        Kind::Integer => "an INTEGER",
        Kind::Varchar(_) => "a VARCHAR, a text between quotes",
        Kind::Date => "a DATE, as DATE '2026-01-31'",
        Kind::SystemStart | Kind::SystemEnd => "an instant",
    }
}

fn too_long(alloc: Global, column: &str, most: u8) -> Result<String, AllocError> {
    format!(in alloc; "{column} takes texts of at most {most} bytes.")
}

// Why a literal of the right type is no value of the column.
fn out_of_range(
    alloc: Global,
    column: &str,
    kind: Kind,
    literal: Literal,
) -> Result<String, AllocError> {
    if let Literal::Date(date) = literal {
        return why_no_day(alloc, date.source);
    }
    if let Kind::Varchar(most) = kind {
        return too_long(alloc, column, most);
    }
    String::from_str(
        alloc,
        "an INTEGER goes from -9223372036854775808 to 9223372036854775807.",
    )
}

/// Looks at a literal, the next token, as a value of a column of this kind.
pub(crate) fn look_at_literal(
    alloc: Global,
    walk: Walk,
    column: &str,
    kind: Kind,
    literal: Literal,
) -> Result<(), Stop> {
    let spot = walk.spot(token_count(literal));
    match literal_value(alloc, kind, literal) {
        Ok(_) => Ok(()),
        Err(Refusal::NoMemory) => Err(Stop::NoMemory),
        Err(Refusal::WrongType) => {
            Err(wrong_as(
                alloc,
                spot,
                Refusal::WrongType,
                &[column, " is ", told_kind(kind), "."],
            ))
        }
        Err(refusal) => {
            let hint = out_of_range(alloc, column, kind, literal);
            Err(wrong(spot, refusal, hint))
        }
    }
}

/// The day of a date, `DATE` and its text, which are the next tokens.
pub(crate) fn look_at_day(alloc: Global, walk: Walk, text: Quoted) -> Result<Day, Stop> {
    match Day::read(text.source, 0) {
        Ok(day) => Ok(day),
        Err(_) => {
            let hint = why_no_day(alloc, text.source);
            Err(wrong(walk.spot(2), Refusal::OutOfRange, hint))
        }
    }
}

/// The instant of a timestamp, `TIMESTAMP` and its text, which are the next tokens, in microseconds.
pub(crate) fn look_at_instant(alloc: Global, walk: Walk, text: Quoted) -> Result<u64, Stop> {
    match Instant::read(text.source, 0) {
        Ok(instant) => Ok(instant.microseconds),
        Err(_) => {
            Err(wrong_as(
                alloc,
                walk.spot(2),
                Refusal::OutOfRange,
                &["instants go from 1970-01-01 00:00:00.000000 to 9999-12-30 23:59:59.999999."],
            ))
        }
    }
}

/// That a period of this name does not begin before it ends.
pub(crate) fn look_at_order(
    alloc: Global,
    name: &str,
    spot: Spot,
    start: Day,
    end: Day,
) -> Result<(), Stop> {
    if start.number < end.number {
        return Ok(());
    }
    let why = " has to begin before it ends: the end is the first day after it.";
    Err(wrong_as(alloc, spot, Refusal::EmptyPeriod, &[name, why]))
}

/// Looks at the days of `PERIOD (DATE from, DATE to)`, which is next, and passes it.
pub(crate) fn look_at_span(alloc: Global, walk: &mut Walk, span: Span) -> Result<(), Stop> {
    walk.pass(2);
    let first = *walk;
    let from = look_at_day(alloc, first, span.from)?;
    walk.pass(3);
    let to = look_at_day(alloc, *walk, span.to)?;
    walk.pass(3);
    look_at_order(alloc, "a period", first.spot(5), from, to)
}
