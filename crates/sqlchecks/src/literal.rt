//! The values of literals.
ghost use Rattle.std.specs.Prelude.{◌≡◌, IfOk, string_bytes};
ghost use Rattle.std.specs.Str.Parse.{digits_value};
ghost use Rattle.sqlsyntax.specs.Shared.{minus, literal_form};
ghost use Rattle.sqlchecks.specs.Answering.{Gives};
ghost use Rattle.namesyntax.specs.Parsing.{GivesInMemory};
ghost use Rattle.model.specs.Periods.{period_of};
ghost use Rattle.sqlchecks.specs.Literals.{unsigned, signed, day_named, instant_named, period_named, undoubled, text_within, literal_in};

use fault::{Refusal, Text};
use model::value::Value;
use period::{Day, Instant, Period};
use schema::Kind;
use sqlsyntax::Literal;
use sqltokens::{Digits, Quoted};
use std::alloc::{AllocError, Global};

/// The value that a literal is in a column of this kind.
///
/// `WrongType` for a literal of another type; `OutOfRange` for a number outside 64 bits with a sign, a day that the
/// calendar does not have between 0001-01-01 and 9999-12-31, or a text of more bytes than the kind allows; `NoMemory`.
#[tactic(auto, unfolding(crate::specs::Literals::literal_in))]
pub fn literal_value(alloc: Global, kind: Kind, literal: Literal) -> Result<Value, Refusal>
    ensures { GivesInMemory (λ v. v) result (literal_in kind (literal_form literal.entry)) }
{
    match (kind, literal) {
        (Kind::Date, Literal::Date(date)) => Ok(Value::Day(read_day(date)?.number)),
        (Kind::Varchar(most), Literal::Text(text)) => {
            Ok(Value::Text(text_within(alloc, most, text)?))
        }
        (Kind::Integer, Literal::Number { negative, digits }) => {
            Ok(Value::Number(signed(negative, digits)?))
        }
        _ => Err(Refusal::WrongType),
    }
}

/// The number that digits write, none where it is above 64 bits.
pub fn unsigned(digits: Digits) -> Option<u64>
    ensures { result ≡ unsigned (digits_value 10 digits.entry.digits.now) }
{
    digits.digits.parse::<u64>().ok()
}

/// The number that digits write, with a minus before them or without. Out of range where it does not fit in 64 bits.
fn signed(negative: bool, digits: Digits) -> Result<i64, Refusal>
    ensures { result ≡ signed (minus negative) (digits_value 10 digits.entry.digits.now) }
{
    let Some(magnitude) = unsigned(digits) else {
        return Err(Refusal::OutOfRange);
    };
    if negative {
        return 0i64
            .checked_sub_unsigned(magnitude)
            .ok_or(Refusal::OutOfRange);
    }
    0i64.checked_add_unsigned(magnitude)
        .ok_or(Refusal::OutOfRange)
}

/// A text of at most so many bytes, with one quote for each two.
#[tactic(auto, unfolding(crate::specs::Literals::text_within))]
fn text_within(alloc: Global, most: u8, text: Quoted) -> Result<Text, Refusal>
    ensures { GivesInMemory (λ t. t) result (text_within most (undoubled text.entry.source.now)) }
{
    let plain = undoubled(alloc, text)?;
    if plain.len() > most as usize {
        return Err(Refusal::OutOfRange);
    }
    Ok(Text::from_string(plain)?)
}

/// A text with one quote for each two.
fn undoubled(alloc: Global, text: Quoted) -> Result<String, AllocError>
    ensures { IfOk result (λ s. string_bytes s ≡ undoubled text.entry.source.now) }
{
    let mut plain = String::new(alloc);
    let mut after_quote = false;
    for b in text.source.as_bytes() {
        let quote = *b == b'\'';
        if quote && after_quote {
            after_quote = false;
            continue;
        }
        plain.push(*b as char)?;
        after_quote = quote;
    }
    Ok(plain)
}

/// The day that a date's text names. `OutOfRange` where the calendar has none.
pub fn read_day(date: Quoted) -> Result<Day, Refusal>
    ensures { Gives (λ d. d.number) result (day_named date.entry.source.now) }
{
    period::laws::day_texts();
    let Ok(day) = Day::read(date.source, 0) else {
        return Err(Refusal::OutOfRange);
    };
    Ok(day)
}

/// The instant that a timestamp's text names. `OutOfRange` where it is none from 1970-01-01 00:00:00 to 9999-12-30
/// 23:59:59.999999.
pub fn read_instant(timestamp: Quoted) -> Result<Instant, Refusal>
    ensures { Gives (λ i. i.microseconds) result (instant_named timestamp.entry.source.now) }
{
    period::laws::instant_texts();
    let Ok(instant) = Instant::read(timestamp.source, 0) else {
        return Err(Refusal::OutOfRange);
    };
    Ok(instant)
}

/// The days from one to another. `OutOfRange` where one of the two texts names no day, the first before the second;
/// then `EmptyPeriod` where no day lies between.
#[tactic(auto, unfolding(crate::specs::Literals::period_named))]
pub fn read_period(from: Quoted, to: Quoted) -> Result<Period, Refusal>
    ensures { Gives period_of result (period_named from.entry.source.now to.entry.source.now) }
{
    let start = read_day(from)?;
    let end = read_day(to)?;
    Period::new(start, end)
}
