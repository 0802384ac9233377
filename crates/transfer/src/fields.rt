//! What a field is as a value of a column.
ghost use Rattle.std.specs.Prelude.{◌≡◌, ◌<◌, true, Some, None, IsTrue, IfSome, length, option_map, if◌then◌else◌};
ghost use Rattle.std.specs.Char.{is_ascii_digit};
ghost use Rattle.std.specs.List.{list_all};
ghost use Rattle.std.specs.Str.{IsAscii};
ghost use Rattle.namesyntax.specs.Parsing.{GivesInMemory};
ghost use Rattle.transfer.specs.Fields.{are_digits, field_value, is_negative, is_printable, magnitude, number_in, text_in};

use fault::{Refusal, Text};
use model::value::Value;
use schema::Kind;
use sqlchecks::literal::literal_value;
use sqlsyntax::Literal;
use sqltokens::{Digits, Quoted};
use std::alloc::Global;

fn is_printable(field: &[u8]) -> bool
    ensures { result ≡ is_printable field.now }
{
    field.iter().all(|b| 32 <= *b && *b <= 126)
}

/// A field as a text, if each of its bytes is printable ASCII.
#[tactic(auto, using(crate::proofs::Printable::is_text, crate::proofs::Printable::is_ascii))]
pub(crate) fn plain(field: &[u8]) -> Option<&str>
    ensures text { option_map (λ t. t.now) result ≡ (if is_printable field.entry.now then Some field.entry.now else None) }
    ensures ascii { IfSome result (λ t. IsAscii t.now) }
{
    if !is_printable(field) {
        return None;
    }
    match str::from_utf8(field) {
        Ok(text) => Some(text),
        Err(_) => None,
    }
}

fn is_negative(field: &[u8]) -> bool
    ensures { result ≡ is_negative field.now }
{
    matches!(field, [b'-', ..])
}

// What follows the minus, if one is there.
fn magnitude(field: &[u8]) -> &[u8]
    ensures { result.now ≡ magnitude field.entry.now }
{
    match field {
        [b'-', rest @ ..] => rest,
        _ => field,
    }
}

fn has_digits(field: &[u8]) -> bool
    ensures { result ≡ list_all is_ascii_digit field.now }
{
    field.iter().all(|b| b.is_ascii_digit())
}

#[tactic(auto, using(crate::proofs::Printable::digits_are))]
fn are_digits(field: &[u8]) -> bool
    ensures value { result ≡ are_digits field.now }
    ensures some { IsTrue result → 0 < length field.now }
    ensures digits { IsTrue result → list_all is_ascii_digit field.now ≡ true }
    ensures printable { IsTrue result → is_printable field.now ≡ true }
{
    !field.is_empty() && has_digits(field)
}

// Digits with a minus or none.
#[tactic(auto, unfolding(crate::specs::Fields::number_in))]
fn number_in(alloc: Global, field: &[u8]) -> Result<Value, Refusal>
    ensures { GivesInMemory (λ v. v) result (number_in field.now) }
{
    let magnitude = magnitude(field);
    if !are_digits(magnitude) {
        return Err(Refusal::WrongType);
    }
    let Some(digits) = plain(magnitude) else {
        return Err(Refusal::WrongType);
    };
    let literal = Literal::Number {
        negative: is_negative(field),
        digits: Digits { digits },
    };
    literal_value(alloc, Kind::Integer, literal)
}

// The field itself, of at most so many bytes.
#[tactic(auto, unfolding(crate::specs::Fields::text_in))]
fn text_in(alloc: Global, most: u8, field: &str) -> Result<Value, Refusal>
    ensures { GivesInMemory (λ v. v) result (text_in most field.now) }
{
    if field.len() > most as usize {
        return Err(Refusal::OutOfRange);
    }
    Ok(Value::Text(Text::new(alloc, field)?))
}

/// A field as a value of a column of this kind.
///
/// `WrongType` where an INTEGER has anything but digits with a minus or none; `OutOfRange` for a number outside 64 bits with a sign, what
/// names no day, a text that is too long, and a byte that is no printable ASCII; `NoMemory`.
#[tactic(auto, unfolding(crate::specs::Fields::field_value))]
pub(crate) fn field_value(alloc: Global, kind: Kind, field: &[u8]) -> Result<Value, Refusal>
    ensures { GivesInMemory (λ v. v) result (field_value kind field.now) }
{
    let Some(text) = plain(field) else {
        return Err(Refusal::OutOfRange);
    };
    match kind {
        Kind::Integer => number_in(alloc, field),
        Kind::Varchar(most) => text_in(alloc, most, text),
        Kind::Date => literal_value(alloc, Kind::Date, Literal::Date(Quoted { source: text })),
        Kind::SystemStart | Kind::SystemEnd => Err(Refusal::NotAssignable),
    }
}
