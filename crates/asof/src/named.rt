//! The key and the day that a WHERE names, so that only the key's versions near the day need be looked at.
ghost use Rattle.std.specs.Prelude.{◌≡◌, ◌<◌, ℕ, None, length, option_map, IfOk, IfSome};
ghost use Rattle.std.specs.Option.{option_copied};
ghost use Rattle.current.specs.Named.{equal_at};
ghost use Rattle.asof.specs.Named.{said_by, said_at, day_by, day_of, IsNamed};

use model::value::Value;
use overlaps::Key;
use period::Day;
use sqlchecks::comparison::Comparison;
use sqlchecks::field::Field;
use sqlread::term::Term;
use sqlsyntax::Operator;
use std::alloc::{AllocError, Global};

// What the key column at this place is to be equal to, if the comparison says so.
fn equal_at(comparison: &Comparison, place: usize) -> Option<&Value>
    ensures { option_copied result ≡ equal_at place comparison.now.operator comparison.now.field comparison.now.value }
{
    let Operator::Equal = comparison.operator else {
        return None;
    };
    match comparison.field {
        Field::Key(column) if column == place => Some(&comparison.value),
        _ => None,
    }
}

// The same of a term.
fn said_by(term: &Term, place: usize) -> Option<&Value>
    ensures { option_copied result ≡ said_by place term.now }
{
    match term {
        Term::Compares(comparison) => equal_at(comparison, place),
        _ => None,
    }
}

// The same of all terms: the first that says it counts.
fn said_at(terms: &[Term], place: usize) -> Option<&Value>
    ensures { option_copied result ≡ said_at place terms.now }
{
    for term in terms {
        if let Some(value) = said_by(term, place) {
            return Some(value);
        }
    }
    None
}

/// The key of so many columns that the terms name, if they name each of its columns with `=`.
pub(crate) fn named_key(
    alloc: Global,
    terms: &[Term],
    columns: usize,
) -> Result<Option<Key>, AllocError>
    ensures some { IfOk result (λ found. IfSome found (λ key. (length key ≡ columns) × IsNamed terms.now key)) }
    ensures none { IfOk result (λ found. found ≡ None → (place : ℕ) × (place < columns) × (said_at place terms.now ≡ None)) }
{
    let mut values = Vec::new(alloc);
    for place in 0..columns {
        let Some(value) = said_at(terms, place) else {
            return Ok(None);
        };
        values.push(value.clone()?)?;
    }
    Ok(Some(Key::new(values)?))
}

// The day that the term asks for.
fn day_by(term: &Term) -> Option<Day>
    ensures { option_map (λ day. day.number) result ≡ day_by term.now }
{
    match term {
        Term::ContainsDay(day) => Some(*day),
        _ => None,
    }
}

/// The day of the first term that asks whether the period contains a day.
pub(crate) fn named_day(terms: &[Term]) -> Option<Day>
    ensures { option_map (λ day. day.number) result ≡ day_of terms.now }
{
    for term in terms {
        if let Some(day) = day_by(term) {
            return Some(day);
        }
    }
    None
}
