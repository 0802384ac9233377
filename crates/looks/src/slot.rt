//! The values of tables, as people are shown them.
use crate::bare::Bare;
use answer::{Shown, Shows};
use model::literal::Literal;
use model::value::Value;
use std::alloc::{AllocError, Global};

// What kind of value a cell shows.
#[derive(Clone, Copy, PartialEq, Eq)]
pub(crate) enum Kind {
    Number,
    Instant,
    Other,
}

// What a column shows of a row.
#[derive(Drop)]
pub(crate) struct Slot {
    pub(crate) kind: Kind,
    pub(crate) text: String,
}

pub(crate) fn slot_of(alloc: Global, row: &Shown, shows: Shows) -> Result<Slot, AllocError> {
    let text = shown_value(alloc, row, shows)?;
    let kind = kind_of(row, shows);
    Ok(Slot { kind, text })
}

/// What a column shows of a row, for people: a text is bare, but in quotes, doubled within, where its ends could not be
/// seen (it is empty, has a blank at an end or a quote in front), and an open system end is `open`. The error is want of
/// memory.
pub fn shown_value(alloc: Global, row: &Shown, shows: Shows) -> Result<String, AllocError> {
    if shows == Shows::SystemEnd && row.end.is_none() {
        return String::from_str(alloc, "open");
    }
    match value_of(row, shows) {
        Some(value) if has_hidden_ends(value) => Literal(value).to_string(alloc),
        _ => Bare { row, shows }.to_string(alloc),
    }
}

// The value that a row has where a column shows a value.
fn value_of(row: &Shown, shows: Shows) -> Option<&Value> {
    match shows {
        Shows::Key(place) => row.key.get(place),
        Shows::Value(place) => row.values.get(place),
        _ => None,
    }
}

fn kind_of(row: &Shown, shows: Shows) -> Kind {
    match (shows, value_of(row, shows)) {
        (Shows::SystemStart, _) | (Shows::SystemEnd, _) => Kind::Instant,
        (_, Some(Value::Number(_))) => Kind::Number,
        _ => Kind::Other,
    }
}

// Whether it is a text that is empty, has a blank at an end or a quote in front.
fn has_hidden_ends(value: &Value) -> bool {
    let Value::Text(text) = value else {
        return false;
    };
    let bytes = text.as_str().as_bytes();
    match (bytes.first(), bytes.last()) {
        (Some(first), Some(last)) => *first == b' ' || *first == b'\'' || *last == b' ',
        _ => true,
    }
}
