//! The tokens of a text taken from the left.

ghost use Rattle.std.specs.Prelude.{◌≡◌, Ok};
ghost use Rattle.sqltokens.specs.What.{what_of, whats, is_word, is_symbol};
ghost use Rattle.phrase.specs.Grammar.{expect, next, one};
ghost use Rattle.phrase.specs.Reading.{Gives};
ghost use Rattle.sqltokens.specs.Classes.{digits, texts, dates, points, has_shape, is_text};

use crate::token::{Digits, Keyword, Kind, Quoted, Sign, Token};
use phrase::ReadError;

/// The tokens that are left.
#[derive(Drop)]
pub struct Cursor<'t, 'a> {
    pub rest: &'t [Token<'a>],
}

fn is_word(kind: Kind, keyword: Keyword) -> bool
    ensures { result ≡ is_word keyword (what_of kind.entry) }
{
    match kind {
        Kind::Keyword(k) => k == keyword,
        _ => false,
    }
}

fn is_sign(kind: Kind, sign: Sign) -> bool
    ensures { result ≡ is_symbol sign (what_of kind.entry) }
{
    match kind {
        Kind::Sign(s) => s == sign,
        _ => false,
    }
}

/// Passes a keyword. Another token is wrong.
pub fn word(cursor: &mut Cursor, keyword: Keyword) -> Result<(), ReadError>
    ensures { Gives (λ _. whats cursor.new.rest.now) result (expect (is_word keyword) (whats cursor.old.rest.now)) }
{
    if let [first, rest @ ..] = cursor.rest {
        if is_word(first.kind, keyword) {
            cursor.rest = rest;
            return Ok(());
        }
    }
    Err(ReadError::Wrong(cursor.rest.len()))
}

/// Passes a sign. Another token is wrong.
pub fn sign(cursor: &mut Cursor, sign: Sign) -> Result<(), ReadError>
    ensures { Gives (λ _. whats cursor.new.rest.now) result (expect (is_symbol sign) (whats cursor.old.rest.now)) }
{
    if let [first, rest @ ..] = cursor.rest {
        if is_sign(first.kind, sign) {
            cursor.rest = rest;
            return Ok(());
        }
    }
    Err(ReadError::Wrong(cursor.rest.len()))
}

/// Whether the next token is this keyword.
pub fn next_is(cursor: &Cursor, keyword: Keyword) -> bool
    ensures { result ≡ next (is_word keyword) (whats cursor.now.rest.now) }
{
    match cursor.rest {
        [first, ..] => is_word(first.kind, keyword),
        [] => false,
    }
}

/// Whether the next token is this sign.
pub fn next_is_sign(cursor: &Cursor, sign: Sign) -> bool
    ensures { result ≡ next (is_symbol sign) (whats cursor.now.rest.now) }
{
    match cursor.rest {
        [first, ..] => is_sign(first.kind, sign),
        [] => false,
    }
}

/// Whether the next token is a text.
pub fn next_is_text(cursor: &Cursor) -> bool
    ensures { result ≡ next is_text (whats cursor.now.rest.now) }
{
    match cursor.rest {
        [first, ..] => matches!(first.kind, Kind::Text(_)),
        [] => false,
    }
}

/// Takes digits. Another token is wrong.
#[tactic(auto, unfolding(crate::specs::Classes::digits))]
pub fn digits<'a>(cursor: &mut Cursor<'_, 'a>) -> Result<Digits<'a>, ReadError>
    ensures { Gives (λ x. (x.digits.now, whats cursor.new.rest.now)) result ((one digits).read (whats cursor.old.rest.now)) }
{
    if let [first, rest @ ..] = cursor.rest {
        if let Kind::Digits(digits) = first.kind {
            cursor.rest = rest;
            return Ok(digits);
        }
    }
    Err(ReadError::Wrong(cursor.rest.len()))
}

/// Takes a text. Another token is wrong.
#[tactic(auto, unfolding(crate::specs::Classes::texts))]
pub fn text<'a>(cursor: &mut Cursor<'_, 'a>) -> Result<Quoted<'a>, ReadError>
    ensures { Gives (λ x. (x.source.now, whats cursor.new.rest.now)) result ((one texts).read (whats cursor.old.rest.now)) }
{
    if let [first, rest @ ..] = cursor.rest {
        if let Kind::Text(quoted) = first.kind {
            cursor.rest = rest;
            return Ok(quoted);
        }
    }
    Err(ReadError::Wrong(cursor.rest.len()))
}

/// Whether the bytes are as the shape: a digit where it has a `d`, and else its byte.
pub fn has_shape(shape: &[u8], text: &[u8]) -> bool
    ensures { result ≡ has_shape shape.now text.now }
{
    let mut rest = text;
    for d in shape {
        if let [b, after @ ..] = rest {
            if *d == b'd' {
                if !b.is_ascii_digit() {
                    return false;
                }
            } else if *d != *b {
                return false;
            }
            rest = after;
        } else {
            return false;
        }
    }
    rest.is_empty()
}

/// Takes a text of the shape dddd-dd-dd. Another token is wrong.
#[tactic(auto, unfolding(crate::specs::Classes::dates))]
pub fn date_text<'a>(cursor: &mut Cursor<'_, 'a>) -> Result<Quoted<'a>, ReadError>
    ensures { Gives (λ x. (x.source.now, whats cursor.new.rest.now)) result ((one dates).read (whats cursor.old.rest.now)) }
{
    if let [first, rest @ ..] = cursor.rest {
        if let Kind::Text(text) = first.kind {
            if has_shape(b"dddd-dd-dd", text.source.as_bytes()) {
                cursor.rest = rest;
                return Ok(text);
            }
        }
    }
    Err(ReadError::Wrong(cursor.rest.len()))
}

/// Takes a text of the shape dddd-dd-dd dd:dd:dd.dddddd. Another token is wrong.
#[tactic(auto, unfolding(crate::specs::Classes::points))]
pub fn point_text<'a>(cursor: &mut Cursor<'_, 'a>) -> Result<Quoted<'a>, ReadError>
    ensures { Gives (λ x. (x.source.now, whats cursor.new.rest.now)) result ((one points).read (whats cursor.old.rest.now)) }
{
    if let [first, rest @ ..] = cursor.rest {
        if let Kind::Text(text) = first.kind {
            if has_shape(b"dddd-dd-dd dd:dd:dd.dddddd", text.source.as_bytes()) {
                cursor.rest = rest;
                return Ok(text);
            }
        }
    }
    Err(ReadError::Wrong(cursor.rest.len()))
}
