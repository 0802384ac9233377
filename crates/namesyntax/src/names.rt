//! Names, taken from the left.

ghost use Rattle.std.specs.Prelude.{◌≡◌, true, Ok};
ghost use Rattle.std.specs.List.{list_all};
ghost use Rattle.sqltokens.specs.What.{What, whats, is_symbol};
ghost use Rattle.sqltokens.specs.Classes.{is_name};
ghost use Rattle.sqltokens.specs.Lexing.{is_word_byte};
ghost use Rattle.phrase.specs.Grammar.{next, one, many};
ghost use Rattle.phrase.specs.Reading.{Gives, with_front};
ghost use Rattle.namesyntax.specs.Words.{begins_with_letter, is_name_text};
ghost use Rattle.namesyntax.specs.Names.{name_of, names_of, names, another_name, name_list};

use crate::forms::Name;
use crate::lists::{Repeated, row};
use phrase::ReadError;
use sqltokens::{Cursor, Kind, Sign, next_is_sign, sign};
use std::alloc::Global;

fn begins_with_letter(bytes: &[u8]) -> bool
    ensures { result ≡ begins_with_letter bytes.now }
{
    bytes.first().is_some_and(|b| b.is_ascii_alphabetic())
}

fn has_word_bytes(bytes: &[u8]) -> bool
    ensures { result ≡ list_all is_word_byte bytes.now }
{
    bytes
        .iter()
        .all(|b| b.is_ascii_alphanumeric() || *b == b'_')
}

fn is_name_text(bytes: &[u8]) -> bool
    ensures { result ≡ is_name_text bytes.now }
{
    begins_with_letter(bytes) && has_word_bytes(bytes) && bytes.len() <= 32
}

/// The name that these bytes are.
fn name_from(bytes: &[u8]) -> Name<'_>
    requires { is_name_text bytes.now ≡ true }
    ensures { name_of result ≡ bytes.now }
{
    Name {
        written: str::from_utf8(bytes).unwrap(),
    }
}

/// Takes a name. Another token is wrong, and stays. Every name of a text passes the test, which is what
/// lets `Name` say so.
#[tactic(auto, unfolding(crate::specs::Names::names))]
pub fn name<'a>(cursor: &mut Cursor<'_, 'a>) -> Result<Name<'a>, ReadError>
    ensures { Gives (λ x. (name_of x, whats cursor.new.rest.now)) result ((one names).read (whats cursor.old.rest.now)) }
{
    if let [first, rest @ ..] = cursor.rest {
        if let Kind::Name(bytes) = first.kind {
            if is_name_text(bytes) {
                cursor.rest = rest;
                return Ok(name_from(bytes));
            }
        }
    }
    Err(ReadError::Wrong(cursor.rest.len()))
}

/// Whether the next token is a name.
pub fn next_is_name(cursor: &Cursor) -> bool
    ensures { result ≡ next is_name (whats cursor.now.rest.now) }
{
    match cursor.rest {
        [first, ..] => matches!(first.kind, Kind::Name(_)),
        [] => false,
    }
}

/// A name with a comma before it.
pub struct AnotherName;

impl<'a> Repeated<'a> for AnotherName {
    ghost use Rattle.sqltokens.specs.declared.token.Sign.TheVariants.{Comma};
    ghost use Rattle.namesyntax.specs.Names.{Bytes};

    type Item = Name<'a>;

    ghost Form = { Bytes };

    ghost form = { name_of };

    ghost begins = { is_symbol Comma };

    ghost reads = { another_name.read };

    fn is_next(cursor: &Cursor<'_, 'a>) -> bool {
        next_is_sign(cursor, Sign::Comma)
    }

    #[tactic(auto, unfolding(crate::specs::Names::another_name))]
    fn read(_alloc: Global, cursor: &mut Cursor<'_, 'a>) -> Result<Name<'a>, ReadError> {
        sign(cursor, Sign::Comma)?;
        name(cursor)
    }
}

/// Takes one or more names with a comma between each two.
#[tactic(auto, unfolding(crate::specs::Names::name_list))]
pub fn name_list<'a>(alloc: Global, cursor: &mut Cursor<'_, 'a>) -> Result<Vec<Name<'a>>, ReadError>
    ensures { Gives (λ x. (names_of x.items, whats cursor.new.rest.now)) result (name_list.read (whats cursor.old.rest.now)) }
{
    let first = name(cursor)?;
    row::<AnotherName>(alloc, first, cursor)
}
