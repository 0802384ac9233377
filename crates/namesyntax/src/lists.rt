//! Lists of texts: what is repeated as long as the next token begins one more.

ghost use Rattle.std.specs.Prelude.{◌≡◌, ◌<◌, ℕ, Bool, List, [], ◌∷◌, Result, IfOk, map, length};
ghost use Rattle.sqltokens.specs.What.{What, whats};
ghost use Rattle.phrase.specs.Grammar.{next, read_many};
ghost use Rattle.phrase.specs.Reading.{Gives, with_front};

use phrase::ReadError;
use sqltokens::Cursor;
use std::alloc::Global;

/// What a list repeats, with the separator before or after it where it has one.
pub trait Repeated<'a> {
    type Item: Drop;

    ghost Form: { Type 0 };

    // what an item says
    ghost form: { Self.Item → Form };

    // which tokens begin one more
    ghost begins: { What → Bool };

    // how one is read
    ghost reads: { List What → Result (Form × List What) ℕ };

    /// Whether the next token begins one more.
    fn is_next(cursor: &Cursor<'_, 'a>) -> bool
        ensures { result ≡ next begins (whats cursor.now.rest.now) };

    /// Takes one. It takes a token at least.
    fn read(alloc: Global, cursor: &mut Cursor<'_, 'a>) -> Result<Self::Item, ReadError>
        ensures item { Gives (λ x. (form x, whats cursor.new.rest.now)) result (reads (whats cursor.old.rest.now)) }
        ensures shorter { IfOk result (λ _. length cursor.new.rest.now < length cursor.old.rest.now) };
}

/// Takes the items that still come, which may be none, and puts them at the end of `all`.
pub fn more<'a, R: Repeated<'a>>(
    alloc: Global,
    all: &mut Vec<R::Item>,
    cursor: &mut Cursor<'_, 'a>,
) -> Result<(), ReadError>
    ensures { Gives (λ _. (map R.form all.new.items, whats cursor.new.rest.now)) result (with_front (map R.form all.old.items) (read_many R.begins R.reads (length (whats cursor.old.rest.now)) (whats cursor.old.rest.now))) }
{
    while R::is_next(cursor) {
        let item = R::read(alloc, cursor)?;
        all.push(item)?;
    }
    Ok(())
}

/// Takes the items that come behind the first one, and gives all of them.
pub fn row<'a, R: Repeated<'a>>(
    alloc: Global,
    first: R::Item,
    cursor: &mut Cursor<'_, 'a>,
) -> Result<Vec<R::Item>, ReadError>
    ensures { Gives (λ x. (map R.form x.items, whats cursor.new.rest.now)) result (with_front (R.form first ∷ []) (read_many R.begins R.reads (length (whats cursor.old.rest.now)) (whats cursor.old.rest.now))) }
{
    let mut all = Vec::new(alloc);
    all.push(first)?;
    more::<R>(alloc, &mut all, cursor)?;
    Ok(all)
}
