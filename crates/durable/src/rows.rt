//! Reading the rows of the tables.
ghost use Rattle.std.specs.Prelude.{◌≡◌, ◌+◌, ◌-◌, ◌<◌, ◌≤◌, ◌^◌, ◌∷◌, ◌&&◌, [], Some, Option, ℕ, false, true, ℤ, pos, length, drop, option_map, slice_get, nat_le, string_bytes, IsUtf8, IfOk, OnOk, MatchOption};
ghost use Rattle.sqlite.specs.State.{HasCleanDisk, IsUnchanged, KeepsCommit};
ghost use Rattle.sqlite.specs.Held.{state};
ghost use Rattle.sqlite.specs.Order.{column};
ghost use Rattle.sqlite.specs.declared.types.Value.TheVariants.{Int, Text as Words};
ghost use Rattle.model.specs.declared.entry.Entry.{Entry as Kept};
ghost use Rattle.model.specs.declared.entry.Request.{Request as Asked};
ghost use Rattle.model.specs.Stamps.{TIME_LAST};
ghost use Rattle.keep.specs.Log.{is_numbered};
ghost use Rattle.durable.specs.Contents.{Contents, item_of, entry_in, client_of, number_of, body_of};
ghost use Rattle.durable.specs.Rows.{Holds, entry_values};
ghost use Rattle.durable.specs.Stored.{IsText};

use crate::whole::Whole;
use fault::Text;
use model::entry::{Entry, Request};
use model::request::{Client, RequestNumber};
use model::stamp::{LAST_MICROS, Stamp};
use sqlite::{Alter, Connection, Error, ErrorCode, Row, params};
use std::alloc::AllocError;

/// The number in this column, none where it holds something else.
pub(crate) fn natural_at(row: &Row, at: usize) -> Result<Option<u64>, Error>
    requires { at < length row.now }
    ensures { IfOk result (λ o. MatchOption o ((n : ℕ) → column row.now at ≡ Int (pos n) → ⊥) (λ n. column row.now at ≡ Int (pos n))) }
{
    match row.get::<u64>(at) {
        Ok(number) => Ok(Some(number)),
        Err(Error::SqliteFailure(ErrorCode::OutOfMemory)) => {
            Err(Error::SqliteFailure(ErrorCode::OutOfMemory))
        }
        Err(_) => Ok(None),
    }
}

/// The number with a sign in this column, none where it holds something else.
pub(crate) fn integer_at(row: &Row, at: usize) -> Result<Option<i64>, Error>
    requires { at < length row.now }
    ensures { IfOk result (λ o. MatchOption o ((n : ℤ) → column row.now at ≡ Int n → ⊥) (λ n. column row.now at ≡ Int n)) }
{
    match row.get::<i64>(at) {
        Ok(number) => Ok(Some(number)),
        Err(Error::SqliteFailure(ErrorCode::OutOfMemory)) => {
            Err(Error::SqliteFailure(ErrorCode::OutOfMemory))
        }
        Err(_) => Ok(None),
    }
}

/// The text in this column, none where it holds something else.
fn text_at(row: &Row, at: usize) -> Result<Option<String>, Error>
    requires { at < length row.now }
    ensures { IfOk result (λ o. MatchOption o ((t : _) → column row.now at ≡ Words t → IsUtf8 t → ⊥) (λ s. (column row.now at ≡ Words (string_bytes s)) × IsUtf8 (string_bytes s))) }
{
    match row.get::<String>(at) {
        Ok(found) => {
            let _ = found.as_str();
            Ok(Some(found))
        }
        Err(Error::SqliteFailure(ErrorCode::OutOfMemory)) => {
            Err(Error::SqliteFailure(ErrorCode::OutOfMemory))
        }
        Err(_) => Ok(None),
    }
}

/// The request, or for a Close its absence, that these stand for; none where they stand for neither.
fn request_of(client: u64, number: u64, body: String) -> Result<Option<Option<Request>>, AllocError>
    ensures { IfOk result (λ o. MatchOption o ((r : Option Asked) → client_of r ≡ client → number_of r ≡ number → body_of r ≡ string_bytes body → is_numbered r ≡ true → ⊥) (λ r. (client_of r ≡ client) × (number_of r ≡ number) × (body_of r ≡ string_bytes body) × (is_numbered r ≡ true))) }
{
    if client == 0 {
        if number != 0 || !body.is_empty() {
            return Ok(None);
        }
        return Ok(Some(None));
    }
    if client > 65535 {
        return Ok(None);
    }
    let Some(client) = Client::new(client as u16) else {
        return Ok(None);
    };
    let Some(number) = RequestNumber::new(number) else {
        return Ok(None);
    };
    let text = Text::from_string(body)?;
    Ok(Some(Some(Request {
        client,
        number,
        text,
    })))
}

/// An entry of the log under its number.
#[derive(Debug, Drop)]
pub(crate) struct Numbered {
    pub(crate) index: u64,
    pub(crate) entry: Entry,
}

/// The entry that a row shows, none where it shows none that may stand in a log.
pub(crate) fn entry_shown(row: &Row) -> Result<Option<Numbered>, Error>
    ensures { IfOk result (λ o. MatchOption o ((i : ℕ) (e : Kept) → row.now ≡ entry_values i (item_of e) → e.stamp ≤ TIME_LAST → is_numbered e.request ≡ true → IsText e.request → ⊥) (λ n. (row.now ≡ entry_values n.index (item_of n.entry)) × (n.entry.stamp ≤ TIME_LAST) × (is_numbered n.entry.request ≡ true) × IsText n.entry.request)) }
{
    if row.column_count() != 6 {
        return Ok(None);
    }
    let Some(index) = natural_at(row, 0)? else {
        return Ok(None);
    };
    let Some(term) = natural_at(row, 1)? else {
        return Ok(None);
    };
    let Some(stamp) = natural_at(row, 2)? else {
        return Ok(None);
    };
    let Some(client) = natural_at(row, 3)? else {
        return Ok(None);
    };
    let Some(number) = natural_at(row, 4)? else {
        return Ok(None);
    };
    let Some(body) = text_at(row, 5)? else {
        return Ok(None);
    };
    if stamp > LAST_MICROS {
        return Ok(None);
    }
    let Some(request) = request_of(client, number, body)? else {
        return Ok(None);
    };
    Ok(Some(Numbered {
        index,
        entry: Entry {
            term,
            stamp: Stamp::new(stamp),
            request,
        },
    }))
}

/// The row of the entry with this number, if there is one.
fn find_row<S: Alter>(conn: &mut Connection<S>, number: Whole) -> Result<Option<Row>, Error>
    ensures ok { HasCleanDisk (state S.Store conn.new) → IfOk result (λ row. (d : Contents) (m : ℕ) → Holds (state S.Store conn.old).now d → number.value ≡ m + 1 → row ≡ option_map (entry_values (m + 1)) (slice_get d.log m)) }
    ensures same { HasCleanDisk (state S.Store conn.new) → OnOk result ((d : Contents) → Holds (state S.Store conn.old).now d → IsUnchanged (state S.Store conn.old) (state S.Store conn.new)) }
    ensures keeps { HasCleanDisk (state S.Store conn.new) → (d : Contents) → Holds (state S.Store conn.old).now d → KeepsCommit (state S.Store conn.old) (state S.Store conn.new) }
    ensures autocommit { conn.old.in_transaction ≡ false → conn.new.in_transaction ≡ false }
    ensures clean { HasCleanDisk (state S.Store conn.new) → HasCleanDisk (state S.Store conn.old) }
    ensures limit { conn.new.step_limit ≡ conn.old.step_limit }
{
    let mut rows = conn.query_all(
        "SELECT idx, term, stamp, client, number, body FROM log WHERE idx = ?1",
        params![number],
    )?;
    Ok(rows.pop())
}

/// The entry with this number, if there is one.
pub(crate) fn find_entry<S: Alter>(
    conn: &mut Connection<S>,
    number: Whole,
) -> Result<Option<Entry>, Error>
    ensures ok { HasCleanDisk (state S.Store conn.new) → IfOk result (λ e. (d : Contents) (m : ℕ) → Holds (state S.Store conn.old).now d → number.value ≡ m + 1 → e ≡ option_map entry_in (slice_get d.log m)) }
    ensures same { HasCleanDisk (state S.Store conn.new) → OnOk result ((d : Contents) → Holds (state S.Store conn.old).now d → IsUnchanged (state S.Store conn.old) (state S.Store conn.new)) }
    ensures keeps { HasCleanDisk (state S.Store conn.new) → (d : Contents) → Holds (state S.Store conn.old).now d → KeepsCommit (state S.Store conn.old) (state S.Store conn.new) }
    ensures autocommit { conn.old.in_transaction ≡ false → conn.new.in_transaction ≡ false }
    ensures clean { HasCleanDisk (state S.Store conn.new) → HasCleanDisk (state S.Store conn.old) }
    ensures limit { conn.new.step_limit ≡ conn.old.step_limit }
{
    let Some(row) = find_row(conn, number)? else {
        return Ok(None);
    };
    match entry_shown(&row)? {
        Some(found) => Ok(Some(found.entry)),
        None => Err(Error::SqliteFailure(ErrorCode::DatabaseCorrupt)),
    }
}
