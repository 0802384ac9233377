//! What the tables hold: whether it forms a log, and what is read of it as a whole.
ghost use Rattle.std.specs.Prelude.{◌≡◌, ◌+◌, ◌-◌, ◌<◌, ◌≤◌, ◌∷◌, [], Some, Option, List, ℕ, false, true, length, map, drop, vec_len, IfOk, OnOk, IsTrue, MatchOption};
ghost use Rattle.std.specs.List.Sorted.{IsPermutation};
ghost use Rattle.sqlite.specs.State.{HasCleanDisk, IsUnchanged, KeepsCommit};
ghost use Rattle.sqlite.specs.Held.{state};
ghost use Rattle.sqlread.specs.Meaning.{language_of};
ghost use Rattle.model.specs.Steps.{is_floor, TERM_LAST};
ghost use Rattle.keep.specs.Durable.{Durable, tail_of};
ghost use Rattle.keep.specs.Log.{is_vote};
ghost use Rattle.durable.specs.Contents.{Contents, Item, entries_in, number_of_vote, vote_in};
ghost use Rattle.durable.specs.Tables.{schema as ours};
ghost use Rattle.durable.specs.Rows.{Holds, meta_row, floor_row, shown_meta, shown_floor, shown_entry, in_order, log_rows, shown_log};
ghost use Rattle.durable.specs.Judging.{HasHard, HasNoHard, IsNoLog, IsFound};
ghost use Rattle.durable.specs.Stored.{IsBad, IsOpened, IsSound, Offers};

use crate::judging::{Meta, floor_shown, log_shown, meta_shown};
use crate::opening::set_up;
use crate::rows::find_entry;
use crate::whole::Whole;
use keep::{HardState, State, TAIL_MOST};
use model::entry::Entry;
use model::member::Member;
use model::message::LOG_ROOM;
use model::stamp::Stamp;
use schema::Schema;
use sqlite::{Alter, Connection, Error, ErrorCode, Row};
use std::alloc::Global;

/// The rows of meta.
fn read_meta<S: Alter>(conn: &mut Connection<S>) -> Result<Vec<Row>, Error>
    ensures ok { HasCleanDisk (state S.Store conn.new) → IfOk result (λ rows. (state S.Store conn.old).now.schema ≡ ours → IsPermutation (map shown_meta ((state S.Store conn.old).now.trees 0)) rows.items) }
    ensures same { HasCleanDisk (state S.Store conn.new) → OnOk result ((state S.Store conn.old).now.schema ≡ ours → IsUnchanged (state S.Store conn.old) (state S.Store conn.new)) }
    ensures keeps { HasCleanDisk (state S.Store conn.new) → (state S.Store conn.old).now.schema ≡ ours → KeepsCommit (state S.Store conn.old) (state S.Store conn.new) }
    ensures autocommit { conn.old.in_transaction ≡ false → conn.new.in_transaction ≡ false }
    ensures clean { HasCleanDisk (state S.Store conn.new) → HasCleanDisk (state S.Store conn.old) }
    ensures limit { conn.new.step_limit ≡ conn.old.step_limit }
{
    let rows = conn.query_all("SELECT id, term, vote FROM meta", &[])?;
    Ok(rows)
}

/// The term and the vote, none where meta has no such row.
fn find_meta<S: Alter>(conn: &mut Connection<S>) -> Result<Option<Meta>, Error>
    ensures ok { HasCleanDisk (state S.Store conn.new) → IfOk result (λ o. (state S.Store conn.old).now.schema ≡ ours → MatchOption o ((t v : ℕ) → (state S.Store conn.old).now.trees 0 ≡ meta_row t v ∷ [] → t ≤ TERM_LAST → ⊥) (λ m. ((state S.Store conn.old).now.trees 0 ≡ meta_row m.term (number_of_vote m.vote) ∷ []) × (m.term ≤ TERM_LAST) × (vote_in (number_of_vote m.vote) ≡ m.vote))) }
    ensures same { HasCleanDisk (state S.Store conn.new) → OnOk result ((state S.Store conn.old).now.schema ≡ ours → IsUnchanged (state S.Store conn.old) (state S.Store conn.new)) }
    ensures keeps { HasCleanDisk (state S.Store conn.new) → (state S.Store conn.old).now.schema ≡ ours → KeepsCommit (state S.Store conn.old) (state S.Store conn.new) }
    ensures autocommit { conn.old.in_transaction ≡ false → conn.new.in_transaction ≡ false }
    ensures clean { HasCleanDisk (state S.Store conn.new) → HasCleanDisk (state S.Store conn.old) }
    ensures limit { conn.new.step_limit ≡ conn.old.step_limit }
{
    let _ = conn.schema();
    let rows = read_meta(conn)?;
    let meta = meta_shown(&rows)?;
    Ok(meta)
}

/// The rows of floor.
fn read_floor<S: Alter>(conn: &mut Connection<S>) -> Result<Vec<Row>, Error>
    ensures ok { HasCleanDisk (state S.Store conn.new) → IfOk result (λ rows. (state S.Store conn.old).now.schema ≡ ours → IsPermutation (map shown_floor ((state S.Store conn.old).now.trees 2)) rows.items) }
    ensures same { HasCleanDisk (state S.Store conn.new) → OnOk result ((state S.Store conn.old).now.schema ≡ ours → IsUnchanged (state S.Store conn.old) (state S.Store conn.new)) }
    ensures keeps { HasCleanDisk (state S.Store conn.new) → (state S.Store conn.old).now.schema ≡ ours → KeepsCommit (state S.Store conn.old) (state S.Store conn.new) }
    ensures autocommit { conn.old.in_transaction ≡ false → conn.new.in_transaction ≡ false }
    ensures clean { HasCleanDisk (state S.Store conn.new) → HasCleanDisk (state S.Store conn.old) }
    ensures limit { conn.new.step_limit ≡ conn.old.step_limit }
{
    let rows = conn.query_all("SELECT id, t FROM floor", &[])?;
    Ok(rows)
}

/// The floor, none where floor has no such row.
fn find_floor<S: Alter>(conn: &mut Connection<S>) -> Result<Option<Option<Stamp>>, Error>
    ensures ok { HasCleanDisk (state S.Store conn.new) → IfOk result (λ o. (state S.Store conn.old).now.schema ≡ ours → MatchOption o ((f : Option ℕ) → (state S.Store conn.old).now.trees 2 ≡ floor_row f ∷ [] → is_floor f ≡ true → ⊥) (λ f. ((state S.Store conn.old).now.trees 2 ≡ floor_row f ∷ []) × (is_floor f ≡ true))) }
    ensures same { HasCleanDisk (state S.Store conn.new) → OnOk result ((state S.Store conn.old).now.schema ≡ ours → IsUnchanged (state S.Store conn.old) (state S.Store conn.new)) }
    ensures keeps { HasCleanDisk (state S.Store conn.new) → (state S.Store conn.old).now.schema ≡ ours → KeepsCommit (state S.Store conn.old) (state S.Store conn.new) }
    ensures autocommit { conn.old.in_transaction ≡ false → conn.new.in_transaction ≡ false }
    ensures clean { HasCleanDisk (state S.Store conn.new) → HasCleanDisk (state S.Store conn.old) }
    ensures limit { conn.new.step_limit ≡ conn.old.step_limit }
{
    let _ = conn.schema();
    let rows = read_floor(conn)?;
    let floor = floor_shown(&rows)?;
    Ok(floor)
}

/// The hard state, none where the rows of meta and floor are those of none.
fn find_hard<S: Alter>(conn: &mut Connection<S>) -> Result<Option<HardState>, Error>
    ensures ok { HasCleanDisk (state S.Store conn.new) → IfOk result (λ o. (state S.Store conn.old).now.schema ≡ ours → MatchOption o (HasNoHard (state S.Store conn.old).now) (HasHard (state S.Store conn.old).now)) }
    ensures same { HasCleanDisk (state S.Store conn.new) → OnOk result ((state S.Store conn.old).now.schema ≡ ours → IsUnchanged (state S.Store conn.old) (state S.Store conn.new)) }
    ensures keeps { HasCleanDisk (state S.Store conn.new) → (state S.Store conn.old).now.schema ≡ ours → KeepsCommit (state S.Store conn.old) (state S.Store conn.new) }
    ensures autocommit { conn.old.in_transaction ≡ false → conn.new.in_transaction ≡ false }
    ensures clean { HasCleanDisk (state S.Store conn.new) → HasCleanDisk (state S.Store conn.old) }
    ensures limit { conn.new.step_limit ≡ conn.old.step_limit }
{
    let Some(meta) = find_meta(conn)? else {
        return Ok(None);
    };
    let Some(floor) = find_floor(conn)? else {
        return Ok(None);
    };
    Ok(Some(HardState {
        term: meta.term,
        vote: meta.vote,
        floor,
    }))
}

/// The rows of the log, by their numbers.
fn read_log<S: Alter>(conn: &mut Connection<S>) -> Result<Vec<Row>, Error>
    ensures ok { HasCleanDisk (state S.Store conn.new) → IfOk result (λ rows. (state S.Store conn.old).now.schema ≡ ours → IsPermutation (map shown_entry ((state S.Store conn.old).now.trees 1)) rows.items) }
    ensures known { HasCleanDisk (state S.Store conn.new) → IfOk result (λ rows. (state S.Store conn.old).now.schema ≡ ours → (es : List Item) → in_order ((state S.Store conn.old).now.trees 1) ≡ log_rows 1 es → rows.items ≡ shown_log 1 es) }
    ensures same { HasCleanDisk (state S.Store conn.new) → OnOk result ((state S.Store conn.old).now.schema ≡ ours → IsUnchanged (state S.Store conn.old) (state S.Store conn.new)) }
    ensures keeps { HasCleanDisk (state S.Store conn.new) → (state S.Store conn.old).now.schema ≡ ours → KeepsCommit (state S.Store conn.old) (state S.Store conn.new) }
    ensures autocommit { conn.old.in_transaction ≡ false → conn.new.in_transaction ≡ false }
    ensures clean { HasCleanDisk (state S.Store conn.new) → HasCleanDisk (state S.Store conn.old) }
    ensures limit { conn.new.step_limit ≡ conn.old.step_limit }
{
    let rows = conn.query_all(
        "SELECT idx, term, stamp, client, number, body FROM log ORDER BY idx",
        &[],
    )?;
    Ok(rows)
}

/// No vote, or one for a member.
fn is_vote(members: usize, vote: Option<Member>) -> bool
    ensures { result ≡ is_vote members vote }
{
    match vote {
        None => true,
        Some(member) => 0 < member && member <= members,
    }
}

/// The log that the tables hold, none where they hold no log.
fn judge<S: Alter>(
    alloc: Global,
    conn: &mut Connection<S>,
    members: usize,
    schema: &Schema,
) -> Result<Option<Vec<Entry>>, Error>
    ensures ok { HasCleanDisk (state S.Store conn.new) → IfOk result (λ o. (state S.Store conn.old).now.schema ≡ ours → MatchOption o (IsNoLog (state S.Store conn.old).now members (language_of schema.now)) (λ log. IsFound (state S.Store conn.old).now members (language_of schema.now) log.items)) }
    ensures short { IfOk result (λ o. MatchOption o (Unit {0}) (λ log. vec_len log ≤ 100000)) }
    ensures same { HasCleanDisk (state S.Store conn.new) → OnOk result ((state S.Store conn.old).now.schema ≡ ours → IsUnchanged (state S.Store conn.old) (state S.Store conn.new)) }
    ensures keeps { HasCleanDisk (state S.Store conn.new) → (state S.Store conn.old).now.schema ≡ ours → KeepsCommit (state S.Store conn.old) (state S.Store conn.new) }
    ensures autocommit { conn.old.in_transaction ≡ false → conn.new.in_transaction ≡ false }
    ensures clean { HasCleanDisk (state S.Store conn.new) → HasCleanDisk (state S.Store conn.old) }
    ensures limit { conn.new.step_limit ≡ conn.old.step_limit }
{
    let _ = conn.schema();
    let Some(hard) = find_hard(conn)? else {
        return Ok(None);
    };
    if !is_vote(members, hard.vote) {
        return Ok(None);
    }
    let rows = read_log(conn)?;
    if rows.len() > LOG_ROOM {
        return Ok(None);
    }
    let log = log_shown(alloc, schema, hard.term, &rows)?;
    Ok(log)
}

/// Makes the tables that are missing, and gives the log that is there then; none where no open
/// finds a log of such a member.
pub(crate) fn find_log<S: Alter>(
    alloc: Global,
    conn: &mut Connection<S>,
    members: usize,
    schema: &Schema,
) -> Result<Option<Vec<Entry>>, Error>
    requires out { conn.old.in_transaction ≡ false }
    requires settled { IsTrue (state S.Store conn.old).is_open → (state S.Store conn.old).now ≡ (state S.Store conn.old).committed }
    ensures ok { HasCleanDisk (state S.Store conn.new) → IfOk result (λ o. MatchOption o (IsBad (state S.Store conn.new) members (language_of schema.now)) (λ log. IsOpened (state S.Store conn.old) (state S.Store conn.new) members (language_of schema.now) log.items)) }
    ensures short { IfOk result (λ o. MatchOption o (Unit {0}) (λ log. vec_len log ≤ 100000)) }
    ensures autocommit { conn.new.in_transaction ≡ false }
    ensures clean { HasCleanDisk (state S.Store conn.new) → HasCleanDisk (state S.Store conn.old) }
    ensures limit { conn.new.step_limit ≡ conn.old.step_limit }
    ensures left { (d : Durable) → Offers (state S.Store conn.new) d → Offers (state S.Store conn.old) d }
    ensures kept { IsSound (state S.Store conn.new) → (d : Durable) → Offers (state S.Store conn.old) d → Offers (state S.Store conn.new) d }
{
    let ready = set_up(conn)?;
    if !ready {
        return Ok(None);
    }
    judge(alloc, conn, members, schema)
}

/// The entries of a log of this length after the first `before`.
fn read_tail<S: Alter>(
    alloc: Global,
    conn: &mut Connection<S>,
    before: usize,
    count: usize,
) -> Result<Vec<Entry>, Error>
    requires { count ≤ 100000 }
    ensures ok { HasCleanDisk (state S.Store conn.new) → IfOk result (λ es. (d : Contents) → Holds (state S.Store conn.old).now d → IsTrue (state S.Store conn.old).is_open → count ≡ length d.log → before ≤ count → es.items ≡ drop before (entries_in d.log)) }
    ensures same { HasCleanDisk (state S.Store conn.new) → OnOk result ((d : Contents) → Holds (state S.Store conn.old).now d → IsTrue (state S.Store conn.old).is_open → IsUnchanged (state S.Store conn.old) (state S.Store conn.new)) }
    ensures keeps { HasCleanDisk (state S.Store conn.new) → (d : Contents) → Holds (state S.Store conn.old).now d → IsTrue (state S.Store conn.old).is_open → KeepsCommit (state S.Store conn.old) (state S.Store conn.new) }
    ensures autocommit { conn.old.in_transaction ≡ false → conn.new.in_transaction ≡ false }
    ensures clean { HasCleanDisk (state S.Store conn.new) → HasCleanDisk (state S.Store conn.old) }
    ensures limit { conn.new.step_limit ≡ conn.old.step_limit }
{
    let mut tail = Vec::new(alloc);
    'each: for i in before..count {
        let number = Whole {
            value: i as u64 + 1,
        };
        let Some(entry) = find_entry(conn, number)? else {
            return Err(Error::SqliteFailure(ErrorCode::DatabaseCorrupt));
        };
        tail.push(entry)?;
    }
    Ok(tail)
}

/// The hard state and the end of a log of this length.
pub(crate) fn read_state<S: Alter>(
    alloc: Global,
    conn: &mut Connection<S>,
    count: usize,
) -> Result<State, Error>
    requires { count ≤ 100000 }
    ensures ok { HasCleanDisk (state S.Store conn.new) → IfOk result (λ s. (d : Contents) → Holds (state S.Store conn.old).now d → count ≡ length d.log → (s.hard ≡ record { term = d.term; vote = vote_in d.vote; floor = d.floor }) × (s.length ≡ length d.log) × (s.tail.items ≡ tail_of (entries_in d.log))) }
    ensures same { HasCleanDisk (state S.Store conn.new) → OnOk result ((d : Contents) → Holds (state S.Store conn.old).now d → IsUnchanged (state S.Store conn.old) (state S.Store conn.new)) }
    ensures keeps { HasCleanDisk (state S.Store conn.new) → (d : Contents) → Holds (state S.Store conn.old).now d → KeepsCommit (state S.Store conn.old) (state S.Store conn.new) }
    ensures autocommit { conn.old.in_transaction ≡ false → conn.new.in_transaction ≡ false }
    ensures clean { HasCleanDisk (state S.Store conn.new) → HasCleanDisk (state S.Store conn.old) }
    ensures limit { conn.new.step_limit ≡ conn.old.step_limit }
{
    let Some(hard) = find_hard(conn)? else {
        return Err(Error::SqliteFailure(ErrorCode::DatabaseCorrupt));
    };
    let before = count.saturating_sub(TAIL_MOST);
    let tail = read_tail(alloc, conn, before, count)?;
    Ok(State {
        hard,
        length: count,
        tail,
    })
}
