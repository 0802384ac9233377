//! Whether rows form a log.
ghost use Rattle.std.specs.Prelude.{◌≡◌, ◌≢◌, ◌+◌, ◌<◌, ◌≤◌, ◌^◌, ◌∷◌, [], Some, None, Option, ℕ, false, true, pos, length, IfOk, OnOk, MatchOption};
ghost use Rattle.model.specs.declared.entry.Entry.{Entry as Kept};
ghost use Rattle.model.specs.Steps.{is_floor, spells, TERM_LAST};
ghost use Rattle.sqlread.specs.Meaning.{language_of};
ghost use Rattle.durable.specs.Contents.{item_of, items_of, number_of_vote, number_of_floor, vote_in};
ghost use Rattle.durable.specs.Rows.{entry_values, floor_values, meta_values, shown_log};
ghost use Rattle.durable.specs.Judging.{Follows, Forms, Go};

use crate::rows::{entry_shown, integer_at, natural_at};
use model::entry::{Entry, Request};
use model::member::Member;
use model::message::LAST_TERM;
use model::stamp::{LAST_MICROS, Stamp};
use schema::Schema;
use sqlite::{Error, Row};
use sqlread::transaction::misreading;
use std::alloc::{AllocError, Global};

/// Whether the text of a request spells a transaction.
#[tactic(auto, using(crate::proofs::Judged::spelled))]
fn spells(alloc: Global, schema: &Schema, request: &Option<Request>) -> Result<bool, AllocError>
    ensures { IfOk result (λ b. b ≡ spells (language_of schema.now) request.now) }
{
    match request {
        None => Ok(true),
        Some(request) => {
            let why = misreading(alloc, schema, request.text.as_str())?;
            Ok(why.is_none())
        }
    }
}

/// The entry that a row shows, where it may come next: under this number, in a member of the term
/// `top`, after an entry of this term, with a stamp from `least` on.
fn next_entry(
    alloc: Global,
    schema: &Schema,
    top: u64,
    at: u64,
    term: u64,
    least: u64,
    row: &Row,
) -> Result<Option<Entry>, Error>
    ensures { IfOk result (λ o. MatchOption o ((e : Kept) → row.now ≡ entry_values at (item_of e) → Follows (language_of schema.now) top term least e → ⊥) (λ e. (row.now ≡ entry_values at (item_of e)) × Follows (language_of schema.now) top term least e)) }
{
    let Some(found) = entry_shown(row)? else {
        return Ok(None);
    };
    if found.index != at {
        return Ok(None);
    }
    let entry = found.entry;
    if entry.term == 0 || entry.term < term || entry.term > top {
        return Ok(None);
    }
    if entry.stamp.micros() < least {
        return Ok(None);
    }
    if !spells(alloc, schema, &entry.request)? {
        return Ok(None);
    }
    Ok(Some(entry))
}

/// The entries that the rows of the log show, where these form one, in a member of the term `top`.
pub(crate) fn log_shown(
    alloc: Global,
    schema: &Schema,
    top: u64,
    rows: &[Row],
) -> Result<Option<Vec<Entry>>, Error>
    requires { length rows.now ≤ 100000 }
    ensures { IfOk result (λ o. MatchOption o (Forms (language_of schema.now) top 1 0 0 rows.now → ⊥) (λ log. (rows.now ≡ shown_log 1 (items_of log.items)) × Go (language_of schema.now) top 0 0 log.items)) }
{
    let mut log = Vec::new(alloc);
    let mut at = 1;
    let mut term = 0;
    let mut least = 0;
    'each: for row in rows {
        let Some(entry) = next_entry(alloc, schema, top, at, term, least, row)? else {
            return Ok(None);
        };
        at += 1;
        term = entry.term;
        least = entry.stamp.micros() + 1;
        log.push(entry)?;
    }
    Ok(Some(log))
}

/// What the row of meta tells.
#[derive(Clone, Copy, Debug)]
pub(crate) struct Meta {
    pub(crate) term: u64,
    pub(crate) vote: Option<Member>,
}

/// What the rows of meta show, none where they show no term and vote.
pub(crate) fn meta_shown(rows: &[Row]) -> Result<Option<Meta>, Error>
    ensures { IfOk result (λ o. MatchOption o ((t v : ℕ) → rows.now ≡ meta_values t v ∷ [] → t ≤ TERM_LAST → ⊥) (λ m. (rows.now ≡ meta_values m.term (number_of_vote m.vote) ∷ []) × (m.term ≤ TERM_LAST) × (vote_in (number_of_vote m.vote) ≡ m.vote))) }
{
    let [row] = rows else {
        return Ok(None);
    };
    if row.column_count() != 3 {
        return Ok(None);
    }
    let Some(id) = natural_at(row, 0)? else {
        return Ok(None);
    };
    let Some(term) = natural_at(row, 1)? else {
        return Ok(None);
    };
    let Some(vote) = natural_at(row, 2)? else {
        return Ok(None);
    };
    if id != 1 || term > LAST_TERM {
        return Ok(None);
    }
    let vote = if vote == 0 { None } else { Some(vote as usize) };
    Ok(Some(Meta { term, vote }))
}

/// The floor that a number stands for: -1 for none, else an instant. None where it stands for neither.
fn floor_of(number: i64) -> Option<Option<Stamp>>
    ensures { MatchOption result ((f : Option ℕ) → number ≡ number_of_floor f → is_floor f ≡ true → ⊥) (λ f. (number ≡ number_of_floor f) × (is_floor f ≡ true)) }
{
    if number == -1 {
        return Some(None);
    }
    if number < 0 || number > LAST_MICROS as i64 {
        return None;
    }
    Some(Some(Stamp::new(number as u64)))
}

/// What the rows of floor show, none where they show no floor.
pub(crate) fn floor_shown(rows: &[Row]) -> Result<Option<Option<Stamp>>, Error>
    ensures { IfOk result (λ o. MatchOption o ((f : Option ℕ) → rows.now ≡ floor_values f ∷ [] → is_floor f ≡ true → ⊥) (λ f. (rows.now ≡ floor_values f ∷ []) × (is_floor f ≡ true))) }
{
    let [row] = rows else {
        return Ok(None);
    };
    if row.column_count() != 2 {
        return Ok(None);
    }
    let Some(id) = natural_at(row, 0)? else {
        return Ok(None);
    };
    let Some(number) = integer_at(row, 1)? else {
        return Ok(None);
    };
    if id != 1 {
        return Ok(None);
    }
    Ok(floor_of(number))
}
