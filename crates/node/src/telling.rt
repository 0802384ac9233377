//! What a member applies, and what it tells of the requests among that.
ghost use Rattle.std.specs.Prelude.{◌≡◌, ◌+◌, ◌≤◌, ◌<◌, ◌++◌, ◌∷◌, [], ℕ, List, true, Some, length, take, slice_get, slice_range, IfOk, IfErr, OnOk};
ghost use Rattle.std.specs.List.{cons_option};
ghost use Rattle.sqlchecks.specs.Columns as columns;
ghost use Rattle.sqlread.specs.Meaning.{language_of};
ghost use Rattle.model.specs.declared.entry.Entry as entry_of;
ghost use Rattle.model.specs.Logs.{told_at};
ghost use Rattle.apply.specs.View.{AreTables};
ghost use Rattle.raft.specs.Reading.{IsRead};
ghost use Rattle.raft.specs.View.{IsInStep};
ghost use Rattle.node.specs.View.{IsCauseOr};
ghost use Rattle.node.specs.Applying.{AreApplied, AreMade};
ghost use Rattle.node.specs.Recall.{AreNoted};

use crate::recall::{Applied, Begun, Notes, begin, note};
use apply::Tables;
use keep::error::StoreError;
use keep::keeper::LogReader;
use model::entry::{Entry, Told};
use raft::state::Core;
use std::alloc::{AllocError, Global};
use std::mem;

/// Applies the entry that has so many others before it, and gives what is told of it: none of a Close.
fn apply_one(tables: &mut Tables, entry: &Entry, before: usize) -> Result<Option<Told>, AllocError>
    requires room { before < 18446744073709551615 }
    ensures told { IfOk result (λ told. (schema : columns.Tables) (log : List entry_of.Entry) → slice_get log before ≡ Some entry.now → AreTables schema (take before log) tables.old → told ≡ told_at (language_of schema) log (before + 1)) }
    ensures kept { OnOk result ((schema : columns.Tables) (list : List entry_of.Entry) → AreTables schema list tables.old → AreTables schema (list ++ entry.now ∷ []) tables.new) }
{
    let outcome = tables.apply(entry)?;
    let Some(request) = &entry.request else {
        return Ok(None);
    };
    let Some(outcome) = outcome else {
        return Ok(None);
    };
    Ok(Some(Told {
        index: before + 1,
        client: request.client,
        number: request.number,
        outcome,
    }))
}

/// Adds at the end what is told of one entry: none of a Close.
fn add(list: &mut Vec<Told>, told: Option<Told>) -> Result<(), AllocError>
    ensures { OnOk result (list.new.items ≡ list.old.items ++ cons_option told []) }
{
    if let Some(told) = told {
        list.push(told)?;
    }
    Ok(())
}

/// Applies all but the first entries, which are applied already, where so many others are before them all. Adds what is told.
fn execute(
    tables: &mut Tables,
    entries: &[Entry],
    first: usize,
    before: usize,
    told: &mut Vec<Told>,
) -> Result<(), AllocError>
    requires room { before + length entries.now ≤ 18446744073709551615 }
    requires first { first ≤ length entries.now }
    ensures applied { OnOk result ((schema : columns.Tables) (log : List entry_of.Entry) → entries.now ≡ slice_range log before (before + length entries.now)
        → AreApplied schema log before (before + first) (take first entries.now) told.old.items tables.old
        → AreApplied schema log before (before + length entries.now) entries.now told.new.items tables.new) }
    ensures made { OnOk result ((schema : columns.Tables) → AreMade schema tables.old → AreMade schema tables.new) }
{
    for place in first..entries.len() {
        let one = apply_one(tables, &entries[place], before + place)?;
        add(told, one)?;
    }
    Ok(())
}

/// Applies the entries that have so many others before them, and gives what is told of them. Where they begin with what
/// the member had applied when it went down, only the others are executed.
fn apply_all(
    alloc: Global,
    tables: &mut Tables,
    notes: &mut Notes,
    entries: &[Entry],
    before: usize,
) -> Result<Vec<Told>, AllocError>
    requires room { before + length entries.now ≤ 18446744073709551615 }
    ensures applied { IfOk result (λ told. (schema : columns.Tables) (log : List entry_of.Entry) → AreNoted schema tables.old notes.old
        → entries.now ≡ slice_range log before (before + length entries.now) → AreTables schema (take before log) tables.old
        → AreApplied schema log before (before + length entries.now) entries.now told.items tables.new) }
    ensures noted { OnOk result ((schema : columns.Tables) → AreNoted schema tables.old notes.old → AreNoted schema tables.new notes.new) }
    ensures made { OnOk result ((schema : columns.Tables) → AreNoted schema tables.old notes.old → AreMade schema tables.old → AreMade schema tables.new) }
{
    let was = mem::replace(notes, Notes::Off);
    let begun = begin(alloc, tables, was, entries, before);
    let Begun {
        count,
        mut told,
        noted,
        first,
    } = begun;
    execute(tables, entries, count, before, &mut told)?;
    *notes = note(alloc, noted, first, entries, told.as_slice(), before);
    Ok(told)
}

/// Fetches the entries after one index, up to the commit index. Where one is not there the store has lied, and that is its
/// fault.
fn fetch_after<S: LogReader>(
    alloc: Global,
    core: &Core,
    reader: &mut S,
    before: usize,
) -> Result<Vec<Entry>, StoreError>
    requires rises { S.is_honest reader.old → before ≤ core.now.commit }
    requires up { S.is_up reader.old ≡ true }
    requires stored { S.is_honest reader.old → IsInStep core.now (S.stored reader.old) }
    ensures entries { IfOk result (λ es. S.is_honest reader.new → es.items ≡ slice_range (S.stored reader.old).log before core.now.commit) }
    ensures count { IfOk result (λ es. before ≤ core.now.commit → before + length es.items ≡ core.now.commit) }
    ensures room { IfOk result (λ es. before + length es.items ≤ 18446744073709551615) }
    ensures reader { IsRead (S.is_honest reader.old) (S.is_honest reader.new) (S.stored reader.old) (S.stored reader.new) (S.may_hold reader.old) (S.may_hold reader.new) (S.serves reader.old) (S.serves reader.new) (S.failed reader.old) (S.failed reader.new) (S.saves reader.old) (S.saves reader.new) (S.came_from reader.old) (S.came_from reader.new) }
    ensures up { OnOk result (S.is_up reader.new ≡ true) }
    ensures cause { IfErr result (IsCauseOr (S.is_honest reader.new) (S.failed reader.old) (S.failed reader.new)) }
    ensures asks { IfOk result (λ es. S.asks reader.new ≤ S.asks reader.old + length es.items) }
{
    let mut entries = Vec::new(alloc);
    for place in before..core.commit {
        let Some(entry) = core.entry(reader, place + 1)? else {
            return Err(StoreError::StoreFault);
        };
        entries.push(entry)?;
    }
    Ok(entries)
}

/// Applies the entries after one index, up to the commit index.
pub(crate) fn apply_after<S: LogReader>(
    alloc: Global,
    core: &Core,
    reader: &mut S,
    tables: &mut Tables,
    notes: &mut Notes,
    before: usize,
) -> Result<Applied, StoreError>
    requires rises { S.is_honest reader.old → before ≤ core.now.commit }
    requires up { S.is_up reader.old ≡ true }
    requires stored { S.is_honest reader.old → IsInStep core.now (S.stored reader.old) }
    requires current { S.is_honest reader.old → AreTables core.now.schema (take before (S.stored reader.old).log) tables.old }
    requires noted { AreNoted core.now.schema tables.old notes.old }
    ensures applied { IfOk result (λ a. S.is_honest reader.new → AreApplied core.now.schema (S.stored reader.old).log before core.now.commit a.entries.items a.told.items tables.new) }
    ensures noted { OnOk result (AreNoted core.now.schema tables.new notes.new) }
    ensures made { OnOk result (AreMade core.now.schema tables.old → AreMade core.now.schema tables.new) }
    ensures reader { IsRead (S.is_honest reader.old) (S.is_honest reader.new) (S.stored reader.old) (S.stored reader.new) (S.may_hold reader.old) (S.may_hold reader.new) (S.serves reader.old) (S.serves reader.new) (S.failed reader.old) (S.failed reader.new) (S.saves reader.old) (S.saves reader.new) (S.came_from reader.old) (S.came_from reader.new) }
    ensures up { OnOk result (S.is_up reader.new ≡ true) }
    ensures cause { IfErr result (IsCauseOr (S.is_honest reader.new) (S.failed reader.old) (S.failed reader.new)) }
    ensures asks { IfOk result (λ a. S.asks reader.new ≤ S.asks reader.old + length a.entries.items) }
{
    let entries = fetch_after(alloc, core, reader, before)?;
    if entries.is_empty() {
        return Ok(Applied {
            entries,
            told: Vec::new(alloc),
        });
    }
    let told = apply_all(alloc, tables, notes, entries.as_slice(), before)?;
    Ok(Applied { entries, told })
}
