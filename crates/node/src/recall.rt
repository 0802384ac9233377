//! What a member had applied when it went down, so that it need not execute the same again.
ghost use Rattle.std.specs.Prelude.{◌≡◌, ◌↔◌, ◌+◌, ◌≤◌, ◌++◌, [], List, true, IsTrue, length, take, slice_range, IfOk, IfSome, OnOk};
ghost use Rattle.sqlchecks.specs.Columns as columns;
ghost use Rattle.model.specs.declared.entry.Entry as entry_of;
ghost use Rattle.apply.specs.View.{AreTables};
ghost use Rattle.apply.specs.declared.tables.Tables as tables_of;
ghost use Rattle.node.specs.Applying.{AreApplied, AreMade};
ghost use Rattle.node.specs.Recall.{AreNoted, IsNoted, IsPast, IsRecall};

use apply::Tables;
use model::entry::{Entry, Request, Told};
use std::alloc::{AllocError, Global};

/// What became applied: the entries in the order of the log, and what is told of their requests.
#[derive(Drop)]
pub(crate) struct Applied {
    pub entries: Vec<Entry>,
    pub told: Vec<Told>,
}

/// What a member had applied when it went down, and the tables that this left.
#[derive(Drop)]
pub struct Recall {
    pub(crate) applied: Applied,
    pub(crate) tables: Tables,
}

/// What a member knows of what it applied, besides its tables.
#[derive(Drop)]
pub(crate) enum Notes {
    /// Nothing: it was not to note it, or there was no memory for it.
    Off,
    /// It has applied nothing yet, and this before it went down.
    Before(Box<Recall>),
    /// All that it has applied.
    All(Box<Applied>),
}

impl Notes {
    /// The notes of a member that starts again.
    pub(crate) fn of(alloc: Global, recall: Option<Recall>) -> Notes
        ensures { (schema : columns.Tables) (before : tables_of.Tables) → IfSome recall (IsRecall schema) → AreTables schema [] before → AreNoted schema before result }
    {
        match recall {
            Some(recall) => match Box::new(alloc, recall) {
                Ok(recall) => Notes::Before(recall),
                Err(_) => Notes::Off,
            },
            None => Notes::all(alloc, Applied::new(alloc)),
        }
    }

    // Notes of all that was applied, if there is memory for it.
    fn all(alloc: Global, applied: Applied) -> Notes
        ensures { (schema : columns.Tables) (tables : tables_of.Tables) → IsPast schema applied.entries.items applied.told.items tables → AreNoted schema tables result }
    {
        match Box::new(alloc, applied) {
            Ok(applied) => Notes::All(applied),
            Err(_) => Notes::Off,
        }
    }

    /// What is recalled of a member that stops with these tables; none of one that is down.
    pub(crate) fn recall(self, tables: Tables, is_up: bool) -> Option<Recall>
        ensures { (schema : columns.Tables) → (is_up ≡ true → AreNoted schema tables self) → IfSome result (IsRecall schema) }
    {
        if !is_up {
            return None;
        }
        match self {
            Notes::Off => None,
            Notes::Before(recall) => Some(Box::into_inner(recall)),
            Notes::All(applied) => Some(Recall {
                applied: Box::into_inner(applied),
                tables,
            }),
        }
    }
}

/// How many of the first entries need not be executed, what is told of these, and what was applied before all entries.
pub(crate) struct Begun {
    pub count: usize,
    pub told: Vec<Told>,
    pub noted: Option<Applied>,
    /// These first entries, as they are recalled.
    pub first: Vec<Entry>,
}

fn is_same_request(one: &Request, other: &Request) -> bool
    ensures { IsTrue result ↔ (one.now ≡ other.now) }
{
    one.client.get() == other.client.get()
        && one.number.get() == other.number.get()
        && one.text.as_str() == other.text.as_str()
}

/// Whether two entries are the same: term, stamp and request.
pub fn is_same_entry(one: &Entry, other: &Entry) -> bool
    ensures { IsTrue result ↔ (one.now ≡ other.now) }
{
    if one.term != other.term || one.stamp.micros() != other.stamp.micros() {
        return false;
    }
    match (&one.request, &other.request) {
        (Some(request), Some(another)) => is_same_request(request, another),
        (None, None) => true,
        _ => false,
    }
}

/// Whether the first of these entries are all of those.
fn is_beginning(entries: &[Entry], first: &[Entry]) -> bool
    ensures within { IsTrue result → length first.now ≤ length entries.now }
    ensures same { IsTrue result → take (length first.now) entries.now ≡ first.now }
{
    if first.len() > entries.len() {
        return false;
    }
    for (place, entry) in first.iter().enumerate() {
        if !is_same_entry(entry, &entries[place]) {
            return false;
        }
    }
    true
}

fn copy_of(told: &Told) -> Result<Told, AllocError>
    ensures { IfOk result (λ copy. copy ≡ told.now) }
{
    let outcome = match &told.outcome {
        Ok(t) => Ok(*t),
        Err(refusal) => Err(refusal.clone()?),
    };
    Ok(Told {
        index: told.index,
        client: told.client,
        number: told.number,
        outcome,
    })
}

impl Applied {
    /// Nothing yet. Takes no memory.
    fn new(alloc: Global) -> Applied
        ensures entries { result.entries.items ≡ [] }
        ensures told { result.told.items ≡ [] }
    {
        Applied {
            entries: Vec::new(alloc),
            told: Vec::new(alloc),
        }
    }

    /// Adds copies of these entries.
    fn add_entries(&mut self, entries: &[Entry]) -> Result<(), AllocError>
        ensures entries { OnOk result (self.new.entries.items ≡ self.old.entries.items ++ entries.now) }
        ensures told { self.new.told ≡ self.old.told }
    {
        for entry in entries {
            self.entries.push(entry.clone()?)?;
        }
        Ok(())
    }

    /// Adds copies of what is told.
    fn add_told(&mut self, told: &[Told]) -> Result<(), AllocError>
        ensures told { OnOk result (self.new.told.items ≡ self.old.told.items ++ told.now) }
        ensures entries { self.new.entries ≡ self.old.entries }
    {
        for one in told {
            self.told.push(copy_of(one)?)?;
        }
        Ok(())
    }

    /// This, and these entries, copied but for the first ones, which are given, with copies of what is told of them.
    fn with(
        self,
        first: Vec<Entry>,
        entries: &[Entry],
        told: &[Told],
    ) -> Result<Applied, AllocError>
        requires within { length first.items ≤ length entries.now }
        ensures entries { IfOk result (λ all. first.items ≡ take (length first.items) entries.now → all.entries.items ≡ self.entries.items ++ entries.now) }
        ensures told { IfOk result (λ all. all.told.items ≡ self.told.items ++ told.now) }
    {
        let mut all = self;
        let mut first = first;
        let (_, others) = entries.split_at(first.len());
        all.entries.append(&mut first)?;
        all.add_entries(others)?;
        all.add_told(told)?;
        Ok(all)
    }
}

/// What is to be noted before the entries that have so many others before them, and how many of these are applied already,
/// since the tables of before are those that the first of them leave.
pub(crate) fn begin(
    alloc: Global,
    tables: &mut Tables,
    notes: Notes,
    entries: &[Entry],
    before: usize,
) -> Begun
    ensures within { result.count ≤ length entries.now }
    ensures first { (length result.first.items ≡ result.count) × (result.first.items ≡ take result.count entries.now) }
    ensures applied { (schema : columns.Tables) (log : List entry_of.Entry) → AreNoted schema tables.old notes → entries.now ≡ slice_range log before (before + length entries.now)
        → AreTables schema (take before log) tables.old → AreApplied schema log before (before + result.count) (take result.count entries.now) result.told.items tables.new }
    ensures noted { (schema : columns.Tables) → AreNoted schema tables.old notes → IsNoted schema result.noted tables.old }
    ensures made { (schema : columns.Tables) → AreNoted schema tables.old notes → AreMade schema tables.old → AreMade schema tables.new }
{
    match notes {
        Notes::Off => Begun {
            count: 0,
            told: Vec::new(alloc),
            noted: None,
            first: Vec::new(alloc),
        },
        Notes::All(applied) => Begun {
            count: 0,
            told: Vec::new(alloc),
            noted: Some(Box::into_inner(applied)),
            first: Vec::new(alloc),
        },
        Notes::Before(recall) => {
            let Recall {
                applied: Applied {
                    entries: first,
                    told,
                },
                tables: recalled,
            } = Box::into_inner(recall);
            let count = first.len();
            if before > 0 || !is_beginning(entries, first.as_slice()) {
                return Begun {
                    count: 0,
                    told: Vec::new(alloc),
                    noted: Some(Applied::new(alloc)),
                    first: Vec::new(alloc),
                };
            }
            *tables = recalled;
            Begun {
                count,
                told,
                noted: Some(Applied::new(alloc)),
                first,
            }
        }
    }
}

/// Notes these entries, of which the first ones are given, and which have so many others before them, and what is told of them; nothing
/// where there is no memory for it.
pub(crate) fn note(
    alloc: Global,
    noted: Option<Applied>,
    first: Vec<Entry>,
    entries: &[Entry],
    told: &[Told],
    before: usize,
) -> Notes
    requires within { length first.items ≤ length entries.now }
    ensures { (schema : columns.Tables) (old new : tables_of.Tables) → IsNoted schema noted old → first.items ≡ take (length first.items) entries.now
        → ((log : List entry_of.Entry) → entries.now ≡ slice_range log before (before + length entries.now) → AreTables schema (take before log) old → AreApplied schema log before (before + length entries.now) entries.now told.now new)
        → AreNoted schema new result }
{
    let Some(applied) = noted else {
        return Notes::Off;
    };
    if before != applied.entries.len() {
        return Notes::Off;
    }
    match applied.with(first, entries, told) {
        Ok(all) => Notes::all(alloc, all),
        Err(_) => Notes::Off,
    }
}
