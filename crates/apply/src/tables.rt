//! Tables by the entries that were applied to them.
ghost use Rattle.std.specs.Prelude.{◌≡◌, true, false, [], ◌∷◌, ◌++◌, List, reverse, Err, alloc_error, OnOk, OnErr, IfOk, IfErr};
ghost use Rattle.std.specs.Option.{option_map};
ghost use Rattle.fault.specs.declared.refusal.Refusal.TheVariants.{NoMemory};
ghost use Rattle.model.specs.declared.entry.Entry as entries;
ghost use Rattle.model.specs.Logs.{IsStamped, closed, outcome};
ghost use Rattle.current.specs.Current.{schema_in, AreNarrow};
ghost use Rattle.sqlchecks.specs.Columns as columns;
ghost use Rattle.sqlread.specs.Calendar.{LiteralsInCalendar};
ghost use Rattle.sqlread.specs.Meaning.{language_of};
ghost use Rattle.sqlread.specs.Shapes.{query_of};
ghost use Rattle.answer.specs.Answers.{columns_in};
ghost use Rattle.retry.specs.Judging.{judged};
ghost use Rattle.apply.specs.Executing.{unless_new};
ghost use Rattle.apply.specs.Reads.{key_columns, FewToApply, FewForAll};
ghost use Rattle.rowlaws.specs.Logs.{LogsOnRows, FineLogs};
ghost use Rattle.rowlaws.specs.Whole.{NoOrphanAfter};
ghost use Rattle.versionlaws.specs.Versions.{NoVersions, HeldBefore};
ghost use Rattle.versionlaws.specs.ByKey.{HeldByKey};
ghost use Rattle.versionlaws.specs.Committing.{CommitEntry, EntryStays, KeptLater};

use crate::asking;
use crate::executing::execute;
use answer::Answer;
use asof::Ask;
use current::Current;
use fault::Refusal;
use model::entry::{Entry, Request};
use model::stamp::Stamp;
use overlaps::Count;
use retry::{Judged, Outcome, Requests};
use schema::Schema;
use sqlread::query::Query;
use std::alloc::{AllocError, Global};
use sysversion::Versions;

/// The tables of a schema after a list of entries: the current rows, all versions, the latest outcomes of
/// each client, and the last stamp. Contracts say by `AreTables` of which schema and of which list they are.
#[derive(Drop)]
pub struct Tables {
    pub(crate) alloc: Global,
    pub(crate) current: Current,
    pub(crate) versions: Versions,
    pub(crate) requests: Requests,
    pub(crate) last: Option<Stamp>,
    pub(crate) failed: bool,
    pub(crate) count: Count,
    ghost narrow: { AreNarrow (key_columns (schema_in current)) current },
}

// What a log leaves before any entry, that its references hold, what one more entry does to versions, and that what is
// read is of the calendar.
fn log_laws()
    ensures rows { LogsOnRows }
    ensures parents { NoOrphanAfter }
    ensures fine { FineLogs }
    ensures none { NoVersions }
    ensures before { HeldBefore }
    ensures commit { CommitEntry }
    ensures by_key { HeldByKey }
    ensures stays { EntryStays }
    ensures later { KeptLater }
    ensures calendar { LiteralsInCalendar }
{
    rowlaws::logs_on_rows();
    rowlaws::no_orphan_after();
    rowlaws::fine_logs();
    versionlaws::no_versions();
    versionlaws::held_before();
    versionlaws::commit_entry();
    versionlaws::held_by_key();
    versionlaws::entry_stays();
    versionlaws::kept_later();
    sqlread::laws::literals_in_calendar();
}

fn copy_of(outcome: &Outcome) -> Result<Outcome, AllocError>
    ensures { IfOk result (λ copy. copy ≡ outcome.now) }
{
    match outcome {
        Ok(t) => Ok(Ok(*t)),
        Err(refusal) => Ok(Err(refusal.clone()?)),
    }
}

// The outcome of a request that is not executed: what is kept, or 30 or 31. None of a new one.
fn unless_new(requests: &Requests, request: &Request) -> Result<Option<Outcome>, AllocError>
    ensures { IfOk result (λ outcome. outcome ≡ unless_new (judged requests.now request.now.client request.now.number)) }
{
    match requests.judge(request.client, request.number) {
        Judged::New => Ok(None),
        Judged::Kept(outcome) => Ok(Some(copy_of(outcome)?)),
        Judged::Old => Ok(Some(Err(Refusal::Old))),
        Judged::Gap => Ok(Some(Err(Refusal::Gap))),
    }
}

impl Tables {
    ghost use Rattle.apply.specs.View.{AreTables, IsAskedOf, is_failed, reads_in};

    /// The tables of a schema before any entry.
    pub fn new(alloc: Global, schema: &Schema) -> Result<Tables, AllocError>
        ensures tables { IfOk result (λ tables. AreTables schema.now [] tables) }
        ensures up { IfOk result (λ tables. is_failed tables ≡ false) }
    {
        log_laws();
        let current = Current::new(alloc, schema)?;
        let versions = Versions::new(alloc, schema)?;
        let requests = Requests::new(alloc);
        Ok(Tables {
            alloc,
            current,
            versions,
            requests,
            last: None,
            failed: false,
            count: Count::new(),
        })
    }

    // Takes in one more entry. After want of memory it is of no list.
    pub(crate) fn take(&mut self, entry: &Entry) -> Result<Option<Outcome>, AllocError>
        ensures kept { OnOk result ((schema : columns.Tables) (list : List entries.Entry) → AreTables schema list self.old → AreTables schema (list ++ entry.now ∷ []) self.new) }
        ensures outcome { IfOk result (λ o. (schema : columns.Tables) (list : List entries.Entry) → AreTables schema list self.old → o ≡ option_map (λ r. outcome (language_of schema) entry.now.stamp r (reverse list)) entry.now.request) }
        ensures failed { is_failed self.new ≡ is_failed self.old }
        ensures few { (schema : columns.Tables) (list : List entries.Entry) → AreTables schema list self.old → IsStamped list → FewToApply schema (reverse list) entry.now (reads_in self.old) (reads_in self.new) }
    {
        log_laws();
        self.last = Some(entry.stamp);
        let Some(request) = &entry.request else {
            return Ok(None);
        };
        if let Some(outcome) = unless_new(&self.requests, request)? {
            return Ok(Some(outcome));
        }
        let outcome = execute(
            self.alloc,
            &mut self.current,
            &mut self.versions,
            request.text.as_str(),
            entry.stamp,
            &mut self.count,
        )?;
        let kept = copy_of(&outcome)?;
        self.requests.keep(request.client, request.number, kept)?;
        Ok(Some(outcome))
    }

    /// Takes in one more entry, and gives the outcome of its request, none for a Close: the transaction is executed
    /// once, a request that comes again has the outcome that is kept, and others are refused 30 or 31. A refused
    /// transaction changes no row.
    ///
    /// Want of memory is never an outcome: the value has then failed, and answers only that.
    pub fn apply(&mut self, entry: &Entry) -> Result<Option<Outcome>, AllocError>
        ensures kept { OnOk result ((schema : columns.Tables) (list : List entries.Entry) → AreTables schema list self.old → AreTables schema (list ++ entry.now ∷ []) self.new) }
        ensures outcome { IfOk result (λ o. (schema : columns.Tables) (list : List entries.Entry) → AreTables schema list self.old → o ≡ option_map (λ r. outcome (language_of schema) entry.now.stamp r (reverse list)) entry.now.request) }
        ensures err { OnErr result (is_failed self.new ≡ true) }
        ensures up { OnOk result (is_failed self.new ≡ false) }
        ensures once_failed { is_failed self.old ≡ true → result ≡ Err alloc_error }
        ensures few { (schema : columns.Tables) (list : List entries.Entry) → AreTables schema list self.old → IsStamped list → FewToApply schema (reverse list) entry.now (reads_in self.old) (reads_in self.new) }
    {
        if self.failed {
            return Err(AllocError);
        }
        match self.take(entry) {
            Ok(outcome) => Ok(outcome),
            Err(error) => {
                self.failed = true;
                Err(error)
            }
        }
    }

    /// The stamp of the last entry applied, none where there is none. Takes no memory.
    pub fn closed(&self) -> Option<Stamp>
        ensures { (schema : columns.Tables) (list : List entries.Entry) → AreTables schema list self.now → result ≡ closed list }
    {
        self.last
    }

    /// Answers a question at a closed time, which is the caller's; one without system time is AS OF that. `NotClosed`
    /// with that time where the question's last instant is later, or where it is none; `NoMemory`, always once it has
    /// failed. It changes nothing.
    ///
    /// The answer is that in the list of the entries applied. It stays the answer where each entry that is applied
    /// later has a stamp above the closed time, as is so of `closed`; that it is so of a later one is the caller's to know.
    pub fn ask(&self, query: &Query, closed: Option<Stamp>) -> Result<Answer, Refusal>
        ensures asked { (schema : columns.Tables) (list : List entries.Entry) → AreTables schema list self.now → IsStamped list → IsAskedOf (language_of schema) (query_of query.now) list closed result }
        ensures columns { (schema : columns.Tables) (list : List entries.Entry) → AreTables schema list self.now → IfOk result (λ a. a.columns.items ≡ columns_in schema query.now.table) }
        ensures once_failed { is_failed self.now ≡ true → result ≡ Err NoMemory }
    {
        if self.failed {
            return Err(Refusal::NoMemory);
        }
        log_laws();
        asking::ask(self.alloc, &self.versions, query, closed)
    }

    /// How many rows of tables and versions were read as the entries were applied, few for each of them; at the greatest `u64` it
    /// stays. Questions read besides.
    pub fn reads(&self) -> u64
        ensures is { result ≡ reads_in self.now }
        ensures few { (schema : columns.Tables) (list : List entries.Entry) → AreTables schema list self.now → IsStamped list → ∥ FewForAll schema (reverse list) result ∥₁ }
    {
        self.count.reads()
    }

    /// Whether a call has found no memory.
    pub fn has_failed(&self) -> bool
        ensures { result ≡ is_failed self.now }
    {
        self.failed
    }
}
