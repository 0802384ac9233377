//! Rows of a CSV file into a store.
ghost use Rattle.std.specs.Prelude.{◌≡◌, ◌≢◌, ◌<◌, ◌⊎◌, List, [], ℕ, false, length, IsTrue, IsFalse, IfOk, OnOk, OnErr};
ghost use Rattle.store.specs.declared.outcome.Outcome.{Outcome as Told};
ghost use Rattle.transfer.specs.Imports.{IsCounted, IsDone, IsFar, IsImported, IsStopped, rows_in};

use crate::asked::Import;
use crate::printing::print;
use crate::requests::{Request, read_requests};
use crate::stop::Fault;
use crate::taking::Takes;
use crate::told::{count_text, fault_text, outcome_text};
use crate::unread::Stop;
use fault::Refusal;
use progressline::Progress;
use schema::Schema;
use sqlchecks::column::find_table;
use std::alloc::Global;
use std::fs;
use store::Outcome;

// The line of this number, where the first is 1.
fn line_at(bytes: &[u8], number: usize) -> &[u8] {
    let mut lines = bytes.split(|byte| *byte == b'\n');
    match lines.nth(number.saturating_sub(1)) {
        Some([line @ .., b'\r']) => line,
        Some(line) => line,
        None => &[],
    }
}

/// The requests of the file of an import over the tables of a schema; none where it has a fault, which is told on standard output. 11 where
/// there is no such table.
pub(crate) fn read_rows(
    rt: &HostRuntime,
    alloc: Global,
    import: Import<'_>,
    schema: &Schema,
) -> Result<Option<Vec<Request>>, Fault> {
    let place = find_table(schema, import.table)?;
    let (name, table) = schema.table(place);
    let bytes: Vec<u8> = match fs::read(rt, import.file) {
        Ok(bytes) => bytes,
        Err(error) => return Err(Fault::File(error)),
    };
    match read_requests(alloc, name, table, import.from, &bytes) {
        Ok(requests) => Ok(Some(requests)),
        Err(Stop::NoMemory) => Err(Fault::from(Refusal::NoMemory)),
        Err(Stop::At(fault)) => {
            let line = line_at(&bytes, fault.line);
            let text = fault_text(alloc, import.file, &fault, line)?;
            print(rt, text.as_str())?;
            Ok(None)
        }
    }
}

// How many rows requests have.
fn rows_of(requests: &[Request]) -> usize
    ensures { result ≡ rows_in requests.now }
{
    let mut rows: usize = 0;
    for request in requests {
        rows = rows.saturating_add(request.rows);
    }
    rows
}

/// How many requests share a sync at most.
const SHARING_MOST: usize = 64;

// What is done with each request.
#[derive(Clone, Copy)]
struct Task<'a> {
    import: Import<'a>,
    reading: i64,
    all: usize,
}

// What is to be told once the store has settled, of so many requests, and how much was told to be stored.
#[derive(Drop)]
struct Held {
    text: String,
    requests: usize,
    rows_told: usize,
    requests_told: usize,
}

// How far an import came.
#[derive(Drop)]
struct Came {
    rows: usize,
    requests: usize,
    is_whole: bool,
}

fn is_accepted(outcome: &Outcome) -> bool
    ensures yes { IsTrue result → (stamp : ℕ) × (outcome.now ≡ Outcome.Accepted stamp) }
    ensures no { IsFalse result → (stamp : ℕ) → outcome.now ≢ Outcome.Accepted stamp }
{
    matches!(outcome, Outcome::Accepted(_))
}

// Has the store settle, and tells what is held.
fn tell<T: Takes, Q: Progress>(
    rt: &HostRuntime,
    store: &mut T,
    came: &Came,
    held: &mut Held,
    progress: &Q,
) -> Result<(), Fault>
    ensures settled { OnOk result (T.is_settled store.new) }
    ensures stays { OnOk result ((before : T) (text : List ℕ) (outcome : Told) → T.takes before text outcome store.old → T.takes before text outcome store.new) }
{
    store.settle()?;
    held.rows_told = came.rows;
    held.requests_told = came.requests;
    held.requests = 0;
    progress.hide();
    print(rt, held.text.as_str())?;
    held.text.clear();
    Ok(())
}

// Hands in a request, and holds what comes of it: whether it is accepted, and is counted then.
fn store_one<T: Takes>(
    alloc: Global,
    task: Task<'_>,
    request: &Request,
    store: &mut T,
    came: &mut Came,
    held: &mut Held,
) -> Result<bool, Fault>
    requires { came.old.requests < usize.MAX }
    ensures accepted { IfOk result (λ is_accepted. IsTrue is_accepted → IsCounted T.takes store.old request.now came.old came.new store.new) }
    ensures stopped { IfOk result (λ is_accepted. IsFalse is_accepted → (came.new ≡ came.old) × IsStopped T.takes store.old request.now store.new) }
    ensures failed { OnErr result ((came.new ≡ came.old) ⊎ IsCounted T.takes store.old request.now came.old came.new store.new) }
{
    let outcome = store.take(task.reading, request.text.as_str())?;
    let text = outcome_text(alloc, task.import, request, &outcome)?;
    let is_accepted = is_accepted(&outcome);
    if is_accepted {
        came.rows = came.rows.saturating_add(request.rows);
        came.requests += 1;
    }
    held.requests = held.requests.saturating_add(1);
    held.text.push_str(text.as_str())?;
    Ok(is_accepted)
}

// Hands in a request, and tells what came of those that are held where enough are, it is not accepted, or all are.
fn store_next<T: Takes, Q: Progress>(
    rt: &HostRuntime,
    task: Task<'_>,
    request: &Request,
    store: &mut T,
    came: &mut Came,
    held: &mut Held,
    progress: &Q,
) -> Result<bool, Fault>
    requires { came.old.requests < usize.MAX }
    ensures accepted { IfOk result (λ is_accepted. IsTrue is_accepted → IsCounted T.takes store.old request.now came.old came.new store.new) }
    ensures stopped { IfOk result (λ is_accepted. IsFalse is_accepted → (came.new ≡ came.old) × IsStopped T.takes store.old request.now store.new) }
    ensures failed { OnErr result ((came.new ≡ came.old) ⊎ ((after : T) × IsCounted T.takes store.old request.now came.old came.new after)) }
    ensures settled { IfOk result (λ is_accepted. IsFalse is_accepted ⊎ (came.new.requests ≡ task.entry.all) → T.is_settled store.new) }
{
    let is_accepted = store_one(rt.alloc(), task, request, store, came, held)?;
    if !is_accepted || came.requests == task.all || held.requests >= SHARING_MOST {
        tell(rt, store, came, held, progress)?;
    }
    Ok(is_accepted)
}

// Hands in requests, each when the one before it is accepted, and tells what comes of each.
fn store_all<T: Takes, Q: Progress>(
    rt: &HostRuntime,
    task: Task<'_>,
    requests: &[Request],
    store: &mut T,
    came: &mut Came,
    held: &mut Held,
    progress: &Q,
) -> Result<(), Fault>
    requires { (came.old.rows ≡ 0) × (came.old.requests ≡ 0) × (came.old.is_whole ≡ false) }
    ensures far { (mid : T) × IsFar T.takes store.old requests.now came.new mid }
    ensures done { OnOk result (IsDone T.takes store.old requests.now came.new store.new) }
    ensures settled { OnOk result (task.entry.all ≡ length requests.now → requests.now ≢ [] → T.is_settled store.new) }
{
    for request in requests {
        if !store_next(rt, task, request, store, came, held, progress)? {
            return Ok(());
        }
        progress.tell(came.rows);
    }
    came.is_whole = true;
    Ok(())
}

// Tells how many of the rows are stored.
fn tell_count(
    rt: &HostRuntime,
    alloc: Global,
    import: Import<'_>,
    held: &Held,
    rows: usize,
) -> Result<(), Fault> {
    let text = count_text(alloc, import.file, held.rows_told, rows, held.requests_told)?;
    print(rt, text.as_str())
}

/// Stores the rows of a file, request by request up to one that is not accepted, and tells how many were stored. Up to 64 requests share a
/// sync, after which they are told. The exit status is 1 where not all rows were stored.
pub(crate) fn import_rows<T: Takes, Q: Progress>(
    rt: &HostRuntime,
    alloc: Global,
    import: Import<'_>,
    requests: &[Request],
    reading: i64,
    store: &mut T,
    progress: &Q,
) -> Result<u8, Fault>
    ensures imported { IfOk result (λ status. IsImported T.takes store.old requests.now status store.new) }
    ensures settled { OnOk result (requests.now ≢ [] → T.is_settled store.new) }
{
    let mut came = Came {
        rows: 0,
        requests: 0,
        is_whole: false,
    };
    let mut held = Held {
        text: String::new(alloc),
        requests: 0,
        rows_told: 0,
        requests_told: 0,
    };
    let task = Task {
        import,
        reading,
        all: requests.len(),
    };
    let rows = rows_of(requests);
    progress.begin("rows", rows);
    let stored = store_all(rt, task, requests, store, &mut came, &mut held, progress);
    if let Err(fault) = stored {
        let _ = tell(rt, store, &came, &mut held, progress);
        progress.hide();
        tell_count(rt, alloc, import, &held, rows)?;
        return Err(fault);
    }
    progress.hide();
    tell_count(rt, alloc, import, &held, rows)?;
    Ok(if came.is_whole { 0 } else { 1 })
}
