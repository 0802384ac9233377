//! Wrong bodies that no contract here lets through: functions that do nothing but call what they speak of.
ghost use Rattle.std.specs.Prelude.{◌≡◌, ◌≢◌, ◌<◌, ℕ, List, Some, None, Err, true, reverse, slice_get, IfOk, IfErr, IfSome, IsErr};
ghost use Rattle.fault.specs.declared.refusal.Refusal.TheVariants.{NoMemory};
ghost use Rattle.model.specs.declared.entry.Entry as entries;
ghost use Rattle.model.specs.declared.entry.Request as requests;
ghost use Rattle.model.specs.Answers as model;
ghost use Rattle.model.specs.Answers.{closed_query, read_at};
ghost use Rattle.model.specs.Logs.{is_first};
ghost use Rattle.model.specs.Transactions.{State, first_orphan};
ghost use Rattle.rowlaws.specs.Statements.{AllListed};
ghost use Rattle.sqlchecks.specs.Columns as columns;
ghost use Rattle.sqlread.specs.Meaning.{language_of, select_of};
ghost use Rattle.sqlread.specs.Shapes.{query_of};
ghost use Rattle.retry.specs.Judging.{outcomes_of};
ghost use Rattle.current.specs.Current.{rows_of, schema_in};
ghost use Rattle.sysversion.specs.Versions as stored;
ghost use Rattle.apply.specs.View.{AreTables};

use crate::asking::ask;
use crate::executing::{execute, transact};
use crate::tables::Tables;
use answer::Answer;
use current::{Current, Touched};
use fault::Refusal;
use model::entry::Entry;
use model::stamp::Stamp;
use overlaps::Count;
use retry::Outcome;
use sqlread::query::Query;
use sqlread::statement::Statement;
use std::alloc::{AllocError, Global};
use sysversion::Versions;

/// A function that keeps for a client another outcome than it tells does not meet the contract of `Tables::take`.
fn keeps_another_outcome(tables: &mut Tables, entry: &Entry) -> Result<Option<Outcome>, AllocError>
    ghost of: { columns.Tables × List entries.Entry × requests.Request }
    requires tables { AreTables of.0 of.1 tables.old }
    requires request { entry.now.request ≡ Some of.2 }
    requires first { is_first of.2 (reverse of.1) ≡ true }
    ensures { IfOk result (λ told. IfSome told (λ outcome. slice_get (outcomes_of tables.new.requests of.2.client) 0 ≡ Some outcome)) }
{
    tables.take(entry)
}

/// A function that leaves rows of a refused transaction, or takes some, does not meet the contract of `transact`.
fn refused_leaves_its_rows(
    alloc: Global,
    current: &mut Current,
    statements: &[Statement],
    t: Stamp,
    before: Touched,
    count: &mut Count,
) -> Result<Touched, Refusal>
    ghost state: { State }
    requires { AllListed (rows_of current.old) state }
    ensures { IfErr result (λ refusal. refusal ≢ NoMemory → AllListed (rows_of current.new) state) }
{
    transact(alloc, current, statements, t, before, count)
}

/// A function that tells want of memory as an outcome does not meet the contract of `execute`.
fn wants_memory_as_outcome(
    alloc: Global,
    current: &mut Current,
    versions: &mut Versions,
    text: &str,
    t: Stamp,
    count: &mut Count,
) -> Result<Outcome, AllocError>
    ghost state: { State }
    requires listed { AllListed (rows_of current.old) state }
    requires schema { stored.schema_in versions.old ≡ schema_in current.old }
    requires whole { first_orphan (language_of (schema_in current.old)) state ≡ None }
    ensures { IfOk result (λ outcome. outcome ≢ Err NoMemory) }
{
    execute(alloc, current, versions, text, t, count)
}

/// A function that answers a question about a later instant than is closed does not meet the contract of `ask`.
fn answers_the_unclosed(
    alloc: Global,
    versions: &Versions,
    query: &Query,
    closed: Option<Stamp>,
) -> Result<Answer, Refusal>
    ghost at: { ℕ }
    requires closed { closed ≡ Some at }
    requires later { at < (read_at at (select_of (query_of query.now))).time.last }
    ensures { IsErr result }
{
    ask(alloc, versions, query, closed)
}

/// A function that refuses a question that is closed, but for want of memory, does not meet the contract of `ask`.
fn refuses_the_closed(
    alloc: Global,
    versions: &Versions,
    query: &Query,
    closed: Option<Stamp>,
) -> Result<Answer, Refusal>
    ghost asked: { model.Query }
    requires { closed_query (select_of (query_of query.now)) closed ≡ Some asked }
    ensures { IfErr result (λ refusal. refusal ≡ NoMemory) }
{
    ask(alloc, versions, query, closed)
}
