//! Transactions on the current rows and on the versions.
ghost use Rattle.std.specs.Prelude.{◌≡◌, ◌≤◌, ◌⊎◌, ◌↔◌, ℕ, None, IsTrue, map, length, OnOk, OnErr, IfOk, IfErr, []};
ghost use Rattle.fault.specs.declared.refusal.Refusal.TheVariants.{NoMemory};
ghost use Rattle.std.specs.List.{AllByRecursion};
ghost use Rattle.std.specs.Result.{result_unwrap_or};
ghost use Rattle.model.specs.Tables.{Table};
ghost use Rattle.model.specs.Transactions.{State, first_orphan};
ghost use Rattle.rowlaws.specs.Rows.{EachListed};
ghost use Rattle.rowlaws.specs.Statements.{AllListed};
ghost use Rattle.rowlaws.specs.Transactions.{TransactionsFollow};
ghost use Rattle.rowlaws.specs.Whole.{ComesFromWhole, WholeItself, WholeThen};
ghost use Rattle.sqlread.specs.Meaning.{language_of, meaning};
ghost use Rattle.sqlread.specs.Shapes.{statement_of};
ghost use Rattle.sqlread.specs.Texts.{transaction_in};
ghost use Rattle.current.specs.Current.{rows_of, schema_in, table_count, IsNarrow, AreNarrow};
ghost use Rattle.current.specs.Touched.{removed_in, added_in};
ghost use Rattle.current.specs.Laws.{KeysWithin, OfSomeState};
ghost use Rattle.versionlaws.specs.Versions.{Holds};
ghost use Rattle.sysversion.specs.Versions.{versions_of};
ghost use Rattle.sysversion.specs.Versions as stored;
ghost use Rattle.apply.specs.Executing.{IsTransacted, IsRefusedWhole, AreBack, IsExecuted};
ghost use Rattle.apply.specs.Reads.{key_columns, FewReadsEach, FewToExecute};

use current::{Current, Touched, laws};
use fault::Refusal;
use model::stamp::Stamp;
use overlaps::Count;
use retry::Outcome;
use schema::Schema;
use sqlread::statement::Statement;
use sqlread::transaction::read_transaction;
use std::alloc::{AllocError, Global};
use sysversion::Versions;

// What states rows are of, which rows a transaction leaves, and what was touched since no day was without a parent.
fn row_laws()
    ensures follows { TransactionsFollow }
    ensures state { OfSomeState }
    ensures whole { WholeThen }
    ensures listed { EachListed }
    ensures within { KeysWithin }
{
    rowlaws::transactions_follow();
    laws::of_some_state();
    rowlaws::whole_then();
    rowlaws::each_listed();
    laws::keys_within();
}

// Whether it tells of no more than that there was no memory.
fn is_no_memory(refusal: &Refusal) -> bool
    ensures { IsTrue result ↔ (refusal.now ≡ NoMemory) }
{
    matches!(refusal, Refusal::NoMemory)
}

// Runs statements in order, and after the last one checks the references, by what was touched before and by these; tells
// what all of these touched. At a refusal the statements that ran are undone, from the last back to the first. After
// `NoMemory` the rows may be any.
//
// The count rises by the rows that are read to run the statements, to check references and to undo what ran, few for each.
pub(crate) fn transact(
    alloc: Global,
    current: &mut Current,
    statements: &[Statement],
    t: Stamp,
    before: Touched,
    count: &mut Count,
) -> Result<Touched, Refusal>
    ensures ok { IfOk result (λ touched. ComesFromWhole (language_of (schema_in current.old)) (rows_of current.old) (removed_in before) (added_in before) → IsTransacted (language_of (schema_in current.old)) t (map meaning (map statement_of statements.now)) (rows_of current.old) (rows_of current.new) (removed_in touched) (added_in touched)) }
    ensures err { IfErr result (λ refusal. ComesFromWhole (language_of (schema_in current.old)) (rows_of current.old) (removed_in before) (added_in before) → IsRefusedWhole (language_of (schema_in current.old)) t (map meaning (map statement_of statements.now)) (rows_of current.old) (rows_of current.new) refusal) }
    ensures back { IfErr result (λ refusal. (refusal ≡ NoMemory) ⊎ AreBack (rows_of current.old) (rows_of current.new)) }
    ensures schema { schema_in current.new ≡ schema_in current.old }
    ensures tables { IfOk result (λ touched. length touched.tables.items ≤ table_count current.old) }
    ensures narrow { (columns : ℕ → ℕ) → AllByRecursion (IsNarrow columns) (map statement_of statements.now) → AreNarrow columns current.old → AreNarrow columns current.new }
    ensures few { (columns : ℕ → ℕ) → AllByRecursion (IsNarrow columns) (map statement_of statements.now) → AreNarrow columns current.old → (state : State) → AllListed (rows_of current.old) state
        → FewReadsEach (schema_in current.old) columns t (map statement_of statements.now) (removed_in before) (added_in before) state count.old count.new }
{
    row_laws();
    let Some((statement, rest)) = statements.split_first() else {
        current.check_touched(&before, count)?;
        let tables = Vec::new(alloc);
        return Ok(Touched { tables });
    };
    let touched = current.run(statement, t, count)?;
    let all = before.joined(alloc, &touched)?;
    match transact(alloc, current, rest, t, all, count) {
        Ok(later) => Ok(touched.then(alloc, later)?),
        Err(refusal) => {
            if !is_no_memory(&refusal) {
                current.undo(&touched, count)?;
            }
            Err(refusal)
        }
    }
}

// The statements of a text, none of one that does not read.
fn statements(alloc: Global, schema: &Schema, text: &str) -> Result<Vec<Statement>, AllocError>
    ensures { IfOk result (λ all. map statement_of all.items ≡ result_unwrap_or (transaction_in schema.now text.now) []) }
{
    match read_transaction(alloc, schema, text) {
        Ok(transaction) => Ok(transaction.statements),
        Err(refusal) => {
            if is_no_memory(&refusal) {
                return Err(AllocError);
            }
            Ok(Vec::new(alloc))
        }
    }
}

/// Executes a transaction's text at an instant, and gives its outcome, of rows in which no day is without a parent. A
/// refused transaction changes no row and no version. After an error for want of memory both may be any.
///
/// The count rises by the rows that are read to run the statements, to check references and to undo what ran, few for each; and
/// at a commit by one version for each row that went.
pub(crate) fn execute(
    alloc: Global,
    current: &mut Current,
    versions: &mut Versions,
    text: &str,
    t: Stamp,
    count: &mut Count,
) -> Result<Outcome, AllocError>
    ensures executed { IfOk result (λ outcome. (state : State) → AllListed (rows_of current.old) state → stored.schema_in versions.old ≡ schema_in current.old → first_orphan (language_of (schema_in current.old)) state ≡ None → IsExecuted (language_of (schema_in current.old)) t text.now state (rows_of current.new) (versions_of versions.old) (versions_of versions.new) outcome) }
    ensures current_schema { schema_in current.new ≡ schema_in current.old }
    ensures versions_schema { stored.schema_in versions.new ≡ stored.schema_in versions.old }
    ensures narrow { AreNarrow (key_columns (schema_in current.old)) current.old → AreNarrow (key_columns (schema_in current.old)) current.new }
    ensures few { AreNarrow (key_columns (schema_in current.old)) current.old → (state : State) → AllListed (rows_of current.old) state → stored.schema_in versions.old ≡ schema_in current.old → first_orphan (language_of (schema_in current.old)) state ≡ None
        → (history : ℕ → ℕ → Table) (bound : ℕ) → ((n : ℕ) → Holds (versions_of versions.old n) (history n) bound (state n)) → FewToExecute (schema_in current.old) t text.now state count.old count.new }
{
    laws::nothing_beyond();
    rowlaws::whole_itself();
    sysversion::laws::one_for_each_row();
    let statements = statements(alloc, current.schema(), text)?;
    let tables = Vec::new(alloc);
    let before = Touched { tables };
    match transact(alloc, current, statements.as_slice(), t, before, count) {
        Ok(touched) => {
            versions.commit(touched, t, count)?;
            Ok(Ok(t))
        }
        Err(refusal) => {
            if is_no_memory(&refusal) {
                return Err(AllocError);
            }
            Ok(Err(refusal))
        }
    }
}
