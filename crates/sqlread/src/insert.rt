//! INSERT: the column list, the literals and the row.
ghost use Rattle.std.specs.Prelude.{◌≡◌, ◌==◌, [], map, find};
ghost use Rattle.std.specs.Option.{option_copied};
ghost use Rattle.namesyntax.specs.Names.{names_of};
ghost use Rattle.sqlsyntax.specs.Shared.{literal_form};
ghost use Rattle.sqlsyntax.specs.Transactions.{insert_form};
ghost use Rattle.sqlchecks.specs.Answering.{each_of};
ghost use Rattle.namesyntax.specs.Parsing.{GivesInMemory};
ghost use Rattle.sqlread.specs.Shapes.{insert_of};
ghost use Rattle.sqlread.specs.Changes.{given_of, is_system, is_among, listed, listed_after, has_all, list_in, values_in, value_given, day_given, row_given, insert_into, insert_in};

use crate::given::Given;
use crate::statement::Insert;
use fault::Refusal;
use model::value::Value;
use period::{Day, Period};
use schema::{Kind, Schema, Table};
use sqlchecks::column::{find_column, find_table};
use sqlsyntax::{Insert as InsertText, Literal, Name};
use std::alloc::Global;

fn is_system(table: &Table, column: usize) -> bool
    ensures { result ≡ is_system table.now column }
{
    column == table.system_start() || column == table.system_end()
}

fn is_listed(columns: &[(usize, Kind)], column: usize) -> bool
    ensures { result ≡ is_among column (map (λ c. c.0) columns.now) }
{
    columns.iter().map(|c| c.0).any(|c| c == column)
}

/// The column of a name that stands behind these columns.
#[tactic(auto, unfolding(crate::specs::Changes::listed))]
fn listed(table: &Table, before: &[(usize, Kind)], name: &str) -> Result<(usize, Kind), Refusal>
    ensures { result ≡ listed table.now before.now name.now }
{
    let column = find_column(table, name)?;
    if is_system(table, column.0) || is_listed(before, column.0) {
        return Err(Refusal::NotAssignable);
    }
    Ok(column)
}

/// The columns of the names.
fn listed_columns(
    alloc: Global,
    table: &Table,
    names: &[Name],
) -> Result<Vec<(usize, Kind)>, Refusal>
    ensures { GivesInMemory (λ v. v.items) result (listed_after table.now [] (names_of names.now)) }
{
    let mut columns = Vec::new(alloc);
    for name in names {
        let column = listed(table, &columns, name.written)?;
        columns.push(column)?;
    }
    Ok(columns)
}

/// Whether no column but a system column is left out.
fn has_all(table: &Table, columns: &[(usize, Kind)]) -> bool
    ensures { result ≡ has_all table.now columns.now }
{
    (0..table.column_count()).all(|c| is_system(table, c) || is_listed(columns, c))
}

/// The columns of the list, or the first of its checks that fails.
#[tactic(auto, unfolding(crate::specs::Changes::list_in))]
fn list_in(alloc: Global, table: &Table, names: &[Name]) -> Result<Vec<(usize, Kind)>, Refusal>
    ensures { GivesInMemory (λ v. v.items) result (list_in table.now (names_of names.now)) }
{
    let columns = listed_columns(alloc, table, names)?;
    if !has_all(table, &columns) {
        return Err(Refusal::UnknownColumn);
    }
    Ok(columns)
}

/// Each column of the list with the value of the literal at its place, or the first of the checks that fails.
#[tactic(auto, unfolding(crate::specs::Changes::values_in))]
fn values_in(
    alloc: Global,
    columns: &[(usize, Kind)],
    literals: &[Literal],
) -> Result<Vec<Given>, Refusal>
    ensures { GivesInMemory (λ v. map given_of v.items) result (values_in columns.now (map literal_form literals.now)) }
{
    if literals.len() != columns.len() {
        return Err(Refusal::WrongType);
    }
    let mut given = Vec::new(alloc);
    for (column, literal) in columns.iter().zip(literals) {
        let value = Given::read(alloc, *column, *literal)?;
        given.push(value)?;
    }
    Ok(given)
}

fn find_given(given: &[Given], column: usize) -> Option<&Given>
    ensures { option_copied result ≡ find (λ g. g.column == column) given.now }
{
    given.iter().find(|g| g.column == column)
}

/// The value that a column is given.
#[tactic(auto, using(crate::proofs::Lists::value_is))]
fn value_given(given: &[Given], column: usize) -> Result<Value, Refusal>
    ensures { GivesInMemory (λ v. v) result (value_given (map given_of given.now) column) }
{
    match find_given(given, column) {
        Some(found) => Ok(found.value.clone()?),
        None => Err(Refusal::UnknownColumn),
    }
}

/// The day that a column is given.
#[tactic(auto, using(crate::proofs::Lists::value_is), unfolding(crate::specs::Changes::day_given))]
fn day_given(given: &[Given], column: usize) -> Result<Day, Refusal>
    ensures { GivesInMemory (λ d. d.number) result (day_given (map given_of given.now) column) }
{
    match find_given(given, column) {
        Some(found) => found.day(),
        None => Err(Refusal::UnknownColumn),
    }
}

/// The values that these columns are given, in their order.
#[tactic(auto, using(crate::proofs::Lists::each_is))]
fn values_given(alloc: Global, given: &[Given], columns: &[usize]) -> Result<Vec<Value>, Refusal>
    ensures { GivesInMemory (λ v. v.items) result (each_of (value_given (map given_of given.now)) columns.now) }
{
    let mut values = Vec::new(alloc);
    for column in columns {
        let value = value_given(given, *column)?;
        values.push(value)?;
    }
    Ok(values)
}

/// The row of these values.
#[tactic(auto, unfolding(crate::specs::Changes::row_given))]
fn row_given(alloc: Global, place: usize, table: &Table, given: &[Given]) -> Result<Insert, Refusal>
    ensures { GivesInMemory insert_of result (row_given place table.now (map given_of given.now)) }
{
    let start = day_given(given, table.start())?;
    let end = day_given(given, table.end())?;
    let period = Period::new(start, end)?;
    let key = values_given(alloc, given, table.key())?;
    let values = values_given(alloc, given, table.values())?;
    Ok(Insert {
        table: place,
        key,
        values,
        period,
    })
}

/// The row of an INSERT into this table, which stands at this place, or the first of its checks that fails.
#[tactic(auto, unfolding(crate::specs::Changes::insert_into))]
fn insert_into(
    alloc: Global,
    place: usize,
    table: &Table,
    text: &InsertText,
) -> Result<Insert, Refusal>
    ensures { GivesInMemory insert_of result (insert_into place table.now (insert_form text.now)) }
{
    let columns = list_in(alloc, table, &text.columns)?;
    let given = values_in(alloc, &columns, &text.values)?;
    row_given(alloc, place, table, &given)
}

/// The row of an INSERT, or the first of its checks that fails.
#[tactic(auto, unfolding(crate::specs::Changes::in_table, crate::specs::Changes::insert_in))]
pub(crate) fn insert_in(
    alloc: Global,
    schema: &Schema,
    text: &InsertText,
) -> Result<Insert, Refusal>
    ensures { GivesInMemory insert_of result (insert_in schema.now (insert_form text.now)) }
{
    let place = find_table(schema, text.table.written)?;
    let (_, table) = schema.table(place);
    insert_into(alloc, place, table, text)
}
