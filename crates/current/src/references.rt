//! Foreign keys: the first day of a row that has no parent.
ghost use Rattle.std.specs.Prelude.{◌≡◌, ◌<◌, ◌≤◌, ℕ, map, find, length, slice_get, true, IfOk, IfSome};
ghost use Rattle.std.specs.Option.{option_map, option_and_then, option_copied};
ghost use Rattle.model.specs.Periods.{period_of, is_free};
ghost use Rattle.model.specs.Statements.{days_of};
ghost use Rattle.rowlaws.specs.Rows.{Has};
ghost use Rattle.rowlaws.specs.Losing.{is_uncovered};
ghost use Rattle.rowlaws.specs.Covering as covering;
ghost use Rattle.rowlaws.specs.Covering.{periods_of, rows_orphan};
ghost use Rattle.overlaps.specs.Index.{AreApart};
ghost use Rattle.sqlchecks.specs.Columns.{field_at, kept_at};
ghost use Rattle.sqlread.specs.Meaning.{values_at, reference_of, references_from, language_of};
ghost use Rattle.current.specs.Rows.{row_of};
ghost use Rattle.current.specs.ByKey.{rows_in};
ghost use Rattle.current.specs.Table.{rows_of_table};
ghost use Rattle.current.specs.Places.{rows_at};
ghost use Rattle.current.specs.Orphans.{place_of};
ghost use Rattle.current.specs.Reads.{CostsAtMost, searching, judging};
ghost use Rattle.current.specs.Suspects.{IsIn};

use crate::row::Row;
use crate::strands::Strands;
use crate::table::TableRows;
use model::value::Value;
use overlaps::{Count, Key};
use period::{Day, Period};
use refer::covered;
use schema::{Reference, Schema, Table};
use sqlchecks::column::field_of;
use sqlchecks::field::Field;
use std::alloc::{AllocError, Global};

/// A day of a key's row that has no parent.
#[derive(Debug, Clone, Copy)]
pub(crate) struct Place<'a> {
    pub table: usize,
    pub key: &'a Key,
    pub day: Day,
}

// What a row has in a column of its table, if that is of the key or a value column.
#[tactic(auto, unfolding(sqlchecks::specs::Columns::kept_at))]
fn column_value<'a>(table: &Table, column: usize, row: &'a Row) -> Option<&'a Value>
    ensures { option_copied result ≡ option_and_then (kept_at row.now.key (row_of row.now).values) (field_at table.now column) }
{
    match field_of(table, column) {
        Some(Field::Key(place)) => row.key.as_slice().get(place),
        Some(Field::Value(place)) => row.values.as_slice().get(place),
        None => None,
    }
}

/// The key of the parent that a row refers to by these columns.
pub(crate) fn referred_key(
    alloc: Global,
    table: &Table,
    columns: &[usize],
    row: &Row,
) -> Result<Key, AllocError>
    ensures { IfOk result (λ key. key ≡ values_at table.now columns.now row.now.key (row_of row.now).values) }
{
    let mut values = Vec::new(alloc);
    for column in columns {
        if let Some(value) = column_value(table, *column, row) {
            values.push(value.clone()?)?;
        }
    }
    Key::new(values)
}

// The periods of rows.
fn periods(alloc: Global, rows: &[Row]) -> Result<Vec<Period>, AllocError>
    ensures { IfOk result (λ periods. map period_of periods.items ≡ map (λ r. r.period) (map row_of rows.now)) }
{
    let mut periods = Vec::new(alloc);
    for row in rows {
        periods.push(row.period)?;
    }
    Ok(periods)
}

/// The rows of a table, which may not be there.
pub(crate) fn table_at(tables: &[TableRows], place: usize) -> Option<&TableRows>
    ensures { option_copied result ≡ slice_get tables.now place }
{
    tables.get(place)
}

// Those rows of a key that have a day of the period, of a table that may not be there. They are found by halves.
fn rows_sharing<'a>(
    tables: &'a [TableRows],
    table: usize,
    key: &Key,
    period: Period,
    count: &mut Count,
) -> &'a [Row]
    ensures free { (d : ℕ) → period.start.number ≤ d → d < period.end.number → is_free (map (λ r. period_of r.period) result.now) d ≡ is_free (periods_of (rows_at rows_of_table tables.now table) key.now) d }
    ensures apart { AreApart (map (λ r. period_of r.period) result.now) }
    ensures few { CostsAtMost (rows_at rows_of_table tables.now) (λ digits. searching digits key.now (period_of period) (rows_at rows_of_table tables.now table)) count.old count.new }
{
    overlaps::laws::sharing_is_overlap();
    match table_at(tables, table) {
        Some(rows) => rows.sharing(key, period, count).1,
        None => &[],
    }
}

// The least day of a period that none of these rows has, which stand in the order of their starts.
fn first_free(alloc: Global, rows: &[Row], period: Period) -> Result<Option<Day>, AllocError>
    requires { AreApart (map (λ r. period_of r.period) rows.now) }
    ensures { IfOk result (λ day. option_map (λ d. d.number) day ≡ find (is_free (map (λ r. period_of r.period) rows.now)) (days_of (period_of period))) }
{
    let periods = periods(alloc, rows)?;
    Ok(covered(period, periods.as_slice()).err())
}

/// The least day of a period that no row of the key has. The key's rows that have a day of the period are looked for by
/// halves, and no others are read.
pub(crate) fn first_free_day(
    alloc: Global,
    tables: &[TableRows],
    table: usize,
    key: &Key,
    period: Period,
    count: &mut Count,
) -> Result<Option<Day>, AllocError>
    ensures day { IfOk result (λ day. option_map (λ d. d.number) day ≡ find (is_free (periods_of (rows_at rows_of_table tables.now table) key.now)) (days_of (period_of period))) }
    ensures few { CostsAtMost (rows_at rows_of_table tables.now) (λ digits. searching digits key.now (period_of period) (rows_at rows_of_table tables.now table)) count.old count.new }
{
    let rows = rows_sharing(tables, table, key, period, count);
    first_free(alloc, rows, period)
}

// A day after each day of a period that none of these rows has, which stand in the order of their starts. It is no later than
// the period's end.
fn free_before(rows: &[Row], period: Period) -> Day
    ensures within { result.number ≤ period.end.number }
    ensures free { (d : ℕ) → d < period.end.number → is_free (map (λ r. period_of r.period) rows.now) d ≡ true → d < result.number }
{
    match rows.last() {
        Some(row) => {
            if row.period.end >= period.end {
                row.period.start.min(period.end)
            } else {
                period.end
            }
        }
        None => period.end,
    }
}

/// A period with all days of a period that no row of the key has, from the least of them on; none where each has a row. It
/// reads the same rows as `first_free_day`.
pub(crate) fn free_span(
    alloc: Global,
    tables: &[TableRows],
    table: usize,
    key: &Key,
    period: Period,
    count: &mut Count,
) -> Result<Option<Period>, AllocError>
    ensures free { IfOk result (λ span. (d : ℕ) → Has (days_of (period_of period)) d → is_free (periods_of (rows_at rows_of_table tables.now table) key.now) d ≡ true → IsIn span d) }
    ensures within { IfOk result (λ span. IfSome span (λ s. (period.start.number ≤ s.start.number) × (s.end.number ≤ period.end.number) × (is_uncovered (periods_of (rows_at rows_of_table tables.now table) key.now) (period_of period) ≡ true))) }
    ensures few { CostsAtMost (rows_at rows_of_table tables.now) (λ digits. searching digits key.now (period_of period) (rows_at rows_of_table tables.now table)) count.old count.new }
{
    let rows = rows_sharing(tables, table, key, period, count);
    let Some(start) = first_free(alloc, rows, period)? else {
        return Ok(None);
    };
    Ok(Period::new(start, free_before(rows, period)).ok())
}

// The least day of a row that no parent has, by one foreign key of its table.
fn missing_by(
    alloc: Global,
    tables: &[TableRows],
    table: &Table,
    reference: &Reference,
    row: &Row,
    count: &mut Count,
) -> Result<Option<Day>, AllocError>
    ensures day { IfOk result (λ day. option_map (λ d. d.number) day ≡ find (is_free (periods_of (rows_at rows_of_table tables.now reference.now.parent) (values_at table.now reference.now.columns row.now.key (row_of row.now).values))) (days_of (period_of row.now.period))) }
    ensures few { CostsAtMost (rows_at rows_of_table tables.now) (λ digits. searching digits (values_at table.now reference.now.columns row.now.key (row_of row.now).values) (period_of row.now.period) (rows_at rows_of_table tables.now reference.now.parent)) count.old count.new }
{
    let key = referred_key(alloc, table, reference.columns(), row)?;
    let parent = reference.parent();
    first_free_day(alloc, tables, parent, &key, row.period, count)
}

// The lesser day, where there is one.
fn lesser(one: Option<Day>, other: Option<Day>) -> Option<Day>
    ensures { option_map (λ d. d.number) result ≡ covering.lesser (option_map (λ d. d.number) one) (option_map (λ d. d.number) other) }
{
    match (one, other) {
        (Some(day), Some(later)) => Some(day.min(later)),
        (Some(day), None) => Some(day),
        (None, day) => day,
    }
}

/// And by all foreign keys of its table, which stands at this place. For each the parent's rows that have a day of the row
/// are found by halves.
pub(crate) fn missing(
    alloc: Global,
    tables: &[TableRows],
    place: usize,
    table: &Table,
    row: &Row,
    count: &mut Count,
) -> Result<Option<Day>, AllocError>
    ensures day { IfOk result (λ day. option_map (λ d. d.number) day ≡ covering.missing (map (reference_of place table.now) table.now.references) (rows_at rows_of_table tables.now) place (row_of row.now)) }
    ensures few { CostsAtMost (rows_at rows_of_table tables.now) (λ digits. judging digits (rows_at rows_of_table tables.now) (map (reference_of place table.now) table.now.references) (row_of row.now)) count.old count.new }
{
    let mut day = None;
    let references = table.references();
    for reference in references {
        let next = missing_by(alloc, tables, table, reference, row, count)?;
        day = lesser(day, next);
    }
    Ok(day)
}

// The first such day of these rows.
fn missing_in_rows<'a>(
    alloc: Global,
    tables: &[TableRows],
    place: usize,
    table: &Table,
    rows: &'a [Row],
    count: &mut Count,
) -> Result<Option<Place<'a>>, AllocError>
    ensures { IfOk result (λ found. option_map place_of found ≡ covering.missing_in_rows (map (reference_of place table.now) table.now.references) (rows_at rows_of_table tables.now) place (map row_of rows.now)) }
{
    for row in rows {
        if let Some(day) = missing(alloc, tables, place, table, row, count)? {
            let key = &row.key;
            return Ok(Some(Place {
                table: place,
                key,
                day,
            }));
        }
    }
    Ok(None)
}

// The first such day of the rows of all keys, which are not looked at where the table has no foreign key.
fn missing_in_strands<'a>(
    alloc: Global,
    tables: &[TableRows],
    place: usize,
    table: &Table,
    strands: &'a Strands,
) -> Result<Option<Place<'a>>, AllocError>
    ensures { IfOk result (λ found. option_map place_of found ≡ covering.missing_in_rows (map (reference_of place table.now) table.now.references) (rows_at rows_of_table tables.now) place (rows_in strands.now.entries)) }
{
    if table.references().is_empty() {
        return Ok(None);
    }
    let mut count = Count::new();
    for (_, rows) in strands {
        let rows = rows.all(&mut count);
        if let Some(found) = missing_in_rows(alloc, tables, place, table, rows, &mut count)? {
            return Ok(Some(found));
        }
    }
    Ok(None)
}

// The first such day of the table at this place, which may have no rows yet.
fn missing_in_table<'a>(
    alloc: Global,
    tables: &'a [TableRows],
    schema: &Schema,
    place: usize,
) -> Result<Option<Place<'a>>, AllocError>
    requires { place < length schema.now }
    ensures { IfOk result (λ found. option_map place_of found ≡ covering.missing_in_rows (references_from 0 schema.now) (rows_at rows_of_table tables.now) place (rows_at rows_of_table tables.now place)) }
{
    let (_, table) = schema.table(place);
    match table_at(tables, place) {
        Some(rows) => missing_in_strands(alloc, tables, place, table, &rows.index.strands),
        None => Ok(None),
    }
}

/// The first day without a parent: of the first table in declared order, its least key, its least
/// day.
pub(crate) fn first_orphan<'a>(
    alloc: Global,
    tables: &'a [TableRows],
    schema: &Schema,
) -> Result<Option<Place<'a>>, AllocError>
    ensures first { IfOk result (λ found. option_map place_of found ≡ rows_orphan (language_of schema.now) (rows_at rows_of_table tables.now)) }
    ensures within { IfOk result (λ found. IfSome found (λ place. place.table < length schema.now)) }
{
    for place in 0..schema.len() {
        if let Some(found) = missing_in_table(alloc, tables, schema, place)? {
            return Ok(Some(found));
        }
    }
    Ok(None)
}
