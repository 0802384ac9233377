//! The tables that CREATE TABLE statements make, once the checks have passed.
ghost use Rattle.std.specs.Prelude.{◌≡◌, ◌||◌, None, IfOk, IfErr, ℕ, List, length, map, not};
ghost use Rattle.fault.specs.declared.refusal.Refusal.TheVariants.{NoMemory};
ghost use Rattle.schema.specs.Checks.{first_failing, each};
ghost use Rattle.schema.specs.Rules.{column_checks, schema_checks};
ghost use Rattle.schema.specs.Tables.{place, kind_of, entry_of, numbers_below, is_one_of, reference_of, shape_of, schema_of};

use crate::Name;
use crate::syntax::{Column, ColumnType, CreateTable, ForeignKey};
use crate::table::{Kind, Reference, Table};
use fault::Refusal;
use indexmap::IndexMap;
use std::alloc::{AllocError, Global};

fn kind_of(column_type: ColumnType) -> Kind
    ensures { result ≡ kind_of column_type }
{
    match column_type {
        ColumnType::Integer => Kind::Integer,
        ColumnType::Varchar(length) => Kind::Varchar(length.unwrap_or(255).min(255) as u8),
        ColumnType::Date => Kind::Date,
        ColumnType::RowStart => Kind::SystemStart,
        ColumnType::RowEnd => Kind::SystemEnd,
    }
}

fn columns_of(alloc: Global, columns: &[Column]) -> Result<IndexMap<Name, Kind>, Refusal>
    requires { first_failing (each column_checks columns.now) ≡ None }
    ensures ok { IfOk result (λ m. m.entries ≡ map entry_of columns.now) }
    ensures err { IfErr result (λ e. e ≡ NoMemory) }
{
    let mut named = IndexMap::new(alloc);
    for column in columns {
        named.insert(column.name.clone()?, kind_of(column.column_type))?;
    }
    Ok(named)
}

/// The place of a name among the keys, or their number.
fn place_of<V>(named: &IndexMap<Name, V>, name: &Name) -> usize
    ensures { result ≡ place (map (λ e. e.0) named.now.entries) name.now }
{
    named.get_index_of(name).unwrap_or(named.len())
}

fn places(
    alloc: Global,
    columns: &IndexMap<Name, Kind>,
    names: &[Name],
) -> Result<Vec<usize>, AllocError>
    ensures { IfOk result (λ v. v.items ≡ map (place (map (λ e. e.0) columns.now.entries)) names.now) }
{
    let mut places = Vec::new(alloc);
    for name in names {
        places.push(place_of(columns, name))?;
    }
    Ok(places)
}

fn is_one_of(places: &[usize], place: usize) -> bool
    ensures { result ≡ is_one_of places.now place }
{
    places.iter().any(|p| *p == place)
}

/// The places below `count` that are in neither list.
#[tactic(auto, using(crate::proofs::Built::numbers_below_with, crate::proofs::Built::numbers_below_without))]
fn places_but(
    alloc: Global,
    count: usize,
    periods: &[usize],
    key: &[usize],
) -> Result<Vec<usize>, AllocError>
    ensures { IfOk result (λ v. v.items ≡ numbers_below count (λ c. not (is_one_of periods.now c || is_one_of key.now c))) }
{
    let mut places = Vec::new(alloc);
    for place in 0..count {
        if !(is_one_of(periods, place) || is_one_of(key, place)) {
            places.push(place)?;
        }
    }
    Ok(places)
}

/// The columns of a foreign key, and the place of its parent among the tables.
fn reference_of(
    alloc: Global,
    tables: &IndexMap<Name, Table>,
    columns: &IndexMap<Name, Kind>,
    key: &ForeignKey,
) -> Result<Reference, AllocError>
    ensures { IfOk result (λ r. r ≡ reference_of (map (λ e. e.0) tables.now.entries) (map (λ e. e.0) columns.now.entries) key.now) }
{
    let places = places(alloc, columns, key.names.columns.as_slice())?;
    Ok(Reference::new(places, place_of(tables, &key.parent)))
}

fn references_of(
    alloc: Global,
    tables: &IndexMap<Name, Table>,
    columns: &IndexMap<Name, Kind>,
    keys: &[ForeignKey],
) -> Result<Vec<Reference>, AllocError>
    ensures { IfOk result (λ v. v.items ≡ map (reference_of (map (λ e. e.0) tables.now.entries) (map (λ e. e.0) columns.now.entries)) keys.now) }
{
    let mut references = Vec::new(alloc);
    for key in keys {
        references.push(reference_of(alloc, tables, columns, key)?)?;
    }
    Ok(references)
}

/// A table whose columns have passed the checks.
fn table_of(
    alloc: Global,
    tables: &IndexMap<Name, Table>,
    table: &CreateTable,
) -> Result<Table, Refusal>
    requires { first_failing (each column_checks table.now.columns.items) ≡ None }
    ensures ok { IfOk result (λ t. t ≡ shape_of (map (λ e. e.0) tables.now.entries) table.now) }
    ensures err { IfErr result (λ e. e ≡ NoMemory) }
{
    let declared = table.columns.as_slice();
    let columns = columns_of(alloc, declared)?;
    let start = place_of(&columns, &table.application_period.start);
    let end = place_of(&columns, &table.application_period.end);
    let system_start = place_of(&columns, &table.system_period.start);
    let system_end = place_of(&columns, &table.system_period.end);
    let key = places(alloc, &columns, table.key.columns.as_slice())?;
    let periods = [start, end, system_start, system_end];
    let values = places_but(alloc, declared.len(), &periods, key.as_slice())?;
    let references = references_of(alloc, tables, &columns, table.foreign_keys.as_slice())?;
    let period = table.application_period.name.clone()?;
    Ok(Table {
        columns,
        period,
        start,
        end,
        system_start,
        system_end,
        key,
        values,
        references,
    })
}

/// The tables, which have passed the checks.
pub(crate) fn tables_of(
    alloc: Global,
    tables: &[CreateTable],
) -> Result<IndexMap<Name, Table>, Refusal>
    requires { first_failing (schema_checks tables.now) ≡ None }
    ensures ok { IfOk result (λ m. m.entries ≡ schema_of tables.now) }
    ensures err { IfErr result (λ e. e ≡ NoMemory) }
{
    let mut named = IndexMap::new(alloc);
    for table in tables {
        let made = table_of(alloc, &named, table)?;
        named.insert(table.name.clone()?, made)?;
    }
    Ok(named)
}
