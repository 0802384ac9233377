//! What a list of CREATE TABLE statements is checked for. Nothing here takes memory.
ghost use Rattle.std.specs.Prelude.{◌≡◌};
ghost use Rattle.std.specs.Option.{option_copied};
ghost use Rattle.schema.specs.Checks.{Answers, each};
ghost use Rattle.schema.specs.Rules.{same_type, type_of, is_declared, has_type, is_among, is_only, has_wrong_length, column_checks, application_period_checks, system_period_checks, is_period_or_system_column, key_name_checks, key_names_checks, key_checks, names_key, same_types, same_optional_type, parent_checks, table_named, reference_checks, foreign_key_checks, name_and_size_checks, table_checks, schema_checks};

use crate::Name;
use crate::syntax::{Column, ColumnType, CreateTable, ForeignKey, KeyNames};
use fault::Refusal;

fn same_type(a: ColumnType, b: ColumnType) -> bool
    ensures { result ≡ same_type a b }
{
    match a {
        ColumnType::Integer => matches!(b, ColumnType::Integer),
        ColumnType::Varchar(_) => matches!(b, ColumnType::Varchar(_)),
        ColumnType::Date => matches!(b, ColumnType::Date),
        ColumnType::RowStart => matches!(b, ColumnType::RowStart),
        ColumnType::RowEnd => matches!(b, ColumnType::RowEnd),
    }
}

fn type_of(columns: &[Column], name: &Name) -> Option<ColumnType>
    ensures { result ≡ type_of columns.now name.now }
{
    columns
        .iter()
        .find(|c| *name == c.name)
        .map(|c| c.column_type)
}

fn is_declared(columns: &[Column], name: &Name) -> bool
    ensures { result ≡ is_declared columns.now name.now }
{
    type_of(columns, name).is_some()
}

fn has_type(columns: &[Column], name: &Name, wanted: ColumnType) -> bool
    ensures { result ≡ has_type columns.now name.now wanted }
{
    type_of(columns, name).is_some_and(|t| same_type(t, wanted))
}

fn is_only(columns: &[Column], name: &Name, wanted: ColumnType) -> bool
    ensures { result ≡ is_only columns.now name.now wanted }
{
    has_type(columns, name, wanted)
        && columns
            .iter()
            .filter(|c| same_type(c.column_type, wanted))
            .count()
            == 1
}

fn is_among(names: &[Name], name: &Name) -> bool
    ensures { result ≡ is_among names.now name.now }
{
    names.iter().any(|n| *name == *n)
}

fn has_wrong_length(column_type: ColumnType) -> bool
    ensures { result ≡ has_wrong_length column_type }
{
    match column_type {
        ColumnType::Varchar(Some(length)) => !(1..=255).contains(&length),
        ColumnType::Varchar(None) => true,
        _ => false,
    }
}

#[tactic(auto, unfolding(crate::specs::Rules::column_checks))]
fn check_column(before: &[Column], column: &Column) -> Result<(), Refusal>
    ensures { Answers result (column_checks before.now column.now) }
{
    if is_declared(before, &column.name) {
        return Err(Refusal::BadSchema);
    }
    if has_wrong_length(column.column_type) {
        return Err(Refusal::BadSchema);
    }
    Ok(())
}

#[tactic(auto, unfolding(crate::specs::Rules::application_period_checks))]
fn check_application_period(table: &CreateTable) -> Result<(), Refusal>
    ensures { Answers result (application_period_checks table.now) }
{
    let columns = table.columns.as_slice();
    let period = &table.application_period;
    if is_declared(columns, &period.name) {
        return Err(Refusal::BadSchema);
    }
    if !is_declared(columns, &period.start) || !is_declared(columns, &period.end) {
        return Err(Refusal::UnknownColumn);
    }
    if !has_type(columns, &period.start, ColumnType::Date)
        || !has_type(columns, &period.end, ColumnType::Date)
        || period.start == period.end
    {
        return Err(Refusal::BadSchema);
    }
    Ok(())
}

fn check_columns(columns: &[Column]) -> Result<(), Refusal>
    ensures { Answers result (each column_checks columns.now) }
{
    for (i, column) in columns.iter().enumerate() {
        check_column(&columns[..i], column)?;
    }
    Ok(())
}

#[tactic(auto, unfolding(crate::specs::Rules::system_period_checks))]
fn check_system_period(table: &CreateTable) -> Result<(), Refusal>
    ensures { Answers result (system_period_checks table.now) }
{
    let columns = table.columns.as_slice();
    let period = &table.system_period;
    if !is_declared(columns, &period.start) || !is_declared(columns, &period.end) {
        return Err(Refusal::UnknownColumn);
    }
    if !is_only(columns, &period.start, ColumnType::RowStart)
        || !is_only(columns, &period.end, ColumnType::RowEnd)
    {
        return Err(Refusal::BadSchema);
    }
    Ok(())
}

fn is_period_or_system_column(table: &CreateTable, name: &Name) -> bool
    ensures { result ≡ is_period_or_system_column table.now name.now }
{
    *name == table.application_period.start
        || *name == table.application_period.end
        || *name == table.system_period.start
        || *name == table.system_period.end
}

#[tactic(auto, unfolding(crate::specs::Rules::key_name_checks))]
fn check_key_name(table: &CreateTable, before: &[Name], name: &Name) -> Result<(), Refusal>
    ensures { Answers result (key_name_checks table.now before.now name.now) }
{
    if !is_declared(table.columns.as_slice(), name) {
        return Err(Refusal::UnknownColumn);
    }
    if is_period_or_system_column(table, name) || is_among(before, name) {
        return Err(Refusal::BadSchema);
    }
    Ok(())
}

fn check_key_columns(table: &CreateTable, names: &[Name]) -> Result<(), Refusal>
    ensures { Answers result (each (key_name_checks table.now) names.now) }
{
    for (i, name) in names.iter().enumerate() {
        check_key_name(table, &names[..i], name)?;
    }
    Ok(())
}

#[tactic(auto, using(crate::proofs::Each::passed, crate::proofs::Each::failed, crate::proofs::Each::answers_err), unfolding(crate::specs::Rules::key_names_checks))]
fn check_key_names(table: &CreateTable, names: &KeyNames) -> Result<(), Refusal>
    ensures { Answers result (key_names_checks table.now names.now) }
{
    check_key_columns(table, names.columns.as_slice())?;
    if names.period != table.application_period.name {
        return Err(Refusal::BadSchema);
    }
    Ok(())
}

#[tactic(auto, unfolding(crate::specs::Rules::key_checks))]
fn check_key(table: &CreateTable) -> Result<(), Refusal>
    ensures { Answers result (key_checks table.now) }
{
    if table.key.columns.len() > 3 {
        return Err(Refusal::TooLarge);
    }
    check_key_names(table, &table.key)
}

fn names_key(key: &ForeignKey, parent: &CreateTable) -> bool
    ensures { result ≡ names_key key.now.parent_names key.now.names.columns.items parent.now }
{
    key.parent_names.columns == parent.key.columns
        && key.parent_names.period == parent.application_period.name
        && key.names.columns.len() == parent.key.columns.len()
}

fn same_optional_type(a: Option<ColumnType>, b: Option<ColumnType>) -> bool
    ensures { result ≡ same_optional_type a b }
{
    match (a, b) {
        (Some(a), Some(b)) => same_type(a, b),
        _ => false,
    }
}

fn same_types(table: &CreateTable, names: &[Name], parent: &CreateTable) -> bool
    ensures { result ≡ same_types table.now.columns.items names.now parent.now }
{
    names.iter().zip(parent.key.columns.iter()).all(|(a, b)| {
        same_optional_type(
            type_of(table.columns.as_slice(), a),
            type_of(parent.columns.as_slice(), b),
        )
    })
}

fn table_named<'a>(tables: &'a [CreateTable], name: &Name) -> Option<&'a CreateTable>
    ensures { option_copied result ≡ table_named tables.now name.now }
{
    tables.iter().find(|t| *name == t.name)
}

#[tactic(auto, unfolding(crate::specs::Rules::parent_checks))]
fn check_parent(
    table: &CreateTable,
    key: &ForeignKey,
    parent: Option<&CreateTable>,
) -> Result<(), Refusal>
    ensures { Answers result (parent_checks table.now key.now (option_copied parent.entry)) }
{
    let Some(parent) = parent else {
        return Err(Refusal::UnknownTable);
    };
    if !names_key(key, parent) {
        return Err(Refusal::BadSchema);
    }
    if !same_types(table, key.names.columns.as_slice(), parent) {
        return Err(Refusal::WrongType);
    }
    Ok(())
}

#[tactic(auto, using(crate::proofs::Each::passed, crate::proofs::Each::failed, crate::proofs::Each::answers_err))]
fn check_reference(
    earlier: &[CreateTable],
    table: &CreateTable,
    key: &ForeignKey,
) -> Result<(), Refusal>
    ensures { Answers result (reference_checks earlier.now table.now key.now) }
{
    check_key_names(table, &key.names)?;
    check_parent(table, key, table_named(earlier, &key.parent))?;
    Ok(())
}

#[tactic(auto, unfolding(crate::specs::Rules::foreign_key_checks))]
fn check_foreign_key(
    earlier: &[CreateTable],
    table: &CreateTable,
    before: &[ForeignKey],
    key: &ForeignKey,
) -> Result<(), Refusal>
    ensures { Answers result (foreign_key_checks earlier.now table.now before.now key.now) }
{
    if before.len() == 8 {
        return Err(Refusal::TooLarge);
    }
    check_reference(earlier, table, key)
}

fn check_foreign_keys(
    earlier: &[CreateTable],
    table: &CreateTable,
    keys: &[ForeignKey],
) -> Result<(), Refusal>
    ensures { Answers result (each (foreign_key_checks earlier.now table.now) keys.now) }
{
    for (i, key) in keys.iter().enumerate() {
        check_foreign_key(earlier, table, &keys[..i], key)?;
    }
    Ok(())
}

#[tactic(auto, unfolding(crate::specs::Rules::name_and_size_checks))]
fn check_name_and_size(earlier: &[CreateTable], table: &CreateTable) -> Result<(), Refusal>
    ensures { Answers result (name_and_size_checks earlier.now table.now) }
{
    if table_named(earlier, &table.name).is_some() {
        return Err(Refusal::BadSchema);
    }
    if table.columns.len() > 16 {
        return Err(Refusal::TooLarge);
    }
    Ok(())
}

#[tactic(auto, using(crate::proofs::Each::passed, crate::proofs::Each::failed, crate::proofs::Each::answers_err))]
fn check_table(earlier: &[CreateTable], table: &CreateTable) -> Result<(), Refusal>
    ensures { Answers result (table_checks earlier.now table.now) }
{
    check_name_and_size(earlier, table)?;
    check_columns(table.columns.as_slice())?;
    check_application_period(table)?;
    check_system_period(table)?;
    check_key(table)?;
    check_foreign_keys(earlier, table, table.foreign_keys.as_slice())?;
    Ok(())
}

fn check_tables(tables: &[CreateTable]) -> Result<(), Refusal>
    ensures { Answers result (each table_checks tables.now) }
{
    for (i, table) in tables.iter().enumerate() {
        check_table(&tables[..i], table)?;
    }
    Ok(())
}

/// The refusal of the first check that fails, if one does.
pub(crate) fn check_schema(tables: &[CreateTable]) -> Result<(), Refusal>
    ensures { Answers result (schema_checks tables.now) }
{
    if tables.len() > 16 {
        return Err(Refusal::TooLarge);
    }
    check_tables(tables)
}
