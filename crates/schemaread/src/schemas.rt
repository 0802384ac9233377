//! The text of a schema, read and checked.
ghost use Rattle.std.specs.Prelude.{◌≡◌, ◌⊎◌, map, IfOk, IfErr, Ok, Err};
ghost use Rattle.fault.specs.declared.refusal.Refusal.TheVariants.{NoMemory};
ghost use Rattle.namesyntax.specs.Names.{name_of, names_of};
ghost use Rattle.schemasyntax.specs.Schemas.{type_form, column_form, application_form, system_form, key_names_form, reference_form, table_form};
ghost use Rattle.schemaread.specs.Schemas.{type_said, column_of, column_said, application_of, system_of, key_of, reference_of, IsSaid, AreSaid, SchemaSays};

use fault::Refusal;
use schema::syntax::{
    ApplicationPeriod, Column, ColumnType, CreateTable, ForeignKey, KeyNames, SystemPeriod,
};
use schema::{Name, Schema};
use schemasyntax::{
    ApplicationPeriod as ApplicationPeriodText, Column as ColumnText, ColumnType as TypeText,
    ForeignKey as ForeignKeyText, KeyNames as KeyNamesText, Name as NameText,
    SystemPeriod as SystemPeriodText, Table as TableText, read_schema_form,
};
use sqlchecks::literal::unsigned;
use std::alloc::{AllocError, Global};

/// How many bytes the text of a schema may have.
pub const MAX_SCHEMA_TEXT: usize = 65536;

fn name(alloc: Global, form: NameText) -> Result<Name, AllocError>
    ensures { IfOk result (λ n. n ≡ name_of form.entry) }
{
    Name::new(alloc, form.written)
}

fn names(alloc: Global, forms: &[NameText]) -> Result<Vec<Name>, AllocError>
    ensures { IfOk result (λ v. v.items ≡ names_of forms.now) }
{
    let mut names = Vec::new(alloc);
    for next in forms {
        names.push(name(alloc, *next)?)?;
    }
    Ok(names)
}

fn column_type(form: TypeText) -> ColumnType
    ensures { result ≡ type_said (type_form form.entry) }
{
    match form {
        TypeText::Integer => ColumnType::Integer,
        TypeText::Varchar(length) => ColumnType::Varchar(unsigned(length)),
        TypeText::Date => ColumnType::Date,
        TypeText::RowStart => ColumnType::RowStart,
        TypeText::RowEnd => ColumnType::RowEnd,
    }
}

fn column(alloc: Global, form: ColumnText) -> Result<Column, AllocError>
    ensures { IfOk result (λ c. column_of c ≡ column_said (column_form form.entry)) }
{
    let name = name(alloc, form.name)?;
    Ok(Column {
        name,
        column_type: column_type(form.column_type),
    })
}

fn columns(alloc: Global, forms: &[ColumnText]) -> Result<Vec<Column>, AllocError>
    ensures { IfOk result (λ v. map column_of v.items ≡ map column_said (map column_form forms.now)) }
{
    let mut columns = Vec::new(alloc);
    for next in forms {
        columns.push(column(alloc, *next)?)?;
    }
    Ok(columns)
}

fn application_period(
    alloc: Global,
    form: ApplicationPeriodText,
) -> Result<ApplicationPeriod, AllocError>
    ensures { IfOk result (λ p. application_of p ≡ application_form form.entry) }
{
    let period = name(alloc, form.name)?;
    let start = name(alloc, form.start)?;
    let end = name(alloc, form.end)?;
    Ok(ApplicationPeriod {
        name: period,
        start,
        end,
    })
}

fn system_period(alloc: Global, form: SystemPeriodText) -> Result<SystemPeriod, AllocError>
    ensures { IfOk result (λ p. system_of p ≡ system_form form.entry) }
{
    let start = name(alloc, form.start)?;
    let end = name(alloc, form.end)?;
    Ok(SystemPeriod { start, end })
}

fn key_names(alloc: Global, form: &KeyNamesText) -> Result<KeyNames, AllocError>
    ensures { IfOk result (λ k. key_of k ≡ key_names_form form.now) }
{
    let columns = names(alloc, &form.columns)?;
    let period = name(alloc, form.period)?;
    Ok(KeyNames { columns, period })
}

fn foreign_key(alloc: Global, form: &ForeignKeyText) -> Result<ForeignKey, AllocError>
    ensures { IfOk result (λ r. reference_of r ≡ reference_form form.now) }
{
    let names = key_names(alloc, &form.names)?;
    let parent = name(alloc, form.parent)?;
    let parent_names = key_names(alloc, &form.parent_names)?;
    Ok(ForeignKey {
        names,
        parent,
        parent_names,
    })
}

fn foreign_keys(alloc: Global, forms: &[ForeignKeyText]) -> Result<Vec<ForeignKey>, AllocError>
    ensures { IfOk result (λ v. map reference_of v.items ≡ map reference_form forms.now) }
{
    let mut keys = Vec::new(alloc);
    for next in forms {
        keys.push(foreign_key(alloc, next)?)?;
    }
    Ok(keys)
}

/// The CREATE TABLE statement that a form says.
fn create_table(alloc: Global, form: &TableText) -> Result<CreateTable, AllocError>
    ensures { IfOk result (λ t. IsSaid (table_form form.now) t) }
{
    let name = name(alloc, form.name)?;
    let columns = columns(alloc, &form.columns)?;
    let application_period = application_period(alloc, form.application_period)?;
    let system_period = system_period(alloc, form.system_period)?;
    let key = key_names(alloc, &form.key)?;
    let foreign_keys = foreign_keys(alloc, &form.foreign_keys)?;
    Ok(CreateTable {
        name,
        columns,
        application_period,
        system_period,
        key,
        foreign_keys,
    })
}

fn create_tables(alloc: Global, forms: &[TableText]) -> Result<Vec<CreateTable>, AllocError>
    ensures { IfOk result (λ v. AreSaid (map table_form forms.now) v.items) }
{
    let mut tables = Vec::new(alloc);
    for next in forms {
        tables.push(create_table(alloc, next)?)?;
    }
    Ok(tables)
}

/// Reads the text of a schema, with blanks wherever they may stand and words without regard to case: one or more of
///
/// ```text
/// CREATE TABLE name "(" column { "," column }
///     "," PERIOD FOR name "(" name "," name ")"
///     "," PERIOD FOR SYSTEM_TIME "(" name "," name ")"
///     "," PRIMARY KEY "(" names "," name WITHOUT OVERLAPS ")"
///     { "," FOREIGN KEY "(" names "," PERIOD name ")" REFERENCES name "(" names "," PERIOD name ")" }
///     ")" WITH SYSTEM VERSIONING ";"
/// column = name ( INTEGER | VARCHAR "(" digits ")" | DATE
///     | TIMESTAMP "(" "6" ")" GENERATED ALWAYS AS ROW ( START | END ) )
/// ```
///
/// The first of these that holds is the refusal: `TooLarge` for a text of more than `MAX_SCHEMA_TEXT` bytes; `Syntax`
/// with the byte at which the first token begins after which no such text goes on, or the text's length; `TooLarge`
/// for more than 16 tables; then for each table in turn
///
/// - `BadSchema` for a name that an earlier table has, `TooLarge` for more than 16 columns, and for each column
///   `BadSchema` for a name that an earlier one has, then for a VARCHAR whose length is not 1 to 255;
/// - of the application period `BadSchema` for a name that a column has, `UnknownColumn` where its start or its end is
///   none of the columns, and `BadSchema` where they are not two different DATE columns;
/// - of the system period `UnknownColumn` where its start or its end is none of the columns, and `BadSchema` where they
///   are not the only ROW START column and the only ROW END column;
/// - of the key `TooLarge` for more than three columns, for each `UnknownColumn`, then `BadSchema` for a column of a
///   period or one named before, and `BadSchema` where the last name is not that of the application period;
/// - of each foreign key `TooLarge` for the ninth, the refusals of the names of a key, `UnknownTable` where the parent is
///   no earlier table, `BadSchema` where it does not refer to the columns of the parent's key in their order and the
///   parent's period or has another number of columns itself, and `WrongType` where the types of the columns differ,
///   the lengths of VARCHAR aside.
///
/// `NoMemory` can come at any point before the answer.
#[tactic(auto, unfolding(crate::specs::Schemas::SchemaSays))]
pub fn read_schema(alloc: Global, text: &str) -> Result<Schema, Refusal>
    ensures ok { IfOk result (λ s. SchemaSays text.now (Ok s)) }
    ensures err { IfErr result (λ r. (r ≡ NoMemory) ⊎ SchemaSays text.now (Err r)) }
{
    if text.len() > MAX_SCHEMA_TEXT {
        return Err(Refusal::TooLarge);
    }
    let forms = read_schema_form(alloc, text)?;
    let tables = create_tables(alloc, &forms)?;
    Schema::of(alloc, tables)
}
