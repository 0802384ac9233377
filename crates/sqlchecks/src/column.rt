//! Tables and columns by their names.
ghost use Rattle.std.specs.Prelude.{◌≡◌, ◌<◌, ◌==◌, length, position, IfOk};
ghost use Rattle.schema.specs.Name.{same_name};
ghost use Rattle.sqlchecks.specs.Columns.{table_named, column_named, field_at};

use crate::field::Field;
use fault::Refusal;
use schema::{Kind, Schema, Table};

fn same_name(a: &str, b: &str) -> bool
    ensures { result ≡ same_name a.now b.now }
{
    a.eq_ignore_ascii_case(b)
}

/// The place of the table of this name. `UnknownTable` where there is none. Takes no memory.
#[tactic(auto, unfolding(crate::specs::Columns::table_named))]
pub fn find_table(schema: &Schema, name: &str) -> Result<usize, Refusal>
    ensures found { result ≡ table_named schema.now name.now }
    ensures within { IfOk result (λ place. place < length schema.now) }
{
    for place in 0..schema.len() {
        if same_name(name, schema.table(place).0.as_str()) {
            return Ok(place);
        }
    }
    Err(Refusal::UnknownTable)
}

/// The place and the kind of the column of this name. `UnknownColumn` where there is none. Takes no memory.
#[tactic(auto, unfolding(crate::specs::Columns::column_named))]
pub fn find_column(table: &Table, name: &str) -> Result<(usize, Kind), Refusal>
    ensures found { result ≡ column_named table.now name.now }
    ensures within { IfOk result (λ column. column.0 < length table.now.columns) }
{
    for place in 0..table.column_count() {
        let (named, kind) = table.column(place);
        if same_name(name, named.as_str()) {
            return Ok((place, kind));
        }
    }
    Err(Refusal::UnknownColumn)
}

fn place_of(columns: &[usize], column: usize) -> Option<usize>
    ensures { result ≡ position (λ c. c == column) columns.now }
{
    columns.iter().position(|c| *c == column)
}

/// Where a row keeps the column at this place: none for the columns of a period. Takes no memory.
#[tactic(auto, unfolding(crate::specs::Columns::field_at))]
pub fn field_of(table: &Table, column: usize) -> Option<Field>
    ensures { result ≡ field_at table.now column }
{
    match place_of(table.key(), column) {
        Some(place) => Some(Field::Key(place)),
        None => place_of(table.values(), column).map(Field::Value),
    }
}
