//! The columns of a table, and what each shows.
ghost use Rattle.std.specs.Prelude.{◌≡◌, IfOk};
ghost use Rattle.answer.specs.Answers.{columns_in, shows_at, shows_field, table_columns};

use crate::{Column, Shows};
use fault::Text;
use schema::{Schema, Table};
use sqlchecks::column::field_of;
use sqlchecks::field::Field;
use std::alloc::{AllocError, Global};

/// The columns of the table at this place of the schema, in declared order; none where there is no such table.
#[tactic(auto, unfolding(crate::specs::Answers::columns_in))]
pub fn columns_of(alloc: Global, schema: &Schema, table: usize) -> Result<Vec<Column>, AllocError>
    ensures { IfOk result (λ columns. columns.items ≡ columns_in schema.now table) }
{
    if table >= schema.len() {
        return Ok(Vec::new(alloc));
    }
    table_columns(alloc, schema.table(table).1)
}

fn table_columns(alloc: Global, table: &Table) -> Result<Vec<Column>, AllocError>
    ensures { IfOk result (λ columns. columns.items ≡ table_columns table.now) }
{
    let mut columns = Vec::new(alloc);
    for place in 0..table.column_count() {
        if let Some(shows) = shows_at(table, place) {
            let (name, _) = table.column(place);
            let name = Text::new(alloc, name.as_str())?;
            columns.push(Column { name, shows })?;
        }
    }
    Ok(columns)
}

// What the column at this place shows, if that is something of a row.
#[tactic(auto, unfolding(crate::specs::Answers::shows_at))]
fn shows_at(table: &Table, column: usize) -> Option<Shows>
    ensures { result ≡ shows_at table.now column }
{
    if column == table.start() {
        Some(Shows::Start)
    } else if column == table.end() {
        Some(Shows::End)
    } else if column == table.system_start() {
        Some(Shows::SystemStart)
    } else if column == table.system_end() {
        Some(Shows::SystemEnd)
    } else {
        field_of(table, column).map(shows_field)
    }
}

fn shows_field(field: Field) -> Shows
    ensures { result ≡ shows_field field }
{
    match field {
        Field::Key(place) => Shows::Key(place),
        Field::Value(place) => Shows::Value(place),
    }
}
