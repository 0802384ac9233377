//! Whether the tables of a schema have what a transaction names.
ghost use Rattle.std.specs.Prelude.{◌≡◌, ◌||◌, not};
ghost use Rattle.std.specs.List.{list_all, list_any};
ghost use Rattle.sqlchecks.specs.declared.field.Field.TheVariants as field;
ghost use Rattle.sqlread.specs.Changes.{is_system as system};
ghost use Rattle.sqlread.specs.Shapes.{statement_of, insert_of};
ghost use Rattle.rowtext.specs.Named.{has_assigned as assigns, has_cell as gives, has_cells as gives_all, has_compared as compares, has_field, has_named as names, places};

use crate::transactions::{field_name, is_system, value_at};
use schema::{Schema, Table};
use sqlchecks::comparison::Comparison;
use sqlchecks::field::Field;
use sqlread::statement::{Assignment, Insert, Statement, Transaction};

/// Whether the schema has each table and each column that the transaction names, each row has a value for each of its
/// columns, and each UPDATE assigns something. So it is of each transaction that was read over the schema.
pub fn has_named(schema: &Schema, transaction: &Transaction) -> bool
    ensures { result ≡ list_all (λ s. names schema.now (statement_of s)) transaction.now.statements.items }
{
    transaction
        .statements
        .iter()
        .all(|statement| is_named(schema, statement))
}

fn is_named(schema: &Schema, statement: &Statement) -> bool
    ensures { result ≡ names schema.now (statement_of statement.now) }
{
    let place = statement.table();
    if place >= schema.len() {
        return false;
    }
    let (_, table) = schema.table(place);
    match statement {
        Statement::Insert(insert) => has_cells(table, insert),
        Statement::Update(update) => {
            has_assigned(table, &update.assignments) && has_compared(table, &update.conditions)
        }
        Statement::Delete(delete) => has_compared(table, &delete.conditions),
    }
}

// Whether there are columns to give, and the row has a value for each.
fn has_cells(table: &Table, insert: &Insert) -> bool
    ensures { result ≡ gives_all table.now (insert_of insert.now) }
{
    has_given(table) && has_each_cell(table, insert)
}

fn has_given(table: &Table) -> bool
    ensures { result ≡ list_any (λ c. not (system table.now c)) (places table.now) }
{
    (0..table.column_count()).any(|column| !is_system(table, column))
}

fn has_each_cell(table: &Table, insert: &Insert) -> bool
    ensures { result ≡ list_all (λ c. system table.now c || gives table.now (insert_of insert.now) c) (places table.now) }
{
    (0..table.column_count()).all(|column| is_system(table, column)
        || has_cell(table, insert, column))
}

fn has_cell(table: &Table, insert: &Insert, column: usize) -> bool
    ensures { result ≡ gives table.now (insert_of insert.now) column }
{
    column == table.start() || column == table.end() || value_at(table, insert, column).is_some()
}

fn has_assigned(table: &Table, assignments: &[Assignment]) -> bool
    ensures { result ≡ assigns table.now assignments.now }
{
    !assignments.is_empty() && has_each_assigned(table, assignments)
}

fn has_each_assigned(table: &Table, assignments: &[Assignment]) -> bool
    ensures { result ≡ list_all (λ a. has_field table.now (field.Value a.place)) assignments.now }
{
    assignments.iter().all(|assignment| field_name(table, Field::Value(assignment.place)).is_some())
}

fn has_compared(table: &Table, conditions: &[Comparison]) -> bool
    ensures { result ≡ compares table.now conditions.now }
{
    conditions
        .iter()
        .all(|comparison| field_name(table, comparison.field).is_some())
}
