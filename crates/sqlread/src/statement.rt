//! The statements of a transaction, and what their assignments set.
ghost use Rattle.std.specs.Prelude.{◌≡◌, ◌==◌, IfOk, find, option_map};
ghost use Rattle.std.specs.Option.{option_copied};
ghost use Rattle.sqlread.specs.Meaning.{new_value, set_at, set_of, table_of};
ghost use Rattle.sqlread.specs.Shapes.{statement_of};

use model::value::Value;
use period::Period;
use sqlchecks::comparison::Comparison;
use std::alloc::{AllocError, Global};

/// What a value column is set to.
#[derive(Debug, Drop)]
pub enum NewValue {
    Literal(Value),
    /// The column's old number and this one, which is at most 9223372036854775807.
    Plus(u64),
    /// The column's old number without this one, which is at most 9223372036854775807.
    Minus(u64),
}

impl NewValue {
    /// The new value of the old one: none where that would be a number outside 64 bits with a sign, or where the old
    /// value is no number. Fails only for want of memory.
    #[tactic(auto, unfolding(crate::specs::Meaning::new_value))]
    pub fn of(&self, old: &Value) -> Result<Option<Value>, AllocError>
        ensures { IfOk result (λ new. new ≡ new_value self.now old.now) }
    {
        match (self, old) {
            (NewValue::Literal(value), _) => Ok(Some(value.clone()?)),
            (NewValue::Plus(more), Value::Number(number)) => {
                Ok(number.checked_add_unsigned(*more).map(Value::Number))
            }
            (NewValue::Minus(less), Value::Number(number)) => {
                Ok(number.checked_sub_unsigned(*less).map(Value::Number))
            }
            _ => Ok(None),
        }
    }
}

/// A value column, by its place among the table's value columns from 0, and what it is set to.
#[derive(Debug, Drop)]
pub struct Assignment {
    pub place: usize,
    pub value: NewValue,
}

fn assignment_at(assignments: &[Assignment], place: usize) -> Option<&Assignment>
    ensures { option_copied result ≡ find (λ a. a.place == place) assignments.now }
{
    assignments.iter().find(|a| a.place == place)
}

/// What the assignments leave at a place among the values: what they set it to, or the old value.
#[tactic(auto, unfolding(crate::specs::Meaning::set_at))]
fn set_at(
    assignments: &[Assignment],
    place: usize,
    old: &Value,
) -> Result<Option<Value>, AllocError>
    ensures { IfOk result (λ new. new ≡ set_at assignments.now place old.now) }
{
    match assignment_at(assignments, place) {
        Some(assignment) => assignment.value.of(old),
        None => Ok(Some(old.clone()?)),
    }
}

/// The values that the assignments make of the old ones: none where one of them would be a number outside 64 bits with
/// a sign. Each right side is read from the old value of its column. Fails only for want of memory.
#[tactic(auto, using(crate::proofs::Lists::set_is))]
pub fn assigned(
    alloc: Global,
    assignments: &[Assignment],
    old: &[Value],
) -> Result<Option<Vec<Value>>, AllocError>
    ensures { IfOk result (λ new. option_map (λ values. values.items) new ≡ set_of assignments.now old.now) }
{
    let mut values = Vec::new(alloc);
    for (place, value) in old.iter().enumerate() {
        match set_at(assignments, place, value)? {
            Some(new) => values.push(new)?,
            None => return Ok(None),
        }
    }
    Ok(Some(values))
}

/// One row for a table: its key, in the order of the table's key, and its values, in the order of the value columns.
#[derive(Debug, Drop)]
pub struct Insert {
    /// The table's place in the schema, from 0.
    pub table: usize,
    pub key: Vec<Value>,
    pub values: Vec<Value>,
    pub period: Period,
}

/// New values for the rows of a table that pass all conditions, on the days of the portion or, without one, on all.
/// All right sides are read from the old row.
#[derive(Debug, Drop)]
pub struct Update {
    /// The table's place in the schema, from 0.
    pub table: usize,
    pub portion: Option<Period>,
    /// At least one; no column twice.
    pub assignments: Vec<Assignment>,
    pub conditions: Vec<Comparison>,
}

/// The rows of a table that pass all conditions are taken away, on the days of the portion or, without one, on all.
#[derive(Debug, Drop)]
pub struct Delete {
    /// The table's place in the schema, from 0.
    pub table: usize,
    pub portion: Option<Period>,
    pub conditions: Vec<Comparison>,
}

/// A statement of a transaction.
#[derive(Debug, Drop)]
pub enum Statement {
    Insert(Insert),
    Update(Update),
    Delete(Delete),
}

impl Statement {
    /// The place in the schema of the table that it changes, from 0.
    pub fn table(&self) -> usize
        ensures { result ≡ table_of (statement_of self.now) }
    {
        match self {
            Statement::Insert(insert) => insert.table,
            Statement::Update(update) => update.table,
            Statement::Delete(delete) => delete.table,
        }
    }
}

/// Statements that are executed in order: at least one, and at most 16.
#[derive(Debug, Drop)]
pub struct Transaction {
    pub statements: Vec<Statement>,
}
