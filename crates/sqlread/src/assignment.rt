//! The assignments of SET.
ghost use Rattle.std.specs.Prelude.{◌≡◌, [], map};
ghost use Rattle.namesyntax.specs.Names.{name_of};
ghost use Rattle.sqlsyntax.specs.Transactions.{side, value_form, assignment_form};
ghost use Rattle.namesyntax.specs.Parsing.{GivesInMemory};
ghost use Rattle.sqlread.specs.Changes.{is_among, assignable, amount, changed_in, new_value_in, assignment_in, assignments_after};

use crate::statement::{Assignment, NewValue};
use fault::Refusal;
use schema::{Kind, Table};
use sqlchecks::column::{field_of, find_column};
use sqlchecks::field::Field;
use sqlchecks::literal::literal_value;
use sqlsyntax::{Assignment as AssignmentText, NewValue as NewValueText};
use sqltokens::Digits;
use std::alloc::Global;

/// The greatest number that SET adds or takes away.
const MAX_AMOUNT: u64 = 9_223_372_036_854_775_807;

/// The place of a column among the value columns.
#[tactic(auto, unfolding(crate::specs::Changes::assignable))]
fn assignable(table: &Table, column: usize) -> Result<usize, Refusal>
    ensures { result ≡ assignable table.now column }
{
    match field_of(table, column) {
        Some(Field::Value(place)) => Ok(place),
        _ => Err(Refusal::NotAssignable),
    }
}

fn is_assigned(assignments: &[Assignment], place: usize) -> bool
    ensures { result ≡ is_among place (map (λ a. a.place) assignments.now) }
{
    assignments.iter().map(|a| a.place).any(|p| p == place)
}

/// The number that digits write, which is at most 9223372036854775807.
#[tactic(auto, unfolding(crate::specs::Changes::amount))]
fn amount(digits: Digits) -> Result<u64, Refusal>
    ensures { result ≡ amount digits.entry.digits.now }
{
    let Ok(number) = digits.digits.parse::<u64>() else {
        return Err(Refusal::OutOfRange);
    };
    if number > MAX_AMOUNT {
        return Err(Refusal::OutOfRange);
    }
    Ok(number)
}

/// What a column is set to by its own name, a sign and digits.
#[tactic(auto, unfolding(crate::specs::Changes::changed_in))]
fn changed_in(
    table: &Table,
    column: (usize, Kind),
    name: &str,
    subtracted: bool,
    digits: Digits,
) -> Result<NewValue, Refusal>
    ensures { result ≡ changed_in table.now column name.now (side subtracted) digits.entry.digits.now }
{
    let (place, kind) = column;
    let (other, _) = find_column(table, name)?;
    if other != place {
        return Err(Refusal::NotAssignable);
    }
    if kind != Kind::Integer {
        return Err(Refusal::WrongType);
    }
    let number = amount(digits)?;
    if subtracted {
        Ok(NewValue::Minus(number))
    } else {
        Ok(NewValue::Plus(number))
    }
}

/// What a column is set to.
#[tactic(auto, unfolding(crate::specs::Changes::new_value_in))]
fn new_value_in(
    alloc: Global,
    table: &Table,
    column: (usize, Kind),
    text: NewValueText,
) -> Result<NewValue, Refusal>
    ensures { GivesInMemory (λ v. v) result (new_value_in table.now column (value_form text.entry)) }
{
    match text {
        NewValueText::Literal(literal) => {
            let value = literal_value(alloc, column.1, literal)?;
            Ok(NewValue::Literal(value))
        }
        NewValueText::Changed {
            column: name,
            subtracted,
            digits,
        } => changed_in(table, column, name.written, subtracted, digits),
    }
}

/// An assignment that stands behind these.
#[tactic(auto, unfolding(crate::specs::Changes::assignment_in))]
fn assignment_in(
    alloc: Global,
    table: &Table,
    before: &[Assignment],
    text: AssignmentText,
) -> Result<Assignment, Refusal>
    ensures { GivesInMemory (λ a. a) result (assignment_in table.now before.now (assignment_form text.entry)) }
{
    let column = find_column(table, text.column.written)?;
    let place = assignable(table, column.0)?;
    if is_assigned(before, place) {
        return Err(Refusal::NotAssignable);
    }
    let value = new_value_in(alloc, table, column, text.value)?;
    Ok(Assignment { place, value })
}

/// The assignments of a SET.
pub(crate) fn assignments_in(
    alloc: Global,
    table: &Table,
    texts: &[AssignmentText],
) -> Result<Vec<Assignment>, Refusal>
    ensures { GivesInMemory (λ v. v.items) result (assignments_after table.now [] (map assignment_form texts.now)) }
{
    let mut assignments = Vec::new(alloc);
    for text in texts {
        let assignment = assignment_in(alloc, table, &assignments, *text)?;
        assignments.push(assignment)?;
    }
    Ok(assignments)
}
