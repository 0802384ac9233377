//! The columns and the values of an INSERT.
use crate::columns::{Named, look_at_column};
use crate::literals::{look_at_day, look_at_literal, look_at_order, token_count};
use crate::names::column_name;
use crate::walk::{Spot, Stop, Walk, wrong, wrong_as};
use fault::Refusal;
use schema::{Kind, Table};
use sqlsyntax::{Insert, Literal, Name};
use std::alloc::Global;

fn is_system(table: &Table, place: usize) -> bool {
    place == table.system_start() || place == table.system_end()
}

// Where the column of this place stands in a list.
fn listed_at(columns: &[(usize, Kind)], place: usize) -> Option<usize> {
    for (at, column) in columns.iter().enumerate() {
        if column.0 == place {
            return Some(at);
        }
    }
    None
}

fn is_listed(columns: &[(usize, Kind)], place: usize) -> bool {
    listed_at(columns, place).is_some()
}

// Looks at whether a column may stand in the list behind these. Its name is the next token.
fn look_at_listed(
    alloc: Global,
    table: &Table,
    before: &[(usize, Kind)],
    walk: Walk,
    name: &str,
    place: usize,
) -> Result<(), Stop> {
    let why = if is_system(table, place) {
        " is set by the system alone."
    } else if is_listed(before, place) {
        " is named twice."
    } else {
        return Ok(());
    };
    Err(wrong_as(alloc, walk.spot(1), Refusal::NotAssignable, &[name, why]))
}

// The columns of a list, which is next, each with the token behind it, and passes them.
fn look_at_names(
    alloc: Global,
    named: Named,
    walk: &mut Walk,
    names: &[Name],
) -> Result<Vec<(usize, Kind)>, Stop> {
    let mut columns = Vec::new(alloc);
    for name in names {
        let column = look_at_column(alloc, named, *walk, name.written)?;
        look_at_listed(alloc, named.table, &columns, *walk, name.written, column.0)?;
        columns.push(column)?;
        walk.pass(2);
    }
    Ok(columns)
}

// That a list at this spot has no column of this name.
fn left_out(alloc: Global, name: &str, spot: Spot) -> Stop {
    let why = " is left out: an INSERT names all columns but those of the system.";
    wrong_as(alloc, spot, Refusal::UnknownColumn, &[name, why])
}

// Looks at whether a list at this spot has all columns but those of the system.
fn look_at_all(
    alloc: Global,
    table: &Table,
    columns: &[(usize, Kind)],
    spot: Spot,
) -> Result<(), Stop> {
    for place in 0..table.column_count() {
        if !is_system(table, place) && !is_listed(columns, place) {
            return Err(left_out(alloc, column_name(table, place), spot));
        }
    }
    Ok(())
}

// How many tokens so many items have, one each, with a comma between each two.
fn listed_count(items: usize) -> usize {
    items.saturating_mul(2).saturating_sub(1)
}

fn all_token_count(literals: &[Literal]) -> usize {
    let mut count: usize = 0;
    for literal in literals {
        count = count
            .saturating_add(token_count(*literal))
            .saturating_add(1);
    }
    count.saturating_sub(1)
}

// Looks at whether there is a value for each column of the list, and no more. The values are next.
fn look_at_count(
    alloc: Global,
    columns: &[(usize, Kind)],
    walk: Walk,
    literals: &[Literal],
) -> Result<(), Stop> {
    let named = columns.len();
    let given = literals.len();
    if named == given {
        return Ok(());
    }
    let hint = format!(in alloc; "there are {named} columns and {given} values.");
    Err(wrong(
        walk.spot(all_token_count(literals)),
        Refusal::WrongType,
        hint,
    ))
}

// Looks at the values of the columns, which are next, and gives where each stands. Passes them, each with the token behind it.
fn look_at_values(
    alloc: Global,
    table: &Table,
    columns: &[(usize, Kind)],
    walk: &mut Walk,
    literals: &[Literal],
) -> Result<Vec<Spot>, Stop> {
    let mut spots = Vec::new(alloc);
    for (column, literal) in columns.iter().zip(literals) {
        look_at_literal(
            alloc,
            *walk,
            column_name(table, column.0),
            column.1,
            *literal,
        )?;
        let count = token_count(*literal);
        spots.push(walk.spot(count))?;
        walk.pass(count.saturating_add(1));
    }
    Ok(spots)
}

// The literal of a column, and where it stands.
fn given<'a>(
    columns: &[(usize, Kind)],
    literals: &[Literal<'a>],
    spots: &[Spot],
    place: usize,
) -> Option<(Literal<'a>, Spot)> {
    let at = listed_at(columns, place)?;
    Some((*literals.get(at)?, *spots.get(at)?))
}

// Looks at whether the period of the row that is given begins before it ends.
fn look_at_days(
    alloc: Global,
    table: &Table,
    walk: Walk,
    start: Option<(Literal, Spot)>,
    end: Option<(Literal, Spot)>,
) -> Result<(), Stop> {
    let (Some((Literal::Date(start), first)), Some((Literal::Date(end), last))) = (start, end)
    else {
        return Ok(());
    };
    let start = look_at_day(alloc, walk, start)?;
    let end = look_at_day(alloc, walk, end)?;
    look_at_order(alloc, table.period().as_str(), first.to(last), start, end)
}

/// Looks at what stands behind the table of an INSERT, whose name is the next token, and passes it up to the last bracket.
pub(crate) fn look_at_row(
    alloc: Global,
    named: Named,
    walk: &mut Walk,
    insert: &Insert,
) -> Result<(), Stop> {
    let table = named.table;
    walk.pass(2);
    let list = walk.spot(listed_count(insert.columns.len()));
    let columns = look_at_names(alloc, named, walk, &insert.columns)?;
    look_at_all(alloc, table, &columns, list)?;
    walk.pass(2);
    look_at_count(alloc, &columns, *walk, &insert.values)?;
    let spots = look_at_values(alloc, table, &columns, walk, &insert.values)?;
    let start = given(&columns, &insert.values, &spots, table.start());
    let end = given(&columns, &insert.values, &spots, table.end());
    look_at_days(alloc, table, *walk, start, end)
}
