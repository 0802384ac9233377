//! Tables and columns that are named where they are not, or may not be.
use crate::literals::{look_at_literal, token_count};
use crate::names::{nearest_column, nearest_table};
use crate::walk::{Stop, Walk, joined, wrong, wrong_as};
use fault::Refusal;
use schema::{Kind, Schema, Table};
use sqlchecks::column::{field_of, find_column, find_table};
use sqlsyntax::Literal;
use std::alloc::{AllocError, Global};

/// A table, and its name as it is declared.
#[derive(Clone, Copy)]
pub(crate) struct Named<'s> {
    pub name: &'s str,
    pub table: &'s Table,
}

/// That no table has this name, and the one that may be meant, where its name is near. The error is want of memory.
pub fn no_table(alloc: Global, schema: &Schema, name: &str) -> Result<String, AllocError> {
    nearest_table(alloc, schema, name)?.told(alloc, &["there is no table ", name, "."])
}

fn find_named<'s>(schema: &'s Schema, name: &str) -> Option<Named<'s>> {
    let Ok(place) = find_table(schema, name) else {
        return None;
    };
    let (name, table) = schema.table(place);
    Some(Named {
        name: name.as_str(),
        table,
    })
}

/// The table that the next token names.
pub(crate) fn look_at_table<'s>(
    alloc: Global,
    schema: &'s Schema,
    walk: Walk,
    name: &str,
) -> Result<Named<'s>, Stop> {
    match find_named(schema, name) {
        Some(named) => Ok(named),
        None => {
            let hint = no_table(alloc, schema, name);
            Err(wrong(walk.spot(1), Refusal::UnknownTable, hint))
        }
    }
}

// That no column of a table has this name.
fn no_column(alloc: Global, named: Named, name: &str) -> Result<String, AllocError> {
    let near = nearest_column(alloc, named.table, name)?;
    near.told(alloc, &[named.name, " has no column ", name, "."])
}

/// The place and the kind of the column that the next token names.
pub(crate) fn look_at_column(
    alloc: Global,
    named: Named,
    walk: Walk,
    name: &str,
) -> Result<(usize, Kind), Stop> {
    match find_column(named.table, name) {
        Ok(column) => Ok(column),
        Err(_) => {
            let hint = no_column(alloc, named, name);
            Err(wrong(walk.spot(1), Refusal::UnknownColumn, hint))
        }
    }
}

/// Looks at the name of a table's application period, the next token.
pub(crate) fn look_at_period(
    alloc: Global,
    named: Named,
    walk: Walk,
    name: &str,
) -> Result<(), Stop> {
    let period = named.table.period().as_str();
    if name.eq_ignore_ascii_case(period) {
        return Ok(());
    }
    Err(wrong_as(
        alloc,
        walk.spot(1),
        Refusal::UnknownColumn,
        &[
            named.name,
            " has no period ",
            name,
            ". Its period is ",
            period,
            ".",
        ],
    ))
}

// How a column that WHERE compares no value with is asked about.
fn uncompared(alloc: Global, named: Named, place: usize, name: &str) -> Result<String, AllocError> {
    if place == named.table.start() || place == named.table.end() {
        return of_period(alloc, name, named.table.period().as_str());
    }
    joined(
        alloc,
        &[
            name,
            " is of the system: ask FOR SYSTEM_TIME behind the table's name.",
        ],
    )
}

// How a column that begins or ends this period is asked about.
fn of_period(alloc: Global, name: &str, period: &str) -> Result<String, AllocError> {
    joined(
        alloc,
        &[
            name,
            " is of the period ",
            period,
            ": ask SELECT .. WHERE ",
            period,
            " CONTAINS DATE '2026-01-31', or FOR PORTION OF ",
            period,
            ".",
        ],
    )
}

// The kind of a literal that a column of this kind is compared with.
fn compared_kind(kind: Kind) -> Kind {
    match kind {
        Kind::Varchar(_) => Kind::Varchar(255),
        kind => kind,
    }
}

/// Looks at a comparison, which is next, and passes it.
pub(crate) fn look_at_comparison(
    alloc: Global,
    named: Named,
    walk: &mut Walk,
    name: &str,
    literal: Literal,
) -> Result<(), Stop> {
    let (place, kind) = look_at_column(alloc, named, *walk, name)?;
    if field_of(named.table, place).is_none() {
        let hint = uncompared(alloc, named, place, name);
        return Err(wrong(walk.spot(1), Refusal::UnknownColumn, hint));
    }
    walk.pass(2);
    look_at_literal(alloc, *walk, name, compared_kind(kind), literal)?;
    walk.pass(token_count(literal));
    Ok(())
}
