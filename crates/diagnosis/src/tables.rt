//! What is wrong in the columns, the periods and the key of a table that is declared.
use crate::names::Nearest;
use crate::walk::{Stop, Walk, wrong, wrong_as};
use fault::Refusal;
use schemasyntax::{Column, ColumnType, KeyNames, Name, Table};
use sqlchecks::literal::unsigned;
use std::alloc::{AllocError, Global};

fn same_name(one: &str, other: &str) -> bool {
    one.eq_ignore_ascii_case(other)
}

/// The type of the column of this name.
pub(crate) fn type_of<'a>(columns: &[Column<'a>], name: &str) -> Option<ColumnType<'a>> {
    for column in columns {
        if same_name(column.name.written, name) {
            return Some(column.column_type);
        }
    }
    None
}

/// Whether two types are the same, whatever the length of a text.
pub(crate) fn same_type(one: ColumnType, other: ColumnType) -> bool {
    match one {
        ColumnType::Integer => matches!(other, ColumnType::Integer),
        ColumnType::Varchar(_) => matches!(other, ColumnType::Varchar(_)),
        ColumnType::Date => matches!(other, ColumnType::Date),
        ColumnType::RowStart => matches!(other, ColumnType::RowStart),
        ColumnType::RowEnd => matches!(other, ColumnType::RowEnd),
    }
}

fn token_count(column_type: ColumnType) -> usize {
    match column_type {
        ColumnType::Integer | ColumnType::Date => 1,
        ColumnType::Varchar(_) => 4,
        ColumnType::RowStart | ColumnType::RowEnd => 9,
    }
}

/// That the next token is wrong, with a reason of words.
pub(crate) fn wrong_word(alloc: Global, walk: Walk, refusal: Refusal, why: &str) -> Stop {
    wrong_as(alloc, walk.spot(1), refusal, &[why])
}

// That a table has no column of this name.
fn no_column(alloc: Global, table: &Table, name: &str) -> Result<String, AllocError> {
    let mut near = Nearest::new(name);
    for column in &table.columns {
        near = near.with(alloc, column.name.written)?;
    }
    near.told(alloc, &[table.name.written, " has no column ", name, "."])
}

// That a table has no column of the name that is the next token.
fn unknown(alloc: Global, table: &Table, walk: Walk, name: &str) -> Stop {
    wrong(
        walk.spot(1),
        Refusal::UnknownColumn,
        no_column(alloc, table, name),
    )
}

fn has_wrong_length(column_type: ColumnType) -> bool {
    match column_type {
        ColumnType::Varchar(digits) => !matches!(unsigned(digits), Some(n) if 1 <= n && n <= 255),
        _ => false,
    }
}

// Looks at a column behind these, which is next, and passes it with its comma.
fn look_at_column(
    alloc: Global,
    before: &[Column],
    walk: &mut Walk,
    column: Column,
) -> Result<(), Stop> {
    if type_of(before, column.name.written).is_some() {
        let why = "an earlier column has this name.";
        return Err(wrong_word(alloc, *walk, Refusal::BadSchema, why));
    }
    walk.pass(1);
    if has_wrong_length(column.column_type) {
        return Err(wrong_as(
            alloc,
            walk.spot(4),
            Refusal::BadSchema,
            &["a VARCHAR has 1 to 255 bytes."],
        ));
    }
    walk.pass(token_count(column.column_type).saturating_add(1));
    Ok(())
}

// Looks at the columns, which are next, and passes them.
fn look_at_columns(alloc: Global, table: &Table, walk: &mut Walk) -> Result<(), Stop> {
    if table.columns.len() > 16 {
        let why = "a table has at most 16 columns.";
        return Err(wrong_word(alloc, *walk, Refusal::TooLarge, why));
    }
    let columns = table.columns.as_slice();
    for (at, column) in columns.iter().enumerate() {
        look_at_column(alloc, &columns[..at], walk, *column)?;
    }
    Ok(())
}

fn has_twice(columns: &[Column], wanted: ColumnType) -> bool {
    let mut has_one = false;
    for column in columns {
        if same_type(column.column_type, wanted) {
            if has_one {
                return true;
            }
            has_one = true;
        }
    }
    false
}

// Looks at the column that begins or ends a period, the next token.
fn look_at_edge(
    alloc: Global,
    table: &Table,
    walk: Walk,
    name: &str,
    wanted: ColumnType,
) -> Result<(), Stop> {
    let Some(column_type) = type_of(&table.columns, name) else {
        return Err(unknown(alloc, table, walk, name));
    };
    if !same_type(column_type, wanted) {
        let why = match wanted {
            ColumnType::RowStart => "this column has to be GENERATED ALWAYS AS ROW START.",
            ColumnType::RowEnd => "this column has to be GENERATED ALWAYS AS ROW END.",
            _ => "a period goes from one DATE column to another.",
        };
        return Err(wrong_word(alloc, walk, Refusal::BadSchema, why));
    }
    if !matches!(wanted, ColumnType::Date) && has_twice(&table.columns, wanted) {
        let why = "a table has one ROW START column and one ROW END column.";
        return Err(wrong_word(alloc, walk, Refusal::BadSchema, why));
    }
    Ok(())
}

// Looks at whether the columns behind the next token, with a comma between them, are known, before anything else is asked of
// them.
fn look_at_known(
    alloc: Global,
    table: &Table,
    walk: Walk,
    start: &str,
    end: &str,
) -> Result<(), Stop> {
    let mut walk = walk;
    walk.pass(2);
    if type_of(&table.columns, start).is_none() {
        return Err(unknown(alloc, table, walk, start));
    }
    walk.pass(2);
    if type_of(&table.columns, end).is_none() {
        return Err(unknown(alloc, table, walk, end));
    }
    Ok(())
}

// Looks at the application period, which is next, and passes it with the comma behind it.
fn look_at_period(alloc: Global, table: &Table, walk: &mut Walk) -> Result<(), Stop> {
    let period = table.application_period;
    walk.pass(2);
    if type_of(&table.columns, period.name.written).is_some() {
        let why = "a column has the name of the period.";
        return Err(wrong_word(alloc, *walk, Refusal::BadSchema, why));
    }
    look_at_known(
        alloc,
        table,
        *walk,
        period.start.written,
        period.end.written,
    )?;
    walk.pass(2);
    look_at_edge(alloc, table, *walk, period.start.written, ColumnType::Date)?;
    walk.pass(2);
    look_at_edge(alloc, table, *walk, period.end.written, ColumnType::Date)?;
    if same_name(period.start.written, period.end.written) {
        let why = "a period goes from one DATE column to another.";
        return Err(wrong_word(alloc, *walk, Refusal::BadSchema, why));
    }
    walk.pass(3);
    Ok(())
}

// Looks at the system period, which is next, and passes it with the comma behind it.
fn look_at_system(alloc: Global, table: &Table, walk: &mut Walk) -> Result<(), Stop> {
    let period = table.system_period;
    walk.pass(2);
    look_at_known(
        alloc,
        table,
        *walk,
        period.start.written,
        period.end.written,
    )?;
    walk.pass(2);
    look_at_edge(
        alloc,
        table,
        *walk,
        period.start.written,
        ColumnType::RowStart,
    )?;
    walk.pass(2);
    look_at_edge(alloc, table, *walk, period.end.written, ColumnType::RowEnd)?;
    walk.pass(3);
    Ok(())
}

fn is_of_period(table: &Table, name: &str) -> bool {
    same_name(name, table.application_period.start.written)
        || same_name(name, table.application_period.end.written)
        || same_name(name, table.system_period.start.written)
        || same_name(name, table.system_period.end.written)
}

fn has_name(names: &[Name], name: &str) -> bool {
    for one in names {
        if same_name(one.written, name) {
            return true;
        }
    }
    false
}

// Looks at a column of a key behind these, the next token.
fn look_at_key_column(
    alloc: Global,
    table: &Table,
    before: &[Name],
    walk: Walk,
    name: &str,
) -> Result<(), Stop> {
    if type_of(&table.columns, name).is_none() {
        return Err(unknown(alloc, table, walk, name));
    }
    if is_of_period(table, name) {
        let why = "a key names the period itself, and not the columns of a period.";
        return Err(wrong_word(alloc, walk, Refusal::BadSchema, why));
    }
    if has_name(before, name) {
        let why = "the key has this column twice.";
        return Err(wrong_word(alloc, walk, Refusal::BadSchema, why));
    }
    Ok(())
}

/// Looks at the columns of a key and its period, which are next, with so many tokens between them besides commas. Passes them
/// up to the period.
pub(crate) fn look_at_key_names(
    alloc: Global,
    table: &Table,
    walk: &mut Walk,
    names: &KeyNames,
    between: usize,
) -> Result<(), Stop> {
    let columns = names.columns.as_slice();
    for (at, name) in columns.iter().enumerate() {
        look_at_key_column(alloc, table, &columns[..at], *walk, name.written)?;
        walk.pass(2);
    }
    walk.pass(between);
    let period = table.application_period.name.written;
    if !same_name(names.period.written, period) {
        return Err(wrong_as(
            alloc,
            walk.spot(1),
            Refusal::BadSchema,
            &["a key ends with the period, which is ", period, "."],
        ));
    }
    Ok(())
}

// Looks at the key, which is next, and passes it.
fn look_at_key(alloc: Global, table: &Table, walk: &mut Walk) -> Result<(), Stop> {
    walk.pass(3);
    if table.key.columns.len() > 3 {
        let why = "a key has at most three columns and the period.";
        return Err(wrong_word(alloc, *walk, Refusal::TooLarge, why));
    }
    look_at_key_names(alloc, table, walk, &table.key, 0)?;
    walk.pass(4);
    Ok(())
}

/// Looks at what a table declares from its first column to its key, which is next, and passes it.
pub(crate) fn look_at_parts(alloc: Global, table: &Table, walk: &mut Walk) -> Result<(), Stop> {
    look_at_columns(alloc, table, walk)?;
    look_at_period(alloc, table, walk)?;
    look_at_system(alloc, table, walk)?;
    look_at_key(alloc, table, walk)
}
