//! Answers with a line for each value, where rows are too wide.
use crate::slot::Slot;
use crate::table::{between, put_many};
use answer::Answer;
use std::alloc::AllocError;

// How long the line over a row is at most.
const HEAD_MOST: usize = 40;

// The least room of a value, which is then wider than what was asked for.
const ROOM_LEAST: usize = 8;

pub(crate) fn put_records(
    answer: &Answer,
    rows: &[Vec<Slot>],
    width: usize,
    text: &mut Vec<u8>,
) -> Result<(), AllocError> {
    let mut name_wide = 0;
    for column in &answer.columns {
        name_wide = column.name.as_str().len().max(name_wide);
    }
    for (at, row) in rows.iter().enumerate() {
        put_head(at, rows.len(), width, text)?;
        put_values(answer, row, name_wide, width, text)?;
    }
    Ok(())
}

// The line over the row at this place.
fn put_head(at: usize, count: usize, width: usize, text: &mut Vec<u8>) -> Result<(), AllocError> {
    let number = at.saturating_add(1);
    let head = format!(in *text.allocator(); "-- row {number} of {count} ")?;
    text.extend_from_slice(head.as_bytes())?;
    put_many(b'-', width.min(HEAD_MOST).saturating_sub(head.len()), text)?;
    text.push(b'\n')?;
    Ok(())
}

fn put_values(
    answer: &Answer,
    row: &[Slot],
    name_wide: usize,
    width: usize,
    text: &mut Vec<u8>,
) -> Result<(), AllocError> {
    for (column, slot) in answer.columns.iter().zip(row) {
        let name = column.name.as_str().as_bytes();
        put_many(b' ', name_wide.saturating_sub(name.len()), text)?;
        text.extend_from_slice(name)?;
        put_value(slot.text.as_bytes(), name_wide, width, text)?;
    }
    Ok(())
}

// A value, broken to the room that is left beside the names.
fn put_value(
    value: &[u8],
    name_wide: usize,
    width: usize,
    text: &mut Vec<u8>,
) -> Result<(), AllocError> {
    let beside = name_wide.saturating_add(2);
    let room = width.saturating_sub(beside).max(ROOM_LEAST);
    let mut indent = 2;
    for at in 0..value.len().div_ceil(room) {
        let start = at.saturating_mul(room);
        put_many(b' ', indent, text)?;
        text.extend_from_slice(between(value, start, start.saturating_add(room)))?;
        text.push(b'\n')?;
        indent = beside;
    }
    if value.is_empty() {
        text.push(b'\n')?;
    }
    Ok(())
}
