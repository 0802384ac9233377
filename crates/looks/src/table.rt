//! Answers as tables, for people.
ghost use Rattle.std.specs.Prelude.{◌≡◌};

use crate::records::put_records;
use crate::slot::{Kind, Slot, slot_of};
use answer::Answer;
use model::member::Member;
use std::alloc::{AllocError, Global};

/// What a question asks about, as the last line of a table says it.
#[derive(Clone, Copy, Debug, PartialEq, Eq)]
pub enum Asked {
    /// One instant.
    AsOf,
    /// The instants from one to another.
    UpTo,
}

// How the cells of a row stand.
#[derive(Clone, Copy, PartialEq, Eq)]
pub(crate) enum Form {
    // Each on one line.
    Wide,
    // An instant on two lines, the day above, and a text broken after each `TEXT_ROOM` characters.
    Narrow,
}

// Where a text is broken in the narrow form.
const TEXT_ROOM: usize = 20;

// The day of an instant, which a blank divides from the time.
const DAY_LENGTH: usize = 10;

const BLANKS: usize = 2;

// A column of a table: its name, how wide it is, and whether it stands on the right.
#[derive(Drop)]
struct Lane<'a> {
    name: &'a [u8],
    wide: usize,
    is_right: bool,
}

/// An answer as a table, with the node that gives it, of the first of three forms that is no wider than so many columns:
/// a line for each row; instants over two lines and long texts over more; a line for each value. Without a width it is
/// the first. It ends with a line that tells how many rows there are, which node gives them, and the last instant asked
/// about. Numbers stand on the right. A text is bare, but in quotes, doubled within, where its ends could not be seen: it
/// is empty, has a blank at an end or a quote in front. An open system end is `open`.
///
/// What is written is bytes, since a long text is broken between two bytes; texts of a table are ASCII. The error is want
/// of memory.
pub fn answer_as_table(
    alloc: Global,
    node: Member,
    answer: &Answer,
    asked: Asked,
    width: Option<usize>,
) -> Result<Vec<u8>, AllocError> {
    let slots = slots_of(alloc, answer)?;
    let rows = slots.as_slice();
    let mut text = Vec::new(alloc);
    match form_of(alloc, answer, rows, width)? {
        Some(form) => put_table(alloc, answer, rows, form, &mut text)?,
        None => put_records(answer, rows, width.unwrap_or(0), &mut text)?,
    }
    put_footer(alloc, node, answer, asked, &mut text)?;
    Ok(text)
}

// The cells of each row.
fn slots_of(alloc: Global, answer: &Answer) -> Result<Vec<Vec<Slot>>, AllocError> {
    let mut rows = Vec::new(alloc);
    for row in &answer.rows {
        let mut slots = Vec::new(alloc);
        for column in &answer.columns {
            slots.push(slot_of(alloc, row, column.shows)?)?;
        }
        rows.push(slots)?;
    }
    Ok(rows)
}

// The first form that has room, if one has.
fn form_of(
    alloc: Global,
    answer: &Answer,
    rows: &[Vec<Slot>],
    width: Option<usize>,
) -> Result<Option<Form>, AllocError> {
    let Some(width) = width else {
        return Ok(Some(Form::Wide));
    };
    for form in [Form::Wide, Form::Narrow] {
        if table_width(lanes_of(alloc, answer, rows, form)?.as_slice()) <= width {
            return Ok(Some(form));
        }
    }
    Ok(None)
}

fn table_width(lanes: &[Lane]) -> usize {
    let mut wide = 0usize;
    for lane in lanes {
        wide = wide.saturating_add(lane.wide).saturating_add(BLANKS);
    }
    wide.saturating_sub(BLANKS)
}

fn lanes_of<'a>(
    alloc: Global,
    answer: &'a Answer,
    rows: &[Vec<Slot>],
    form: Form,
) -> Result<Vec<Lane<'a>>, AllocError> {
    let mut lanes = Vec::new(alloc);
    for (at, column) in answer.columns.iter().enumerate() {
        let name = column.name.as_str().as_bytes();
        lanes.push(lane_of(name, at, rows, form))?;
    }
    Ok(lanes)
}

fn lane_of<'a>(name: &'a [u8], at: usize, rows: &[Vec<Slot>], form: Form) -> Lane<'a> {
    let mut lane = Lane {
        name,
        wide: name.len(),
        is_right: false,
    };
    for row in rows {
        if let Some(slot) = row.get(at) {
            lane.wide = lane.wide.max(slot_width(slot, form));
            lane.is_right = lane.is_right || slot.kind == Kind::Number;
        }
    }
    lane
}

// How many lines a cell has.
fn part_count(slot: &Slot, form: Form) -> usize {
    let length = slot.text.len();
    match (form, slot.kind) {
        (Form::Wide, _) => 1,
        (Form::Narrow, Kind::Instant) => { if length > DAY_LENGTH { 2 } else { 1 } }
        (Form::Narrow, _) => length.div_ceil(TEXT_ROOM).max(1),
    }
}

// A line of a cell; none past its last.
fn part<'a>(slot: &'a Slot, form: Form, at: usize) -> &'a [u8] {
    let text = slot.text.as_bytes();
    let (start, end) = match (form, slot.kind) {
        (Form::Wide, _) => (0, text.len()),
        (Form::Narrow, Kind::Instant) if at == 0 => (0, DAY_LENGTH),
        (Form::Narrow, Kind::Instant) => (DAY_LENGTH + 1, text.len()),
        (Form::Narrow, _) => {
            let start = at.saturating_mul(TEXT_ROOM);
            (start, start.saturating_add(TEXT_ROOM))
        }
    };
    if at >= part_count(slot, form) {
        return &[];
    }
    between(text, start, end)
}

// The bytes from one place to another, as far as they are there.
pub(crate) fn between(text: &[u8], start: usize, end: usize) -> &[u8] {
    let end = end.min(text.len());
    if start >= end { &[] } else { &text[start..end] }
}

fn slot_width(slot: &Slot, form: Form) -> usize {
    let mut wide = 0;
    for at in 0..part_count(slot, form) {
        wide = part(slot, form, at).len().max(wide);
    }
    wide
}

// The columns' names, a rule, and the rows.
fn put_table(
    alloc: Global,
    answer: &Answer,
    rows: &[Vec<Slot>],
    form: Form,
    text: &mut Vec<u8>,
) -> Result<(), AllocError> {
    let lanes = lanes_of(alloc, answer, rows, form)?;
    put_heads(lanes.as_slice(), text)?;
    put_rule(lanes.as_slice(), text)?;
    for row in rows {
        put_row(lanes.as_slice(), row, form, text)?;
    }
    Ok(())
}

fn put_heads(lanes: &[Lane], text: &mut Vec<u8>) -> Result<(), AllocError> {
    let mut pending = 0;
    for lane in lanes {
        pending = put_word(lane, lane.name, pending, text)?;
    }
    text.push(b'\n')?;
    Ok(())
}

fn put_rule(lanes: &[Lane], text: &mut Vec<u8>) -> Result<(), AllocError> {
    let mut gap = 0;
    for lane in lanes {
        put_many(b' ', gap, text)?;
        put_many(b'-', lane.wide, text)?;
        gap = BLANKS;
    }
    text.push(b'\n')?;
    Ok(())
}

fn put_row(lanes: &[Lane], row: &[Slot], form: Form, text: &mut Vec<u8>) -> Result<(), AllocError> {
    let mut lines = 0;
    for slot in row {
        lines = part_count(slot, form).max(lines);
    }
    for at in 0..lines {
        put_line(lanes, row, form, at, text)?;
    }
    Ok(())
}

fn put_line(
    lanes: &[Lane],
    row: &[Slot],
    form: Form,
    at: usize,
    text: &mut Vec<u8>,
) -> Result<(), AllocError> {
    let mut pending = 0;
    for (lane, slot) in lanes.iter().zip(row) {
        pending = put_word(lane, part(slot, form, at), pending, text)?;
    }
    text.push(b'\n')?;
    Ok(())
}

// Puts a word in its column, after the blanks that are pending before it, and gives those that are pending after it:
// so none stand at a line's end.
fn put_word(
    lane: &Lane,
    word: &[u8],
    pending: usize,
    text: &mut Vec<u8>,
) -> Result<usize, AllocError> {
    let rest = lane.wide.saturating_sub(word.len());
    let (before, after) = if lane.is_right { (rest, 0) } else { (0, rest) };
    if word.is_empty() {
        return Ok(pending.saturating_add(rest).saturating_add(BLANKS));
    }
    put_many(b' ', pending.saturating_add(before), text)?;
    text.extend_from_slice(word)?;
    Ok(after.saturating_add(BLANKS))
}

pub(crate) fn put_many(byte: u8, count: usize, text: &mut Vec<u8>) -> Result<(), AllocError> {
    for _ in 0..count {
        text.push(byte)?;
    }
    Ok(())
}

fn put_footer(
    alloc: Global,
    node: Member,
    answer: &Answer,
    asked: Asked,
    text: &mut Vec<u8>,
) -> Result<(), AllocError> {
    let last = answer.last.instant();
    let asked = match asked {
        Asked::AsOf => "as of",
        Asked::UpTo => "up to",
    };
    let count = answer.rows.len();
    let line = match count {
        0 => format!(in alloc; "no rows from node {node}, {asked} {last}\n")?,
        1 => format!(in alloc; "1 row from node {node}, {asked} {last}\n")?,
        count => format!(in alloc; "{count} rows from node {node}, {asked} {last}\n")?,
    };
    text.extend_from_slice(line.as_bytes())?;
    Ok(())
}
