//! Answers, outcomes and refusals as JSON.
ghost use Rattle.std.specs.Prelude.{◌≡◌, ◌++◌, ◌∷◌, [], map, codes, decimal, IfOk, OnOk, IfSome, Some};
ghost use Rattle.std.specs.List.{flat_map};
ghost use Rattle.std.specs.Option.{option_copied};
ghost use Rattle.period.specs.Instant.{instant_text};
ghost use Rattle.json.specs.Token.{key, number, string, begin_array, end_array, begin_object, end_object};
ghost use Rattle.looks.specs.Objects.{Adds, answer_tokens, array, slot_token, line_of, optional_token, row_tokens, value_token};

use crate::bare::Bare;
use answer::{Answer, Column, Shown, Shows};
use json::Writer;
use model::literal::Literal;
use model::member::Member;
use model::stamp::Stamp;
use model::value::Value;
use std::alloc::{AllocError, Global};
use std::fmt;

/// An answer as one JSON object on a line: the node that gives it, the last instant that was asked about, the columns'
/// names, and each row as an array. An INTEGER is a number, all else a string; an open system end is the highest value,
/// 9999-12-31 23:59:59.999999. The error is want of memory.
pub fn answer_as_json(alloc: Global, node: Member, answer: &Answer) -> Result<Vec<u8>, AllocError>
    ensures { IfOk result (λ text. text.items ≡ line_of (answer_tokens node answer.now)) }
{
    let mut writer = Writer::new(Vec::new(alloc));
    put_answer(alloc, node, answer, &mut writer)?;
    end_line(writer)
}

pub(crate) fn end_line(writer: Writer) -> Result<Vec<u8>, AllocError>
    ensures { IfOk result (λ text. text.items ≡ writer.before ++ line_of writer.tokens) }
{
    let mut text = writer.into_inner();
    text.push(b'\n')?;
    Ok(text)
}

#[tactic(auto, unfolding(crate::specs::Objects::answer_tokens))]
fn put_answer(
    alloc: Global,
    node: Member,
    answer: &Answer,
    writer: &mut Writer,
) -> Result<(), AllocError>
    ensures { Adds result writer.old writer.new (answer_tokens node answer.now) }
{
    writer.begin_object()?;
    put_number("node", node as u64, writer)?;
    put_instant(alloc, "last", answer.last, writer)?;
    put_columns(answer.columns.as_slice(), writer)?;
    put_rows(
        alloc,
        answer.columns.as_slice(),
        answer.rows.as_slice(),
        writer,
    )?;
    writer.end_object()
}

// A member of an object that is a number.
pub(crate) fn put_number(name: &str, value: u64, writer: &mut Writer) -> Result<(), AllocError>
    ensures { Adds result writer.old writer.new (key name.now ∷ number (decimal value) ∷ []) }
{
    writer.key(name)?;
    writer.u64(value)
}

// A member of an object that is an instant.
pub(crate) fn put_instant(
    alloc: Global,
    name: &str,
    instant: Stamp,
    writer: &mut Writer,
) -> Result<(), AllocError>
    ensures { Adds result writer.old writer.new (key name.now ∷ string (instant_text instant) ∷ []) }
{
    writer.key(name)?;
    let instant = instant.instant();
    put_string(alloc, instant, writer)
}

// The text of a value, as a string.
pub(crate) fn put_string<D: fmt::Display + Drop>(
    alloc: Global,
    value: D,
    writer: &mut Writer,
) -> Result<(), AllocError>
    ensures { IfSome (D.output value) (λ text. Adds result writer.old writer.new (string text ∷ [])) }
{
    let text = value.to_string(alloc)?;
    writer.string(text.as_str())
}

fn put_columns(columns: &[Column], writer: &mut Writer) -> Result<(), AllocError>
    ensures { Adds result writer.old writer.new (key (codes "columns") ∷ array (map (λ c. string c.name) columns.now)) }
{
    writer.key("columns")?;
    writer.begin_array()?;
    put_names(columns, writer)?;
    writer.end_array()
}

fn put_names(columns: &[Column], writer: &mut Writer) -> Result<(), AllocError>
    ensures { Adds result writer.old writer.new (map (λ c. string c.name) columns.now) }
{
    for column in columns {
        writer.string(column.name.as_str())?;
    }
    Ok(())
}

fn put_rows(
    alloc: Global,
    columns: &[Column],
    rows: &[Shown],
    writer: &mut Writer,
) -> Result<(), AllocError>
    ensures { Adds result writer.old writer.new (key (codes "rows") ∷ array (flat_map (row_tokens columns.now) rows.now)) }
{
    writer.key("rows")?;
    writer.begin_array()?;
    for row in rows {
        put_row(alloc, columns, row, writer)?;
    }
    writer.end_array()
}

fn put_row(
    alloc: Global,
    columns: &[Column],
    row: &Shown,
    writer: &mut Writer,
) -> Result<(), AllocError>
    ensures { Adds result writer.old writer.new (row_tokens columns.now row.now) }
{
    writer.begin_array()?;
    for column in columns {
        put_slot(alloc, row, column.shows, writer)?;
    }
    writer.end_array()
}

// What a column shows of the row.
fn put_slot(alloc: Global, row: &Shown, shows: Shows, writer: &mut Writer) -> Result<(), AllocError>
    ensures { Adds result writer.old writer.new (slot_token row.now shows ∷ []) }
{
    match shows {
        Shows::Key(place) => put_optional(alloc, row.key.as_slice().get(place), writer),
        Shows::Value(place) => put_optional(alloc, row.values.as_slice().get(place), writer),
        shows => put_string(alloc, Bare { row, shows }, writer),
    }
}

fn put_optional(alloc: Global, value: Option<&Value>, writer: &mut Writer) -> Result<(), AllocError>
    ensures { Adds result writer.old writer.new (optional_token (option_copied value.entry) ∷ []) }
{
    match value {
        Some(value) => put_value(alloc, value, writer),
        None => writer.null(),
    }
}

fn put_value(alloc: Global, value: &Value, writer: &mut Writer) -> Result<(), AllocError>
    ensures { Adds result writer.old writer.new (value_token value.now ∷ []) }
{
    match value {
        Value::Number(number) => writer.i64(*number),
        Value::Text(text) => writer.string(text.as_str()),
        value => {
            let literal = Literal(value);
            put_string(alloc, literal, writer)
        }
    }
}
