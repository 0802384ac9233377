//! The statement of a line of a file.
ghost use Rattle.std.specs.Prelude.{◌≡◌, ◌==◌, map, position, Some, option_map, string_bytes, IfOk};
ghost use Rattle.std.specs.Option.{option_copied};
ghost use Rattle.csv.specs.Records.{fields_of};
ghost use Rattle.transfer.specs.Fields.{literal_text};
ghost use Rattle.transfer.specs.Faults.{GivesInMemory, found_in};
ghost use Rattle.transfer.specs.Shapes.{header_shape, row_shape};
ghost use Rattle.transfer.specs.Rows.{has_days, is_before, listed, row_from, row_in, row_of, statement_text, target_value, value_for};

use crate::fields::field_value;
use crate::header::{Header, Target};
use crate::line::{before_field, fields_at};
use crate::unread::Stop;
use crate::written::{Names, Values};
use csv::ByteRecord;
use fault::Refusal;
use model::value::Value;
use schema::{Name, Table};
use std::alloc::{AllocError, Global};

/// How many bytes the text of a request may have.
pub(crate) const MAX_TEXT: usize = 4096;

/// A row as a statement.
#[derive(Debug, Drop)]
pub(crate) struct Row {
    pub line: usize,
    pub text: String,
}

/// The table that rows go into, and what their fields are for.
#[derive(Clone, Copy)]
pub(crate) struct Destination<'a> {
    pub name: &'a Name,
    pub table: &'a Table,
    pub header: &'a Header,
}

// The value of a target in the record that this line has.
#[tactic(auto, unfolding(crate::specs::Rows::target_value))]
fn target_value(
    alloc: Global,
    number: usize,
    line: &[u8],
    fields: &ByteRecord,
    target: &Target,
) -> Result<Value, Stop>
    ensures { GivesInMemory Some result (target_value number line.now (fields_of fields.now) target.now) }
{
    let Some(field) = fields.get(target.place) else {
        return Err(Stop::at(number, before_field(line, target.place), Refusal::WrongType));
    };
    match field_value(alloc, target.kind, field) {
        Ok(value) => Ok(value),
        Err(Refusal::NoMemory) => Err(Stop::NoMemory),
        Err(refusal) => Err(Stop::at(number, before_field(line, target.place), refusal)),
    }
}

// The values of the targets.
#[tactic(auto, using(crate::proofs::Found::found_is))]
fn target_values(
    alloc: Global,
    number: usize,
    line: &[u8],
    fields: &ByteRecord,
    targets: &[Target],
) -> Result<Vec<Value>, Stop>
    ensures { GivesInMemory (λ v. v.items) result (found_in (target_value number line.now (fields_of fields.now)) targets.now) }
{
    let mut values = Vec::new(alloc);
    for target in targets {
        let value = target_value(alloc, number, line, fields, target)?;
        values.push(value)?;
    }
    Ok(values)
}

fn place_of(targets: &[Target], column: usize) -> Option<usize>
    ensures { result ≡ position (λ t. t.column == column) targets.now }
{
    targets.iter().position(|t| t.column == column)
}

// The value of a column.
#[tactic(auto, unfolding(crate::specs::Rows::value_for))]
fn value_for<'a>(targets: &[Target], values: &'a [Value], column: usize) -> Option<&'a Value>
    ensures { option_copied result ≡ value_for targets.now values.entry.now column }
{
    match place_of(targets, column) {
        Some(place) => values.get(place),
        None => None,
    }
}

fn is_before(start: Option<&Value>, end: Option<&Value>) -> bool
    ensures { result ≡ is_before (option_copied start.entry) (option_copied end.entry) }
{
    match (start, end) {
        (Some(Value::Day(start)), Some(Value::Day(end))) => *start < *end,
        _ => false,
    }
}

// Whether the row's period has a day.
fn has_days(table: &Table, targets: &[Target], values: &[Value]) -> bool
    ensures { result ≡ has_days table.now targets.now values.now }
{
    let start = value_for(targets, values, table.start());
    let end = value_for(targets, values, table.end());
    is_before(start, end)
}

fn names_text(alloc: Global, targets: &[Target]) -> Result<String, AllocError>
    ensures { IfOk result (λ text. string_bytes text ≡ listed (map (λ t. t.name) targets.now)) }
{
    let names = Names(targets);
    format!(in alloc; "{names}")
}

fn values_text(alloc: Global, values: &[Value]) -> Result<String, AllocError>
    ensures { IfOk result (λ text. string_bytes text ≡ listed (map literal_text values.now)) }
{
    let values = Values(values);
    format!(in alloc; "{values}")
}

// The row of these values as a statement.
fn statement_text(
    alloc: Global,
    name: &Name,
    targets: &[Target],
    values: &[Value],
) -> Result<String, AllocError>
    ensures { IfOk result (λ text. string_bytes text ≡ statement_text name.now targets.now values.now) }
{
    let names = names_text(alloc, targets)?;
    let values = values_text(alloc, values)?;
    let mut text = String::from_str(alloc, "INSERT INTO ")?;
    text.push_str(name.as_str())?;
    text.push_str(" (")?;
    text.push_str(names.as_str())?;
    text.push_str(") VALUES (")?;
    text.push_str(values.as_str())?;
    text.push_str(");")?;
    Ok(text)
}

// The row of the fields that this line has.
#[tactic(auto, unfolding(crate::specs::Rows::row_of))]
fn row_of(
    alloc: Global,
    into: Destination<'_>,
    number: usize,
    line: &[u8],
    fields: &ByteRecord,
) -> Result<Row, Stop>
    ensures { GivesInMemory row_shape result (row_of into.entry.name.now into.entry.table.now (header_shape into.entry.header.now) number line.now (fields_of fields.now)) }
{
    let targets = &into.header.targets;
    if fields.len() != into.header.width {
        return Err(Stop::at(number, 0, Refusal::WrongType));
    }
    let values = target_values(alloc, number, line, fields, targets)?;
    if !has_days(into.table, targets, &values) {
        return Err(Stop::at(number, 0, Refusal::EmptyPeriod));
    }
    let text = statement_text(alloc, into.name, targets, &values)?;
    if text.len() > MAX_TEXT {
        return Err(Stop::at(number, 0, Refusal::TooLarge));
    }
    Ok(Row { line: number, text })
}

// The row of a line; none of a blank one.
#[tactic(auto, unfolding(crate::specs::Rows::row_in))]
fn row_in(
    alloc: Global,
    into: Destination<'_>,
    number: usize,
    line: &[u8],
) -> Result<Option<Row>, Stop>
    ensures { GivesInMemory (option_map row_shape) result (row_in into.entry.name.now into.entry.table.now (header_shape into.entry.header.now) number line.now) }
{
    match fields_at(alloc, number, line)? {
        Some(fields) => Ok(Some(row_of(alloc, into, number, line, &fields)?)),
        None => Ok(None),
    }
}

/// The row of a line: none of the header, of one before this line, and of one that is blank.
///
/// `Syntax` where the line is not whole; `WrongType` for more or fewer fields than the header has; of a field what `field_value` says;
/// `EmptyPeriod` where the row's period has no day; `TooLarge` where its statement is longer than a request may be.
#[tactic(auto, unfolding(crate::specs::Rows::row_from))]
pub(crate) fn row_from(
    alloc: Global,
    into: Destination<'_>,
    from: usize,
    number: usize,
    line: &[u8],
) -> Result<Option<Row>, Stop>
    ensures { GivesInMemory (option_map row_shape) result (row_from into.entry.name.now into.entry.table.now (header_shape into.entry.header.now) from (number, line.now)) }
{
    if number == 1 || number < from {
        return Ok(None);
    }
    row_in(alloc, into, number, line)
}
