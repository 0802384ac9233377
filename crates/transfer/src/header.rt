//! The columns that the first line of a file names.
ghost use Rattle.std.specs.Prelude.{◌≡◌, ◌<◌, [], Some, IfOk, map, length};
ghost use Rattle.csv.specs.Records.{field_at, fields_of};
ghost use Rattle.sqlread.specs.Changes.{is_system, is_among};
ghost use Rattle.transfer.specs.Faults.{GivesInMemory};
ghost use Rattle.transfer.specs.Header.{column_in, has_all, header_in, header_of, target_for, target_in, targets_after};
ghost use Rattle.transfer.specs.Shapes.{header_shape};
ghost use Rattle.namesyntax.specs.Parsing.{GivesInMemory as GivesRefusal};

use crate::fields::plain;
use crate::keeping::keep;
use crate::line::{before_field, fields_at};
use crate::unread::Stop;
use csv::ByteRecord;
use fault::Refusal;
use schema::{Kind, Name, Table};
use sqlchecks::column::find_column;
use std::alloc::Global;

/// What a field of each row is for.
#[derive(Debug, Drop)]
pub(crate) struct Target {
    /// Which field of a row, where the first is 0.
    pub place: usize,
    /// Which column of the table.
    pub column: usize,
    /// The column's name, as it is declared.
    pub name: Name,
    pub kind: Kind,
}

/// What a file's first line says of those that follow.
#[derive(Debug, Drop)]
pub(crate) struct Header {
    /// The columns but the system columns, in the order of their fields.
    pub targets: Vec<Target>,
    /// How many fields each row has.
    pub width: usize,
}

fn is_system(table: &Table, column: usize) -> bool
    ensures { result ≡ is_system table.now column }
{
    column == table.system_start() || column == table.system_end()
}

fn is_among(targets: &[Target], column: usize) -> bool
    ensures { result ≡ is_among column (map (λ t. t.column) targets.now) }
{
    targets.iter().map(|t| t.column).any(|c| c == column)
}

// Whether each column but the system columns has a field.
fn has_all(table: &Table, targets: &[Target]) -> bool
    ensures { result ≡ has_all table.now targets.now }
{
    (0..table.column_count()).all(|c| is_system(table, c) || is_among(targets, c))
}

// The column that a field of the header names.
#[tactic(auto, unfolding(crate::specs::Header::column_in))]
fn column_in(table: &Table, name: &[u8]) -> Result<(usize, Kind), Refusal>
    ensures found { result ≡ column_in table.now name.now }
    ensures within { IfOk result (λ column. column.0 < length table.now.columns) }
{
    match plain(name) {
        Some(name) => find_column(table, name),
        None => Err(Refusal::UnknownColumn),
    }
}

// The column as the target of the field at this place, behind these targets: none where it is a system column.
#[tactic(auto, unfolding(crate::specs::Header::target_for))]
fn target_for(
    table: &Table,
    before: &[Target],
    place: usize,
    column: (usize, Kind),
) -> Result<Option<Target>, Refusal>
    requires { column.0 < length table.now.columns }
    ensures { GivesRefusal (λ t. t) result (target_for table.now before.now place column) }
{
    let (at, kind) = column;
    if is_system(table, at) {
        return Ok(None);
    }
    if is_among(before, at) {
        return Err(Refusal::NotAssignable);
    }
    let (name, _) = table.column(at);
    Ok(Some(Target {
        place,
        column: at,
        name: name.clone()?,
        kind,
    }))
}

// What a field of the header is for, behind these targets.
#[tactic(auto, unfolding(crate::specs::Header::target_in))]
fn target_in(
    table: &Table,
    line: &[u8],
    before: &[Target],
    place: usize,
    name: &[u8],
) -> Result<Option<Target>, Stop>
    ensures { GivesInMemory (λ t. t) result (target_in table.now line.now before.now place name.now) }
{
    let behind = before_field(line, place);
    let column = match column_in(table, name) {
        Ok(column) => column,
        Err(refusal) => return Err(Stop::at(1, behind, refusal)),
    };
    match target_for(table, before, place, column) {
        Ok(target) => Ok(target),
        Err(Refusal::NoMemory) => Err(Stop::NoMemory),
        Err(refusal) => Err(Stop::at(1, behind, refusal)),
    }
}

// The field at this place.
#[tactic(auto, using(crate::proofs::Places::some_at))]
fn name_at(names: &ByteRecord, place: usize) -> &[u8]
    requires { place < length (fields_of names.now) }
    ensures { field_at (fields_of names.entry.now) place ≡ Some result.now }
{
    match names.get(place) {
        Some(name) => name,
        None => unreachable!(),
    }
}

// What the fields of the header are for.
#[tactic(auto, using(crate::proofs::Places::drop_field))]
fn targets(
    alloc: Global,
    table: &Table,
    line: &[u8],
    names: &ByteRecord,
) -> Result<Vec<Target>, Stop>
    ensures { GivesInMemory (λ v. v.items) result (targets_after table.now line.now [] 0 (fields_of names.now)) }
{
    let mut targets = Vec::new(alloc);
    for place in 0..names.len() {
        let name = name_at(names, place);
        let target = target_in(table, line, &targets, place, name)?;
        keep(&mut targets, target)?;
    }
    Ok(targets)
}

// What a header of these names says.
#[tactic(auto, unfolding(crate::specs::Header::header_of))]
fn header_of(alloc: Global, table: &Table, line: &[u8], names: &ByteRecord) -> Result<Header, Stop>
    ensures { GivesInMemory header_shape result (header_of table.now line.now (fields_of names.now)) }
{
    let targets = targets(alloc, table, line, names)?;
    if !has_all(table, &targets) {
        return Err(Stop::at(1, 0, Refusal::UnknownColumn));
    }
    Ok(Header {
        targets,
        width: names.len(),
    })
}

/// What the first line of a file says of the others.
///
/// At a field `UnknownColumn` where the table has no such column, `NotAssignable` where one before it names the same; `UnknownColumn` at the
/// line's first byte where a column that is no system column is left out; `Syntax` where the line is not whole.
#[tactic(auto, unfolding(crate::specs::Header::header_in))]
pub(crate) fn header_in(alloc: Global, table: &Table, line: &[u8]) -> Result<Header, Stop>
    ensures { GivesInMemory header_shape result (header_in table.now line.now) }
{
    match fields_at(alloc, 1, line)? {
        Some(names) => header_of(alloc, table, line, &names),
        None => header_of(alloc, table, line, &ByteRecord::new(alloc)),
    }
}
