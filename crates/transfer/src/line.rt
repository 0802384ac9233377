//! The lines of a file, and the fields of a line.
ghost use Rattle.std.specs.Prelude.{◌≡◌, ◌==◌, false, IfOk, count_by, map, option_map};
ghost use Rattle.std.specs.List.{list_any};
ghost use Rattle.std.specs.Str.Lines.{strip_carriage_return};
ghost use Rattle.csv.specs.Records.{fields_of};
ghost use Rattle.transfer.specs.Faults.{GivesInMemory};
ghost use Rattle.transfer.specs.Lines.{before_field, fields_at, fields_in, is_whole, pieces_of};

use crate::unread::Stop;
use csv::{ByteRecord, ReaderBuilder};
use fault::Refusal;
use std::alloc::{AllocError, Global};

/// What stands between line feeds.
pub(crate) fn pieces_of(alloc: Global, file: &[u8]) -> Result<Vec<&[u8]>, AllocError>
    ensures { IfOk result (λ pieces. map (λ p. p.now) pieces.items ≡ pieces_of file.entry.now) }
{
    file.split(|b| *b == b'\n').collect(alloc)
}

/// A line without the carriage return that may end it.
pub(crate) fn without_return(line: &[u8]) -> &[u8]
    ensures { result.now ≡ strip_carriage_return line.entry.now }
{
    match line {
        [rest @ .., b'\r'] => rest,
        _ => line,
    }
}

fn quote_count(line: &[u8]) -> usize
    ensures { result ≡ count_by (λ b. b == 34) line.now }
{
    line.iter().filter(|b| **b == b'"').count()
}

fn has_return(line: &[u8]) -> bool
    ensures { result ≡ list_any (λ b. b == 13) line.now }
{
    line.iter().any(|b| *b == b'\r')
}

// Whether each double quote of a line has its other one, and no carriage return stands in it.
fn is_whole(line: &[u8]) -> bool
    ensures { result ≡ is_whole line.now }
{
    quote_count(line) % 2 == 0 && !has_return(line)
}

// The fields of a line, none of one that is blank.
fn fields_in(alloc: Global, line: &[u8]) -> Result<Option<ByteRecord>, AllocError>
    ensures { IfOk result (λ o. option_map fields_of o ≡ fields_in line.now) }
{
    let mut reader = ReaderBuilder::new()
        .has_headers(false)
        .from_reader(alloc, line);
    let mut record = ByteRecord::new(alloc);
    match reader.read_byte_record(&mut record) {
        Ok(true) => Ok(Some(record)),
        Ok(false) => Ok(None),
        Err(_) => Err(AllocError),
    }
}

/// The fields of the line of this number, none of one that is blank. `Syntax` where a double quote lacks its other one, or a carriage
/// return stands in it.
#[tactic(auto, unfolding(crate::specs::Lines::fields_at))]
pub(crate) fn fields_at(
    alloc: Global,
    number: usize,
    line: &[u8],
) -> Result<Option<ByteRecord>, Stop>
    ensures { GivesInMemory (λ o. option_map fields_of o) result (fields_at number line.now) }
{
    if !is_whole(line) {
        return Err(Stop::at(number, line.len(), Refusal::Syntax(line.len())));
    }
    Ok(fields_in(alloc, line)?)
}

/// How many bytes of a line stand before a field, by its place.
#[tactic(auto, using(crate::proofs::Places::none_left))]
pub(crate) fn before_field(line: &[u8], place: usize) -> usize
    ensures { result ≡ before_field false place line.now }
{
    let mut left = place;
    let mut quoted = false;
    for (at, b) in line.iter().enumerate() {
        if left == 0 {
            return at;
        }
        if *b == b'"' {
            quoted = !quoted;
        } else if *b == b',' && !quoted {
            left -= 1;
        }
    }
    line.len()
}
