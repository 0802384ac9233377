//! The rows of a file as requests.
ghost use Rattle.std.specs.Prelude.{◌≡◌, ◌<◌, ◌++◌, ◌∷◌, [], ℕ, List, Some, None, map, option_map, unwrap_or, slice_get, IfOk};
ghost use Rattle.std.specs.List.{enumerate_from};
ghost use Rattle.std.specs.Str.Lines.{strip_carriage_return};
ghost use Rattle.transfer.specs.Faults.{GivesInMemory, found_in};
ghost use Rattle.transfer.specs.Requests.{alone, grouped, has_room, request_of, requests_in, with_row};
ghost use Rattle.transfer.specs.Rows.{row_from as row_numbered};
ghost use Rattle.transfer.specs.Shapes.{header_shape, row_shape};

use crate::header::header_in;
use crate::keeping::keep;
use crate::line::{pieces_of, without_return};
use crate::rows::{Destination, MAX_TEXT, Row, row_from};
use crate::unread::Stop;
use schema::{Name, Table};
use std::alloc::{AllocError, Global};

// How many statements a request may have.
const MAX_ROWS: usize = 16;

/// Rows of a file as one request.
#[derive(Debug, Drop)]
pub struct Request {
    /// The line of its first row, where the file's first line is 1.
    pub first: usize,
    /// The line of its last row.
    pub last: usize,
    /// How many rows it has, from 1 to 16.
    pub rows: usize,
    /// An INSERT for each of them.
    pub text: String,
}

impl Request {
    fn alone(row: &Row) -> Result<Request, AllocError>
        ensures { IfOk result (λ r. request_of r ≡ alone (row_shape row.now)) }
    {
        Ok(Request {
            first: row.line,
            last: row.line,
            rows: 1,
            text: row.text.clone()?,
        })
    }

    fn has_room(&self, row: &Row) -> bool
        ensures { result ≡ has_room (request_of self.now) (row_shape row.now) }
    {
        self.rows < MAX_ROWS
            && self.text.len() < MAX_TEXT
            && row.text.len() <= MAX_TEXT - self.text.len() - 1
    }

    fn with_row(self, row: &Row) -> Result<Request, AllocError>
        requires { self.rows < 16 }
        ensures { IfOk result (λ r. request_of r ≡ with_row (request_of self) (row_shape row.now)) }
    {
        let Request {
            first,
            last: _,
            rows,
            mut text,
        } = self;
        text.push(' ')?;
        text.push_str(row.text.as_str())?;
        Ok(Request {
            first,
            last: row.line,
            rows: rows + 1,
            text,
        })
    }
}

// The request that a row joins, or begins behind those that are done.
fn joined(done: &mut Vec<Request>, begun: Option<Request>, row: &Row) -> Result<Request, AllocError>
    ensures { IfOk result (λ r. (rest : List (ℕ × List ℕ)) → map request_of done.old.items ++ grouped (option_map request_of begun) (row_shape row.now ∷ rest) ≡ map request_of done.new.items ++ grouped (Some (request_of r)) rest) }
{
    match begun {
        None => Request::alone(row),
        Some(request) => {
            if request.has_room(row) {
                return request.with_row(row);
            }
            done.push(request)?;
            Request::alone(row)
        }
    }
}

// Rows in requests, as many in each as have room there.
fn grouped(alloc: Global, rows: &[Row]) -> Result<Vec<Request>, AllocError>
    ensures { IfOk result (λ v. map request_of v.items ≡ grouped None (map row_shape rows.now)) }
{
    let mut done = Vec::new(alloc);
    let mut begun: Option<Request> = None;
    for row in rows {
        begun = Some(joined(&mut done, begun, row)?);
    }
    if let Some(request) = begun {
        done.push(request)?;
    }
    Ok(done)
}

// The rows of lines.
#[tactic(auto, using(crate::proofs::Found::found_is, crate::proofs::Found::map_kept))]
fn rows_of(
    alloc: Global,
    into: Destination<'_>,
    from: usize,
    pieces: &[&[u8]],
) -> Result<Vec<Row>, Stop>
    ensures { GivesInMemory (λ v. map row_shape v.items) result (found_in (row_numbered into.entry.name.now into.entry.table.now (header_shape into.entry.header.now) from) (enumerate_from 1 (map strip_carriage_return (map (λ p. p.now) pieces.now)))) }
{
    let mut rows = Vec::new(alloc);
    for (at, piece) in pieces.iter().enumerate() {
        let row = row_from(alloc, into, from, at + 1, without_return(*piece))?;
        keep(&mut rows, row)?;
    }
    Ok(rows)
}

// The first line.
fn first_line<'a>(pieces: &[&'a [u8]]) -> &'a [u8]
    ensures { result.now ≡ unwrap_or (slice_get (map strip_carriage_return (map (λ p. p.now) pieces.now)) 0) [] }
{
    match pieces {
        [piece, ..] => without_return(*piece),
        [] => &[],
    }
}

/// The rows of a CSV file as requests to insert them into the table of this name, in the order of the file, from the line of this number on:
/// each has an INSERT for each of its rows, and as many rows as it has room for, which are sixteen at most, of 4,096 bytes at most. The first
/// line names the columns, in any order; system columns may be there, and are passed by. Blank lines have no row.
///
/// Nothing is given of a file that has a fault: the first one is told, with its place. In the first line 12 at a field that names no column
/// of the table, or at its first byte where a column is left out, and 14 at a field that names the same column as one before it. In each
/// line 10 where a double quote lacks its other one, or a carriage return stands within. Of a row 13 for more or fewer fields than the
/// first line has; at a field 13 where an INTEGER has anything but digits with a minus or none, and 16 for a value that its column does not
/// have; 15 where its period has no day; 17 where its statement has more than 4,096 bytes. Lines before `from` are not looked at, but for the
/// first.
#[tactic(auto, unfolding(crate::specs::Requests::requests_in))]
pub fn read_requests(
    alloc: Global,
    name: &Name,
    table: &Table,
    from: usize,
    file: &[u8],
) -> Result<Vec<Request>, Stop>
    ensures { GivesInMemory (λ v. map request_of v.items) result (requests_in name.now table.now from file.now) }
{
    let pieces = pieces_of(alloc, file)?;
    let header = header_in(alloc, table, first_line(&pieces))?;
    let into = Destination {
        name,
        table,
        header: &header,
    };
    let rows = rows_of(alloc, into, from, &pieces)?;
    Ok(grouped(alloc, &rows)?)
}
