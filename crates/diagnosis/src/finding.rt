//! Where a text is no flight.
use crate::cause::Found;
use crate::flight_parts::{ANY, LAST_SIGNED, block, choice, number, word};
use crate::lives::lives;
use fault::Refusal;
use schema::Schema;
use schemaread::schemas::read_schema;
use sqlread::query::read_query;
use std::alloc::Global;
use std::str;

// The most bytes of a schema and of a query.
const SCHEMA_MOST: u64 = 65_536;

const QUERY_MOST: u64 = 4_096;

/// A place in a file: the number of its line, from 1 on, and of its byte, from 0 on.
#[derive(Clone, Copy, Debug, PartialEq, Eq)]
pub struct Place {
    pub line: usize,
    pub byte: usize,
}

/// What the first lines of a flight say.
#[derive(Clone, Copy, Debug)]
pub struct Heading<'a> {
    pub version: u64,
    pub node: u8,
    pub members: u8,
    pub schema: &'a [u8],
}

// Why a text is no flight: none goes on from so many bytes before its end, or memory was refused.
#[derive(Clone, Copy, Debug, Drop)]
enum Unread {
    Before(usize),
    NoMemory,
}

impl<'a> From<&'a [u8]> for Unread {
    fn from(rest: &'a [u8]) -> Unread {
        Unread::Before(rest.len())
    }
}

// Why a block is refused that so many bytes follow.
fn refused(block: &[u8], refusal: &Refusal, after: usize) -> Unread {
    match refusal {
        Refusal::NoMemory => Unread::NoMemory,
        Refusal::Syntax(at) => {
            Unread::Before(block.len().saturating_sub(*at).saturating_add(after))
        }
        _ => Unread::Before(block.len().saturating_add(after)),
    }
}

// The first lines, up to the schema and its end, and what follows.
pub(crate) fn head(text: &[u8]) -> Result<(Heading<'_>, &[u8]), &[u8]> {
    let (version, rest) = number(word(text, "bitable flight ")?, b'\n', 1, 3)?;
    let (node, rest) = number(word(rest, "node ")?, b' ', 1, 7)?;
    let (members, rest) = number(word(rest, "of ")?, b'\n', node.max(3), 7)?;
    let (schema, rest) = block(word(rest, "schema ")?, SCHEMA_MOST)?;
    let heading = Heading {
        version,
        node: u8::try_from(node).unwrap_or(0),
        members: u8::try_from(members).unwrap_or(0),
        schema,
    };
    Ok((heading, rest))
}

// The tables that a block declares which so many bytes follow.
fn tables(alloc: Global, block: &[u8], after: usize) -> Result<Schema, Unread> {
    let Ok(text) = str::from_utf8(block) else {
        return Err(Unread::Before(block.len().saturating_add(after)));
    };
    read_schema(alloc, text).map_err(|refusal| refused(block, &refusal, after))
}

fn query(alloc: Global, schema: &Schema, block: &[u8], after: usize) -> Result<(), Unread> {
    let Ok(text) = str::from_utf8(block) else {
        return Err(Unread::Before(block.len().saturating_add(after)));
    };
    match read_query(alloc, schema, text) {
        Ok(_) => Ok(()),
        Err(refusal) => Err(refused(block, &refusal, after)),
    }
}

// An answer behind its word; whether another one follows, and what stands behind the word of that or the end.
fn answer<'a>(alloc: Global, schema: &Schema, text: &'a [u8]) -> Result<(bool, &'a [u8]), Unread> {
    let (_, rest) = number(text, b'\n', 1, LAST_SIGNED)?;
    let (asked, rest) = block(word(rest, "query ")?, QUERY_MOST)?;
    query(alloc, schema, asked, rest.len().saturating_add(1))?;
    let (_, rest) = block(word(rest, "text ")?, ANY)?;
    let (which, rest) = choice(rest, &["answer ", "end\n"])?;
    Ok((which == 0, rest))
}

// The answers behind the word of the first one, if there is one, and the end of the file.
fn answers(alloc: Global, schema: &Schema, has_answer: bool, text: &[u8]) -> Result<(), Unread> {
    let mut has_answer = has_answer;
    let mut rest = text;
    for _ in 0..=text.len() {
        if !has_answer {
            break;
        }
        (has_answer, rest) = answer(alloc, schema, rest)?;
    }
    if rest.is_empty() {
        Ok(())
    } else {
        Err(Unread::Before(rest.len()))
    }
}

fn walk(alloc: Global, text: &[u8]) -> Result<Heading<'_>, Unread> {
    let (heading, rest) = head(text)?;
    let schema = tables(alloc, heading.schema, rest.len().saturating_add(1))?;
    let (has_answer, rest) = lives(heading.version, rest)?;
    answers(alloc, &schema, has_answer, rest)?;
    Ok(heading)
}

// The place that so many bytes stand behind.
fn place_before(text: &[u8], after: usize) -> Place {
    let byte = text.len().saturating_sub(after);
    let before = text.get(..byte).unwrap_or_default();
    let lines = before.iter().filter(|it| **it == b'\n').count();
    Place {
        line: lines.saturating_add(1),
        byte,
    }
}

/// What the first lines of a flight's file say, or where the text stops to be one: up to there it is the beginning of some
/// flight's file, and with the byte there of none; a block that is no schema or no query ends it where that is refused, or
/// else where it begins. Where memory is refused the error says that.
pub fn find_heading(alloc: Global, text: &str) -> Result<Heading<'_>, Found<'static>> {
    let bytes = text.as_bytes();
    match walk(alloc, bytes) {
        Ok(heading) => Ok(heading),
        Err(Unread::Before(after)) => Err(Found::NoFlight(place_before(bytes, after))),
        Err(Unread::NoMemory) => Err(Found::Words(
            "it is no flight; there is no memory to tell where",
        )),
    }
}
