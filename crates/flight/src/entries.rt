//! Readers of requests and entries.
ghost use Rattle.std.specs.Prelude.{◌≡◌, ◌≢◌, ℕ, List, length, All, IfOk, IfErr};
ghost use Rattle.model.specs.declared.entry.Entry.{Entry};
ghost use Rattle.flight.specs.Spelling.{request_text, asked_text, entry_text, entries_text, each_text};
ghost use Rattle.flight.specs.Ranges.{IsRequest, IsAsked, IsEntry};
ghost use Rattle.flight.specs.Reading.{Spells, SpellsOnly, IsUnread};

use crate::parts::{
    after, past, read_block, read_client, read_number, read_request_number, read_stamp,
};
use fault::Refusal;
use model::entry::{Entry, Request};
use std::alloc::Global;

/// A request: its client, its number and its text. 50 where none stands here, and `NoMemory`.
pub fn read_request(alloc: Global, text: &str) -> Result<(Request, &str), Refusal>
    ensures ok { IfOk result (λ p. Spells IsRequest request_text text.now p.0 p.1.now) }
    ensures only { IfOk result (λ p. SpellsOnly IsRequest request_text text.now p.0 p.1.now) }
    ensures err { IfErr result (IsUnread IsRequest request_text text.now) }
{
    let (client, rest) = read_client(text)?;
    let (number, rest) = read_request_number(rest, ' ')?;
    let (text, rest) = read_block(alloc, rest)?;
    let request = Request {
        client,
        number,
        text,
    };
    Ok((request, rest))
}

// What an entry bears: a request, or with none the word `close`.
fn read_asked(alloc: Global, text: &str) -> Result<(Option<Request>, &str), Refusal>
    ensures ok { IfOk result (λ p. Spells IsAsked asked_text text.now p.0 p.1.now) }
    ensures only { IfOk result (λ p. SpellsOnly IsAsked asked_text text.now p.0 p.1.now) }
    ensures err { IfErr result (IsUnread IsAsked asked_text text.now) }
{
    if let Some(rest) = after(text, "close\n") {
        return Ok((None, rest));
    }
    let (request, rest) = read_request(alloc, text)?;
    Ok((Some(request), rest))
}

fn read_entry(alloc: Global, text: &str) -> Result<(Entry, &str), Refusal>
    ensures ok { IfOk result (λ p. Spells IsEntry entry_text text.now p.0 p.1.now) }
    ensures only { IfOk result (λ p. SpellsOnly IsEntry entry_text text.now p.0 p.1.now) }
    ensures err { IfErr result (IsUnread IsEntry entry_text text.now) }
{
    let rest = past(text, "entry ")?;
    let (term, rest) = read_number(rest, ' ')?;
    let (stamp, rest) = read_stamp(rest, ' ')?;
    let (request, rest) = read_asked(alloc, rest)?;
    let entry = Entry {
        term,
        stamp,
        request,
    };
    Ok((entry, rest))
}

// So many entries.
fn read_each_entry(alloc: Global, count: u64, text: &str) -> Result<(Vec<Entry>, &str), Refusal>
    ensures ok { IfOk result (λ p. Spells (λ es. (length es ≡ count) × All IsEntry es) (each_text entry_text) text.now p.0.items p.1.now) }
    ensures only { IfOk result (λ p. SpellsOnly (λ es. (length es ≡ count) × All IsEntry es) (each_text entry_text) text.now p.0.items p.1.now) }
    ensures err { IfErr result (IsUnread (λ es. (length es ≡ count) × All IsEntry es) (each_text entry_text) text.now) }
{
    let mut entries = Vec::new(alloc);
    let mut rest = text;
    while (entries.len() as u64) < count {
        let (entry, left) = read_entry(alloc, rest)?;
        entries.push(entry)?;
        rest = left;
    }
    Ok((entries, rest))
}

/// How many entries, and then these entries. What is not so many is refused 50; want of memory is 43.
pub fn read_entries(alloc: Global, text: &str) -> Result<(Vec<Entry>, &str), Refusal>
    ensures ok { IfOk result (λ p. Spells (All IsEntry) entries_text text.now p.0.items p.1.now) }
    ensures only { IfOk result (λ p. SpellsOnly (All IsEntry) entries_text text.now p.0.items p.1.now) }
    ensures err { IfErr result (IsUnread (All IsEntry) entries_text text.now) }
{
    let (count, rest) = read_number(text, '\n')?;
    let (entries, rest) = read_each_entry(alloc, count, rest)?;
    Ok((entries, rest))
}
