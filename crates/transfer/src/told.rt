//! What an import tells.
ghost use Rattle.std.specs.Prelude.{◌≡◌, IfOk, string_bytes};
ghost use Rattle.transfer.specs.Told.{advice_text, command_text, count_text, lines_text, outcome_text, place_text, requests_text, stored_text, told_text};

use crate::asked::Import;
use crate::requests::Request;
use crate::unread::Fault;
use fault::Refusal;
use std::alloc::{AllocError, Global};
use store::Outcome;

// The widest line of a file that is shown.
const SHOWN_MOST: usize = 160;

/// The lines of a request.
pub(crate) fn lines_text(alloc: Global, first: usize, last: usize) -> Result<String, AllocError>
    ensures { IfOk result (λ text. string_bytes text ≡ lines_text first last) }
{
    if first == last {
        format!(in alloc; "line {first}")
    } else {
        format!(in alloc; "lines {first} to {last}")
    }
}

// The command that goes on from a line.
fn command_text(alloc: Global, import: Import<'_>, line: usize) -> Result<String, AllocError>
    ensures { IfOk result (λ text. string_bytes text ≡ command_text import.entry.dir.now import.entry.table.now import.entry.file.now line) }
{
    let dir = import.dir;
    let table = import.table;
    let file = import.file;
    format!(in alloc; "bitable import {dir} {table} {file} --from-line {line}\n")
}

// What stands below a request that was not accepted.
fn advice_text(alloc: Global, outcome: &Outcome, command: &str) -> Result<String, AllocError>
    ensures { IfOk result (λ text. string_bytes text ≡ advice_text outcome.now command.now) }
{
    match outcome {
        Outcome::Accepted(_) => Ok(String::new(alloc)),
        Outcome::Refused(Refusal::KeyOverlap) => format!(in alloc;
            "        This request stored nothing. Go on behind what an earlier import stored, or mend it: {command}"
        ),
        Outcome::Refused(_) => format!(in alloc;
            "        Nothing of these lines is stored. When it is mended: {command}"
        ),
        Outcome::Unanswered => format!(in alloc;
            "        It is not known whether these lines are stored; where they are, they are refused 20: {command}"
        ),
    }
}

// Where a request begins in its file.
fn place_text(alloc: Global, file: &str, first: usize) -> Result<String, AllocError>
    ensures { IfOk result (λ text. string_bytes text ≡ place_text file.now first) }
{
    format!(in alloc; "{file}:{first}")
}

// What came of the request of these lines.
fn told_text(
    alloc: Global,
    outcome: &Outcome,
    first: usize,
    last: usize,
) -> Result<String, AllocError>
    ensures { IfOk result (λ text. string_bytes text ≡ told_text outcome.now first last) }
{
    let lines = lines_text(alloc, first, last)?;
    format!(in alloc; "{outcome}, {lines}")
}

/// What came of a request, and the command that goes on where it was not accepted.
pub(crate) fn outcome_text(
    alloc: Global,
    import: Import<'_>,
    request: &Request,
    outcome: &Outcome,
) -> Result<String, AllocError>
    ensures { IfOk result (λ text. string_bytes text ≡ outcome_text import.entry.file.now request.now.first request.now.last outcome.now (advice_text outcome.now (command_text import.entry.dir.now import.entry.table.now import.entry.file.now request.now.first))) }
{
    let place = place_text(alloc, import.file, request.first)?;
    let told = told_text(alloc, outcome, request.first, request.last)?;
    let command = command_text(alloc, import, request.first)?;
    let advice = advice_text(alloc, outcome, command.as_str())?;
    format!(in alloc; "{place}: {told}\n{advice}")
}

// How many of the rows are stored.
fn stored_text(alloc: Global, stored: usize, rows: usize) -> Result<String, AllocError>
    ensures { IfOk result (λ text. string_bytes text ≡ stored_text stored rows) }
{
    format!(in alloc; "{stored} of {rows} rows are stored")
}

fn requests_text(alloc: Global, requests: usize) -> Result<String, AllocError>
    ensures { IfOk result (λ text. string_bytes text ≡ requests_text requests) }
{
    if requests == 1 {
        String::from_str(alloc, "1 request")
    } else {
        format!(in alloc; "{requests} requests")
    }
}

/// How many of the rows are stored, in how many requests.
pub(crate) fn count_text(
    alloc: Global,
    file: &str,
    stored: usize,
    rows: usize,
    requests: usize,
) -> Result<String, AllocError>
    ensures { IfOk result (λ text. string_bytes text ≡ count_text file.now stored rows requests) }
{
    let stored = stored_text(alloc, stored, rows)?;
    let requests = requests_text(alloc, requests)?;
    format!(in alloc; "{file}: {stored}, in {requests}\n")
}

// A line of a file, as far as it is shown: each byte that is no printable ASCII as `?`.
fn put_shown(line: &[u8], text: &mut String) -> Result<(), AllocError> {
    for byte in line.iter().take(SHOWN_MOST) {
        let shown = if *byte >= 32 && *byte <= 126 {
            *byte
        } else {
            b'?'
        };
        text.push(shown as char)?;
    }
    Ok(())
}

// A caret below the byte behind so many.
fn put_caret(margin: usize, before: usize, text: &mut String) -> Result<(), AllocError> {
    for _ in 0..margin {
        text.push(' ')?;
    }
    text.push_str(" | ")?;
    for _ in 0..before {
        text.push(' ')?;
    }
    text.push_str("^\n")
}

/// What is wrong in a file, with its line, where that is not too wide to be shown.
pub(crate) fn fault_text(
    alloc: Global,
    file: &str,
    fault: &Fault,
    line: &[u8],
) -> Result<String, AllocError> {
    let number = fault.line;
    let column = fault.before.saturating_add(1);
    let refusal = &fault.refusal;
    let mut text = format!(in alloc; "{file}:{number}:{column}: {refusal}\n")?;
    if fault.before <= SHOWN_MOST {
        write!(text, "{number:>5} | ")?;
        put_shown(line, &mut text)?;
        text.push('\n')?;
        put_caret(5, fault.before, &mut text)?;
    }
    write!(text, "{file}: nothing is stored\n")?;
    Ok(text)
}
