//! Files that are read without being played.
ghost use Rattle.std.specs.Prelude.{◌≡◌, ◌↔◌, IsTrue, IsFalse, IfOk};
ghost use Rattle.std.specs.Option.{is_none};
ghost use Rattle.diagnosis.specs.Faultless.{IsFaultless, IsFaultlessScript, IsFaultlessSchema};

use crate::faultless::{fault_of_schema, fault_of_script};
use crate::page::{Diagnosis, Line, Page};
use crate::scripts::{Look, last_line, look_at_tables};
use crate::walk::{Found, Spot};
use fault::Refusal;
use std::alloc::{AllocError, Global};

/// What a file is read as.
#[derive(Clone, Copy)]
pub enum Subject {
    /// A script.
    Script,
    /// The tables of a schema.
    Schema,
}

fn plural(count: usize) -> &'static str {
    if count == 1 { "" } else { "s" }
}

// What is shown of a schema, and how many tables it has.
fn look_at_schema<'f>(
    alloc: Global,
    file: &'f str,
    text: &str,
) -> Result<(Page<'f>, String), AllocError> {
    let mut page = Page::new(alloc, file);
    let count = match look_at_tables(alloc, &mut page, 1, text)? {
        Some(schema) => schema.len(),
        None => 0,
    };
    let plural = plural(count);
    let has = format!(in alloc; "{count} table{plural}")?;
    Ok((page, has))
}

fn diagnose_schema(alloc: Global, file: &str, text: &str) -> Result<Diagnosis, AllocError>
    ensures clean { IfOk result (λ told. IsTrue told.is_clean ↔ IsFaultlessSchema text.now) }
    ensures counted { IfOk result (λ told. IsTrue told.is_clean ↔ (told.faults ≡ 0)) }
{
    let fault = fault_of_schema(alloc, text)?;
    let (page, has) = look_at_schema(alloc, file, text)?;
    page.end(alloc, fault, has.as_str())
}

// What is shown of a script, whether or not it is faultless.
fn look_at_script<'f>(alloc: Global, file: &'f str, text: &str) -> Result<Look<'f>, AllocError> {
    let mut look = Look::new(alloc, file);
    let mut last = Line {
        number: 1,
        text: "",
    };
    for (at, line) in text.split('\n').enumerate() {
        last = Line {
            number: at.saturating_add(1),
            text: line,
        };
        look.take(alloc, last)?;
    }
    look.end(alloc, last)?;
    Ok(look)
}

// How many requests and questions there are.
fn counted(alloc: Global, requests: usize, questions: usize) -> Result<String, AllocError> {
    let (more, many) = (plural(requests), plural(questions));
    format!(in alloc; "{requests} request{more}, {questions} question{many}")
}

// What is told of a script that was looked at, and which is refused so.
fn end_look(alloc: Global, look: Look, fault: Option<Refusal>) -> Result<Diagnosis, AllocError>
    ensures clean { IfOk result (λ told. told.is_clean ≡ is_none fault) }
    ensures counted { IfOk result (λ told. IsTrue told.is_clean ↔ (told.faults ≡ 0)) }
{
    let unread = look.told_unread();
    let has = counted(alloc, look.requests, look.questions)?;
    look.into_page()
        .end(alloc, fault, has.as_str())?
        .with_line(unread)
}

fn diagnose_script(alloc: Global, file: &str, text: &str) -> Result<Diagnosis, AllocError>
    ensures clean { IfOk result (λ told. IsTrue told.is_clean ↔ IsFaultlessScript text.now) }
    ensures counted { IfOk result (λ told. IsTrue told.is_clean ↔ (told.faults ≡ 0)) }
{
    let fault = fault_of_script(alloc, text)?;
    let look = look_at_script(alloc, file, text)?;
    end_look(alloc, look, fault)
}

// Where the first byte stands that is no UTF-8: its line, its place in the line, and itself.
fn first_stray(bytes: &[u8], valid: usize) -> (usize, usize, u8) {
    let before = bytes.get(..valid).unwrap_or(bytes);
    let (lines, start) = last_line(before);
    let stray = bytes.get(valid).copied().unwrap_or(0);
    (lines.saturating_add(1), valid.saturating_sub(start), stray)
}

// That a file is no text.
fn diagnose_bytes(
    alloc: Global,
    file: &str,
    bytes: &[u8],
    valid: usize,
) -> Result<Diagnosis, AllocError>
    ensures clean { IfOk result (λ told. IsFalse told.is_clean) }
    ensures counted { IfOk result (λ told. IsTrue told.is_clean ↔ (told.faults ≡ 0)) }
{
    let (number, at, stray) = first_stray(bytes, valid);
    let mut page = Page::new(alloc, file);
    let found = Found {
        spot: Spot { at, len: 1 },
        refusal: Refusal::BadScript(0),
        hint: format!(in alloc; "the byte {stray:02x} here is no UTF-8: save the file as UTF-8.")?,
    };
    page.tell_bare(alloc, number, at, &found)?;
    page.end(alloc, Some(Refusal::BadScript(0)), "")
}

// What is told of a text.
fn diagnose_text(
    alloc: Global,
    subject: Subject,
    file: &str,
    text: &str,
) -> Result<Diagnosis, AllocError>
    ensures clean { IfOk result (λ told. IsTrue told.is_clean ↔ IsFaultless subject text.now) }
    ensures counted { IfOk result (λ told. IsTrue told.is_clean ↔ (told.faults ≡ 0)) }
{
    match subject {
        Subject::Script => diagnose_script(alloc, file, text),
        Subject::Schema => diagnose_schema(alloc, file, text),
    }
}

/// Reads a file of this name, which has these bytes, without playing it, and tells each fault as a compiler does: the file, the
/// line and the column, counted in bytes from 1, the refusal, the line with what is wrong below it, and where something is
/// known of it, what could be done. A schema is read to its first fault; of a script whose schema has one no statement is
/// read, but its other lines are. What only a run can refuse, 20 and above but for 60, is no fault. A file that is not clean has a
/// fault told of it: where no place is known of what it is refused for, that is told of the whole file.
///
/// Refused for want of memory alone.
pub fn diagnose(
    alloc: Global,
    subject: Subject,
    file: &str,
    bytes: &[u8],
) -> Result<Diagnosis, AllocError>
    ensures clean { IfOk result (λ told. IsTrue told.is_clean ↔ IsFaultless subject bytes.now) }
    ensures counted { IfOk result (λ told. IsTrue told.is_clean ↔ (told.faults ≡ 0)) }
{
    match str::from_utf8(bytes) {
        Ok(text) => diagnose_text(alloc, subject, file, text),
        Err(error) => diagnose_bytes(alloc, file, bytes, error.valid_up_to()),
    }
}
