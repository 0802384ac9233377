//! What is wrong in the text of one request or question, without a file.
ghost use Rattle.std.specs.Prelude.{◌≡◌, IfOk, is_ok};
ghost use Rattle.std.specs.Option.{is_none};
ghost use Rattle.sqlread.specs.Texts.{query_in, transaction_in};

use crate::faultless::{fault_of_question, fault_of_transaction};
use crate::judging::{judge_question, judge_transaction};
use crate::page::Page;
use crate::scripts::tell_in_lines;
use crate::walk::Found;
use schema::Schema;
use std::alloc::{AllocError, Global};

// What stands below the first line of a fault, which has its place and its refusal, without the empty line at its end.
fn below_place(alloc: Global, told: &str) -> Result<String, AllocError> {
    let below = match told.split_once('\n') {
        Some((_, below)) => below,
        None => "",
    };
    let below = match below.strip_suffix('\n') {
        Some(lines) => lines,
        None => below,
    };
    String::from_str(alloc, below)
}

// What was found in a text, as it stands below its refusal.
fn shown(alloc: Global, text: &str, found: Option<Found>) -> Result<String, AllocError> {
    let mut page = Page::new(alloc, "");
    if let Some(found) = found {
        tell_in_lines(alloc, &mut page, 1, text, found)?;
    }
    below_place(alloc, page.text.as_str())
}

/// What is wrong in the text of a request over these tables, as it stands below its refusal: the line, counted from 1, carets below
/// what is wrong in it, and where something is known of it, what could be done. None where it is a request. The error is want of
/// memory.
pub fn fault_in_request(
    alloc: Global,
    schema: &Schema,
    text: &str,
) -> Result<Option<String>, AllocError>
    ensures { IfOk result (λ told. is_none told ≡ is_ok (transaction_in schema.now text.now)) }
{
    if fault_of_transaction(alloc, schema, text)?.is_none() {
        return Ok(None);
    }
    let found = judge_transaction(alloc, schema, text)?;
    Ok(Some(shown(alloc, text, found)?))
}

/// The same of the text of a question.
pub fn fault_in_question(
    alloc: Global,
    schema: &Schema,
    text: &str,
) -> Result<Option<String>, AllocError>
    ensures { IfOk result (λ told. is_none told ≡ is_ok (query_in schema.now text.now)) }
{
    if fault_of_question(alloc, schema, text)?.is_none() {
        return Ok(None);
    }
    let found = judge_question(alloc, schema, text)?;
    Ok(Some(shown(alloc, text, found)?))
}
