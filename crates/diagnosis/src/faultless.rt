//! What a text is refused for, or that it has no fault.
ghost use Rattle.std.specs.Prelude.{◌≡◌, ◌≢◌, ◌↔◌, IsTrue, IfOk, is_ok};
ghost use Rattle.std.specs.Option.{is_none};
ghost use Rattle.fault.specs.declared.refusal.Refusal.TheVariants.{NoMemory};
ghost use Rattle.std.specs.List.{list_all};
ghost use Rattle.sqlread.specs.Texts.{transaction_in, query_in};
ghost use Rattle.diagnosis.specs.Faultless.{reads, IsFaultlessScript, IsFaultlessSchema};

use fault::Refusal;
use lines::line::{Line, TornJob};
use lines::script::read_script;
use schema::Schema;
use schemaread::schemas::read_schema;
use sqlread::query::read_query;
use sqlread::transaction::read_transaction;
use std::alloc::{AllocError, Global};

/// What a text is refused for as a transaction over these tables; none where it is one.
pub(crate) fn fault_of_transaction(
    alloc: Global,
    schema: &Schema,
    text: &str,
) -> Result<Option<Refusal>, AllocError>
    ensures { IfOk result (λ fault. is_none fault ≡ is_ok (transaction_in schema.now text.now)) }
{
    match read_transaction(alloc, schema, text) {
        Ok(_) => Ok(None),
        Err(Refusal::NoMemory) => Err(AllocError),
        Err(refusal) => Ok(Some(refusal)),
    }
}

/// What a text is refused for as a question about these tables; none where it is one.
pub(crate) fn fault_of_question(
    alloc: Global,
    schema: &Schema,
    text: &str,
) -> Result<Option<Refusal>, AllocError>
    ensures { IfOk result (λ fault. is_none fault ≡ is_ok (query_in schema.now text.now)) }
{
    match read_query(alloc, schema, text) {
        Ok(_) => Ok(None),
        Err(Refusal::NoMemory) => Err(AllocError),
        Err(refusal) => Ok(Some(refusal)),
    }
}

// What the text of a line is refused for as a request or a question of these tables, where it has one and that is refused.
fn fault_of_line(alloc: Global, schema: &Schema, line: &Line) -> Result<Option<Refusal>, AllocError>
    ensures { IfOk result (λ fault. is_none fault ≡ reads schema.now line.now) }
{
    match line {
        Line::Submit { text, .. } => fault_of_transaction(alloc, schema, text.as_str()),
        Line::Torn {
            job: TornJob::Submit { text, .. },
            ..
        } => fault_of_transaction(alloc, schema, text.as_str()),
        Line::Ask { text, .. } => fault_of_question(alloc, schema, text.as_str()),
        _ => Ok(None),
    }
}

// The first of these.
fn fault_of_lines(
    alloc: Global,
    schema: &Schema,
    mut lines: &[Line],
) -> Result<Option<Refusal>, AllocError>
    ensures { IfOk result (λ fault. is_none fault ≡ list_all (reads schema.now) lines.entry.now) }
{
    while let [line, rest @ ..] = lines {
        let fault = fault_of_line(alloc, schema, line)?;
        if fault.is_some() {
            return Ok(fault);
        }
        lines = rest;
    }
    Ok(None)
}

// A refusal of a text, which want of memory is none of.
fn refused(refusal: Refusal) -> Result<Option<Refusal>, AllocError>
    ensures { IfOk result (λ fault. (fault ≡ Some refusal) × (refusal ≢ NoMemory)) }
{
    match refusal {
        Refusal::NoMemory => Err(AllocError),
        refusal => Ok(Some(refusal)),
    }
}

/// What a text is refused for as a script, or the first of its requests and questions that does not read; none where it is a
/// script all of whose requests and questions read.
pub(crate) fn fault_of_script(alloc: Global, text: &str) -> Result<Option<Refusal>, AllocError>
    ensures { IfOk result (λ fault. IsTrue (is_none fault) ↔ IsFaultlessScript text.now) }
{
    lines::laws::one_answer();
    lines::laws::faults();
    match read_script(alloc, text) {
        Ok(script) => fault_of_lines(alloc, &script.schema, &script.lines),
        Err(refusal) => refused(refusal),
    }
}

/// What a text is refused for as that of a schema; none where it is one.
pub(crate) fn fault_of_schema(alloc: Global, text: &str) -> Result<Option<Refusal>, AllocError>
    ensures { IfOk result (λ fault. IsTrue (is_none fault) ↔ IsFaultlessSchema text.now) }
{
    schemaread::laws::schema_says();
    match read_schema(alloc, text) {
        Ok(_schema) => Ok(None),
        Err(refusal) => refused(refusal),
    }
}
