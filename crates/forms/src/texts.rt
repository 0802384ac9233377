//! Outputs and outcomes as texts, in the form that is asked for.
ghost use Rattle.std.specs.Prelude.{◌≡◌, ◌++◌, IfOk, string_bytes};
ghost use Rattle.looks.specs.Objects.{line_of};
ghost use Rattle.looks.specs.Separated.{csv_text};
ghost use Rattle.script.specs.Printing.{output_text};
ghost use Rattle.forms.specs.Shown.{IsOutputIn, IsTableOrLine, csv_or_line, gap_text, object_tokens, outcome_in, outcome_line, outcome_words};

use crate::form::{Form, Look};
use answer::Answer;
use fault::Refusal;
use looks::{
    Asked, answer_as_csv, answer_as_json, answer_as_table, outcome_as_json, refused_as_json,
    sent_as_json, told_as_json,
};
use model::request::{Client, RequestNumber};
use model::stamp::Stamp;
use script::printing::Printed;
use std::alloc::{AllocError, Global};
use world::output::Output;

// An output as a JSON object on a line.
fn object_of(alloc: Global, output: &Output) -> Result<Vec<u8>, AllocError>
    ensures { IfOk result (λ text. text.items ≡ line_of (object_tokens output.now)) }
{
    match output {
        Output::Sent(place, message) => sent_as_json(alloc, *place, message),
        Output::Applied(node, told) => told_as_json(alloc, *node, told),
        Output::Refused(node, refusal) => refused_as_json(alloc, *node, refusal),
        Output::Answered(node, answer) => answer_as_json(alloc, *node, answer),
    }
}

// An output as its lines.
fn lines_of(alloc: Global, output: &Output) -> Result<Vec<u8>, AllocError>
    ensures { IfOk result (λ text. text.items ≡ output_text output.now) }
{
    let lines = Printed(output).to_string(alloc)?;
    Ok(lines.into_bytes())
}

// The empty line that stands before an answer as CSV, where another came before it.
fn gap_of(alloc: Global, is_next: bool) -> Result<Vec<u8>, AllocError>
    ensures { IfOk result (λ text. text.items ≡ gap_text is_next) }
{
    let mut text = Vec::new(alloc);
    if is_next {
        text.extend_from_slice(b"\r\n")?;
    }
    Ok(text)
}

// An answer as CSV.
fn csv_of(alloc: Global, is_next: bool, answer: &Answer) -> Result<Vec<u8>, AllocError>
    ensures { IfOk result (λ text. text.items ≡ gap_text is_next ++ csv_text answer.now) }
{
    let mut text = gap_of(alloc, is_next)?;
    let rows = answer_as_csv(alloc, answer)?;
    text.extend_from_slice(rows.as_slice())?;
    Ok(text)
}

// An answer as CSV, any other output as a line.
fn csv_or_line(alloc: Global, is_next: bool, output: &Output) -> Result<Vec<u8>, AllocError>
    ensures { IfOk result (λ text. text.items ≡ csv_or_line is_next output.now) }
{
    match output {
        Output::Answered(_, answer) => csv_of(alloc, is_next, answer),
        output => lines_of(alloc, output),
    }
}

// An answer as a table, any other output as a line.
fn table_or_line(
    alloc: Global,
    width: Option<usize>,
    asked: Asked,
    output: &Output,
) -> Result<Vec<u8>, AllocError>
    ensures { IfOk result (λ text. IsTableOrLine output.now text.items) }
{
    match output {
        Output::Answered(node, answer) => answer_as_table(alloc, *node, answer, asked, width),
        output => lines_of(alloc, output),
    }
}

/// An output in a form. An answer that comes after another one is told so, and what its question asks about. The error is want of
/// memory.
pub fn output_in(
    alloc: Global,
    look: Look,
    asked: Asked,
    is_next: bool,
    output: &Output,
) -> Result<Vec<u8>, AllocError>
    ensures { IfOk result (λ text. IsOutputIn look.form is_next output.now text.items) }
{
    match look.form {
        Form::Lines => lines_of(alloc, output),
        Form::Table => table_or_line(alloc, look.width, asked, output),
        Form::Csv => csv_or_line(alloc, is_next, output),
        Form::Json => object_of(alloc, output),
    }
}

// What is said of a request, or that it has no outcome.
fn words_of(alloc: Global, outcome: &Option<Result<Stamp, Refusal>>) -> Result<String, AllocError>
    ensures { IfOk result (λ words. string_bytes words ≡ outcome_words outcome.now) }
{
    match outcome {
        None => format!(in alloc; "unanswered"),
        Some(Ok(stamp)) => {
            let instant = stamp.instant();
            format!(in alloc; "accepted {instant}")
        }
        Some(Err(refusal)) => format!(in alloc; "refused {refusal}"),
    }
}

// What came of a request, as a line.
fn line_of_outcome(
    alloc: Global,
    client: Client,
    number: RequestNumber,
    outcome: &Option<Result<Stamp, Refusal>>,
) -> Result<Vec<u8>, AllocError>
    ensures { IfOk result (λ text. text.items ≡ outcome_line client number outcome.now) }
{
    let words = words_of(alloc, outcome)?;
    let client = client.get();
    let number = number.get();
    let line = format!(in alloc; "request {client} {number} {words}\n")?;
    Ok(line.into_bytes())
}

/// What came of a request of a client, in a form; it is unanswered where there is no outcome. The error is want of memory.
pub fn outcome_in(
    alloc: Global,
    form: Form,
    client: Client,
    number: RequestNumber,
    outcome: &Option<Result<Stamp, Refusal>>,
) -> Result<Vec<u8>, AllocError>
    ensures { IfOk result (λ text. text.items ≡ outcome_in form client number outcome.now) }
{
    match form {
        Form::Json => outcome_as_json(alloc, client, number, outcome),
        _ => line_of_outcome(alloc, client, number, outcome),
    }
}
