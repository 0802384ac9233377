//! Writing what lines are made of.
ghost use Rattle.std.specs.Prelude.{◌≡◌, OnOk, string_bytes};
ghost use Rattle.flight.specs.Additions.{Adds};
ghost use Rattle.flight.specs.Spelling.{request_text, entry_text, each_text, floor_number, outcome_text};

use flight::outcome::Outcome;
use model::entry::{Entry, Request};
use model::stamp::Stamp;
use std::alloc::{AllocError, Global};

pub(crate) fn put_request(request: &Request, text: &mut String) -> Result<(), AllocError>
    ensures { OnOk result (Adds (string_bytes text.old) (string_bytes text.new) (request_text request.now)) }
{
    let client = request.client.get();
    let number = request.number.get();
    let asked = request.text.as_str();
    let length = asked.len();
    write!(text, "{client} {number} {length}\n{asked}\n")
}

pub(crate) fn put_entry(entry: &Entry, text: &mut String) -> Result<(), AllocError>
    ensures { OnOk result (Adds (string_bytes text.old) (string_bytes text.new) (entry_text entry.now)) }
{
    let term = entry.term;
    let stamp = entry.stamp.micros();
    write!(text, "entry {term} {stamp} ")?;
    match &entry.request {
        None => text.push_str("close\n"),
        Some(request) => put_request(request, text),
    }
}

// The number that a floor is spelled with.
pub(crate) fn floor_number(floor: Option<Stamp>) -> i64
    ensures { result ≡ floor_number floor }
{
    match floor {
        None => -1,
        Some(floor) => floor.micros() as i64,
    }
}

fn put_outcome(outcome: &Outcome, text: &mut String) -> Result<(), AllocError>
    ensures { OnOk result (Adds (string_bytes text.old) (string_bytes text.new) (outcome_text outcome.now)) }
{
    let index = outcome.index;
    let client = outcome.client.get();
    let number = outcome.number.get();
    let words = outcome.text.as_str();
    let length = words.len();
    write!(
        text,
        "outcome {index} {client} {number}\ntext {length}\n{words}\n"
    )
}

pub(crate) fn put_each_outcome(outcomes: &[Outcome], text: &mut String) -> Result<(), AllocError>
    ensures { OnOk result (Adds (string_bytes text.old) (string_bytes text.new) (each_text outcome_text outcomes.now)) }
{
    for outcome in outcomes {
        put_outcome(outcome, text)?;
    }
    Ok(())
}
