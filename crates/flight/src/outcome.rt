//! What a step told of requests, as it is recorded.
ghost use Rattle.std.specs.Prelude.{◌≡◌, [], IfOk, IsOk, string_bytes};
ghost use Rattle.flight.specs.Telling.{told_text, outcome_of, outcomes_of};

use fault::{Refusal, Text};
use model::entry::Told;
use model::request::{Client, RequestNumber};
use model::stamp::Stamp;
use std::alloc::{AllocError, Global};
use std::marker::Model;

/// What a step told of a request.
#[derive(Debug, Drop)]
pub struct Outcome {
    /// The entry's place in the log, from 1. A flight file may bear any number.
    pub index: usize,
    /// Whose request it is.
    pub client: Client,
    /// The request's number.
    pub number: RequestNumber,
    /// `accepted` and the instant, or `refused` and the refusal. A flight file may bear any text.
    pub text: Text,
}

/// What a step told of requests, in the order of the log. A contract sees their list.
#[derive(Debug, Drop)]
pub struct Outcomes {
    items: Vec<Outcome>,
}

impl Model for Outcomes {
    ghost use Rattle.std.specs.Prelude.{List};
    ghost use Rattle.flight.specs.declared.outcome.Outcome.{Outcome};

    ghost Value = { List Outcome };

    ghost view = { λ o. o.items.items };
}

// The words of an outcome.
fn words(alloc: Global, outcome: &Result<Stamp, Refusal>) -> Result<String, AllocError>
    ensures { IfOk result (λ text. string_bytes text ≡ told_text outcome.now) }
{
    match outcome {
        Ok(stamp) => {
            let instant = stamp.instant();
            format!(in alloc; "accepted {instant}")
        }
        Err(refusal) => format!(in alloc; "refused {refusal}"),
    }
}

impl Outcome {
    /// What is recorded of what was told of a request. The error is want of memory.
    pub fn of(alloc: Global, told: &Told) -> Result<Outcome, AllocError>
        ensures { IfOk result (λ o. o ≡ outcome_of told.now) }
    {
        let words = words(alloc, &told.outcome)?;
        Ok(Outcome {
            index: told.index,
            client: told.client,
            number: told.number,
            text: Text::from_string(words)?,
        })
    }
}

impl Outcomes {
    /// These outcomes, in their order. Takes no memory.
    pub fn new(items: Vec<Outcome>) -> Outcomes
        ensures { result ≡ items.items }
    {
        Outcomes { items }
    }

    /// No outcomes. Takes no memory.
    pub fn none(alloc: Global) -> Outcomes
        ensures { result ≡ [] }
    {
        Outcomes::new(Vec::new(alloc))
    }

    /// What is recorded of what was told. The error is want of memory; there is none where nothing was told.
    pub fn of(alloc: Global, told: &[Told]) -> Result<Outcomes, AllocError>
        ensures all { IfOk result (λ o. o ≡ outcomes_of told.now) }
        ensures none { told.now ≡ [] → IsOk result }
    {
        let mut outcomes = Vec::with_capacity(alloc, told.len())?;
        for one in told {
            let outcome = Outcome::of(alloc, one)?;
            outcomes.push(outcome)?;
        }
        Ok(Outcomes::new(outcomes))
    }

    /// The outcomes, to be looked at.
    pub fn as_slice(&self) -> &[Outcome]
        ensures { result.now ≡ self.now }
    {
        self.items.as_slice()
    }
}
