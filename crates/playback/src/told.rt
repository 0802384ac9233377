//! The outcomes that may be given out of requests.
ghost use Rattle.std.specs.Prelude.{◌≡◌, true, Any, IfOk, string_bytes};
ghost use Rattle.flight.specs.Telling.{told_text};
ghost use Rattle.playback.specs.Words.{word_of, IsOf, IsSaid};

use fault::Refusal;
use flight::outcome::Outcome;
use model::entry::Told;
use model::request::{Client, RequestNumber};
use model::stamp::Stamp;
use std::alloc::{AllocError, Global};

/// An outcome whose words may be given out of a request.
#[derive(Drop)]
pub(crate) struct Word {
    pub client: Client,
    pub number: RequestNumber,
    pub outcome: Result<Stamp, Refusal>,
}

impl Word {
    /// That of what a member tells.
    pub fn of(told: &Told) -> Result<Word, AllocError>
        ensures { IfOk result (λ word. word ≡ word_of told.now) }
    {
        let outcome = match &told.outcome {
            Ok(stamp) => Ok(*stamp),
            Err(refusal) => Err(refusal.clone()?),
        };
        Ok(Word {
            client: told.client,
            number: told.number,
            outcome,
        })
    }
}

// Whether two outcomes are the same.
fn is_same(one: &Outcome, other: &Outcome) -> bool
    ensures { result ≡ true → one.now ≡ other.now }
{
    one.index == other.index
        && one.client == other.client
        && one.number == other.number
        && one.text.as_str() == other.text.as_str()
}

/// Whether these are the same, one by one.
pub(crate) fn are_same(some: &[Outcome], others: &[Outcome]) -> bool
    ensures { result ≡ true → some.now ≡ others.now }
{
    if some.len() != others.len() {
        return false;
    }
    for (at, one) in some.iter().enumerate() {
        match others.get(at) {
            Some(other) if is_same(one, other) => {}
            _ => return false,
        }
    }
    true
}

// The words that an outcome is given out with.
fn words_of(alloc: Global, outcome: &Result<Stamp, Refusal>) -> Result<String, AllocError>
    ensures { IfOk result (λ text. string_bytes text ≡ told_text outcome.now) }
{
    match outcome {
        Ok(stamp) => {
            let instant = stamp.instant();
            format!(in alloc; "accepted {instant}")
        }
        Err(refusal) => format!(in alloc; "refused {refusal}"),
    }
}

// Whether these words are those of one of the outcomes that may be given out of a request.
fn is_said(
    alloc: Global,
    said: &[Word],
    client: Client,
    number: RequestNumber,
    words: &str,
) -> Result<bool, AllocError>
    ensures { IfOk result (λ is. is ≡ true → Any (IsOf client number words.now) said.now) }
{
    for word in said {
        if word.client == client && word.number == number {
            let own = words_of(alloc, &word.outcome)?;
            if own.as_str() == words {
                return Ok(true);
            }
        }
    }
    Ok(false)
}

/// Whether these words may be given out of a request: that nothing is known of it, or one of these outcomes.
pub(crate) fn is_given_out(
    alloc: Global,
    said: &[Word],
    client: Client,
    number: RequestNumber,
    words: &str,
) -> Result<bool, AllocError>
    ensures { IfOk result (λ is. is ≡ true → IsSaid said.now client number words.now) }
{
    if words == "unanswered" {
        return Ok(true);
    }
    is_said(alloc, said, client, number, words)
}
