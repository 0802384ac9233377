//! Questions to the versions of tables.
ghost use Rattle.std.specs.Prelude.{◌≡◌, ◌⊎◌, Some, IfOk, IfErr, option_map, unwrap_or};
ghost use Rattle.fault.specs.declared.refusal.Refusal.TheVariants.{NoMemory, NotClosed};
ghost use Rattle.model.specs.Texts.{instant_text};
ghost use Rattle.model.specs.Answers.{as_of};
ghost use Rattle.sqlread.specs.Shapes.{query_of, time_of};
ghost use Rattle.answer.specs.Answers.{columns_in};
ghost use Rattle.sysversion.specs.Versions.{versions_of, schema_in};
ghost use Rattle.apply.specs.Asking.{IsAnswered, IsUnanswered};

use answer::Answer;
use asof::Ask;
use fault::{Refusal, Text};
use model::stamp::Stamp;
use sqlread::query::{Query, SystemTime};
use std::alloc::{AllocError, Global};
use sysversion::Versions;

// The text of an instant.
fn text_of(alloc: Global, at: Stamp) -> Result<Text, AllocError>
    ensures { IfOk result (λ text. text ≡ instant_text at) }
{
    let instant = at.instant();
    Text::from_string(format!(in alloc; "{instant}")?)
}

// The refusal of a question that is not closed at this time.
fn not_closed(alloc: Global, closed: Stamp) -> Refusal
    ensures { (result ≡ NoMemory) ⊎ (result ≡ NotClosed (Some (instant_text closed))) }
{
    match text_of(alloc, closed) {
        Ok(text) => Refusal::NotClosed(Some(text)),
        Err(_) => Refusal::NoMemory,
    }
}

// The question's system time; AS OF the instant where it has none.
fn time_or(query: &Query, at: Stamp) -> SystemTime
    ensures { time_of result ≡ unwrap_or (option_map time_of query.now.time) (as_of at) }
{
    match query.time {
        Some(time) => time,
        None => SystemTime::as_of(at),
    }
}

/// Answers a question from versions, at a closed time; one without system time is AS OF that.
///
/// `NotClosed` with the closed time where the question's last instant is later, or where there is none; `NoMemory`.
pub(crate) fn ask(
    alloc: Global,
    versions: &Versions,
    query: &Query,
    closed: Option<Stamp>,
) -> Result<Answer, Refusal>
    ensures ok { IfOk result (λ a. IsAnswered (query_of query.now) closed (versions_of versions.now query.now.table) a) }
    ensures columns { IfOk result (λ a. a.columns.items ≡ columns_in (schema_in versions.now) query.now.table) }
    ensures err { IfErr result (λ refusal. IsUnanswered (query_of query.now) closed refusal) }
{
    let Some(closed) = closed else {
        return Err(Refusal::NotClosed(None));
    };
    let time = time_or(query, closed);
    if time.last.micros() > closed.micros() {
        return Err(not_closed(alloc, closed));
    }
    versions.ask(alloc, query, time)
}
