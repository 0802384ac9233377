//! Readers of the steps of a life and of its ending.
ghost use Rattle.std.specs.Prelude.{◌≡◌, IfOk, IfErr, All};
ghost use Rattle.flight.specs.Spelling.{outcome_text, outcomes_text, each_text, step_text, ending_text};
ghost use Rattle.flight.specs.Ranges.{IsOutcome, AreOutcomes, IsStep, IsEnding};
ghost use Rattle.flight.specs.Courses.{course_text, IsCourse, IsNoOutcome};
ghost use Rattle.flight.specs.Reading.{Spells, SpellsOnly, SpellsOnlyTo, IsUnread, IsUnreadTo};

use crate::flight::Version;
use crate::life::{Ending, Step};
use crate::outcome::{Outcome, Outcomes};
use crate::packets::read_made;
use crate::parts::{
    after, begins, past, read_block, read_client, read_number, read_request_number,
};
use fault::Refusal;
use model::member::Member;
use std::alloc::Global;

fn read_outcome(alloc: Global, text: &str) -> Result<(Outcome, &str), Refusal>
    ensures ok { IfOk result (λ p. Spells IsOutcome outcome_text text.now p.0 p.1.now) }
    ensures only { IfOk result (λ p. SpellsOnly IsOutcome outcome_text text.now p.0 p.1.now) }
    ensures err { IfErr result (IsUnread IsOutcome outcome_text text.now) }
{
    let rest = past(text, "outcome ")?;
    let (index, rest) = read_number(rest, ' ')?;
    let (client, rest) = read_client(rest)?;
    let (number, rest) = read_request_number(rest, '\n')?;
    let rest = past(rest, "text ")?;
    let (words, rest) = read_block(alloc, rest)?;
    let outcome = Outcome {
        index: index as usize,
        client,
        number,
        text: words,
    };
    Ok((outcome, rest))
}

/// The outcomes that stand here, all of them. 50 where one is begun that is none, and `NoMemory`.
pub fn read_each_outcome(alloc: Global, text: &str) -> Result<(Vec<Outcome>, &str), Refusal>
    ensures ok { IfOk result (λ p. Spells (All IsOutcome) (each_text outcome_text) text.now p.0.items p.1.now) }
    ensures only { IfOk result (λ p. SpellsOnlyTo (All IsOutcome) (each_text outcome_text) IsNoOutcome text.now p.0.items p.1.now) }
    ensures err { IfErr result (IsUnreadTo (All IsOutcome) (each_text outcome_text) IsNoOutcome text.now) }
{
    let mut outcomes = Vec::new(alloc);
    let mut rest = text;
    while begins(rest, "outcome ") {
        let (outcome, left) = read_outcome(alloc, rest)?;
        outcomes.push(outcome)?;
        rest = left;
    }
    Ok((outcomes, rest))
}

// The outcomes of a step, of which version 1 has none.
fn read_outcomes(alloc: Global, version: Version, text: &str) -> Result<(Outcomes, &str), Refusal>
    ensures ok { IfOk result (λ p. Spells (AreOutcomes version) (outcomes_text version) text.now p.0 p.1.now) }
    ensures only { IfOk result (λ p. SpellsOnlyTo (AreOutcomes version) (outcomes_text version) IsNoOutcome text.now p.0 p.1.now) }
    ensures err { IfErr result (IsUnreadTo (AreOutcomes version) (outcomes_text version) IsNoOutcome text.now) }
{
    match version {
        Version::One => Ok((Outcomes::none(alloc), text)),
        Version::Two | Version::Three => {
            let (outcomes, rest) = read_each_outcome(alloc, text)?;
            Ok((Outcomes::new(outcomes), rest))
        }
    }
}

// A step with its outcomes, which end where another word stands.
fn read_step(
    alloc: Global,
    version: Version,
    node: Member,
    text: &str,
) -> Result<(Step, &str), Refusal>
    ensures ok { IfOk result (λ p. Spells (IsStep version node) (step_text version) text.now p.0 p.1.now) }
    ensures only { IfOk result (λ p. SpellsOnlyTo (IsStep version node) (step_text version) IsNoOutcome text.now p.0 p.1.now) }
    ensures err { IfErr result (IsUnreadTo (IsStep version node) (step_text version) IsNoOutcome text.now) }
{
    let rest = past(text, "step ")?;
    let (step, rest) = read_made(alloc, version, node, rest)?;
    let (outcomes, rest) = read_outcomes(alloc, version, rest)?;
    Ok((step.with_outcomes(outcomes), rest))
}

fn read_ending(
    alloc: Global,
    version: Version,
    node: Member,
    text: &str,
) -> Result<(Ending, &str), Refusal>
    ensures ok { IfOk result (λ p. Spells (IsEnding version node) (ending_text version) text.now p.0 p.1.now) }
    ensures only { IfOk result (λ p. SpellsOnly (IsEnding version node) (ending_text version) text.now p.0 p.1.now) }
    ensures err { IfErr result (IsUnread (IsEnding version node) (ending_text version) text.now) }
{
    if let Some(rest) = after(text, "up\n") {
        return Ok((Ending::Up, rest));
    }
    if let Some(rest) = after(text, "stopped\n") {
        return Ok((Ending::Stopped, rest));
    }
    let rest = past(text, "torn ")?;
    let (step, rest) = read_made(alloc, version, node, rest)?;
    Ok((Ending::Torn(step), rest))
}

/// The steps of a life of this node, in this version of the file, and its ending. What is none of these is refused 50; want of
/// memory is 43.
pub fn read_course(
    alloc: Global,
    version: Version,
    node: Member,
    text: &str,
) -> Result<(Vec<Step>, Ending, &str), Refusal>
    ensures ok { IfOk result (λ p. Spells (IsCourse version node) (course_text version) text.now (p.0.items, p.1) p.2.now) }
    ensures only { IfOk result (λ p. SpellsOnly (IsCourse version node) (course_text version) text.now (p.0.items, p.1) p.2.now) }
    ensures err { IfErr result (IsUnread (IsCourse version node) (course_text version) text.now) }
{
    let mut steps = Vec::new(alloc);
    let mut rest = text;
    while begins(rest, "step ") {
        let (step, left) = read_step(alloc, version, node, rest)?;
        steps.push(step)?;
        rest = left;
    }
    let (ending, rest) = read_ending(alloc, version, node, rest)?;
    Ok((steps, ending, rest))
}
