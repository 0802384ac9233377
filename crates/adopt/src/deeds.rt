//! The lines that tell what a member does at a moment.
ghost use Rattle.std.specs.Prelude.{◌≡◌, ◌++◌, OnOk, Some, None, MatchOption, slice_get};
ghost use Rattle.std.specs.Option.{option_copied};
ghost use Rattle.flight.specs.Lives.{shown};
ghost use Rattle.moments.specs.Behind.{life_at, step_at};
ghost use Rattle.journal.specs.declared.line.Line.TheVariants.{Rests, Saves, Life as Begins};
ghost use Rattle.adopt.specs.Lines.{line_of, down_lines, begun_lines, step_lines, cut_lines, left_lines, answer_lines, deed_lines, noted_by};

use crate::told::{first_told, noted_with};
use flight::life::{Ending, Life, Packet, Step};
use flight::outcome::Outcomes;
use journal::{Line, Summary, Taken};
use model::member::Member;
use model::message::Input;
use moments::{Deed, Recorded};
use std::alloc::{AllocError, Global};

/// What is seen of a member at a moment.
#[derive(Drop)]
pub(crate) struct Sight {
    /// What it takes.
    pub taken: Option<Taken>,
    /// What it has stored before.
    pub before: Option<Summary>,
    /// What it has stored after.
    pub after: Option<Summary>,
    /// What it has stored if it is then started.
    pub started: Option<Summary>,
}

// The life of a node at this place, counted from 0.
fn life_of(lives: &[Vec<Life>], node: Member, place: usize) -> Option<&Life>
    ensures { MatchOption result (life_at lives.now node place ≡ None) (λ life. life_at lives.now node place ≡ Some life.now) }
{
    match lives.get(node.checked_sub(1)?) {
        Some(own) => own.get(place),
        None => None,
    }
}

fn step_of(lives: &[Vec<Life>], node: Member, life: usize, step: usize) -> Option<&Step>
    ensures { MatchOption result (step_at lives.now node life step ≡ None) (λ s. step_at lives.now node life step ≡ Some s.now) }
{
    match life_of(lives, node, life) {
        Some(life) => life.steps.get(step),
        None => None,
    }
}

// The answer at this place, counted from 0.
fn answer_at(answers: &[Recorded], place: usize) -> Option<&Recorded>
    ensures { MatchOption result (slice_get answers.now place ≡ None) (λ a. slice_get answers.now place ≡ Some a.now) }
{
    answers.get(place)
}

// What the clock shows as a step begins.
fn reading_of(step: &Step) -> i64
    ensures { result ≡ shown step.now.reading step.now.packet }
{
    match &step.packet {
        Packet::Local(Input::Timeout) => step.reading,
        Packet::Local(Input::Beat) => step.reading,
        Packet::Local(Input::Close { reading }) => *reading,
        Packet::Local(Input::Floor { reading }) => *reading,
        Packet::Local(Input::Submit { reading, .. }) => *reading,
        Packet::Delivered { reading, .. } => *reading,
    }
}

fn put_life(
    lines: &mut Vec<Line>,
    member: Member,
    stored: Option<Summary>,
) -> Result<(), AllocError>
    ensures { OnOk result (lines.new.items ≡ lines.old.items ++ line_of (Begins member) stored) }
{
    if let Some(stored) = stored {
        lines.push(Line::Life { member, stored })?;
    }
    Ok(())
}

fn put_rest(
    lines: &mut Vec<Line>,
    member: Member,
    stored: Option<Summary>,
) -> Result<(), AllocError>
    ensures { OnOk result (lines.new.items ≡ lines.old.items ++ line_of (Rests member) stored) }
{
    if let Some(stored) = stored {
        lines.push(Line::Rests { member, stored })?;
    }
    Ok(())
}

fn put_save(
    lines: &mut Vec<Line>,
    member: Member,
    stored: Option<Summary>,
) -> Result<(), AllocError>
    ensures { OnOk result (lines.new.items ≡ lines.old.items ++ line_of (Saves member) stored) }
{
    if let Some(stored) = stored {
        lines.push(Line::Saves { member, stored })?;
    }
    Ok(())
}

/// Adds the lines by which a member that has this stored is stopped; none of one that is down. The error is want of memory.
pub(crate) fn put_down(
    lines: &mut Vec<Line>,
    member: Member,
    stored: Option<Summary>,
) -> Result<(), AllocError>
    ensures { OnOk result (lines.new.items ≡ lines.old.items ++ down_lines member stored) }
{
    if let Some(stored) = stored {
        lines.push(Line::Ends { member })?;
        lines.push(Line::Rests { member, stored })?;
    }
    Ok(())
}

fn put_begun(
    lines: &mut Vec<Line>,
    member: Member,
    step: &Step,
    taken: Option<Taken>,
) -> Result<(), AllocError>
    ensures { OnOk result (lines.new.items ≡ lines.old.items ++ begun_lines member step.now taken) }
{
    if let Some(taken) = taken {
        lines.push(Line::Clock {
            reading: reading_of(step),
        })?;
        lines.push(Line::Takes { member, taken })?;
    }
    Ok(())
}

fn put_step(
    alloc: Global,
    lines: &mut Vec<Line>,
    member: Member,
    noted: usize,
    step: &Step,
    taken: Option<Taken>,
) -> Result<(), AllocError>
    ensures { OnOk result (lines.new.items ≡ lines.old.items ++ step_lines member noted taken (Some step.now)) }
{
    let first = first_told(alloc, noted, step.outcomes.as_slice())?;
    put_begun(lines, member, step, taken)?;
    lines.push(Line::Made {
        member,
        outcomes: Outcomes::new(first),
    })?;
    Ok(())
}

// What follows a step that was cut short.
fn put_left(
    lines: &mut Vec<Line>,
    member: Member,
    before: Option<Summary>,
    next: Option<&Life>,
    started: Option<Summary>,
) -> Result<(), AllocError>
    ensures { OnOk result (lines.new.items ≡ lines.old.items ++ left_lines member before (option_copied next.entry) started) }
{
    put_rest(lines, member, before)?;
    match next {
        Some(_) => Ok(()),
        None => put_save(lines, member, started),
    }
}

fn put_torn(
    lines: &mut Vec<Line>,
    member: Member,
    ending: &Ending,
    next: Option<&Life>,
    sight: Sight,
) -> Result<(), AllocError>
    ensures { OnOk result (lines.new.items ≡ lines.old.items ++ cut_lines member sight.taken (left_lines member sight.before (option_copied next.entry) sight.started) ending.now) }
{
    let Ending::Torn(step) = ending else {
        return Ok(());
    };
    put_begun(lines, member, step, sight.taken)?;
    put_left(lines, member, sight.before, next, sight.started)
}

fn put_answer(lines: &mut Vec<Line>, member: Member, answer: &Recorded) -> Result<(), AllocError>
    ensures { OnOk result (lines.new.items ≡ lines.old.items ++ answer_lines member (Some answer.now)) }
{
    lines.push(Line::Answer {
        member,
        query: answer.query.clone()?,
        answer: answer.answer.clone()?,
    })?;
    Ok(())
}

/// Adds the lines that tell what a member does at a moment, of which this is seen, where outcomes are told up to this entry. The error
/// is want of memory.
pub(crate) fn put_deed(
    alloc: Global,
    lines: &mut Vec<Line>,
    lives: &[Vec<Life>],
    answers: &[Recorded],
    noted: usize,
    node: Member,
    deed: Deed,
    sight: Sight,
) -> Result<(), AllocError>
    ensures { OnOk result (lines.new.items ≡ lines.old.items ++ deed_lines lives.now answers.now noted node deed sight) }
{
    match deed {
        Deed::Opens { .. } => put_life(lines, node, sight.after),
        Deed::Takes { life, step } => match step_of(lives, node, life, step) {
            Some(step) => put_step(alloc, lines, node, noted, step, sight.taken),
            None => Ok(()),
        },
        Deed::Tears { life } => match life_of(lives, node, life) {
            Some(found) => {
                let next = life_of(lives, node, life + 1);
                put_torn(lines, node, &found.ending, next, sight)
            }
            None => Ok(()),
        },
        Deed::Answers { answer } => match answer_at(answers, answer) {
            Some(answer) => put_answer(lines, node, answer),
            None => Ok(()),
        },
        Deed::Stops { .. } => put_down(lines, node, sight.before),
    }
}

/// Up to which entry outcomes are told after a moment.
pub(crate) fn noted_by(lives: &[Vec<Life>], noted: usize, node: Member, deed: Deed) -> usize
    ensures { result ≡ noted_by lives.now noted node deed }
{
    match deed {
        Deed::Takes { life, step } => match step_of(lives, node, life, step) {
            Some(step) => noted_with(noted, step.outcomes.as_slice()),
            None => noted,
        },
        _ => noted,
    }
}
