//! The second member of three, which follows a leader and then another.
ghost use Rattle.sqlread.specs.Meaning.{language_of};

use crate::found::number_of;
use crate::states::{FLOOR, LINES, Line, STEPS};
use fault::Text;
use keep::{Keeper, LogReader};
use model::entry::{Entries, Entry, Request};
use model::member::Member;
use model::message::{Body, Input, Message};
use model::request::{Client, RequestNumber};
use model::stamp::Stamp;
use node::{Fault, Node, Work};
use schema::Schema;
use std::alloc::{AllocError, Global};

// What a step answers.
#[derive(Clone, Copy)]
enum Answer {
    Done,
    /// A refusal that changed nothing, with its number.
    Kept(u8),
    /// The member goes down, with this number.
    Down(u8),
}

/// How a run ended.
#[derive(Clone, Copy, Debug)]
pub(crate) enum Ended {
    /// All steps were done.
    Whole,
    /// The member did not start, and tells this number.
    Unstarted(u8),
    /// At the step after so many, the member went down with this number. It takes nothing any more.
    Down { steps: usize, number: u8 },
    /// The step after so many could not be made or was refused, or the member went on after it went down.
    Odd { steps: usize },
}

// The request of a line, none of a Close.
fn request_of(alloc: Global, line: &Line) -> Result<Option<Request>, AllocError> {
    let Some(client) = Client::new(line.client) else {
        return Ok(None);
    };
    let Some(number) = RequestNumber::new(line.number) else {
        return Ok(None);
    };
    let text = Text::new(alloc, line.text)?;
    Ok(Some(Request {
        client,
        number,
        text,
    }))
}

// The entry of a line.
fn entry_of(alloc: Global, line: &Line) -> Result<Entry, AllocError> {
    let request = request_of(alloc, line)?;
    Ok(Entry {
        term: line.term,
        stamp: Stamp::new(line.stamp.min(1000)),
        request,
    })
}

// The entries of some lines.
fn entries_of(alloc: Global, lines: &[Line]) -> Result<Entries, AllocError> {
    let mut entries = Vec::new(alloc);
    for line in lines {
        entries.push(entry_of(alloc, line)?)?;
    }
    Ok(Entries::new(entries))
}

// A message to the member.
fn delivered(sender: Member, term: u64, body: Body) -> Work {
    let message = Message {
        sender,
        addressee: 2,
        term,
        body,
    };
    Work::Delivered {
        reading: 100,
        message,
    }
}

// The first member asks for a vote.
fn ask_for_vote() -> Work {
    let body = Body::RequestVote {
        last_index: 0,
        last_term: 0,
    };
    delivered(1, 1, body)
}

// A leader sends what comes after so many entries.
fn append(
    alloc: Global,
    leader: Member,
    term: u64,
    prev_index: usize,
    lines: &[Line],
) -> Result<Work, AllocError> {
    let prev_term = if prev_index == 0 { 0 } else { 1 };
    let body = Body::Append {
        prev_index,
        prev_term,
        entries: entries_of(alloc, lines)?,
        commit: 0,
    };
    Ok(delivered(leader, term, body))
}

// The second leader asks for a floor.
fn ask_for_floor() -> Work {
    let body = Body::Seek {
        index: 3,
        floor: Stamp::new(FLOOR),
    };
    delivered(3, 2, body)
}

// What is brought to the member after so many steps: a vote is asked for, one entry, two, another in place of the last of
// these, and a floor is asked for.
fn work_after(alloc: Global, steps: usize) -> Result<Work, AllocError> {
    match steps {
        0 => Ok(ask_for_vote()),
        1 => append(alloc, 1, 1, 0, &LINES[0..1]),
        2 => append(alloc, 1, 1, 1, &LINES[1..3]),
        3 => append(alloc, 3, 2, 2, &LINES[3..4]),
        _ => Ok(ask_for_floor()),
    }
}

// Takes a step.
fn take<K: Keeper>(member: &mut Node<K>, work: Work) -> Answer {
    match member.step(work) {
        Ok(_) => Answer::Done,
        Err(Fault::Kept(refusal)) => Answer::Kept(refusal.number()),
        Err(Fault::Down(error)) => Answer::Down(number_of(error)),
    }
}

// Whether it takes nothing any more, and its store failed once.
fn is_down<K: Keeper>(member: &mut Node<K>) -> bool {
    let failures = member.keeper.failures();
    failures == 1 && matches!(take(member, Work::Local(Input::Beat)), Answer::Kept(41))
}

// Takes the step after so many, and tells how the run ended where it was not done.
fn take_after<K: Keeper>(alloc: Global, member: &mut Node<K>, steps: usize) -> Option<Ended> {
    let Ok(work) = work_after(alloc, steps) else {
        return Some(Ended::Odd { steps });
    };
    match take(member, work) {
        Answer::Done => None,
        Answer::Down(number) if is_down(member) => Some(Ended::Down { steps, number }),
        _ => Some(Ended::Odd { steps }),
    }
}

// Takes the steps after the first so many, until one is not done.
fn take_all<K: Keeper>(alloc: Global, member: &mut Node<K>, before: usize) -> Ended {
    for steps in before..STEPS {
        if let Some(ended) = take_after(alloc, member, steps) {
            return ended;
        }
    }
    Ended::Whole
}

// Starts the member over what an image holds. An error gives the image back.
fn start<K: Keeper>(
    alloc: Global,
    image: K::Image,
    schema: &Schema,
) -> Result<Node<K>, (u8, K::Image)>
    requires { K.suits image 3 (language_of schema.now) }
{
    let Ok(schema) = schema.clone() else {
        return Err((43, image));
    };
    match Node::start(alloc, image, schema, 3, 2) {
        Ok(member) => Ok(member),
        Err((error, image)) => Err((number_of(error), image)),
    }
}

/// Starts the member over what an image holds and takes the steps after the first so many, as far as that goes. The
/// image that it leaves.
pub(crate) fn run<K: Keeper>(
    alloc: Global,
    image: K::Image,
    schema: &Schema,
    before: usize,
) -> (Ended, K::Image)
    requires { K.suits image 3 (language_of schema.now) }
{
    let started: Result<Node<K>, (u8, K::Image)> = start(alloc, image, schema);
    match started {
        Ok(mut member) => {
            let ended = take_all(alloc, &mut member, before);
            (ended, member.stop())
        }
        Err((number, image)) => (Ended::Unstarted(number), image),
    }
}
