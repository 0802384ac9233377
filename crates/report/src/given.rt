//! What the run has where a record differs from it.
ghost use Rattle.std.specs.Prelude.{◌≤◌, length};

use crate::spelled::{opening_text, outcomes_text, packet_text};
use crate::stuck::{Evidence, Stuck};
use answertext::Lines;
use flight::life::Packet;
use flight::outcome::Outcome;
use keep::hard_state::HardState;
use model::entry::Entry;
use model::mark::Mark;
use model::member::Member;
use model::message::{Body, Message};
use std::alloc::{AllocError, Global};
use world::event::Event;
use world::history::World;
use world::output::Output;

/// A message, with the mark at which it was sent.
#[derive(Drop)]
pub(crate) struct Sent {
    mark: Mark,
    message: Message,
}

/// The run up to where a record differs from it.
#[derive(Drop)]
pub(crate) struct Run {
    pub world: World,
    sent: Vec<Sent>,
}

// Adds the messages among outputs.
fn add_sent(outputs: Vec<Output>, mark: Mark, sent: &mut Vec<Sent>) -> Result<(), AllocError> {
    for output in outputs {
        if let Output::Sent(_, message) = output {
            sent.push(Sent { mark, message })?;
        }
    }
    Ok(())
}

/// The run of the moments that it has. The error is want of memory.
pub(crate) fn run_to(
    alloc: Global,
    evidence: &Evidence<'_>,
    stuck: &Stuck,
) -> Result<Run, AllocError>
    requires least { 3 ≤ length evidence.now.lives.now }
    requires most { length evidence.now.lives.now ≤ 7 }
{
    let mut world = World::new(alloc, evidence.lives.len(), evidence.schema.clone()?)?;
    let mut sent = Vec::new(alloc);
    for (event, mark) in stuck.events.iter().zip(stuck.marks.as_slice()) {
        let outputs = world.step(event)?;
        add_sent(outputs, *mark, &mut sent)?;
    }
    Ok(Run { world, sent })
}

// The answer's lines, or the line of a refusal, among outputs.
fn answer_in(alloc: Global, outputs: &[Output]) -> Result<String, AllocError> {
    match outputs.first() {
        Some(Output::Answered(_, answer)) => format!(in alloc; "{}", Lines(answer)),
        Some(Output::Refused(_, refusal)) => format!(in alloc; "{refusal}"),
        _ => Ok(String::new(alloc)),
    }
}

// The outcomes among outputs.
fn told_in(alloc: Global, outputs: &[Output]) -> Result<Vec<Outcome>, AllocError> {
    let mut told = Vec::new(alloc);
    for output in outputs {
        if let Output::Applied(_, one) = output {
            told.push(Outcome::of(alloc, one)?)?;
        }
    }
    Ok(told)
}

/// The text of what the run answers, as the event of the next moment asks. The error is want of memory.
pub(crate) fn given_answer(
    alloc: Global,
    run: &mut Run,
    event: &Event,
) -> Result<String, AllocError> {
    let outputs = run.world.step(event)?;
    answer_in(alloc, outputs.as_slice())
}

/// The text of the outcomes that the run tells in the event of the next moment. The error is want of memory.
pub(crate) fn given_outcomes(
    alloc: Global,
    run: &mut Run,
    event: &Event,
) -> Result<String, AllocError> {
    let outputs = run.world.step(event)?;
    let told = told_in(alloc, outputs.as_slice())?;
    outcomes_text(alloc, told.as_slice())
}

fn is_same_kind(one: &Body, other: &Body) -> bool {
    matches!(
        (one, other),
        (Body::RequestVote { .. }, Body::RequestVote { .. })
            | (Body::Vote { .. }, Body::Vote { .. })
            | (Body::Append { .. }, Body::Append { .. })
            | (Body::Reply { .. }, Body::Reply { .. })
            | (Body::Seek { .. }, Body::Seek { .. })
            | (Body::Stored { .. }, Body::Stored { .. })
            | (Body::Seal { .. }, Body::Seal { .. })
    )
}

// The message that its sender sent to the node at this mark: of several the first of the same kind.
fn sent_then<'a>(run: &'a Run, node: Member, mark: Mark, message: &Message) -> Option<&'a Message> {
    let mut first = None;
    for sent in &run.sent {
        let is_there = sent.mark == mark
            && sent.message.sender == message.sender
            && sent.message.addressee == node;
        if is_there && is_same_kind(&sent.message.body, &message.body) {
            return Some(&sent.message);
        }
        if is_there && first.is_none() {
            first = Some(&sent.message);
        }
    }
    first
}

/// The text of the message that a sender sent to the node where the packet says that it sent that one; none where it sent
/// none. The error is want of memory.
pub(crate) fn given_message(
    alloc: Global,
    evidence: &Evidence<'_>,
    run: &Run,
    node: Member,
    packet: &Packet,
) -> Result<Option<String>, AllocError> {
    let Packet::Delivered {
        mark,
        reading,
        message,
    } = packet
    else {
        return Ok(None);
    };
    match sent_then(run, node, *mark, message) {
        Some(sent) => {
            let packet = Packet::Delivered {
                mark: *mark,
                reading: *reading,
                message: sent.clone()?,
            };
            Ok(Some(packet_text(alloc, evidence.version, packet)?))
        }
        None => Ok(None),
    }
}

// The log of a member that is up.
fn log_of(
    alloc: Global,
    world: &mut World,
    member: Member,
    length: usize,
) -> Result<Vec<Entry>, AllocError> {
    let mut log = Vec::new(alloc);
    for place in 0..length {
        let Some(index) = place.checked_add(1) else {
            break;
        };
        if let Some(entry) = world.entry(member, index)? {
            log.push(entry)?;
        }
    }
    Ok(log)
}

/// The text of what a node has stored as it starts at this mark; none where it is up in the run. The error is want of memory.
pub(crate) fn given_opening(
    alloc: Global,
    evidence: &Evidence<'_>,
    run: &mut Run,
    node: Member,
    life: usize,
    mark: Mark,
) -> Result<Option<String>, AllocError> {
    let blank = HardState {
        term: 0,
        vote: None,
        floor: None,
    };
    if life == 0 {
        let text = opening_text(alloc, evidence.version, mark, blank, Vec::new(alloc))?;
        return Ok(Some(text));
    }
    if run.world.commit(node).is_some() {
        return Ok(None);
    }
    run.world.step(&Event::Start(node))?;
    let Some(stored) = run.world.durable(node)? else {
        return Ok(None);
    };
    let log = log_of(alloc, &mut run.world, node, stored.length)?;
    let text = opening_text(alloc, evidence.version, mark, stored.hard, log)?;
    Ok(Some(text))
}
