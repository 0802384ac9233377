//! What a node did at a moment, in words.
use crate::deeds::{life_of, step_of};
use crate::stuck::Evidence;
use flight::life::{Life, Packet};
use model::message::{Body, Input, Message};
use moments::{Deed, Moment};
use std::alloc::{AllocError, Global};

fn entries_word(count: usize) -> &'static str {
    if count == 1 { "entry" } else { "entries" }
}

// What a message is, in a few words.
fn message_words(alloc: Global, message: &Message) -> Result<String, AllocError> {
    match &message.body {
        Body::RequestVote { .. } => String::from_str(alloc, "votereq"),
        Body::Vote { .. } => String::from_str(alloc, "vote"),
        Body::Append { entries, .. } => {
            let term = message.term;
            let count = entries.as_slice().len();
            let word = entries_word(count);
            format!(in alloc; "append of term {term}, {count} {word}")
        }
        Body::Reply { ok, matched } => {
            let word = if *ok { "yes" } else { "no" };
            format!(in alloc; "reply {word} {matched}")
        }
        Body::Seek { .. } => String::from_str(alloc, "seek"),
        Body::Stored { .. } => String::from_str(alloc, "stored"),
        Body::Seal { .. } => String::from_str(alloc, "seal"),
    }
}

fn input_words(alloc: Global, input: &Input) -> Result<String, AllocError> {
    match input {
        Input::Timeout => String::from_str(alloc, "timeout"),
        Input::Beat => String::from_str(alloc, "beat"),
        Input::Close { .. } => String::from_str(alloc, "close"),
        Input::Floor { .. } => String::from_str(alloc, "floor"),
        Input::Submit { request, .. } => {
            let client = request.client.get();
            let number = request.number.get();
            format!(in alloc; "submit {client} {number}")
        }
    }
}

fn packet_words(alloc: Global, packet: &Packet) -> Result<String, AllocError> {
    match packet {
        Packet::Local(input) => input_words(alloc, input),
        Packet::Delivered { mark, message, .. } => {
            let words = message_words(alloc, message)?;
            let sender = message.sender;
            let mark = mark.number();
            format!(in alloc; "{words}, sent by node {sender} at {mark}")
        }
    }
}

fn life_words(alloc: Global, life: &Life) -> Result<String, AllocError> {
    let count = life.opening.entries.len();
    let word = entries_word(count);
    let term = life.opening.hard.term;
    format!(in alloc; "starts with {count} {word} of term {term}")
}

/// What a node did at a moment, in words; no words where it is not there. The error is want of memory.
pub(crate) fn deed_words(
    alloc: Global,
    evidence: &Evidence<'_>,
    moment: &Moment,
) -> Result<String, AllocError> {
    match (
        moment.deed,
        life_of(evidence, moment),
        step_of(evidence, moment),
    ) {
        (Deed::Opens { .. }, Some(life), _) => life_words(alloc, life),
        (Deed::Takes { .. }, _, Some(step)) => packet_words(alloc, &step.packet),
        (Deed::Tears { .. }, _, Some(step)) => {
            let words = packet_words(alloc, &step.packet)?;
            format!(in alloc; "{words}, cut short")
        }
        _ => Ok(String::new(alloc)),
    }
}
