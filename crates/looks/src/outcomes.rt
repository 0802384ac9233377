//! Outcomes, refusals and messages as JSON.
ghost use Rattle.std.specs.Prelude.{◌≡◌, ◌++◌, ◌∷◌, [], codes, length, IfOk, IfSome, Some};
ghost use Rattle.json.specs.Token.{key, boolean};
ghost use Rattle.fault.specs.Refusal.{shown, text_of};
ghost use Rattle.looks.specs.Objects.{Adds, line_of};
ghost use Rattle.looks.specs.Outcomes.{answered_tokens, append_tokens, body_tokens, counts, floor_token, floor_tokens, outcome_tokens, outcome_of_tokens, refusal_tokens, refused_tokens, request_tokens, says, sent_tokens, told_tokens};

use crate::objects::{end_line, put_instant, put_number, put_string};
use fault::Refusal;
use json::Writer;
use model::entry::{Entries, Told};
use model::member::Member;
use model::message::{Body, Message};
use model::request::{Client, RequestNumber};
use model::stamp::Stamp;
use std::alloc::{AllocError, Global};

/// What a node tells of a request, as one JSON object on a line. The error is want of memory.
pub fn told_as_json(alloc: Global, node: Member, told: &Told) -> Result<Vec<u8>, AllocError>
    ensures { IfOk result (λ text. text.items ≡ line_of (told_tokens node told.now)) }
{
    let mut writer = Writer::new(Vec::new(alloc));
    put_told(alloc, node, told, &mut writer)?;
    end_line(writer)
}

/// What came of a request, as one JSON object on a line; it is unanswered where there is no outcome. The error is want of
/// memory.
pub fn outcome_as_json(
    alloc: Global,
    client: Client,
    number: RequestNumber,
    outcome: &Option<Result<Stamp, Refusal>>,
) -> Result<Vec<u8>, AllocError>
    ensures { IfOk result (λ text. text.items ≡ line_of (outcome_of_tokens client number outcome.now)) }
{
    let mut writer = Writer::new(Vec::new(alloc));
    put_outcome_of(alloc, client, number, outcome, &mut writer)?;
    end_line(writer)
}

/// That a node refuses an input or a question, as one JSON object on a line. The error is want of memory.
pub fn refused_as_json(
    alloc: Global,
    node: Member,
    refusal: &Refusal,
) -> Result<Vec<u8>, AllocError>
    ensures { IfOk result (λ text. text.items ≡ line_of (refused_tokens node refusal.now)) }
{
    let mut writer = Writer::new(Vec::new(alloc));
    put_refused(alloc, node, refusal, &mut writer)?;
    end_line(writer)
}

/// The message that was sent as the so many-th, as one JSON object on a line. The error is want of memory.
pub fn sent_as_json(alloc: Global, place: usize, message: &Message) -> Result<Vec<u8>, AllocError>
    ensures { IfOk result (λ text. text.items ≡ line_of (sent_tokens place message.now)) }
{
    let mut writer = Writer::new(Vec::new(alloc));
    put_sent(place, message, &mut writer)?;
    end_line(writer)
}

#[tactic(auto, unfolding(crate::specs::Outcomes::told_tokens))]
fn put_told(alloc: Global, node: Member, told: &Told, writer: &mut Writer) -> Result<(), AllocError>
    ensures { Adds result writer.old writer.new (told_tokens node told.now) }
{
    writer.begin_object()?;
    put_number("node", node as u64, writer)?;
    put_number("entry", told.index as u64, writer)?;
    put_request(told.client, told.number, writer)?;
    put_outcome(alloc, &told.outcome, writer)?;
    writer.end_object()
}

#[tactic(auto, unfolding(crate::specs::Outcomes::outcome_of_tokens))]
fn put_outcome_of(
    alloc: Global,
    client: Client,
    number: RequestNumber,
    outcome: &Option<Result<Stamp, Refusal>>,
    writer: &mut Writer,
) -> Result<(), AllocError>
    ensures { Adds result writer.old writer.new (outcome_of_tokens client number outcome.now) }
{
    writer.begin_object()?;
    put_request(client, number, writer)?;
    put_answered(alloc, outcome, writer)?;
    writer.end_object()
}

#[tactic(auto, unfolding(crate::specs::Outcomes::refused_tokens))]
fn put_refused(
    alloc: Global,
    node: Member,
    refusal: &Refusal,
    writer: &mut Writer,
) -> Result<(), AllocError>
    ensures { Adds result writer.old writer.new (refused_tokens node refusal.now) }
{
    writer.begin_object()?;
    put_number("node", node as u64, writer)?;
    put_refusal(alloc, refusal, writer)?;
    writer.end_object()
}

fn put_request(client: Client, number: RequestNumber, writer: &mut Writer) -> Result<(), AllocError>
    ensures { Adds result writer.old writer.new (request_tokens client number) }
{
    let client = client.get();
    let request = number.get();
    put_number("client", client as u64, writer)?;
    put_number("request", request, writer)
}

fn put_answered(
    alloc: Global,
    outcome: &Option<Result<Stamp, Refusal>>,
    writer: &mut Writer,
) -> Result<(), AllocError>
    ensures { Adds result writer.old writer.new (answered_tokens outcome.now) }
{
    match outcome {
        Some(outcome) => put_outcome(alloc, outcome, writer),
        None => put_truth("unanswered", true, writer),
    }
}

fn put_outcome(
    alloc: Global,
    outcome: &Result<Stamp, Refusal>,
    writer: &mut Writer,
) -> Result<(), AllocError>
    ensures { Adds result writer.old writer.new (outcome_tokens outcome.now) }
{
    match outcome {
        Ok(stamp) => put_instant(alloc, "accepted", *stamp, writer),
        Err(refusal) => put_refusal(alloc, refusal, writer),
    }
}

// The number of a refusal, and its text.
fn put_refusal(alloc: Global, refusal: &Refusal, writer: &mut Writer) -> Result<(), AllocError>
    ensures { Adds result writer.old writer.new (refusal_tokens refusal.now) }
{
    put_number("refused", refusal.number() as u64, writer)?;
    writer.key("text")?;
    let text = refusal.to_string(alloc)?;
    writer.string(without_number(refusal, text.as_str()))
}

fn put_truth(name: &str, is_true: bool, writer: &mut Writer) -> Result<(), AllocError>
    ensures { Adds result writer.old writer.new (key name.now ∷ boolean is_true ∷ []) }
{
    writer.key(name)?;
    writer.boolean(is_true)
}

#[tactic(auto, unfolding(crate::specs::Outcomes::sent_tokens))]
fn put_sent(place: usize, message: &Message, writer: &mut Writer) -> Result<(), AllocError>
    ensures { Adds result writer.old writer.new (sent_tokens place message.now) }
{
    writer.begin_object()?;
    put_number("sent", place as u64, writer)?;
    put_number("from", message.sender as u64, writer)?;
    put_number("to", message.addressee as u64, writer)?;
    put_body(message.term, &message.body, writer)?;
    writer.end_object()
}

// A message of the term.
fn put_body(term: u64, body: &Body, writer: &mut Writer) -> Result<(), AllocError>
    ensures { Adds result writer.old writer.new (body_tokens term body.now) }
{
    match body {
        Body::RequestVote {
            last_index,
            last_term,
        } => put_vote_request(term, *last_index, *last_term, writer),
        Body::Vote { given, floor } => put_vote(term, *given, *floor, writer),
        Body::Append {
            prev_index,
            prev_term,
            entries,
            commit,
        } => put_append(term, (*prev_index, *prev_term), *commit, entries, writer),
        Body::Reply { ok, matched } => put_reply(term, *ok, *matched, writer),
        Body::Seek { index, floor } => put_floor("seek", term, *index, *floor, writer),
        Body::Stored { index, floor } => put_floor("stored", term, *index, *floor, writer),
        Body::Seal { index, floor } => put_floor("seal", term, *index, *floor, writer),
    }
}

fn put_kind(kind: &str, term: u64, writer: &mut Writer) -> Result<(), AllocError>
    ensures { Adds result writer.old writer.new (says (codes "kind") kind.now ++ counts (codes "term") term) }
{
    writer.key("kind")?;
    writer.string(kind)?;
    put_number("term", term, writer)
}

fn put_vote_request(
    term: u64,
    last_index: usize,
    last_term: u64,
    writer: &mut Writer,
) -> Result<(), AllocError>
    ensures { Adds result writer.old writer.new (body_tokens term (Body.RequestVote last_index last_term)) }
{
    put_kind("votereq", term, writer)?;
    put_number("last_index", last_index as u64, writer)?;
    put_number("last_term", last_term, writer)
}

fn put_vote(
    term: u64,
    given: bool,
    floor: Option<Stamp>,
    writer: &mut Writer,
) -> Result<(), AllocError>
    ensures { Adds result writer.old writer.new (body_tokens term (Body.Vote given floor)) }
{
    put_kind("vote", term, writer)?;
    put_truth("given", given, writer)?;
    put_voter_floor(floor, writer)
}

fn put_voter_floor(floor: Option<Stamp>, writer: &mut Writer) -> Result<(), AllocError>
    ensures { Adds result writer.old writer.new (key (codes "floor") ∷ floor_token floor ∷ []) }
{
    writer.key("floor")?;
    match floor {
        Some(floor) => writer.u64(floor.micros()),
        None => writer.null(),
    }
}

fn count_of(entries: &Entries) -> usize
    ensures { result ≡ length entries.now }
{
    entries.as_slice().len()
}

fn put_append(
    term: u64,
    prev: (usize, u64),
    commit: usize,
    entries: &Entries,
    writer: &mut Writer,
) -> Result<(), AllocError>
    ensures { Adds result writer.old writer.new (append_tokens term prev.0 prev.1 commit (length entries.now)) }
{
    put_kind("append", term, writer)?;
    put_number("prev_index", prev.0 as u64, writer)?;
    put_number("prev_term", prev.1, writer)?;
    put_number("commit", commit as u64, writer)?;
    let count = count_of(entries);
    put_number("entries", count as u64, writer)
}

fn put_reply(term: u64, ok: bool, matched: usize, writer: &mut Writer) -> Result<(), AllocError>
    ensures { Adds result writer.old writer.new (body_tokens term (Body.Reply ok matched)) }
{
    put_kind("reply", term, writer)?;
    put_truth("ok", ok, writer)?;
    put_number("matched", matched as u64, writer)
}

fn put_floor(
    kind: &str,
    term: u64,
    index: usize,
    floor: Stamp,
    writer: &mut Writer,
) -> Result<(), AllocError>
    ensures { Adds result writer.old writer.new (floor_tokens kind.now term index floor) }
{
    put_kind(kind, term, writer)?;
    let micros = floor.micros();
    put_number("index", index as u64, writer)?;
    put_number("floor", micros, writer)
}

// The text of a refusal, which stands behind its number and a blank.
fn without_number<'a>(refusal: &Refusal, whole: &'a str) -> &'a str
    requires { whole.now ≡ shown refusal.now }
    ensures { result.now ≡ text_of refusal.now }
{
    match whole.split_once(' ') {
        Some((_, text)) => text,
        None => whole,
    }
}
