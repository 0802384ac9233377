//! The text of a flight file.
ghost use Rattle.std.specs.Prelude.{◌≡◌, IfOk, OnOk, map, codes, ◌++◌, string_bytes};
ghost use Rattle.flight.specs.Contents.{in_opening, in_life, in_flight};
ghost use Rattle.flight.specs.Spelling.{spaced, ended, block_text, request_text, entry_text, entries_text, each_text, flag_number, floor_number, ballot_text, body_text, packet_text, made_text, outcome_text, outcomes_text, step_text, ending_text, opening_floor_text, opening_text, life_text, answer_text, version_number, version_text, flight_text};
ghost use Rattle.flight.specs.Additions.{Adds};

use crate::flight::{Answered, Flight, Version};
use crate::life::{Ending, Life, Opening, Packet, Step};
use crate::outcome::Outcome;
use model::entry::{Entry, Request};
use model::message::{Body, Input};
use model::stamp::Stamp;
use std::alloc::{AllocError, Global};

fn put_request(request: &Request, text: &mut String) -> Result<(), AllocError>
    ensures { OnOk result (Adds (string_bytes text.old) (string_bytes text.new) (request_text request.now)) }
{
    let client = request.client.get();
    let number = request.number.get();
    let asked = request.text.as_str();
    let length = asked.len();
    write!(text, "{client} {number} {length}\n{asked}\n")
}

fn put_entry(entry: &Entry, text: &mut String) -> Result<(), AllocError>
    ensures { OnOk result (Adds (string_bytes text.old) (string_bytes text.new) (entry_text entry.now)) }
{
    let term = entry.term;
    let stamp = entry.stamp.micros();
    write!(text, "entry {term} {stamp} ")?;
    match &entry.request {
        None => text.push_str("close\n"),
        Some(request) => put_request(request, text),
    }
}

fn put_each_entry(entries: &[Entry], text: &mut String) -> Result<(), AllocError>
    ensures { OnOk result (Adds (string_bytes text.old) (string_bytes text.new) (each_text entry_text entries.now)) }
{
    for entry in entries {
        put_entry(entry, text)?;
    }
    Ok(())
}

// How many entries, and then these entries.
fn put_entries(entries: &[Entry], text: &mut String) -> Result<(), AllocError>
    ensures { OnOk result (Adds (string_bytes text.old) (string_bytes text.new) (entries_text entries.now)) }
{
    let count = entries.len();
    write!(text, "{count}\n")?;
    put_each_entry(entries, text)
}

fn flag_number(flag: bool) -> u8
    ensures { result ≡ flag_number flag }
{
    if flag { 1 } else { 0 }
}

// The number that a floor is spelled with.
fn floor_number(floor: Option<Stamp>) -> i64
    ensures { result ≡ floor_number floor }
{
    match floor {
        None => -1,
        Some(floor) => floor.micros() as i64,
    }
}

// Whether a vote is given, and the voter's floor, which versions 1 and 2 leave out.
fn put_ballot(
    version: Version,
    given: bool,
    floor: Option<Stamp>,
    text: &mut String,
) -> Result<(), AllocError>
    ensures { OnOk result (Adds (string_bytes text.old) (string_bytes text.new) (ballot_text version given floor)) }
{
    let given = flag_number(given);
    match version {
        Version::One | Version::Two => write!(text, "{given}\n"),
        Version::Three => {
            let floor = floor_number(floor);
            write!(text, "{given} {floor}\n")
        }
    }
}

// A message of this term by which a floor is stored and sealed, after this word.
fn put_sealing(
    word: &str,
    term: u64,
    index: usize,
    floor: Stamp,
    text: &mut String,
) -> Result<(), AllocError>
    ensures { OnOk result (Adds (string_bytes text.old) (string_bytes text.new) (λ rest. word.now ++ spaced term (spaced index (ended floor rest)))) }
{
    let floor = floor.micros();
    write!(text, "{word}{term} {index} {floor}\n")
}

// A message of this term.
fn put_body(version: Version, term: u64, body: &Body, text: &mut String) -> Result<(), AllocError>
    ensures { OnOk result (Adds (string_bytes text.old) (string_bytes text.new) (body_text version term body.now)) }
{
    match body {
        Body::RequestVote {
            last_index,
            last_term,
        } => write!(text, "votereq {term} {last_index} {last_term}\n"),
        Body::Vote { given, floor } => {
            write!(text, "vote {term} ")?;
            put_ballot(version, *given, *floor, text)
        }
        Body::Append {
            prev_index,
            prev_term,
            entries,
            commit,
        } => {
            write!(text, "append {term} {prev_index} {prev_term} {commit} ")?;
            put_entries(entries.as_slice(), text)
        }
        Body::Reply { ok, matched } => {
            let ok = flag_number(*ok);
            write!(text, "reply {term} {ok} {matched}\n")
        }
        Body::Seek { index, floor } => put_sealing("seek ", term, *index, *floor, text),
        Body::Stored { index, floor } => put_sealing("stored ", term, *index, *floor, text),
        Body::Seal { index, floor } => put_sealing("seal ", term, *index, *floor, text),
    }
}

fn put_packet(version: Version, packet: &Packet, text: &mut String) -> Result<(), AllocError>
    ensures { OnOk result (Adds (string_bytes text.old) (string_bytes text.new) (packet_text version packet.now)) }
{
    match packet {
        Packet::Local(Input::Timeout) => text.push_str("timeout\n"),
        Packet::Local(Input::Beat) => text.push_str("beat\n"),
        Packet::Local(Input::Close { .. }) => text.push_str("close\n"),
        Packet::Local(Input::Floor { .. }) => text.push_str("floor\n"),
        Packet::Local(Input::Submit { request, .. }) => {
            text.push_str("submit ")?;
            put_request(request, text)
        }
        Packet::Delivered { mark, message, .. } => {
            let sender = message.sender;
            let mark = mark.number();
            write!(text, "from {sender} {mark} ")?;
            put_body(version, message.term, &message.body, text)
        }
    }
}

// A step after its word, without its outcomes.
fn put_made(version: Version, step: &Step, text: &mut String) -> Result<(), AllocError>
    ensures { OnOk result (Adds (string_bytes text.old) (string_bytes text.new) (made_text version step.now)) }
{
    let mark = step.mark.number();
    let reading = step.reading;
    write!(text, "{mark} {reading} ")?;
    put_packet(version, &step.packet, text)
}

fn put_outcome(outcome: &Outcome, text: &mut String) -> Result<(), AllocError>
    ensures { OnOk result (Adds (string_bytes text.old) (string_bytes text.new) (outcome_text outcome.now)) }
{
    let index = outcome.index;
    let client = outcome.client.get();
    let number = outcome.number.get();
    let words = outcome.text.as_str();
    let length = words.len();
    write!(
        text,
        "outcome {index} {client} {number}\ntext {length}\n{words}\n"
    )
}

fn put_each_outcome(outcomes: &[Outcome], text: &mut String) -> Result<(), AllocError>
    ensures { OnOk result (Adds (string_bytes text.old) (string_bytes text.new) (each_text outcome_text outcomes.now)) }
{
    for outcome in outcomes {
        put_outcome(outcome, text)?;
    }
    Ok(())
}

// The outcomes of a step, which version 1 leaves out.
fn put_outcomes(version: Version, outcomes: &[Outcome], text: &mut String) -> Result<(), AllocError>
    ensures { OnOk result (Adds (string_bytes text.old) (string_bytes text.new) (outcomes_text version outcomes.now)) }
{
    match version {
        Version::One => Ok(()),
        Version::Two | Version::Three => put_each_outcome(outcomes, text),
    }
}

fn put_step(version: Version, step: &Step, text: &mut String) -> Result<(), AllocError>
    ensures { OnOk result (Adds (string_bytes text.old) (string_bytes text.new) (step_text version step.now)) }
{
    text.push_str("step ")?;
    put_made(version, step, text)?;
    put_outcomes(version, step.outcomes.as_slice(), text)
}

fn put_steps(version: Version, steps: &[Step], text: &mut String) -> Result<(), AllocError>
    ensures { OnOk result (Adds (string_bytes text.old) (string_bytes text.new) (each_text (step_text version) steps.now)) }
{
    for step in steps {
        put_step(version, step, text)?;
    }
    Ok(())
}

fn put_ending(version: Version, ending: &Ending, text: &mut String) -> Result<(), AllocError>
    ensures { OnOk result (Adds (string_bytes text.old) (string_bytes text.new) (ending_text version ending.now)) }
{
    match ending {
        Ending::Up => text.push_str("up\n"),
        Ending::Stopped => text.push_str("stopped\n"),
        Ending::Torn(step) => {
            text.push_str("torn ")?;
            put_made(version, step, text)
        }
    }
}

// The floor of a life's opening, which versions 1 and 2 leave out.
fn put_opening_floor(
    version: Version,
    floor: Option<Stamp>,
    text: &mut String,
) -> Result<(), AllocError>
    ensures { OnOk result (Adds (string_bytes text.old) (string_bytes text.new) (opening_floor_text version floor)) }
{
    match version {
        Version::One | Version::Two => Ok(()),
        Version::Three => {
            let floor = floor_number(floor);
            write!(text, "{floor} ")
        }
    }
}

fn put_opening(version: Version, opening: &Opening, text: &mut String) -> Result<(), AllocError>
    ensures { OnOk result (Adds (string_bytes text.old) (string_bytes text.new) (opening_text version (in_opening opening.now))) }
{
    let mark = opening.mark.number();
    let term = opening.hard.term;
    let vote = match opening.hard.vote {
        None => 0,
        Some(member) => member,
    };
    write!(text, "life {mark} {term} {vote} ")?;
    put_opening_floor(version, opening.hard.floor, text)?;
    put_entries(&opening.entries, text)
}

fn put_life(version: Version, life: &Life, text: &mut String) -> Result<(), AllocError>
    ensures { OnOk result (Adds (string_bytes text.old) (string_bytes text.new) (life_text version (in_life life.now))) }
{
    put_opening(version, &life.opening, text)?;
    put_steps(version, &life.steps, text)?;
    put_ending(version, &life.ending, text)
}

fn put_lives(version: Version, lives: &[Life], text: &mut String) -> Result<(), AllocError>
    ensures { OnOk result (Adds (string_bytes text.old) (string_bytes text.new) (each_text (life_text version) (map in_life lives.now))) }
{
    for life in lives {
        put_life(version, life, text)?;
    }
    Ok(())
}

fn put_answer(recorded: &Answered, text: &mut String) -> Result<(), AllocError>
    ensures { OnOk result (Adds (string_bytes text.old) (string_bytes text.new) (answer_text recorded.now)) }
{
    let mark = recorded.mark.number();
    let query = recorded.query.as_str();
    let query_length = query.len();
    write!(text, "answer {mark}\nquery {query_length}\n{query}\n")?;
    let answer = recorded.answer.as_str();
    let answer_length = answer.len();
    write!(text, "text {answer_length}\n{answer}\n")
}

/// Puts answers behind a text. Want of memory leaves a part of them there.
pub fn put_answers(answers: &[Answered], text: &mut String) -> Result<(), AllocError>
    ensures { OnOk result (Adds (string_bytes text.old) (string_bytes text.new) (each_text answer_text answers.now)) }
{
    for answer in answers {
        put_answer(answer, text)?;
    }
    Ok(())
}

fn version_number(version: Version) -> u8
    ensures { result ≡ version_number version }
{
    match version {
        Version::One => 1,
        Version::Two => 2,
        Version::Three => 3,
    }
}

// The line that names the version.
fn put_version(version: Version, text: &mut String) -> Result<(), AllocError>
    ensures { OnOk result (Adds (string_bytes text.old) (string_bytes text.new) (version_text version)) }
{
    let number = version_number(version);
    write!(text, "bitable flight {number}\n")
}

// The line that names the node and its group.
fn put_group(flight: &Flight, text: &mut String) -> Result<(), AllocError>
    ensures { OnOk result (Adds (string_bytes text.old) (string_bytes text.new) (λ rest. codes "node " ++ spaced flight.now.node (codes "of " ++ ended flight.now.members rest))) }
{
    let node = flight.node;
    let members = flight.members;
    write!(text, "node {node} of {members}\n")
}

fn put_schema(flight: &Flight, text: &mut String) -> Result<(), AllocError>
    ensures { OnOk result (Adds (string_bytes text.old) (string_bytes text.new) (λ rest. codes "schema " ++ block_text flight.now.schema rest)) }
{
    let schema = flight.schema.as_str();
    let length = schema.len();
    write!(text, "schema {length}\n{schema}\n")
}

/// The text of a flight's file: of one that can be read, its one spelling. The error is want of memory.
pub fn text_of_flight(alloc: Global, flight: &Flight) -> Result<String, AllocError>
    ensures { IfOk result (λ text. string_bytes text ≡ flight_text (in_flight flight.now)) }
{
    let mut text = String::new(alloc);
    put_version(flight.version, &mut text)?;
    put_group(flight, &mut text)?;
    put_schema(flight, &mut text)?;
    put_lives(flight.version, &flight.lives, &mut text)?;
    put_answers(&flight.answers, &mut text)?;
    text.push_str("end\n")?;
    Ok(text)
}
