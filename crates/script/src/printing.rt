//! What the outputs of a group print.
ghost use Rattle.std.specs.Prelude.{◌≡◌, ◌++◌, ◌∷◌, [], Some};
ghost use Rattle.std.specs.Fmt.{WritesOnOk};
ghost use Rattle.script.specs.Printing.{yes_or_no as word_of, floor_or_none, floor_text, body_text, sent_text, node_text, told_text, output_text};

use answertext::Lines;
use model::entry::Told;
use model::member::Member;
use model::message::{Body, Message};
use model::stamp::Stamp;
use std::fmt;
use world::output::Output;

/// An output as its lines, each of which ends with LF.
#[derive(Clone, Copy)]
pub struct Printed<'a>(pub &'a Output);

impl fmt::Display for Printed<'_> {
    ghost output = { λ printed. Some (output_text printed.0.now) };

    fn fmt<W: fmt::Write>(&self, f: &mut fmt::Formatter<W>) -> fmt::Result {
        match self.0 {
            Output::Sent(number, message) => write_sent(*number, message, f),
            Output::Applied(node, told) => write_told(*node, told, f),
            Output::Refused(node, refusal) => write!(f, "node {node} refused {refusal}\n"),
            Output::Answered(node, answer) => {
                let lines = Lines(answer);
                write!(f, "node {node} answer\n{lines}")
            }
        }
    }
}

fn write_sent<W: fmt::Write>(
    number: usize,
    message: &Message,
    f: &mut fmt::Formatter<W>,
) -> fmt::Result
    ensures { WritesOnOk W.write_str_gives f.old result (sent_text number message.now) f.new }
{
    let sender = message.sender;
    let addressee = message.addressee;
    write!(f, "sent {number} {sender}->{addressee} ")?;
    write_body(message.term, &message.body, f)
}

// A message of the term, to the end of the line.
fn write_body<W: fmt::Write>(term: u64, body: &Body, f: &mut fmt::Formatter<W>) -> fmt::Result
    ensures { WritesOnOk W.write_str_gives f.old result (body_text term body.now) f.new }
{
    match body {
        Body::RequestVote {
            last_index,
            last_term,
        } => write!(f, "votereq term {term} last {last_index} {last_term}\n"),
        Body::Vote { given, floor } => {
            let given = yes_or_no(*given);
            write!(f, "vote term {term} {given} floor ")?;
            write_floor_or_none(*floor, f)
        }
        Body::Append {
            prev_index,
            prev_term,
            entries,
            commit,
        } => {
            let count = entries.as_slice().len();
            write!(f, "append term {term} prev {prev_index} {prev_term} ")?;
            write!(f, "commit {commit} entries {count}\n")
        }
        Body::Reply { ok, matched } => {
            let ok = yes_or_no(*ok);
            write!(f, "reply term {term} {ok} {matched}\n")
        }
        Body::Seek { index, floor } => write_floor("seek", term, *index, *floor, f),
        Body::Stored { index, floor } => write_floor("stored", term, *index, *floor, f),
        Body::Seal { index, floor } => write_floor("seal", term, *index, *floor, f),
    }
}

// A voter's floor, to the end of the line.
fn write_floor_or_none<W: fmt::Write>(
    floor: Option<Stamp>,
    f: &mut fmt::Formatter<W>,
) -> fmt::Result
    ensures { WritesOnOk W.write_str_gives f.old result (floor_or_none floor ++ 10 ∷ []) f.new }
{
    match floor {
        Some(floor) => {
            let micros = floor.micros();
            write!(f, "{micros}\n")
        }
        None => write!(f, "none\n"),
    }
}

// A message about a floor that is asked for, by its word, to the end of the line.
fn write_floor<W: fmt::Write>(
    word: &str,
    term: u64,
    index: usize,
    floor: Stamp,
    f: &mut fmt::Formatter<W>,
) -> fmt::Result
    ensures { WritesOnOk W.write_str_gives f.old result (floor_text word.now term index floor) f.new }
{
    let micros = floor.micros();
    write!(f, "{word} term {term} index {index} floor {micros}\n")
}

fn yes_or_no(yes: bool) -> &'static str
    ensures { result.now ≡ word_of yes }
{
    if yes { "yes" } else { "no" }
}

fn write_told<W: fmt::Write>(node: Member, told: &Told, f: &mut fmt::Formatter<W>) -> fmt::Result
    ensures { WritesOnOk W.write_str_gives f.old result (node_text node ++ told_text told.now) f.new }
{
    let index = told.index;
    let client = told.client.get();
    let number = told.number.get();
    write!(f, "node {node} entry {index} request {client} {number} ")?;
    match &told.outcome {
        Ok(stamp) => {
            let instant = stamp.instant();
            write!(f, "accepted {instant}\n")
        }
        Err(refusal) => write!(f, "refused {refusal}\n"),
    }
}
