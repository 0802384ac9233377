//! Writing the lines of a journal.
ghost use Rattle.std.specs.Prelude.{◌≡◌, OnOk, string_bytes};
ghost use Rattle.flight.specs.Additions.{Adds};
ghost use Rattle.flight.specs.Spelling.{each_text};
ghost use Rattle.journal.specs.Spelling.{line_text, summary_text, stored_text, taken_text, said_text};

use crate::line::{Line, Taken};
use crate::pieces::{floor_number, put_each_outcome, put_request};
use crate::stored::Summary;
use fault::Text;
use model::member::Member;
use std::alloc::{AllocError, Global};

// A summary, up to the end of its line.
fn put_summary(alloc: Global, stored: &Summary, text: &mut String) -> Result<(), AllocError>
    ensures { OnOk result (Adds (string_bytes text.old) (string_bytes text.new) (summary_text stored.now)) }
{
    let term = stored.hard.term;
    let vote = match stored.hard.vote {
        None => 0,
        Some(member) => member,
    };
    let floor = floor_number(stored.hard.floor);
    let length = stored.length;
    let digest = hex::encode(alloc, stored.digest.as_slice())?;
    write!(text, "{term} {vote} {floor} {length} {digest}\n")
}

// A word, a member and what it has stored.
fn put_stored(
    alloc: Global,
    word: &str,
    member: Member,
    stored: &Summary,
    text: &mut String,
) -> Result<(), AllocError>
    ensures { OnOk result (Adds (string_bytes text.old) (string_bytes text.new) (stored_text word.now member stored.now)) }
{
    write!(text, "{word}{member} ")?;
    put_summary(alloc, stored, text)
}

fn put_taken(taken: &Taken, text: &mut String) -> Result<(), AllocError>
    ensures { OnOk result (Adds (string_bytes text.old) (string_bytes text.new) (taken_text taken.now)) }
{
    match taken {
        Taken::Timeout => text.push_str("timeout\n"),
        Taken::Beat => text.push_str("beat\n"),
        Taken::Close => text.push_str("close\n"),
        Taken::Floor => text.push_str("floor\n"),
        Taken::Submit(request) => {
            text.push_str("submit ")?;
            put_request(request, text)
        }
        Taken::Message(number) => write!(text, "message {number}\n"),
    }
}

// A block of text after its word.
fn put_said(word: &str, said: &Text, text: &mut String) -> Result<(), AllocError>
    ensures { OnOk result (Adds (string_bytes text.old) (string_bytes text.new) (said_text word.now said.now)) }
{
    let said = said.as_str();
    let length = said.len();
    write!(text, "{word}{length}\n{said}\n")
}

/// Adds a line to the text: its one spelling. The error is want of memory, and a part of it may stand there then.
pub fn put_line(alloc: Global, line: &Line, text: &mut String) -> Result<(), AllocError>
    ensures { OnOk result (Adds (string_bytes text.old) (string_bytes text.new) (line_text line.now)) }
{
    match line {
        Line::Opens {
            journal,
            sum,
            marks,
        } => write!(text, "opens {journal} {sum} {marks}\n"),
        Line::Rests { member, stored } => put_stored(alloc, "rests ", *member, stored, text),
        Line::Life { member, stored } => put_stored(alloc, "life ", *member, stored, text),
        Line::Clock { reading } => write!(text, "clock {reading}\n"),
        Line::Takes { member, taken } => {
            write!(text, "takes {member} ")?;
            put_taken(taken, text)
        }
        Line::Saves { member, stored } => put_stored(alloc, "saves ", *member, stored, text),
        Line::Made { member, outcomes } => {
            write!(text, "made {member}\n")?;
            put_each_outcome(outcomes.as_slice(), text)
        }
        Line::Ends { member } => write!(text, "ends {member}\n"),
        Line::Answer {
            member,
            query,
            answer,
        } => {
            write!(text, "answer {member}\n")?;
            put_said("query ", query, text)?;
            put_said("text ", answer, text)
        }
        Line::Printed {
            client,
            number,
            words,
        } => {
            let client = client.get();
            let number = number.get();
            write!(text, "printed {client} {number}\n")?;
            put_said("text ", words, text)
        }
    }
}

/// Adds lines to the text, in their order. The error is want of memory, and a part of them may stand there then.
pub fn put_lines(alloc: Global, lines: &[Line], text: &mut String) -> Result<(), AllocError>
    ensures { OnOk result (Adds (string_bytes text.old) (string_bytes text.new) (each_text line_text lines.now)) }
{
    for line in lines {
        put_line(alloc, line, text)?;
    }
    Ok(())
}
