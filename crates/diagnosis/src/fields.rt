//! What is wrong in a line of a script.
use crate::names::nearest_of;
use crate::walk::{Found, Spot, Stop, found_by, joined, wrong, wrong_as};
use fault::Refusal;
use lines::number::{read_number, read_signed};
use std::alloc::{AllocError, Global};

/// What a word of a line says.
#[derive(Clone, Copy)]
enum Field {
    Node,
    NodeOrAll,
    Client,
    Number,
    Reading,
    Message,
    MessageOrAll,
    Rounds,
    Left,
    Job,
    // all that is left of the line
    Text,
}

// The words with which lines begin.
const WORDS: [&str; 15] = [
    "clock", "submit", "timeout", "beat", "close", "floor", "deliver", "lose", "settle", "recover",
    "stop", "start", "torn", "ask", "schema",
];

// How the lines with this first word are written.
fn usage(word: &str) -> &'static str {
    match word {
        "clock" => "clock NODE MICROSECONDS, or clock all MICROSECONDS",
        "submit" => "submit NODE CLIENT NUMBER TEXT",
        "timeout" => "timeout NODE",
        "beat" => "beat NODE",
        "close" => "close NODE",
        "floor" => "floor NODE",
        "deliver" => "deliver MESSAGE",
        "lose" => "lose MESSAGE, or lose all",
        "settle" => "settle, or settle ROUNDS",
        "stop" => "stop NODE",
        "start" => "start NODE",
        "torn" => "torn NODE old EVENT, or torn NODE new EVENT",
        "ask" => "ask NODE TEXT",
        _ => "recover",
    }
}

// What the words behind a first word say, if a line has such a first word.
fn fields_of(word: &str) -> Option<&'static [Field]> {
    match word {
        "clock" => Some(&[Field::NodeOrAll, Field::Reading]),
        "submit" => Some(&[Field::Node, Field::Client, Field::Number, Field::Text]),
        "timeout" | "beat" | "close" | "floor" | "stop" | "start" => Some(&[Field::Node]),
        "deliver" => Some(&[Field::Message]),
        "lose" => Some(&[Field::MessageOrAll]),
        "settle" => Some(&[Field::Rounds]),
        "torn" => Some(&[Field::Node, Field::Left, Field::Job]),
        "ask" => Some(&[Field::Node, Field::Text]),
        "recover" => Some(&[]),
        _ => None,
    }
}

// What the words behind the event of a step that is cut short say, if there is such an event.
fn fields_of_job(word: &str) -> Option<&'static [Field]> {
    match word {
        "timeout" | "beat" | "close" | "floor" => Some(&[]),
        "submit" => Some(&[Field::Client, Field::Number, Field::Text]),
        "deliver" => Some(&[Field::Message]),
        _ => None,
    }
}

fn is_within(word: &str, least: u64, most: u64) -> bool {
    matches!(read_number(word), Some(number) if least <= number && number <= most)
}

// Whether a word says what it has to say here, in a group of so many members.
fn is_field(members: usize, field: Field, word: &str) -> bool {
    match field {
        Field::Node => is_within(word, 1, members as u64),
        Field::NodeOrAll => word == "all" || is_within(word, 1, members as u64),
        Field::Client => is_within(word, 1, 65_535),
        Field::Number => is_within(word, 1, 4_611_686_018_427_387_904),
        Field::Reading => read_signed(word).is_some(),
        Field::Message => read_number(word).is_some(),
        Field::MessageOrAll => word == "all" || read_number(word).is_some(),
        Field::Rounds => is_within(word, 1, 100),
        Field::Left => word == "old" || word == "new",
        Field::Job => fields_of_job(word).is_some(),
        Field::Text => true,
    }
}

// What can stand for a field.
fn hint_of(alloc: Global, members: usize, field: Field) -> Result<String, AllocError> {
    let told = match field {
        Field::Node => {
            return format!(in alloc; "the group has members 1 to {members}.");
        }
        Field::NodeOrAll => {
            return format!(in alloc;
                "the group has members 1 to {members}; all stands for each of them."
            );
        }
        Field::Client => "a client is a number from 1 to 65535.",
        Field::Number => "a request's number goes from 1 to 4611686018427387904.",
        Field::Reading =>
            "a clock shows microseconds since 1970: digits without leading zeros, maybe with a minus.",
        Field::Message => "a message is named by its number, in digits without leading zeros.",
        Field::MessageOrAll =>
            "a message is named by its number, in digits without leading zeros; all stands for each of them.",
        Field::Rounds => "settle takes 1 to 100 rounds.",
        Field::Left => "old or new stands here: what the step leaves in the node's store.",
        Field::Job | Field::Text =>
            "what can be cut short: timeout, beat, close, floor, submit CLIENT NUMBER TEXT or deliver MESSAGE.",
    };
    String::from_str(alloc, told)
}

// What is left of a line behind a space, from this byte on; none where no space comes any more.
#[derive(Clone, Copy)]
struct Rest<'a> {
    at: usize,
    text: Option<&'a str>,
}

impl<'a> Rest<'a> {
    // The next word, where it stands, and what is left behind it.
    fn word(self) -> Option<(&'a str, Spot, Rest<'a>)> {
        let text = self.text?;
        let (word, after) = match text.split_once(' ') {
            Some((word, after)) => (word, Some(after)),
            None => (text, None),
        };
        let spot = Spot {
            at: self.at,
            len: word.len(),
        };
        let rest = Rest {
            at: spot.end().saturating_add(1),
            text: after,
        };
        Some((word, spot, rest))
    }
}

// Looks at the words of a line that say these, and gives what is left of it, and its last word.
fn look_at_fields<'a>(
    alloc: Global,
    members: usize,
    line: &str,
    rest: Rest<'a>,
    fields: &[Field],
) -> Result<(Rest<'a>, &'a str), Stop> {
    let mut rest = rest;
    let mut last = "";
    for field in fields {
        let Some((word, spot, after)) = rest.word() else {
            return Err(lacking(alloc, line));
        };
        if matches!(field, Field::Text) {
            return Ok((
                Rest {
                    at: rest.at,
                    text: None,
                },
                "",
            ));
        }
        if !is_field(members, *field, word) {
            let hint = hint_of(alloc, members, *field);
            return Err(wrong(spot, Refusal::BadScript(0), hint));
        }
        rest = after;
        last = word;
    }
    Ok((rest, last))
}

// That a line ends too early.
fn lacking(alloc: Global, line: &str) -> Stop {
    let usage = usage(first_word(line));
    let pieces = ["something is missing here. The line is ", usage, "."];
    let spot = Spot {
        at: line.len(),
        len: 0,
    };
    wrong_as(alloc, spot, Refusal::BadScript(0), &pieces)
}

// Looks at whether a line ends here.
fn look_at_end(alloc: Global, line: &str, rest: Rest) -> Result<(), Stop> {
    let Some(text) = rest.text else {
        return Ok(());
    };
    let usage = usage(first_word(line));
    let pieces = ["nothing can follow here. The line is ", usage, "."];
    let spot = Spot {
        at: rest.at,
        len: text.len(),
    };
    Err(wrong_as(alloc, spot, Refusal::BadScript(0), &pieces))
}

fn first_word(line: &str) -> &str {
    match line.split_once(' ') {
        Some((word, _)) => word,
        None => line,
    }
}

fn begins_request(word: &str) -> bool {
    word.eq_ignore_ascii_case("INSERT")
        || word.eq_ignore_ascii_case("UPDATE")
        || word.eq_ignore_ascii_case("DELETE")
}

// What is said of a line that begins with no word of lines.
fn hint_of_word(alloc: Global, word: &str) -> Result<String, AllocError> {
    if word.eq_ignore_ascii_case("SELECT") {
        let question = ". A question is a line ask NODE TEXT.";
        return joined(alloc, &["no line begins with ", word, question]);
    }
    if begins_request(word) {
        let request = ". A request is a line submit NODE CLIENT NUMBER TEXT.";
        return joined(alloc, &["no line begins with ", word, request]);
    }
    nearest_of(alloc, word, &WORDS)?.told(alloc, &["no line begins with ", word, "."])
}

/// What is said of a line that ends with a carriage return.
pub(crate) const RETURN: &str =
    "the line ends with CR LF: save the file with LF alone at the ends of its lines.";

// Looks at a line that ends with a carriage return.
fn look_at_return(alloc: Global, line: &str) -> Result<(), Stop> {
    if !line.ends_with('\r') {
        return Ok(());
    }
    let spot = Spot {
        at: line.len().saturating_sub(1),
        len: 1,
    };
    Err(wrong_as(alloc, spot, Refusal::BadScript(0), &[RETURN]))
}

// Looks at the words of a line.
fn look_at_line(alloc: Global, members: usize, line: &str) -> Result<(), Stop> {
    look_at_return(alloc, line)?;
    let whole = Rest {
        at: 0,
        text: Some(line),
    };
    let Some((word, spot, rest)) = whole.word() else {
        return Ok(());
    };
    let Some(fields) = fields_of(word) else {
        let hint = hint_of_word(alloc, word);
        return Err(wrong(spot, Refusal::BadScript(0), hint));
    };
    let (rest, last) = look_at_fields(alloc, members, line, rest, fields)?;
    let job = if word == "torn" {
        fields_of_job(last)
    } else {
        None
    };
    let (rest, _) = look_at_fields(alloc, members, line, rest, job.unwrap_or(&[]))?;
    look_at_end(alloc, line, rest)
}

/// What is wrong first in a line that is none of a script of so many members.
pub(crate) fn found_in_line(
    alloc: Global,
    members: usize,
    line: &str,
) -> Result<Found, AllocError> {
    let found = found_by(look_at_line(alloc, members, line))?;
    Ok(match found {
        Some(found) => found,
        None => Found {
            spot: Spot {
                at: 0,
                len: line.len(),
            },
            refusal: Refusal::BadScript(0),
            hint: String::new(alloc),
        },
    })
}
