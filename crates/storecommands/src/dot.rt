//! Lines that begin with a full stop.
ghost use Rattle.std.specs.Prelude.{◌≡◌, ◌≢◌, ◌<◌, ◌≤◌, ◌^◌, ℕ, codes, decimal, IfSome, IfNone};
ghost use Rattle.lines.specs.Line.{IsRequest, request_text};
ghost use Rattle.lines.specs.Reading.{IsNoRequest};
ghost use Rattle.storecommands.specs.Dot.{IsInRange, IsNoDotCommand, dot_text, form_text};

use crate::words::{after, read_member, split_word};
use lines::number::{read_number, read_signed};
use model::member::Member;
use model::request::{Client, RequestNumber};

/// How answers are shown.
#[derive(Clone, Copy, PartialEq, Eq, Debug)]
pub enum Form {
    Table,
    Lines,
    Csv,
    Json,
}

/// What a line that begins with a full stop asks for.
#[derive(Clone, Copy, PartialEq, Eq, Debug)]
pub enum DotCommand<'a> {
    /// How the members stand.
    Status,
    /// The tables as they were declared.
    Schema,
    /// The table of this name as it was declared.
    SchemaOf(&'a str),
    /// What can be typed.
    Help,
    /// To leave.
    Quit,
    /// That a member goes down.
    Stop(Member),
    /// That a member comes up.
    Start(Member),
    /// That clocks show this from here on, in microseconds since 1970.
    Clock(i64),
    /// That answers are shown so from here on.
    Format(Form),
    /// That a picture is drawn of what was ever believed, of the rows that this question asks for.
    Beliefs(&'a str),
    /// A request of a client, with its number and its text.
    Submit(Client, RequestNumber, &'a str),
}

/// The form of this name.
pub(crate) fn form_of(word: &str) -> Option<Form>
    ensures some { IfSome result (λ form. word.now ≡ form_text form) }
    ensures none { IfNone result ((form : _) → word.now ≢ form_text form) }
{
    match word {
        "table" => Some(Form::Table),
        "lines" => Some(Form::Lines),
        "csv" => Some(Form::Csv),
        "json" => Some(Form::Json),
        _ => None,
    }
}

fn read_client(word: &str) -> Option<Client>
    ensures range { IfSome result (λ n. (1 ≤ n) × (n < 2 ^ 16)) }
    ensures text { IfSome result (λ n. word.now ≡ decimal n) }
    ensures none { IfNone result ((n : ℕ) → 1 ≤ n → n < 2 ^ 16 → word.now ≢ decimal n) }
{
    let number = read_number(word)?;
    if number > 65_535 {
        return None;
    }
    let client = Client::new(number as u16)?;
    Some(client)
}

fn read_request_number(word: &str) -> Option<RequestNumber>
    ensures range { IfSome result (λ n. (1 ≤ n) × (n ≤ 2 ^ 62)) }
    ensures text { IfSome result (λ n. word.now ≡ decimal n) }
    ensures none { IfNone result ((n : ℕ) → 1 ≤ n → n ≤ 2 ^ 62 → word.now ≢ decimal n) }
{
    let number = RequestNumber::new(read_number(word)?)?;
    Some(number)
}

// A client, a number and the rest.
fn read_submit(rest: &str) -> Option<(Client, RequestNumber, &str)>
    ensures range { IfSome result (λ p. IsRequest p.0 p.1) }
    ensures text { IfSome result (λ p. rest.now ≡ request_text p.0 p.1 p.2.now) }
    ensures none { IfNone result (IsNoRequest rest.now) }
{
    let (client, rest) = split_word(rest)?;
    let (number, text) = split_word(rest)?;
    Some((read_client(client)?, read_request_number(number)?, text))
}

// A command that is a word alone.
fn read_alone(line: &str) -> Option<DotCommand<'_>>
    ensures some { IfSome result (λ command. IsInRange command × (line.now ≡ dot_text command)) }
    ensures none { IfNone result ((line.now ≢ codes ".status") × (line.now ≢ codes ".schema") × (line.now ≢ codes ".help") × (line.now ≢ codes ".quit")) }
{
    match line {
        ".status" => Some(DotCommand::Status),
        ".schema" => Some(DotCommand::Schema),
        ".help" => Some(DotCommand::Help),
        ".quit" => Some(DotCommand::Quit),
        _ => None,
    }
}

/// What a line asks for that begins with a full stop: the command of which it is the one spelling; none where it is that of none.
pub fn read_dot_command(line: &str) -> Option<DotCommand<'_>>
    ensures some { IfSome result (λ command. IsInRange command × (line.now ≡ dot_text command)) }
    ensures none { IfNone result (IsNoDotCommand line.now) }
{
    if let Some(command) = read_alone(line) {
        return Some(command);
    }
    if let Some(rest) = after(line, ".stop ") {
        return Some(DotCommand::Stop(read_member(rest)?));
    }
    if let Some(rest) = after(line, ".start ") {
        return Some(DotCommand::Start(read_member(rest)?));
    }
    if let Some(rest) = after(line, ".clock ") {
        return Some(DotCommand::Clock(read_signed(rest)?));
    }
    if let Some(rest) = after(line, ".format ") {
        return Some(DotCommand::Format(form_of(rest)?));
    }
    if let Some(rest) = after(line, ".schema ") {
        return Some(DotCommand::SchemaOf(rest));
    }
    if let Some(rest) = after(line, ".beliefs ") {
        return Some(DotCommand::Beliefs(rest));
    }
    let rest = after(line, ".submit ")?;
    match read_submit(rest) {
        Some((client, number, first)) => Some(DotCommand::Submit(client, number, first)),
        None => None,
    }
}
