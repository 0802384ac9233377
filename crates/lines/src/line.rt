//! The lines of scripts.
ghost use Rattle.std.specs.Prelude.{◌≡◌, ◌≢◌, ℕ, ◌≤◌, ◌<◌, ◌^◌, ◌∷◌, ◌++◌, codes, decimal, IfSome, IfNone, IfOk};
ghost use Rattle.lines.specs.Line.{line_text, left_text, job_text, request_text, IsInRange, IsJobInRange, IsRequest, IsNode, IsNoLine};
ghost use Rattle.lines.specs.Reading.{HasNoSpace, IsNoNode, IsNoRequest, IsNoJob, IsNoTorn, IsNoLong};

use crate::number::{read_number, read_signed};
use fault::Text;
use model::event::Left;
use model::member::Member;
use model::request::{Client, RequestNumber};
use std::alloc::{AllocError, Global};

/// What a step that is cut short was about.
#[derive(Debug, PartialEq, Drop)]
pub enum TornJob {
    Timeout,
    Beat,
    Close,
    Floor,
    Submit {
        client: Client,
        number: RequestNumber,
        text: Text,
    },
    Deliver {
        message: u64,
    },
}

/// What one line of a script says.
#[derive(Debug, PartialEq, Drop)]
pub enum Line {
    /// `clock N T`: the clock of a node shows a time from now on.
    Clock {
        node: Member,
        reading: i64,
    },
    /// `clock all T`: all clocks show it.
    ClockAll {
        reading: i64,
    },
    /// `submit N C K TEXT`: a client's request is submitted at a node.
    Submit {
        node: Member,
        client: Client,
        number: RequestNumber,
        text: Text,
    },
    /// `timeout N`: a node heard of no leader for some time.
    Timeout {
        node: Member,
    },
    /// `beat N`: a node is told to send its heartbeats.
    Beat {
        node: Member,
    },
    /// `close N`: a node is told to close the times so far.
    Close {
        node: Member,
    },
    /// `floor N`: a node is told to close them without an entry, by a floor that others store.
    Floor {
        node: Member,
    },
    /// `deliver M`: the message of this number is delivered.
    Deliver {
        message: u64,
    },
    /// `lose M`: the message of this number is lost, if it was sent.
    Lose {
        message: u64,
    },
    /// `lose all`: all messages that were sent so far are lost.
    LoseAll,
    /// `settle` or `settle R`: messages are delivered in rounds, 100 at most or as many as it names.
    Settle {
        rounds: Option<u8>,
    },
    /// `recover`: all nodes are brought to where one leads and all have applied its log.
    Recover,
    /// `stop N`: a node goes down, and keeps only what it has stored.
    Stop {
        node: Member,
    },
    /// `start N`: a node that is down comes up again.
    Start {
        node: Member,
    },
    /// `torn N old|new ..`: a step of a node is cut short, before or after its save.
    Torn {
        node: Member,
        left: Left,
        job: TornJob,
    },
    /// `ask N TEXT`: a node is asked a question.
    Ask {
        node: Member,
        text: Text,
    },
}

/// The line that a text spells in a script of so many members. None where it is the text of no line whose
/// numbers are in range.
pub fn read_line(alloc: Global, members: usize, text: &str) -> Result<Option<Line>, AllocError>
    ensures some { IfOk result (λ read. IfSome read (λ line. IsInRange members line × (text.now ≡ line_text line))) }
    ensures none { IfOk result (λ read. IfNone read (IsNoLine members text.now)) }
{
    let Some((word, rest)) = split_word(text) else {
        return Ok(match text {
            "settle" => Some(Line::Settle { rounds: None }),
            "recover" => Some(Line::Recover),
            _ => None,
        });
    };
    match word {
        "submit" => read_submit(alloc, members, rest),
        "torn" => read_torn(alloc, members, rest),
        "ask" => read_ask(alloc, members, rest),
        "clock" => Ok(read_clock(members, rest)),
        _ => Ok(read_short(members, word, rest)),
    }
}

// A first word, and what follows the space after it.
fn split_word(text: &str) -> Option<(&str, &str)>
    ensures parts { IfSome result (λ p. text.now ≡ p.0.now ++ 32 ∷ p.1.now) }
    ensures first { IfSome result (λ p. HasNoSpace p.0.now) }
    ensures none { IfNone result (HasNoSpace text.now) }
{
    text.split_once(' ')
}

// A line that names a node, a message or rounds and no more, from its first word and what follows
// the space after it.
fn read_short(members: usize, word: &str, rest: &str) -> Option<Line>
    requires first { HasNoSpace word.now }
    requires short { IsNoLong word.now }
    ensures some { IfSome result (λ line. IsInRange members line × (word.now ++ 32 ∷ rest.now ≡ line_text line)) }
    ensures none { IfNone result (IsNoLine members (word.now ++ 32 ∷ rest.now)) }
{
    match word {
        "timeout" => Some(Line::Timeout {
            node: read_node(members, rest)?,
        }),
        "beat" => Some(Line::Beat {
            node: read_node(members, rest)?,
        }),
        "close" => Some(Line::Close {
            node: read_node(members, rest)?,
        }),
        "floor" => Some(Line::Floor {
            node: read_node(members, rest)?,
        }),
        "stop" => Some(Line::Stop {
            node: read_node(members, rest)?,
        }),
        "start" => Some(Line::Start {
            node: read_node(members, rest)?,
        }),
        "deliver" => Some(Line::Deliver {
            message: read_number(rest)?,
        }),
        "lose" if rest == "all" => Some(Line::LoseAll),
        "lose" => Some(Line::Lose {
            message: read_number(rest)?,
        }),
        "settle" => Some(Line::Settle {
            rounds: Some(read_rounds(rest)?),
        }),
        _ => None,
    }
}

fn read_clock(members: usize, rest: &str) -> Option<Line>
    ensures some { IfSome result (λ line. IsInRange members line × (codes "clock " ++ rest.now ≡ line_text line)) }
    ensures none { IfNone result (IsNoLine members (codes "clock " ++ rest.now)) }
{
    let (node, reading) = split_word(rest)?;
    let reading = read_signed(reading)?;
    if node == "all" {
        return Some(Line::ClockAll { reading });
    }
    Some(Line::Clock {
        node: read_node(members, node)?,
        reading,
    })
}

fn read_submit(alloc: Global, members: usize, rest: &str) -> Result<Option<Line>, AllocError>
    ensures some { IfOk result (λ read. IfSome read (λ line. IsInRange members line × (codes "submit " ++ rest.now ≡ line_text line))) }
    ensures none { IfOk result (λ read. IfNone read (IsNoLine members (codes "submit " ++ rest.now))) }
{
    let Some((node, request)) = split_word(rest) else {
        return Ok(None);
    };
    let Some(node) = read_node(members, node) else {
        return Ok(None);
    };
    let Some((client, number, text)) = split_request(request) else {
        return Ok(None);
    };
    let text = Text::new(alloc, text)?;
    Ok(Some(Line::Submit {
        node,
        client,
        number,
        text,
    }))
}

// The client, the number and the text of a request.
fn split_request(rest: &str) -> Option<(Client, RequestNumber, &str)>
    ensures range { IfSome result (λ p. IsRequest p.0 p.1) }
    ensures text { IfSome result (λ p. rest.now ≡ request_text p.0 p.1 p.2.now) }
    ensures none { IfNone result (IsNoRequest rest.now) }
{
    let (client, rest) = split_word(rest)?;
    let (number, text) = split_word(rest)?;
    Some((read_client(client)?, read_request_number(number)?, text))
}

fn read_torn(alloc: Global, members: usize, rest: &str) -> Result<Option<Line>, AllocError>
    ensures some { IfOk result (λ read. IfSome read (λ line. IsInRange members line × (codes "torn " ++ rest.now ≡ line_text line))) }
    ensures none { IfOk result (λ read. IfNone read (IsNoLine members (codes "torn " ++ rest.now))) }
{
    let Some((node, left, job)) = split_torn(members, rest) else {
        return Ok(None);
    };
    let Some(job) = read_job(alloc, job)? else {
        return Ok(None);
    };
    Ok(Some(Line::Torn { node, left, job }))
}

// The node of a `torn`, what is left in its store, and what follows.
fn split_torn(members: usize, rest: &str) -> Option<(Member, Left, &str)>
    ensures range { IfSome result (λ p. IsNode members p.0) }
    ensures text { IfSome result (λ p. rest.now ≡ decimal p.0 ++ 32 ∷ (left_text p.1 ++ 32 ∷ p.2.now)) }
    ensures none { IfNone result (IsNoTorn members rest.now) }
{
    let (node, rest) = split_word(rest)?;
    let (left, job) = split_word(rest)?;
    let left = match left {
        "old" => Left::Old,
        "new" => Left::New,
        _ => return None,
    };
    Some((read_node(members, node)?, left, job))
}

// What the step of a `torn` was about.
fn read_job(alloc: Global, text: &str) -> Result<Option<TornJob>, AllocError>
    ensures some { IfOk result (λ read. IfSome read (λ job. IsJobInRange job × (text.now ≡ job_text job))) }
    ensures none { IfOk result (λ read. IfNone read (IsNoJob text.now)) }
{
    let Some((word, rest)) = split_word(text) else {
        return Ok(match text {
            "timeout" => Some(TornJob::Timeout),
            "beat" => Some(TornJob::Beat),
            "close" => Some(TornJob::Close),
            "floor" => Some(TornJob::Floor),
            _ => None,
        });
    };
    match word {
        "submit" => read_torn_submit(alloc, rest),
        "deliver" => Ok(read_torn_delivery(rest)),
        _ => Ok(None),
    }
}

fn read_torn_submit(alloc: Global, rest: &str) -> Result<Option<TornJob>, AllocError>
    ensures some { IfOk result (λ read. IfSome read (λ job. IsJobInRange job × (codes "submit " ++ rest.now ≡ job_text job))) }
    ensures none { IfOk result (λ read. IfNone read (IsNoJob (codes "submit " ++ rest.now))) }
{
    let Some((client, number, text)) = split_request(rest) else {
        return Ok(None);
    };
    let text = Text::new(alloc, text)?;
    Ok(Some(TornJob::Submit {
        client,
        number,
        text,
    }))
}

fn read_torn_delivery(rest: &str) -> Option<TornJob>
    ensures some { IfSome result (λ job. IsJobInRange job × (codes "deliver " ++ rest.now ≡ job_text job)) }
    ensures none { IfNone result (IsNoJob (codes "deliver " ++ rest.now)) }
{
    Some(TornJob::Deliver {
        message: read_number(rest)?,
    })
}

fn read_ask(alloc: Global, members: usize, rest: &str) -> Result<Option<Line>, AllocError>
    ensures some { IfOk result (λ read. IfSome read (λ line. IsInRange members line × (codes "ask " ++ rest.now ≡ line_text line))) }
    ensures none { IfOk result (λ read. IfNone read (IsNoLine members (codes "ask " ++ rest.now))) }
{
    let Some((node, text)) = split_word(rest) else {
        return Ok(None);
    };
    let Some(node) = read_node(members, node) else {
        return Ok(None);
    };
    let text = Text::new(alloc, text)?;
    Ok(Some(Line::Ask { node, text }))
}

fn read_node(members: usize, word: &str) -> Option<Member>
    ensures range { IfSome result (λ n. IsNode members n) }
    ensures text { IfSome result (λ n. word.now ≡ decimal n) }
    ensures none { IfNone result (IsNoNode members word.now) }
{
    let number = read_number(word)?;
    if 1 <= number && number <= members as u64 {
        Some(number as usize)
    } else {
        None
    }
}

fn read_client(word: &str) -> Option<Client>
    ensures range { IfSome result (λ n. (1 ≤ n) × (n < 2 ^ 16)) }
    ensures text { IfSome result (λ n. word.now ≡ decimal n) }
    ensures none { IfNone result ((n : ℕ) → 1 ≤ n → n < 2 ^ 16 → word.now ≢ decimal n) }
{
    let number = read_number(word)?;
    if number > 65_535 {
        return None;
    }
    let client = Client::new(number as u16)?;
    Some(client)
}

fn read_request_number(word: &str) -> Option<RequestNumber>
    ensures range { IfSome result (λ n. (1 ≤ n) × (n ≤ 2 ^ 62)) }
    ensures text { IfSome result (λ n. word.now ≡ decimal n) }
    ensures none { IfNone result ((n : ℕ) → 1 ≤ n → n ≤ 2 ^ 62 → word.now ≢ decimal n) }
{
    let number = RequestNumber::new(read_number(word)?)?;
    Some(number)
}

fn read_rounds(word: &str) -> Option<u8>
    ensures range { IfSome result (λ n. (1 ≤ n) × (n ≤ 100)) }
    ensures text { IfSome result (λ n. word.now ≡ decimal n) }
    ensures none { IfNone result ((n : ℕ) → 1 ≤ n → n ≤ 100 → word.now ≢ decimal n) }
{
    let number = read_number(word)?;
    if 1 <= number && number <= 100 {
        Some(number as u8)
    } else {
        None
    }
}
