//! Words of messages and of what came of events.
use crate::run::{Kind, News, Note, Sent};
use fault::Refusal;
use model::entry::Told;
use model::message::{Body, Message};
use model::stamp::Stamp;
use std::alloc::{AllocError, Global};

fn kind_of(body: &Body) -> Kind {
    match body {
        Body::RequestVote { .. } | Body::Vote { .. } => Kind::Election,
        Body::Append { entries, .. } if entries.as_slice().is_empty() => Kind::Plain,
        Body::Append { .. } => Kind::Entries,
        Body::Reply { .. } => Kind::Plain,
        Body::Seek { .. } | Body::Stored { .. } | Body::Seal { .. } => Kind::Floor,
    }
}

/// Whether it is an Append.
pub(crate) fn is_append(body: &Body) -> bool {
    matches!(body, Body::Append { .. })
}

fn words_of(alloc: Global, body: &Body) -> Result<String, AllocError> {
    match body {
        Body::RequestVote { .. } => String::from_str(alloc, "votereq"),
        Body::Vote { given, .. } => {
            let given = yes_or_no(*given);
            format!(in alloc; "vote {given}")
        }
        Body::Append {
            entries,
            commit,
            ..
        } => match entries.as_slice().len() {
            0 => format!(in alloc; "append commit {commit}"),
            count => format!(in alloc; "append +{count}"),
        },
        Body::Reply { ok, matched } => {
            let ok = yes_or_no(*ok);
            format!(in alloc; "reply {ok} {matched}")
        }
        Body::Seek { .. } => String::from_str(alloc, "seek"),
        Body::Stored { .. } => String::from_str(alloc, "stored"),
        Body::Seal { .. } => String::from_str(alloc, "seal"),
    }
}

fn yes_or_no(yes: bool) -> &'static str {
    if yes { "yes" } else { "no" }
}

/// A message, and all that it says as a text.
pub(crate) fn sent_of(alloc: Global, message: &Message, full: &str) -> Result<Sent, AllocError> {
    let words = words_of(alloc, &message.body)?;
    let full = String::from_str(alloc, full)?;
    Ok(Sent {
        sender: message.sender,
        addressee: message.addressee,
        kind: kind_of(&message.body),
        term: message.term,
        is_append: is_append(&message.body),
        words,
        full,
    })
}

/// News in the same words, short and long.
pub(crate) fn plain_note(alloc: Global, news: News, words: &str) -> Result<Note, AllocError> {
    let short = String::from_str(alloc, words)?;
    let long = String::from_str(alloc, words)?;
    Ok(Note {
        news,
        short,
        long,
        time: String::new(alloc),
    })
}

/// What a member tells of a request.
pub(crate) fn told_note(alloc: Global, told: &Told) -> Result<Note, AllocError> {
    let client = told.client.get();
    let number = told.number.get();
    match &told.outcome {
        Ok(stamp) => accepted_note(alloc, client, number, *stamp),
        Err(refusal) => {
            let text = format!(in alloc; "{refusal}")?;
            let text = text.as_str();
            let code = first_word(text);
            let short = format!(in alloc; "{client} {number} refused {code}")?;
            let long = format!(in alloc; "{client} {number} refused {text}")?;
            refused(alloc, short, long)
        }
    }
}

fn accepted_note(
    alloc: Global,
    client: u16,
    number: u64,
    stamp: Stamp,
) -> Result<Note, AllocError> {
    let instant = stamp.instant().to_string(alloc)?;
    let instant = instant.as_str();
    let short = format!(in alloc; "{client} {number} accepted")?;
    let long = format!(in alloc; "{client} {number} accepted {instant}")?;
    let time = match instant.split_once(' ') {
        Some((_, time)) => time,
        None => instant,
    };
    let time = String::from_str(alloc, time)?;
    Ok(Note {
        news: News::Accepted,
        short,
        long,
        time,
    })
}

/// That a member refuses what it was given.
pub(crate) fn refused_note(alloc: Global, refusal: &Refusal) -> Result<Note, AllocError> {
    let text = format!(in alloc; "{refusal}")?;
    let text = text.as_str();
    let code = first_word(text);
    let short = format!(in alloc; "refuses {code}")?;
    let long = format!(in alloc; "refuses {text}")?;
    refused(alloc, short, long)
}

fn refused(alloc: Global, short: String, long: String) -> Result<Note, AllocError> {
    Ok(Note {
        news: News::Refused,
        short,
        long,
        time: String::new(alloc),
    })
}

fn first_word(text: &str) -> &str {
    match text.split_once(' ') {
        Some((word, _)) => word,
        None => text,
    }
}

/// That a member answers a question with so many rows.
pub(crate) fn answer_note(alloc: Global, rows: usize, last: Stamp) -> Result<Note, AllocError> {
    let plural = if rows == 1 { "" } else { "s" };
    let last = last.instant();
    let short = format!(in alloc; "answers {rows} row{plural}")?;
    let long = format!(in alloc; "answers {rows} row{plural}, last {last}")?;
    Ok(Note {
        news: News::Answers,
        short,
        long,
        time: String::new(alloc),
    })
}

/// That so many messages are not drawn.
pub(crate) fn unseen_note(alloc: Global, count: usize) -> Result<Note, AllocError> {
    let plural = if count == 1 { "" } else { "s" };
    let short = format!(in alloc; "{count} not drawn")?;
    let long = format!(in alloc; "{count} message{plural} not drawn")?;
    Ok(Note {
        news: News::Remark,
        short,
        long,
        time: String::new(alloc),
    })
}
