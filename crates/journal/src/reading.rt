//! Reading the lines of a journal.
ghost use Rattle.std.specs.Prelude.{◌≡◌, ◌≢◌, ◌↔◌, ℕ, List, [], Ok, IsTrue, IfOk, IfErr, IfSome, IfNone, All};
ghost use Rattle.fault.specs.declared.refusal.Refusal.TheVariants.{BadFlight};
ghost use Rattle.hex.specs.Hex.{decode_sized, encode_lower};
ghost use Rattle.flight.specs.Reading.{Spells, SpellsOnly, SpellsOnlyTo, IsUnread, IsUnreadTo};
ghost use Rattle.flight.specs.Spelling.{each_text};
ghost use Rattle.flight.specs.Courses.{IsNoOutcome};
ghost use Rattle.journal.specs.Spelling.{digest_text, summary_text, taken_text, line_text};
ghost use Rattle.journal.specs.Parts.{opens_text, held_text, takes_text, made_text, answer_text, printed_text, IsOpens, IsHeld, IsTakes, IsMade, IsAnswered, IsPrinted, IsOther, IsOver};
ghost use Rattle.journal.specs.Ranges.{IsDigest, IsSummary, IsTaken, IsLine};

use crate::line::{Line, Taken};
use crate::parts::read_signed;
use crate::stored::Summary;
use fault::{Refusal, Text};
use flight::entries::read_request;
use flight::flight::Version;
use flight::outcome::Outcomes;
use flight::parts::{
    after, past, read_block, read_client, read_number, read_opening_floor, read_request_number,
    read_vote,
};
use flight::steps::read_each_outcome;
use hex::FromHex;
use keep::hard_state::HardState;
use model::member::Member;
use model::request::{Client, RequestNumber};
use std::alloc::{AllocError, Global};

// The bytes that 64 hex digits stand for.
fn read_hex(word: &str) -> Option<[u8; 32]>
    ensures some { IfSome result (λ digest. (decode_sized word.now 32 ≡ Ok digest) × IsDigest digest) }
    ensures none { IfNone result ((digest : List ℕ) → decode_sized word.now 32 ≢ Ok digest) }
{
    <[u8; 32] as FromHex>::from_hex(word).ok()
}

// Whether a word is how a digest is spelled.
fn is_hex_of(alloc: Global, digest: &[u8; 32], word: &str) -> Result<bool, AllocError>
    ensures { IfOk result (λ is. IsTrue is ↔ (encode_lower digest.now ≡ word.now)) }
{
    let spelled = hex::encode(alloc, digest.as_slice())?;
    Ok(spelled.as_str() == word)
}

// A digest in hex digits of lower case, up to the end of its line.
fn read_digest(alloc: Global, text: &str) -> Result<([u8; 32], &str), Refusal>
    ensures ok { IfOk result (λ p. Spells IsDigest digest_text text.now p.0 p.1.now) }
    ensures only { IfOk result (λ p. SpellsOnly IsDigest digest_text text.now p.0 p.1.now) }
    ensures err { IfErr result (IsUnread IsDigest digest_text text.now) }
{
    let Some((word, rest)) = text.split_at_checked(64) else {
        return Err(Refusal::BadFlight);
    };
    let rest = past(rest, "\n")?;
    let Some(digest) = read_hex(word) else {
        return Err(Refusal::BadFlight);
    };
    let is_lower = is_hex_of(alloc, &digest, word)?;
    if !is_lower {
        return Err(Refusal::BadFlight);
    }
    Ok((digest, rest))
}

// What a member has stored, in short, up to the end of its line.
fn read_summary(alloc: Global, text: &str) -> Result<(Summary, &str), Refusal>
    ensures ok { IfOk result (λ p. Spells IsSummary summary_text text.now p.0 p.1.now) }
    ensures only { IfOk result (λ p. SpellsOnly IsSummary summary_text text.now p.0 p.1.now) }
    ensures err { IfErr result (IsUnread IsSummary summary_text text.now) }
{
    let (term, rest) = read_number(text, ' ')?;
    let (vote, rest) = read_vote(rest)?;
    let (floor, rest) = read_opening_floor(Version::Three, rest)?;
    let (length, rest) = read_number(rest, ' ')?;
    let (digest, rest) = read_digest(alloc, rest)?;
    let stored = Summary {
        hard: HardState { term, vote, floor },
        length: length as usize,
        digest,
    };
    Ok((stored, rest))
}

// A member and what it has stored.
fn read_held(alloc: Global, text: &str) -> Result<((Member, Summary), &str), Refusal>
    ensures ok { IfOk result (λ p. Spells IsHeld held_text text.now p.0 p.1.now) }
    ensures only { IfOk result (λ p. SpellsOnly IsHeld held_text text.now p.0 p.1.now) }
    ensures err { IfErr result (IsUnread IsHeld held_text text.now) }
{
    let (member, rest) = read_number(text, ' ')?;
    let (stored, rest) = read_summary(alloc, rest)?;
    Ok(((member as usize, stored), rest))
}

fn read_taken(alloc: Global, text: &str) -> Result<(Taken, &str), Refusal>
    ensures ok { IfOk result (λ p. Spells IsTaken taken_text text.now p.0 p.1.now) }
    ensures only { IfOk result (λ p. SpellsOnly IsTaken taken_text text.now p.0 p.1.now) }
    ensures err { IfErr result (IsUnread IsTaken taken_text text.now) }
{
    if let Some(rest) = after(text, "timeout\n") {
        return Ok((Taken::Timeout, rest));
    }
    if let Some(rest) = after(text, "beat\n") {
        return Ok((Taken::Beat, rest));
    }
    if let Some(rest) = after(text, "close\n") {
        return Ok((Taken::Close, rest));
    }
    if let Some(rest) = after(text, "floor\n") {
        return Ok((Taken::Floor, rest));
    }
    if let Some(rest) = after(text, "submit ") {
        let (request, rest) = read_request(alloc, rest)?;
        return Ok((Taken::Submit(request), rest));
    }
    let rest = past(text, "message ")?;
    let (number, rest) = read_number(rest, '\n')?;
    Ok((Taken::Message(number as usize), rest))
}

// The number of a journal, the sum of the block before it, and how many marks were given out before.
pub(crate) fn read_opens(text: &str) -> Result<((u64, u64, u64), &str), Refusal>
    ensures ok { IfOk result (λ p. Spells IsOpens opens_text text.now p.0 p.1.now) }
    ensures only { IfOk result (λ p. SpellsOnly IsOpens opens_text text.now p.0 p.1.now) }
    ensures err { IfErr result (IsUnread IsOpens opens_text text.now) }
    ensures fault { IfErr result (λ r. r ≡ BadFlight) }
{
    let (journal, rest) = read_number(text, ' ')?;
    let (sum, rest) = read_number(rest, ' ')?;
    let (marks, rest) = read_number(rest, '\n')?;
    Ok(((journal, sum, marks), rest))
}

// A member and what it takes.
fn read_takes(alloc: Global, text: &str) -> Result<((Member, Taken), &str), Refusal>
    ensures ok { IfOk result (λ p. Spells IsTakes takes_text text.now p.0 p.1.now) }
    ensures only { IfOk result (λ p. SpellsOnly IsTakes takes_text text.now p.0 p.1.now) }
    ensures err { IfErr result (IsUnread IsTakes takes_text text.now) }
{
    let (member, rest) = read_number(text, ' ')?;
    let (taken, rest) = read_taken(alloc, rest)?;
    Ok(((member as usize, taken), rest))
}

// A member and what its step told of requests.
fn read_made(alloc: Global, text: &str) -> Result<((Member, Outcomes), &str), Refusal>
    ensures ok { IfOk result (λ p. Spells IsMade made_text text.now p.0 p.1.now) }
    ensures only { IfOk result (λ p. SpellsOnlyTo IsMade made_text IsNoOutcome text.now p.0 p.1.now) }
    ensures err { IfErr result (IsUnreadTo IsMade made_text IsNoOutcome text.now) }
{
    let (member, rest) = read_number(text, '\n')?;
    let (outcomes, rest) = read_each_outcome(alloc, rest)?;
    Ok(((member as usize, Outcomes::new(outcomes)), rest))
}

// A member, a question and its answer.
fn read_answer(alloc: Global, text: &str) -> Result<((Member, Text, Text), &str), Refusal>
    ensures ok { IfOk result (λ p. Spells IsAnswered answer_text text.now p.0 p.1.now) }
    ensures only { IfOk result (λ p. SpellsOnly IsAnswered answer_text text.now p.0 p.1.now) }
    ensures err { IfErr result (IsUnread IsAnswered answer_text text.now) }
{
    let (member, rest) = read_number(text, '\n')?;
    let rest = past(rest, "query ")?;
    let (query, rest) = read_block(alloc, rest)?;
    let rest = past(rest, "text ")?;
    let (answer, rest) = read_block(alloc, rest)?;
    Ok(((member as usize, query, answer), rest))
}

// A client, its request's number, and the words that came of it.
fn read_printed(alloc: Global, text: &str) -> Result<((Client, RequestNumber, Text), &str), Refusal>
    ensures ok { IfOk result (λ p. Spells IsPrinted printed_text text.now p.0 p.1.now) }
    ensures only { IfOk result (λ p. SpellsOnly IsPrinted printed_text text.now p.0 p.1.now) }
    ensures err { IfErr result (IsUnread IsPrinted printed_text text.now) }
{
    let (client, rest) = read_client(text)?;
    let (number, rest) = read_request_number(rest, '\n')?;
    let rest = past(rest, "text ")?;
    let (words, rest) = read_block(alloc, rest)?;
    Ok(((client, number, words), rest))
}

// A line that tells of clocks, of what a member has stored, or of a member that is stopped.
fn read_other(alloc: Global, text: &str) -> Result<(Line, &str), Refusal>
    ensures ok { IfOk result (λ p. Spells IsOther line_text text.now p.0 p.1.now) }
    ensures only { IfOk result (λ p. SpellsOnly IsOther line_text text.now p.0 p.1.now) }
    ensures err { IfErr result (IsUnread IsOther line_text text.now) }
{
    if let Some(rest) = after(text, "clock ") {
        let (reading, rest) = read_signed(rest)?;
        return Ok((Line::Clock { reading }, rest));
    }
    if let Some(rest) = after(text, "ends ") {
        let (member, rest) = read_number(rest, '\n')?;
        let member = member as usize;
        return Ok((Line::Ends { member }, rest));
    }
    if let Some(rest) = after(text, "rests ") {
        let ((member, stored), rest) = read_held(alloc, rest)?;
        return Ok((Line::Rests { member, stored }, rest));
    }
    if let Some(rest) = after(text, "life ") {
        let ((member, stored), rest) = read_held(alloc, rest)?;
        return Ok((Line::Life { member, stored }, rest));
    }
    let rest = past(text, "saves ")?;
    let ((member, stored), rest) = read_held(alloc, rest)?;
    Ok((Line::Saves { member, stored }, rest))
}

/// A line of a journal, and what follows it in the text. What is none is refused 50; want of memory is 43.
pub fn read_line(alloc: Global, text: &str) -> Result<(Line, &str), Refusal>
    ensures ok { IfOk result (λ p. Spells IsLine line_text text.now p.0 p.1.now) }
    ensures only { IfOk result (λ p. SpellsOnlyTo IsLine line_text IsNoOutcome text.now p.0 p.1.now) }
    ensures err { IfErr result (IsUnreadTo IsLine line_text IsNoOutcome text.now) }
{
    if let Some(rest) = after(text, "takes ") {
        let ((member, taken), rest) = read_takes(alloc, rest)?;
        return Ok((Line::Takes { member, taken }, rest));
    }
    if let Some(rest) = after(text, "made ") {
        let ((member, outcomes), rest) = read_made(alloc, rest)?;
        return Ok((Line::Made { member, outcomes }, rest));
    }
    if let Some(rest) = after(text, "printed ") {
        let ((client, number, words), rest) = read_printed(alloc, rest)?;
        let line = Line::Printed {
            client,
            number,
            words,
        };
        return Ok((line, rest));
    }
    if let Some(rest) = after(text, "answer ") {
        let ((member, query, answer), rest) = read_answer(alloc, rest)?;
        let line = Line::Answer {
            member,
            query,
            answer,
        };
        return Ok((line, rest));
    }
    if let Some(rest) = after(text, "opens ") {
        let ((journal, sum, marks), rest) = read_opens(rest)?;
        let line = Line::Opens {
            journal,
            sum,
            marks,
        };
        return Ok((line, rest));
    }
    let (line, rest) = read_other(alloc, text)?;
    Ok((line, rest))
}

/// The lines of a block. What spells none is refused 50; want of memory is 43.
pub fn read_lines(alloc: Global, body: &str) -> Result<Vec<Line>, Refusal>
    ensures ok { IfOk result (λ lines. Spells (All IsLine) (each_text line_text) body.now lines.items []) }
    ensures only { IfOk result (λ lines. SpellsOnlyTo (All IsLine) (each_text line_text) IsOver body.now lines.items []) }
    ensures err { IfErr result (IsUnreadTo (All IsLine) (each_text line_text) IsOver body.now) }
{
    let mut lines = Vec::new(alloc);
    let mut rest = body;
    while !rest.is_empty() {
        let (line, left) = read_line(alloc, rest)?;
        lines.push(line)?;
        rest = left;
    }
    Ok(lines)
}
