//! Readers of what messages say.
ghost use Rattle.std.specs.Prelude.{◌≡◌, IfOk, IfErr, ⊤, All};
ghost use Rattle.flight.specs.Bodies.{candidacy_text, given_text, voted_text, appended_text, replied_text, sealing_text, said_text, IsCandidacy, IsGiven, IsVoted, IsAppended, IsReplied, IsSealing, IsSaid, IsSaidOfSealing};
ghost use Rattle.flight.specs.Reading.{Spells, SpellsOnly, IsUnread};

use crate::entries::read_entries;
use crate::flight::Version;
use crate::parts::{after, past, read_flag, read_floor, read_number, read_stamp};
use fault::Refusal;
use model::entry::Entries;
use model::message::Body;
use model::stamp::Stamp;
use std::alloc::Global;

// The numbers of a `votereq`.
#[derive(Clone, Copy)]
struct Candidacy {
    term: u64,
    last_index: usize,
    last_term: u64,
}

// The numbers of a `vote`.
#[derive(Clone, Copy)]
struct Voted {
    term: u64,
    given: bool,
    floor: Option<Stamp>,
}

// The numbers of an `append`, and its entries.
#[derive(Drop)]
struct Appended {
    term: u64,
    prev_index: usize,
    prev_term: u64,
    commit: usize,
    entries: Entries,
}

// The numbers of a `reply`.
#[derive(Clone, Copy)]
struct Replied {
    term: u64,
    ok: bool,
    matched: usize,
}

// The numbers of a `seek`, a `stored` or a `seal`.
#[derive(Clone, Copy)]
struct Sealing {
    term: u64,
    index: usize,
    floor: Stamp,
}

fn read_candidacy(text: &str) -> Result<(Candidacy, &str), Refusal>
    ensures ok { IfOk result (λ p. Spells IsCandidacy candidacy_text text.now p.0 p.1.now) }
    ensures only { IfOk result (λ p. SpellsOnly IsCandidacy candidacy_text text.now p.0 p.1.now) }
    ensures err { IfErr result (IsUnread IsCandidacy candidacy_text text.now) }
{
    let (term, rest) = read_number(text, ' ')?;
    let (last_index, rest) = read_number(rest, ' ')?;
    let (last_term, rest) = read_number(rest, '\n')?;
    let candidacy = Candidacy {
        term,
        last_index: last_index as usize,
        last_term,
    };
    Ok((candidacy, rest))
}

// Whether a vote is given, and the voter's floor, which versions 1 and 2 leave out.
fn read_given(version: Version, text: &str) -> Result<((bool, Option<Stamp>), &str), Refusal>
    ensures ok { IfOk result (λ p. Spells (IsGiven version) (given_text version) text.now p.0 p.1.now) }
    ensures only { IfOk result (λ p. SpellsOnly (IsGiven version) (given_text version) text.now p.0 p.1.now) }
    ensures err { IfErr result (IsUnread (IsGiven version) (given_text version) text.now) }
{
    match version {
        Version::One | Version::Two => {
            let (given, rest) = read_flag(text, '\n')?;
            Ok(((given, None), rest))
        }
        Version::Three => {
            let (given, rest) = read_flag(text, ' ')?;
            let (floor, rest) = read_floor(rest, '\n')?;
            Ok(((given, floor), rest))
        }
    }
}

fn read_voted(version: Version, text: &str) -> Result<(Voted, &str), Refusal>
    ensures ok { IfOk result (λ p. Spells (IsVoted version) (voted_text version) text.now p.0 p.1.now) }
    ensures only { IfOk result (λ p. SpellsOnly (IsVoted version) (voted_text version) text.now p.0 p.1.now) }
    ensures err { IfErr result (IsUnread (IsVoted version) (voted_text version) text.now) }
{
    let (term, rest) = read_number(text, ' ')?;
    let ((given, floor), rest) = read_given(version, rest)?;
    Ok((Voted { term, given, floor }, rest))
}

fn read_appended(alloc: Global, text: &str) -> Result<(Appended, &str), Refusal>
    ensures ok { IfOk result (λ p. Spells IsAppended appended_text text.now p.0 p.1.now) }
    ensures only { IfOk result (λ p. SpellsOnly IsAppended appended_text text.now p.0 p.1.now) }
    ensures err { IfErr result (IsUnread IsAppended appended_text text.now) }
{
    let (term, rest) = read_number(text, ' ')?;
    let (prev_index, rest) = read_number(rest, ' ')?;
    let (prev_term, rest) = read_number(rest, ' ')?;
    let (commit, rest) = read_number(rest, ' ')?;
    let (entries, rest) = read_entries(alloc, rest)?;
    let appended = Appended {
        term,
        prev_index: prev_index as usize,
        prev_term,
        commit: commit as usize,
        entries: Entries::new(entries),
    };
    Ok((appended, rest))
}

fn read_replied(text: &str) -> Result<(Replied, &str), Refusal>
    ensures ok { IfOk result (λ p. Spells IsReplied replied_text text.now p.0 p.1.now) }
    ensures only { IfOk result (λ p. SpellsOnly IsReplied replied_text text.now p.0 p.1.now) }
    ensures err { IfErr result (IsUnread IsReplied replied_text text.now) }
{
    let (term, rest) = read_number(text, ' ')?;
    let (ok, rest) = read_flag(rest, ' ')?;
    let (matched, rest) = read_number(rest, '\n')?;
    let replied = Replied {
        term,
        ok,
        matched: matched as usize,
    };
    Ok((replied, rest))
}

fn read_sealing(text: &str) -> Result<(Sealing, &str), Refusal>
    ensures ok { IfOk result (λ p. Spells IsSealing sealing_text text.now p.0 p.1.now) }
    ensures only { IfOk result (λ p. SpellsOnly IsSealing sealing_text text.now p.0 p.1.now) }
    ensures err { IfErr result (IsUnread IsSealing sealing_text text.now) }
{
    let (term, rest) = read_number(text, ' ')?;
    let (index, rest) = read_number(rest, ' ')?;
    let (floor, rest) = read_stamp(rest, '\n')?;
    let sealing = Sealing {
        term,
        index: index as usize,
        floor,
    };
    Ok((sealing, rest))
}

// The term of a message by which a floor is stored and sealed, of which versions 1 and 2 know none, and what it
// says.
fn read_said_of_sealing(version: Version, text: &str) -> Result<((u64, Body), &str), Refusal>
    ensures ok { IfOk result (λ p. Spells (IsSaidOfSealing version) (said_text version) text.now p.0 p.1.now) }
    ensures only { IfOk result (λ p. SpellsOnly (IsSaidOfSealing version) (said_text version) text.now p.0 p.1.now) }
    ensures err { IfErr result (IsUnread (IsSaidOfSealing version) (said_text version) text.now) }
{
    if !version.has_floors() {
        return Err(Refusal::BadFlight);
    }
    if let Some(rest) = after(text, "seek ") {
        let (seek, rest) = read_sealing(rest)?;
        let body = Body::Seek {
            index: seek.index,
            floor: seek.floor,
        };
        return Ok(((seek.term, body), rest));
    }
    if let Some(rest) = after(text, "stored ") {
        let (stored, rest) = read_sealing(rest)?;
        let body = Body::Stored {
            index: stored.index,
            floor: stored.floor,
        };
        return Ok(((stored.term, body), rest));
    }
    let rest = past(text, "seal ")?;
    let (seal, rest) = read_sealing(rest)?;
    let body = Body::Seal {
        index: seal.index,
        floor: seal.floor,
    };
    Ok(((seal.term, body), rest))
}

// The term of a message, and what it says.
pub(crate) fn read_said(
    alloc: Global,
    version: Version,
    text: &str,
) -> Result<((u64, Body), &str), Refusal>
    ensures ok { IfOk result (λ p. Spells (IsSaid version) (said_text version) text.now p.0 p.1.now) }
    ensures only { IfOk result (λ p. SpellsOnly (IsSaid version) (said_text version) text.now p.0 p.1.now) }
    ensures err { IfErr result (IsUnread (IsSaid version) (said_text version) text.now) }
{
    if let Some(rest) = after(text, "votereq ") {
        let (candidacy, rest) = read_candidacy(rest)?;
        let body = Body::RequestVote {
            last_index: candidacy.last_index,
            last_term: candidacy.last_term,
        };
        return Ok(((candidacy.term, body), rest));
    }
    if let Some(rest) = after(text, "vote ") {
        let (voted, rest) = read_voted(version, rest)?;
        let body = Body::Vote {
            given: voted.given,
            floor: voted.floor,
        };
        return Ok(((voted.term, body), rest));
    }
    if let Some(rest) = after(text, "append ") {
        let (appended, rest) = read_appended(alloc, rest)?;
        let Appended {
            term,
            prev_index,
            prev_term,
            commit,
            entries,
        } = appended;
        let body = Body::Append {
            prev_index,
            prev_term,
            entries,
            commit,
        };
        return Ok(((term, body), rest));
    }
    if let Some(rest) = after(text, "reply ") {
        let (replied, rest) = read_replied(rest)?;
        let body = Body::Reply {
            ok: replied.ok,
            matched: replied.matched,
        };
        return Ok(((replied.term, body), rest));
    }
    let (said, rest) = read_said_of_sealing(version, text)?;
    Ok((said, rest))
}
