//! Readers of what lines are made of. A reader gives a value and what follows it in the text.
ghost use Rattle.std.specs.Prelude.{◌≡◌, ◌≢◌, ◌<◌, ℕ, List, ◌++◌, ◌∷◌, IfSome, IfNone, IfOk, IfErr, MatchBool, ⊤};
ghost use Rattle.fault.specs.declared.refusal.Refusal.TheVariants.{BadFlight};
ghost use Rattle.lines.specs.Number.{IsSigned};
ghost use Rattle.flight.specs.Spelling.{number_text, signed_text, flag_text, vote_text, floor_text, opening_floor_text, block_text, version_text};
ghost use Rattle.flight.specs.Ranges.{IsNumber, IsMark, IsClient, IsRequestNumber, IsStamp, IsVote, IsFloor, IsFloorIn};
ghost use Rattle.flight.specs.Reading.{Spells, SpellsOnly, IsUnread, IsAfter, IsNotBegun, Lacks};

use crate::flight::Version;
use fault::{Refusal, Text};
use lines::number::{read_number as number_of, read_signed as signed_of};
use model::mark::{LAST_MARK, Mark};
use model::member::Member;
use model::request::{Client, RequestNumber};
use model::stamp::{LAST_MICROS, Stamp};
use std::alloc::Global;

/// What follows this word, if the text begins with it.
pub fn after<'a>(text: &'a str, word: &str) -> Option<&'a str>
    ensures some { IfSome result (λ rest. IsAfter word.now text.now rest.now) }
    ensures none { IfNone result (IsNotBegun word.now text.now) }
{
    text.strip_prefix(word)
}

/// What follows this word, with which the text has to begin: else it is refused 50.
pub fn past<'a>(text: &'a str, word: &str) -> Result<&'a str, Refusal>
    ensures ok { IfOk result (λ rest. IsAfter word.now text.now rest.now) }
    ensures err { IfErr result (λ r. (r ≡ BadFlight) × IsNotBegun word.now text.now) }
{
    match after(text, word) {
        Some(rest) => Ok(rest),
        None => Err(Refusal::BadFlight),
    }
}

/// Whether the text begins with this word.
pub fn begins(text: &str, word: &str) -> bool
    ensures { MatchBool result ((rest : List ℕ) × (text.now ≡ word.now ++ rest)) (IsNotBegun word.now text.now) }
{
    after(text, word).is_some()
}

// What stands before this character, and what after it.
fn split(text: &str, end: char) -> Option<(&str, &str)>
    requires { end < 48 }
    ensures parts { IfSome result (λ p. text.now ≡ p.0.now ++ end ∷ p.1.now) }
    ensures only { IfSome result (λ p. (word other : List ℕ) → Lacks end word → text.now ≡ word ++ end ∷ other → (p.0.now ≡ word) × (p.1.now ≡ other)) }
    ensures none { IfNone result ((word other : List ℕ) → Lacks end word → text.now ≢ word ++ end ∷ other) }
{
    text.split_once(end)
}

/// A number below 2^64 in decimal without leading zeros, up to the character that ends it, which is below the digits. What is
/// none is refused 50.
pub fn read_number(text: &str, end: char) -> Result<(u64, &str), Refusal>
    requires { end < 48 }
    ensures ok { IfOk result (λ p. Spells IsNumber (number_text end) text.now p.0 p.1.now) }
    ensures only { IfOk result (λ p. SpellsOnly IsNumber (number_text end) text.now p.0 p.1.now) }
    ensures err { IfErr result (IsUnread IsNumber (number_text end) text.now) }
    ensures fault { IfErr result (λ r. r ≡ BadFlight) }
{
    let Some((word, rest)) = split(text, end) else {
        return Err(Refusal::BadFlight);
    };
    match number_of(word) {
        Some(number) => Ok((number, rest)),
        None => Err(Refusal::BadFlight),
    }
}

// A number that may be below zero, up to the character that ends it.
pub(crate) fn read_signed(text: &str, end: char) -> Result<(i64, &str), Refusal>
    requires { end < 45 }
    ensures ok { IfOk result (λ p. Spells IsSigned (signed_text end) text.now p.0 p.1.now) }
    ensures only { IfOk result (λ p. SpellsOnly IsSigned (signed_text end) text.now p.0 p.1.now) }
    ensures err { IfErr result (IsUnread IsSigned (signed_text end) text.now) }
    ensures fault { IfErr result (λ r. r ≡ BadFlight) }
{
    let Some((word, rest)) = split(text, end) else {
        return Err(Refusal::BadFlight);
    };
    match signed_of(word) {
        Some(number) => Ok((number, rest)),
        None => Err(Refusal::BadFlight),
    }
}

// 1 for yes or 0 for no, up to the character that ends it.
pub(crate) fn read_flag(text: &str, end: char) -> Result<(bool, &str), Refusal>
    requires { end < 48 }
    ensures ok { IfOk result (λ p. Spells (λ _. ⊤) (flag_text end) text.now p.0 p.1.now) }
    ensures only { IfOk result (λ p. SpellsOnly (λ _. ⊤) (flag_text end) text.now p.0 p.1.now) }
    ensures err { IfErr result (IsUnread (λ _. ⊤) (flag_text end) text.now) }
    ensures fault { IfErr result (λ r. r ≡ BadFlight) }
{
    let (number, rest) = read_number(text, end)?;
    match number {
        0 => Ok((false, rest)),
        1 => Ok((true, rest)),
        _ => Err(Refusal::BadFlight),
    }
}

/// The first line, which names the version, 1 to 3. Any other is refused 50.
pub fn read_version(text: &str) -> Result<(Version, &str), Refusal>
    ensures ok { IfOk result (λ p. Spells (λ _. ⊤) version_text text.now p.0 p.1.now) }
    ensures only { IfOk result (λ p. SpellsOnly (λ _. ⊤) version_text text.now p.0 p.1.now) }
    ensures err { IfErr result (IsUnread (λ _. ⊤) version_text text.now) }
    ensures fault { IfErr result (λ r. r ≡ BadFlight) }
{
    let rest = past(text, "bitable flight ")?;
    let (number, rest) = read_number(rest, '\n')?;
    match number {
        1 => Ok((Version::One, rest)),
        2 => Ok((Version::Two, rest)),
        3 => Ok((Version::Three, rest)),
        _ => Err(Refusal::BadFlight),
    }
}

/// The mark of an opening or a step, from 1 to `LAST_MARK`, up to the character that ends it, which is below the digits. What is
/// none is refused 50.
pub fn read_mark(text: &str, end: char) -> Result<(Mark, &str), Refusal>
    requires { end < 48 }
    ensures ok { IfOk result (λ p. Spells IsMark (number_text end) text.now p.0 p.1.now) }
    ensures only { IfOk result (λ p. SpellsOnly IsMark (number_text end) text.now p.0 p.1.now) }
    ensures err { IfErr result (IsUnread IsMark (number_text end) text.now) }
    ensures fault { IfErr result (λ r. r ≡ BadFlight) }
{
    let (number, rest) = read_number(text, end)?;
    if number == 0 || number > LAST_MARK {
        return Err(Refusal::BadFlight);
    }
    Ok((Mark::new(number), rest))
}

// A stamp, up to the character that ends it.
pub(crate) fn read_stamp(text: &str, end: char) -> Result<(Stamp, &str), Refusal>
    requires { end < 48 }
    ensures ok { IfOk result (λ p. Spells IsStamp (number_text end) text.now p.0 p.1.now) }
    ensures only { IfOk result (λ p. SpellsOnly IsStamp (number_text end) text.now p.0 p.1.now) }
    ensures err { IfErr result (IsUnread IsStamp (number_text end) text.now) }
    ensures fault { IfErr result (λ r. r ≡ BadFlight) }
{
    let (number, rest) = read_number(text, end)?;
    if number > LAST_MICROS {
        return Err(Refusal::BadFlight);
    }
    Ok((Stamp::new(number), rest))
}

/// A client, up to a space. Else it is refused 50.
pub fn read_client(text: &str) -> Result<(Client, &str), Refusal>
    ensures ok { IfOk result (λ p. Spells IsClient (number_text 32) text.now p.0 p.1.now) }
    ensures only { IfOk result (λ p. SpellsOnly IsClient (number_text 32) text.now p.0 p.1.now) }
    ensures err { IfErr result (IsUnread IsClient (number_text 32) text.now) }
    ensures fault { IfErr result (λ r. r ≡ BadFlight) }
{
    let (number, rest) = read_number(text, ' ')?;
    if number > 65_535 {
        return Err(Refusal::BadFlight);
    }
    let Some(client) = Client::new(number as u16) else {
        return Err(Refusal::BadFlight);
    };
    Ok((client, rest))
}

/// The number of a request, up to the character that ends it, which is before the digits. Else it is refused 50.
pub fn read_request_number(text: &str, end: char) -> Result<(RequestNumber, &str), Refusal>
    requires { end < 48 }
    ensures ok { IfOk result (λ p. Spells IsRequestNumber (number_text end) text.now p.0 p.1.now) }
    ensures only { IfOk result (λ p. SpellsOnly IsRequestNumber (number_text end) text.now p.0 p.1.now) }
    ensures err { IfErr result (IsUnread IsRequestNumber (number_text end) text.now) }
    ensures fault { IfErr result (λ r. r ≡ BadFlight) }
{
    let (number, rest) = read_number(text, end)?;
    let Some(number) = RequestNumber::new(number) else {
        return Err(Refusal::BadFlight);
    };
    Ok((number, rest))
}

/// The member that a vote went to, or 0 for none, up to a space. What is neither is refused 50.
pub fn read_vote(text: &str) -> Result<(Option<Member>, &str), Refusal>
    ensures ok { IfOk result (λ p. Spells IsVote vote_text text.now p.0 p.1.now) }
    ensures only { IfOk result (λ p. SpellsOnly IsVote vote_text text.now p.0 p.1.now) }
    ensures err { IfErr result (IsUnread IsVote vote_text text.now) }
    ensures fault { IfErr result (λ r. r ≡ BadFlight) }
{
    let (number, rest) = read_number(text, ' ')?;
    if number == 0 {
        return Ok((None, rest));
    }
    Ok((Some(number as usize), rest))
}

// A floor, or -1 for none, up to the character that ends it.
pub(crate) fn read_floor(text: &str, end: char) -> Result<(Option<Stamp>, &str), Refusal>
    requires { end < 45 }
    ensures ok { IfOk result (λ p. Spells IsFloor (floor_text end) text.now p.0 p.1.now) }
    ensures only { IfOk result (λ p. SpellsOnly IsFloor (floor_text end) text.now p.0 p.1.now) }
    ensures err { IfErr result (IsUnread IsFloor (floor_text end) text.now) }
    ensures fault { IfErr result (λ r. r ≡ BadFlight) }
{
    let (number, rest) = read_signed(text, end)?;
    if number == -1 {
        return Ok((None, rest));
    }
    if number < 0 || number > LAST_MICROS as i64 {
        return Err(Refusal::BadFlight);
    }
    Ok((Some(Stamp::new(number as u64)), rest))
}

/// The floor of a life's opening, an instant or -1 for none, up to a space. Versions 1 and 2 leave it out, and there is none.
/// What is neither is refused 50.
pub fn read_opening_floor(version: Version, text: &str) -> Result<(Option<Stamp>, &str), Refusal>
    ensures ok { IfOk result (λ p. Spells (IsFloorIn version) (opening_floor_text version) text.now p.0 p.1.now) }
    ensures only { IfOk result (λ p. SpellsOnly (IsFloorIn version) (opening_floor_text version) text.now p.0 p.1.now) }
    ensures err { IfErr result (IsUnread (IsFloorIn version) (opening_floor_text version) text.now) }
    ensures fault { IfErr result (λ r. r ≡ BadFlight) }
{
    match version {
        Version::One => Ok((None, text)),
        Version::Two => Ok((None, text)),
        Version::Three => {
            let (floor, rest) = read_floor(text, ' ')?;
            Ok((floor, rest))
        }
    }
}

/// The length of a block in bytes, in a line of its own, and then the block and the end of its line. It is refused 50 where the
/// length is not the true one, and 43 for want of memory.
pub fn read_block(alloc: Global, text: &str) -> Result<(Text, &str), Refusal>
    ensures ok { IfOk result (λ p. Spells (λ _. ⊤) block_text text.now p.0 p.1.now) }
    ensures only { IfOk result (λ p. SpellsOnly (λ _. ⊤) block_text text.now p.0 p.1.now) }
    ensures err { IfErr result (IsUnread (λ _. ⊤) block_text text.now) }
{
    let (length, rest) = read_number(text, '\n')?;
    let Some((bytes, rest)) = rest.split_at_checked(length as usize) else {
        return Err(Refusal::BadFlight);
    };
    let rest = past(rest, "\n")?;
    let bytes = Text::new(alloc, bytes)?;
    Ok((bytes, rest))
}
