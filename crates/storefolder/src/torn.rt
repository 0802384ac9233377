//! What a write that was cut short leaves at a journal's end.
ghost use Rattle.std.specs.Prelude.{◌≡◌, ◌≢◌, ◌<◌, ◌↔◌, ◌++◌, ℕ, List, drop, slice_index, IsTrue, IfSome, IfNone};
ghost use Rattle.flight.specs.Spelling.{number_text};
ghost use Rattle.flight.specs.Ranges.{IsNumber};
ghost use Rattle.flight.specs.Reading.{Spells, Lacks};
ghost use Rattle.storefolder.specs.Torn.{IsCutBlock, IsLeftOfBlock, IsFullBlock, BeginsNumber, BeginsBlock, IsTorn};

use flight::parts::read_number;
use journal::blocks::text_in;
use lines::number::read_number as number_of;

// Whether a number begins with these bytes, or is what they spell.
fn begins_number(bytes: &[u8]) -> bool
    ensures { IsTrue result ↔ BeginsNumber bytes.now }
{
    match str::from_utf8(bytes) {
        Ok(word) => word.is_empty() || number_of(word).is_some(),
        Err(_) => false,
    }
}

// The number that bytes begin with, up to the character that ends it, and what follows.
fn number_before(bytes: &[u8], end: char) -> Option<(u64, &[u8])>
    requires { end < 48 }
    ensures some { IfSome result (λ p. Spells IsNumber (number_text end) bytes.now p.0 p.1.now) }
    ensures none { IfNone result ((number : ℕ) (rest : List ℕ) → IsNumber number → bytes.now ≢ number_text end number rest) }
{
    let text = text_in(bytes);
    let Ok((number, rest)) = read_number(text, end) else {
        return None;
    };
    let (_, rest) = bytes.split_at(text.len() - rest.len());
    Some((number, rest))
}

// Whether a block begins with these bytes, and more of it is to follow.
fn begins_block(bytes: &[u8]) -> bool
    ensures { IsTrue result ↔ BeginsBlock bytes.now }
{
    let Some((length, rest)) = number_before(bytes, ' ') else {
        return begins_number(bytes);
    };
    let Some((_, body)) = number_before(rest, '\n') else {
        return begins_number(rest);
    };
    (body.len() as u64) < length
}

// What stands from a place on.
fn behind(bytes: &[u8], at: usize) -> &[u8]
    ensures { result.now ≡ drop at bytes.now }
{
    match bytes.split_at_checked(at) {
        Some((_, rest)) => rest,
        None => &[],
    }
}

// What stands before the first zero.
fn before_zero(bytes: &[u8]) -> &[u8]
    ensures lacks { Lacks 0 result.now }
    ensures rest { (rest : List ℕ) × (slice_index rest 0 ≡ 0) × (bytes.now ≡ result.now ++ rest) }
{
    match bytes.iter().position(|byte| *byte == 0) {
        Some(at) => &bytes[..at],
        None => bytes,
    }
}

/// Whether what stands from a place of a journal on, behind its last whole block, may be left of a write that was cut short: a block begins
/// so, up to the end or to a zero, since room is written ahead as zeros and parts of a write may not reach the disk. Other bytes were changed.
pub(crate) fn is_torn(bytes: &[u8], at: usize) -> bool
    ensures cut { IsCutBlock (drop at bytes.now) → IsTrue result }
    ensures parts { IsLeftOfBlock (drop at bytes.now) → IsTrue result }
    ensures full { IsFullBlock (drop at bytes.now) → ¬ IsTrue result }
    ensures exact { IsTrue result ↔ IsTorn (drop at bytes.now) }
{
    begins_block(before_zero(behind(bytes, at)))
}
