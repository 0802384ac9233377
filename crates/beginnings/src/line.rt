//! Beginnings of the flights of a group as a line that is kept: one word, without blanks.
ghost use Rattle.std.specs.Prelude.{◌≡◌, ◌≢◌, ◌↔◌, ℕ, List, [], Ok, All, IsTrue, IfOk, IfErr, IfSome, IfNone, OnOk, string_bytes};
ghost use Rattle.fault.specs.declared.refusal.Refusal.TheVariants.{BadFlight};
ghost use Rattle.flight.specs.Additions.{Adds};
ghost use Rattle.flight.specs.Reading.{Spells, SpellsOnly, SpellsOnlyTo, IsUnread, IsUnreadTo};
ghost use Rattle.flight.specs.Spelling.{each_text};
ghost use Rattle.hex.specs.Hex.{decode_sized, encode_lower};
ghost use Rattle.beginnings.specs.Lines.{digest_text, line_text, part_text, IsDigest, IsKept, IsOver};
ghost use Rattle.beginnings.specs.declared.beginning.Beginning.{Beginning as Kept};

use crate::beginning::Beginning;
use fault::Refusal;
use flight::parts::{past, read_number};
use hex::FromHex;
use std::alloc::{AllocError, Global};

fn put_part(alloc: Global, beginning: &Beginning, text: &mut String) -> Result<(), AllocError>
    ensures { OnOk result (Adds (string_bytes text.old) (string_bytes text.new) (part_text beginning.now)) }
{
    let bytes = beginning.bytes;
    let answers = beginning.answers;
    let digest = hex::encode(alloc, beginning.digest.as_slice())?;
    write!(text, ":{bytes}+{answers}-{digest}")
}

fn put_parts(alloc: Global, seen: &[Beginning], text: &mut String) -> Result<(), AllocError>
    ensures { OnOk result (Adds (string_bytes text.old) (string_bytes text.new) (each_text part_text seen.now)) }
{
    for beginning in seen {
        put_part(alloc, beginning, text)?;
    }
    Ok(())
}

/// The line of these beginnings, in the order of the nodes: `1` and, of each, `:BYTES+ANSWERS-DIGEST`, the digest in hex digits of
/// lower case. The error is want of memory.
pub fn line_of(alloc: Global, seen: &[Beginning]) -> Result<String, AllocError>
    ensures { IfOk result (λ line. string_bytes line ≡ line_text seen.now) }
{
    let mut text = String::new(alloc);
    text.push_str("1")?;
    put_parts(alloc, seen, &mut text)?;
    Ok(text)
}

// The bytes that 64 hex digits stand for.
fn read_hex(word: &str) -> Option<[u8; 32]>
    ensures some { IfSome result (λ digest. (decode_sized word.now 32 ≡ Ok digest) × IsDigest digest) }
    ensures none { IfNone result ((digest : List ℕ) → decode_sized word.now 32 ≢ Ok digest) }
{
    <[u8; 32] as FromHex>::from_hex(word).ok()
}

// Whether a word is how a digest is spelled.
fn is_hex_of(alloc: Global, digest: &[u8; 32], word: &str) -> Result<bool, AllocError>
    ensures { IfOk result (λ is. IsTrue is ↔ (encode_lower digest.now ≡ word.now)) }
{
    let spelled = hex::encode(alloc, digest.as_slice())?;
    Ok(spelled.as_str() == word)
}

// A digest in hex digits of lower case.
fn read_digest(alloc: Global, text: &str) -> Result<([u8; 32], &str), Refusal>
    ensures ok { IfOk result (λ p. Spells IsDigest digest_text text.now p.0 p.1.now) }
    ensures only { IfOk result (λ p. SpellsOnly IsDigest digest_text text.now p.0 p.1.now) }
    ensures err { IfErr result (IsUnread IsDigest digest_text text.now) }
{
    let Some((word, rest)) = text.split_at_checked(64) else {
        return Err(Refusal::BadFlight);
    };
    let Some(digest) = read_hex(word) else {
        return Err(Refusal::BadFlight);
    };
    let is_lower = is_hex_of(alloc, &digest, word)?;
    if !is_lower {
        return Err(Refusal::BadFlight);
    }
    Ok((digest, rest))
}

// What is kept of a node.
fn read_part(alloc: Global, text: &str) -> Result<(Beginning, &str), Refusal>
    ensures ok { IfOk result (λ p. Spells IsKept part_text text.now p.0 p.1.now) }
    ensures only { IfOk result (λ p. SpellsOnly IsKept part_text text.now p.0 p.1.now) }
    ensures err { IfErr result (IsUnread IsKept part_text text.now) }
{
    let rest = past(text, ":")?;
    let (bytes, rest) = read_number(rest, '+')?;
    let (answers, rest) = read_number(rest, '-')?;
    let (digest, rest) = read_digest(alloc, rest)?;
    let beginning = Beginning {
        bytes: bytes as usize,
        answers: answers as usize,
        digest,
    };
    Ok((beginning, rest))
}

// What is kept of nodes, up to the end of the text.
fn read_parts(alloc: Global, text: &str) -> Result<Vec<Beginning>, Refusal>
    ensures ok { IfOk result (λ seen. Spells (All IsKept) (each_text part_text) text.now seen.items []) }
    ensures only { IfOk result (λ seen. SpellsOnlyTo (All IsKept) (each_text part_text) IsOver text.now seen.items []) }
    ensures err { IfErr result (IsUnreadTo (All IsKept) (each_text part_text) IsOver text.now) }
{
    let mut seen = Vec::new(alloc);
    let mut rest = text;
    while !rest.is_empty() {
        let (beginning, left) = read_part(alloc, rest)?;
        seen.push(beginning)?;
        rest = left;
    }
    Ok(seen)
}

/// The beginnings that a line spells, in the order of the nodes; none where it is another text than `line_of` gives. The error is want
/// of memory.
pub fn read_line(alloc: Global, line: &str) -> Result<Option<Vec<Beginning>>, AllocError>
    ensures some { IfOk result (λ read. IfSome read (λ seen. All IsKept seen.items × (line.now ≡ line_text seen.items))) }
    ensures only { IfOk result (λ read. IfSome read (λ seen. (other : List Kept) → All IsKept other → line.now ≡ line_text other → other ≡ seen.items)) }
    ensures none { IfOk result (λ read. IfNone read ((other : List Kept) → All IsKept other → line.now ≢ line_text other)) }
{
    let Ok(rest) = past(line, "1") else {
        return Ok(None);
    };
    match read_parts(alloc, rest) {
        Ok(seen) => Ok(Some(seen)),
        Err(Refusal::NoMemory) => Err(AllocError),
        Err(_) => Ok(None),
    }
}
