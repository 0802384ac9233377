//! Blocks, of which a journal is made: what one write puts into its file.
ghost use Rattle.std.specs.Prelude.{◌≡◌, ◌≢◌, ◌++◌, ℕ, List, IfSome, IfNone, IfOk, OnOk, MatchOption, string_bytes, length};
ghost use Rattle.std.specs.Str.{IsUtf8};
ghost use Rattle.flight.specs.Additions.{Adds};
ghost use Rattle.flight.specs.Ranges.{IsNumber};
ghost use Rattle.journal.specs.Blocks.{sum_after, IsBody, framed_text, block_text, IsFirst, AreWholeBlocks};

use crate::reading::read_opens;
use flight::parts::{after, read_number};
use std::alloc::AllocError;

/// The sum of nothing.
pub const FIRST_SUM: u64 = 14695981039346656037;

// What the sum is multiplied by at each byte.
const PRIME: u64 = 1099511628211;

/// The sum with these bytes more: 64 bits of FNV-1a ("The FNV Non-Cryptographic Hash Algorithm").
pub fn sum_after(before: u64, bytes: &[u8]) -> u64
    ensures { result ≡ sum_after before bytes.now }
{
    let mut sum = before;
    for byte in bytes {
        sum = (sum ^ u64::from(*byte)).wrapping_mul(PRIME);
    }
    sum
}

/// Adds a block with these lines to the text, after the block that has this sum, and gives its own. The error is want of memory,
/// and a part of it may stand there then.
pub fn put_block(before: u64, body: &str, text: &mut String) -> Result<u64, AllocError>
    ensures sum { IfOk result (λ sum. sum ≡ sum_after before body.now) }
    ensures block { OnOk result (Adds (string_bytes text.old) (string_bytes text.new) (block_text before body.now)) }
{
    let sum = sum_after(before, body.as_bytes());
    let length = body.len();
    write!(text, "{length} {sum}\n{body}")?;
    Ok(sum)
}

/// A block that stands at the beginning of a text.
#[derive(Clone, Copy)]
pub struct Block<'a> {
    /// Its lines.
    pub body: &'a str,
    pub sum: u64,
    /// What follows it.
    pub rest: &'a str,
}

// What may be a block: its length fits.
fn parts_of(text: &str) -> Option<Block<'_>>
    ensures some { IfSome result (λ b. text.now ≡ framed_text b.sum b.body.now b.rest.now) }
    ensures every { (sum : ℕ) (body rest : List ℕ) → IsNumber sum → IsUtf8 body → IsNumber (length body) → text.now ≡ framed_text sum body rest → MatchOption result ⊥ (λ b. (b.sum ≡ sum) × (b.body.now ≡ body) × (b.rest.now ≡ rest)) }
{
    let Ok((length, rest)) = read_number(text, ' ') else {
        return None;
    };
    let Ok((sum, rest)) = read_number(rest, '\n') else {
        return None;
    };
    let Some((body, rest)) = rest.split_at_checked(length as usize) else {
        return None;
    };
    Some(Block { body, sum, rest })
}

/// The block that the text begins with, after the block that has this sum. None where none stands there: what does is torn, or was
/// changed, or is room that is not written yet.
pub fn block_after(before: u64, text: &str) -> Option<Block<'_>>
    ensures some { IfSome result (λ b. IsBody b.body.now × (text.now ≡ block_text before b.body.now b.rest.now) × (b.sum ≡ sum_after before b.body.now)) }
    ensures every { (body rest : List ℕ) → IsBody body → text.now ≡ block_text before body rest → MatchOption result ⊥ (λ b. (b.body.now ≡ body) × (b.rest.now ≡ rest)) }
{
    let Some(block) = parts_of(text) else {
        return None;
    };
    if block.body.is_empty() {
        return None;
    }
    if sum_after(before, block.body.as_bytes()) != block.sum {
        return None;
    }
    Some(block)
}

/// The block that the text begins with, after the one that its first line names. None where none stands there, or where its first
/// line is none that opens a journal.
pub fn first_block(text: &str) -> Option<Block<'_>>
    ensures some { IfSome result (λ b. IsBody b.body.now × ((before : ℕ) × IsFirst before b.body.now × (text.now ≡ block_text before b.body.now b.rest.now) × (b.sum ≡ sum_after before b.body.now))) }
    ensures every { (before : ℕ) (body rest : List ℕ) → IsBody body → IsFirst before body → text.now ≡ block_text before body rest → MatchOption result ⊥ (λ b. (b.body.now ≡ body) × (b.rest.now ≡ rest)) }
{
    let Some(block) = parts_of(text) else {
        return None;
    };
    let Some(opening) = after(block.body, "opens ") else {
        return None;
    };
    let Ok(((_, sum, _), _)) = read_opens(opening) else {
        return None;
    };
    block_after(sum, text)
}

/// Where the whole blocks at the beginning of a text end.
#[derive(Clone, Copy)]
pub struct End<'a> {
    /// The sum of the last one.
    pub sum: u64,
    /// What follows it.
    pub rest: &'a str,
}

/// Where the whole blocks end that the text begins with, after the block that has this sum: what follows is no block.
pub fn whole_blocks(before: u64, text: &str) -> End<'_>
    ensures { (bodies : List (List ℕ)) × AreWholeBlocks before text.now bodies result.sum result.rest.now }
{
    let mut sum = before;
    let mut rest = text;
    while let Some(block) = block_after(sum, rest) {
        sum = block.sum;
        rest = block.rest;
    }
    End { sum, rest }
}

// Bytes that are text.
fn text_of(bytes: &[u8]) -> &str
    requires { IsUtf8 bytes.now }
    ensures { result.now ≡ bytes.now }
{
    match str::from_utf8(bytes) {
        Ok(text) => text,
        Err(_) => "",
    }
}

/// What of the bytes of a file is text, from its beginning on, and no less: a write that was torn may end in the midst of a letter.
pub fn text_in(bytes: &[u8]) -> &str
    ensures front { (torn : List ℕ) × (bytes.now ≡ result.now ++ torn) }
    ensures longest { (front torn : List ℕ) → IsUtf8 front → bytes.now ≡ front ++ torn → (more : List ℕ) × (result.now ≡ front ++ more) }
{
    match str::from_utf8(bytes) {
        Ok(text) => text,
        Err(error) => text_of(&bytes[..error.valid_up_to()]),
    }
}
