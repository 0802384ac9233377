//! The bytes of a flight's file that stay as its node goes on.
ghost use Rattle.std.specs.Prelude.{◌≡◌, ◌++◌, IfOk, OnOk, map, string_bytes};
ghost use Rattle.flight.specs.Additions.{Adds};
ghost use Rattle.flight.specs.Contents.{in_flight, in_life};
ghost use Rattle.flight.specs.Ranges.{is_up};
ghost use Rattle.flight.specs.Spelling.{answer_text, each_text};
ghost use Rattle.sha2.specs.Sha256.{sha256};
ghost use Rattle.beginnings.specs.Stems.{ends_up, said, stem_of, tail_of, up_line};

use flight::flight::{Answered, Flight};
use flight::life::{Ending, Life};
use flight::{put_answers, text_of_flight};
use sha2::{Digest, Sha256};
use std::alloc::{AllocError, Global};

fn is_up(ending: &Ending) -> bool
    ensures { result ≡ is_up ending.now }
{
    match ending {
        Ending::Up => true,
        Ending::Stopped | Ending::Torn(_) => false,
    }
}

// Whether the last life is up.
fn ends_up(lives: &[Life]) -> bool
    ensures { result ≡ ends_up (map in_life lives.now) }
{
    match lives.last() {
        Some(life) => is_up(&life.ending),
        None => false,
    }
}

// The line `up`, if the last life is.
fn up_line(lives: &[Life]) -> &'static str
    ensures { result.now ≡ up_line (map in_life lives.now) }
{
    if ends_up(lives) { "up\n" } else { "" }
}

// Answers as they stand in a flight's file.
fn said_by(alloc: Global, answers: &[Answered]) -> Result<String, AllocError>
    ensures { IfOk result (λ text. string_bytes text ≡ said answers.now) }
{
    let mut text = String::new(alloc);
    put_answers(answers, &mut text)?;
    Ok(text)
}

// The last lines of a flight's file, of which something else may come.
fn tail_of(alloc: Global, flight: &Flight) -> Result<String, AllocError>
    ensures { IfOk result (λ text. string_bytes text ≡ tail_of (in_flight flight.now)) }
{
    let mut text = String::new(alloc);
    text.push_str(up_line(flight.lives.as_slice()))?;
    put_answers(flight.answers.as_slice(), &mut text)?;
    text.push_str("end\n")?;
    Ok(text)
}

/// The bytes of a flight's file before these lines. The error is want of memory.
pub(crate) fn stem_of(alloc: Global, flight: &Flight) -> Result<Vec<u8>, AllocError>
    ensures { IfOk result (λ stem. stem.items ≡ stem_of (in_flight flight.now)) }
{
    let tail = tail_of(alloc, flight)?;
    let mut stem = text_of_flight(alloc, flight)?.into_bytes();
    stem.truncate(stem.len().saturating_sub(tail.len()));
    Ok(stem)
}

/// The digest of these bytes and, behind them, of answers as they stand in the file. The error is want of memory.
pub(crate) fn digest_of(
    alloc: Global,
    bytes: &[u8],
    answers: &[Answered],
) -> Result<[u8; 32], AllocError>
    ensures { IfOk result (λ digest. digest ≡ sha256 (bytes.now ++ said answers.now)) }
{
    let behind = said_by(alloc, answers)?;
    let mut hasher = Sha256::new();
    hasher.update(bytes);
    hasher.update(behind.as_bytes());
    Ok(hasher.finalize())
}
