//! The lives in a flight's text, as far as they read.
use crate::flight_parts::{ANY, LAST_SIGNED, Walked, block, choice, floor, number, signed, word};
use model::stamp::LAST_MICROS;

// The greatest number of a request.
const LAST_REQUEST: u64 = 4_611_686_018_427_387_904;

const LAST_CLIENT: u64 = 65_535;

// The greatest version of a flight.
const THREE: u64 = 3;

fn any(text: &[u8], end: u8) -> Walked<'_> {
    let (_, rest) = number(text, end, 0, ANY)?;
    Ok(rest)
}

fn mark(text: &[u8]) -> Walked<'_> {
    let (_, rest) = number(text, b' ', 1, LAST_SIGNED)?;
    Ok(rest)
}

fn flag(text: &[u8], end: u8) -> Walked<'_> {
    let (_, rest) = number(text, end, 0, 1)?;
    Ok(rest)
}

// A client and the number of its request, and the byte that ends it.
fn numbers(text: &[u8], end: u8) -> Walked<'_> {
    let (_, rest) = number(text, b' ', 1, LAST_CLIENT)?;
    let (_, rest) = number(rest, end, 1, LAST_REQUEST)?;
    Ok(rest)
}

fn request(text: &[u8]) -> Walked<'_> {
    let rest = numbers(text, b' ')?;
    let (_, rest) = block(rest, ANY)?;
    Ok(rest)
}

fn entry(text: &[u8]) -> Walked<'_> {
    let rest = word(text, "entry ")?;
    let rest = any(rest, b' ')?;
    let (_, rest) = number(rest, b' ', 0, LAST_MICROS)?;
    if rest.starts_with(b"c") {
        word(rest, "close\n")
    } else {
        request(rest)
    }
}

// How many entries, and these.
fn entries(text: &[u8]) -> Walked<'_> {
    let (count, mut rest) = number(text, b'\n', 0, ANY)?;
    for _ in 0..count {
        rest = entry(rest)?;
    }
    Ok(rest)
}

fn opening(version: u64, text: &[u8]) -> Walked<'_> {
    let rest = mark(text)?;
    let rest = any(rest, b' ')?;
    let rest = any(rest, b' ')?;
    let rest = if version == THREE {
        floor(rest, b' ')?
    } else {
        rest
    };
    entries(rest)
}

fn vote(version: u64, text: &[u8]) -> Walked<'_> {
    let rest = any(text, b' ')?;
    if version == THREE {
        let rest = flag(rest, b' ')?;
        floor(rest, b'\n')
    } else {
        flag(rest, b'\n')
    }
}

fn append(text: &[u8]) -> Walked<'_> {
    let rest = any(text, b' ')?;
    let rest = any(rest, b' ')?;
    let rest = any(rest, b' ')?;
    let rest = any(rest, b' ')?;
    entries(rest)
}

// A message, behind the word that it begins with.
fn said(version: u64, which: usize, text: &[u8]) -> Walked<'_> {
    match which {
        0 => any(any(any(text, b' ')?, b' ')?, b'\n'),
        1 => vote(version, text),
        2 => append(text),
        3 => any(flag(any(text, b' ')?, b' ')?, b'\n'),
        _ => {
            let rest = any(any(text, b' ')?, b' ')?;
            let (_, rest) = number(rest, b'\n', 0, LAST_MICROS)?;
            Ok(rest)
        }
    }
}

// Which message begins here.
fn kind(version: u64, text: &[u8]) -> Result<(usize, &[u8]), &[u8]> {
    if version == THREE {
        choice(
            text,
            &[
                "votereq ", "vote ", "append ", "reply ", "seek ", "stored ", "seal ",
            ],
        )
    } else {
        choice(text, &["votereq ", "vote ", "append ", "reply "])
    }
}

fn delivery(version: u64, text: &[u8]) -> Walked<'_> {
    let rest = mark(any(text, b' ')?)?;
    let (which, rest) = kind(version, rest)?;
    said(version, which, rest)
}

// Which input begins here; those but the first two have nothing behind their word.
fn input(version: u64, text: &[u8]) -> Result<(usize, &[u8]), &[u8]> {
    if version == THREE {
        choice(
            text,
            &[
                "submit ",
                "from ",
                "timeout\n",
                "beat\n",
                "close\n",
                "floor\n",
            ],
        )
    } else {
        choice(
            text,
            &["submit ", "from ", "timeout\n", "beat\n", "close\n"],
        )
    }
}

fn packet(version: u64, text: &[u8]) -> Walked<'_> {
    let (which, rest) = input(version, text)?;
    match which {
        0 => request(rest),
        1 => delivery(version, rest),
        _ => Ok(rest),
    }
}

fn made(version: u64, text: &[u8]) -> Walked<'_> {
    packet(version, signed(mark(text)?)?)
}

fn outcome(text: &[u8]) -> Walked<'_> {
    let rest = numbers(any(text, b' ')?, b'\n')?;
    let (_, rest) = block(word(rest, "text ")?, ANY)?;
    Ok(rest)
}

// How a life goes on or ends here; behind a step it may have told outcomes.
fn turn(may_tell: bool, text: &[u8]) -> Result<(usize, &[u8]), &[u8]> {
    if may_tell {
        choice(text, &["step ", "up\n", "stopped\n", "torn ", "outcome "])
    } else {
        choice(text, &["step ", "up\n", "stopped\n", "torn "])
    }
}

// The steps of a life and its ending, and whether it ends up.
fn course(version: u64, text: &[u8]) -> Result<(bool, &[u8]), &[u8]> {
    let mut rest = text;
    let mut may_tell = false;
    for _ in 0..=text.len() {
        let (which, left) = turn(may_tell, rest)?;
        match which {
            0 => {
                rest = made(version, left)?;
                may_tell = version > 1;
            }
            1 => return Ok((true, left)),
            2 => return Ok((false, left)),
            3 => return Ok((false, made(version, left)?)),
            _ => rest = outcome(left)?,
        }
    }
    Err(rest)
}

// What follows a life: an answer, the end, or another life, unless it ended up.
fn next(is_up: bool, text: &[u8]) -> Result<(usize, &[u8]), &[u8]> {
    if is_up {
        choice(text, &["answer ", "end\n"])
    } else {
        choice(text, &["answer ", "end\n", "life "])
    }
}

/// The lives of a flight of this version; whether an answer stands behind them, and what follows the word of that or the end.
pub(crate) fn lives(version: u64, text: &[u8]) -> Result<(bool, &[u8]), &[u8]> {
    let mut rest = word(text, "life ")?;
    for _ in 0..=text.len() {
        let (is_up, left) = course(version, opening(version, rest)?)?;
        let (which, left) = next(is_up, left)?;
        if which < 2 {
            return Ok((which == 0, left));
        }
        rest = left;
    }
    Err(rest)
}
