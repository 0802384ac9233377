//! The parts of a flight's text. Each gives what follows it in the text, or the rest of the text from the first byte at
//! which no such part goes on.

use model::stamp::LAST_MICROS;

/// What follows in a text, or from where on nothing reads.
pub(crate) type Walked<'a> = Result<&'a [u8], &'a [u8]>;

/// A number, and what follows it.
pub(crate) type Counted<'a> = Result<(u64, &'a [u8]), &'a [u8]>;

/// The greatest number below 2^63.
pub(crate) const LAST_SIGNED: u64 = 9_223_372_036_854_775_807;

/// Any number of 64 bits.
pub(crate) const ANY: u64 = u64::MAX;

fn from(text: &[u8], at: usize) -> &[u8] {
    text.get(at..).unwrap_or_default()
}

// How many bytes the text and the word have in common at their beginnings.
fn common(text: &[u8], word: &str) -> usize {
    let pairs = text.iter().zip(word.as_bytes());
    pairs.take_while(|(one, other)| *one == *other).count()
}

/// Which of these words stands here, by its place among them.
pub(crate) fn choice<'a>(text: &'a [u8], words: &[&str]) -> Result<(usize, &'a [u8]), &'a [u8]> {
    let mut longest = 0;
    for (at, word) in words.iter().enumerate() {
        let length = common(text, word);
        if length == word.len() {
            return Ok((at, from(text, length)));
        }
        longest = longest.max(length);
    }
    Err(from(text, longest))
}

/// This word.
pub(crate) fn word<'a>(text: &'a [u8], word: &str) -> Walked<'a> {
    let (_, rest) = choice(text, &[word])?;
    Ok(rest)
}

// The number that this digit makes of the digits before it, if it may stand behind them.
fn with_digit(digits: Option<u64>, byte: u8) -> Option<u64> {
    if !byte.is_ascii_digit() || digits == Some(0) {
        return None;
    }
    let digit = u64::from(byte.saturating_sub(b'0'));
    digits.unwrap_or(0).checked_mul(10)?.checked_add(digit)
}

// Whether these digits are a number in this range, or begin one. The least is below 10.
fn may_be(digits: u64, least: u64, most: u64) -> bool {
    digits <= most && (digits >= least || (digits > 0 && digits.saturating_mul(10) <= most))
}

/// A number in this range, of which the least is below 10, in decimal without leading zeros, and the byte that ends it.
pub(crate) fn number(text: &[u8], end: u8, least: u64, most: u64) -> Counted<'_> {
    let mut digits = None;
    for (at, byte) in text.iter().enumerate() {
        match digits {
            Some(value) if *byte == end && value >= least => {
                return Ok((value, from(text, at.saturating_add(1))));
            }
            _ => {}
        }
        digits = with_digit(digits, *byte);
        match digits {
            Some(value) if may_be(value, least, most) => {}
            _ => return Err(from(text, at)),
        }
    }
    Err(from(text, text.len()))
}

/// A number of 64 bits that may be below zero, and a space.
pub(crate) fn signed(text: &[u8]) -> Walked<'_> {
    let (_, rest) = match text.strip_prefix(b"-") {
        Some(digits) => number(digits, b' ', 1, LAST_SIGNED + 1)?,
        None => number(text, b' ', 0, LAST_SIGNED)?,
    };
    Ok(rest)
}

/// A floor, or -1 for none, and the byte that ends it.
pub(crate) fn floor(text: &[u8], end: u8) -> Walked<'_> {
    let (_, rest) = match text.strip_prefix(b"-") {
        Some(digits) => number(digits, end, 1, 1)?,
        None => number(text, end, 0, LAST_MICROS)?,
    };
    Ok(rest)
}

/// A length of so many bytes at most, a line feed, as many bytes, and a line feed. It gives the bytes too.
pub(crate) fn block(text: &[u8], most: u64) -> Result<(&[u8], &[u8]), &[u8]> {
    let (length, rest) = number(text, b'\n', 0, most)?;
    let Some((bytes, rest)) = rest.split_at_checked(length as usize) else {
        return Err(from(rest, rest.len()));
    };
    let rest = word(rest, "\n")?;
    Ok((bytes, rest))
}
