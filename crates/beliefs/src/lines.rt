//! Lines of text, put one behind another.
use std::alloc::AllocError;

/// Adds a line, without the blanks at its end.
pub fn put_line(line: &[u8], page: &mut Vec<u8>) -> Result<(), AllocError> {
    page.extend_from_slice(trimmed(line))?;
    page.push(b'\n')?;
    Ok(())
}

/// A text without the blanks at its end.
pub fn trimmed(text: &[u8]) -> &[u8] {
    let mut end = text.len();
    for at in (0..text.len()).rev() {
        if text[at] != b' ' {
            break;
        }
        end = at;
    }
    between(text, 0, end)
}

pub fn put_many(byte: u8, count: usize, line: &mut Vec<u8>) -> Result<(), AllocError> {
    for _ in 0..count {
        line.push(byte)?;
    }
    Ok(())
}

/// Adds a text, and blanks until it is so wide.
pub fn put_padded(text: &[u8], wide: usize, line: &mut Vec<u8>) -> Result<(), AllocError> {
    line.extend_from_slice(text)?;
    put_many(b' ', wide.saturating_sub(text.len()), line)
}

/// Writes a text over what stands at this place of a line, as far as that is there.
pub fn write_over(text: &[u8], place: usize, line: &mut [u8]) {
    for (at, byte) in text.iter().enumerate() {
        if let Some(under) = line.get_mut(place.saturating_add(at)) {
            *under = *byte;
        }
    }
}

/// The words of a statement on lines of at most so many bytes, where they have room, broken at blanks that stand in no text
/// of it.
pub fn put_wrapped(words: &str, width: usize, page: &mut Vec<u8>) -> Result<(), AllocError> {
    let bytes = words.as_bytes();
    let mut room = 0;
    let mut start = 0;
    let mut in_text = false;
    for (at, byte) in bytes.iter().enumerate() {
        in_text = in_text != (*byte == b'\'');
        if *byte == b' ' && !in_text {
            room = put_word(between(bytes, start, at), room, width, page)?;
            start = at.saturating_add(1);
        }
    }
    put_word(between(bytes, start, bytes.len()), room, width, page)?;
    page.push(b'\n')?;
    Ok(())
}

// Puts a word on a line that has so many bytes, or on the next one, and gives how many that line then has.
fn put_word(
    word: &[u8],
    used: usize,
    width: usize,
    page: &mut Vec<u8>,
) -> Result<usize, AllocError> {
    let after = used.saturating_add(word.len()).saturating_add(1);
    if word.is_empty() {
        return Ok(used);
    }
    if used == 0 {
        page.extend_from_slice(word)?;
        return Ok(word.len());
    }
    if after > width {
        page.push(b'\n')?;
        page.extend_from_slice(word)?;
        return Ok(word.len());
    }
    page.push(b' ')?;
    page.extend_from_slice(word)?;
    Ok(after)
}

/// The bytes from one place to another, as far as they are there.
pub fn between(text: &[u8], start: usize, end: usize) -> &[u8] {
    let end = end.min(text.len());
    if start >= end { &[] } else { &text[start..end] }
}
