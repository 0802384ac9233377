//! The lines of a script with their numbers.
use std::alloc::{AllocError, Global};

/// The lines of a script after its schema, without those that are left out: each with its number, from 1.
pub(crate) fn numbered<'a>(
    alloc: Global,
    script: &'a str,
) -> Result<Vec<(usize, &'a str)>, AllocError> {
    let mut lines = Vec::new(alloc);
    let mut is_after_schema = false;
    for (at, line) in script.split('\n').enumerate() {
        if !is_after_schema {
            is_after_schema = line == "end";
        } else if !line.is_empty() && !line.starts_with('#') {
            lines.push((at + 1, line))?;
        }
    }
    Ok(lines)
}

// A control character, or one that no page can have, is `?`.
fn shown(sign: char) -> char {
    if sign.is_control() || sign == '\u{FFFE}' || sign == '\u{FFFF}' {
        '?'
    } else {
        sign
    }
}

/// A text as a terminal and a page can show it.
pub(crate) fn printable(alloc: Global, text: &str) -> Result<String, AllocError> {
    let mut shown_text = String::new(alloc);
    for sign in text.chars() {
        shown_text.push(shown(sign))?;
    }
    Ok(shown_text)
}
