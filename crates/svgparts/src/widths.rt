//! How wide words are.
use std::alloc::{AllocError, Global};

// How wide a letter is, in parts of the size of its font: an upper bound for any usual one.
fn letter_wide(letter: char) -> f64 {
    match letter {
        'm' | 'w' | 'M' | 'W' | '@' | '%' => 1.0,
        'A'..='Z' | '&' | '#' | '+' | '<' | '=' | '>' | '~' => 0.84,
        'i' | 'l' | 'j' | '.' | ',' | ':' | ';' | '\'' | '|' | '!' => 0.42,
        '(' | ')' | '[' | ']' | '-' | '/' | ' ' => 0.42,
        '0'..='9' => 0.64,
        _ => 0.65,
    }
}

/// An upper bound of the room that words take.
pub fn words_wide(words: &str, size: f64, is_bold: bool) -> f64 {
    let mut wide = 0.0;
    for letter in words.chars() {
        wide += letter_wide(letter);
    }
    wide * size * if is_bold { 1.1 } else { 1.0 }
}

/// The words, cut with two points where they pass the room.
pub fn fitted(alloc: Global, words: &str, room: f64, is_bold: bool) -> Result<String, AllocError> {
    if words_wide(words, 13.0, is_bold) <= room {
        return String::from_str(alloc, words);
    }
    let mut kept = String::new(alloc);
    for letter in words.chars() {
        let longer = format!(in alloc; "{kept}{letter}..")?;
        if words_wide(longer.as_str(), 13.0, is_bold) > room {
            break;
        }
        kept.push(letter)?;
    }
    let kept = kept.as_str().trim_end();
    format!(in alloc; "{kept}..")
}
