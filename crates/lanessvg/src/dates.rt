//! The date of stamps.
use lanes::run::{Note, Run};
use std::alloc::{AllocError, Global};

// Whether a word is a date, as 2026-03-02.
fn is_date(word: &str) -> bool {
    let mut count = 0;
    for (at, letter) in word.chars().enumerate() {
        count = at + 1;
        let fits = match at {
            4 | 7 => letter == '-',
            _ => letter.is_ascii_digit(),
        };
        if !fits {
            return false;
        }
    }
    count == 10
}

/// The date of all stamps that notes name, where there is just one.
pub(crate) fn only_date(run: &Run) -> Option<&str> {
    let mut found: Option<&str> = None;
    for act in &run.acts {
        for event in &act.events {
            for note in &event.notes {
                match joined(found, dates_in(note)) {
                    Ok(date) => found = date,
                    Err(()) => return None,
                }
            }
        }
    }
    found
}

// The date that a note names, or that it names two.
fn dates_in(note: &Note) -> Result<Option<&str>, ()> {
    let mut found: Option<&str> = None;
    for word in note.long.as_str().split(' ') {
        if is_date(word) {
            found = joined(found, Ok(Some(word)))?;
        }
    }
    Ok(found)
}

fn joined<'a>(
    first: Option<&'a str>,
    second: Result<Option<&'a str>, ()>,
) -> Result<Option<&'a str>, ()> {
    match (first, second?) {
        (Some(first), Some(second)) if first == second => Ok(Some(first)),
        (Some(_), Some(_)) => Err(()),
        (None, second) => Ok(second),
        (first, None) => Ok(first),
    }
}

/// Words without this date where a time follows it.
pub(crate) fn without_date(
    alloc: Global,
    words: &str,
    date: Option<&str>,
) -> Result<String, AllocError> {
    let Some(date) = date else {
        return String::from_str(alloc, words);
    };
    let mut rest = words;
    let mut kept = String::new(alloc);
    for _ in 0..words.len() {
        let Some((word, after)) = rest.split_once(' ') else {
            break;
        };
        if word != date {
            kept.push_str(word)?;
            kept.push(' ')?;
        }
        rest = after;
    }
    kept.push_str(rest)?;
    Ok(kept)
}
