//! Days in words.
use jiff_core::civil::Date;
use period::Day;
use std::alloc::{AllocError, Global};

/// The number of 9999-12-31, which as a period's end says that it has none.
pub const LAST_DAY: u32 = 3_652_058;

// How many days lie between -9999-01-01, from which `jiff_core` counts, and 0001-01-01.
const DAYS_BEFORE_FIRST: u32 = 3_652_425;

fn date_of(day: u32) -> Date {
    Date::from_days_since_min(day.min(LAST_DAY) + DAYS_BEFORE_FIRST)
}

// How many months lie between two dates, if it is a whole number of them.
fn whole_months(start: Date, end: Date) -> Option<u32> {
    if start.day != end.day {
        return None;
    }
    let months_of = |date: Date| i32::from(date.year) * 12 + i32::from(date.month);
    Some(months_of(end).abs_diff(months_of(start)))
}

/// How long a stretch of days is, in words: years or months where it is so many whole ones, else days; nothing where it
/// has no end.
pub fn length_text(alloc: Global, start: u32, end: u32) -> Result<String, AllocError> {
    if end >= LAST_DAY {
        return Ok(String::new(alloc));
    }
    match whole_months(date_of(start), date_of(end)) {
        Some(months) if months > 0 && months % 12 == 0 => counted(alloc, months / 12, "year"),
        Some(months) if months > 0 => counted(alloc, months, "month"),
        _ => counted(alloc, end.saturating_sub(start), "day"),
    }
}

// A number with a comma before its last three digits, and what is counted.
fn counted(alloc: Global, count: u32, word: &str) -> Result<String, AllocError> {
    let plural = if count == 1 { "" } else { "s" };
    let thousands = count / 1000;
    let rest = count % 1000;
    match thousands {
        0 => format!(in alloc; "{rest} {word}{plural}"),
        1..=999 => format!(in alloc; "{thousands},{rest:03} {word}{plural}"),
        _ => {
            let millions = thousands / 1000;
            let thousands = thousands % 1000;
            format!(in alloc; "{millions},{thousands:03},{rest:03} {word}{plural}")
        }
    }
}

/// A day as YYYY-MM-DD, and the last one as the words for no end.
pub fn day_or_no_end(alloc: Global, day: u32) -> Result<String, AllocError> {
    if day >= LAST_DAY {
        return String::from_str(alloc, "no end");
    }
    let day = Day { number: day };
    day.to_string(alloc)
}
