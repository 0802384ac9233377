//! What can be said of a text that names no day.
use period::Day;
use std::alloc::{AllocError, Global};

const MONTHS: [&str; 12] = [
    "January",
    "February",
    "March",
    "April",
    "May",
    "June",
    "July",
    "August",
    "September",
    "October",
    "November",
    "December",
];

// How many days the month of a text of the shape dddd-dd-dd has, if there is such a month.
fn month_len(alloc: Global, text: &str) -> Result<Option<u8>, AllocError> {
    let month = text.get(..7).unwrap_or("");
    for days in 28..32u8 {
        let next = days.saturating_add(1);
        let text = format!(in alloc; "{month}-{next}")?;
        if Day::read(text.as_str(), 0).is_err() {
            let last = format!(in alloc; "{month}-{days}")?;
            return Ok(Day::read(last.as_str(), 0).is_ok().then_some(days));
        }
    }
    Ok(None)
}

// The name of the month of this number, in two digits.
fn month_name(digits: &str) -> Option<&'static str> {
    match digits.parse::<usize>() {
        Ok(number) if number > 0 => MONTHS.get(number - 1).copied(),
        _ => None,
    }
}

/// Why a text of the shape dddd-dd-dd names no day.
pub(crate) fn why_no_day(alloc: Global, text: &str) -> Result<String, AllocError> {
    let year = text.get(..4).unwrap_or("");
    let Some(month) = month_name(text.get(5..7).unwrap_or("")) else {
        return String::from_str(alloc, "a year has the months 01 to 12.");
    };
    match month_len(alloc, text)? {
        Some(days) => format!(in alloc; "{month} {year} has {days} days."),
        None => String::from_str(alloc, "days go from 0001-01-01 to 9999-12-31."),
    }
}
