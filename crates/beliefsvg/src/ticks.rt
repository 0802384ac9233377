//! The ticks of a ruler of days.
use jiff_core::civil::Date;
use std::alloc::{AllocError, Global};

pub(crate) const MONTHS: [&str; 12] = [
    "Jan", "Feb", "Mar", "Apr", "May", "Jun", "Jul", "Aug", "Sep", "Oct", "Nov", "Dec",
];

// How many days lie between -9999-01-01, from which `jiff_core` counts, and 0001-01-01.
const DAYS_BEFORE_FIRST: u32 = 3_652_425;

const LAST_DAY: u32 = 3_652_058;

pub(crate) fn date_of(day: u32) -> Date {
    Date::from_days_since_min(day.min(LAST_DAY) + DAYS_BEFORE_FIRST)
}

/// The number of a day, if there is such a day.
pub(crate) fn first_of(year: i16, month: i8) -> Option<u32> {
    match Date::new(year, month, 1) {
        Ok(date) => Some(date.days_since_min().saturating_sub(DAYS_BEFORE_FIRST)),
        Err(_) => None,
    }
}

pub(crate) fn month_name(month: u8) -> &'static str {
    let place = usize::from(month.saturating_sub(1));
    MONTHS.get(place).copied().unwrap_or("")
}

/// A tick: where it is, and its words, if it has some.
#[derive(Drop)]
pub(crate) struct Tick<T> {
    pub(crate) at: T,
    pub(crate) words: String,
}

/// The first of the steps at which a year has so much room, of so many points a day.
pub(crate) fn year_step(steps: &[i16], last: i16, day_wide: f64, room: f64) -> i16 {
    for step in steps {
        if f64::from(*step) * 365.0 * day_wide >= room {
            return *step;
        }
    }
    last
}

/// The ticks between two days: each January 1st that is a step of 1, 2, 5, 10, .. years, as far as words have room; the months
/// between where they have. Where no year begins, the first of each month.
pub(crate) fn day_ticks(
    alloc: Global,
    first: u32,
    last: u32,
    day_wide: f64,
) -> Result<Vec<Tick<u32>>, AllocError> {
    let steps = [1, 2, 5, 10, 20, 50, 100, 200, 500, 1000];
    let step = year_step(&steps, 2000, day_wide, 44.0);
    let most = if 30.0 * day_wide >= 5.0 { 12 } else { 1 };
    let mut ticks = Vec::new(alloc);
    let mut has_words = false;
    for year in date_of(first).year..=date_of(last).year {
        for month in 1..=most {
            let is_year = month == 1 && year.checked_rem(step) == Some(0);
            let Some(at) = first_of(year, month) else {
                continue;
            };
            if first <= at && at <= last && (month > 1 || is_year) {
                has_words = has_words || is_year;
                let words = if is_year {
                    format!(in alloc; "{year}")?
                } else {
                    String::new(alloc)
                };
                ticks.push(Tick { at, words })?;
            }
        }
    }
    if !has_words {
        name_months(alloc, ticks.as_mut_slice(), 30.0 * day_wide >= 70.0)?;
    }
    Ok(ticks)
}

// Names the months: all, or the first one alone.
fn name_months(alloc: Global, ticks: &mut [Tick<u32>], all: bool) -> Result<(), AllocError> {
    let mut is_first = true;
    for tick in ticks {
        if all || is_first {
            let date = date_of(tick.at);
            let year = date.year;
            let month = month_name(date.month);
            tick.words = format!(in alloc; "{month} {year}")?;
        }
        is_first = false;
    }
    Ok(())
}
