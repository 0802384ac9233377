//! What a picture of an answer shows: of each key its versions as boxes.
use answer::{Answer, Shown, Shows};
use looks::shown_value;
use model::stamp::Stamp;
use std::alloc::{AllocError, Global};
use std::collections::BTreeSet;

/// The instant of a system end that is open: later than each that there is.
pub const OPEN: u64 = u64::MAX;

/// Which instants a question asks about.
#[derive(Clone, Copy, Debug, PartialEq, Eq)]
pub enum Time {
    /// The one that is closed as it is answered.
    Now,
    /// One, by AS OF.
    AsOf,
    /// Those from this one on.
    From(Stamp),
}

/// A question of which an answer is drawn.
#[derive(Clone, Copy, Debug)]
pub struct Asking<'a> {
    /// The table's name, as declared.
    pub table: &'a str,
    /// The question, as it was asked.
    pub text: &'a str,
    pub time: Time,
}

impl Asking<'_> {
    /// What an open system end is called: what is so now goes on, what was so at an instant may not.
    pub fn top(&self) -> &'static str {
        match self.time {
            Time::AsOf => "believed then",
            Time::Now | Time::From(_) => "still believed",
        }
    }

    // The first instant that it asks about, of an answer whose last is this.
    fn first(&self, last: Stamp) -> u64 {
        match self.time {
            Time::From(first) => first.micros(),
            Time::Now | Time::AsOf => last.micros(),
        }
    }
}

/// A row: its days and its instants, each from the first to the one after the last, and the values of its value columns.
#[derive(Debug, Drop)]
pub struct Version {
    /// The first day, counted from 0001-01-01.
    pub start: u32,
    /// The day after the last.
    pub end: u32,
    /// In microseconds since 1970.
    pub since: u64,
    /// `OPEN` where it has not ended.
    pub until: u64,
    pub values: Vec<String>,
}

impl Version {
    /// Whether it is what is believed of this day at this instant.
    pub fn covers(&self, day: u32, instant: u64) -> bool {
        self.start <= day && day < self.end && self.lives(instant)
    }

    /// Whether it is believed at this instant.
    pub fn lives(&self, instant: u64) -> bool {
        self.since <= instant && instant < self.until
    }

    /// Whether it has not ended in system time.
    pub fn is_believed(&self) -> bool {
        self.until == OPEN
    }
}

/// A key of an answer with its versions.
#[derive(Debug, Drop)]
pub struct Picture {
    /// The table, and the values of the key with their columns' names.
    pub title: String,
    /// The names of the value columns.
    pub names: Vec<String>,
    pub versions: Vec<Version>,
    /// The days on which a version begins or ends, in order.
    pub days: Vec<u32>,
    /// The instants at which one does, in order, and `first` where of some day it was not asked what was believed before.
    pub instants: Vec<u64>,
    /// The first instant that is asked about.
    pub first: u64,
}

impl Picture {
    /// Whether something was not asked.
    pub fn has_unasked(&self) -> bool {
        self.instants.contains(&self.first)
    }
}

/// The keys of an answer, in its order.
pub fn pictures_of(
    alloc: Global,
    answer: &Answer,
    asking: &Asking,
) -> Result<Vec<Picture>, AllocError> {
    let rows = answer.rows.as_slice();
    let mut pictures = Vec::new(alloc);
    let mut start = 0;
    for at in 1..=rows.len() {
        if !are_of_one_key(rows, start, at) {
            if let Some(own) = rows.get(start..at) {
                pictures.push(picture_of(alloc, answer, asking, own)?)?;
            }
            start = at;
        }
    }
    Ok(pictures)
}

// Whether the rows at these places are there and have one key.
fn are_of_one_key(rows: &[Shown], first: usize, second: usize) -> bool {
    match (rows.get(first), rows.get(second)) {
        (Some(first), Some(second)) => first.key == second.key,
        _ => false,
    }
}

// The rows are those of one key.
fn picture_of(
    alloc: Global,
    answer: &Answer,
    asking: &Asking,
    rows: &[Shown],
) -> Result<Picture, AllocError> {
    let versions = versions_of(alloc, answer, rows)?;
    let days = days_of(alloc, versions.as_slice())?;
    let first = asking.first(answer.last);
    let instants = instants_of(alloc, versions.as_slice(), days.as_slice(), first)?;
    Ok(Picture {
        title: title_of(alloc, answer, asking, rows)?,
        names: names_of(alloc, answer)?,
        versions,
        days,
        instants,
        first,
    })
}

fn title_of(
    alloc: Global,
    answer: &Answer,
    asking: &Asking,
    rows: &[Shown],
) -> Result<String, AllocError> {
    let mut title = String::from_str(alloc, asking.table)?;
    let Some(row) = rows.first() else {
        return Ok(title);
    };
    for place in 0..row.key.len() {
        let shows = Shows::Key(place);
        let name = name_of(answer, shows);
        let value = shown_value(alloc, row, shows)?;
        title.push_str(", ")?;
        title.push_str(name)?;
        title.push_str(" ")?;
        title.push_str(value.as_str())?;
    }
    Ok(title)
}

// The name of the column that shows this.
fn name_of(answer: &Answer, shows: Shows) -> &str {
    for column in &answer.columns {
        if column.shows == shows {
            return column.name.as_str();
        }
    }
    ""
}

fn names_of(alloc: Global, answer: &Answer) -> Result<Vec<String>, AllocError> {
    let mut names = Vec::new(alloc);
    for column in &answer.columns {
        if let Shows::Value(_) = column.shows {
            names.push(String::from_str(alloc, column.name.as_str())?)?;
        }
    }
    Ok(names)
}

fn versions_of(alloc: Global, answer: &Answer, rows: &[Shown]) -> Result<Vec<Version>, AllocError> {
    let mut versions = Vec::new(alloc);
    for row in rows {
        versions.push(version_of(alloc, answer, row)?)?;
    }
    Ok(versions)
}

fn version_of(alloc: Global, answer: &Answer, row: &Shown) -> Result<Version, AllocError> {
    let values = values_of(alloc, answer, row)?;
    Ok(Version {
        start: row.period.start.number,
        end: row.period.end.number,
        since: row.system_start.micros(),
        until: match row.end {
            Some(end) => end.micros(),
            None => OPEN,
        },
        values,
    })
}

fn values_of(alloc: Global, answer: &Answer, row: &Shown) -> Result<Vec<String>, AllocError> {
    let mut values = Vec::new(alloc);
    for column in &answer.columns {
        if let Shows::Value(_) = column.shows {
            values.push(shown_value(alloc, row, column.shows)?)?;
        }
    }
    Ok(values)
}

fn days_of(alloc: Global, versions: &[Version]) -> Result<Vec<u32>, AllocError> {
    let mut days = BTreeSet::new(alloc);
    for version in versions {
        days.insert(version.start)?;
        days.insert(version.end)?;
    }
    days.iter().copied().collect(alloc)
}

fn instants_of(
    alloc: Global,
    versions: &[Version],
    days: &[u32],
    first: u64,
) -> Result<Vec<u64>, AllocError> {
    let mut instants = BTreeSet::new(alloc);
    for version in versions {
        instants.insert(version.since)?;
        instants.insert(version.until)?;
    }
    if is_unasked(&instants, versions, days, first) {
        instants.insert(first)?;
    }
    instants.iter().copied().collect(alloc)
}

// Whether of some day nothing is known at one of these instants before the first one that is asked about.
fn is_unasked(instants: &BTreeSet<u64>, versions: &[Version], days: &[u32], first: u64) -> bool {
    for instant in instants {
        if *instant < first && is_hole_at(versions, days, *instant) {
            return true;
        }
    }
    false
}

// Whether some day has no version at this instant. Versions of one key that are believed at an instant share no day.
fn is_hole_at(versions: &[Version], days: &[u32], instant: u64) -> bool {
    let mut filled = 0u32;
    for version in versions {
        if version.lives(instant) {
            filled = filled.saturating_add(version.end.saturating_sub(version.start));
        }
    }
    match (days.first(), days.last()) {
        (Some(first), Some(last)) => filled < last.saturating_sub(*first),
        _ => false,
    }
}
