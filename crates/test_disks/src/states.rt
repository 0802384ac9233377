//! What the member of the tests stores: nothing at first, and then what each of five steps makes of it.
use keep::{HardState, State};
use model::entry::Entry;
use model::stamp::Stamp;
use schema::Schema;
use sqlread::transaction::misreading;
use std::alloc::{AllocError, Global};

/// One table.
pub(crate) const SCHEMA: &str =
    "CREATE TABLE Dept (DNo INTEGER, DStart DATE, DEnd DATE, DName VARCHAR(20), \
    SysStart TIMESTAMP(6) GENERATED ALWAYS AS ROW START, SysEnd TIMESTAMP(6) GENERATED ALWAYS AS ROW END, \
    PERIOD FOR DPeriod (DStart, DEnd), PERIOD FOR SYSTEM_TIME (SysStart, SysEnd), \
    PRIMARY KEY (DNo, DPeriod WITHOUT OVERLAPS)) WITH SYSTEM VERSIONING;";

/// How many steps there are, each of which is one save.
pub(crate) const STEPS: usize = 5;

// After how many the second leader's entry has replaced the third.
const REPLACED: usize = 4;

/// An entry of a log. A Close has client 0, number 0 and no text.
#[derive(Clone, Copy)]
pub(crate) struct Line {
    pub term: u64,
    pub stamp: u64,
    pub client: u16,
    pub number: u64,
    pub text: &'static str,
}

/// The entries of the first leader, and last the one with which the second replaces the third.
pub(crate) const LINES: [Line; 4] = [
    Line {
        term: 1,
        stamp: 100,
        client: 0,
        number: 0,
        text: "",
    },
    Line {
        term: 1,
        stamp: 101,
        client: 7,
        number: 1,
        text: "INSERT INTO Dept (DNo, DStart, DEnd, DName) VALUES (3, DATE '2000-01-01', DATE '2020-01-01', 'Test');",
    },
    Line {
        term: 1,
        stamp: 102,
        client: 0,
        number: 0,
        text: "",
    },
    Line {
        term: 2,
        stamp: 103,
        client: 0,
        number: 0,
        text: "",
    },
];

/// The floor that the second leader asks for, in microseconds.
pub(crate) const FLOOR: u64 = 500;

// The hard state after so many steps, and how many entries the log has then.
fn wanted(steps: usize) -> (HardState, usize) {
    let (term, vote, length) = match steps {
        0 => (0, None, 0),
        1 => (1, Some(1), 0),
        2 => (1, Some(1), 1),
        3 => (1, Some(1), 3),
        _ => (2, None, 3),
    };
    let floor = if steps < STEPS {
        None
    } else {
        Some(Stamp::new(FLOOR))
    };
    (HardState { term, vote, floor }, length)
}

// Whether an entry is as it is written here.
fn is_line(entry: &Entry, line: &Line) -> bool {
    let (client, number, text) = match &entry.request {
        None => (0, 0, ""),
        Some(request) => (
            request.client.get(),
            request.number.get(),
            request.text.as_str(),
        ),
    };
    let is_same_request = client == line.client && number == line.number && text == line.text;
    entry.term == line.term && entry.stamp.micros() == line.stamp && is_same_request
}

// Whether a log is the one after so many steps, if it is as long.
fn are_lines(log: &[Entry], steps: usize) -> bool {
    for (at, entry) in log.iter().enumerate() {
        let at = if steps >= REPLACED && at == 2 { 3 } else { at };
        match LINES.get(at) {
            Some(line) if is_line(entry, line) => {}
            _ => return false,
        }
    }
    true
}

/// After how many steps this is what is stored, none if after no number of them.
pub(crate) fn steps_to(state: &State) -> Option<usize> {
    for steps in 0..STEPS + 1 {
        let (hard, length) = wanted(steps);
        if state.hard == hard && state.length == length && are_lines(&state.tail, steps) {
            return Some(steps);
        }
    }
    None
}

// Whether a text spells a transaction.
fn is_transaction(alloc: Global, schema: &Schema, text: &str) -> Result<bool, AllocError> {
    let why = misreading(alloc, schema, text)?;
    Ok(why.is_none())
}

// Whether an entry may come next: after an entry of this term, with a stamp from `least` on, in a member of the term
// `top`.
fn may_follow(
    alloc: Global,
    schema: &Schema,
    entry: &Entry,
    term: u64,
    least: u64,
    top: u64,
) -> Result<bool, AllocError> {
    let is_in_time = entry.stamp.micros() >= least;
    let is_in_term = entry.term > 0 && entry.term >= term && entry.term <= top;
    if !is_in_time || !is_in_term {
        return Ok(false);
    }
    match &entry.request {
        None => Ok(true),
        Some(request) => is_transaction(alloc, schema, request.text.as_str()),
    }
}

/// Whether a member of three may have this state, whose log is here as a whole.
pub(crate) fn is_possible(
    alloc: Global,
    schema: &Schema,
    state: &State,
) -> Result<bool, AllocError> {
    let has_vote = match state.hard.vote {
        None => true,
        Some(member) => 0 < member && member <= 3,
    };
    let mut term: u64 = 0;
    let mut least: u64 = 0;
    for entry in &state.tail {
        if !may_follow(alloc, schema, entry, term, least, state.hard.term)? {
            return Ok(false);
        }
        term = entry.term;
        least = entry.stamp.micros().saturating_add(1);
    }
    Ok(has_vote && state.length == state.tail.len())
}
