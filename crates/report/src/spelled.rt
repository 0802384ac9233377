//! Parts of flights, as their files spell them.
use fault::Text;
use flight::flight::{Flight, Version};
use flight::life::{Ending, Life, Opening, Packet, Step};
use flight::outcome::Outcome;
use flight::text_of_flight;
use keep::hard_state::HardState;
use model::entry::Entry;
use model::mark::Mark;
use model::member::Member;
use std::alloc::{AllocError, Global};

// The file of a flight without a schema that has this life alone.
fn file_with(
    alloc: Global,
    version: Version,
    node: Member,
    life: Life,
) -> Result<String, AllocError> {
    let mut lives = Vec::new(alloc);
    lives.push(life)?;
    let flight = Flight {
        version,
        node,
        members: node,
        schema: Text::from_string(String::new(alloc))?,
        lives,
        answers: Vec::new(alloc),
    };
    text_of_flight(alloc, &flight)
}

// What stands behind so many line feeds, up to the last two lines.
fn between(alloc: Global, file: &str, lines: usize) -> Result<String, AllocError> {
    let mut rest = file;
    for _ in 0..lines {
        rest = match rest.split_once('\n') {
            Some((_, left)) => left,
            None => "",
        };
    }
    String::from_str(alloc, rest.strip_suffix("up\nend\n").unwrap_or(rest))
}

/// What was stored as a life began, with its mark. The error is want of memory.
pub(crate) fn opening_text(
    alloc: Global,
    version: Version,
    mark: Mark,
    hard: HardState,
    entries: Vec<Entry>,
) -> Result<String, AllocError> {
    let opening = Opening {
        mark,
        hard,
        entries,
    };
    let life = Life {
        opening,
        steps: Vec::new(alloc),
        ending: Ending::Up,
    };
    let file = file_with(alloc, version, 1, life)?;
    between(alloc, file.as_str(), 4)
}

/// What a step takes, behind its mark and its reading. The error is want of memory.
pub(crate) fn packet_text(
    alloc: Global,
    version: Version,
    packet: Packet,
) -> Result<String, AllocError> {
    let mark = Mark::new(1);
    let hard = HardState {
        term: 0,
        vote: None,
        floor: None,
    };
    let opening = Opening {
        mark,
        hard,
        entries: Vec::new(alloc),
    };
    let mut steps = Vec::new(alloc);
    let reading = match &packet {
        Packet::Local(_) => 0,
        Packet::Delivered { reading, .. } => *reading,
    };
    steps.push(Step::new(alloc, mark, reading, packet))?;
    let life = Life {
        opening,
        steps,
        ending: Ending::Up,
    };
    let file = file_with(alloc, version, 1, life)?;
    let text = between(alloc, file.as_str(), 5)?;
    String::from_str(alloc, behind_reading(text.as_str()))
}

/// What stands behind the mark and the reading of a step.
pub(crate) fn behind_reading(step: &str) -> &str {
    let mut rest = step;
    for _ in 0..3 {
        rest = match rest.split_once(' ') {
            Some((_, left)) => left,
            None => rest,
        };
    }
    rest
}

/// Outcomes, one after the other. The error is want of memory.
pub(crate) fn outcomes_text(alloc: Global, outcomes: &[Outcome]) -> Result<String, AllocError> {
    let mut text = String::new(alloc);
    for outcome in outcomes {
        let index = outcome.index;
        let client = outcome.client.get();
        let number = outcome.number.get();
        let words = outcome.text.as_str();
        let length = words.len();
        write!(
            text,
            "outcome {index} {client} {number}\ntext {length}\n{words}\n"
        )?;
    }
    Ok(text)
}
