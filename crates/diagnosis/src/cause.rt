//! Why a command was refused, where more is known of it than its number says.
use crate::finding::Place;
use crate::name::Name;
use fault::Refusal;
use sqlite::Error as DatabaseError;
use std::{fmt, io};

/// What was found where something was tried with a file.
#[derive(Clone, Copy, Debug)]
pub enum Found<'a> {
    /// What the operating system answered.
    System(io::Error),
    /// What SQLite answered.
    Database(DatabaseError),
    /// What these words say.
    Words(&'static str),
    /// A line of a script, counted from 1, that may not stand there.
    BadLine(usize),
    /// The place in a text at which no flight goes on.
    NoFlight(Place),
    /// That this node went down in a step.
    Fallen(u8),
    /// That of several flights none is of this node.
    NoNode(u8),
    /// That another file is of this node too.
    SameNode { node: u8, other: Name<'a> },
    /// That this part of a flight differs from another file's.
    Unlike { part: &'static str, other: Name<'a> },
}

impl fmt::Display for Found<'_> {
    fn fmt<W: fmt::Write>(&self, f: &mut fmt::Formatter<W>) -> fmt::Result {
        match self {
            Found::System(error) => write!(f, "{error}"),
            Found::Database(error) => write!(f, "{error}"),
            Found::Words(words) => f.write_str(words),
            Found::BadLine(line) => write!(f, "line {line} may not stand there"),
            Found::NoFlight(place) => {
                let Place { line, byte } = place;
                write!(f, "no flight goes on at byte {byte}, in line {line}")
            }
            Found::Fallen(node) => write!(
                f,
                "node {node} went down in a step, since its store failed, or memory or room on the disk was refused"
            ),
            Found::NoNode(node) => write!(f, "no file is of node {node}"),
            Found::SameNode { node, other } => write!(f, "{other} is of node {node} too"),
            Found::Unlike { part, other } => { write!(f, "it has another {part} than {other}") }
        }
    }
}

/// A line in plain words below a refusal: which file, what was tried, what was found. It takes no memory.
#[derive(Clone, Copy, Debug)]
pub struct Cause<'a> {
    pub file: Name<'a>,
    pub tried: &'static str,
    pub found: Found<'a>,
}

impl fmt::Display for Cause<'_> {
    fn fmt<W: fmt::Write>(&self, f: &mut fmt::Formatter<W>) -> fmt::Result {
        let Cause { file, tried, found } = self;
        write!(f, "  {file}: {tried}: {found}")
    }
}

/// A refusal that came of a file.
#[derive(Debug, Drop)]
pub struct Trouble<'a> {
    pub refusal: Refusal,
    pub cause: Cause<'a>,
}

impl<'a> Trouble<'a> {
    /// What the operating system refused: 43 for want of memory, else this refusal.
    pub fn of_system(
        file: Name<'a>,
        tried: &'static str,
        refusal: Refusal,
        error: io::Error,
    ) -> Trouble<'a> {
        let refusal = if error.kind() == io::ErrorKind::OutOfMemory {
            Refusal::NoMemory
        } else {
            refusal
        };
        let found = Found::System(error);
        Trouble {
            refusal,
            cause: Cause { file, tried, found },
        }
    }
}
