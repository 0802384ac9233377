//! What is recorded of a node.
ghost use Rattle.std.specs.Prelude.{◌≡◌};
ghost use Rattle.flight.specs.Ranges.{has_floors};

use crate::life::Life;
use fault::Text;
use model::mark::Mark;
use model::member::Member;

/// In which form a flight is recorded.
#[derive(Clone, Copy, Debug, PartialEq, Eq)]
pub enum Version {
    /// Its steps bear no outcomes.
    One,
    /// Each step bears the outcomes that it told.
    Two,
    /// As in version 2, and there are floors: in each life's opening, in votes, and in the input and the
    /// messages by which one is stored and sealed.
    Three,
}

impl Version {
    /// Whether a flight of this version knows of floors.
    pub fn has_floors(self) -> bool
        ensures { result ≡ has_floors self }
    {
        match self {
            Version::One => false,
            Version::Two => false,
            Version::Three => true,
        }
    }
}

/// A question that a view of the node was asked, and what it answered.
#[derive(Debug, Drop)]
pub struct Answered {
    /// That of the step or opening after which it was answered.
    pub mark: Mark,
    pub query: Text,
    /// The answer's lines, or the line of a refusal.
    pub answer: Text,
}

/// A node's record of its lives, in order, and of the questions that it answered.
#[derive(Debug, Drop)]
pub struct Flight {
    pub version: Version,
    pub node: Member,
    /// How many members the group has.
    pub members: usize,
    /// The text of the group's schema.
    pub schema: Text,
    pub lives: Vec<Life>,
    pub answers: Vec<Answered>,
}
