//! What a picture of a run shows.
use crate::fates::Fates;
use crate::role::Role;
use model::member::Member;

/// How many messages are drawn at most.
pub const MOST_MESSAGES: usize = 110;

/// How many events are drawn at most.
pub const MOST_EVENTS: usize = 440;

/// What kind of message it is.
#[derive(Clone, Copy, Debug, PartialEq, Eq)]
pub enum Kind {
    /// A request for a vote, or a vote.
    Election,
    /// An Append that brings entries.
    Entries,
    /// A reply, or an Append that brings none.
    Plain,
    /// It is about a floor.
    Floor,
}

/// A message that was sent.
#[derive(Debug, Drop)]
pub struct Sent {
    pub sender: Member,
    pub addressee: Member,
    pub kind: Kind,
    /// The sender's term.
    pub term: u64,
    pub is_append: bool,
    /// What it is, in two or three words.
    pub words: String,
    /// All that it says.
    pub full: String,
}

/// What came of an event, besides messages.
#[derive(Clone, Copy, Debug, PartialEq, Eq)]
pub enum News {
    /// The member is this now.
    Becomes(Role),
    /// It starts.
    Starts,
    /// It tells that a request was accepted.
    Accepted,
    /// It refuses, or tells that a request was refused.
    Refused,
    /// It answers a question.
    Answers,
    /// What else is said.
    Remark,
}

/// What came of an event, in few words and in more, and the time of day of a stamp.
#[derive(Debug, Drop)]
pub struct Note {
    pub news: News,
    pub short: String,
    pub long: String,
    pub time: String,
}

/// What happens to a member.
#[derive(Debug, Drop)]
pub enum What {
    /// The script has it do this; without words where what came of it says so.
    Does(String),
    /// It is asked a question.
    Asked,
    Starts,
    Stops,
    /// It takes the message of this number.
    Takes(usize),
    /// It is down, and misses the message of this number.
    Misses(usize),
    /// The message of this number, which was on its way to it, is lost.
    Loses(usize),
}

/// Something that happens to one member.
#[derive(Debug, Drop)]
pub struct Event {
    pub node: Member,
    pub what: What,
    /// The round of a `settle` in which it happens, from 1; 0 outside of one.
    pub round: usize,
    /// The numbers of the messages that it sent.
    pub sent: Vec<usize>,
    pub notes: Vec<Note>,
}

impl Event {
    /// The message that it is about, if it is about one.
    pub fn message(&self) -> Option<usize> {
        match self.what {
            What::Takes(number) | What::Misses(number) | What::Loses(number) => Some(number),
            What::Does(_) | What::Asked | What::Starts | What::Stops => None,
        }
    }

    /// Whether it takes a message.
    pub fn is_taken(&self) -> bool {
        matches!(&self.what, What::Takes(_))
    }
}

/// A line of the script, by its number from 1, and what happens by it.
#[derive(Debug, Drop)]
pub struct Act {
    pub line: usize,
    pub text: String,
    pub events: Vec<Event>,
}

/// What a picture of a run shows: the lines of a script that do something, and all messages with what became of them.
#[derive(Drop)]
pub struct Run {
    pub members: usize,
    /// What each member is as the first act begins.
    pub roles: Vec<Role>,
    pub acts: Vec<Act>,
    /// All messages that were sent, those before the first act too. They count from 1.
    pub messages: Vec<Sent>,
    pub fates: Fates,
    /// How many messages the acts sent that are drawn.
    pub drawn: usize,
    /// How many events the acts have.
    pub happened: usize,
}

impl Run {
    /// The message of this number.
    pub fn message(&self, number: usize) -> Option<&Sent> {
        self.messages.get(number.saturating_sub(1))
    }

    /// Whether it is more than has room in a picture.
    pub fn is_too_much(&self) -> bool {
        self.drawn > MOST_MESSAGES || self.happened > MOST_EVENTS
    }
}
