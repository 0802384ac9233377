//! The messages between members, and what else is brought to one: the remote calls and timers of
//! Figure 2 of "In search of an understandable consensus algorithm".
use crate::entry::{Entries, Request};
use crate::member::Member;
use crate::stamp::Stamp;

/// The last term. The first one is 1, and 0 is before it.
pub const LAST_TERM: u64 = 9223372036854775807;

/// How many entries a log may have.
pub const LOG_ROOM: usize = 100000;

/// How many entries a message may carry.
pub const CARRIED_MOST: usize = 64;

/// What a member is in its term.
#[derive(Clone, Copy, PartialEq, Eq, Debug)]
pub enum Role {
    Follower,
    Candidate,
    Leader,
}

/// What a message says. Indices of the log count from 1, and 0 is before the first entry.
#[derive(Clone, Debug, Drop)]
pub enum Body {
    /// A candidate asks for a vote, and tells the index and the term of its last entry.
    RequestVote {
        last_index: usize,
        last_term: u64,
    },
    /// Whether the vote that was asked for is given, and the voter's floor, if it has one.
    Vote {
        given: bool,
        floor: Option<Stamp>,
    },
    /// A leader sends the entries that come after an index, which has an entry of this term, and
    /// tells how far it has committed.
    Append {
        prev_index: usize,
        prev_term: u64,
        entries: Entries,
        commit: usize,
    },
    /// Whether an Append was accepted, and if it was, up to which index the log is now the
    /// leader's; if not, `matched` is 0.
    Reply {
        ok: bool,
        matched: usize,
    },
    /// A leader, whose last entry has this index, asks that this floor be stored.
    Seek {
        index: usize,
        floor: Stamp,
    },
    /// The floor that was asked for is stored.
    Stored {
        index: usize,
        floor: Stamp,
    },
    /// A majority stored the floor in this term: no entry that comes after the term's entry at this
    /// index is ever stamped at or below it.
    Seal {
        index: usize,
        floor: Stamp,
    },
}

/// A message from one member to another.
#[derive(Clone, Debug, Drop)]
pub struct Message {
    pub sender: Member,
    pub addressee: Member,
    /// The sender's term, from 1 to `LAST_TERM`.
    pub term: u64,
    pub body: Body,
}

/// A local input. A reading is what the clock shows, in microseconds since 1970; one that is no
/// instant counts as none.
#[derive(Clone, Debug, Drop)]
pub enum Input {
    /// No leader was heard of for some time.
    Timeout,
    /// It is time for a leader to be heard of.
    Beat,
    /// A leader is to append an entry without a request, so that a later instant is closed.
    Close { reading: i64 },
    /// A leader is to ask that a floor be stored, so that a later instant is closed without an entry.
    Floor { reading: i64 },
    /// A leader is to append an entry with this request.
    Submit { reading: i64, request: Request },
}
