//! The lines of a journal.
use crate::stored::Summary;
use fault::Text;
use flight::outcome::Outcomes;
use model::entry::Request;
use model::member::Member;
use model::request::{Client, RequestNumber};

/// What a member takes in a step. What its clock shows is what the last `Clock` line says.
#[derive(Debug, Drop)]
pub enum Taken {
    Timeout,
    Beat,
    Close,
    Floor,
    Submit(Request),
    /// The message of this number, of those that were sent since the journal began, counted from 1.
    Message(usize),
}

/// A line of a journal. Members count from 1.
#[derive(Debug, Drop)]
pub enum Line {
    /// The first line of a journal: its number, from 1, the sum of the block before it, and how many marks were given out before
    /// it.
    Opens {
        journal: u64,
        sum: u64,
        marks: u64,
    },
    /// A member that is not up as the journal begins, and what its database has to hold.
    Rests {
        member: Member,
        stored: Summary,
    },
    /// A member is started, with this stored. It takes the next mark.
    Life {
        member: Member,
        stored: Summary,
    },
    /// What clocks show from here on, in microseconds since 1970.
    Clock {
        reading: i64,
    },
    /// A member begins a step. It takes the next mark.
    Takes {
        member: Member,
        taken: Taken,
    },
    /// A member is about to store this.
    Saves {
        member: Member,
        stored: Summary,
    },
    /// A member's step is over, and it told this of requests.
    Made {
        member: Member,
        outcomes: Outcomes,
    },
    /// A member is stopped.
    Ends {
        member: Member,
    },
    /// A member answered a question: the answer's lines, or the line of a refusal, are about to be given out.
    Answer {
        member: Member,
        query: Text,
        answer: Text,
    },
    /// What came of a request is about to be given out in these words.
    Printed {
        client: Client,
        number: RequestNumber,
        words: Text,
    },
}
