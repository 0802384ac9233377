//! What a life of the tests is handed.
use crate::effect::{Effect, Notes};
use crate::packets::{beat, close, submit, timeout};
use flight::life::{Opening, Packet};
use model::mark::Mark;
use model::message::{Body, Message};
use std::alloc::Global;
use std::process::Abort;

/// A packet of the plan.
#[derive(Clone, Copy)]
pub(crate) enum Turn {
    /// It stands for election, unless it leads: then it ignores this.
    Timeout,
    /// Member 2 gives its vote.
    Vote,
    /// Member 2 has as many of the entries that the leader made in this life.
    Reply(usize),
    /// The client makes the request of this number.
    Submit(u64),
    Close,
    /// It sends its log, if it leads.
    Beat,
}

/// Member 1 is elected and makes four entries, each of which becomes applied.
pub(crate) const TURNS: [Turn; 10] = [
    Turn::Timeout,
    Turn::Vote,
    Turn::Reply(1),
    Turn::Submit(1),
    Turn::Reply(2),
    Turn::Close,
    Turn::Reply(3),
    Turn::Submit(2),
    Turn::Reply(4),
    Turn::Beat,
];

// The mark of the steps in which member 2 sends.
const SENT: u64 = 5;

// A message of member 2 in a life that opened so.
fn delivered(opening: &Opening, body: Body) -> Packet {
    Packet::Delivered {
        mark: Mark::new(SENT),
        reading: 100,
        message: Message {
            sender: 2,
            addressee: 1,
            term: opening.hard.term.saturating_add(1),
            body,
        },
    }
}

// The client's request. Where memory is refused, it is made again.
fn submitted(rt: &impl Abort, alloc: Global, notes: &mut Notes, number: u64) -> Packet {
    if let Ok(packet) = submit(alloc, number) {
        return packet;
    }
    notes.note(rt, 43, Effect::Test);
    match submit(alloc, number) {
        Ok(packet) => packet,
        Err(_) => panic!(rt; "no request"),
    }
}

impl Turn {
    /// The mark of the step that sends its packet, 0 for an input.
    pub(crate) fn sent_at(self) -> u64 {
        match self {
            Turn::Vote | Turn::Reply(_) => SENT,
            Turn::Timeout | Turn::Submit(_) | Turn::Close | Turn::Beat => 0,
        }
    }

    /// The packet of a life that opened so.
    pub(crate) fn packet(
        self,
        rt: &impl Abort,
        alloc: Global,
        notes: &mut Notes,
        opening: &Opening,
    ) -> Packet {
        match self {
            Turn::Timeout => timeout(),
            Turn::Vote => delivered(
                opening,
                Body::Vote {
                    given: true,
                    floor: None,
                },
            ),
            Turn::Reply(made) => {
                let matched = opening.entries.len().saturating_add(made);
                delivered(opening, Body::Reply { ok: true, matched })
            }
            Turn::Submit(number) => submitted(rt, alloc, notes, number),
            Turn::Close => close(300),
            Turn::Beat => beat(),
        }
    }
}
