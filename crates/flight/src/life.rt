//! What is recorded of a node from one start to the end that follows.
ghost use Rattle.std.specs.Prelude.{◌≡◌};
ghost use Rattle.flight.specs.Lives.{last_mark, sent_at, mark_for, shown, step_of, with_outcomes};

use crate::outcome::Outcomes;
use keep::hard_state::HardState;
use model::entry::Entry;
use model::mark::Mark;
use model::message::{Input, Message};
use std::alloc::Global;

/// How many steps a life may have.
pub const LIFE_STEPS: usize = 200_000;

/// What a node takes: a local input, or a message with the mark of the step that sent it and what the clock shows.
#[derive(Debug, Drop)]
pub enum Packet {
    Local(Input),
    Delivered {
        mark: Mark,
        reading: i64,
        message: Message,
    },
}

/// One step of a node.
#[derive(Debug, Drop)]
pub struct Step {
    pub mark: Mark,
    /// What the clock showed, in microseconds since 1970: the reading that the packet bears or, where it bears none, the one
    /// with which it came.
    pub reading: i64,
    pub packet: Packet,
    /// What it told of the requests that became applied. A torn step told nothing.
    pub outcomes: Outcomes,
}

/// What was stored as a life began.
#[derive(Debug, Drop)]
pub struct Opening {
    pub mark: Mark,
    pub hard: HardState,
    pub entries: Vec<Entry>,
}

/// How a life ended, if it did.
#[derive(Debug, Drop)]
pub enum Ending {
    Up,
    Stopped,
    /// The step was cut short: what is stored is from before it or from after it, and nothing was sent.
    Torn(Step),
}

/// From a start of a node on: what it began with, each step that it made, and how it ended.
#[derive(Debug, Drop)]
pub struct Life {
    pub opening: Opening,
    pub steps: Vec<Step>,
    pub ending: Ending,
}

impl Packet {
    /// The mark of the step that sent it, 0 for a local input.
    fn sent_at(&self) -> u64
        ensures { result ≡ sent_at self.now }
    {
        match self {
            Packet::Local(_) => 0,
            Packet::Delivered { mark, .. } => mark.number(),
        }
    }

    /// What the clock shows as it comes: the reading that it bears, else this one.
    fn shown(&self, reading: i64) -> i64
        ensures { result ≡ shown reading self.now }
    {
        match self {
            Packet::Local(Input::Timeout) => reading,
            Packet::Local(Input::Beat) => reading,
            Packet::Local(Input::Close { reading }) => *reading,
            Packet::Local(Input::Floor { reading }) => *reading,
            Packet::Local(Input::Submit { reading, .. }) => *reading,
            Packet::Delivered { reading, .. } => *reading,
        }
    }
}

impl Step {
    /// The step that this packet makes at this mark, with the reading that it bears, else this one, and with no outcomes.
    /// Takes no memory.
    pub fn new(alloc: Global, mark: Mark, reading: i64, packet: Packet) -> Step
        ensures { result ≡ step_of mark reading packet }
    {
        let reading = packet.shown(reading);
        Step {
            mark,
            reading,
            packet,
            outcomes: Outcomes::none(alloc),
        }
    }

    /// The step with these outcomes in place of its own. Takes no memory.
    pub fn with_outcomes(self, outcomes: Outcomes) -> Step
        ensures { result ≡ with_outcomes outcomes self }
    {
        let Step {
            mark,
            reading,
            packet,
            outcomes: _,
        } = self;
        Step {
            mark,
            reading,
            packet,
            outcomes,
        }
    }
}

impl Life {
    /// Its greatest mark: that of its last step, a torn one too, or of its opening where it made none.
    pub fn last_mark(&self) -> Mark
        ensures { result ≡ last_mark self.now }
    {
        match &self.ending {
            Ending::Torn(step) => step.mark,
            Ending::Up | Ending::Stopped => match self.steps.last() {
                Some(step) => step.mark,
                None => self.opening.mark,
            },
        }
    }

    /// The mark that a step by this packet takes: none where no step or no mark is left.
    pub fn mark_for(&self, packet: &Packet) -> Option<Mark>
        ensures { result ≡ mark_for self.now packet.now }
    {
        if self.steps.len() >= LIFE_STEPS {
            return None;
        }
        Mark::after(self.last_mark().number().max(packet.sent_at()))
    }
}
