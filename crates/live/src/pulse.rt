//! When a node is due for a timeout or a beat.
ghost use Rattle.std.specs.Prelude.{◌≡◌, ◌≤◌, ◌<◌, ◌+◌, ◌%◌, ◌⊎◌, ◌&&◌, ◌==◌, true, false, Some, None};
ghost use Rattle.network.specs.Fates.{generator_of};
ghost use Rattle.rand_pcg.specs.Pcg.{pcg32};
ghost use Rattle.model.specs.declared.message.Input.TheVariants.{Timeout, Beat};

use model::message::{Body, Input, Message};
use rand_core::SeedableRng;
use rand_core::utils::NextWord;
use rand_pcg::Pcg32;

/// How many rounds a leader lets pass from one beat to the next.
pub const BEAT_ROUNDS: u64 = 3;

/// How many rounds a leader lets pass from one floor that it asks for to the next.
pub const FLOOR_ROUNDS: u64 = 5;

/// What a driver knows of a node by what it took and sent, and how long it still waits for a leader.
#[derive(Drop)]
pub struct Pulse {
    words: Pcg32,
    /// The greatest term that it took or sent.
    pub term: u64,
    /// Whether it leads that term.
    pub leads: bool,
    /// For how many ticks it took no Append of its term.
    pub quiet: u32,
    /// At how many of these it is due for a timeout: 10 to 19.
    pub patience: u32,
    ghost waits: { quiet < patience },
    ghost least: { 10 ≤ patience },
    ghost most: { patience ≤ 19 },
}

impl Pulse {
    /// A node that was never started, whose words are those of this seed.
    pub fn new(seed: u64) -> Pulse
        ensures patience { result.patience ≡ 10 + (pcg32 (generator_of seed)).0 % 10 }
        ensures words { result.words ≡ (pcg32 (generator_of seed)).1 }
        ensures rest { (result.term ≡ 0) × (result.leads ≡ false) × (result.quiet ≡ 0) }
    {
        let mut words = Pcg32::seed_from_u64(seed);
        let patience = 10 + words.next_word() % 10;
        Pulse {
            words,
            term: 0,
            leads: false,
            quiet: 0,
            patience,
        }
    }

    /// The node starts again: it is a follower of the term that it had.
    pub fn restart(&mut self)
        ensures follows { (self.new.leads ≡ false) × (self.new.quiet ≡ 0) }
        ensures same { (self.new.words ≡ self.old.words) × (self.new.term ≡ self.old.term) × (self.new.patience ≡ self.old.patience) }
    {
        self.leads = false;
        self.quiet = 0;
    }

    /// One tick of a node that runs, in the round of this number, and what it is due for. A leader is due for a beat in
    /// each third round. Another is due for a timeout once its patience is at an end, and then draws a new one.
    pub fn tick(&mut self, round: u64) -> Option<Input>
        ensures beats { self.old.leads ≡ true → round % 3 ≡ 0 → result ≡ Some Beat }
        ensures rests { self.old.leads ≡ true → 0 < round % 3 → result ≡ None }
        ensures led { self.old.leads ≡ true → (self.new.quiet ≡ 0) × (self.new.patience ≡ self.old.patience) × (self.new.words ≡ self.old.words) }
        ensures waits { self.old.leads ≡ false → self.old.quiet + 1 < self.old.patience → (result ≡ None)
            × (self.new.quiet ≡ self.old.quiet + 1) × (self.new.patience ≡ self.old.patience) × (self.new.words ≡ self.old.words) }
        ensures times_out { self.old.leads ≡ false → self.old.patience ≤ self.old.quiet + 1 → (result ≡ Some Timeout)
            × (self.new.quiet ≡ 0) × (self.new.patience ≡ 10 + (pcg32 self.old.words).0 % 10) × (self.new.words ≡ (pcg32 self.old.words).1) }
        ensures same { (self.new.term ≡ self.old.term) × (self.new.leads ≡ self.old.leads) }
    {
        if self.leads {
            self.quiet = 0;
            return if round % BEAT_ROUNDS == 0 {
                Some(Input::Beat)
            } else {
                None
            };
        }
        if self.quiet + 1 < self.patience {
            self.quiet += 1;
            return None;
        }
        self.quiet = 0;
        self.patience = 10 + self.words.next_word() % 10;
        Some(Input::Timeout)
    }

    /// Whether the node is due to ask for a floor in the round of this number, after the beat of that round: a leader is in
    /// each fifth round.
    pub fn asks_for_floor(&self, round: u64) -> bool
        ensures { result ≡ (self.now.leads && (round % 5 == 0)) }
    {
        self.leads && round % FLOOR_ROUNDS == 0
    }

    /// The node took a message of this term: one of a greater term ends its lead, and an Append of its own term shows that
    /// there is a leader.
    pub fn took(&mut self, term: u64, is_append: bool)
        ensures greater { self.old.term < term → (self.new.term ≡ term) × (self.new.leads ≡ false) }
        ensures stays { term ≤ self.old.term → (self.new.term ≡ self.old.term) × (self.new.leads ≡ self.old.leads) }
        ensures heard { is_append ≡ true → self.old.term ≤ term → self.new.quiet ≡ 0 }
        ensures unheard { (is_append ≡ false) ⊎ (term < self.old.term) → self.new.quiet ≡ self.old.quiet }
        ensures same { (self.new.words ≡ self.old.words) × (self.new.patience ≡ self.old.patience) }
    {
        if term > self.term {
            self.term = term;
            self.leads = false;
        }
        if is_append && term == self.term {
            self.quiet = 0;
        }
    }

    /// The node sent a message: an Append shows that it leads the message's term, a request for a vote that it stands in it.
    pub fn sent(&mut self, message: &Message)
        ensures same { (self.new.words ≡ self.old.words) × (self.new.patience ≡ self.old.patience) × (self.new.quiet ≡ self.old.quiet) }
        ensures term { self.old.term ≤ message.now.term → self.new.term ≡ message.now.term }
    {
        self.term = self.term.max(message.term);
        match message.body {
            Body::Append { .. } => self.leads = true,
            Body::RequestVote { .. } => self.leads = false,
            Body::Vote { .. }
            | Body::Reply { .. }
            | Body::Seek { .. }
            | Body::Stored { .. }
            | Body::Seal { .. } => {}
        }
    }
}
