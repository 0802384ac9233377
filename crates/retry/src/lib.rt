//! Which requests are executed, and the outcomes that are kept for clients that ask again.
#![tactic(auto)]

ghost use Rattle.std.specs.Prelude.{◌≡◌, ℕ, ◌+◌, ◌==◌, if◌then◌else◌, [], OnOk, OnErr};
ghost use Rattle.retry.specs.Judging.{number_of, outcomes_of, verdict_of, judged, with_outcome};

mod refused;

use fault::Refusal;
use indexmap::IndexMap;
use model::request::{Client, RequestNumber};
use model::stamp::Stamp;
use std::alloc::{AllocError, Global};

/// The instant at which a transaction was accepted, or its refusal.
pub type Outcome = Result<Stamp, Refusal>;

/// Of how many of a client's latest requests that were executed the outcomes are kept.
const KEPT: usize = 8;

/// A client's latest requests that were executed, and what came of them.
#[derive(Debug, Drop)]
struct Latest {
    /// The number of the last one.
    number: RequestNumber,
    /// What came of it, of the one before it, and so on: of the latest eight, or of all, if they are fewer.
    outcomes: Vec<Outcome>,
}

/// For each client its latest requests that were executed.
#[derive(Drop)]
pub struct Requests {
    alloc: Global,
    latest: IndexMap<Client, Latest>,
}

/// What becomes of a request.
#[derive(Debug, Drop)]
pub enum Judged<'a> {
    /// It has the number after that of the client's last one that was executed, 1 at first, and is executed.
    New,
    /// It has the number of one of the latest eight that were executed, and so that one's outcome.
    Kept(&'a Outcome),
    /// It has a smaller number: refused as 30.
    Old,
    /// It has a greater number, which is not used up: refused as 31.
    Gap,
}

impl Requests {
    /// No client has asked yet.
    pub fn new(alloc: Global) -> Requests
        ensures numbers { (client : ℕ) → number_of result client ≡ 0 }
        ensures outcomes { (client : ℕ) → outcomes_of result client ≡ [] }
    {
        Requests {
            alloc,
            latest: IndexMap::new(alloc),
        }
    }

    /// What becomes of a client's request of this number. Takes no memory.
    pub fn judge(&self, client: Client, number: RequestNumber) -> Judged<'_>
        ensures { verdict_of result ≡ judged self.now client number }
    {
        let Some(latest) = self.latest.get(&client) else {
            return if number.get() == 1 {
                Judged::New
            } else {
                Judged::Gap
            };
        };
        let last = latest.number.get();
        if number.get() == last + 1 {
            Judged::New
        } else if number.get() > last {
            Judged::Gap
        } else {
            let before_last = (last - number.get()) as usize;
            match latest.outcomes.get(before_last) {
                Some(outcome) => Judged::Kept(outcome),
                None => Judged::Old,
            }
        }
    }

    /// Keeps the outcome of a client's request, which has the number after that of its last one and is its last one
    /// from now on; of those before it the outcomes of seven at most are kept. Refused for want of memory alone, which
    /// changes nothing.
    pub fn keep(
        &mut self,
        client: Client,
        number: RequestNumber,
        outcome: Outcome,
    ) -> Result<(), AllocError>
        requires { number ≡ number_of self.old client + 1 }
        ensures numbers { OnOk result ((c : ℕ) → number_of self.new c ≡ (if c == client then number else number_of self.old c)) }
        ensures outcomes { OnOk result ((c : ℕ) → outcomes_of self.new c ≡ (if c == client then with_outcome outcome (outcomes_of self.old client) else outcomes_of self.old c)) }
        ensures err { OnErr result ((c : ℕ) → (number_of self.new c ≡ number_of self.old c) × (outcomes_of self.new c ≡ outcomes_of self.old c)) }
    {
        if let Some(latest) = self.latest.get_mut(&client) {
            latest.outcomes.insert(0, outcome)?;
            latest.outcomes.truncate(KEPT);
            latest.number = number;
            return Ok(());
        }
        let mut outcomes = Vec::with_capacity(self.alloc, KEPT + 1)?;
        outcomes.push(outcome)?;
        match self.latest.insert(client, Latest { number, outcomes }) {
            Ok(_) => Ok(()),
            Err(_) => Err(AllocError),
        }
    }
}
