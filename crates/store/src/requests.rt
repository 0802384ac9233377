//! Requests of clients.
ghost use Rattle.std.specs.Prelude.{◌≡◌, ◌≤◌, ◌⊎◌, Some, None, Err, IsErr, IfOk, IfErr, IfSome, OnOk, OnErr, MatchOption};
ghost use Rattle.store.specs.Going.{Anywhere, ComesOf, GoesOn, GoesOnSo, IsOutcome};
ghost use Rattle.store.specs.Journals.{IsSpent, EndsWith, IsSettled};
ghost use Rattle.store.specs.Refusals.{IsOfJournal, log_full};
ghost use Rattle.store.specs.Handing.{HandsIn};
ghost use Rattle.store.specs.Words.{words_of};

use crate::announcing::Announces;
use crate::chain::OWN_CLIENT;
use crate::outcome::Outcome;
use crate::refusal::StoreRefusal;
use crate::steps::{Stepped, Watched};
use crate::store::Store;
use fault::{Refusal, Text};
use journal::{Line, Taken};
use model::entry::Request;
use model::member::Member;
use model::message::Input;
use model::request::{Client, RequestNumber};
use std::alloc::{AllocError, Global};

/// How often a request is handed to a leader before it counts as unanswered.
const TRIES: u8 = 3;

// The line that says what came of a request.
fn printed_line(
    alloc: Global,
    client: Client,
    number: RequestNumber,
    outcome: &Outcome,
) -> Result<Line, AllocError>
    ensures { IfOk result (λ line. line ≡ Line.Printed client number (words_of outcome.now)) }
{
    let words = Text::from_string(format!(in alloc; "{outcome}")?)?;
    Ok(Line::Printed {
        client,
        number,
        words,
    })
}

impl<K: Announces> Store<K>
where
    K::Image: Drop,
{
    // Hands a request to a leader once: its outcome, or none where it has to be handed in again.
    fn submit_once(
        &mut self,
        reading: i64,
        leader: Member,
        request: Request,
    ) -> Result<Option<Outcome>, StoreRefusal>
        ensures why { IfErr result IsOfJournal }
        ensures fails { OnErr result (IsSpent self.new.scribe) }
        ensures goes { GoesOnSo K.Journal.contents K.is_honest K.may_hold K.holds Anywhere (λ gave. IfOk result (λ r. IfSome r (λ o. IsOutcome self.old.watched o gave))) self.old self.new }
    {
        let Ok(copy) = request.clone() else {
            return Err(self.spend());
        };
        let input = Input::Submit { reading, request };
        match self.hand(leader, reading, Taken::Submit(copy), input)? {
            Stepped::Fell => Ok(None),
            Stepped::Refused(Refusal::NotLeader(_)) => {
                self.leader = None;
                Ok(None)
            }
            Stepped::Refused(refusal) => Ok(Some(Outcome::Refused(refusal))),
            Stepped::Done => {
                self.deliver_all(reading)?;
                Ok(self.take_outcome())
            }
        }
    }

    // What was told of the request that is waited for.
    fn take_outcome(&mut self) -> Option<Outcome>
        ensures { GoesOnSo K.Journal.contents K.is_honest K.may_hold K.holds Anywhere (λ gave. IfSome result (λ o. IsOutcome self.old.watched o gave)) self.old self.new }
    {
        match &mut self.watched {
            Some(watched) => match watched.outcome.take() {
                Some(Ok(stamp)) => Some(Outcome::Accepted(stamp)),
                Some(Err(refusal)) => Some(Outcome::Refused(refusal)),
                None => None,
            },
            None => None,
        }
    }

    // Hands a request to leaders till it has an outcome.
    fn decide(
        &mut self,
        reading: i64,
        client: Client,
        number: RequestNumber,
        text: &Text,
    ) -> Result<Outcome, StoreRefusal>
        ensures why { IfErr result IsOfJournal }
        ensures fails { OnErr result (IsSpent self.new.scribe) }
        ensures goes { GoesOnSo K.Journal.contents K.is_honest K.may_hold K.holds Anywhere (λ gave. IfOk result (λ o. IsOutcome self.old.watched o gave)) self.old self.new }
    {
        for _ in 0..TRIES {
            let Some(leader) = self.lead(reading)? else {
                return Ok(Outcome::Unanswered);
            };
            let Ok(text) = text.clone() else {
                return Err(self.spend());
            };
            let request = Request {
                client,
                number,
                text,
            };
            if let Some(outcome) = self.submit_once(reading, leader, request)? {
                return Ok(outcome);
            }
        }
        Ok(Outcome::Unanswered)
    }

    // Writes the words of an outcome to the journal. Once it has settled they may be given out.
    #[tactic(auto, using(crate::proofs::Written::on_told))]
    fn print(
        &mut self,
        client: Client,
        number: RequestNumber,
        outcome: &Outcome,
    ) -> Result<(), StoreRefusal>
        ensures told { OnOk result (EndsWith K.Journal.contents self.new.scribe (Line.Printed client number (words_of outcome.now))) }
        ensures why { IfErr result IsOfJournal }
        ensures fails { OnErr result (IsSpent self.new.scribe) }
        ensures goes { GoesOn K.Journal.contents K.is_honest K.may_hold K.holds self.old self.new }
        ensures same { self.new ≡ record self.old { scribe = self.new.scribe } }
    {
        let Ok(line) = printed_line(self.alloc, client, number, outcome) else {
            return Err(self.spend());
        };
        self.write(&line)?;
        self.flush()
    }

    // Hands in a request, whatever room the log has. What it gives may be given out once the journal has settled.
    fn hand_in(
        &mut self,
        reading: i64,
        client: Client,
        number: RequestNumber,
        text: &str,
    ) -> Result<Outcome, StoreRefusal>
        ensures told { IfOk result (λ o. EndsWith K.Journal.contents self.new.scribe (Line.Printed client number (words_of o))) }
        ensures why { IfErr result IsOfJournal }
        ensures fails { OnErr result (IsSpent self.new.scribe ⊎ (self.new ≡ self.old)) }
        ensures goes { GoesOnSo K.Journal.contents K.is_honest K.may_hold K.holds Anywhere (λ gave. IfOk result (λ o. ComesOf client number o gave)) self.old self.new }
    {
        let text = Text::new(self.alloc, text)?;
        self.watched = Some(Watched {
            client,
            number,
            after: self.heard,
            outcome: None,
        });
        let decided = self.decide(reading, client, number, &text);
        self.watched = None;
        let outcome = decided?;
        self.print(client, number, &outcome)?;
        Ok(outcome)
    }

    /// Hands in a request of a client, with its number, and gives what came of it: `Accepted` at an instant or `Refused` once it is
    /// decided and told, and in the journal. `Unanswered` where no majority is up, or it was handed to three leaders in turn and none
    /// told of it.
    ///
    /// The store's own client is 65535. The clock shows `reading`, in microseconds since 1970. 36 where the longest log of those that are
    /// up has 99,000 entries or more: nothing is handed in then, and nothing changes. 38, 40 and 43 where the journal can't be written;
    /// of a store that was spent before nothing changes then. 43 for want of memory otherwise. After each of these but 36 it is not known
    /// whether the request is decided, as with `Unanswered`.
    #[tactic(auto, using(crate::proofs::Fullness::room_left))]
    pub fn submit(
        &mut self,
        reading: i64,
        client: Client,
        number: RequestNumber,
        text: &str,
    ) -> Result<Outcome, StoreRefusal>
        ensures hands_in { HandsIn K.Journal.contents client (λ o. number) (λ o. o) self.old self.new result }
        ensures goes { GoesOnSo K.Journal.contents K.is_honest K.may_hold K.holds Anywhere
            (λ gave. IfOk result (λ o. ComesOf client number o gave)) self.old self.new }
        ensures settled { OnOk result (IsSettled K.Journal.is_settled self.new.scribe) }
        ensures why { IfErr result (λ r. IsOfJournal r ⊎ (r ≡ log_full)) }
        ensures fails { OnErr result (IsSpent self.new.scribe ⊎ (self.new ≡ self.old)) }
    {
        let outcome = self.submit_unsettled(reading, client, number, text)?;
        self.settle()?;
        Ok(outcome)
    }

    /// As `submit`, without a sync: a power cut may forget what it gives, which is not to be told before `settle`. What `submit` refuses.
    #[tactic(auto, using(crate::proofs::Fullness::room_left))]
    pub fn submit_unsettled(
        &mut self,
        reading: i64,
        client: Client,
        number: RequestNumber,
        text: &str,
    ) -> Result<Outcome, StoreRefusal>
        ensures hands_in { HandsIn K.Journal.contents client (λ o. number) (λ o. o) self.old self.new result }
        ensures goes { GoesOnSo K.Journal.contents K.is_honest K.may_hold K.holds Anywhere
            (λ gave. IfOk result (λ o. ComesOf client number o gave)) self.old self.new }
        ensures why { IfErr result (λ r. IsOfJournal r ⊎ (r ≡ log_full)) }
        ensures fails { OnErr result (IsSpent self.new.scribe ⊎ (self.new ≡ self.old)) }
    {
        self.check()?;
        self.check_room()?;
        self.hand_in(reading, client, number, text)
    }

    /// The number that the next request of the store's own client has: one more than the last one in the leader's log, or in the
    /// longest log where no majority is up.
    #[tactic(auto, using(crate::proofs::Going::stays))]
    pub fn next_number(&mut self, reading: i64) -> Result<u64, StoreRefusal>
        ensures why { IfErr result IsOfJournal }
        ensures fails { OnErr result (IsSpent self.new.scribe) }
        ensures goes { GoesOn K.Journal.contents K.is_honest K.may_hold K.holds self.old self.new }
        ensures spent { IsSpent self.old.scribe → IsErr result × (self.new ≡ self.old) }
    {
        self.check()?;
        let next = self.find_next(reading)?;
        self.settle()?;
        Ok(next)
    }

    // The same, without a sync.
    fn find_next(&mut self, reading: i64) -> Result<u64, StoreRefusal>
        ensures why { IfErr result IsOfJournal }
        ensures fails { OnErr result (IsSpent self.new.scribe) }
        ensures goes { GoesOn K.Journal.contents K.is_honest K.may_hold K.holds self.old self.new }
    {
        let own = match self.lead(reading)? {
            Some(leader) => self.own_of(leader),
            None => self.own_most(),
        };
        Ok(own.saturating_add(1))
    }

    // The number of the last request of the store's own client in a member's log.
    fn own_of(&self, member: Member) -> u64 {
        match self.seat(member) {
            Some(seat) => seat.chain.own(),
            None => 0,
        }
    }

    // The greatest of these numbers.
    fn own_most(&self) -> u64 {
        let mut own = 0;
        for seat in &self.seats {
            own = own.max(seat.chain.own());
        }
        own
    }

    /// Hands in a request in the store's own name, with the next number: the number, and what came of it. What `submit` refuses; 31
    /// where no number is left.
    #[tactic(auto, using(crate::proofs::Fullness::room_left))]
    pub fn execute(
        &mut self,
        reading: i64,
        text: &str,
    ) -> Result<(RequestNumber, Outcome), StoreRefusal>
        ensures hands_in { HandsIn K.Journal.contents 65535 (λ r. r.0) (λ r. r.1) self.old self.new result }
        ensures goes { GoesOnSo K.Journal.contents K.is_honest K.may_hold K.holds Anywhere
            (λ gave. IfOk result (λ r. ComesOf 65535 r.0 r.1 gave)) self.old self.new }
        ensures settled { OnOk result (IsSettled K.Journal.is_settled self.new.scribe) }
        ensures why { IfErr result (λ r. IsOfJournal r ⊎ ((r ≡ log_full) ⊎ (r ≡ StoreRefusal.Refused Refusal.Gap))) }
    {
        let came = self.execute_unsettled(reading, text)?;
        self.settle()?;
        Ok(came)
    }

    /// As `execute`, without a sync: a power cut may forget what it gives, which is not to be told before `settle`. So requests that are
    /// handed in one after the other, by this or by `submit_unsettled`, share a sync. What `execute` refuses.
    #[tactic(auto, using(crate::proofs::Fullness::room_left))]
    pub fn execute_unsettled(
        &mut self,
        reading: i64,
        text: &str,
    ) -> Result<(RequestNumber, Outcome), StoreRefusal>
        ensures hands_in { HandsIn K.Journal.contents 65535 (λ r. r.0) (λ r. r.1) self.old self.new result }
        ensures goes { GoesOnSo K.Journal.contents K.is_honest K.may_hold K.holds Anywhere
            (λ gave. IfOk result (λ r. ComesOf 65535 r.0 r.1 gave)) self.old self.new }
        ensures why { IfErr result (λ r. IsOfJournal r ⊎ ((r ≡ log_full) ⊎ (r ≡ StoreRefusal.Refused Refusal.Gap))) }
    {
        self.check()?;
        self.check_room()?;
        let next = self.find_next(reading)?;
        let (Some(client), Some(number)) = (Client::new(OWN_CLIENT), RequestNumber::new(next))
        else {
            return Err(StoreRefusal::Refused(Refusal::Gap));
        };
        let outcome = self.hand_in(reading, client, number, text)?;
        Ok((number, outcome))
    }
}
