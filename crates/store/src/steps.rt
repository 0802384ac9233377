//! Steps of the members, and what comes of them.
ghost use Rattle.std.specs.Prelude.{◌≡◌, ◌≢◌, ◌<◌, ◌+◌, ◌-◌, ℕ, ℤ, Some, [], ◌∷◌, IfOk, IfErr, OnOk, OnErr, length, slice_get};
ghost use Rattle.std.specs.List.{Contains};
ghost use Rattle.store.specs.Became.{EachBecame};
ghost use Rattle.store.specs.Closing.{IsDownIn, MayRest};
ghost use Rattle.model.specs.declared.event.Job.TheVariants.{Local as TheLocal};
ghost use Rattle.journal.specs.declared.line.Taken.{Taken as TheTaken};
ghost use Rattle.store.specs.Continuing.{IsKeptOn, reading_in};
ghost use Rattle.store.specs.Going.{Anywhere, BeginsStep, EndsStep, GoesOn, GoesOnFrom, GoesOnSo, HasSent, HasStepped, Hears, IsAmong, IsBrought, MayHaveStepped, Publishes, SaysWhy, Stops};
ghost use Rattle.flight.specs.Telling.{outcomes_of};
ghost use Rattle.store.specs.Noting.{first_told, noted_after};
ghost use Rattle.store.specs.Recording.{AreOf, job_of};
ghost use Rattle.store.specs.Journals.{IsSpent, HasLast};
ghost use Rattle.store.specs.Refusals.{IsOfJournal};

use crate::announcing::Announces;
use crate::refusal::StoreRefusal;
use crate::store::{Store, spent};
use fault::Refusal;
use flight::outcome::{Outcome as Noted, Outcomes};
use journal::{Line, Taken};
use model::entry::Told;
use model::member::Member;
use model::message::{Body, Input, Message};
use model::request::{Client, RequestNumber};
use model::stamp::Stamp;
use node::{Fault, Out, Work};
use std::alloc::AllocError;

/// How many messages may be delivered in one call. No call of a healthy group comes near it: a member that lacks 100,000 entries is
/// brought them in some 3,200.
pub const DELIVERIES_MOST: u32 = 1_000_000;

// A message under way, with its number among those of the journal.
#[derive(Drop)]
pub(crate) struct Letter {
    pub number: usize,
    pub message: Message,
}

// The request that a call waits for. Only what is told of entries past an index counts.
#[derive(Drop)]
pub(crate) struct Watched {
    pub client: Client,
    pub number: RequestNumber,
    pub after: usize,
    pub outcome: Option<Result<Stamp, Refusal>>,
}

// What came of a step.
#[derive(Drop)]
pub(crate) enum Stepped {
    Done,
    Refused(Refusal),
    /// The member went down.
    Fell,
}

impl Watched {
    // Hears what a member told of a request. The first that is told of this one counts.
    fn hear(&mut self, told: Told)
        ensures { Hears (IsAmong (told ∷ [])) (Some self.old) (Some self.new) }
    {
        let Told {
            index,
            client,
            number,
            outcome,
        } = told;
        if self.outcome.is_none()
            && index > self.after
            && client == self.client
            && number == self.number
        {
            self.outcome = Some(outcome);
        }
    }
}

impl<K: Announces> Store<K>
where
    K::Image: Drop,
{
    // A step of a member that is up. An error where the store is spent.
    pub(crate) fn step(
        &mut self,
        member: Member,
        reading: i64,
        taken: Taken,
        work: Work,
    ) -> Result<Stepped, StoreRefusal>
        ensures why { IfErr result IsOfJournal }
        ensures fails { OnErr result (IsSpent self.new.scribe) }
        ensures goes { GoesOnSo K.Journal.contents K.is_honest K.may_hold K.holds (IsBrought self.old member (job_of reading taken) work) (SaysWhy member result) self.old self.new }
    {
        let Some(at) = self.place_of(member) else {
            return Ok(Stepped::Fell);
        };
        self.begin_step(member, reading, taken)?;
        self.take_step(at, member, work)
    }

    fn begin_step(&mut self, member: Member, reading: i64, taken: Taken) -> Result<(), StoreRefusal>
        ensures takes { OnOk result (HasLast self.new.scribe (Line.Takes member taken)) }
        ensures why { IfErr result IsOfJournal }
        ensures fails { OnErr result (IsSpent self.new.scribe) }
        ensures live { OnOk result ((IsSpent self.old.scribe → ⊥) × (IsSpent self.new.scribe → ⊥)) }
        ensures begins { OnOk result (BeginsStep K.Journal.contents self.old.scribe self.new.scribe member taken) }
        ensures shown { OnOk result (reading_in self.new.scribe ≡ Some reading) }
        ensures kept { OnErr result (IsKeptOn K.Journal.contents self.old.scribe self.new.scribe) }
        ensures same { self.new ≡ record self.old { scribe = self.new.scribe } }
    {
        match &mut self.scribe {
            Some(scribe) => {
                scribe.show(reading)?;
                Ok(scribe.add(&Line::Takes { member, taken })?)
            }
            None => Err(spent()),
        }
    }

    // A step that is begun, of the member that has so many before it.
    fn take_step(&mut self, at: usize, member: Member, work: Work) -> Result<Stepped, StoreRefusal>
        requires there { at < length self.old.seats.items }
        requires member { member ≡ at + 1 }
        requires live { IsSpent self.old.scribe → ⊥ }
        ensures why { IfErr result IsOfJournal }
        ensures fails { OnErr result (IsSpent self.new.scribe) }
        ensures goes { (taken : TheTaken) (now : ℤ) → reading_in self.old.scribe ≡ Some now → GoesOnFrom K.Journal.contents K.is_honest K.may_hold K.holds (Line.Takes member taken ∷ []) (IsBrought self.old member (job_of now taken) work) (SaysWhy member result) self.old self.new }
    {
        match self.lend(at, work)? {
            Ok(out) => {
                self.end_step(member, out)?;
                Ok(Stepped::Done)
            }
            Err(Fault::Kept(refusal)) => {
                let outcomes = Outcomes::none(self.alloc);
                self.write(&Line::Made { member, outcomes })?;
                Ok(Stepped::Refused(refusal))
            }
            Err(Fault::Down(_)) => {
                self.fall(member);
                Ok(Stepped::Fell)
            }
        }
    }

    // Lends the journal to the member that has so many before it, for a step.
    fn lend(&mut self, at: usize, work: Work) -> Result<Result<Out, Fault>, StoreRefusal>
        requires there { at < length self.old.seats.items }
        requires live { IsSpent self.old.scribe → ⊥ }
        ensures why { IfErr result IsOfJournal }
        ensures fails { OnErr result (IsSpent self.new.scribe) }
        ensures live { OnOk result (IsSpent self.new.scribe → ⊥) }
        ensures stepped { IfOk result (HasStepped K.Journal.contents K.is_honest K.may_hold K.holds self.old self.new at work) }
        ensures lost { OnErr result (MayHaveStepped K.Journal.contents K.is_honest K.may_hold K.holds self.old self.new at work) }
    {
        let Some(scribe) = self.scribe.take() else {
            return Err(spent());
        };
        let seat = &mut self.seats[at];
        let (scribe, result) = seat.step(scribe, work);
        self.scribe = scribe;
        self.check()?;
        Ok(result)
    }

    // The step is over: what it told is written, its messages are under way, and what it told is heard.
    fn end_step(&mut self, member: Member, out: Out) -> Result<(), StoreRefusal>
        ensures why { IfErr result IsOfJournal }
        ensures fails { OnErr result (IsSpent self.new.scribe) }
        ensures passes { EndsStep K.Journal.contents member self.old self.new out.messages.items out.told.items }
    {
        let Out {
            messages,
            applied: _,
            told,
            sealed: _,
        } = out;
        let Ok(outcomes) = self.note(&told) else {
            return Err(self.spend());
        };
        self.write(&Line::Made { member, outcomes })?;
        self.send_all(member, messages)?;
        self.hear_all(told);
        Ok(())
    }

    // What is written of what a step told: each outcome at the first member that tells it.
    fn note(&mut self, told: &[Told]) -> Result<Outcomes, AllocError>
        ensures tells { IfOk result (AreOf (Contains told.now)) }
        ensures all { IfOk result (λ outcomes. (outcomes ≡ outcomes_of (first_told self.old.noted told.now)) × (self.new.noted ≡ noted_after self.old.noted told.now)) }
        ensures same { self.new ≡ record self.old { noted = self.new.noted } }
    {
        let mut outcomes = Vec::new(self.alloc);
        for one in told {
            if one.index > self.noted {
                self.noted = one.index;
                let outcome = Noted::of(self.alloc, one)?;
                outcomes.push(outcome)?;
            }
        }
        Ok(Outcomes::new(outcomes))
    }

    // What a member sends in a step comes under way.
    fn send_all(&mut self, member: Member, messages: Vec<Message>) -> Result<(), StoreRefusal>
        ensures why { IfErr result IsOfJournal }
        ensures fails { OnErr result (IsSpent self.new.scribe) }
        ensures passes { Publishes K.Journal.contents self.old self.new messages.items [] }
    {
        for message in messages {
            self.send(member, message)?;
        }
        Ok(())
    }

    fn send(&mut self, member: Member, message: Message) -> Result<(), StoreRefusal>
        ensures why { IfErr result IsOfJournal }
        ensures fails { OnErr result (IsSpent self.new.scribe) }
        ensures passes { Publishes K.Journal.contents self.old self.new (message ∷ []) [] }
    {
        if matches!(message.body, Body::Append { .. }) {
            self.leader = Some(member);
        }
        self.post(message)
    }

    fn post(&mut self, message: Message) -> Result<(), StoreRefusal>
        ensures why { IfErr result IsOfJournal }
        ensures fails { OnErr result (IsSpent self.new.scribe) }
        ensures passes { Publishes K.Journal.contents self.old self.new (message ∷ []) [] }
    {
        let Some(number) = self.sent.checked_add(1) else {
            return Err(self.spend());
        };
        self.sent = number;
        match self.queue.push_back(Letter { number, message }) {
            Ok(()) => Ok(()),
            Err(_) => Err(self.spend()),
        }
    }

    // What a member told in a step is heard.
    fn hear_all(&mut self, told: Vec<Told>)
        ensures { Publishes K.Journal.contents self.old self.new [] told.items }
    {
        for one in told {
            self.hear(one);
        }
    }

    fn hear(&mut self, told: Told)
        ensures { Publishes K.Journal.contents self.old self.new [] (told ∷ []) }
    {
        self.heard = self.heard.max(told.index);
        if let Some(watched) = &mut self.watched {
            watched.hear(told);
        }
    }

    // Stops a member's node.
    fn stop_node(&mut self, member: Member)
        ensures down { IsDownIn self.new.seats.items member }
        ensures scribe { self.new.scribe ≡ self.old.scribe }
        ensures rests { EachBecame (MayRest K.may_hold K.holds) self.old.seats.items self.new.seats.items }
        ensures others { (at : ℕ) → at ≢ member - 1 → slice_get self.new.seats.items at ≡ slice_get self.old.seats.items at }
        ensures stops { Stops K.is_honest K.may_hold K.holds member self.old self.new }
    {
        let Some(at) = self.place_of(member) else {
            return;
        };
        let seat = &mut self.seats[at];
        seat.stop();
    }

    // A member is down.
    pub(crate) fn fall(&mut self, member: Member)
        ensures down { IsDownIn self.new.seats.items member }
        ensures scribe { self.new.scribe ≡ self.old.scribe }
        ensures rests { EachBecame (MayRest K.may_hold K.holds) self.old.seats.items self.new.seats.items }
        ensures others { (at : ℕ) → at ≢ member - 1 → slice_get self.new.seats.items at ≡ slice_get self.old.seats.items at }
        ensures stops { Stops K.is_honest K.may_hold K.holds member self.old self.new }
    {
        self.stop_node(member);
        if self.leader == Some(member) {
            self.leader = None;
        }
    }

    // Hands a local input to a member, which is what it takes.
    pub(crate) fn hand(
        &mut self,
        member: Member,
        reading: i64,
        taken: Taken,
        input: Input,
    ) -> Result<Stepped, StoreRefusal>
        requires same { job_of reading taken ≡ TheLocal input }
        ensures why { IfErr result IsOfJournal }
        ensures fails { OnErr result (IsSpent self.new.scribe) }
        ensures goes { GoesOnSo K.Journal.contents K.is_honest K.may_hold K.holds Anywhere (SaysWhy member result) self.old self.new }
    {
        self.step(member, reading, taken, Work::Local(input))
    }

    // Delivers what is under way, in order, until nothing is, or the most that one call delivers. What comes to a member that is down
    // is gone.
    pub(crate) fn deliver_all(&mut self, reading: i64) -> Result<(), StoreRefusal>
        ensures why { IfErr result IsOfJournal }
        ensures fails { OnErr result (IsSpent self.new.scribe) }
        ensures goes { GoesOn K.Journal.contents K.is_honest K.may_hold K.holds self.old self.new }
    {
        for _ in 0..DELIVERIES_MOST {
            let Some(letter) = self.queue.pop_front() else {
                return Ok(());
            };
            self.deliver(reading, letter)?;
        }
        Ok(())
    }

    #[tactic(auto, using(crate::proofs::Going::stays))]
    fn deliver(&mut self, reading: i64, letter: Letter) -> Result<(), StoreRefusal>
        ensures why { IfErr result IsOfJournal }
        ensures fails { OnErr result (IsSpent self.new.scribe) }
        ensures goes { GoesOnSo K.Journal.contents K.is_honest K.may_hold K.holds (HasSent self.old letter) (λ gave. Unit {0}) self.old self.new }
    {
        let Letter { number, message } = letter;
        let member = message.addressee;
        if !self.is_up(member) {
            return Ok(());
        }
        let work = Work::Delivered { reading, message };
        let _ = self.step(member, reading, Taken::Message(number), work)?;
        Ok(())
    }
}
