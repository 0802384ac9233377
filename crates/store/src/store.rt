//! The open store.
ghost use Rattle.std.specs.Prelude.{◌≡◌, ◌↔◌, ◌⊎◌, ◌<◌, ◌+◌, ◌-◌, [], ◌∷◌, Some, false, IsOk, IsErr, IsTrue, IfSome, IfNone, IfOk, IfErr, OnOk, OnErr, drop, length, slice_get, take};
ghost use Rattle.store.specs.Closing.{ClosesTo, IsClosed, IsDownIn};
ghost use Rattle.store.specs.Continuing.{HasBegun, IsContinued, IsKeptOn};
ghost use Rattle.store.specs.Lines.{no_lines, waiting};
ghost use Rattle.store.specs.Recording.{IsSilent};
ghost use Rattle.store.specs.Going.{GoesOn, Publishes};
ghost use Rattle.store.specs.Opening.{Begins, Files, longest_of};
ghost use Rattle.store.specs.Journals.{IsSpent, IsAdded, IsLonger, IsFlushed, IsOpened, IsAllOn, IsPartOn, IsSettled, device_in};
ghost use Rattle.store.specs.Refusals.{IsOfJournal};

use crate::announcing::Announces;
use crate::databases::Databases;
use crate::device::DeviceError;
use crate::members::Members;
pub use crate::outcome::Outcome;
use crate::refusal::StoreRefusal;
use crate::scribe::Scribe;
use crate::seat::Seat;
pub use crate::steps::DELIVERIES_MOST;
use crate::steps::{Letter, Watched};
use fault::Refusal;
use journal::Line;
use model::member::Member;
use schema::Schema;
use std::alloc::Global;
use std::collections::VecDeque;

/// A store that is open: all its members in one thread, which take their steps in turn. Each call returns when what it asked for is
/// decided and written to the journal, or says that it isn't.
///
/// Every step is in the journal before its member's save can reach a database, and an outcome or an answer is there before it is
/// given out, and outlasts a power cut with all before it, of a device that syncs. A call, whatever it returns, leaves on the journal's
/// device what was there and whole blocks more, and after an error a beginning of one more at most. Once the journal can't be written the
/// store is spent: each later call answers so, and changes nothing. What was told by then is not lost: an open of what the databases and
/// the journal hold has it.
#[derive(Drop)]
pub struct Store<K: Announces>
where
    K::Image: Drop,
{
    pub(crate) alloc: Global,
    pub(crate) schema: Schema,
    pub(crate) seats: Vec<Seat<K>>,
    pub(crate) queue: VecDeque<Letter>,
    /// Away only while it is lent to a member for a step.
    pub(crate) scribe: Option<Scribe<K::Journal>>,
    /// How many messages were sent since the journal began.
    pub(crate) sent: usize,
    /// Who was the last to send entries as a leader.
    pub(crate) leader: Option<Member>,
    /// Up to which entry outcomes are in the journal, of this session or of one before.
    pub(crate) noted: usize,
    /// Up to which entry somebody told of requests.
    pub(crate) heard: usize,
    pub(crate) watched: Option<Watched>,
}

pub(crate) fn spent() -> StoreRefusal
    ensures { IsOfJournal result }
{
    StoreRefusal::Refused(Refusal::StoreFault)
}

impl<K: Announces> Store<K>
where
    K::Image: Drop,
{
    /// Begins a session: the journal of this number, in which so many marks were given out before it, with its first line, which names
    /// the sum of the block before it, what each member has, and a life of each that is up. Then one of them is elected, if they are a
    /// majority. The scribe stands at the beginning of the journal; the clock shows `reading`, in microseconds since 1970.
    ///
    /// 38, 40 and 43 where the journal can't be written.
    pub fn begin(
        members: Members<K>,
        scribe: Scribe<K::Journal>,
        journal: u64,
        marks: u64,
        reading: i64,
    ) -> Result<Store<K>, StoreRefusal>
        ensures begins { IfOk result (Begins K.Journal.contents K.is_honest K.may_hold K.holds members scribe) }
        ensures journal { IfOk result (λ store. HasBegun K.Journal.contents scribe store.scribe journal marks) }
        ensures settled { IfOk result (λ store. IsSettled K.Journal.is_settled store.scribe) }
    {
        let Members {
            alloc,
            schema,
            seats,
        } = members;
        let mut store = Store {
            alloc,
            schema,
            seats,
            queue: VecDeque::new(alloc),
            scribe: Some(scribe),
            sent: 0,
            leader: None,
            noted: 0,
            heard: 0,
            watched: None,
        };
        store.write_head(journal, marks)?;
        let _ = store.lead(reading)?;
        store.settle()?;
        Ok(store)
    }

    // The first block of the journal.
    fn write_head(&mut self, journal: u64, marks: u64) -> Result<(), StoreRefusal>
        ensures opens { OnOk result (IsOpened K.Journal.contents self.old.scribe self.new.scribe journal marks) }
        ensures heads { OnOk result (Files K.Journal.contents K.is_honest self.old.scribe self.new.scribe self.old.seats.items) }
        ensures noted { OnOk result (self.new.noted ≡ longest_of self.old.noted self.old.seats.items) }
        ensures same { self.new ≡ record self.old { scribe = self.new.scribe; noted = self.new.noted } }
    {
        let sum = match &self.scribe {
            Some(scribe) => scribe.sum(),
            None => return Err(spent()),
        };
        self.write(&Line::Opens {
            journal,
            sum,
            marks,
        })?;
        for at in 0..self.seats.len() {
            self.write_seat(at)?;
        }
        self.flush()
    }

    // What a member begins the journal with.
    fn write_seat(&mut self, at: usize) -> Result<(), StoreRefusal>
        ensures longer { OnOk result (IsLonger self.old.scribe self.new.scribe) }
        ensures heads { OnOk result (Files K.Journal.contents K.is_honest self.old.scribe self.new.scribe (take 1 (drop at self.old.seats.items))) }
        ensures noted { OnOk result (self.new.noted ≡ longest_of self.old.noted (take 1 (drop at self.old.seats.items))) }
        ensures same { self.new ≡ record self.old { scribe = self.new.scribe; noted = self.new.noted } }
    {
        let Some(seat) = self.seats.get(at) else {
            return Ok(());
        };
        let entries = seat.chain.len();
        let head = seat.head();
        let member = seat.member;
        let announced = if seat.is_up() {
            None
        } else {
            seat.tale.announced
        };
        self.noted = self.noted.max(entries);
        self.write(&head)?;
        match announced {
            Some(stored) => self.write(&Line::Saves { member, stored }),
            None => Ok(()),
        }
    }

    // Adds a line to the journal's buffer.
    pub(crate) fn write(&mut self, line: &Line) -> Result<(), StoreRefusal>
        ensures ok { OnOk result (IsAdded self.old.scribe self.new.scribe line.now) }
        ensures why { IfErr result IsOfJournal }
        ensures fails { OnErr result (IsSpent self.new.scribe) }
        ensures live { OnOk result (IsSpent self.old.scribe → ⊥) }
        ensures device { device_in self.new.scribe ≡ device_in self.old.scribe }
        ensures same { self.new ≡ record self.old { scribe = self.new.scribe } }
        ensures continues { OnOk result (IsContinued K.Journal.contents self.old.scribe self.new.scribe (waiting (line.now ∷ []))) }
        ensures lost { OnErr result (IsContinued K.Journal.contents self.old.scribe self.new.scribe no_lines) }
        ensures passes { IsSilent line.now → Publishes K.Journal.contents self.old self.new [] [] }
        ensures goes { IsSilent line.now → GoesOn K.Journal.contents K.is_honest K.may_hold K.holds self.old self.new }
    {
        match &mut self.scribe {
            Some(scribe) => Ok(scribe.add(line)?),
            None => Err(spent()),
        }
    }

    // Writes the journal's buffer to its device.
    pub(crate) fn flush(&mut self) -> Result<(), StoreRefusal>
        ensures ok { OnOk result (IsFlushed K.Journal.contents self.old.scribe self.new.scribe) }
        ensures part { OnErr result (IsPartOn K.Journal.contents self.old.scribe (device_in self.new.scribe)) }
        ensures why { IfErr result IsOfJournal }
        ensures fails { OnErr result (IsSpent self.new.scribe) }
        ensures live { OnOk result (IsSpent self.old.scribe → ⊥) }
        ensures same { self.new ≡ record self.old { scribe = self.new.scribe } }
        ensures continues { IsKeptOn K.Journal.contents self.old.scribe self.new.scribe }
        ensures goes { GoesOn K.Journal.contents K.is_honest K.may_hold K.holds self.old self.new }
    {
        match &mut self.scribe {
            Some(scribe) => Ok(scribe.flush()?),
            None => Err(spent()),
        }
    }

    /// Has all that is in the journal outlast a power cut: what `execute_unsettled` gave may be told then. 38, 40 and 43 where the
    /// journal can't be written; of a store that was spent before nothing changes then.
    pub fn settle(&mut self) -> Result<(), StoreRefusal>
        ensures ok { OnOk result (IsFlushed K.Journal.contents self.old.scribe self.new.scribe) }
        ensures settled { OnOk result (IsSettled K.Journal.is_settled self.new.scribe) }
        ensures part { OnErr result (IsPartOn K.Journal.contents self.old.scribe (device_in self.new.scribe)) }
        ensures why { IfErr result IsOfJournal }
        ensures fails { OnErr result (IsSpent self.new.scribe) }
        ensures live { OnOk result (IsSpent self.old.scribe → ⊥) }
        ensures same { self.new ≡ record self.old { scribe = self.new.scribe } }
        ensures continues { IsKeptOn K.Journal.contents self.old.scribe self.new.scribe }
        ensures goes { GoesOn K.Journal.contents K.is_honest K.may_hold K.holds self.old self.new }
        ensures spent { IsSpent self.old.scribe → IsErr result × (self.new ≡ self.old) }
    {
        match &mut self.scribe {
            Some(scribe) => Ok(scribe.settle()?),
            None => Err(spent()),
        }
    }

    // An error where the store is spent.
    pub(crate) fn check(&self) -> Result<(), StoreRefusal>
        ensures ok { OnOk result (IsSpent self.now.scribe → ⊥) }
        ensures err { OnErr result (IsSpent self.now.scribe) }
        ensures why { IfErr result IsOfJournal }
    {
        match &self.scribe {
            Some(scribe) => match scribe.failure() {
                None => Ok(()),
                Some(failure) => Err(StoreRefusal::from(failure)),
            },
            None => Err(spent()),
        }
    }

    // For want of memory the store is spent.
    pub(crate) fn spend(&mut self) -> StoreRefusal
        ensures why { IsOfJournal result }
        ensures fails { IsSpent self.new.scribe }
        ensures same { self.new ≡ record self.old { scribe = self.new.scribe } }
        ensures passes { Publishes K.Journal.contents self.old self.new [] [] }
        ensures goes { GoesOn K.Journal.contents K.is_honest K.may_hold K.holds self.old self.new }
    {
        if let Some(scribe) = &mut self.scribe {
            scribe.spend(DeviceError::NoMemory);
        }
        StoreRefusal::Refused(Refusal::NoMemory)
    }

    /// Whether the journal can't be written any more, and each call answers so.
    pub fn is_spent(&self) -> bool
        ensures { IsTrue result ↔ IsSpent self.now.scribe }
    {
        self.check().is_err()
    }

    // How many seats stand before a member's.
    pub(crate) fn place_of(&self, member: Member) -> Option<usize>
        ensures some { IfSome result (λ at. (at < length self.now.seats.items) × (member ≡ at + 1)) }
        ensures none { IfNone result (length self.now.seats.items < member ⊎ (member ≡ 0)) }
    {
        if member == 0 || member > self.seats.len() {
            return None;
        }
        Some(member - 1)
    }

    // The seat of a member.
    pub(crate) fn seat(&self, member: Member) -> Option<&Seat<K>>
        ensures some { IfSome result (λ seat. (0 < member) × (slice_get self.now.seats.items (member - 1) ≡ Some seat.now)) }
        ensures none { IfNone result (length self.now.seats.items < member ⊎ (member ≡ 0)) }
    {
        let at = self.place_of(member)?;
        Some(&self.seats[at])
    }

    pub(crate) fn is_up(&self, member: Member) -> bool
        ensures down { result ≡ false → IsDownIn self.now.seats.items member }
    {
        match self.seat(member) {
            Some(seat) => seat.is_up(),
            None => false,
        }
    }

    /// Who leads, as far as it is known.
    pub fn leader(&self) -> Option<Member>
        ensures { result ≡ self.now.leader }
    {
        self.leader
    }

    /// How many members there are.
    pub fn members(&self) -> usize
        ensures { result ≡ length self.now.seats.items }
    {
        self.seats.len()
    }

    /// The tables.
    pub fn schema(&self) -> &Schema
        ensures { result.now ≡ self.now.schema }
    {
        &self.schema
    }

    /// Stops every member, and gives the databases back, and the journal's device, to which the end of each that was up came. What could not
    /// be written to the journal is its refusal, after which ends may be missing there; the databases hold what was stored all the same.
    pub fn close(mut self) -> (Databases<K>, Option<K::Journal>, Result<(), StoreRefusal>)
        ensures closed { IsClosed K.may_hold K.holds self result.0.seats.items }
        ensures ends { ClosesTo K.Journal.contents K.is_honest K.may_hold K.holds self result.0.seats.items result.1 (IsOk result.2) }
        ensures all { OnOk result.2 (IsAllOn K.Journal.contents self.scribe result.1) }
        ensures part { OnErr result.2 (IsPartOn K.Journal.contents self.scribe result.1) }
        ensures why { IfErr result.2 IsOfJournal }
        ensures live { OnOk result.2 (IsSpent self.scribe → ⊥) }
    {
        let stopped = self.stop_all();
        let Store { seats, scribe, .. } = self;
        let device = match scribe {
            Some(scribe) => Some(scribe.into_device()),
            None => None,
        };
        (Databases::of(seats), device, stopped)
    }
}
