//! How members stand, and are stopped and started.
ghost use Rattle.std.specs.Prelude.{◌≡◌, ◌≢◌, ◌⊎◌, ◌-◌, ℕ, IfErr, IfOk, IfSome, IsErr, IsSome, None, OnErr, OnOk, slice_get, if◌then◌else◌};
ghost use Rattle.store.specs.Became.{EachBecame};
ghost use Rattle.store.specs.Closing.{IsDownIn, MayRest};
ghost use Rattle.store.specs.Going.{GoesOn, StartsOne, Stops};
ghost use Rattle.store.specs.Journals.{IsAllOn, IsLonger, IsPartOn, IsSettled, IsSpent, device_in};
ghost use Rattle.store.specs.Lives.{HasStored};
ghost use Rattle.store.specs.Refusals.{IsOfJournal};
ghost use Rattle.store.specs.Statuses.{IsStatus, leads};

use crate::announcing::Announces;
use crate::known::KnownLog;
use crate::refusal::StoreRefusal;
use crate::seat::Seat;
use crate::status::{Standing, Status};
use crate::store::Store;
use closedtime::greater;
use fault::Refusal;
use journal::{Line, Summary, Taken};
use model::member::Member;
use model::message::Input;
use model::stamp::Stamp;

// Whether a member that is up leads or follows, as far as it is known who leads.
fn standing_of(leader: Option<Member>, member: Member) -> Standing
    ensures { result ≡ (if leads leader member then Standing.Leads else Standing.Follows) }
{
    match leader {
        Some(leader) if leader == member => Standing::Leads,
        _ => Standing::Follows,
    }
}

impl<K: Announces> Store<K>
where
    K::Image: Drop,
{
    /// A member goes down, and keeps what it has stored. 41 where it is not up. 38, 40 and 43 where the journal can't be written: the store is
    /// spent then, and the member down, unless no memory was left to note its end (43).
    #[tactic(auto, using(crate::proofs::Going::stays))]
    pub fn stop(&mut self, member: Member) -> Result<(), StoreRefusal>
        ensures settled { OnOk result (IsSettled K.Journal.is_settled self.new.scribe) }
        ensures others { (at : ℕ) → at ≢ member - 1 → slice_get self.new.seats.items at ≡ slice_get self.old.seats.items at }
        ensures fails { OnErr result (IsSpent self.new.scribe ⊎ (self.new ≡ self.old)) }
        ensures goes { GoesOn K.Journal.contents K.is_honest K.may_hold K.holds self.old self.new }
        ensures spent { IsSpent self.old.scribe → IsErr result × (self.new ≡ self.old) }
    {
        self.check()?;
        if !self.is_up(member) {
            return Err(StoreRefusal::Refused(Refusal::NodeDown));
        }
        self.end_now(member)
    }

    // The journal says that a member ends, and its node is stopped, if it is not down before.
    pub(crate) fn end_now(&mut self, member: Member) -> Result<(), StoreRefusal>
        ensures settled { OnOk result (IsSettled K.Journal.is_settled self.new.scribe) }
        ensures others { (at : ℕ) → at ≢ member - 1 → slice_get self.new.seats.items at ≡ slice_get self.old.seats.items at }
        ensures fails { OnErr result (IsSpent self.new.scribe) }
        ensures goes { GoesOn K.Journal.contents K.is_honest K.may_hold K.holds self.old self.new }
        ensures late { (first : _) → Stops K.is_honest K.may_hold K.holds member first self.old → GoesOn K.Journal.contents K.is_honest K.may_hold K.holds first self.new }
    {
        self.write(&Line::Ends { member })?;
        self.fall(member);
        self.settle()
    }

    // Starts a member's node: what it has stored; none where it was up before.
    fn start_node(&mut self, member: Member) -> Result<Option<Summary>, StoreRefusal>
        ensures stored { IfOk result (λ r. IfSome r (HasStored K.is_honest K.may_hold K.holds self.new member)) }
        ensures starts { IfOk result (λ stored. IsSome stored → StartsOne K.is_honest K.may_hold K.holds member self.old self.new) }
        ensures still { IfOk result (λ stored. stored ≡ None → GoesOn K.Journal.contents K.is_honest K.may_hold K.holds self.old self.new) }
        ensures goes { OnErr result (GoesOn K.Journal.contents K.is_honest K.may_hold K.holds self.old self.new) }
    {
        let members = self.seats.len();
        let schema = self.schema.clone()?;
        let mut known = KnownLog::new(self.alloc);
        let Some(at) = self.place_of(member) else {
            return Err(StoreRefusal::Refused(Refusal::NodeDown));
        };
        let seat = &mut self.seats[at];
        if seat.is_up() {
            return Ok(None);
        }
        seat.start(schema, members, &mut known)?;
        Ok(seat.stored())
    }

    /// A member comes up again, and is brought what it lacks; one that is up stays so. 41 where its database was missing as the store
    /// was opened, 40, 43 and 44 where its database is refused: it stays down then.
    #[tactic(auto, using(crate::proofs::Going::stays))]
    pub fn start(&mut self, reading: i64, member: Member) -> Result<(), StoreRefusal>
        ensures goes { GoesOn K.Journal.contents K.is_honest K.may_hold K.holds self.old self.new }
        ensures spent { IsSpent self.old.scribe → IsErr result × (self.new ≡ self.old) }
    {
        self.check()?;
        let Some(stored) = self.start_node(member)? else {
            return Ok(());
        };
        self.write(&Line::Life { member, stored })?;
        self.bring(reading)?;
        self.settle()
    }

    // Each member is brought what it lacks, where one leads.
    fn bring(&mut self, reading: i64) -> Result<(), StoreRefusal>
        ensures { GoesOn K.Journal.contents K.is_honest K.may_hold K.holds self.old self.new }
    {
        let Some(leader) = self.lead(reading)? else {
            return Ok(());
        };
        let _ = self.hand(leader, reading, Taken::Beat, Input::Beat)?;
        self.deliver_all(reading)
    }

    fn status_of(&self, seat: &Seat<K>) -> Status
        ensures { IsStatus K.is_honest self.now.leader seat.now result }
    {
        let Some(node) = &seat.node else {
            let standing = if seat.is_missing() {
                Standing::Missing
            } else {
                Standing::Down
            };
            return Status {
                member: seat.member,
                standing,
                term: 0,
                entries: 0,
                applied: 0,
                closed: None,
            };
        };
        Status {
            member: seat.member,
            standing: standing_of(self.leader, seat.member),
            term: node.hard_state().term,
            entries: seat.chain.len(),
            applied: node.commit().unwrap_or(0),
            closed: node.closed_time(),
        }
    }

    /// How many requests are decided, as far as a member that is up has applied them.
    pub fn decided(&self) -> usize {
        let mut decided = 0;
        for seat in &self.seats {
            if let Some(node) = &seat.node {
                let applied = node.commit().unwrap_or(0);
                decided = decided.max(seat.chain.requests_at(applied));
            }
        }
        decided
    }

    /// When the last request was stamped that is decided, as far as a member that is up has applied them; none where none is.
    pub fn last_decided(&self) -> Option<Stamp> {
        let mut last = None;
        for seat in &self.seats {
            if let Some(node) = &seat.node {
                let applied = node.commit().unwrap_or(0);
                last = greater(last, seat.chain.last_at(applied));
            }
        }
        last
    }

    /// How each member stands, in their order. The error is want of memory.
    pub fn status(&self) -> Result<Vec<Status>, StoreRefusal>
        ensures { IfOk result (λ all. EachBecame (IsStatus K.is_honest self.now.leader) self.now.seats.items all.items) }
    {
        let mut all = Vec::new(self.alloc);
        for seat in &self.seats {
            all.push(self.status_of(seat))?;
        }
        Ok(all)
    }

    // Stops each member that is up.
    pub(crate) fn stop_all(&mut self) -> Result<(), StoreRefusal>
        ensures down { OnOk result ((m : ℕ) → IsDownIn self.new.seats.items m) }
        ensures all { OnOk result (IsAllOn K.Journal.contents self.old.scribe (device_in self.new.scribe)) }
        ensures part { OnErr result (IsPartOn K.Journal.contents self.old.scribe (device_in self.new.scribe)) }
        ensures why { IfErr result IsOfJournal }
        ensures live { OnOk result (IsSpent self.old.scribe → ⊥) }
        ensures rests { EachBecame (MayRest K.may_hold K.holds) self.old.seats.items self.new.seats.items }
        ensures goes { GoesOn K.Journal.contents K.is_honest K.may_hold K.holds self.old self.new }
    {
        for at in 0..self.seats.len() {
            self.end(at.saturating_add(1))?;
        }
        self.flush()
    }

    // Stops a member, if it is up.
    fn end(&mut self, member: Member) -> Result<(), StoreRefusal>
        ensures down { OnOk result (IsDownIn self.new.seats.items member) }
        ensures others { (at : ℕ) → at ≢ member - 1 → slice_get self.new.seats.items at ≡ slice_get self.old.seats.items at }
        ensures longer { OnOk result (IsLonger self.old.scribe self.new.scribe) }
        ensures device { OnErr result (device_in self.new.scribe ≡ device_in self.old.scribe) }
        ensures why { IfErr result IsOfJournal }
        ensures spent { OnOk result (IsSpent self.old.scribe → IsSpent self.new.scribe) }
        ensures rests { EachBecame (MayRest K.may_hold K.holds) self.old.seats.items self.new.seats.items }
        ensures goes { GoesOn K.Journal.contents K.is_honest K.may_hold K.holds self.old self.new }
    {
        if !self.is_up(member) {
            return Ok(());
        }
        self.write(&Line::Ends { member })?;
        self.fall(member);
        Ok(())
    }
}
