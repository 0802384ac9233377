//! Who leads.
ghost use Rattle.std.specs.Prelude.{◌≡◌, IsErr, IfErr, OnErr};
ghost use Rattle.store.specs.Refusals.{IsOfJournal};
ghost use Rattle.store.specs.Going.{GoesOn};
ghost use Rattle.store.specs.Journals.{IsSpent};

use crate::announcing::Announces;
use crate::refusal::StoreRefusal;
use crate::store::Store;
use journal::Taken;
use model::member::Member;
use model::message::Input;

impl<K: Announces> Store<K>
where
    K::Image: Drop,
{
    // How many members are up, and how long the longest log of these is.
    fn strength(&self) -> (usize, usize) {
        let mut up = 0usize;
        let mut longest = 0usize;
        for seat in &self.seats {
            if seat.is_up() {
                up = up.saturating_add(1);
                longest = longest.max(seat.chain.len());
            }
        }
        (up, longest)
    }

    // Has a member stand for election, if it is up, its log is so long, and nobody leads.
    #[tactic(auto, using(crate::proofs::Going::stays))]
    fn elect(&mut self, member: Member, least: usize, reading: i64) -> Result<(), StoreRefusal>
        ensures why { IfErr result IsOfJournal }
        ensures fails { OnErr result (IsSpent self.new.scribe) }
        ensures goes { GoesOn K.Journal.contents K.is_honest K.may_hold K.holds self.old self.new }
    {
        let stands = match self.seat(member) {
            Some(seat) => seat.is_up() && seat.chain.len() >= least,
            None => false,
        };
        if !stands || self.leader.is_some() {
            return Ok(());
        }
        let _ = self.hand(member, reading, Taken::Timeout, Input::Timeout)?;
        self.deliver_all(reading)
    }

    // Has each member stand in turn whose log is so long, until one leads.
    fn elect_any(&mut self, least: usize, reading: i64) -> Result<(), StoreRefusal>
        ensures why { IfErr result IsOfJournal }
        ensures fails { OnErr result (IsSpent self.new.scribe) }
        ensures goes { GoesOn K.Journal.contents K.is_honest K.may_hold K.holds self.old self.new }
    {
        for at in 0..self.seats.len() {
            self.elect(at.saturating_add(1), least, reading)?;
        }
        Ok(())
    }

    /// The leader; one is elected where none is known and a majority is up: first a member with the longest log stands. None where there is
    /// none. 38, 40 and 43 where the journal can't be written; of a store that was spent before nothing changes then.
    #[tactic(auto, using(crate::proofs::Going::stays))]
    pub fn lead(&mut self, reading: i64) -> Result<Option<Member>, StoreRefusal>
        ensures why { IfErr result IsOfJournal }
        ensures fails { OnErr result (IsSpent self.new.scribe) }
        ensures goes { GoesOn K.Journal.contents K.is_honest K.may_hold K.holds self.old self.new }
        ensures spent { IsSpent self.old.scribe → IsErr result × (self.new ≡ self.old) }
    {
        self.check()?;
        let (up, longest) = self.strength();
        if up <= self.seats.len() / 2 {
            return Ok(None);
        }
        self.elect_any(longest, reading)?;
        self.elect_any(0, reading)?;
        Ok(self.leader)
    }
}
