//! Seals: one counts once its entry is applied, and else it waits.
ghost use Rattle.std.specs.Prelude.{◌≡◌, ◌+◌, ◌≤◌, IfOk, IfErr, OnOk, true};
ghost use Rattle.model.specs.Steps.{is_applied, learned, longer_waiting, settled};
ghost use Rattle.raft.specs.View.{node_of, IsSameSeat, Reaches};
ghost use Rattle.raft.specs.Reading.{IsRead, IsCause};

use crate::state::Core;
use closedtime::greater;
use keep::error::StoreError;
use keep::keeper::LogReader;
use model::member::SealedFloor;

/// The seal that waits, unless the new one has a greater floor.
fn longer_waiting(waiting: Option<SealedFloor>, seal: SealedFloor) -> Option<SealedFloor>
    ensures { result ≡ longer_waiting waiting (Some seal) }
{
    match waiting {
        None => Some(seal),
        Some(other) => {
            if other.floor.micros() < seal.floor.micros() {
                Some(seal)
            } else {
                Some(other)
            }
        }
    }
}

impl Core {
    /// The seal's entry is applied: it has the seal's term.
    #[tactic(auto, using(crate::proofs::Sealing::applied_within, crate::proofs::Sealing::applied_past))]
    pub(crate) fn is_applied<S: LogReader>(
        &self,
        reader: &mut S,
        seal: SealedFloor,
    ) -> Result<bool, StoreError>
        requires up { S.is_up reader.old ≡ true }
        requires reaches { S.is_honest reader.old → Reaches self.now (S.stored reader.old).log }
        ensures ok { IfOk result (λ yes. S.is_honest reader.new → yes ≡ is_applied (node_of self.now (S.stored reader.old).log) seal) }
        ensures reader { IsRead (S.is_honest reader.old) (S.is_honest reader.new) (S.stored reader.old) (S.stored reader.new) (S.may_hold reader.old) (S.may_hold reader.new) (S.serves reader.old) (S.serves reader.new) (S.failed reader.old) (S.failed reader.new) (S.saves reader.old) (S.saves reader.new) (S.came_from reader.old) (S.came_from reader.new) }
        ensures up { OnOk result (S.is_up reader.new ≡ true) }
        ensures cause { IfErr result (IsCause (S.failed reader.old) (S.failed reader.new)) }
        ensures asks { S.asks reader.new ≤ S.asks reader.old + 1 }
    {
        if self.commit < seal.index {
            return Ok(false);
        }
        match self.entry(reader, seal.index)? {
            None => Ok(false),
            Some(entry) => Ok(entry.term == seal.term),
        }
    }

    /// Learns a seal.
    pub(crate) fn learn<S: LogReader>(
        &mut self,
        reader: &mut S,
        seal: SealedFloor,
    ) -> Result<(), StoreError>
        requires up { S.is_up reader.old ≡ true }
        requires reaches { S.is_honest reader.old → Reaches self.old (S.stored reader.old).log }
        ensures ok { IfOk result (λ _. S.is_honest reader.new → node_of self.new (S.stored reader.old).log ≡ learned seal (node_of self.old (S.stored reader.old).log)) }
        ensures seat { IsSameSeat self.old self.new }
        ensures log { self.new.log ≡ self.old.log }
        ensures hard { (self.new.term ≡ self.old.term) × (self.new.vote ≡ self.old.vote) }
        ensures commit { self.new.commit ≡ self.old.commit }
        ensures reader { IsRead (S.is_honest reader.old) (S.is_honest reader.new) (S.stored reader.old) (S.stored reader.new) (S.may_hold reader.old) (S.may_hold reader.new) (S.serves reader.old) (S.serves reader.new) (S.failed reader.old) (S.failed reader.new) (S.saves reader.old) (S.saves reader.new) (S.came_from reader.old) (S.came_from reader.new) }
        ensures up { OnOk result (S.is_up reader.new ≡ true) }
        ensures cause { IfErr result (IsCause (S.failed reader.old) (S.failed reader.new)) }
        ensures asks { S.asks reader.new ≤ S.asks reader.old + 1 }
    {
        let floor = Some(seal.floor);
        if !self.is_applied(reader, seal)? {
            self.waiting = longer_waiting(self.waiting, seal);
            return Ok(());
        }
        self.sealed = greater(self.sealed, floor);
        Ok(())
    }

    /// Counts the seal that waits, if its entry is applied now.
    pub(crate) fn settle<S: LogReader>(&mut self, reader: &mut S) -> Result<(), StoreError>
        requires up { S.is_up reader.old ≡ true }
        requires reaches { S.is_honest reader.old → Reaches self.old (S.stored reader.old).log }
        ensures ok { IfOk result (λ _. S.is_honest reader.new → node_of self.new (S.stored reader.old).log ≡ settled (node_of self.old (S.stored reader.old).log)) }
        ensures seat { IsSameSeat self.old self.new }
        ensures log { self.new.log ≡ self.old.log }
        ensures hard { (self.new.term ≡ self.old.term) × (self.new.vote ≡ self.old.vote) }
        ensures commit { self.new.commit ≡ self.old.commit }
        ensures reader { IsRead (S.is_honest reader.old) (S.is_honest reader.new) (S.stored reader.old) (S.stored reader.new) (S.may_hold reader.old) (S.may_hold reader.new) (S.serves reader.old) (S.serves reader.new) (S.failed reader.old) (S.failed reader.new) (S.saves reader.old) (S.saves reader.new) (S.came_from reader.old) (S.came_from reader.new) }
        ensures up { OnOk result (S.is_up reader.new ≡ true) }
        ensures cause { IfErr result (IsCause (S.failed reader.old) (S.failed reader.new)) }
        ensures asks { S.asks reader.new ≤ S.asks reader.old + 1 }
    {
        let Some(seal) = self.waiting else {
            return Ok(());
        };
        let floor = Some(seal.floor);
        if self.is_applied(reader, seal)? {
            self.sealed = greater(self.sealed, floor);
            self.waiting = None;
        }
        Ok(())
    }
}
