//! A whole step: what is looked at before it, and what is to be stored and sent after it.
ghost use Rattle.std.specs.Prelude.{◌≡◌, ◌+◌, ◌*◌, ◌≤◌, List, vec_len, [], IfOk, IfErr, OnOk, OnErr, IsOk, true, false};
ghost use Rattle.std.specs.List.{list_all};
ghost use Rattle.keep.specs.Log.{IsLog, is_entry};
ghost use Rattle.sqlread.specs.Meaning.{language_of};
ghost use Rattle.model.specs.declared.entry.Entry as in_log;
ghost use Rattle.raft.specs.Memory.{spares_memory};
ghost use Rattle.raft.specs.Reading.{IsRead, IsCauseOr};
ghost use Rattle.raft.specs.Saved.{IsSaved};
ghost use Rattle.raft.specs.View.{brought, looks, effect_of, hard_in, log_of, node_of, sent_by, works, EffectFits, EffectForms, Grows, IsInStep, IsNews, IsSameSeat, IsSmallChange, IsSmallEffect, LooksAt, Reaches};

use crate::floors::is_instant;
use crate::state::{Core, Effect, Taken, Work};
use crate::step::has_ranges_in;
use keep::change::Change;
use keep::error::StoreError;
use keep::hard_state::HardState;
use keep::keeper::LogReader;
use model::entry::Entry;
use model::message::{Body, CARRIED_MOST};
use std::alloc::AllocError;

impl Core {
    /// What is to be seen of the log for this work: of an `Append` the entry before its entries and as many as it may carry.
    fn look<S: LogReader>(&self, reader: &mut S, work: &Work) -> Result<Vec<Entry>, StoreError>
        requires up { S.is_up reader.old ≡ true }
        requires reaches { S.is_honest reader.old → Reaches self.now (S.stored reader.old).log }
        ensures ok { IfOk result (λ window. S.is_honest reader.new → LooksAt work.now (log_of self.now (S.stored reader.old).log) window.items) }
        ensures part { IfOk result (λ window. S.is_honest reader.new → list_all (is_entry (language_of self.now.schema)) (log_of self.now (S.stored reader.old).log) ≡ true → list_all (is_entry (language_of self.now.schema)) window.items ≡ true) }
        ensures reader { IsRead (S.is_honest reader.old) (S.is_honest reader.new) (S.stored reader.old) (S.stored reader.new) (S.may_hold reader.old) (S.may_hold reader.new) (S.serves reader.old) (S.serves reader.new) (S.failed reader.old) (S.failed reader.new) (S.saves reader.old) (S.saves reader.new) (S.came_from reader.old) (S.came_from reader.new) }
        ensures up { OnOk result (S.is_up reader.new ≡ true) }
        ensures cause { IfErr result (IsCauseOr (S.is_honest reader.new) (S.failed reader.old) (S.failed reader.new)) }
        ensures asks { S.asks reader.new ≤ S.asks reader.old + looks work.now }
        ensures local { brought work.now ≡ 0 → IsOk result }
        ensures none { IfOk result (λ window. brought work.now ≡ 0 → window.items ≡ []) }
    {
        let Work::Delivered { message, .. } = work else {
            return Ok(Vec::new(self.alloc));
        };
        let Body::Append { prev_index, .. } = &message.body else {
            return Ok(Vec::new(self.alloc));
        };
        let window = self.window(reader, (*prev_index).saturating_sub(1), CARRIED_MOST + 1)?;
        Ok(window)
    }

    /// What is to be stored after a step: the hard state, and how the log goes on after the entries that are stored; none
    /// where the log and the hard state are as before.
    pub(crate) fn change_since(&self, before: HardState) -> Result<Option<Change>, AllocError>
        ghost stored: { List in_log.Entry }
        requires reaches { Reaches self.now stored }
        ensures small { IfOk result IsSmallChange }
        ensures news { IfOk result (IsNews self.now stored before) }
    {
        let hard = self.hard_state();
        if self.log.is_saved() && hard == before {
            return Ok(None);
        }
        let entries = self.log.unsaved(self.alloc)?;
        Ok(Some(Change {
            hard,
            kept: self.log.saved,
            entries,
        }))
    }

    /// Does the work, and says what changes in what is stored.
    fn take_work<S: LogReader>(
        &mut self,
        reader: &mut S,
        work: Work,
    ) -> Result<Effect<Taken>, StoreError>
        ghost stored: { List in_log.Entry }
        requires up { S.is_up reader.old ≡ true }
        requires reaches { Reaches self.old stored }
        requires same { S.is_honest reader.old → (S.stored reader.old).log ≡ stored }
        requires forms { S.is_honest reader.old → IsLog self.old.members (language_of self.old.schema) (record { hard = hard_in self.old; log = log_of self.old stored }) }
        requires room { vec_len self.old.log.tail ≤ 960 }
        requires saved { IsSaved self.old.log }
        ensures done { IfOk result (λ e. S.is_honest reader.new → effect_of self.new stored e ≡ works self.old.schema self.old.members self.old.me work (node_of self.old stored)) }
        ensures fits { IfOk result (λ e. S.is_honest reader.new → EffectFits (node_of self.old stored) (node_of self.new stored) e) }
        ensures forms { IfOk result (λ e. S.is_honest reader.new → IsLog self.new.members (language_of self.new.schema) (record { hard = hard_in self.new; log = log_of self.new stored })) }
        ensures spares { spares_memory self.old.members self.old.me work (node_of self.old stored) ≡ true → IsOk result }
        ensures small { IfOk result IsSmallEffect }
        ensures seat { IsSameSeat self.old self.new }
        ensures lower { self.new.log.elsewhere ≤ self.old.log.elsewhere }
        ensures short { vec_len self.new.log.tail ≤ 1024 }
        ensures reader { IsRead (S.is_honest reader.old) (S.is_honest reader.new) (S.stored reader.old) (S.stored reader.new) (S.may_hold reader.old) (S.may_hold reader.new) (S.serves reader.old) (S.serves reader.new) (S.failed reader.old) (S.failed reader.new) (S.saves reader.old) (S.saves reader.new) (S.came_from reader.old) (S.came_from reader.new) }
        ensures up { OnOk result (S.is_up reader.new ≡ true) }
        ensures cause { IfErr result (IsCauseOr (S.is_honest reader.new) (S.failed reader.old) (S.failed reader.new)) }
        ensures asks { IfOk result (λ e. S.asks reader.new ≤ S.asks reader.old + (65 * (brought work + sent_by e) + 1)) }
    {
        let window = self.look(reader, &work)?;
        let before = self.hard_state();
        let committed_before = self.commit;
        has_ranges_in(&work);
        let sending = match self.on_work(&window, work)? {
            Effect::Refused(refusal) => return Ok(Effect::Refused(refusal)),
            Effect::Ignored => return Ok(Effect::Ignored),
            Effect::Done(sending) => sending,
        };
        let messages = self.send(reader, sending)?;
        let change = self.change_since(before)?;
        is_instant(self.floor);
        Ok(Effect::Done(Taken {
            change,
            messages,
            committed_before,
        }))
    }

    /// Takes one step, by Figure 2 of "In search of an understandable consensus algorithm". Entries that are no longer in
    /// memory come from the reader: at most 65 for an `Append` that is taken or sent, one to find what is committed, and one to
    /// find whether a seal's entry is applied.
    ///
    /// A refusal leaves the member as it was: the reader's refusal of a submitted text, `NotLeader`
    /// with the known leader where a close or a submit comes to no leader, then `TimeFull` where no
    /// stamp is left, then `LogFull` where the log has 100,000 entries; `TermFull` at a timeout in the
    /// last term. A message that no honest member can send, a timeout of a leader, a beat of another, and a floor where the
    /// member does not lead or its last entry is of another term are ignored. The commit index never falls, the log stays as
    /// it is up to there, and what is sealed does not fall.
    ///
    /// An `Err` is want of memory or the reader's: the state may be half changed, and each later step gives an `Err`
    /// too. A timeout, a beat, a close or a floor that is refused or ignored takes no memory. Owed: the reader is up, what it stores
    /// is what the member has, and it was opened for such a member.
    pub fn step<S: LogReader>(
        &mut self,
        reader: &mut S,
        work: Work,
    ) -> Result<Effect<Taken>, StoreError>
        requires up { S.is_up reader.old ≡ true }
        requires stored { S.is_honest reader.old → IsInStep self.old (S.stored reader.old) }
        requires serves { S.serves reader.old self.old.members (language_of self.old.schema) }
        ensures done { IfOk result (λ e. S.is_honest reader.new → effect_of self.new (S.stored reader.old).log e ≡ works self.old.schema self.old.members self.old.me work (node_of self.old (S.stored reader.old).log)) }
        ensures fits { IfOk result (λ e. S.is_honest reader.new → EffectFits (node_of self.old (S.stored reader.old).log) (node_of self.new (S.stored reader.old).log) e) }
        ensures forms { IfOk result (λ e. S.is_honest reader.new → EffectForms self.new (S.stored reader.old) e) }
        ensures grows { OnOk result (S.is_honest reader.new → Grows (node_of self.old (S.stored reader.old).log) (node_of self.new (S.stored reader.old).log)) }
        ensures spares { self.old.is_spent ≡ false → S.is_honest reader.old → spares_memory self.old.members self.old.me work (node_of self.old (S.stored reader.old).log) ≡ true → IsOk result }
        ensures small { IfOk result IsSmallEffect }
        ensures group { (self.new.members ≡ self.old.members) × (self.new.me ≡ self.old.me) × (self.new.schema ≡ self.old.schema) }
        ensures short { OnOk result (vec_len self.new.log.tail ≤ 1024) }
        ensures ok { OnOk result ((self.old.is_spent ≡ false) × (self.new.is_spent ≡ false)) }
        ensures err { OnErr result (self.new.is_spent ≡ true) }
        ensures reader { IsRead (S.is_honest reader.old) (S.is_honest reader.new) (S.stored reader.old) (S.stored reader.new) (S.may_hold reader.old) (S.may_hold reader.new) (S.serves reader.old) (S.serves reader.new) (S.failed reader.old) (S.failed reader.new) (S.saves reader.old) (S.saves reader.new) (S.came_from reader.old) (S.came_from reader.new) }
        ensures up { OnOk result (S.is_up reader.new ≡ true) }
        ensures cause { IfErr result (IsCauseOr (S.is_honest reader.new) (S.failed reader.old) (S.failed reader.new)) }
        ensures asks { IfOk result (λ e. S.asks reader.new ≤ S.asks reader.old + (65 * (brought work + sent_by e) + 1)) }
    {
        if self.is_spent {
            return Err(StoreError::NoMemory);
        }
        self.log.begin_step();
        match self.take_work(reader, work) {
            Ok(effect) => Ok(effect),
            Err(error) => {
                self.is_spent = true;
                Err(error)
            }
        }
    }
}
