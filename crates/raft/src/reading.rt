//! Entries of the log, of which the older ones come from its reader.
ghost use Rattle.std.specs.Prelude.{◌≡◌, ◌+◌, ◌≤◌, ◌<◌, true, drop, length, take, IfOk, IfErr, OnOk};
ghost use Rattle.model.specs.Lists.{nth};
ghost use Rattle.model.specs.Members.{term_at};
ghost use Rattle.keep.specs.Durable.{one_more};
ghost use Rattle.raft.specs.View.{log_of, Reaches};
ghost use Rattle.raft.specs.Reading.{IsRead, IsCause, IsCauseOr};

use crate::state::Core;
use keep::error::StoreError;
use keep::keeper::LogReader;
use model::entry::Entry;

impl Core {
    /// The entry at an index of the log, counted from 1; none where there is none. One that is no longer in memory is asked
    /// of the reader. The errors are the reader's, and want of memory.
    pub fn entry<S: LogReader>(
        &self,
        reader: &mut S,
        index: usize,
    ) -> Result<Option<Entry>, StoreError>
        requires up { S.is_up reader.old ≡ true }
        ensures ok { IfOk result (λ found. S.is_honest reader.new → Reaches self.now (S.stored reader.old).log → found ≡ nth (log_of self.now (S.stored reader.old).log) index) }
        ensures reader { IsRead (S.is_honest reader.old) (S.is_honest reader.new) (S.stored reader.old) (S.stored reader.new) (S.may_hold reader.old) (S.may_hold reader.new) (S.serves reader.old) (S.serves reader.new) (S.failed reader.old) (S.failed reader.new) (S.saves reader.old) (S.saves reader.new) (S.came_from reader.old) (S.came_from reader.new) }
        ensures up { OnOk result (S.is_up reader.new ≡ true) }
        ensures cause { IfErr result (IsCause (S.failed reader.old) (S.failed reader.new)) }
        ensures asks { S.asks reader.new ≤ S.asks reader.old + 1 }
    {
        if index == 0 {
            return Ok(None);
        }
        let before = index - 1;
        if before < self.log.elsewhere {
            return reader.entry(self.alloc, before);
        }
        match self.log.tail.get(before - self.log.elsewhere) {
            None => Ok(None),
            Some(entry) => Ok(Some(entry.clone()?)),
        }
    }

    /// The term of the entry at an index, 0 where there is none.
    pub(crate) fn term_at<S: LogReader>(
        &self,
        reader: &mut S,
        index: usize,
    ) -> Result<u64, StoreError>
        requires up { S.is_up reader.old ≡ true }
        requires reaches { S.is_honest reader.old → Reaches self.now (S.stored reader.old).log }
        ensures ok { IfOk result (λ term. S.is_honest reader.new → term ≡ term_at (log_of self.now (S.stored reader.old).log) index) }
        ensures reader { IsRead (S.is_honest reader.old) (S.is_honest reader.new) (S.stored reader.old) (S.stored reader.new) (S.may_hold reader.old) (S.may_hold reader.new) (S.serves reader.old) (S.serves reader.new) (S.failed reader.old) (S.failed reader.new) (S.saves reader.old) (S.saves reader.new) (S.came_from reader.old) (S.came_from reader.new) }
        ensures up { OnOk result (S.is_up reader.new ≡ true) }
        ensures cause { IfErr result (IsCause (S.failed reader.old) (S.failed reader.new)) }
        ensures asks { S.asks reader.new ≤ S.asks reader.old + 1 }
    {
        match self.entry(reader, index)? {
            None => Ok(0),
            Some(entry) => Ok(entry.term),
        }
    }

    /// The entries of the log after so many others, up to a number of them. Where one is missing the reader has lied, and
    /// that is its fault.
    pub(crate) fn window<S: LogReader>(
        &self,
        reader: &mut S,
        before: usize,
        most: usize,
    ) -> Result<Vec<Entry>, StoreError>
        requires up { S.is_up reader.old ≡ true }
        requires reaches { S.is_honest reader.old → Reaches self.now (S.stored reader.old).log }
        requires few { most ≤ 65 }
        ensures ok { IfOk result (λ window. S.is_honest reader.new → window.items ≡ take most (drop before (log_of self.now (S.stored reader.old).log))) }
        ensures reader { IsRead (S.is_honest reader.old) (S.is_honest reader.new) (S.stored reader.old) (S.stored reader.new) (S.may_hold reader.old) (S.may_hold reader.new) (S.serves reader.old) (S.serves reader.new) (S.failed reader.old) (S.failed reader.new) (S.saves reader.old) (S.saves reader.new) (S.came_from reader.old) (S.came_from reader.new) }
        ensures up { OnOk result (S.is_up reader.new ≡ true) }
        ensures cause { IfErr result (IsCauseOr (S.is_honest reader.new) (S.failed reader.old) (S.failed reader.new)) }
        ensures asks { S.asks reader.new ≤ S.asks reader.old + most }
    {
        let length = self.log.length();
        let first = before.min(length);
        let end = length.min(first + most);
        let mut window = Vec::with_capacity(self.alloc, end - first)?;
        for place in first..end {
            let Some(entry) = self.entry(reader, place + 1)? else {
                return Err(StoreError::StoreFault);
            };
            window.push(entry)?;
        }
        Ok(window)
    }
}
