//! A log of which only the end is in memory.
ghost use Rattle.std.specs.Prelude.{◌≡◌, ◌⊎◌, List, length, ◌+◌, ◌-◌, ◌<◌, ◌≤◌, ◌++◌, ◌∷◌, [], nat_le, min, take, drop, vec_len, true, IfOk, OnOk, OnErr};
ghost use Rattle.std.specs.List.{list_all};
ghost use Rattle.model.specs.Logs.{closed, last_entry};
ghost use Rattle.model.specs.declared.entry.Entry as in_log;
ghost use Rattle.model.specs.Members.{agreed, has_term, last_term};
ghost use Rattle.model.specs.Steps.{TERM_LAST, accepted};

use crate::logs::{has_term, last_term};
use keep::state::TAIL_MOST;
use model::entry::Entry;
use model::message::CARRIED_MOST;
use model::stamp::Stamp;
use std::alloc::{AllocError, Global};

/// A log whose first entries only its reader has. The others are here, the last of all among them.
#[derive(Drop)]
pub struct ShortLog {
    /// How many entries only its reader has.
    pub elsewhere: usize,
    /// The entries after these.
    pub tail: Vec<Entry>,
    /// How many of the first entries are stored: all as a step begins, then those that stay.
    pub(crate) saved: usize,
    pub ghost within: { elsewhere + vec_len tail ≤ 100000 },
    pub ghost ends: { 1 ≤ elsewhere → 1 ≤ vec_len tail },
    pub ghost saved_low: { elsewhere ≤ saved },
    pub ghost saved_high: { saved ≤ elsewhere + vec_len tail },
    pub ghost terms: { list_all (λ e. nat_le e.term TERM_LAST) tail.items ≡ true },
}

impl ShortLog {
    ghost use Rattle.std.specs.Prelude.{false};
    ghost use Rattle.raft.specs.Saved.{whole, IsSaved, Tells};

    /// A log of so many entries, of which these are the last: 1,024 of them, or all where there are fewer.
    pub(crate) fn new(length: usize, tail: Vec<Entry>) -> ShortLog
        requires within { length ≤ 100000 }
        requires last { vec_len tail ≡ min length 1024 }
        requires terms { list_all (λ e. nat_le e.term TERM_LAST) tail.items ≡ true }
        ensures elsewhere { result.elsewhere ≡ length - 1024 }
        ensures tail { result.tail ≡ tail }
    {
        let elsewhere = length - tail.len();
        ShortLog {
            elsewhere,
            tail,
            saved: length,
        }
    }

    /// How many entries the log has.
    pub(crate) fn length(&self) -> usize
        ensures { result ≡ self.now.elsewhere + vec_len self.now.tail }
    {
        self.elsewhere + self.tail.len()
    }

    /// Adds an entry at the end. Changes nothing where memory is refused.
    #[tactic(auto, using(crate::proofs::LogFacts::terms_pushed))]
    pub(crate) fn push(&mut self, entry: Entry) -> Result<(), AllocError>
        ghost stored: { List in_log.Entry }
        requires reaches { self.old.elsewhere ≤ length stored }
        requires room { self.old.elsewhere + vec_len self.old.tail < 100000 }
        requires term { entry.term ≤ TERM_LAST }
        ensures ok { OnOk result (self.new.tail.items ≡ self.old.tail.items ++ entry ∷ []) }
        ensures tells { IsSaved self.old → OnOk result (Tells stored self.old self.new) }
        ensures err { OnErr result (self.new.tail.items ≡ self.old.tail.items) }
        ensures elsewhere { self.new.elsewhere ≡ self.old.elsewhere }
        ensures longer { vec_len self.old.tail ≤ vec_len self.new.tail }
        ensures short { vec_len self.new.tail ≤ vec_len self.old.tail + 1 }
    {
        self.tail.push(entry)?;
        Ok(())
    }

    /// Keeps the first entries, so many, and goes on with these. Changes nothing where memory is refused.
    #[tactic(auto, using(crate::proofs::LogFacts::terms_kept, crate::proofs::Windows::cut_low, crate::proofs::Windows::cut_high))]
    fn go_on_with(&mut self, kept: usize, mut entries: Vec<Entry>) -> Result<(), AllocError>
        ghost stored: { List in_log.Entry }
        requires reaches { self.old.elsewhere ≤ length stored }
        requires kept { kept ≤ self.old.elsewhere + vec_len self.old.tail }
        requires some { 1 ≤ vec_len entries }
        requires room { kept + vec_len entries ≤ 100000 }
        requires terms { list_all (λ e. nat_le e.term TERM_LAST) entries.items ≡ true }
        ensures ok { OnOk result (take self.new.elsewhere stored ++ self.new.tail.items ≡ take kept (take self.old.elsewhere stored ++ self.old.tail.items) ++ entries.items) }
        ensures length { OnOk result (self.new.elsewhere + vec_len self.new.tail ≡ kept + vec_len entries) }
        ensures saved { OnOk result (self.new.saved ≡ min self.old.saved kept) }
        ensures lower { self.new.elsewhere ≤ self.old.elsewhere }
        ensures short { vec_len self.new.tail ≤ vec_len self.old.tail + vec_len entries }
        ensures err { OnErr result ((self.new.elsewhere ≡ self.old.elsewhere) × (self.new.tail.items ≡ self.old.tail.items)) }
    {
        if kept < self.elsewhere {
            self.elsewhere = kept;
            self.tail = entries;
            self.saved = kept;
            return Ok(());
        }
        self.tail.reserve(entries.len())?;
        self.tail.truncate(kept - self.elsewhere);
        self.tail.append(&mut entries)?;
        self.saved = self.saved.min(kept);
        Ok(())
    }

    /// Takes the entries after `prev`, with which the log agrees up to an index: cuts the log there, if it is before the
    /// last of them, and goes on with those that come after. Changes nothing where memory is refused.
    pub(crate) fn accept(
        &mut self,
        index: usize,
        prev: usize,
        mut entries: Vec<Entry>,
    ) -> Result<(), AllocError>
        ghost stored: { List in_log.Entry }
        requires reaches { self.old.elsewhere ≤ length stored }
        requires low { prev ≤ index }
        requires high { index ≤ prev + vec_len entries }
        requires within { index ≤ self.old.elsewhere + vec_len self.old.tail }
        requires room { index < prev + vec_len entries → prev + vec_len entries ≤ 100000 }
        requires few { vec_len entries ≤ 64 }
        requires terms { list_all (λ e. nat_le e.term TERM_LAST) entries.items ≡ true }
        ensures ok { OnOk result (index ≡ agreed (take self.old.elsewhere stored ++ self.old.tail.items) prev entries.items → take self.new.elsewhere stored ++ self.new.tail.items ≡ accepted (take self.old.elsewhere stored ++ self.old.tail.items) prev entries.items) }
        ensures tells { index ≡ agreed (whole self.old stored) prev entries.items → IsSaved self.old → OnOk result (Tells stored self.old self.new) }
        ensures holds { OnOk result (prev + vec_len entries ≤ self.new.elsewhere + vec_len self.new.tail) }
        ensures keeps { OnOk result ((self.new.elsewhere + vec_len self.new.tail ≡ self.old.elsewhere + vec_len self.old.tail) ⊎ (index < prev + vec_len entries)) }
        ensures lower { self.new.elsewhere ≤ self.old.elsewhere }
        ensures short { vec_len self.new.tail ≤ vec_len self.old.tail + 64 }
        ensures err { OnErr result ((self.new.elsewhere ≡ self.old.elsewhere) × (self.new.tail.items ≡ self.old.tail.items)) }
    {
        if index == prev + entries.len() {
            return Ok(());
        }
        let new = entries.split_off(index - prev)?;
        self.go_on_with(index, new)?;
        Ok(())
    }

    /// A step begins: all entries are stored. Leaves the older half to the reader, where a message may bring more entries
    /// than there is room for.
    #[tactic(auto, using(crate::proofs::LogFacts::terms_turned))]
    pub(crate) fn begin_step(&mut self)
        ensures saved { IsSaved self.new }
        ensures elsewhere { self.old.elsewhere ≤ self.new.elsewhere }
        ensures tail { self.new.tail.items ≡ drop (self.new.elsewhere - self.old.elsewhere) self.old.tail.items }
        ensures length { self.new.elsewhere + vec_len self.new.tail ≡ self.old.elsewhere + vec_len self.old.tail }
        ensures room { vec_len self.new.tail ≤ 960 }
    {
        self.saved = self.length();
        let len = self.tail.len();
        if len <= TAIL_MOST - CARRIED_MOST {
            return;
        }
        let older = len - TAIL_MOST / 2;
        self.tail.rotate_left(older);
        self.tail.truncate(len - older);
        self.elsewhere += older;
    }

    /// A step left the log as it was.
    pub(crate) fn is_saved(&self) -> bool
        ensures yes { result ≡ true → IsSaved self.now }
        ensures no { result ≡ false → IsSaved self.now → ⊥ }
    {
        self.saved == self.length()
    }

    /// The entries that are to be stored after those that are.
    pub(crate) fn unsaved(&self, alloc: Global) -> Result<Vec<Entry>, AllocError>
        ghost stored: { List in_log.Entry }
        requires reaches { self.now.elsewhere ≤ length stored }
        ensures tail { IfOk result (λ es. es.items ≡ drop (self.now.saved - self.now.elsewhere) self.now.tail.items) }
        ensures whole { IfOk result (λ es. take self.now.saved (whole self.now stored) ++ es.items ≡ whole self.now stored) }
    {
        let (_, new) = self.tail.split_at(self.saved - self.elsewhere);
        let entries = new.to_vec(alloc)?;
        Ok(entries)
    }

    /// The term of the last entry, 0 where there is none.
    pub(crate) fn last_term(&self) -> u64
        ensures { result ≡ last_term self.now.tail.items }
    {
        last_term(&self.tail)
    }

    /// The last entry is of this term.
    pub(crate) fn ends_in(&self, term: u64) -> bool
        ensures { result ≡ has_term (last_entry self.now.tail.items) term }
    {
        let len = self.tail.len();
        0 < len && has_term(&self.tail, len - 1, term)
    }

    /// The stamp of the last entry, none where there is none.
    pub(crate) fn closed(&self) -> Option<Stamp>
        ensures { result ≡ closed self.now.tail.items }
    {
        closedtime::closed(&self.tail)
    }
}
