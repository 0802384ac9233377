//! Logs that databases hold.
ghost use Rattle.std.specs.Prelude.{◌≡◌, List, None, IfOk, IfSome};
ghost use Rattle.journal.specs.Digests.{summary_of};
ghost use Rattle.store.specs.Chains.{links_of};
ghost use Rattle.store.specs.Held.{IsBeginning};

use crate::chain::Chain;
use crate::known::KnownLog;
use journal::Summary;
use keep::hard_state::HardState;
use model::entry::Entry;
use std::alloc::{AllocError, Global};

/// The log that a member's database holds.
#[derive(Drop)]
pub struct HeldLog {
    entries: Vec<Entry>,
    chain: Chain,
    ghost linked: { chain.links.items ≡ links_of entries.items },
}

impl HeldLog {
    ghost use Rattle.model.specs.declared.entry.Entry.{Entry as TheEntry};

    /// One with these entries. Its chain is taken from a log that is known, as far as that begins so. The error is want of memory.
    pub fn new(
        alloc: Global,
        entries: Vec<Entry>,
        known: &mut KnownLog,
    ) -> Result<HeldLog, AllocError>
        ensures { IfOk result (λ held. held.entries.items ≡ entries.items) }
    {
        let chain = known.link(alloc, entries.as_slice())?;
        Ok(HeldLog { entries, chain })
    }

    /// Its entries.
    pub fn entries(&self) -> &[Entry]
        ensures { result.now ≡ self.now.entries.items }
    {
        self.entries.as_slice()
    }

    /// What a member has stored whose log it is.
    pub fn summary(&self, hard: HardState) -> Summary
        ensures { result ≡ summary_of (record { hard = hard; log = self.now.entries.items }) }
    {
        self.chain.summary(hard)
    }

    /// Its first entries, where they are the log that was stored.
    pub fn beginning(&self, stored: &Summary) -> Option<&[Entry]>
        ensures some { IfSome result (λ first. IsBeginning self.now.entries.items stored.now first.now) }
        ensures none { result ≡ None → (first : List TheEntry) → IsBeginning self.now.entries.items stored.now first → ⊥ }
    {
        if self.chain.digest_at(stored.length) != stored.digest {
            return None;
        }
        self.entries.get(..stored.length)
    }
}
