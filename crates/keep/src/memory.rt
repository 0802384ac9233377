//! A keeper in memory.
ghost use Rattle.std.specs.Prelude.{◌≡◌, ◌≢◌, ◌↔◌, ℕ, ◌-◌, ◌≤◌, ◌++◌, ◌⊎◌, true, false, None, take, length, slice_get, IfOk, IfErr, IsOk, IsErr, OnOk, OnErr};

use crate::change::Change;
use crate::error::StoreError;
use crate::hard_state::HardState;
use crate::keeper::{Keeper, LogReader};
use crate::state::{State, TAIL_MOST};
use model::entry::Entry;
use schema::Schema;
use std::alloc::{AllocError, Global};

/// A store in memory: a member's hard state and log. It can be told which call of the keeper that
/// opens it is to fail.
#[derive(Debug, Drop)]
pub struct MemImage {
    hard: HardState,
    entries: Vec<Entry>,
    /// The first call is 1; 0 is none.
    fail_at: u64,
}

impl MemImage {
    ghost use Rattle.model.specs.Steps.{TERM_LAST};
    ghost use Rattle.model.specs.Transactions.{Language};
    ghost use Rattle.keep.specs.Durable.{after, blank, failing_call, beginning, stored_in};
    ghost use Rattle.keep.specs.Log.{IsLog, is_vote};

    /// Nothing stored yet: term 0, no vote, no floor, an empty log, which form a log of every member. No call is
    /// to fail.
    pub fn new(alloc: Global) -> MemImage
        ensures stored { stored_in result ≡ blank }
        ensures log { (members : ℕ) (language : Language) → IsLog members language (stored_in result) }
        ensures failing { failing_call result ≡ 0 }
    {
        let hard = HardState {
            term: 0,
            vote: None,
            floor: None,
        };
        MemImage::with_hard_state(alloc, hard)
    }

    /// This hard state, with an empty log. They form a log where the hard state is in range. No call is
    /// to fail.
    pub fn with_hard_state(alloc: Global, hard: HardState) -> MemImage
        ensures stored { stored_in result ≡ beginning hard }
        ensures log { (members : ℕ) (language : Language) → hard.term ≤ TERM_LAST → is_vote members hard.vote ≡ true → IsLog members language (stored_in result) }
        ensures failing { failing_call result ≡ 0 }
    {
        MemImage {
            hard,
            entries: Vec::new(alloc),
            fail_at: 0,
        }
    }

    /// Tells which call of the next keeper is to answer `StoreFault`: its open is 1, and then each
    /// `state`, `entry` and `save` counts one more; 0 is none. It takes the place of what was told
    /// before. What is stored stays.
    pub fn fail_at(&mut self, call: u64)
        ensures stored { stored_in self.new ≡ stored_in self.old }
        ensures failing { failing_call self.new ≡ call }
    {
        self.fail_at = call;
    }

    /// Makes the change, where `tail` is a copy of its entries. Changes nothing where memory is
    /// refused.
    fn put(&mut self, change: &Change, tail: Vec<Entry>) -> Result<(), AllocError>
        requires { tail.items ≡ change.now.entries.items }
        ensures ok { OnOk result (stored_in self.new ≡ after change.now (stored_in self.old)) }
        ensures err { OnErr result (stored_in self.new ≡ stored_in self.old) }
        ensures failing { failing_call self.new ≡ failing_call self.old }
    {
        replace_tail(&mut self.entries, change.kept, tail)?;
        self.hard = change.hard;
        Ok(())
    }
}

/// Replaces all but the first `kept` entries. Changes nothing where memory is refused.
fn replace_tail(log: &mut Vec<Entry>, kept: usize, mut tail: Vec<Entry>) -> Result<(), AllocError>
    ensures ok { OnOk result (log.new.items ≡ take kept log.old.items ++ tail.items) }
    ensures err { OnErr result (log.new.items ≡ log.old.items) }
{
    log.reserve(tail.len())?;
    log.truncate(kept);
    log.append(&mut tail)?;
    Ok(())
}

fn copy_of(entry: &Entry) -> Result<Entry, AllocError>
    ensures { IfOk result (λ e. e ≡ entry.now) }
{
    entry.clone()
}

fn copies_of(alloc: Global, entries: &[Entry]) -> Result<Vec<Entry>, AllocError>
    ensures { IfOk result (λ copies. copies.items ≡ entries.now) }
{
    entries.to_vec(alloc)
}

/// A keeper whose store is a `MemImage`. It is always honest. It judges nothing at `open`, where its
/// opener owes that what the image holds forms a log: an open takes no memory, and never answers
/// `BadStore`.
///
/// It answers `StoreFault` at the call that the image was told to fail, and at no other: at the open,
/// which is call 1, or at a later `state`, `entry` or `save`, which count one each; `failures`, `asked`
/// and `close` are not counted. No later keeper of the image is to fail, unless the image is told so again.
/// After an error what is stored is as it was before the call.
#[derive(Debug, Drop)]
pub struct MemKeeper {
    image: MemImage,
    /// Calls up to the one that is to fail, it included; 0 is none.
    left: u64,
    failures: u64,
    asked: u64,
    saved: u64,
    is_up: bool,
    ghost unfailed: { is_up ≡ true → failures ≡ 0 },
    ghost untold: { image.fail_at ≡ 0 },
}

impl MemKeeper {
    ghost use Rattle.keep.specs.Calls.{IsCounted};

    /// Counts a call, and says whether it may go on.
    fn count_call(&mut self) -> Result<(), StoreError>
        ensures image { (self.new.image ≡ self.old.image) × (self.new.asked ≡ self.old.asked) × (self.new.saved ≡ self.old.saved) }
        ensures counted { IsCounted self.old self.new result }
        ensures ok { OnOk result ((self.old.is_up ≡ true) × (self.new.is_up ≡ true)) }
        ensures err { OnErr result (self.new.is_up ≡ false) }
        ensures down { self.old.is_up ≡ false → result ≡ Err StoreError.NodeDown }
        ensures named { IfErr result (λ e. (e ≡ StoreError.StoreFault) ⊎ ((e ≡ StoreError.NodeDown) × (self.old.is_up ≡ false))) }
    {
        if !self.is_up {
            return Err(StoreError::NodeDown);
        }
        if self.left == 1 {
            self.is_up = false;
            self.failures = 1;
            return Err(StoreError::StoreFault);
        }
        if self.left > 1 {
            self.left -= 1;
        }
        Ok(())
    }

    /// Goes down for want of memory.
    fn lack_memory(&mut self) -> StoreError
        ensures result { result ≡ StoreError.NoMemory }
        ensures down { self.new.is_up ≡ false }
        ensures same { (self.new.image ≡ self.old.image) × (self.new.failures ≡ self.old.failures) × (self.new.left ≡ self.old.left) × (self.new.asked ≡ self.old.asked) × (self.new.saved ≡ self.old.saved) }
    {
        self.is_up = false;
        StoreError::NoMemory
    }
}

impl LogReader for MemKeeper {
    ghost use Rattle.std.proofs.Common.{refl};
    ghost use Rattle.keep.specs.Durable.{stored_in, one_more};
    ghost use Rattle.keep.specs.Log.{IsLog, log_prop};
    ghost use Rattle.keep.specs.Errors.{IsAnswered};
    ghost use Rattle.keep.specs.Calls.{stored_by, failing_next, failures_of, asks_of, saves_of, IsCounted};

    ghost stored = { λ k. stored_in k.image };

    ghost is_honest = { λ _. Unit {0} };

    ghost is_up = { λ k. k.is_up };

    ghost failed = { λ k. k.failures };

    ghost asks = { λ k. k.asked };

    ghost saves = { λ k. k.saved };

    ghost limit = { λ _. None };

    ghost may_hold = { λ k d. d ≡ stored_in k.image };

    ghost serves = { λ k members language. IsLog members language (stored_in k.image) };

    ghost Origin = { Unit {0} };

    ghost came_from = { λ _ _. Unit {0} };

    ghost only_honest = { λ _ _ _. tt };

    ghost only_stored = { λ _ _ h. h };

    ghost holds_stored = { λ _ _. refl };

    ghost served_once = { λ k members language. log_prop members language (stored_in k.image) };

    ghost only_logs = { λ _ _ _ forms _. forms };

    fn entry(&mut self, alloc: Global, i: usize) -> Result<Option<Entry>, StoreError>
        ensures ok { IfOk result (λ e. e ≡ slice_get (stored_by self.old).log i) }
        // past the end no memory is taken
        ensures past { self.old.is_up ≡ true → failing_next self.old ≢ 1 → length (stored_by self.old).log ≤ i → IsOk result }
        ensures same { stored_by self.new ≡ stored_by self.old }
        ensures answered { IsAnswered self.old.is_up self.new.is_up (failures_of self.old) (failures_of self.new) result }
        ensures counted { IsCounted self.old self.new result }
        ensures asked { asks_of self.new ≡ one_more (asks_of self.old) }
        ensures saved { saves_of self.new ≡ saves_of self.old }
    {
        let _ = alloc;
        self.asked = self.asked.saturating_add(1);
        self.count_call()?;
        let Some(entry) = self.image.entries.get(i) else {
            return Ok(None);
        };
        let Ok(copy) = copy_of(entry) else {
            return Err(self.lack_memory());
        };
        Ok(Some(copy))
    }

    fn failures(&self) -> u64 {
        self.failures
    }

    fn asked(&self) -> u64 {
        self.asked
    }

    fn saved(&self) -> u64 {
        self.saved
    }
}

impl Keeper for MemKeeper {
    ghost use Rattle.std.proofs.Common.{◌∙◌, sym};
    ghost use Rattle.keep.specs.Durable.{stored_in, failing_call, after, tail_of, one_more};
    ghost use Rattle.keep.specs.Log.{IsLog};
    ghost use Rattle.keep.specs.Errors.{IsAnswered};
    ghost use Rattle.keep.specs.Calls.{stored_by, failing_next, failures_of, asks_of, saves_of, IsCounted};

    type Image = MemImage;

    ghost holds = { λ i d. d ≡ stored_in i };

    ghost suits = { λ i members language. IsLog members language (stored_in i) };

    ghost is_bad = { λ _ _ _. ⊥ };

    ghost is_sound = { λ _. Unit {0} };

    ghost limit_of = { λ _. None };

    ghost only_sound = { λ _ _ _. tt };

    ghost holds_one = { λ _ _ _ p q. p ∙ sym q };

    ghost never_bad = { λ _ _ _ _ _ _ bad. bad };

    fn open(
        alloc: Global,
        image: MemImage,
        members: usize,
        schema: &Schema,
    ) -> Result<MemKeeper, (StoreError, MemImage)>
        ensures fails { IsErr result ↔ (failing_call image ≡ 1) }
        ensures fault { IfErr result (λ e. (e.0 ≡ StoreError.StoreFault) × (stored_in e.1 ≡ stored_in image) × (failing_call e.1 ≡ 0)) }
        ensures stored { IfOk result (λ k. stored_by k ≡ stored_in image) }
        ensures told { IfOk result (λ k. failing_next k ≡ failing_call image - 1) }
        ensures up { IfOk result (λ k. (k.is_up ≡ true) × (failures_of k ≡ 0) × (asks_of k ≡ 0) × (saves_of k ≡ 0)) }
    {
        let _ = alloc;
        let _ = members;
        let _ = schema;
        let fail_at = image.fail_at;
        let image = MemImage {
            fail_at: 0,
            ..image
        };
        if fail_at == 1 {
            return Err((StoreError::StoreFault, image));
        }
        Ok(MemKeeper {
            image,
            left: fail_at.saturating_sub(1),
            failures: 0,
            asked: 0,
            saved: 0,
            is_up: true,
        })
    }

    fn state(&mut self, alloc: Global) -> Result<State, StoreError>
        ensures ok { IfOk result (λ s. (s.hard ≡ (stored_by self.old).hard) × (s.length ≡ length (stored_by self.old).log) × (s.tail.items ≡ tail_of (stored_by self.old).log)) }
        ensures same { stored_by self.new ≡ stored_by self.old }
        ensures answered { IsAnswered self.old.is_up self.new.is_up (failures_of self.old) (failures_of self.new) result }
        ensures counted { IsCounted self.old self.new result }
        ensures asked { asks_of self.new ≡ asks_of self.old }
        ensures saved { saves_of self.new ≡ saves_of self.old }
    {
        self.count_call()?;
        let length = self.image.entries.len();
        let before = length.saturating_sub(TAIL_MOST);
        let Ok(tail) = copies_of(alloc, &self.image.entries[before..]) else {
            return Err(self.lack_memory());
        };
        Ok(State {
            hard: self.image.hard,
            length,
            tail,
        })
    }

    fn save(&mut self, alloc: Global, change: &Change) -> Result<(), StoreError>
        ensures ok { OnOk result (stored_by self.new ≡ after change.now (stored_by self.old)) }
        ensures err { OnErr result (stored_by self.new ≡ stored_by self.old) }
        ensures answered { IsAnswered self.old.is_up self.new.is_up (failures_of self.old) (failures_of self.new) result }
        ensures counted { IsCounted self.old self.new result }
        ensures asked { asks_of self.new ≡ asks_of self.old }
        ensures saved { saves_of self.new ≡ one_more (saves_of self.old) }
    {
        self.saved = self.saved.saturating_add(1);
        self.count_call()?;
        let Ok(tail) = copies_of(alloc, &change.entries) else {
            return Err(self.lack_memory());
        };
        if self.image.put(change, tail).is_err() {
            return Err(self.lack_memory());
        }
        Ok(())
    }

    fn close(self) -> MemImage
        ensures stored { stored_in result ≡ stored_by self }
        ensures failing { failing_call result ≡ 0 }
    {
        let MemKeeper { image, .. } = self;
        image
    }
}
