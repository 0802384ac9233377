//! A keeper that announces each save in a journal before it makes it.
ghost use Rattle.std.specs.Prelude.{◌≡◌, ◌≤◌, ◌⊎◌, ℕ, true, false, None, IfOk, IfErr, IfSome, OnOk, OnErr, length};
ghost use Rattle.std.specs.Option.{ForSome};
ghost use Rattle.keep.specs.Durable.{Durable, IsBeforeOrAfter, after, one_more};
ghost use Rattle.keep.specs.Errors.{IsAnswered};
ghost use Rattle.keep.specs.Log.{IsLog, IsSmall};
ghost use Rattle.model.specs.Transactions.{Language};
ghost use Rattle.journal.specs.Digests.{summary_of};
ghost use Rattle.store.specs.Chains.{links_of};
ghost use Rattle.store.specs.Announcing.{HasAnnounced, HasContinued, HasFiled, HasWaited};
ghost use Rattle.store.specs.declared.scribe.Scribe.{Scribe as TheScribe};

use crate::device::Device;
pub use crate::voice::Voice;
use durable::SqlKeeper;
use keep::{Change, Keeper, LogReader, State, StoreError};
use model::entry::Entry;
use schema::Schema;
use sqlite::Alter;
use std::alloc::Global;

/// A keeper that judges what it opens, and owes it to nobody.
pub trait Judging: Keeper {
    /// It takes every image.
    ghost takes_all: { (image : Self.Image) (members : ℕ) (language : Language) → Self.Keeper.suits image members language };
}

impl<S: Alter + Drop> Judging for SqlKeeper<S> {
    ghost takes_all = { λ _ _ _. tt };
}

/// A keeper that a voice can be lent to, which it announces its saves by.
pub trait Announces: Keeper {
    type Journal: Device;

    /// It carries a journal, which is this one still or went on from it. It has stored this, or a block of the journal went to its device.
    ghost carries: { Self → TheScribe Self.Journal → Durable → Type 0 };

    /// Lends a voice, whose chain has to be that of the log that is stored. What is stored, and all else that contracts see of it,
    /// stays.
    fn lend(&mut self, voice: Voice<Self::Journal>)
        requires { Self.LogReader.is_honest self.old → voice.chain.links.items ≡ links_of (Self.LogReader.stored self.old).log }
        ensures carries { carries self.new voice.scribe (Self.LogReader.stored self.old) }
        ensures stored { Self.LogReader.stored self.new ≡ Self.LogReader.stored self.old }
        ensures honest { (Self.LogReader.is_honest self.new → Self.LogReader.is_honest self.old) × (Self.LogReader.is_honest self.old → Self.LogReader.is_honest self.new) }
        ensures up { Self.LogReader.is_up self.new ≡ Self.LogReader.is_up self.old }
        ensures serves { (members : ℕ) (language : Language) → Self.LogReader.serves self.old members language → Self.LogReader.serves self.new members language };

    /// Takes the voice back, if one was lent: while it is up its chain is that of the log that is stored, and its journal went on
    /// from the one that was lent. What is stored, and all else that contracts see of it, stays.
    fn take_back(&mut self) -> Option<Voice<Self::Journal>>
        ensures continues { (s : TheScribe Self.Journal) (d : Durable) → carries self.old s d → HasContinued Self.Journal.contents s (Self.LogReader.is_honest self.old → Self.LogReader.stored self.old ≡ d) result }
        ensures links { IfSome result (λ v. Self.LogReader.is_up self.old ≡ true → Self.LogReader.is_honest self.old → v.chain.links.items ≡ links_of (Self.LogReader.stored self.old).log) }
        ensures stored { Self.LogReader.stored self.new ≡ Self.LogReader.stored self.old }
        ensures honest { (Self.LogReader.is_honest self.new → Self.LogReader.is_honest self.old) × (Self.LogReader.is_honest self.old → Self.LogReader.is_honest self.new) }
        ensures up { Self.LogReader.is_up self.new ≡ Self.LogReader.is_up self.old }
        ensures serves { (members : ℕ) (language : Language) → Self.LogReader.serves self.old members language → Self.LogReader.serves self.new members language };

    /// It takes every image.
    ghost takes_all: { (image : Self.Image) (members : ℕ) (language : Language) → Self.Keeper.suits image members language };

    /// By the calls of a keeper alone the journal that it carries goes on.
    ghost carries_on: { (k l : Self) (s : TheScribe Self.Journal) (d : Durable) → ((o : Self.Keeper.Origin) → Self.Keeper.came_from k o → Self.Keeper.came_from l o) → carries k s d → carries l s d };
}

// Announces a change, where a voice was lent.
fn announce<J: Device>(voice: &mut Option<Voice<J>>, change: &Change) -> Result<(), StoreError>
    ensures announced { (d : Durable) → ForSome voice.old (λ v. v.chain.links.items ≡ links_of d.log → OnOk result (HasAnnounced J.contents v voice.new (summary_of (after change.now d)))) }
    ensures links { (d : Durable) → ForSome voice.old (λ v. v.chain.links.items ≡ links_of d.log) → OnOk result (ForSome voice.new (λ v. v.chain.links.items ≡ links_of (after change.now d).log)) }
    ensures error { IfErr result (λ error. (error ≡ StoreError.NoMemory) ⊎ (error ≡ StoreError.StoreFault)) }
    ensures filed { OnOk result (HasFiled J.contents voice.old voice.new) }
    ensures waited { OnErr result (HasWaited J.contents voice.old voice.new) }
{
    match voice {
        Some(voice) => voice.announce(change),
        None => Ok(()),
    }
}

/// A keeper over another one that announces each save by the voice that was lent to it: nothing is stored that was not announced
/// before. Without a voice it saves as the other does. Where the journal fails, so does the save, and nothing is stored.
#[derive(Drop)]
pub struct Announcing<K: Keeper, J: Device> {
    keeper: K,
    voice: Option<Voice<J>>,
    failures: u64,
    asked: u64,
    saved: u64,
    is_up: bool,
    ghost under: { is_up ≡ true → K.is_up keeper ≡ true },
    ghost unfailed: { is_up ≡ true → failures ≡ 0 },
    ghost linked: { is_up ≡ true → K.is_honest keeper → ForSome voice (λ v. v.chain.links.items ≡ links_of (K.stored keeper).log) },
}

impl<K: Keeper, J: Device> Announcing<K, J> {
    // What a call answers that failed; a fault of the store is counted.
    fn refuse(&mut self, error: StoreError) -> StoreError
        requires { self.old.is_up ≡ false }
        ensures same { result ≡ error }
        ensures down { self.new.is_up ≡ false }
        ensures keeper { (self.new.keeper ≡ self.old.keeper) × (self.new.voice ≡ self.old.voice) }
        ensures asked { (self.new.asked ≡ self.old.asked) × (self.new.saved ≡ self.old.saved) }
        ensures counted { error ≡ StoreError.StoreFault → self.new.failures ≡ 1 }
        ensures counts { self.new.failures ≡ self.old.failures ⊎ (self.new.failures ≡ 1) }
    {
        if error == StoreError::StoreFault {
            self.failures = 1;
        }
        error
    }
}

impl<K: Keeper, J: Device> LogReader for Announcing<K, J> {
    ghost stored = { λ k. K.stored k.keeper };

    ghost is_honest = { λ k. K.is_honest k.keeper };

    ghost is_up = { λ k. k.is_up };

    ghost failed = { λ k. k.failures };

    ghost asks = { λ k. k.asked };

    ghost saves = { λ k. k.saved };

    ghost limit = { λ k. K.limit k.keeper };

    ghost may_hold = { λ k d. K.may_hold k.keeper d };

    ghost serves = { λ k members language. K.serves k.keeper members language };

    ghost Origin = { TheScribe J × Durable };

    ghost came_from = { λ k o. HasContinued J.contents o.0 (K.is_honest k.keeper → K.stored k.keeper ≡ o.1) k.voice };

    ghost only_honest = { λ k d h. K.only_honest k.keeper d h };

    ghost only_stored = { λ k d h. K.only_stored k.keeper d h };

    ghost holds_stored = { λ k honest. K.holds_stored k.keeper honest };

    ghost served_once = { λ k members language. K.served_once k.keeper members language };

    ghost only_logs = { λ k members language s h. K.only_logs k.keeper members language s h };

    fn entry(&mut self, alloc: Global, i: usize) -> Result<Option<Entry>, StoreError> {
        self.asked = self.asked.saturating_add(1);
        if !self.is_up {
            return Err(StoreError::NodeDown);
        }
        match self.keeper.entry(alloc, i) {
            Ok(entry) => Ok(entry),
            Err(error) => {
                self.is_up = false;
                Err(self.refuse(error))
            }
        }
    }

    fn failures(&self) -> u64 {
        self.failures
    }

    fn asked(&self) -> u64 {
        self.asked
    }

    fn saved(&self) -> u64 {
        self.saved
    }
}

impl<K: Keeper, J: Device> Keeper for Announcing<K, J> {
    type Image = K::Image;

    ghost holds = { λ i d. K.holds i d };

    ghost suits = { λ i members language. K.suits i members language };

    ghost is_bad = { λ i members language. K.is_bad i members language };

    ghost is_sound = { λ i. K.is_sound i };

    ghost limit_of = { λ i. K.limit_of i };

    ghost only_sound = { λ i d h. K.only_sound i d h };

    ghost holds_one = { λ i d e p q. K.holds_one i d e p q };

    ghost never_bad = { λ i members language d h forms bad. K.never_bad i members language d h forms bad };

    fn open(
        alloc: Global,
        image: K::Image,
        members: usize,
        schema: &Schema,
    ) -> Result<Announcing<K, J>, (StoreError, K::Image)> {
        match K::open(alloc, image, members, schema) {
            Ok(keeper) => Ok(Announcing {
                keeper,
                voice: None,
                failures: 0,
                asked: 0,
                saved: 0,
                is_up: true,
            }),
            Err((error, image)) => Err((error, image)),
        }
    }

    fn state(&mut self, alloc: Global) -> Result<State, StoreError> {
        if !self.is_up {
            return Err(StoreError::NodeDown);
        }
        match self.keeper.state(alloc) {
            Ok(state) => Ok(state),
            Err(error) => {
                self.is_up = false;
                Err(self.refuse(error))
            }
        }
    }

    fn save(&mut self, alloc: Global, change: &Change) -> Result<(), StoreError>
        requires kept { K.is_honest self.old.keeper → self.old.is_up ≡ true → change.now.kept ≤ length (K.stored self.old.keeper).log }
        requires small { IsSmall change.now }
        requires log { (members : ℕ) × ((language : Language) × (K.serves self.old.keeper members language × (K.is_honest self.old.keeper → self.old.is_up ≡ true → IsLog members language (after change.now (K.stored self.old.keeper))))) }
        ensures announced { OnOk result (K.is_honest self.old.keeper → ForSome self.old.voice (λ v. HasAnnounced J.contents v self.new.voice (summary_of (after change.now (K.stored self.old.keeper))))) }
        ensures before { (self.new.keeper ≡ self.old.keeper) ⊎ (K.is_honest self.old.keeper → ForSome self.old.voice (λ v. HasAnnounced J.contents v self.new.voice (summary_of (after change.now (K.stored self.old.keeper))))) }
        ensures ok { OnOk result (K.is_honest self.new.keeper → K.stored self.new.keeper ≡ after change.now (K.stored self.old.keeper)) }
        ensures answered { IsAnswered self.old.is_up self.new.is_up self.old.failures self.new.failures result }
        ensures honest { K.is_honest self.new.keeper → K.is_honest self.old.keeper }
        ensures left { self.old.is_up ≡ true → (d : Durable) → K.may_hold self.new.keeper d → IsBeforeOrAfter (K.stored self.old.keeper) (after change.now (K.stored self.old.keeper)) d }
        ensures torn { OnErr result (self.old.is_up ≡ true → K.is_honest self.new.keeper → IsBeforeOrAfter (K.stored self.old.keeper) (after change.now (K.stored self.old.keeper)) (K.stored self.new.keeper)) }
        ensures still { self.old.is_up ≡ false → K.is_honest self.new.keeper → K.stored self.new.keeper ≡ K.stored self.old.keeper }
        ensures late { self.old.is_up ≡ false → (d : Durable) → K.may_hold self.new.keeper d → K.may_hold self.old.keeper d }
        ensures serves { (members : ℕ) (language : Language) → K.serves self.old.keeper members language → (K.is_honest self.old.keeper → self.old.is_up ≡ true → IsLog members language (after change.now (K.stored self.old.keeper))) → K.serves self.new.keeper members language }
        ensures asks { self.new.asked ≡ self.old.asked }
        ensures saves { self.new.saved ≡ one_more self.old.saved }
        ensures limit { K.limit self.new.keeper ≡ K.limit self.old.keeper }
        ensures came { (o : TheScribe J × Durable) → HasContinued J.contents o.0 (K.is_honest self.old.keeper → K.stored self.old.keeper ≡ o.1) self.old.voice → HasContinued J.contents o.0 (K.is_honest self.new.keeper → K.stored self.new.keeper ≡ o.1) self.new.voice }
    {
        self.saved = self.saved.saturating_add(1);
        if !self.is_up {
            return Err(StoreError::NodeDown);
        }
        if let Err(error) = announce(&mut self.voice, change) {
            self.is_up = false;
            return Err(self.refuse(error));
        }
        match self.keeper.save(alloc, change) {
            Ok(()) => Ok(()),
            Err(error) => {
                self.is_up = false;
                Err(self.refuse(error))
            }
        }
    }

    fn close(self) -> K::Image {
        let Announcing { keeper, .. } = self;
        keeper.close()
    }
}

impl<K: Judging, J: Device> Announces for Announcing<K, J> {
    type Journal = J;

    ghost carries = { λ k s d. HasContinued J.contents s (K.is_honest k.keeper → K.stored k.keeper ≡ d) k.voice };

    ghost takes_all = { λ image members language. K.takes_all image members language };

    ghost carries_on = { λ k l s d on h. on (s, d) h };

    fn lend(&mut self, voice: Voice<J>)
        requires { K.is_honest self.old.keeper → voice.chain.links.items ≡ links_of (K.stored self.old.keeper).log }
        ensures carries { HasContinued J.contents voice.scribe (K.is_honest self.new.keeper → K.stored self.new.keeper ≡ K.stored self.old.keeper) self.new.voice }
        ensures stored { K.stored self.new.keeper ≡ K.stored self.old.keeper }
        ensures honest { (K.is_honest self.new.keeper → K.is_honest self.old.keeper) × (K.is_honest self.old.keeper → K.is_honest self.new.keeper) }
        ensures up { self.new.is_up ≡ self.old.is_up }
        ensures serves { (members : ℕ) (language : Language) → K.serves self.old.keeper members language → K.serves self.new.keeper members language }
    {
        self.voice = Some(voice);
    }

    fn take_back(&mut self) -> Option<Voice<J>>
        ensures continues { (s : TheScribe J) (d : Durable) → HasContinued J.contents s (K.is_honest self.old.keeper → K.stored self.old.keeper ≡ d) self.old.voice → HasContinued J.contents s (K.is_honest self.old.keeper → K.stored self.old.keeper ≡ d) result }
        ensures links { IfSome result (λ v. self.old.is_up ≡ true → K.is_honest self.old.keeper → v.chain.links.items ≡ links_of (K.stored self.old.keeper).log) }
        ensures given { (result ≡ self.old.voice) × (self.new.voice ≡ None) }
        ensures stored { K.stored self.new.keeper ≡ K.stored self.old.keeper }
        ensures honest { (K.is_honest self.new.keeper → K.is_honest self.old.keeper) × (K.is_honest self.old.keeper → K.is_honest self.new.keeper) }
        ensures up { self.new.is_up ≡ self.old.is_up }
        ensures serves { (members : ℕ) (language : Language) → K.serves self.old.keeper members language → K.serves self.new.keeper members language }
    {
        self.voice.take()
    }
}
