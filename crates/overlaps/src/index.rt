//! An index of what has periods, by key.
ghost use Rattle.std.specs.Prelude.{List, map};
ghost use Rattle.model.specs.declared.value.Value.{Value};
ghost use Rattle.overlaps.specs.Index.{AreApart};
ghost use Rattle.overlaps.specs.Items.{items_of};

use crate::counted::{Count, Counted};
use crate::has_period::HasPeriod;
use crate::key::Key;
use crate::order::{first_sharing, insert_in_order, remove_from};
use period::Period;
use std::alloc::{AllocError, Global};
use std::collections::BTreeMap;

/// Items stored by key, those of a key in the order of the starts of their periods. No two of a key share a day. A
/// contract sees what `items_of` gives of its map: the items of each key.
#[derive(Debug, Drop)]
pub struct KeyIndex<T: HasPeriod> {
    /// The items of each key; a key without items may be there.
    pub strands: BTreeMap<Key, Counted<T>>,
    /// Where it takes its memory.
    pub alloc: Global,
    pub ghost apart: { (key : List Value) → AreApart (map T.period (items_of strands key)) },
}

impl<T: HasPeriod> KeyIndex<T> {
    ghost use Rattle.std.specs.Prelude.{◌≡◌, ◌<◌, ◌≤◌, ◌+◌, ◌^◌, ℕ, [], length, map, find, option_copied};
    ghost use Rattle.model.specs.Periods.{period_of};
    ghost use Rattle.overlaps.specs.Index.{shares_day, AreSharing};
    ghost use Rattle.overlaps.specs.Items.{items_in, items_of};

    /// An index without items. Takes no memory.
    pub fn new(alloc: Global) -> KeyIndex<T>
        ensures items { items_of result.strands ≡ (λ key. []) }
        ensures entries { result.strands.entries ≡ [] }
    {
        KeyIndex {
            strands: BTreeMap::new(alloc),
            alloc,
        }
    }

    /// The items of a key; none where it has none, or a list without items. Takes no memory.
    pub fn strand(&self, key: &Key) -> Option<&Counted<T>>
        ensures { items_in (option_copied result) ≡ items_of self.now.strands key.now }
    {
        self.strands.get(key)
    }

    /// The first item of the key, in the order of the starts, whose period has a day of `p`. It is searched for by
    /// halves: of fewer items than two to the power of `digits`, which are as many as can be written in so many binary
    /// digits, it reads `digits` and one more at most. Takes no memory.
    pub fn find(&self, key: &Key, p: Period, count: &mut Count) -> Option<&T>
        ensures item { option_copied result ≡ find (λ x. shares_day (period_of p) (T.period x)) (items_of self.now.strands key.now) }
        ensures few { (digits : ℕ) → length (items_of self.now.strands key.now) < 2 ^ digits → count.new ≤ count.old + digits + 1 }
        ensures grows { count.old ≤ count.new }
    {
        let strand = self.strands.get(key)?;
        first_sharing(strand, p, count)
    }

    /// All items of the key whose periods have a day of `p`, after the place at which the first of them stands, counted
    /// from 0. Both ends are searched for by halves: besides the items that it gives it reads twice `digits` and one more
    /// at most, where the key has fewer items than two to the power of `digits`. Takes no memory.
    pub fn sharing(&self, key: &Key, p: Period, count: &mut Count) -> (usize, &[T])
        ensures found { AreSharing T.period (period_of p) (items_of self.now.strands key.now) result.0 result.1.now }
        ensures few { (digits : ℕ) → length (items_of self.now.strands key.now) < 2 ^ digits → count.new ≤ count.old + digits + digits + 1 + length result.1.now }
        ensures each { length result.1.now ≤ count.new }
        ensures grows { count.old ≤ count.new }
    {
        match self.strands.get(key) {
            Some(strand) => strand.sharing(p, count),
            None => (0, &[]),
        }
    }
}

impl<T: HasPeriod + Drop> KeyIndex<T> {
    ghost use Rattle.std.specs.Prelude.{◌≡◌, ◌<◌, ◌≤◌, ◌+◌, ◌^◌, ℕ, [], find, length, map, None, OnOk, OnErr};
    ghost use Rattle.std.specs.List.{splice};
    ghost use Rattle.model.specs.Periods.{period_of};
    ghost use Rattle.overlaps.specs.Index.{AreApart, shares_day, same_period, with_item, without_period, changed_at};
    ghost use Rattle.overlaps.specs.Items.{items_of};

    /// Stores an item of a key, which has no stored day of the item's period: `find` is the test. Its place is searched
    /// for by halves: where the key has fewer items than two to the power of `digits`, it reads `digits` of them at most.
    /// Want of memory changes no item.
    pub fn insert(&mut self, key: Key, item: T, count: &mut Count) -> Result<(), AllocError>
        requires { find (λ x. shares_day (T.period item) (T.period x)) (items_of self.old.strands key) ≡ None }
        ensures ok { OnOk result (items_of self.new.strands ≡ changed_at key (with_item T.period item) (items_of self.old.strands)) }
        ensures err { OnErr result (self.new.strands.entries ≡ self.old.strands.entries) }
        ensures few { (digits : ℕ) → length (items_of self.old.strands key) < 2 ^ digits → count.new ≤ count.old + digits }
        ensures grows { count.old ≤ count.new }
    {
        match self.strands.get_mut(&key) {
            Some(strand) => insert_in_order(strand, item, count),
            None => self.insert_first(key, item),
        }
    }

    // Stores the first item of a key.
    fn insert_first(&mut self, key: Key, item: T) -> Result<(), AllocError>
        requires { items_of self.old.strands key ≡ [] }
        ensures ok { OnOk result (items_of self.new.strands ≡ changed_at key (with_item T.period item) (items_of self.old.strands)) }
        ensures err { OnErr result (self.new.strands.entries ≡ self.old.strands.entries) }
    {
        let mut strand = Counted::new(self.alloc);
        strand.push(item)?;
        self.strands.insert(key, strand)?;
        Ok(())
    }

    // Keeps no memory for a key without items.
    fn forget_if_empty(&mut self, key: &Key)
        ensures { items_of self.new.strands ≡ items_of self.old.strands }
    {
        let Some(strand) = self.strands.get(key) else {
            return;
        };
        if strand.is_empty() {
            self.strands.remove(key);
        }
    }

    /// Takes the item of a key with this period out, and gives it. Where there is none, no item changes. It is searched
    /// for by halves: where the key has fewer items than two to the power of `digits`, it reads `digits` and one more at
    /// most. Takes no memory.
    pub fn remove(&mut self, key: &Key, period: Period, count: &mut Count) -> Option<T>
        ensures found { result ≡ find (λ x. same_period (T.period x) (period_of period)) (items_of self.old.strands key.now) }
        ensures rest { items_of self.new.strands ≡ changed_at key.now (without_period T.period (period_of period)) (items_of self.old.strands) }
        ensures few { (digits : ℕ) → length (items_of self.old.strands key.now) < 2 ^ digits → count.new ≤ count.old + digits + 1 }
        ensures grows { count.old ≤ count.new }
    {
        let strand = self.strands.get_mut(key)?;
        let found = remove_from(strand, period, count);
        self.forget_if_empty(key);
        found
    }

    /// Puts items in place of so many of the key's, at least one, from the place on; `sharing` tells where they stand. The
    /// key's periods have to stay in order, with no day in two of them. Want of memory changes nothing.
    pub fn replace(
        &mut self,
        key: &Key,
        place: usize,
        many: usize,
        items: Vec<T>,
    ) -> Result<(), AllocError>
        requires some { 0 < many }
        requires within { place + many ≤ length (items_of self.old.strands key.now) }
        requires apart { AreApart (map T.period (splice (items_of self.old.strands key.now) place (place + many) items.items)) }
        ensures ok { OnOk result (items_of self.new.strands ≡ changed_at key.now (λ old. splice old place (place + many) items.items) (items_of self.old.strands)) }
        ensures err { OnErr result (self.new.strands.entries ≡ self.old.strands.entries) }
    {
        let Some(strand) = self.strands.get_mut(key) else {
            return Ok(());
        };
        strand.replace(place, many, items)?;
        self.forget_if_empty(key);
        Ok(())
    }
}
