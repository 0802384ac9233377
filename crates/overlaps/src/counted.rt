//! Lists that are read item by item, and how many items were read.
ghost use Rattle.std.specs.Prelude.{◌≡◌, ◌<◌, ◌≤◌, ◌==◌, ◌+◌, ◌-◌, ◌++◌, ◌∷◌, [], length, insert, remove, slice_index_or, slice_range, OnOk, OnErr};
ghost use Rattle.std.specs.List.{splice};
ghost use Rattle.overlaps.specs.Reads.{one_more, more};

use std::alloc::{AllocError, Global};
use std::marker::Model;

/// How many items were read, up to the greatest `u64`, at which it stays. A contract sees the number.
///
/// Who is handed a count can only raise it, by reading. One of its own would not be seen by who handed it one: `new` is
/// for who wants to know a number, and for nobody on the way there.
#[derive(Debug, Drop)]
pub struct Count {
    reads: u64,
}

impl Model for Count {
    ghost use Rattle.std.specs.Prelude.{ℕ};

    ghost Value = { ℕ };

    ghost view = { λ c. c.reads };
}

impl Count {
    /// No reads.
    pub fn new() -> Count
        ensures { result ≡ 0 }
    {
        Count { reads: 0 }
    }

    /// How many reads it has.
    pub fn reads(&self) -> u64
        ensures { result ≡ self.now }
    {
        self.reads
    }

    // So many reads more.
    fn raise_by(&mut self, reads: usize)
        ensures more { self.new ≡ more reads self.old }
        ensures grows { self.old ≤ self.new }
    {
        self.reads = self.reads.saturating_add(reads as u64);
    }
}

/// A list whose items are read by `at`, `all`, `range` and `at_mut` alone, which count. A contract sees the list.
#[derive(Debug, Drop)]
pub struct Counted<T> {
    items: Vec<T>,
}

impl<T> Model for Counted<T> {
    ghost use Rattle.std.specs.Prelude.{List};

    ghost Value = { List T };

    ghost view = { λ counted. counted.items.items };
}

impl<T> Counted<T> {
    ghost use Rattle.std.specs.Prelude.{slice_set};
    ghost use Rattle.std.specs.Borrow.{Lends, sem};
    ghost use Rattle.overlaps.specs.contracts.counted.Counted.{the_row};

    /// A list without items. Takes no memory.
    pub fn new(alloc: Global) -> Counted<T>
        ensures { result ≡ [] }
    {
        Counted {
            items: Vec::new(alloc),
        }
    }

    /// How many items there are. This is no read.
    pub fn len(&self) -> usize
        ensures { result ≡ length self.now }
    {
        self.items.len()
    }

    /// Whether there are none. This is no read.
    pub fn is_empty(&self) -> bool
        ensures { result ≡ (length self.now == 0) }
    {
        self.items.is_empty()
    }

    /// The item at a place, counted from 0. It raises the count by one; at its greatest value that stays. Takes no
    /// memory.
    pub fn at(&self, place: usize, count: &mut Count) -> &T
        requires { place < length self.now }
        ensures item { result.now ≡ slice_index_or self.now place result.now }
        ensures counted { count.new ≡ one_more count.old }
        ensures grows { count.old ≤ count.new }
    {
        count.raise_by(1);
        &self.items[place]
    }

    /// All items. It raises the count by how many there are, as reading each of them does. Takes no memory.
    pub fn all(&self, count: &mut Count) -> &[T]
        ensures items { result.now ≡ self.now }
        ensures counted { count.new ≡ more (length self.now) count.old }
    {
        count.raise_by(self.items.len());
        self.items.as_slice()
    }

    /// The items from the place `start`, counted from 0, up to the place `end`. It raises the count by how many they are.
    /// Takes no memory.
    pub fn range(&self, start: usize, end: usize, count: &mut Count) -> &[T]
        requires in_order { start ≤ end }
        requires within { end ≤ length self.now }
        ensures items { result.now ≡ slice_range self.now start end }
        ensures counted { count.new ≡ more (end - start) count.old }
        ensures grows { count.old ≤ count.new }
    {
        count.raise_by(end - start);
        &self.items[start..end]
    }

    /// The item at a place, counted from 0, to be changed. It raises the count by one; at its greatest value that stays.
    /// Takes no memory.
    pub fn at_mut(&mut self, place: usize, count: &mut Count) -> &mut T
        requires { place < length self.old }
        ensures* writes_back { sem 𝓛 (Lends (the_row T.row) T.row self.entry result (slice_set self.old place)) }
        ensures item { result.now ≡ slice_index_or self.old place result.now }
        ensures counted { count.new ≡ one_more count.old }
        ensures grows { count.old ≤ count.new }
    {
        count.raise_by(1);
        &mut self.items[place]
    }

    /// Takes the item at the place out, and gives it to the caller. This is no read. Takes no memory.
    pub fn remove(&mut self, place: usize) -> T
        requires { place < length self.old }
        ensures item { result ≡ slice_index_or self.old place result }
        ensures rest { self.new ≡ remove self.old place }
    {
        self.items.remove(place)
    }
}

impl<T: Drop> Counted<T> {
    /// Adds an item at its end. Want of memory changes nothing. The first one takes memory for itself alone, as most lists
    /// have one item.
    pub fn push(&mut self, item: T) -> Result<(), AllocError>
        ensures ok { OnOk result (self.new ≡ self.old ++ item ∷ []) }
        ensures err { OnErr result (self.new ≡ self.old) }
    {
        if self.items.is_empty() {
            self.items.reserve_exact(1)?;
        }
        self.items.push(item)?;
        Ok(())
    }

    /// Adds an item before the one at the place, or at the end. Want of memory changes nothing.
    pub fn insert(&mut self, place: usize, item: T) -> Result<(), AllocError>
        requires { place ≤ length self.old }
        ensures ok { OnOk result (self.new ≡ insert self.old place item) }
        ensures err { OnErr result (self.new ≡ self.old) }
    {
        self.items.insert(place, item)?;
        Ok(())
    }

    /// Puts items in place of so many from the place on. This is no read. Want of memory changes nothing.
    pub fn replace(&mut self, place: usize, many: usize, items: Vec<T>) -> Result<(), AllocError>
        requires { place + many ≤ length self.old }
        ensures ok { OnOk result (self.new ≡ splice self.old place (place + many) items.items) }
        ensures err { OnErr result (self.new ≡ self.old) }
    {
        self.items.splice(place..place + many, items)?;
        Ok(())
    }
}

impl<T> From<Vec<T>> for Counted<T> {
    ghost from_gives = { λ items counted. counted ≡ items.items };

    fn from(items: Vec<T>) -> Counted<T> {
        Counted { items }
    }
}
