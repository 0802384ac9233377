//! Doors that hold a node's thread: a gate before a feed, and a keeper within its saves.
ghost use Rattle.std.specs.Prelude.{◌≡◌, ℕ};
ghost use Rattle.model.specs.Transactions.{Language};
ghost use Rattle.keep.specs.Durable.{stored_in};
ghost use Rattle.keep.specs.Log.{IsLog};

use keep::{Change, Keeper, LogReader, MemImage, State, StoreError};
use model::entry::Entry;
use model::member::Member;
use nodes::gate::{Gate, Point};
use schema::Schema;
use std::alloc::Global;
use std::sync::Arc;
use std::sync::atomic::{AtomicBool, Ordering};
use std::thread::yield_now;

/// Holds who comes to it until it is open, for a million turns at most.
#[derive(Drop)]
pub(crate) struct Door {
    is_open: AtomicBool,
    is_reached: AtomicBool,
    gave_up: AtomicBool,
}

// Whether it becomes true within a million turns.
fn becomes(flag: &AtomicBool) -> bool {
    for _ in 0..1_000_000 {
        if flag.load(Ordering::SeqCst) {
            return true;
        }
        yield_now();
    }
    false
}

impl Door {
    pub(crate) fn new(is_open: bool) -> Door {
        Door {
            is_open: AtomicBool::new(is_open),
            is_reached: AtomicBool::new(false),
            gave_up: AtomicBool::new(false),
        }
    }

    pub(crate) fn open(&self) {
        self.is_open.store(true, Ordering::SeqCst);
    }

    /// Waits for a million turns at most until somebody came to it.
    pub(crate) fn is_reached(&self) -> bool {
        becomes(&self.is_reached)
    }

    /// Whether it let somebody go without being opened.
    pub(crate) fn gave_up(&self) -> bool {
        self.gave_up.load(Ordering::SeqCst)
    }

    fn hold(&self) {
        self.is_reached.store(true, Ordering::SeqCst);
        if !becomes(&self.is_open) {
            self.gave_up.store(true, Ordering::SeqCst);
        }
    }
}

// It holds node 2 before each feed.
impl Gate for Door {
    fn pass(&self, node: Member, point: Point) {
        if node == 2 && point == Point::Before {
            self.hold();
        }
    }
}

/// An image, and the door within the saves of the keeper that opens it.
#[derive(Drop)]
pub(crate) struct HeldImage<I> {
    pub image: I,
    pub door: Option<Arc<Door>>,
}

impl HeldImage<MemImage> {
    /// Nothing stored yet.
    pub(crate) fn new(alloc: Global, door: Option<Arc<Door>>) -> HeldImage<MemImage>
        ensures { (members : ℕ) (language : Language) → IsLog members language (stored_in result.image) }
    {
        HeldImage {
            image: MemImage::new(alloc),
            door,
        }
    }
}

/// A keeper that comes to a door within each save.
#[derive(Drop)]
pub(crate) struct HeldKeeper<K> {
    keeper: K,
    door: Option<Arc<Door>>,
}

impl<K: Keeper> LogReader for HeldKeeper<K> {
    ghost stored = { λ k. K.stored k.keeper };

    ghost is_honest = { λ k. K.is_honest k.keeper };

    ghost is_up = { λ k. K.is_up k.keeper };

    ghost failed = { λ k. K.failed k.keeper };

    ghost asks = { λ k. K.asks k.keeper };

    ghost saves = { λ k. K.saves k.keeper };

    ghost limit = { λ k. K.limit k.keeper };

    ghost may_hold = { λ k d. K.may_hold k.keeper d };

    ghost serves = { λ k members language. K.serves k.keeper members language };

    ghost Origin = { K.Origin };

    ghost came_from = { λ k origin. K.came_from k.keeper origin };

    ghost only_honest = { λ k d h. K.only_honest k.keeper d h };

    ghost only_stored = { λ k d h. K.only_stored k.keeper d h };

    ghost holds_stored = { λ k honest. K.holds_stored k.keeper honest };

    ghost served_once = { λ k members language. K.served_once k.keeper members language };

    ghost only_logs = { λ k members language s h. K.only_logs k.keeper members language s h };

    fn entry(&mut self, alloc: Global, i: usize) -> Result<Option<Entry>, StoreError> {
        self.keeper.entry(alloc, i)
    }

    fn failures(&self) -> u64 {
        self.keeper.failures()
    }

    fn asked(&self) -> u64 {
        self.keeper.asked()
    }

    fn saved(&self) -> u64 {
        self.keeper.saved()
    }
}

impl<K: Keeper> Keeper for HeldKeeper<K> {
    type Image = HeldImage<K::Image>;

    ghost holds = { λ i d. K.holds i.image d };

    ghost suits = { λ i members language. K.suits i.image members language };

    ghost is_bad = { λ i members language. K.is_bad i.image members language };

    ghost is_sound = { λ i. K.is_sound i.image };

    ghost limit_of = { λ i. K.limit_of i.image };

    ghost only_sound = { λ i d h. K.only_sound i.image d h };

    ghost holds_one = { λ i d e p q. K.holds_one i.image d e p q };

    ghost never_bad = { λ i members language d h forms bad. K.never_bad i.image members language d h forms bad };

    fn open(
        alloc: Global,
        image: HeldImage<K::Image>,
        members: usize,
        schema: &Schema,
    ) -> Result<HeldKeeper<K>, (StoreError, HeldImage<K::Image>)> {
        let HeldImage { image, door } = image;
        match K::open(alloc, image, members, schema) {
            Ok(keeper) => Ok(HeldKeeper { keeper, door }),
            Err((error, image)) => Err((error, HeldImage { image, door })),
        }
    }

    fn state(&mut self, alloc: Global) -> Result<State, StoreError> {
        self.keeper.state(alloc)
    }

    fn save(&mut self, alloc: Global, change: &Change) -> Result<(), StoreError> {
        if let Some(door) = &self.door {
            door.hold();
        }
        self.keeper.save(alloc, change)
    }

    fn close(self) -> HeldImage<K::Image> {
        let HeldKeeper { keeper, door } = self;
        HeldImage {
            image: keeper.close(),
            door,
        }
    }
}
