//! How much room the log of a store has left.
ghost use Rattle.std.specs.Prelude.{◌≡◌, ◌+◌, ◌≤◌, ◌<◌, IfErr, OnOk, MatchBool};
ghost use Rattle.store.specs.Refusals.{log_full};
ghost use Rattle.store.specs.Fullness.{entries_of, longest};

use crate::announcing::Announces;
use crate::refusal::StoreRefusal;
use crate::seat::Seat;
use crate::store::Store;
use fault::Refusal;
use model::message::LOG_ROOM;

/// From how many entries on a log is nearly full: nine tenths of its room.
pub const NEARLY_FULL: usize = 90_000;

/// How many entries of a log are for requests. The rest is for openings, each of which adds one: without room for it nothing that is there
/// could be asked again.
pub const FOR_REQUESTS: usize = 99_000;

/// How many entries a store's log has, of how many.
#[derive(Clone, Copy, PartialEq, Eq, Debug)]
pub struct Room {
    /// How many the longest log has of those that are up.
    pub entries: usize,
    /// How many a log may have.
    pub most: usize,
}

impl Room {
    /// Whether nine tenths are full.
    pub fn is_nearly_full(&self) -> bool
        ensures { MatchBool result (90000 ≤ self.now.entries) (self.now.entries < 90000) }
    {
        self.entries >= NEARLY_FULL
    }

    /// Whether so many requests more are taken.
    pub fn takes(&self, requests: usize) -> bool
        ensures { MatchBool result (self.now.entries + requests ≤ 99000) (99000 < self.now.entries + requests) }
    {
        self.entries <= FOR_REQUESTS && requests <= FOR_REQUESTS - self.entries
    }
}

// How many entries a member's log has, none where it is not up.
fn entries_of<K: Announces>(seat: &Seat<K>) -> usize
where
    K::Image: Drop,
    ensures { result ≡ entries_of seat.now.node seat.now.chain.links.items }
{
    if seat.is_up() { seat.chain.len() } else { 0 }
}

// How many entries the longest log has of those that are up.
fn most_entries<K: Announces>(seats: &[Seat<K>]) -> usize
where
    K::Image: Drop,
    ensures { result ≡ longest seats.now (λ seat. entries_of seat.node seat.chain.links.items) }
{
    let mut entries = 0usize;
    for seat in seats {
        entries = entries.max(entries_of(seat));
    }
    entries
}

impl<K: Announces> Store<K>
where
    K::Image: Drop,
{
    /// How many entries its log has, of how many.
    pub fn room(&self) -> Room
        ensures entries { result.entries ≡ longest self.now.seats.items (λ seat. entries_of seat.node seat.chain.links.items) }
        ensures most { result.most ≡ 100000 }
    {
        Room {
            entries: most_entries(self.seats.as_slice()),
            most: LOG_ROOM,
        }
    }

    // 36 where its log has no room for a request.
    pub(crate) fn check_room(&self) -> Result<(), StoreRefusal>
        ensures room { OnOk result (longest self.now.seats.items (λ seat. entries_of seat.node seat.chain.links.items) < 99000) }
        ensures full { IfErr result (λ r. (r ≡ log_full) × (99000 ≤ longest self.now.seats.items (λ seat. entries_of seat.node seat.chain.links.items))) }
    {
        if self.room().takes(1) {
            Ok(())
        } else {
            Err(StoreRefusal::Refused(Refusal::LogFull))
        }
    }
}
