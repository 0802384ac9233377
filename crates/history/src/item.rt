//! Items, of which a history is a list.
ghost use Rattle.std.specs.Prelude.{◌≡◌, MatchBool};
ghost use Rattle.history.specs.Items.{mark_of, Follows, closed_after};

use closedtime::greater;
use model::entry::Entry;
use model::mark::Mark;
use model::stamp::Stamp;
use std::alloc::AllocError;

/// What a node publishes, with the mark of the step that it comes of.
#[derive(Debug, Drop)]
pub enum Item {
    /// An entry that became applied.
    Applied { mark: Mark, entry: Entry },
    /// A time that became sealed: the node applies no later entry that is stamped at or below it.
    Sealed { mark: Mark, time: Stamp },
}

impl Item {
    /// The mark of the step that it comes of.
    pub fn mark(&self) -> Mark
        ensures { result ≡ mark_of self.now }
    {
        match self {
            Item::Applied { mark, .. } | Item::Sealed { mark, .. } => *mark,
        }
    }

    /// Whether it may come where this time is closed: an entry may where it is stamped above that, and any time may become
    /// sealed. Takes no memory.
    pub fn follows(&self, closed: Option<Stamp>) -> bool
        ensures { MatchBool result (Follows closed self.now) (Follows closed self.now → ⊥) }
    {
        match (self, closed) {
            (Item::Applied { entry, .. }, None) => {
                let _ = entry.stamp.micros();
                true
            }
            (Item::Applied { entry, .. }, Some(time)) => time.micros() < entry.stamp.micros(),
            (Item::Sealed { .. }, _) => true,
        }
    }

    /// What is closed after it, where this time was closed before it. Takes no memory.
    pub fn closed_after(&self, closed: Option<Stamp>) -> Option<Stamp>
        ensures { result ≡ closed_after closed self.now }
    {
        match self {
            Item::Applied { entry, .. } => greater(closed, Some(entry.stamp)),
            Item::Sealed { time, .. } => greater(closed, Some(*time)),
        }
    }
}

/// The copy is the same item. Fails only for want of memory.
impl Clone for Item {
    ghost is_clone = { λ i copy. copy ≡ i };

    fn clone(&self) -> Result<Item, AllocError> {
        match self {
            Item::Applied { mark, entry } => Ok(Item::Applied {
                mark: *mark,
                entry: entry.clone()?,
            }),
            Item::Sealed { mark, time } => Ok(Item::Sealed {
                mark: *mark,
                time: *time,
            }),
        }
    }
}
