//! The end at which a history grows.
ghost use Rattle.std.specs.Prelude.{◌≡◌, ◌+◌, ◌<◌, ◌^◌, ◌++◌, ◌∷◌, [], length, MatchBool, Some};
ghost use Rattle.history.specs.Items.{Follows, closed_in, greater_mark};
ghost use Rattle.history.specs.Rules.{head_of};

use crate::front::Front;
use crate::item::Item;
use crate::rule::{Adds, Grows, Nothing};
use logbook::{Offer, Seen, Start, Word};
use model::mark::Mark;

/// The end at which a history grows, with the token for all of it.
#[derive(Drop)]
pub struct History {
    head: Word<Item, u64, Grows>,
    pub front: Front,
    pub ghost head_is: { head ≡ head_of front.seen.book },
}

/// The greater of a mark, if there is one, and an item's.
fn greater_mark(mark: Option<Mark>, item: &Item) -> Mark
    ensures { Some result ≡ greater_mark mark item.now }
{
    match mark {
        Some(mark) if mark.number() > item.mark().number() => mark,
        _ => item.mark(),
    }
}

impl History {
    /// A history of no items. Takes no memory.
    pub fn new() -> History
        ensures { result.front.seen.log ≡ [] }
    {
        let (seen, mut first, _second) = Seen::open(Start::alone(), 0, 0);
        History {
            head: Word::tracked(0, &mut first),
            front: Front {
                count: 0,
                mark: None,
                seen,
            },
        }
    }

    /// Adds an item that may come where the closed time of the history's items is closed. False, and nothing is changed, only where another end of the same history added to it. Takes no memory.
    pub fn extend(&mut self, item: &Item) -> bool
        requires room { length self.old.front.seen.log + 1 < 2 ^ 64 }
        requires follows { Follows (closed_in self.old.front.seen.log) item.now }
        ensures book { self.new.front.seen.book ≡ self.old.front.seen.book }
        ensures log { MatchBool result (self.new.front.seen.log ≡ self.old.front.seen.log ++ item.now ∷ []) (self.new.front.seen.log ≡ self.old.front.seen.log) }
    {
        let mut seen = self.front.seen.again();
        let mut offer: Offer<Item, u64, Grows, Nothing> = seen.plain::<Nothing, Item, Adds>(item);
        let mut pen = seen.no_pen();
        let count = self.front.count;
        let found = self
            .head
            .compare_exchange::<Adds, Nothing>(count, count + 1, &mut seen, &mut offer, &mut pen);
        if found != count {
            return false;
        }
        self.front = Front {
            count: count + 1,
            mark: Some(greater_mark(self.front.mark, item)),
            seen,
        };
        true
    }
}
