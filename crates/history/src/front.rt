//! Tokens that say with which list a history begins.
ghost use Rattle.std.specs.Prelude.{◌≡◌, ◌<◌, length, MatchBool};
ghost use mathlib.Core.List.{IsPrefix};
ghost use Rattle.history.specs.Items.{Rises, greatest_mark, last_mark};
ghost use Rattle.history.specs.Once.{rises_prop};

use crate::item::Item;
use crate::rule::Grows;
use logbook::Seen;
use model::mark::Mark;

/// A history began with a list of items, and does so for good. In it no entry is stamped at or below what is closed by the
/// items before it. The token has the list's length and its greatest mark, and none of the items; contracts see the list as
/// `seen.log`.
#[derive(Drop)]
pub struct Front {
    /// How many items the list has.
    pub count: u64,
    pub(crate) mark: Option<Mark>,
    pub seen: Seen<Item, u64, Grows>,
    pub ghost counted: { count ≡ length seen.log },
    pub ghost marked: { mark ≡ greatest_mark seen.log },
    pub ghost rising: { Rises seen.log } by { rises_prop _ _ },
}

impl Front {
    /// The same token once more. Takes no memory.
    pub fn again(&self) -> Front
        ensures { result ≡ self.now }
    {
        Front {
            count: self.count,
            mark: self.mark,
            seen: self.seen.again(),
        }
    }

    /// Whether the other list, of the same history, is at least as long: it then begins with this one, and is else a
    /// beginning of it.
    pub fn begins(&self, other: &Front) -> bool
        requires { self.now.seen.book ≡ other.now.seen.book }
        ensures { MatchBool result (IsPrefix self.now.seen.log other.now.seen.log) ((length other.now.seen.log < length self.now.seen.log) × IsPrefix other.now.seen.log self.now.seen.log) }
    {
        let mut both = self.seen.again();
        both.learn(&other.seen);
        if self.count <= other.count {
            true
        } else {
            false
        }
    }

    /// The greatest mark in the list, or this one where the list is empty.
    pub fn mark_or(&self, opening: Mark) -> Mark
        ensures { result ≡ last_mark opening self.now.seen.log }
    {
        self.mark.unwrap_or(opening)
    }
}
