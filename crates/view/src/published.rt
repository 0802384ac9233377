//! What a life shares with its views: the list of its items, and the front of what is published, which the writer shows to readers.
ghost use Rattle.std.specs.Prelude.{◌≡◌};

use crate::rule::{Grows, Listed};
use boxcar::table::{Placed, Table};
use history::{Front, Item};
use left_right::Absorb;
use left_right::reader::Reader;
use left_right::writer::Writer;
use std::alloc::{AllocError, Global};

/// An item, with the token that the history begins with the list which it ends.
#[derive(Drop)]
pub struct Shown {
    pub item: Item,
    pub front: Front,
}

/// The items of a life, each of which keeps its place for good.
pub type Items = Table<Shown, Listed, Global>;

/// What shows that an item stands in the list.
pub type Place = Placed<Shown, Listed, Global>;

/// The list that is published, by the token for it. It is all that readers copy, so that a publisher waits for next to nothing.
#[derive(Drop)]
pub struct Published {
    pub front: Front,
}

/// The publisher's end.
pub type Desk = Writer<Published, Front, Option<Front>, Grows>;

/// A view's end.
pub type Glass = Reader<Published, Option<Front>, Grows>;

impl Absorb<Front> for Published {
    type State = Front;

    ghost state = { λ p. p.front };

    ghost applied = { λ _ front. front };

    ghost never_fails = { Unit {0} };

    fn absorb_first(&mut self, front: &Front, _other: &Published) -> Result<(), AllocError> {
        self.front = front.again();
        Ok(())
    }
}
