//! The rule that a history keeps, and the one kind of step that adds to it.
use crate::item::Item;
use logbook::{Gain, Plain, Play, Rule};

/// The history is the log of a book, whose first word is its length.
pub struct Grows;

impl Rule<Item, u64> for Grows {
    ghost use Rattle.std.specs.Prelude.{[]};
    ghost use base.Fml.{ftrue};
    ghost use Rattle.history.specs.Rules.{IsKept};

    ghost holds = { λ cells log. IsKept cells log };

    ghost first = { [] };

    ghost hinted = { λ n log. Unit {0} };

    ghost shows = { λ log. [] };

    ghost keeps = { λ names log. ftrue };

    ghost moves = { λ ask before after answer. Unit {0} };
}

/// A client of the book keeps nothing beside it.
pub struct Nothing;

impl Gain<Item, u64> for Nothing {
    ghost use base.Fml.{ftrue};

    ghost after = { λ names about answer. ftrue };
}

/// The step that adds one item.
pub struct Adds;

impl Play<Item, u64> for Adds {
    ghost use Rattle.history.specs.Rules.{Added};

    ghost then = { Added };
}

impl Plain<Item, Item, u64> for Adds {
    ghost use Rattle.std.specs.Prelude.{None};

    ghost ask = { λ item. item };

    ghost state = { λ item. None };
}
