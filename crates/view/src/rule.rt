//! The rules of what a life shares with its views: of the list of its items, and of what is published, with what its two
//! kinds of atomic step tell: to publish, at the publisher's seat, and to enter, at a view's own.
ghost use Rattle.std.specs.Prelude.{None};
ghost use Rattle.view.specs.Rules.{numbers_of, IsListed, Keeps, Shows};

use crate::published::{Published, Shown};
use atomic_table::{Join, Split};
use boxcar::tag::Names;
use crossbeam_utils::rule::{Outcome, Protocol};
use history::Front;

/// How a list is named after the history of its items.
pub struct Named;

impl Names<Front> for Named {
    ghost numbers = { λ front. numbers_of front.seen.book };
}

/// Each item stands at its number in the history, with the token for the list that ends with it.
pub struct Listed;

impl boxcar::Keeps<Shown> for Listed {
    ghost holds = { IsListed };
}

/// What a seat knows is the list that it published or saw last, if any. The published list begins with each of these.
pub struct Grows;

impl Protocol<Published, Option<Front>> for Grows {
    ghost holds = { Keeps };

    ghost first = { None };
}

/// A step by which a seat comes to know the list that is published after it.
pub struct Sees;

impl Outcome<Published, Option<Front>> for Sees {
    ghost then = { Shows };
}

/// What the publisher knows is told to a new view.
pub struct Notes;

impl Split<Option<Front>> for Notes {
    ghost left = { λ v. v };

    ghost right = { λ v. v };
}

impl Join<Option<Front>> for Notes {
    ghost both = { λ _ w. w };

    ghost spent = { None };
}
