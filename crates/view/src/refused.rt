//! Wrong bodies that no contract here lets through: functions that do nothing but call what they speak of.
ghost use Rattle.std.specs.Prelude.{◌≡◌, ◌≤◌, ◌++◌, ◌∷◌, [], ℕ, List, Option, Some, false, OnOk, IfErr, MatchOption};
ghost use Rattle.fault.specs.declared.refusal.Refusal.TheVariants.{NotClosed};
ghost use Rattle.model.specs.Answers as model;
ghost use Rattle.model.specs.Answers.{closed_query};
ghost use Rattle.sqlread.specs.Meaning.{select_of};
ghost use Rattle.sqlread.specs.Shapes.{query_of};
ghost use Rattle.apply.specs.View.{is_failed};
ghost use Rattle.history.specs.Items.{Follows, Rises, closed_in, sealed_in};
ghost use Rattle.view.specs.Publishing.{published, pending};
ghost use Rattle.view.specs.Viewing.{seen_by, list_told, IsOwn, RestsOn};

use crate::publisher::Publisher;
use crate::replay::Replay;
use crate::told::Notice;
use crate::view::{Marked, View};
use fault::Refusal;
use history::Item;
use model::stamp::Stamp;
use sqlread::query::Query;
use std::alloc::AllocError;

/// A function that appends an item before others that are pending does not meet the contract of `Publisher::append`.
fn appends_before_others(publisher: &mut Publisher, item: Item) -> Result<(), AllocError>
    requires { Follows (closed_in (published publisher.old ++ pending publisher.old)) item }
    ensures { OnOk result (pending publisher.new ≡ pending publisher.old ++ item ∷ []) }
{
    publisher.append(item)
}

/// No function of a publisher lets the stamps of what was appended fall: it would not keep `rising`.
fn stamps_fall(publisher: &Publisher)
    ensures { Rises (published publisher.now ++ pending publisher.now) }
{}

/// A function that tells of less than all that is published does not meet the contract of `Publisher::told`.
fn tells_of_less(publisher: &Publisher) -> Notice
    ensures { list_told result ≡ published publisher.now }
{
    publisher.told()
}

/// A function that refuses a question as not closed, which is closed at what was seen, does not meet the contract of `View::ask`.
fn refuses_the_closed(view: &mut View, query: &Query) -> Result<Marked, Refusal>
    ensures { IfErr result (λ e. (closed : Option (List ℕ)) (asked : model.Query) → e ≡ NotClosed closed → closed_query (select_of (query_of query.now)) (closed_in (seen_by view.new)) ≡ Some asked → ⊥) }
{
    view.ask(query)
}

/// A function that does not see what it learns does not meet the contract of `View::learn`.
fn learns_nothing(view: &mut View, told: &Notice) -> Result<(), Refusal>
    requires { IsOwn told.now view.old }
    ensures { OnOk result (RestsOn told.now view.new) }
{
    view.learn(told)
}

/// A function that leaves a time open that is sealed does not meet the contract of `Replay::closed`.
fn sealed_stays_open(replay: &Replay) -> Option<Stamp>
    ghost sealed: { ℕ }
    requires up { is_failed replay.now.tables ≡ false }
    requires sealed { sealed_in replay.now.front.seen.log ≡ Some sealed }
    ensures { MatchOption result ⊥ (λ closed. sealed ≤ closed) }
{
    replay.closed()
}
