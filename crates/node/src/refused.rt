//! Wrong bodies that no contract here lets through: functions that do nothing but call what they speak of.
ghost use Rattle.std.specs.Prelude.{◌≡◌, ◌≤◌, Some, None, true, take, IfErr, OnOk, MatchOption};
ghost use Rattle.fault.specs.declared.refusal.Refusal.TheVariants.{NoMemory};
ghost use Rattle.keep.specs.Log.{IsSmall};
ghost use Rattle.keep.specs.declared.change.Change as changes;
ghost use Rattle.model.specs.Answers as model;
ghost use Rattle.model.specs.Answers.{closed_query};
ghost use Rattle.model.specs.Members.{closed_time};
ghost use Rattle.sqlread.specs.Meaning.{language_of, select_of};
ghost use Rattle.sqlread.specs.Shapes.{query_of};
ghost use Rattle.apply.specs.View.{AreTables};
ghost use Rattle.raft.specs.View.{after_change};
ghost use Rattle.node.specs.Member.{member_of};
ghost use Rattle.node.specs.Recall.{AreNoted};
ghost use Rattle.node.specs.Saving.{IsDue};

use crate::node::{Node, Out, finish, store};
use crate::recall::Notes;
use answer::Answer;
use apply::Tables;
use fault::Refusal;
use keep::change::Change;
use keep::error::StoreError;
use keep::keeper::Keeper;
use model::stamp::Stamp;
use raft::state::{Core, Taken};
use sqlread::query::Query;
use std::alloc::Global;

/// A function that leaves out the save of a change does not meet the contract of `store`.
fn skips_a_save<K: Keeper>(
    alloc: Global,
    core: &Core,
    keeper: &mut K,
    change: &Option<Change>,
) -> Result<(), StoreError>
    ghost saved: { changes.Change }
    requires due { K.is_honest keeper.old → IsDue core.now change.now (K.stored keeper.old) }
    requires small { MatchOption change.now (Unit {0}) IsSmall }
    requires serves { K.serves keeper.old core.now.members (language_of core.now.schema) }
    requires up { K.is_up keeper.old ≡ true }
    requires changed { change.now ≡ Some saved }
    ensures { OnOk result (K.is_honest keeper.new → (K.stored keeper.new).hard ≡ saved.hard) }
{
    store(alloc, core, keeper, change)
}

/// A function that saves where nothing changed does not meet the contract of `store`.
fn saves_for_nothing<K: Keeper>(
    alloc: Global,
    core: &Core,
    keeper: &mut K,
    change: &Option<Change>,
) -> Result<(), StoreError>
    requires due { K.is_honest keeper.old → IsDue core.now change.now (K.stored keeper.old) }
    requires small { MatchOption change.now (Unit {0}) IsSmall }
    requires serves { K.serves keeper.old core.now.members (language_of core.now.schema) }
    requires up { K.is_up keeper.old ≡ true }
    requires unchanged { change.now ≡ None }
    ensures { K.saves keeper.new ≡ K.saves keeper.old }
{
    store(alloc, core, keeper, change)
}

/// A function that gives messages although the change is not stored does not meet the contract of `finish`.
fn sends_before_it_saves<K: Keeper>(
    alloc: Global,
    core: &Core,
    keeper: &mut K,
    tables: &mut Tables,
    notes: &mut Notes,
    taken: Taken,
    sealed_before: Option<Stamp>,
) -> Result<Out, StoreError>
    ghost saved: { changes.Change }
    requires due { K.is_honest keeper.old → IsDue core.now taken.change (K.stored keeper.old) }
    requires current { K.is_honest keeper.old → AreTables core.now.schema (take taken.committed_before (after_change taken.change (K.stored keeper.old)).log) tables.old }
    requires noted { AreNoted core.now.schema tables.old notes.old }
    requires rises { K.is_honest keeper.old → taken.committed_before ≤ core.now.commit }
    requires small { MatchOption taken.change (Unit {0}) IsSmall }
    requires serves { K.serves keeper.old core.now.members (language_of core.now.schema) }
    requires up { K.is_up keeper.old ≡ true }
    requires changed { taken.change ≡ Some saved }
    ensures { OnOk result (K.is_honest keeper.new → (K.stored keeper.new).hard ≡ saved.hard) }
{
    finish(alloc, core, keeper, tables, notes, taken, sealed_before)
}

/// A function that refuses a question that a seal alone has closed, but for want of memory, does not meet the contract of `Node::ask`.
fn refuses_the_sealed<K: Keeper>(node: &Node<K>, query: &Query) -> Result<Answer, Refusal>
    ghost asked: { model.Query }
    requires up { node.now.is_up ≡ true }
    requires honest { K.is_honest node.now.keeper }
    requires closed { closed_query (select_of (query_of query.now)) (closed_time (member_of node.now)) ≡ Some asked }
    ensures { IfErr result (λ refusal. refusal ≡ NoMemory) }
{
    node.ask(query)
}
