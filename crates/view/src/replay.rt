//! Tables that are brought up to what is published.
ghost use Rattle.std.specs.Prelude.{◌≡◌, ◌≤◌, [], true, false, OnOk, IfOk, IfSome};
ghost use Rattle.std.specs.Coded.{→_prop};
ghost use Rattle.sqlread.specs.Meaning.{language_of};
ghost use Rattle.sqlread.specs.Shapes.{query_of};
ghost use Rattle.answer.specs.Answers.{columns_in};
ghost use Rattle.apply.specs.Once.{tables_prop};
ghost use Rattle.apply.specs.View.{AreTables, IsAskedOf, is_failed};
ghost use Rattle.history.specs.Items.{entries_in, sealed_in, closed_in};
ghost use Rattle.view.specs.Lists.{IsNext};
ghost use Rattle.view.specs.Replies.{said, HasColumns};
ghost use Rattle.view.specs.Rules.{named_book};

use crate::published::{Items, Shown};
use answer::Answer;
use apply::Tables;
use closedtime::greater;
use fault::{Refusal, Text};
use history::{Front, Item};
use model::stamp::Stamp;
use schema::Schema;
use sqlread::query::Query;
use std::alloc::{AllocError, Global};

/// What comes of a question, unless there is no memory.
pub(crate) enum Reply {
    Answered(Answer),
    /// It is not closed at the list's closed time, which this is, if there is one.
    NotClosed(Option<Text>),
}

/// The tables that the entries of a list leave, and what is sealed in it. After a want of memory the tables have failed, and
/// are made anew, of no items, before the next ones are taken in.
#[derive(Drop)]
pub(crate) struct Replay {
    alloc: Global,
    schema: Schema,
    tables: Tables,
    /// Of the list that they have taken in.
    pub(crate) front: Front,
    /// Of the list of no items.
    origin: Front,
    /// The greatest sealed time, if there is one.
    sealed: Option<Stamp>,
    ghost current: { is_failed tables ≡ false → AreTables schema (entries_in front.seen.log) tables } by { →_prop (tables_prop _ _ _) },
    ghost closing: { sealed ≡ sealed_in front.seen.log },
    ghost empty: { (origin.seen.log ≡ []) × (origin.seen.book ≡ front.seen.book) },
}

impl Replay {
    /// Tables that have taken in nothing yet, of which this token tells. The error is want of memory.
    pub(crate) fn new(alloc: Global, schema: Schema, origin: Front) -> Result<Replay, AllocError>
        requires { origin.seen.log ≡ [] }
        ensures { IfOk result (λ r. (r.schema ≡ schema) × (r.front ≡ origin)) }
    {
        let tables = Tables::new(alloc, &schema)?;
        let front = origin.again();
        Ok(Replay {
            alloc,
            schema,
            tables,
            front,
            origin,
            sealed: None,
        })
    }

    /// Makes the tables anew where they have failed, so that all is new to them. The error is want of memory.
    pub(crate) fn renew(&mut self) -> Result<(), AllocError>
        ensures same { (self.new.schema ≡ self.old.schema) × (self.new.front.seen.book ≡ self.old.front.seen.book) }
        ensures up { OnOk result (is_failed self.new.tables ≡ false) }
    {
        if self.tables.has_failed() {
            self.tables = Tables::new(self.alloc, &self.schema)?;
            self.front = self.origin.again();
            self.sealed = None;
        }
        Ok(())
    }

    // The next item, if it stands in the list.
    fn next<'a>(&self, list: &'a Items) -> Option<&'a Shown>
        requires { named_book list.now.tag ≡ self.now.front.seen.book }
        ensures { IfSome result (λ shown. IsNext self.now.front shown.now) }
    {
        let shown = list.get(self.front.count as usize)?;
        if self.front.begins(&shown.front) {
            Some(shown)
        } else {
            None
        }
    }

    // Takes in the next item. The error is want of memory.
    fn apply(&mut self, shown: &Shown) -> Result<(), AllocError>
        requires up { is_failed self.old.tables ≡ false }
        requires next { IsNext self.old.front shown.now }
        ensures same { (self.new.schema ≡ self.old.schema) × (self.new.front.seen.book ≡ self.old.front.seen.book) }
        ensures up { OnOk result (is_failed self.new.tables ≡ false) }
    {
        match &shown.item {
            Item::Applied { entry, .. } => {
                self.tables.apply(entry)?;
                self.front = shown.front.again();
                Ok(())
            }
            Item::Sealed { time, .. } => {
                self.sealed = greater(self.sealed, Some(*time));
                self.front = shown.front.again();
                Ok(())
            }
        }
    }

    /// Takes in what is new up to so many items, and says whether all of them stand in the list. The error is want of memory.
    pub(crate) fn take_in(&mut self, list: &Items, count: u64) -> Result<bool, AllocError>
        requires up { is_failed self.old.tables ≡ false }
        requires list { named_book list.now.tag ≡ self.old.front.seen.book }
        ensures same { (self.new.schema ≡ self.old.schema) × (self.new.front.seen.book ≡ self.old.front.seen.book) }
        ensures up { OnOk result (is_failed self.new.tables ≡ false) }
        ensures all { IfOk result (λ all. all ≡ true → count ≤ self.new.front.count) }
    {
        for _ in self.front.count..count {
            let Some(shown) = self.next(list) else {
                break;
            };
            self.apply(shown)?;
        }
        Ok(count <= self.front.count)
    }

    // The closed time of what was taken in.
    pub(crate) fn closed(&self) -> Option<Stamp>
        requires { is_failed self.now.tables ≡ false }
        ensures { result ≡ closed_in self.now.front.seen.log }
    {
        greater(self.tables.closed(), self.sealed)
    }

    /// Answers a question from what was taken in, at its closed time. The error is want of memory.
    #[tactic(auto, using(history::proofs::Rising::stamped))]
    pub(crate) fn ask(&self, query: &Query) -> Result<Reply, AllocError>
        requires { is_failed self.now.tables ≡ false }
        ensures asked { IfOk result (λ reply. IsAskedOf (language_of self.now.schema) (query_of query.now) (entries_in self.now.front.seen.log) (closed_in self.now.front.seen.log) (said reply)) }
        ensures columns { IfOk result (λ reply. HasColumns (columns_in self.now.schema query.now.table) reply) }
    {
        match self.tables.ask(query, self.closed()) {
            Ok(answer) => Ok(Reply::Answered(answer)),
            Err(Refusal::NotClosed(closed)) => Ok(Reply::NotClosed(closed)),
            Err(_) => Err(AllocError),
        }
    }
}
