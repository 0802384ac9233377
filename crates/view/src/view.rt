//! A view of a life, from its caller's own thread.
ghost use Rattle.std.specs.Prelude.{◌≡◌, ◌≢◌, ◌⊎◌, Some, false, OnOk, IfOk, IfErr, MatchResult};
ghost use Rattle.std.specs.Arc.{arc_value};
ghost use mathlib.Core.List.{IsPrefix};
ghost use Rattle.left_right.specs.Sides.{view};
ghost use Rattle.fault.specs.declared.refusal.Refusal.TheVariants.{NoMemory, NoView};
ghost use Rattle.sqlread.specs.Meaning.{language_of};
ghost use Rattle.sqlread.specs.Shapes.{query_of};
ghost use Rattle.answer.specs.Answers.{columns_in};
ghost use Rattle.apply.specs.View.{is_failed};
ghost use Rattle.history.specs.Items.{Rises, last_mark};
ghost use Rattle.view.specs.Rules.{named_book};

use crate::published::{Glass, Items};
use crate::replay::{Replay, Reply};
use crate::rule::Sees;
use crate::told::{Name, Notice};
use answer::Answer;
use core::mem::replace_with;
use fault::Refusal;
use history::Front;
use model::mark::Mark;
use sqlread::query::Query;
use std::sync::Arc;

/// An answer, and the mark by which it is known how much was seen.
#[derive(Debug, Drop)]
pub struct Marked {
    /// The greatest mark seen, that of the life's opening where nothing was.
    pub mark: Mark,
    pub answer: Answer,
}

/// A view of one life of a node. It has seen a list of items, which only grows, and answers questions from that list. It
/// keeps tables of its own, which a question brings up by what is new.
#[derive(Drop)]
pub struct View {
    name: Name,
    list: Arc<Items>,
    reader: Glass,
    replay: Replay,
    /// Of the list that was read last.
    last: Front,
    /// Of the list that is seen.
    front: Front,
    ghost named: { named_book (arc_value list).tag ≡ front.seen.book },
    ghost known: { (view reader.place ≡ Some last) × (last.seen.book ≡ front.seen.book) },
    ghost one_life: { replay.front.seen.book ≡ front.seen.book },
}

impl View {
    ghost use Rattle.view.specs.Viewing.{seen_by, name_seen, schema_seen, book_seen, IsSameView, name_told, list_told, IsOwn, RestsOn, answer_in, Answers};
    ghost use Rattle.view.specs.declared.told.Notice.{Notice};

    /// A view that has seen the list that the token tells of.
    pub(crate) fn of(
        name: Name,
        list: Arc<Items>,
        reader: Glass,
        replay: Replay,
        front: Front,
    ) -> View
        requires named { named_book (arc_value list).tag ≡ front.seen.book }
        requires known { view reader.place ≡ Some front }
        requires one_life { replay.front.seen.book ≡ front.seen.book }
        ensures { (result.name ≡ name) × (result.replay ≡ replay) × (result.front ≡ front) }
    {
        View {
            name,
            list,
            reader,
            replay,
            last: front.again(),
            front,
        }
    }

    /// Later answers rest on at least what was told. 45 exactly where the notice is of another life, and nothing is changed
    /// then. That a token of this life's name is of this life's publisher is for the caller to see to. It waits for nobody
    /// and takes no memory.
    pub fn learn(&mut self, told: &Notice) -> Result<(), Refusal>
        requires own { IsOwn told.now self.old }
        ensures same { IsSameView self.old self.new }
        ensures learnt { MatchResult result (λ _. (name_told told.now ≡ name_seen self.old) × RestsOn told.now self.new) (λ e. (e ≡ NoView) × (name_told told.now ≢ name_seen self.old)) }
        ensures grows { IsPrefix (seen_by self.old) (seen_by self.new) }
        ensures invents_nothing { (seen_by self.new ≡ seen_by self.old) ⊎ (seen_by self.new ≡ list_told told.now) }
    {
        if self.name != told.name {
            return Err(Refusal::NoView);
        }
        if self.front.begins(&told.front) {
            self.front = told.front.again();
        }
        Ok(())
    }

    /// The greatest mark seen, that of the life's opening where nothing was. Takes no memory.
    pub fn mark(&self) -> Mark
        ensures { result ≡ last_mark (name_seen self.now).opening (seen_by self.now) }
    {
        self.front.mark_or(self.name.opening)
    }

    // `look`, by value.
    fn looking(self) -> (View, bool)
        ensures same { IsSameView self result.0 × (result.0.front ≡ self.front) × (result.0.replay ≡ self.replay) }
        ensures no_shorter { IsPrefix self.last.seen.log result.0.last.seen.log }
    {
        let View {
            name,
            list,
            reader,
            replay,
            last,
            front,
        } = self;
        match reader.enter_as::<Sees>() {
            Ok(reading) => {
                let last = reading.get().front.again();
                let view = View {
                    name,
                    list,
                    reader: reading.leave(),
                    replay,
                    last,
                    front,
                };
                (view, true)
            }
            Err(reader) => {
                let view = View {
                    name,
                    list,
                    reader,
                    replay,
                    last,
                    front,
                };
                (view, false)
            }
        }
    }

    // Reads how much is published now, and whether the life goes on. It copies no more than a token, so that a publisher waits
    // for next to nothing.
    fn look(&mut self) -> bool
        ensures same { IsSameView self.old self.new × (self.new.front ≡ self.old.front) × (self.new.replay ≡ self.old.replay) }
        ensures no_shorter { IsPrefix self.old.last.seen.log self.new.last.seen.log }
    {
        replace_with(self, (), |view, ()| view.looking())
    }

    // Brings the tables up to what is published now, and no less far than to what is seen. What is seen stays.
    fn bring_up(&mut self) -> Result<(), Refusal>
        ensures same { IsSameView self.old self.new }
        ensures front { self.new.front ≡ self.old.front }
        ensures up { OnOk result (is_failed self.new.replay.tables ≡ false) }
        ensures whole { OnOk result (IsPrefix self.new.front.seen.log self.new.replay.front.seen.log) }
        ensures refused { IfErr result (λ e. (e ≡ NoView) ⊎ (e ≡ NoMemory)) }
    {
        self.replay.renew()?;
        if !self.look() {
            return Err(Refusal::NoView);
        }
        let count = self.last.count.max(self.front.count);
        // Each item that is published stands in the list, but no clause of the kit's list says so.
        if !self.replay.take_in(&*self.list, count)? {
            return Err(Refusal::NoView);
        }
        let is_whole = self.front.begins(&self.replay.front);
        prove!(is_whole);
        Ok(())
    }

    /// Answers a question from what is published now, which is at least what was seen before and all that was told, and has
    /// then seen that; one without system time is AS OF the closed time of what is then seen: the greater of the last entry's stamp and the
    /// greatest sealed time.
    ///
    /// 33 with that closed time where the question is not closed at it; 43 for want of memory, and 45 once the life has
    /// ended: these change nothing. It waits for nobody.
    #[tactic(auto, using(crate::proofs::Seeing::same_grows, crate::proofs::Seeing::rests_still, crate::proofs::Seeing::rests_more, crate::proofs::Seeing::refused))]
    pub fn ask(&mut self, query: &Query) -> Result<Marked, Refusal>
        ensures same { IsSameView self.old self.new }
        ensures grows { IsPrefix (seen_by self.old) (seen_by self.new) }
        ensures told { (told : Notice) → RestsOn told self.old → RestsOn told self.new }
        ensures rises { Rises (seen_by self.new) }
        ensures answers { Answers (language_of (schema_seen self.old)) (query_of query.now) (seen_by self.old) (seen_by self.new) (answer_in result) }
        ensures mark { IfOk result (λ a. a.mark ≡ last_mark (name_seen self.old).opening (seen_by self.new)) }
        ensures columns { IfOk result (λ a. a.answer.columns.items ≡ columns_in (schema_seen self.old) query.now.table) }
    {
        self.bring_up()?;
        let reply = self.replay.ask(query)?;
        self.front = self.replay.front.again();
        match reply {
            Reply::Answered(answer) => {
                let mark = self.mark();
                Ok(Marked { mark, answer })
            }
            Reply::NotClosed(closed) => Err(Refusal::NotClosed(closed)),
        }
    }
}
