//! Questions.
ghost use Rattle.std.specs.Prelude.{◌≡◌, ◌-◌, ℕ, List, Option, IsErr, IfOk, IfErr, OnOk, OnErr, IfSome, MatchOption, slice_get, string_bytes};
ghost use Rattle.store.specs.Asking.{IsAnswerOf};
ghost use Rattle.answertext.specs.Answers.{answer_text};
ghost use Rattle.store.specs.Going.{GoesOn};
ghost use Rattle.store.specs.Handing.{Asks};
ghost use Rattle.store.specs.Journals.{IsSpent, EndsWith, IsSettled, IsUnclosed};
ghost use Rattle.store.specs.Refusals.{IsOfJournal};

use crate::announcing::Announces;
use crate::refusal::StoreRefusal;
use crate::store::Store;
use answer::Answer;
use answertext::Lines;
use fault::{Refusal, Text};
use journal::{Line, Taken};
use model::member::Member;
use model::message::Input;
use node::Node;
use schema::Schema;
use sqlread::query::read_query;
use std::alloc::{AllocError, Global};

// The answer from what a node has applied.
fn ask_node<K: Announces>(
    alloc: Global,
    schema: &Schema,
    node: &Node<K>,
    text: &str,
) -> Result<Answer, Refusal>
    ensures asked { IfOk result (λ a. IsAnswerOf K.is_honest node.now schema.now text.now a) }
{
    let query = read_query(alloc, schema, text)?;
    if !node.is_up {
        return Err(Refusal::NodeDown);
    }
    node.ask(&query)
}

// The line of an answer.
fn answer_line(
    alloc: Global,
    member: Member,
    query: &str,
    words: String,
) -> Result<Line, AllocError>
    ensures { IfOk result (λ line. line ≡ Line.Answer member query.now (string_bytes words)) }
{
    let query = Text::new(alloc, query)?;
    let answer = Text::from_string(words)?;
    Ok(Line::Answer {
        member,
        query,
        answer,
    })
}

impl<K: Announces> Store<K>
where
    K::Image: Drop,
{
    // The answer from what a member has applied.
    fn ask_once(&self, member: Member, text: &str) -> Result<Answer, Refusal>
        ensures asked { IfOk result (λ a. MatchOption (slice_get self.now.seats.items (member - 1)) ⊥ (λ seat. MatchOption seat.node ⊥ (λ n. IsAnswerOf K.is_honest n self.now.schema text.now a))) }
    {
        match self.seat(member) {
            Some(seat) => match &seat.node {
                Some(node) => ask_node(self.alloc, &self.schema, node, text),
                None => Err(Refusal::NodeDown),
            },
            None => Err(Refusal::NodeDown),
        }
    }

    // Has time closed up to the reading, by a floor.
    fn close_time(&mut self, reading: i64) -> Result<(), StoreRefusal>
        ensures why { IfErr result IsOfJournal }
        ensures fails { OnErr result (IsSpent self.new.scribe) }
        ensures goes { GoesOn K.Journal.contents K.is_honest K.may_hold K.holds self.old self.new }
    {
        let Some(leader) = self.lead(reading)? else {
            return Ok(());
        };
        let _ = self.hand(leader, reading, Taken::Floor, Input::Floor { reading })?;
        self.deliver_all(reading)
    }

    // The answer from what a member has applied, asked again once time is closed where it is not yet.
    #[tactic(auto, using(crate::proofs::Going::stays))]
    fn ask_closed(
        &mut self,
        reading: i64,
        member: Member,
        text: &str,
    ) -> Result<Result<Answer, Refusal>, StoreRefusal>
        ensures why { IfErr result IsOfJournal }
        ensures fails { OnErr result (IsSpent self.new.scribe) }
        ensures goes { GoesOn K.Journal.contents K.is_honest K.may_hold K.holds self.old self.new }
        ensures asked { IfOk result (λ r. IfOk r (λ a. MatchOption (slice_get self.new.seats.items (member - 1)) ⊥ (λ seat. MatchOption seat.node ⊥ (λ n. IsAnswerOf K.is_honest n self.new.schema text.now a)))) }
    {
        match self.ask_once(member, text) {
            Err(Refusal::NotClosed(_)) => {
                self.close_time(reading)?;
                Ok(self.ask_once(member, text))
            }
            answered => Ok(answered),
        }
    }

    // Writes what was answered to the journal, and has it outlast a power cut, so that it may be given out.
    #[tactic(auto, using(crate::proofs::Written::on_told))]
    fn tell(&mut self, member: Member, query: &str, words: String) -> Result<(), StoreRefusal>
        ensures told { OnOk result (EndsWith K.Journal.contents self.new.scribe (Line.Answer member query.now (string_bytes words))) }
        ensures settled { OnOk result (IsSettled K.Journal.is_settled self.new.scribe) }
        ensures why { IfErr result IsOfJournal }
        ensures fails { OnErr result (IsSpent self.new.scribe) }
        ensures goes { GoesOn K.Journal.contents K.is_honest K.may_hold K.holds self.old self.new }
        ensures same { self.new ≡ record self.old { scribe = self.new.scribe } }
    {
        let Ok(line) = answer_line(self.alloc, member, query, words) else {
            return Err(self.spend());
        };
        self.write(&line)?;
        self.settle()
    }

    /// Asks a member: the answer from what it has applied. A question whose last instant is not closed there is asked again once
    /// the leader has had time closed up to the reading. The answer is in the journal.
    ///
    /// 10 to 17 where the text is no question; 33 where its last instant is not closed, which is in the journal too; 41 where the
    /// member is not up. 38, 40 and 43 where the journal can't be written; of a store that was spent before nothing changes then.
    #[tactic(auto, using(crate::proofs::Going::stays))]
    pub fn ask(&mut self, reading: i64, member: Member, text: &str) -> Result<Answer, StoreRefusal>
        ensures asks { Asks K.Journal.contents K.Journal.is_settled K.is_honest
            (λ a. member) (λ a. a) text.now self.old self.new result }
        ensures goes { GoesOn K.Journal.contents K.is_honest K.may_hold K.holds self.old self.new }
        ensures unclosed { IfErr result (IsUnclosed K.Journal.contents self.new.scribe member text.now) }
    {
        self.check()?;
        let alloc = self.alloc;
        match self.ask_closed(reading, member, text)? {
            Ok(answer) => {
                let words = format!(in alloc; "{}", Lines(&answer))?;
                self.tell(member, text, words)?;
                Ok(answer)
            }
            Err(Refusal::NotClosed(closed)) => {
                let refusal = Refusal::NotClosed(closed);
                let words = format!(in alloc; "{refusal}")?;
                self.tell(member, text, words)?;
                Err(StoreRefusal::Refused(refusal))
            }
            Err(refusal) => Err(StoreRefusal::Refused(refusal)),
        }
    }

    /// Asks the leader, or where none is known the first member that is up: who was asked, and what `ask` gives.
    pub fn ask_any(&mut self, reading: i64, text: &str) -> Result<(Member, Answer), StoreRefusal>
        ensures asks { Asks K.Journal.contents K.Journal.is_settled K.is_honest
            (λ p. p.0) (λ p. p.1) text.now self.old self.new result }
        ensures goes { GoesOn K.Journal.contents K.is_honest K.may_hold K.holds self.old self.new }
        ensures unclosed { IfErr result (λ r. (asked : ℕ) × IsUnclosed K.Journal.contents self.new.scribe asked text.now r) }
    {
        let member = self.first_asked();
        let answer = self.ask(reading, member, text)?;
        Ok((member, answer))
    }

    /// Whom `ask_any` asks: the leader, or where none is known the first member that is up, or the first one.
    pub fn first_asked(&self) -> Member
        ensures { IfSome self.now.leader (λ member. result ≡ member) }
    {
        if let Some(leader) = self.leader {
            return leader;
        }
        for seat in &self.seats {
            if seat.is_up() {
                return seat.member;
            }
        }
        1
    }
}
