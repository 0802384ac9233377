//! What a member sends.
ghost use Rattle.std.specs.Prelude.{◌≡◌, ◌+◌, ◌*◌, ◌≤◌, IfOk, IfErr, OnOk, ◌∷◌, [], List, None, length, vec_len, true};
ghost use Rattle.model.specs.declared.entry.Entry as in_log;
ghost use Rattle.model.specs.Steps.{append_to, append_to_all, commits, go_on, tell_all};
ghost use Rattle.model.specs.Members.{last_term};
ghost use Rattle.model.specs.declared.message.Body.TheVariants.{RequestVote};
ghost use Rattle.raft.specs.View.{log_of, node_of, sends, after_of, agrees, settling, IsSameSeat, Reaches};
ghost use Rattle.raft.specs.Reading.{IsRead, IsCauseOr};

use crate::counted::number_at;
use crate::state::{Core, Sending};
use keep::error::StoreError;
use keep::keeper::LogReader;
use model::entry::Entries;
use model::member::{AskedFloor, Member, SealedFloor};
use model::message::{Body, CARRIED_MOST, Message};
use std::alloc::AllocError;

impl Core {
    /// One message, to one member.
    fn message(&self, to: Member, body: Body) -> Message
        ensures { result ≡ record { sender = self.now.me; addressee = to; term = self.now.term; body = body } }
    {
        Message {
            sender: self.me,
            addressee: to,
            term: self.term,
            body,
        }
    }

    /// These messages, one.
    fn one(&self, message: Message) -> Result<Vec<Message>, AllocError>
        ensures { IfOk result (λ ms. ms.items ≡ message ∷ []) }
    {
        let mut messages = Vec::new(self.alloc);
        messages.push(message)?;
        Ok(messages)
    }

    /// The entries that a member is to have next, as many as a message may carry.
    fn append_to<S: LogReader>(&self, reader: &mut S, to: Member) -> Result<Message, StoreError>
        requires up { S.is_up reader.old ≡ true }
        requires reaches { S.is_honest reader.old → Reaches self.now (S.stored reader.old).log }
        ensures ok { IfOk result (λ m. S.is_honest reader.new → m ≡ append_to (node_of self.now (S.stored reader.old).log) self.now.me to) }
        ensures reader { IsRead (S.is_honest reader.old) (S.is_honest reader.new) (S.stored reader.old) (S.stored reader.new) (S.may_hold reader.old) (S.may_hold reader.new) (S.serves reader.old) (S.serves reader.new) (S.failed reader.old) (S.failed reader.new) (S.saves reader.old) (S.saves reader.new) (S.came_from reader.old) (S.came_from reader.new) }
        ensures up { OnOk result (S.is_up reader.new ≡ true) }
        ensures cause { IfErr result (IsCauseOr (S.is_honest reader.new) (S.failed reader.old) (S.failed reader.new)) }
        ensures asks { S.asks reader.new ≤ S.asks reader.old + 65 }
    {
        let prev_index = number_at(&self.next, to).saturating_sub(1);
        let prev_term = self.term_at(reader, prev_index)?;
        let entries = self.window(reader, prev_index, CARRIED_MOST)?;
        let body = Body::Append {
            prev_index,
            prev_term,
            entries: Entries::new(entries),
            commit: self.commit,
        };
        Ok(self.message(to, body))
    }

    /// An `Append` to one member.
    fn append_one<S: LogReader>(
        &self,
        reader: &mut S,
        to: Member,
    ) -> Result<Vec<Message>, StoreError>
        requires up { S.is_up reader.old ≡ true }
        requires reaches { S.is_honest reader.old → Reaches self.now (S.stored reader.old).log }
        ensures ok { IfOk result (λ ms. S.is_honest reader.new → ms.items ≡ append_to (node_of self.now (S.stored reader.old).log) self.now.me to ∷ []) }
        ensures reader { IsRead (S.is_honest reader.old) (S.is_honest reader.new) (S.stored reader.old) (S.stored reader.new) (S.may_hold reader.old) (S.may_hold reader.new) (S.serves reader.old) (S.serves reader.new) (S.failed reader.old) (S.failed reader.new) (S.saves reader.old) (S.saves reader.new) (S.came_from reader.old) (S.came_from reader.new) }
        ensures up { OnOk result (S.is_up reader.new ≡ true) }
        ensures cause { IfErr result (IsCauseOr (S.is_honest reader.new) (S.failed reader.old) (S.failed reader.new)) }
        ensures asks { IfOk result (λ ms. S.asks reader.new ≤ S.asks reader.old + 65 * length ms.items) }
    {
        let message = self.append_to(reader, to)?;
        let messages = self.one(message)?;
        Ok(messages)
    }

    /// An `Append` to each other member, in order.
    fn append_to_all<S: LogReader>(&self, reader: &mut S) -> Result<Vec<Message>, StoreError>
        requires up { S.is_up reader.old ≡ true }
        requires reaches { S.is_honest reader.old → Reaches self.now (S.stored reader.old).log }
        ensures ok { IfOk result (λ ms. S.is_honest reader.new → ms.items ≡ append_to_all self.now.members (node_of self.now (S.stored reader.old).log) self.now.me) }
        ensures reader { IsRead (S.is_honest reader.old) (S.is_honest reader.new) (S.stored reader.old) (S.stored reader.new) (S.may_hold reader.old) (S.may_hold reader.new) (S.serves reader.old) (S.serves reader.new) (S.failed reader.old) (S.failed reader.new) (S.saves reader.old) (S.saves reader.new) (S.came_from reader.old) (S.came_from reader.new) }
        ensures up { OnOk result (S.is_up reader.new ≡ true) }
        ensures cause { IfErr result (IsCauseOr (S.is_honest reader.new) (S.failed reader.old) (S.failed reader.new)) }
        ensures asks { IfOk result (λ ms. S.asks reader.new ≤ S.asks reader.old + 65 * length ms.items) }
    {
        let mut messages = Vec::new(self.alloc);
        for index in 0..self.members {
            let to = index + 1;
            if to == self.me {
                continue;
            }
            let message = self.append_to(reader, to)?;
            messages.push(message)?;
        }
        Ok(messages)
    }

    #[tactic(auto, using(crate::proofs::Windows::last_term_of, crate::proofs::Windows::length_of))]
    fn vote_request(&self) -> Body
        ensures { (stored : List in_log.Entry) → Reaches self.now stored → result ≡ RequestVote (length (log_of self.now stored)) (last_term (log_of self.now stored)) }
    {
        Body::RequestVote {
            last_index: self.log.length(),
            last_term: self.log.last_term(),
        }
    }

    /// The same to each other member, in order.
    #[tactic(auto, using(crate::proofs::Lists::sent_more, crate::proofs::Lists::sent_same))]
    fn tell_all(&self, body: &Body) -> Result<Vec<Message>, AllocError>
        ensures { IfOk result
            (λ ms. (stored : List in_log.Entry) → ms.items ≡ tell_all self.now.members (node_of self.now stored) self.now.me body.now) }
    {
        let mut messages = Vec::new(self.alloc);
        for index in 0..self.members {
            let to = index + 1;
            if to != self.me {
                let body = body.clone()?;
                messages.push(self.message(to, body))?;
            }
        }
        Ok(messages)
    }

    /// The greatest index that can be committed now: up to there a majority match, and an entry of its
    /// own term stands there. Where the entry is of another term, so are all before it.
    pub(crate) fn commits<S: LogReader>(&self, reader: &mut S) -> Result<usize, StoreError>
        requires up { S.is_up reader.old ≡ true }
        requires reaches { S.is_honest reader.old → Reaches self.now (S.stored reader.old).log }
        requires rises { S.is_honest reader.old → go_on None self.now.term (log_of self.now (S.stored reader.old).log) ≡ true }
        ensures ok { IfOk result (λ index. S.is_honest reader.new → index ≡ (commits self.now.members self.now.me (node_of self.now (S.stored reader.old).log)).commit) }
        ensures low { IfOk result (λ index. self.now.commit ≤ index) }
        ensures within { IfOk result (λ index. index ≤ self.now.log.elsewhere + vec_len self.now.log.tail) }
        ensures reader { IsRead (S.is_honest reader.old) (S.is_honest reader.new) (S.stored reader.old) (S.stored reader.new) (S.may_hold reader.old) (S.may_hold reader.new) (S.serves reader.old) (S.serves reader.new) (S.failed reader.old) (S.failed reader.new) (S.saves reader.old) (S.saves reader.new) (S.came_from reader.old) (S.came_from reader.new) }
        ensures up { OnOk result (S.is_up reader.new ≡ true) }
        ensures cause { IfErr result (IsCauseOr (S.is_honest reader.new) (S.failed reader.old) (S.failed reader.new)) }
        ensures asks { S.asks reader.new ≤ S.asks reader.old + 1 }
    {
        let index = self.held();
        if index <= self.commit {
            return Ok(self.commit);
        }
        let term = self.term_at(reader, index)?;
        if term == self.term {
            Ok(index)
        } else {
            Ok(self.commit)
        }
    }

    /// Commits what can be committed now that the log of a member is known to agree further, so that a seal that waits may
    /// count, and sends what comes of it: to all where something is committed, else to that member what it has not yet.
    pub(crate) fn on_agreed<S: LogReader>(
        &mut self,
        reader: &mut S,
        sender: Member,
    ) -> Result<Vec<Message>, StoreError>
        requires up { S.is_up reader.old ≡ true }
        requires reaches { S.is_honest reader.old → Reaches self.old (S.stored reader.old).log }
        requires rises { S.is_honest reader.old → go_on None self.old.term (log_of self.old (S.stored reader.old).log) ≡ true }
        ensures ok { IfOk result (λ ms. S.is_honest reader.new → after_of self.new (S.stored reader.old).log ms.items ≡ agrees self.old.members self.old.me sender (node_of self.old (S.stored reader.old).log)) }
        ensures seat { IsSameSeat self.old self.new }
        ensures log { self.new.log ≡ self.old.log }
        ensures hard { (self.new.term ≡ self.old.term) × (self.new.vote ≡ self.old.vote) }
        ensures low { self.old.commit ≤ self.new.commit }
        ensures reader { IsRead (S.is_honest reader.old) (S.is_honest reader.new) (S.stored reader.old) (S.stored reader.new) (S.may_hold reader.old) (S.may_hold reader.new) (S.serves reader.old) (S.serves reader.new) (S.failed reader.old) (S.failed reader.new) (S.saves reader.old) (S.saves reader.new) (S.came_from reader.old) (S.came_from reader.new) }
        ensures up { OnOk result (S.is_up reader.new ≡ true) }
        ensures cause { IfErr result (IsCauseOr (S.is_honest reader.new) (S.failed reader.old) (S.failed reader.new)) }
        ensures asks { IfOk result (λ ms. S.asks reader.new ≤ S.asks reader.old + (65 * length ms.items + 2)) }
    {
        let before = self.commit;
        self.commit = self.commits(reader)?;
        self.settle(reader)?;
        if before < self.commit {
            return self.append_to_all(reader);
        }
        if number_at(&self.next, sender) <= self.log.length() {
            return self.append_one(reader, sender);
        }
        Ok(Vec::new(self.alloc))
    }

    /// The messages that are to be sent, with the entries that they take.
    pub(crate) fn send<S: LogReader>(
        &mut self,
        reader: &mut S,
        sending: Sending,
    ) -> Result<Vec<Message>, StoreError>
        requires up { S.is_up reader.old ≡ true }
        requires reaches { S.is_honest reader.old → Reaches self.old (S.stored reader.old).log }
        requires rises { S.is_honest reader.old → go_on None self.old.term (log_of self.old (S.stored reader.old).log) ≡ true }
        ensures ok { IfOk result (λ ms. S.is_honest reader.new → after_of self.new (S.stored reader.old).log ms.items ≡ sends self.old.members self.old.me sending (node_of self.old (S.stored reader.old).log)) }
        ensures seat { IsSameSeat self.old self.new }
        ensures log { self.new.log ≡ self.old.log }
        ensures hard { (self.new.term ≡ self.old.term) × (self.new.vote ≡ self.old.vote) }
        ensures low { self.old.commit ≤ self.new.commit }
        ensures reader { IsRead (S.is_honest reader.old) (S.is_honest reader.new) (S.stored reader.old) (S.stored reader.new) (S.may_hold reader.old) (S.may_hold reader.new) (S.serves reader.old) (S.serves reader.new) (S.failed reader.old) (S.failed reader.new) (S.saves reader.old) (S.saves reader.new) (S.came_from reader.old) (S.came_from reader.new) }
        ensures up { OnOk result (S.is_up reader.new ≡ true) }
        ensures cause { IfErr result (IsCauseOr (S.is_honest reader.new) (S.failed reader.old) (S.failed reader.new)) }
        ensures asks { IfOk result (λ ms. S.asks reader.new ≤ S.asks reader.old + (65 * length ms.items + settling sending)) }
    {
        match sending {
            Sending::Nothing => Ok(Vec::new(self.alloc)),
            Sending::Back { to, body } => {
                let messages = self.one(self.message(to, body))?;
                Ok(messages)
            }
            Sending::VoteRequests => {
                let body = self.vote_request();
                let messages = self.tell_all(&body)?;
                Ok(messages)
            }
            Sending::Append(to) => self.append_one(reader, to),
            Sending::Appends => self.append_to_all(reader),
            Sending::Agreed(sender) => self.on_agreed(reader, sender),
            Sending::Accepted { to, matched } => {
                self.settle(reader)?;
                let messages = self.one(self.message(to, Body::Reply { ok: true, matched }))?;
                Ok(messages)
            }
            Sending::Seeks(asked) => {
                let AskedFloor { index, floor } = asked;
                let body = Body::Seek { index, floor };
                let messages = self.tell_all(&body)?;
                Ok(messages)
            }
            Sending::Seals(seal) => {
                let SealedFloor { index, floor, .. } = seal;
                let body = Body::Seal { index, floor };
                let messages = self.tell_all(&body)?;
                self.learn(reader, seal)?;
                Ok(messages)
            }
            Sending::Learned(seal) => {
                self.learn(reader, seal)?;
                Ok(Vec::new(self.alloc))
            }
        }
    }
}
