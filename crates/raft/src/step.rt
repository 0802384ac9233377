//! One step of a member.
ghost use Rattle.std.specs.Prelude.{◌≡◌, ◌+◌, ◌-◌, ◌*◌, ◌<◌, ◌≤◌, List, length, drop, take, vec_len, [], IfOk, IfErr, OnOk, OnErr, IsOk, IsErr, MatchOption, nat_le, ◌&&◌, None, true, false, is_ok};
ghost use Rattle.std.specs.List.{list_all};
ghost use Rattle.keep.specs.Log.{IsLog, IsSmall, is_entry};
ghost use Rattle.keep.specs.Durable.{Durable};
ghost use Rattle.sqlread.specs.Meaning.{language_of};
ghost use Rattle.model.specs.declared.entry.Entry as in_log;
ghost use Rattle.model.specs.Steps.{is_honest, entries_of, floor_fits, spells, on_message, on_body, go_on, TERM_LAST};
ghost use Rattle.model.specs.Worlds.{hand};
ghost use Rattle.raft.specs.Memory.{spares_memory};
ghost use Rattle.raft.specs.declared.state.Work.TheVariants.{Local};
ghost use Rattle.raft.specs.declared.state.Effect.TheVariants as effects;
ghost use Rattle.raft.specs.Reading.{IsRead, IsCauseOr};
ghost use Rattle.raft.specs.Saved.{IsSaved, Tells};
ghost use Rattle.raft.specs.View.{asks_after, brought, looked_at, looks, effect_of, hard_in, hard_of, log_of, node_of, outcome_of, works, EffectFits, EffectForms, Grows, IsInStep, IsRanged, IsSameSeat, IsWindow, LooksAt, Reaches, SameUnlessDone, Sees, is_ranged};

use crate::floors::floor_fits;
use crate::forms::reads;
use crate::logs::{go_on, has_ranges};
use crate::state::{Core, Effect, Sending, Work};
use fault::Text;
use model::entry::{Entry, Request};
use model::member::{Member, SealedFloor};
use model::message::{Body, CARRIED_MOST, Input, LAST_TERM, Message};
use sqlread::transaction::misreading;
use std::alloc::AllocError;

/// The stamps are instants, and the requests' clients and numbers are in their ranges, as their types keep.
fn have_ranges(entries: &[Entry])
    ensures { list_all is_ranged entries.now ≡ true }
{
    for entry in entries {
        has_ranges(entry);
    }
}

/// So are those of what is brought.
pub(crate) fn has_ranges_in(work: &Work)
    ensures { IsRanged work.now }
{
    match work {
        Work::Local(Input::Submit { request, .. }) => {
            let _ = request.client.get();
            let _ = request.number.get();
        }
        Work::Local(_) => {}
        Work::Delivered { message, .. } => {
            if let Body::Append { entries, .. } = &message.body {
                have_ranges(entries.as_slice());
            }
        }
    }
}

/// So many entries, that go on after one another, may be in a message of this term.
#[tactic(auto, using(crate::proofs::Lists::go_on_is, crate::proofs::LogFacts::terms_fit))]
fn may_carry(term: u64, entries: &[Entry]) -> bool
    requires { term ≤ LAST_TERM }
    ensures value { result ≡ (nat_le (length entries.now) 64 && go_on None term entries.now) }
    ensures few { result ≡ true → length entries.now ≤ 64 }
    ensures terms { result ≡ true → list_all (λ e. nat_le e.term TERM_LAST) entries.now ≡ true }
{
    entries.len() <= CARRIED_MOST && go_on(0, 0, term, entries)
}

impl Core {
    /// The window has a request with this text at a place. Then the text reads: it was read when the request came into the
    /// log.
    fn has_read(&self, window: &[Entry], place: usize, text: &Text) -> bool
        ensures { list_all (is_entry (language_of self.now.schema)) window.now ≡ true → result ≡ true → is_ok ((language_of self.now.schema).reads text.now) ≡ true }
    {
        let Some(entry) = window.get(place) else {
            return false;
        };
        match &entry.request {
            None => false,
            Some(request) => request.text == *text,
        }
    }

    /// The request's text spells a transaction, where its entry is to stand at this place of the window.
    fn spells(
        &self,
        window: &[Entry],
        place: usize,
        request: &Option<Request>,
    ) -> Result<bool, AllocError>
        ensures { list_all (is_entry (language_of self.now.schema)) window.now ≡ true → IfOk result (λ yes. yes ≡ spells (language_of self.now.schema) request.now) }
    {
        if let Some(request) = request {
            if self.has_read(window, place, &request.text) {
                return Ok(true);
            }
        }
        reads(self.alloc, &self.schema, request)
    }

    /// Each entry's text spells a transaction, where the first is to stand at this place of the window.
    fn all_spell(
        &self,
        window: &[Entry],
        first: usize,
        entries: &[Entry],
    ) -> Result<bool, AllocError>
        ensures { list_all (is_entry (language_of self.now.schema)) window.now ≡ true → IfOk result (λ yes. yes ≡ list_all (λ e. spells (language_of self.now.schema) e.request) entries.now) }
    {
        for (i, entry) in entries.iter().enumerate() {
            if !self.spells(window, first.saturating_add(i), &entry.request)? {
                return Ok(false);
            }
        }
        Ok(true)
    }

    /// Entries that a message may carry, and a floor that a member may tell.
    fn may_carry(&self, window: &[Entry], term: u64, body: &Body) -> Result<bool, AllocError>
        requires { term ≤ LAST_TERM }
        ensures value { list_all (is_entry (language_of self.now.schema)) window.now ≡ true → IfOk result
            (λ yes. yes
            ≡ (nat_le (length (entries_of body.now)) 64 && go_on None term (entries_of body.now)
            && list_all (λ e. spells (language_of self.now.schema) e.request) (entries_of body.now) && floor_fits body.now)) }
        ensures few { IfOk result (λ yes. yes ≡ true → length (entries_of body.now) ≤ 64) }
        ensures terms { IfOk result (λ yes. yes ≡ true → list_all (λ e. nat_le e.term TERM_LAST) (entries_of body.now) ≡ true) }
    {
        match body {
            Body::Append {
                prev_index,
                entries,
                ..
            } => {
                let entries = entries.as_slice();
                if !may_carry(term, entries) {
                    return Ok(false);
                }
                self.all_spell(window, (*prev_index).min(1), entries)
            }
            body => Ok(floor_fits(body)),
        }
    }

    /// Whether a member that keeps the rules can have sent this to me.
    fn is_honest(&self, window: &[Entry], message: &Message) -> Result<bool, AllocError>
        ensures value { list_all (is_entry (language_of self.now.schema)) window.now ≡ true → IfOk result (λ yes. yes ≡ is_honest (language_of self.now.schema) self.now.members self.now.me message.now) }
        ensures term { IfOk result (λ yes. yes ≡ true → message.now.term ≤ LAST_TERM) }
        ensures member { IfOk result (λ yes. yes ≡ true → (1 ≤ message.now.sender) × (message.now.sender ≤ self.now.members)) }
        ensures few { IfOk result (λ yes. yes ≡ true → length (entries_of message.now.body) ≤ 64) }
        ensures terms { IfOk result (λ yes. yes ≡ true → list_all (λ e. nat_le e.term TERM_LAST) (entries_of message.now.body) ≡ true) }
    {
        if !(message.addressee == self.me
            && 0 < message.sender
            && message.sender <= self.members
            && message.sender != self.me
            && 0 < message.term
            && message.term <= LAST_TERM)
        {
            return Ok(false);
        }
        self.may_carry(window, message.term, &message.body)
    }

    /// Takes a message of its own term or an older one.
    fn on_body(
        &mut self,
        window: &[Entry],
        reading: i64,
        sender: Member,
        term: u64,
        body: Body,
    ) -> Result<Effect<Sending>, AllocError>
        ghost stored: { List in_log.Entry }
        requires reaches { Reaches self.old stored }
        requires few { length (entries_of body) ≤ 64 }
        requires member { (1 ≤ sender) × (sender ≤ self.old.members) }
        requires term { term ≤ self.old.term }
        requires terms { list_all (λ e. nat_le e.term TERM_LAST) (entries_of body) ≡ true }
        ensures done { Sees body (log_of self.old stored) window.now → IfOk result
            (λ o. outcome_of self.new stored o
            ≡ on_body self.old.members self.old.me reading sender term body (node_of self.old stored)) }
        ensures asks { IfOk result (λ o. asks_after o + looked_at body ≤ 66) }
        ensures same { IfOk result (SameUnlessDone self.old self.new stored) }
        ensures seat { IsSameSeat self.old self.new }
        ensures tells { Sees body (log_of self.old stored) window.now → IsSaved self.old.log → OnOk result (Tells stored self.old.log self.new.log) }
        ensures lower { self.new.log.elsewhere ≤ self.old.log.elsewhere }
        ensures short { vec_len self.new.log.tail ≤ vec_len self.old.log.tail + 64 }
    {
        match body {
            Body::RequestVote {
                last_index,
                last_term,
            } => Ok(Effect::Done(self.on_request_vote(sender, term, last_index, last_term))),
            Body::Vote { given, floor } => {
                let sending = self.on_vote(reading, sender, term, given, floor)?;
                Ok(Effect::Done(sending))
            }
            Body::Append {
                prev_index,
                prev_term,
                entries,
                commit,
            } => self.on_append(
                window,
                sender,
                term,
                prev_index,
                prev_term,
                entries.into_vec(),
                commit,
            ),
            Body::Reply { ok, matched } => Ok(self.on_reply(sender, term, ok, matched)),
            Body::Seek { index, floor } => Ok(self.on_seek(sender, term, index, floor)),
            Body::Stored { index, floor } => {
                Ok(Effect::Done(self.on_stored(sender, term, index, floor)))
            }
            Body::Seal { index, floor } => {
                Ok(Effect::Done(Sending::Learned(SealedFloor { term, index, floor })))
            }
        }
    }

    /// Takes a message, if an honest member can have sent it.
    fn receive(
        &mut self,
        window: &[Entry],
        reading: i64,
        message: Message,
    ) -> Result<Effect<Sending>, AllocError>
        ghost stored: { List in_log.Entry }
        requires { Reaches self.old stored }
        ensures done { IsWindow self.old.schema message.body (log_of self.old stored) window.now → IfOk result
            (λ o. outcome_of self.new stored o
            ≡ on_message (language_of self.old.schema) self.old.members self.old.me reading message (node_of self.old stored)) }
        ensures asks { IfOk result (λ o. asks_after o + looked_at message.body ≤ 66) }
        ensures same { IfOk result (SameUnlessDone self.old self.new stored) }
        ensures seat { IsSameSeat self.old self.new }
        ensures tells { Sees message.body (log_of self.old stored) window.now → IsSaved self.old.log → OnOk result (Tells stored self.old.log self.new.log) }
        ensures lower { self.new.log.elsewhere ≤ self.old.log.elsewhere }
        ensures short { vec_len self.new.log.tail ≤ vec_len self.old.log.tail + 64 }
    {
        if !self.is_honest(window, &message)? {
            return Ok(Effect::Ignored);
        }
        let Message {
            sender,
            addressee: _,
            term,
            body,
        } = message;
        let heard = self.hear(term);
        match self.on_body(window, reading, sender, term, body)? {
            Effect::Refused(refusal) => {
                self.forget(heard);
                Ok(Effect::Refused(refusal))
            }
            Effect::Ignored => {
                self.forget(heard);
                Ok(Effect::Ignored)
            }
            Effect::Done(sending) => Ok(Effect::Done(sending)),
        }
    }

    /// Takes a local input. A submitted text that spells no transaction is refused before all else.
    fn on_hand(&mut self, input: Input) -> Result<Effect<Sending>, AllocError>
        ghost stored: { List in_log.Entry }
        requires { Reaches self.old stored }
        ensures done { IfOk result
            (λ o. outcome_of self.new stored o
            ≡ hand (language_of self.old.schema) self.old.members self.old.me input (node_of self.old stored)) }
        ensures spares { spares_memory self.old.members self.old.me (Local input) (node_of self.old stored) ≡ true → IsOk result }
        ensures asks { IfOk result (λ o. asks_after o ≤ 1) }
        ensures same { IfOk result (SameUnlessDone self.old self.new stored) }
        ensures seat { IsSameSeat self.old self.new }
        ensures tells { IsSaved self.old.log → OnOk result (Tells stored self.old.log self.new.log) }
        ensures elsewhere { self.new.log.elsewhere ≡ self.old.log.elsewhere }
        ensures short { vec_len self.new.log.tail ≤ vec_len self.old.log.tail + 1 }
    {
        match input {
            Input::Timeout => self.on_input(Input::Timeout),
            Input::Beat => self.on_input(Input::Beat),
            Input::Close { reading } => self.on_input(Input::Close { reading }),
            Input::Floor { reading } => self.on_input(Input::Floor { reading }),
            Input::Submit { reading, request } => {
                let refusal = misreading(self.alloc, &self.schema, request.text.as_str())?;
                if let Some(refusal) = refusal {
                    return Ok(Effect::Refused(refusal));
                }
                self.on_input(Input::Submit { reading, request })
            }
        }
    }

    /// Takes what is brought to it, and leaves aside what is to be stored. The window shows what a message wants to see of
    /// the log.
    pub(crate) fn on_work(
        &mut self,
        window: &[Entry],
        work: Work,
    ) -> Result<Effect<Sending>, AllocError>
        ghost stored: { List in_log.Entry }
        requires { Reaches self.old stored }
        ensures done { LooksAt work (log_of self.old stored) window.now → list_all (is_entry (language_of self.old.schema)) window.now ≡ true → IfOk result
            (λ o. outcome_of self.new stored o
            ≡ works self.old.schema self.old.members self.old.me work (node_of self.old stored)) }
        ensures spares { spares_memory self.old.members self.old.me work (node_of self.old stored) ≡ true → IsOk result }
        ensures asks { IfOk result (λ o. asks_after o + looks work ≤ 65 * brought work + 1) }
        ensures same { IfOk result (SameUnlessDone self.old self.new stored) }
        ensures seat { IsSameSeat self.old self.new }
        ensures tells { LooksAt work (log_of self.old stored) window.now → IsSaved self.old.log → OnOk result (Tells stored self.old.log self.new.log) }
        ensures lower { self.new.log.elsewhere ≤ self.old.log.elsewhere }
        ensures short { vec_len self.new.log.tail ≤ vec_len self.old.log.tail + 64 }
    {
        match work {
            Work::Local(input) => self.on_hand(input),
            Work::Delivered { reading, message } => self.receive(window, reading, message),
        }
    }
}
