//! Local inputs: a timeout, a beat, and entries that a leader appends.
ghost use Rattle.std.specs.Prelude.{◌≡◌, ◌+◌, ◌<◌, ◌≤◌, List, vec_len, IfOk, IsOk, IfSome, IfNone, true, false, OnOk};
ghost use Rattle.model.specs.declared.entry.Entry as in_log;
ghost use Rattle.model.specs.Stamps.{stamp};
ghost use Rattle.model.specs.Logs.{least_over};
ghost use Rattle.model.specs.Steps.{time_out, append_own, is_time_full, is_log_full, on_input};
ghost use Rattle.raft.specs.Memory.{is_idle};
ghost use Rattle.raft.specs.Saved.{IsSaved, Tells};
ghost use Rattle.raft.specs.View.{log_of, node_of, with_entry, IsSameSeat, Reaches, outcome_of, asks_after, SameUnlessDone};

use crate::state::{Core, Effect, Sending};
use closedtime::stamp;
use fault::Refusal;
use model::entry::{Entry, Request};
use model::message::{Input, LAST_TERM, LOG_ROOM};
use model::stamp::Stamp;
use std::alloc::AllocError;

impl Core {
    /// Stands for election; a leader does nothing.
    #[tactic(auto, unfolding(model::specs::Steps::time_out))]
    fn time_out(&mut self) -> Result<Effect<Sending>, AllocError>
        ghost stored: { List in_log.Entry }
        ensures done { IfOk result
            (λ o. outcome_of self.new stored o ≡ time_out self.old.members self.old.me (node_of self.old stored)) }
        ensures spares { is_idle (time_out self.old.members self.old.me (node_of self.old stored)) ≡ true → IsOk result }
        ensures same { IfOk result (SameUnlessDone self.old self.new stored) }
        ensures few { IfOk result (λ o. asks_after o ≤ 1) }
        ensures seat { IsSameSeat self.old self.new }
        ensures log { self.new.log ≡ self.old.log }
    {
        if self.is_leader() {
            return Ok(Effect::Ignored);
        }
        if self.term >= LAST_TERM {
            return Ok(Effect::Refused(Refusal::TermFull));
        }
        self.stand_up()?;
        Ok(Effect::Done(Sending::VoteRequests))
    }

    /// The stamp of its next entry, none where no stamp is left.
    #[tactic(auto, using(crate::proofs::Windows::least_over_of))]
    pub(crate) fn next_stamp(&self, reading: i64) -> Option<Stamp>
        ghost stored: { List in_log.Entry }
        ensures some { IfSome result (λ t. (t ≡ stamp reading (least_over self.now.floor (log_of self.now stored))) × (is_time_full self.now.floor (log_of self.now stored) ≡ false)) }
        ensures none { IfNone result (is_time_full self.now.floor (log_of self.now stored) ≡ true) }
    {
        stamp(reading, self.log.closed(), self.floor)
    }

    /// No room is left in the log.
    #[tactic(auto, using(crate::proofs::Windows::length_of))]
    pub(crate) fn is_log_full(&self) -> bool
        ghost stored: { List in_log.Entry }
        requires { Reaches self.now stored }
        ensures value { result ≡ is_log_full (log_of self.now stored) }
        ensures room { result ≡ false → self.now.log.elsewhere + vec_len self.now.log.tail < 100000 }
    {
        self.log.length() >= LOG_ROOM
    }

    /// Appends an entry of its own term.
    #[tactic(auto, using(crate::proofs::Windows::log_pushed))]
    pub(crate) fn extend(
        &mut self,
        stamp: Stamp,
        request: Option<Request>,
    ) -> Result<(), AllocError>
        ghost stored: { List in_log.Entry }
        requires reaches { Reaches self.old stored }
        requires room { self.old.log.elsewhere + vec_len self.old.log.tail < 100000 }
        ensures done { IfOk result (λ _. node_of self.new stored ≡ with_entry stamp request (node_of self.old stored)) }
        ensures seat { IsSameSeat self.old self.new }
        ensures tells { IsSaved self.old.log → OnOk result (Tells stored self.old.log self.new.log) }
        ensures elsewhere { self.new.log.elsewhere ≡ self.old.log.elsewhere }
        ensures short { vec_len self.new.log.tail ≤ vec_len self.old.log.tail + 1 }
    {
        let entry = Entry {
            term: self.term,
            stamp,
            request,
        };
        self.log.push(entry)
    }

    /// Appends an entry and sends it, if it leads and a stamp and room are left.
    #[tactic(auto, unfolding(model::specs::Steps::append_own))]
    fn append_own(
        &mut self,
        reading: i64,
        request: Option<Request>,
    ) -> Result<Effect<Sending>, AllocError>
        ghost stored: { List in_log.Entry }
        requires { Reaches self.old stored }
        ensures done { IfOk result
            (λ o. outcome_of self.new stored o
            ≡ append_own self.old.members self.old.me reading request (node_of self.old stored)) }
        ensures spares { is_idle (append_own self.old.members self.old.me reading request (node_of self.old stored)) ≡ true → IsOk result }
        ensures same { IfOk result (SameUnlessDone self.old self.new stored) }
        ensures few { IfOk result (λ o. asks_after o ≤ 1) }
        ensures seat { IsSameSeat self.old self.new }
        ensures tells { IsSaved self.old.log → OnOk result (Tells stored self.old.log self.new.log) }
        ensures elsewhere { self.new.log.elsewhere ≡ self.old.log.elsewhere }
        ensures short { vec_len self.new.log.tail ≤ vec_len self.old.log.tail + 1 }
    {
        if !self.is_leader() {
            return Ok(Effect::Refused(Refusal::NotLeader(self.known)));
        }
        let Some(stamp) = self.next_stamp(reading) else {
            return Ok(Effect::Refused(Refusal::TimeFull));
        };
        if self.is_log_full() {
            return Ok(Effect::Refused(Refusal::LogFull));
        }
        self.extend(stamp, request)?;
        Ok(Effect::Done(Sending::Appends))
    }

    /// Takes a local input; a submitted text reads.
    pub(crate) fn on_input(&mut self, input: Input) -> Result<Effect<Sending>, AllocError>
        ghost stored: { List in_log.Entry }
        requires { Reaches self.old stored }
        ensures done { IfOk result
            (λ o. outcome_of self.new stored o
            ≡ on_input self.old.members self.old.me input (node_of self.old stored)) }
        ensures spares { is_idle (on_input self.old.members self.old.me input (node_of self.old stored)) ≡ true → IsOk result }
        ensures same { IfOk result (SameUnlessDone self.old self.new stored) }
        ensures few { IfOk result (λ o. asks_after o ≤ 1) }
        ensures seat { IsSameSeat self.old self.new }
        ensures tells { IsSaved self.old.log → OnOk result (Tells stored self.old.log self.new.log) }
        ensures elsewhere { self.new.log.elsewhere ≡ self.old.log.elsewhere }
        ensures short { vec_len self.new.log.tail ≤ vec_len self.old.log.tail + 1 }
    {
        match input {
            Input::Timeout => self.time_out(),
            Input::Beat => {
                if !self.is_leader() {
                    return Ok(Effect::Ignored);
                }
                Ok(Effect::Done(Sending::Appends))
            }
            Input::Close { reading } => self.append_own(reading, None),
            Input::Floor { reading } => self.ask_floor(reading),
            Input::Submit { reading, request } => self.append_own(reading, Some(request)),
        }
    }
}
