//! Floors: a leader asks that one be stored, members store it, and the leader counts them.
ghost use Rattle.std.specs.Prelude.{◌≡◌, ◌≤◌, List, IfOk, IsOk, true};
ghost use Rattle.model.specs.declared.entry.Entry as in_log;
ghost use Rattle.model.specs.Members.{is_majority, is_in};
ghost use Rattle.model.specs.Steps.{ask_floor, asks_for, can_be_asked, floor_fits, is_floor, on_seek, on_stored};
ghost use Rattle.raft.specs.Memory.{is_idle};
ghost use Rattle.raft.specs.View.{node_of, outcome_of, sends, asks_after, IsSameSeat, Reaches, SameUnlessDone};

use crate::counted::set_flag;
use crate::leading::count_set;
use crate::state::{Core, Effect, Sending};
use closedtime::{greater, next_floor};
use model::member::{AskedFloor, Member, SealedFloor};
use model::message::{Body, LOG_ROOM};
use model::stamp::Stamp;
use std::alloc::AllocError;

/// A floor is an instant, as its type keeps.
pub(crate) fn is_instant(floor: Option<Stamp>)
    ensures { is_floor floor ≡ true }
{
    if let Some(floor) = floor {
        let _ = floor.micros();
    }
}

/// The index can be that of an entry. The floor is an instant, as its type keeps.
fn can_be_asked(index: usize, floor: Stamp) -> bool
    ensures { result ≡ can_be_asked index floor }
{
    let _ = floor.micros();
    0 < index && index <= LOG_ROOM
}

/// An honest member may tell this floor, if it tells one.
pub(crate) fn floor_fits(body: &Body) -> bool
    ensures { result ≡ floor_fits body.now }
{
    match body {
        Body::Seek { index, floor } | Body::Seal { index, floor } => can_be_asked(*index, *floor),
        Body::Vote { floor, .. } => {
            is_instant(*floor);
            true
        }
        _ => true,
    }
}

/// This is what a leader asks for.
fn asks_for(asked: Option<AskedFloor>, index: usize, floor: Stamp) -> bool
    ensures { result ≡ asks_for asked index floor }
{
    match asked {
        None => false,
        Some(asked) => asked.index == index && asked.floor.micros() == floor.micros(),
    }
}

impl Core {
    /// A majority stored the floor that it asks for.
    fn is_stored(&self) -> bool
        ensures { result ≡ is_majority self.now.members (is_in self.now.stored.items) }
    {
        2 * count_set(&self.stored, self.members) > self.members
    }

    /// Asks that the greatest of the clock's reading, the last stamp and its floor be stored, and stores it itself; where its
    /// last entry is of another term, and where it does not lead, it does nothing.
    #[tactic(auto, unfolding(model::specs::Steps::ask_floor), using(crate::proofs::Windows::last_of, crate::proofs::Windows::length_of))]
    pub(crate) fn ask_floor(&mut self, reading: i64) -> Result<Effect<Sending>, AllocError>
        ghost stored: { List in_log.Entry }
        requires { Reaches self.old stored }
        ensures done { IfOk result
            (λ o. outcome_of self.new stored o
            ≡ ask_floor self.old.members self.old.me reading (node_of self.old stored)) }
        ensures spares { is_idle (ask_floor self.old.members self.old.me reading (node_of self.old stored)) ≡ true → IsOk result }
        ensures same { IfOk result (SameUnlessDone self.old self.new stored) }
        ensures few { IfOk result (λ o. asks_after o ≤ 1) }
        ensures seat { IsSameSeat self.old self.new }
        ensures log { self.new.log ≡ self.old.log }
    {
        if !(self.is_leader() && self.log.ends_in(self.term)) {
            return Ok(Effect::Ignored);
        }
        let mut stored = vec![in self.alloc; false; self.members]?;
        set_flag(&mut stored, self.me, true);
        let floor = next_floor(reading, self.log.closed(), self.floor);
        let asked = AskedFloor {
            index: self.log.length(),
            floor,
        };
        self.floor = Some(floor);
        self.asked = Some(asked);
        self.stored = stored;
        Ok(Effect::Done(Sending::Seeks(asked)))
    }

    /// Stores the floor that a leader asks for, and tells it so.
    #[tactic(auto, unfolding(model::specs::Steps::on_seek))]
    pub(crate) fn on_seek(
        &mut self,
        sender: Member,
        term: u64,
        index: usize,
        floor: Stamp,
    ) -> Effect<Sending>
        ghost stored: { List in_log.Entry }
        ensures done { outcome_of self.new stored result
            ≡ on_seek self.old.me sender term index floor (node_of self.old stored) }
        ensures same { SameUnlessDone self.old self.new stored result }
        ensures seat { IsSameSeat self.old self.new }
        ensures log { self.new.log ≡ self.old.log }
    {
        if term < self.term {
            return Effect::Done(Sending::Nothing);
        }
        if self.is_leader() {
            return Effect::Ignored;
        }
        self.follow(sender);
        self.floor = greater(self.floor, Some(floor));
        Effect::Done(Sending::Back {
            to: sender,
            body: Body::Stored { index, floor },
        })
    }

    /// Counts a member that stored the floor which it asks for. The one that makes them a majority makes the seal.
    #[tactic(auto, unfolding(model::specs::Steps::on_stored))]
    pub(crate) fn on_stored(
        &mut self,
        sender: Member,
        term: u64,
        index: usize,
        floor: Stamp,
    ) -> Sending
        ghost stored: { List in_log.Entry }
        ensures done { sends self.old.members self.old.me result (node_of self.new stored)
            ≡ on_stored self.old.members self.old.me sender term index floor (node_of self.old stored) }
        ensures seat { IsSameSeat self.old self.new }
        ensures log { self.new.log ≡ self.old.log }
    {
        if !(self.is_leader() && term == self.term && asks_for(self.asked, index, floor)) {
            return Sending::Nothing;
        }
        let was_stored = self.is_stored();
        set_flag(&mut self.stored, sender, true);
        if was_stored || !self.is_stored() {
            return Sending::Nothing;
        }
        Sending::Seals(SealedFloor { term, index, floor })
    }
}
