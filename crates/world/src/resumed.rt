//! Members that go on from what they had stored.
ghost use Rattle.std.specs.Prelude.{◌≡◌, ◌++◌, ◌∷◌, ◌≤◌, ◌↔◌, [], true, false, None, IfOk, IsErr, IsOk, OnErr, OnOk};
ghost use Rattle.std.specs.Coded.{→_prop};
ghost use Rattle.keep.specs.Durable.{stored_in};
ghost use Rattle.keep.specs.Log.{IsLog};
ghost use Rattle.believed.specs.Worlds.{Gives};
ghost use Rattle.sqlread.specs.Meaning.{language_of};
ghost use Rattle.world.specs.Deeds.{resumed_prop, IsResumed};
ghost use Rattle.world.specs.View.{durable_in, entry_in, event_of, if_up, outputs_of, ShowsColumns};

use crate::event::Event;
use crate::group::Group;
use crate::output::Output;
use crate::outset::open_group;
use keep::hard_state::HardState;
use keep::memory::MemImage;
use model::entry::Entry;
use model::member::Member;
use node::durable::StoredState;
use schema::Schema;
use std::alloc::{AllocError, Global};

/// One thing that is done with members that go on from what they had stored. Members count from 1.
#[derive(Drop)]
pub enum Deed {
    /// An event happened.
    Happened(Event),
    /// A member was put down, with this hard state and this log stored.
    Stored(Member, HardState, Vec<Entry>),
}

/// All members of a group, what each of them was told to have stored, and the events that happened since.
///
/// A `World` is the run of a group from its outset on, so all that is proved of runs holds of it. Members that go on from what
/// they had stored may have stored anything that a member can have. What their events give is what the same definitions say.
#[derive(Drop)]
pub struct Resumed {
    group: Group,
    deeds: Vec<Deed>,
    is_spent: bool,
    ghost whole: { is_spent ≡ false → IsResumed group deeds.items } by { →_prop (resumed_prop _ _) },
}

impl Resumed {
    ghost use Rattle.world.specs.Deeds.{Happened, Stored};
    ghost use Rattle.world.specs.Resumed.{deeds_of, members_of, resumed_member, resumed_world, tables_of};

    /// A group of 3 to 7 members with tables of this schema: all up, as followers in term 0 with no vote, no floor and empty
    /// logs. Nothing was done yet.
    ///
    /// The one error is want of memory.
    pub fn new(alloc: Global, members: usize, schema: Schema) -> Result<Resumed, AllocError>
        requires least { 3 ≤ members }
        requires most { members ≤ 7 }
        ensures members { IfOk result (λ r. members_of r ≡ members) }
        ensures tables { IfOk result (λ r. tables_of r ≡ schema) }
        ensures nothing { IfOk result (λ r. deeds_of r ≡ []) }
        ensures live { IfOk result (λ r. r.is_spent ≡ false) }
    {
        let group = open_group(alloc, members, schema)?;
        Ok(Resumed {
            group,
            deeds: Vec::new(alloc),
            is_spent: false,
        })
    }

    /// The tables of its members.
    pub fn schema(&self) -> &Schema
        ensures { result.now ≡ tables_of self.now }
    {
        &self.group.schema
    }

    /// How many members there are.
    pub fn members(&self) -> usize
        ensures { result ≡ members_of self.now }
    {
        self.group.members
    }

    /// An error where it is spent.
    fn check_live(&self) -> Result<(), AllocError>
        ensures { IsErr result ↔ (self.now.is_spent ≡ true) }
    {
        if self.is_spent {
            return Err(AllocError);
        }
        Ok(())
    }

    /// Lets an event happen, and gives what comes of it. An event that cannot be gives nothing and changes nothing; it is
    /// kept.
    ///
    /// The one error is want of memory. It is spent then, and this event is not kept; each later call gives the error too,
    /// and changes nothing.
    pub fn happen(&mut self, event: Event) -> Result<Vec<Output>, AllocError>
        ensures gives { IfOk result (λ outs. Gives (language_of (tables_of self.old)) (members_of self.old) (resumed_world self.old) (event_of event) (outputs_of outs.items)) }
        ensures columns { IfOk result (λ outs. ShowsColumns (tables_of self.old) event outs.items) }
        ensures kept { OnOk result (deeds_of self.new ≡ deeds_of self.old ++ Happened (event_of event) ∷ []) }
        ensures unkept { OnErr result (deeds_of self.new ≡ deeds_of self.old) }
        ensures same { (tables_of self.new ≡ tables_of self.old) × (members_of self.new ≡ members_of self.old) }
        ensures ok { OnOk result ((self.old.is_spent ≡ false) × (self.new.is_spent ≡ false)) }
        ensures err { OnErr result (self.new.is_spent ≡ true) }
        ensures spent { self.old.is_spent ≡ true → IsErr result }
        ensures stays { self.old.is_spent ≡ true → self.new ≡ self.old }
    {
        self.check_live()?;
        self.is_spent = true;
        let outs = self.group.happen(&event)?;
        self.deeds.push(Deed::Happened(event))?;
        self.is_spent = false;
        Ok(outs)
    }

    /// Puts a member down, and has it stored what this image holds: this hard state and this log. Where there is no such
    /// member nothing changes; the deed is kept.
    ///
    /// The one error is want of memory. It is spent then, and this deed is not kept; each later call gives the error too,
    /// and changes nothing.
    pub fn store(
        &mut self,
        member: Member,
        image: MemImage,
        hard: HardState,
        log: Vec<Entry>,
    ) -> Result<(), AllocError>
        requires forms { IsLog (members_of self.old) (language_of (tables_of self.old)) (stored_in image) }
        requires holds { stored_in image ≡ record { hard = hard; log = log.items } }
        ensures kept { OnOk result (deeds_of self.new ≡ deeds_of self.old ++ Stored member (record { hard = hard; log = log.items }) ∷ []) }
        ensures unkept { OnErr result (deeds_of self.new ≡ deeds_of self.old) }
        ensures same { (tables_of self.new ≡ tables_of self.old) × (members_of self.new ≡ members_of self.old) }
        ensures ok { OnOk result ((self.old.is_spent ≡ false) × (self.new.is_spent ≡ false)) }
        ensures err { OnErr result (self.new.is_spent ≡ true) }
        ensures spent { self.old.is_spent ≡ true → IsErr result }
        ensures stays { self.old.is_spent ≡ true → self.new ≡ self.old }
    {
        self.check_live()?;
        self.is_spent = true;
        self.group.store(member, image);
        self.deeds.push(Deed::Stored(member, hard, log))?;
        self.is_spent = false;
        Ok(())
    }

    /// What a member has stored: its term, its vote, its floor, and the length of its log. None for a member that is down or
    /// not there. An error exactly where it is spent.
    pub fn durable(&self, member: Member) -> Result<Option<StoredState>, AllocError>
        ensures found { IfOk result (λ found. found ≡ durable_in (resumed_member self.now member)) }
        ensures spent { IsErr result ↔ (self.now.is_spent ≡ true) }
    {
        self.check_live()?;
        Ok(self.group.durable(member))
    }

    /// The entry that a member has stored at an index of its log, counted from 1. None outside the log, and for a member that
    /// is down or not there.
    ///
    /// The one error is want of memory, never of a member that is down or not there. It is spent then.
    pub fn entry(&mut self, member: Member, index: usize) -> Result<Option<Entry>, AllocError>
        ensures found { IfOk result (λ found. found ≡ entry_in index (resumed_member self.old member)) }
        ensures down { self.old.is_spent ≡ false → if_up (resumed_member self.old member) ≡ None → IsOk result }
        ensures kept { deeds_of self.new ≡ deeds_of self.old }
        ensures same { (tables_of self.new ≡ tables_of self.old) × (members_of self.new ≡ members_of self.old) }
        ensures ok { OnOk result ((self.old.is_spent ≡ false) × (self.new.is_spent ≡ false)) }
        ensures err { OnErr result (self.new.is_spent ≡ true) }
        ensures spent { self.old.is_spent ≡ true → IsErr result }
        ensures stays { self.old.is_spent ≡ true → self.new ≡ self.old }
    {
        self.check_live()?;
        self.is_spent = true;
        let entry = self.group.entry(member, index)?;
        self.is_spent = false;
        Ok(entry)
    }
}
