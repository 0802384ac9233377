//! A group, and all that happened to it.
ghost use Rattle.std.specs.Prelude.{◌≡◌, ◌++◌, ◌∷◌, ◌≤◌, ◌↔◌, [], true, false, map, None, Some, IfOk, IsErr, IsOk, MatchOption, OnErr, OnOk, if◌then◌else◌};
ghost use Rattle.std.specs.Coded.{→_prop};
ghost use Rattle.believed.specs.Agreement.{Agree, decided};
ghost use Rattle.believed.specs.Explained.{IsDecidedInOrder, IsExplainedSo, WereSubmitted};
ghost use Rattle.believed.specs.Progress.{CanServe};
ghost use Rattle.believed.specs.Worlds.{Gives, GivesAll};
ghost use Rattle.model.specs.Lists.{nth};
ghost use Rattle.model.specs.Worlds.{Gives as GivesThen, new_world};
ghost use Rattle.sqlread.specs.Meaning.{language_of};
ghost use Rattle.believed.specs.Meaning.{IsLanguage};
ghost use Rattle.world.specs.Given.{given_prop, HasGiven};
ghost use Rattle.world.specs.Once.{run_prop};
ghost use Rattle.world.specs.View.{commit_in, durable_in, entry_in, event_of, if_up, outputs_of, world_of, IsRun};

use crate::event::Event;
use crate::group::Group;
use crate::output::Output;
use crate::outset::open_group;
use model::entry::Entry;
use model::member::Member;
use model::message::Message;
use node::durable::StoredState;
use schema::Schema;
use std::alloc::{AllocError, Global};

/// All members of a group, and the events that happened to it so far.
#[derive(Drop)]
pub struct World {
    group: Group,
    kept: Vec<Event>,
    is_spent: bool,
    ghost whole: { is_spent ≡ false → IsRun group kept.items } by { →_prop (run_prop _ _) },
    ghost given: { HasGiven group.schema group.members kept.items } by { given_prop _ _ _ },
}

impl World {
    ghost use Rattle.world.specs.Run.{language_in, tables_in, members_in, outset_of, events_of, given_of, now_of, world_in, member_of, AddsBeginning};
    ghost use Rattle.world.specs.View.{EachShowsColumns, ShowsColumns};

    /// A group of 3 to 7 members in one program, with tables of this schema: all up, as followers in term 0 with no vote, no floor
    /// and empty logs. Nothing has happened yet.
    ///
    /// The one error is want of memory.
    pub fn new(alloc: Global, members: usize, schema: Schema) -> Result<World, AllocError>
        requires least { 3 ≤ members }
        requires most { members ≤ 7 }
        ensures outset { IfOk result (λ w. world_of w.group ≡ new_world members) }
        ensures members { IfOk result (λ w. members_in w ≡ members) }
        ensures schema { IfOk result (λ w. language_in w ≡ language_of schema) }
        ensures tables { IfOk result (λ w. tables_in w ≡ schema) }
        ensures nothing { IfOk result (λ w. w.kept.items ≡ []) }
        ensures silent { IfOk result (λ w. given_of w ≡ []) }
        ensures live { IfOk result (λ w. w.is_spent ≡ false) }
    {
        let group = open_group(alloc, members, schema)?;
        Ok(World {
            group,
            kept: Vec::new(alloc),
            is_spent: false,
        })
    }

    /// The tables of its members.
    pub fn schema(&self) -> &Schema
        ensures { result.now ≡ tables_in self.now }
    {
        &self.group.schema
    }

    /// What happened so far, from the first event on.
    pub fn events(&self) -> &[Event]
        ensures { result.now ≡ self.now.kept.items }
    {
        &self.kept
    }

    /// The same, to be moved elsewhere. Takes no memory.
    pub fn into_events(self) -> Vec<Event>
        ensures { result.items ≡ self.kept.items }
    {
        let World {
            group: _group,
            kept,
            is_spent: _,
        } = self;
        kept
    }

    /// The message that was sent as this one, counted from 1 in the order in which all were sent. Takes no memory.
    pub fn message(&self, number: usize) -> Option<&Message>
        ensures { self.now.is_spent ≡ false → MatchOption result (nth (now_of self.now).sent number ≡ None) (λ message. nth (now_of self.now).sent number ≡ Some message.now) }
    {
        self.group.sent_as(number)
    }

    /// An error where the world is spent.
    fn check_live(&self) -> Result<(), AllocError>
        ensures { IsErr result ↔ (self.now.is_spent ≡ true) }
    {
        if self.is_spent {
            return Err(AllocError);
        }
        Ok(())
    }

    /// One event. The world is spent unless all of it was done.
    fn happen(&mut self, event: &Event) -> Result<Vec<Output>, AllocError>
        requires live { self.old.is_spent ≡ false }
        ensures gives { IfOk result (λ outs. GivesThen (language_in self.old) (members_in self.old) (now_of self.old) (event_of event.now) (outputs_of outs.items)) }
        ensures columns { IfOk result (λ outs. ShowsColumns (tables_in self.old) event.now outs.items) }
        ensures given { IfOk result (λ outs. given_of self.new ≡ given_of self.old ++ outputs_of outs.items ∷ []) }
        ensures kept { OnOk result (events_of self.new ≡ events_of self.old ++ event_of event.now ∷ []) }
        ensures unkept { OnErr result (self.new.kept.items ≡ self.old.kept.items) }
        ensures same { (self.new.group.schema ≡ self.old.group.schema) × (self.new.group.members ≡ self.old.group.members) }
        ensures ok { OnOk result (self.new.is_spent ≡ false) }
        ensures err { OnErr result (self.new.is_spent ≡ true) }
    {
        self.is_spent = true;
        let outs = self.group.happen(event)?;
        self.kept.push(event.clone()?)?;
        self.is_spent = false;
        Ok(outs)
    }

    /// Lets an event happen, and gives what comes of it. All that `run` promises, it promises of one event: what it gives is appended
    /// to what was given before, and all of that is explained.
    ///
    /// An event that cannot be gives nothing and changes nothing, as `run` says; it is kept.
    ///
    /// The one error is want of memory. The world is spent then, and this event is not kept; each later call gives the error too,
    /// and changes nothing.
    pub fn step(&mut self, event: &Event) -> Result<Vec<Output>, AllocError>
        ensures kept { OnOk result (events_of self.new ≡ events_of self.old ++ event_of event.now ∷ []) }
        ensures unkept { OnErr result (self.new.kept.items ≡ self.old.kept.items) }
        ensures given { IfOk result (λ outs. given_of self.new ≡ given_of self.old ++ outputs_of outs.items ∷ []) }
        ensures explained { IfOk result (λ outs. IsExplainedSo (language_in self.new) (members_in self.new) (events_of self.new) (given_of self.old ++ outputs_of outs.items ∷ [])) }
        ensures columns { IfOk result (λ outs. ShowsColumns (tables_in self.old) event.now outs.items) }
        ensures language { IsLanguage (tables_in self.new) (language_in self.new) }
        ensures tables { tables_in self.new ≡ tables_in self.old }
        ensures same { (language_in self.new ≡ language_in self.old) × (members_in self.new ≡ members_in self.old) }
        ensures ok { OnOk result ((self.old.is_spent ≡ false) × (self.new.is_spent ≡ false)) }
        ensures err { OnErr result (self.new.is_spent ≡ true) }
        ensures spent { self.old.is_spent ≡ true → IsErr result }
        ensures stays { self.old.is_spent ≡ true → self.new ≡ self.old }
        ensures gives { IfOk result (λ outs. Gives (language_in self.old) (members_in self.old) (world_in self.old) (event_of event.now) (outputs_of outs.items)) }
        ensures agree { Agree (language_in self.new) (members_in self.new) (outset_of self.new) (events_of self.new) }
        ensures invented { WereSubmitted (events_of self.new) (decided (language_in self.new) (members_in self.new) (outset_of self.new) (events_of self.new)) }
        ensures ordered { IsDecidedInOrder (language_in self.new) (members_in self.new) (outset_of self.new) (events_of self.new) }
        ensures serves { CanServe (language_in self.new) (members_in self.new) (world_in self.new) }
    {
        believed::promises();
        believed::meanings();
        self.check_live()?;
        self.happen(event)
    }

    /// Each of these events, until memory is refused. No events take no memory.
    fn run_all(&mut self, events: &[Event]) -> Result<Vec<Vec<Output>>, AllocError>
        requires live { self.old.is_spent ≡ false }
        ensures gives { IfOk result (λ outs. GivesAll (language_in self.old) (members_in self.old) (world_in self.old) (map event_of events.now) (map (λ o. outputs_of o.items) outs.items)) }
        ensures columns { IfOk result (λ outs. EachShowsColumns (tables_in self.old) events.now outs.items) }
        ensures given { IfOk result (λ outs. given_of self.new ≡ given_of self.old ++ map (λ o. outputs_of o.items) outs.items) }
        ensures kept { OnOk result (events_of self.new ≡ events_of self.old ++ map event_of events.now) }
        ensures begun { OnErr result (AddsBeginning (events_of self.old) (events_of self.new) (map event_of events.now)) }
        ensures same { (self.new.group.schema ≡ self.old.group.schema) × (self.new.group.members ≡ self.old.group.members) }
        ensures ok { OnOk result (self.new.is_spent ≡ false) }
        ensures idle { events.now ≡ [] → IsOk result }
    {
        let mut outs = Vec::new(self.group.alloc);
        for event in events {
            outs.push(self.step(event)?)?;
        }
        Ok(outs)
    }

    /// Lets these events happen by `step`, each after the one before, and gives for each what comes of it: messages with their
    /// numbers, then the requests that were applied with what came of each; or a refusal, or an answer. A member that is down
    /// refuses what it is given and what it is asked with `NodeDown`. An event that cannot be gives nothing and changes nothing: at a
    /// member that is not there, of a message that was not sent, a start of a member that is up, a stop or a cut step of one that is
    /// down, or a cut step by a message to another.
    ///
    /// **What is given is explained** (`given`, `explained`). All that the calls of this world gave so far, from its first event on,
    /// is explained by one list of requests, and that goes on from a list which explains what was given before. Each outcome that a
    /// member told is that of its request in the list, and each answer is the answer in it. Each request in the list was submitted, by
    /// an event of its own that was not refused, and its text spells a transaction. What began after something was told or answered
    /// stands after it in the list. So writes are strictly serializable.
    ///
    /// Nothing is left out. Each question to a member is answered or refused. A member that tells of a request has told of each one
    /// before it, once and in order, since it was last stopped. One that answers has told of each request up to the instant that its
    /// answer names. One that told of an instant, or answered about it, puts no question about it off, unless it is stopped. What one
    /// member answers does not go back while it is up; one that was stopped and started may answer of an earlier instant than before.
    /// `laws::what_is_refused` has what contradicts all this, whatever the body does.
    ///
    /// Of messages nothing is explained. Nor is it said that a request which nobody tells of is ever decided.
    ///
    /// An answer has the columns of the table that was asked, in declared order. What the text of a request says is what it spells, as
    /// its statements are checked over the tables (`language`).
    ///
    /// **How the members do it.** The outputs are exactly those that the events have in the run after all that happened before
    /// (`gives`). All members agree about all that happened so far (`agree`): the State Machine Safety Property of "In Search of an
    /// Understandable Consensus Algorithm", and what it comes to for answers. What is decided is a list as above (`invented`,
    /// `ordered`).
    ///
    /// A question is closed up to the member's closed time: the last stamp that it has applied, or the
    /// greatest floor that it has sealed, whichever is greater. The answer is that in what it has applied.
    ///
    /// And it is never stuck (`serves`). If any majority of the members has room for two terms, two entries and two
    /// instants more, starts, timeouts, beats and deliveries among these members alone, so many at most,
    /// lead from where the group now is to where a request that can be read is decided, and all of them
    /// tell the same outcome. Each is an event that this call takes. That a message is ever delivered is
    /// nobody's promise.
    ///
    /// The one error is want of memory, never of a list of no events. The world is spent then: each
    /// later call gives it too, and changes nothing. Kept are the earlier events, and then those of
    /// these that were done, from the first on.
    pub fn run(&mut self, events: &[Event]) -> Result<Vec<Vec<Output>>, AllocError>
        ensures kept { OnOk result (events_of self.new ≡ events_of self.old ++ map event_of events.now) }
        ensures begun { OnErr result (AddsBeginning (events_of self.old) (events_of self.new) (map event_of events.now)) }
        ensures given { IfOk result (λ outs. given_of self.new ≡ given_of self.old ++ map (λ o. outputs_of o.items) outs.items) }
        ensures explained { IfOk result (λ outs. IsExplainedSo (language_in self.new) (members_in self.new) (events_of self.new) (given_of self.old ++ map (λ o. outputs_of o.items) outs.items)) }
        ensures columns { IfOk result (λ outs. EachShowsColumns (tables_in self.old) events.now outs.items) }
        ensures language { IsLanguage (tables_in self.new) (language_in self.new) }
        ensures tables { tables_in self.new ≡ tables_in self.old }
        ensures same { (language_in self.new ≡ language_in self.old) × (members_in self.new ≡ members_in self.old) }
        ensures ok { OnOk result ((self.old.is_spent ≡ false) × (self.new.is_spent ≡ false)) }
        ensures err { OnErr result (self.new.is_spent ≡ true) }
        ensures idle { self.old.is_spent ≡ false → events.now ≡ [] → IsOk result }
        ensures spent { self.old.is_spent ≡ true → IsErr result }
        ensures stays { self.old.is_spent ≡ true → self.new ≡ self.old }
        ensures gives { IfOk result (λ outs. GivesAll (language_in self.old) (members_in self.old) (world_in self.old) (map event_of events.now) (map (λ o. outputs_of o.items) outs.items)) }
        ensures agree { Agree (language_in self.new) (members_in self.new) (outset_of self.new) (events_of self.new) }
        ensures invented { WereSubmitted (events_of self.new) (decided (language_in self.new) (members_in self.new) (outset_of self.new) (events_of self.new)) }
        ensures ordered { IsDecidedInOrder (language_in self.new) (members_in self.new) (outset_of self.new) (events_of self.new) }
        ensures serves { CanServe (language_in self.new) (members_in self.new) (world_in self.new) }
    {
        believed::promises();
        believed::meanings();
        self.check_live()?;
        match self.run_all(events) {
            Ok(outs) => Ok(outs),
            Err(error) => {
                self.is_spent = true;
                Err(error)
            }
        }
    }

    /// What a member has stored: its term, its vote, its floor, and the length of its log. None for a
    /// member that is down or not there. An error exactly where the world is spent.
    pub fn durable(&mut self, member: Member) -> Result<Option<StoredState>, AllocError>
        ensures ok { IfOk result (λ found. found ≡ durable_in (member_of self.old member)) }
        ensures same { self.new ≡ self.old }
        ensures spent { IsErr result ↔ (self.old.is_spent ≡ true) }
    {
        self.check_live()?;
        Ok(self.group.durable(member))
    }

    /// The entry that a member has stored at an index of its log, counted from 1. None outside the
    /// log, and for a member that is down or not there.
    ///
    /// The one error is want of memory, never of a member that is down or not there. The world is
    /// spent then, and keeps its events.
    pub fn entry(&mut self, member: Member, index: usize) -> Result<Option<Entry>, AllocError>
        ensures found { IfOk result (λ found. found ≡ entry_in index (member_of self.old member)) }
        ensures down { self.old.is_spent ≡ false → if_up (member_of self.old member) ≡ None → IsOk result }
        ensures tables { tables_in self.new ≡ tables_in self.old }
        ensures kept { self.new.kept.items ≡ self.old.kept.items }
        ensures given { given_of self.new ≡ given_of self.old }
        ensures same { (language_in self.new ≡ language_in self.old) × (members_in self.new ≡ members_in self.old) }
        ensures ok { OnOk result ((self.old.is_spent ≡ false) × (self.new.is_spent ≡ false)) }
        ensures err { OnErr result (self.new.is_spent ≡ true) }
        ensures spent { self.old.is_spent ≡ true → IsErr result }
        ensures stays { self.old.is_spent ≡ true → self.new ≡ self.old }
    {
        self.check_live()?;
        self.is_spent = true;
        let entry = self.group.entry(member, index)?;
        self.is_spent = false;
        Ok(entry)
    }

    /// Up to which index of its log a member has applied. None for a member that is down or not
    /// there, and where the world is spent. Takes no memory.
    pub fn commit(&self, member: Member) -> Option<usize>
        ensures { result ≡ (if self.now.is_spent then None else commit_in (member_of self.now member)) }
    {
        if self.is_spent {
            return None;
        }
        self.group.commit(member)
    }
}
