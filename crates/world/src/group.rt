//! The members of a group, and every message that they sent.
ghost use Rattle.std.specs.Prelude.{◌≡◌, ◌+◌, ◌++◌, [], ◌<◌, ℕ, None, Some, true, false, length, map, vec_len, IfOk, IsOk, OnOk, MatchOption};
ghost use Rattle.std.specs.List.{All};
ghost use Rattle.model.specs.Lists.{nth};
ghost use Rattle.model.specs.Members.{Node as TheNode};
ghost use Rattle.model.specs.Worlds.{effect, happens, is_for, numbered, with_node, Gives, IsGivenAt};
ghost use Rattle.model.specs.Worlds.Event.{Deliver, Hand, Stop, Start, Torn};
ghost use Rattle.model.specs.Worlds.Output.{Applied as ModelApplied};
ghost use Rattle.keep.specs.Durable.{stored_in};
ghost use Rattle.keep.specs.Log.{IsLog};
ghost use Rattle.node.specs.View.{works};
ghost use Rattle.sqlchecks.specs.Columns.{Tables};
ghost use Rattle.sqlread.specs.Meaning.{language_of, select_of};
ghost use Rattle.sqlread.specs.Shapes.{query_of};
ghost use Rattle.world.specs.View.{at_rest, brings, brought, commit_in, durable_in, entry_in, event_of, if_up, outputs_of, world_of, HasColumns, IsGroup, ShowsColumns};

use crate::event::{Event, Job, Left};
use crate::output::{Output, announce, apply_all, refused, single};
use crate::seat::Seat;
use keep::memory::MemImage;
use model::entry::Entry;
use model::member::Member;
use model::message::{Input, Message};
use node::Work;
use node::durable::StoredState;
use node::node::Out;
use schema::Schema;
use sqlread::query::Query;
use std::alloc::{AllocError, Global};

/// All members, in order, and every message ever sent, in order.
#[derive(Drop)]
pub(crate) struct Group {
    pub alloc: Global,
    pub schema: Schema,
    pub members: usize,
    pub seats: Vec<Seat>,
    pub sent: Vec<Message>,
}

impl Group {
    /// The place of a member's seat, counted from 0, none where there is no such member.
    fn place(&self, member: Member) -> Option<usize>
        ensures { MatchOption result (nth self.now.seats.items member ≡ None) (λ place. (member ≡ place + 1) × (place < vec_len self.now.seats)) }
    {
        let Some(place) = member.checked_sub(1) else {
            return None;
        };
        if place >= self.seats.len() {
            return None;
        }
        Some(place)
    }

    /// Sends what a member sends in a step, and tells what it tells.
    fn publish(&mut self, member: Member, out: Out) -> Result<Vec<Output>, AllocError>
        ensures gives { IfOk result (λ outs. outputs_of outs.items ≡ numbered (length self.old.sent.items) out.messages.items ++ map (ModelApplied member) out.told.items) }
        ensures sent { OnOk result (self.new.sent.items ≡ self.old.sent.items ++ out.messages.items) }
        ensures same { self.new ≡ record self.old { sent = self.new.sent } }
    {
        let Out {
            mut messages,
            applied: _,
            told,
            sealed: _,
        } = out;
        let mut outs = announce(self.alloc, self.sent.len(), &messages)?;
        apply_all(&mut outs, member, told)?;
        self.sent.append(&mut messages)?;
        Ok(outs)
    }

    /// Brings work to a member. Where there is no such member nothing comes of it.
    fn bring(&mut self, member: Member, work: Work) -> Result<Vec<Output>, AllocError>
        requires group { IsGroup self.old.schema self.old.members self.old.seats.items }
        ensures group { OnOk result (IsGroup self.old.schema self.old.members self.new.seats.items) }
        ensures world { OnOk result (world_of self.new ≡ brings self.old.schema self.old.members (world_of self.old) member work (nth (world_of self.old).nodes member)) }
        ensures gives { IfOk result (λ outs. outputs_of outs.items ≡ brought self.old.schema self.old.members (world_of self.old) member work (nth (world_of self.old).nodes member)) }
        ensures same { (self.new.schema ≡ self.old.schema) × (self.new.members ≡ self.old.members) }
    {
        let Some(place) = self.place(member) else {
            return Ok(Vec::new(self.alloc));
        };
        match self.seats[place].step(work)? {
            Ok(out) => self.publish(member, out),
            Err(refusal) => single(self.alloc, Output::Refused(member, refusal)),
        }
    }

    /// Hands an input to a member.
    fn hand(&mut self, member: Member, input: &Input) -> Result<Vec<Output>, AllocError>
        requires group { IsGroup self.old.schema self.old.members self.old.seats.items }
        ensures group { OnOk result (IsGroup self.old.schema self.old.members self.new.seats.items) }
        ensures world { OnOk result (world_of self.new ≡ happens (language_of self.old.schema) self.old.members (world_of self.old) (Hand member input.now)) }
        ensures gives { IfOk result (λ outs. Gives (language_of self.old.schema) self.old.members (world_of self.old) (Hand member input.now) (outputs_of outs.items)) }
        ensures same { (self.new.schema ≡ self.old.schema) × (self.new.members ≡ self.old.members) }
    {
        self.bring(member, Work::Local(input.clone()?))
    }

    /// The message that was sent as this one, counted from 1.
    pub(crate) fn sent_as(&self, number: usize) -> Option<&Message>
        ensures { MatchOption result (nth self.now.sent.items number ≡ None) (λ message. nth self.now.sent.items number ≡ Some message.now) }
    {
        self.sent.get(number.checked_sub(1)?)
    }

    /// A copy of it.
    fn message(&self, number: usize) -> Result<Option<Message>, AllocError>
        ensures { IfOk result (λ m. m ≡ nth self.now.sent.items number) }
    {
        match self.sent_as(number) {
            Some(message) => Ok(Some(message.clone()?)),
            None => Ok(None),
        }
    }

    /// Brings a message to the member that it is addressed to. Nothing comes of a number that no message has.
    fn deliver(&mut self, number: usize, reading: i64) -> Result<Vec<Output>, AllocError>
        requires group { IsGroup self.old.schema self.old.members self.old.seats.items }
        ensures group { OnOk result (IsGroup self.old.schema self.old.members self.new.seats.items) }
        ensures world { OnOk result (world_of self.new ≡ happens (language_of self.old.schema) self.old.members (world_of self.old) (Deliver number reading)) }
        ensures gives { IfOk result (λ outs. Gives (language_of self.old.schema) self.old.members (world_of self.old) (Deliver number reading) (outputs_of outs.items)) }
        ensures same { (self.new.schema ≡ self.old.schema) × (self.new.members ≡ self.old.members) }
    {
        match self.message(number)? {
            Some(message) => self.bring(message.addressee, Work::Delivered { reading, message }),
            None => Ok(Vec::new(self.alloc)),
        }
    }

    /// Stops a member. Nothing comes of one that is down or not there.
    fn stop(&mut self, member: Member)
        requires group { IsGroup self.old.schema self.old.members self.old.seats.items }
        ensures group { IsGroup self.old.schema self.old.members self.new.seats.items }
        ensures world { world_of self.new ≡ happens (language_of self.old.schema) self.old.members (world_of self.old) (Stop member) }
        ensures same { self.new ≡ record self.old { seats = self.new.seats } }
    {
        let Some(place) = self.place(member) else {
            return;
        };
        self.seats[place].stop(self.alloc);
    }

    /// Puts a member down, with what this image holds stored. Nothing comes of one that is not there.
    pub(crate) fn store(&mut self, member: Member, image: MemImage)
        requires group { IsGroup self.old.schema self.old.members self.old.seats.items }
        requires forms { IsLog self.old.members (language_of self.old.schema) (stored_in image) }
        ensures group { IsGroup self.old.schema self.old.members self.new.seats.items }
        ensures world { world_of self.new ≡ with_node (world_of self.old) member (at_rest (stored_in image)) [] }
        ensures same { self.new ≡ record self.old { seats = self.new.seats } }
    {
        let Some(place) = self.place(member) else {
            return;
        };
        self.seats[place].put_down(image);
    }

    /// Starts a member. Nothing comes of one that is up or not there.
    fn start(&mut self, member: Member) -> Result<(), AllocError>
        requires group { IsGroup self.old.schema self.old.members self.old.seats.items }
        ensures group { OnOk result (IsGroup self.old.schema self.old.members self.new.seats.items) }
        ensures world { OnOk result (world_of self.new ≡ happens (language_of self.old.schema) self.old.members (world_of self.old) (Start member)) }
        ensures same { self.new ≡ record self.old { seats = self.new.seats } }
    {
        let Some(place) = self.place(member) else {
            return Ok(());
        };
        let schema = self.schema.clone()?;
        self.seats[place].start(self.alloc, schema, self.members, member)
    }

    /// The work that this is to a member, none where it is a message that was not sent to it.
    fn work_for(&self, member: Member, job: &Job) -> Result<Option<Work>, AllocError>
        ensures { IfOk result (λ found. MatchOption found (is_for (world_of self.now) member job.now ≡ false)
            (λ work. (is_for (world_of self.now) member job.now ≡ true)
            × ((t : Tables) (n : ℕ) (x : TheNode) → works t n member work x ≡ effect (language_of t) n (world_of self.now) member job.now x))) }
    {
        match job {
            Job::Local(input) => Ok(Some(Work::Local(input.clone()?))),
            Job::Delivery { message, reading } => match self.message(*message)? {
                Some(message) => {
                    if message.addressee != member {
                        return Ok(None);
                    }
                    Ok(Some(Work::Delivered {
                        reading: *reading,
                        message,
                    }))
                }
                None => Ok(None),
            },
        }
    }

    /// Cuts a step of a member short. Nothing comes of it where the member is down or not there, or
    /// where no such message was sent to it.
    pub(crate) fn tear(&mut self, member: Member, job: &Job, left: Left) -> Result<(), AllocError>
        requires group { IsGroup self.old.schema self.old.members self.old.seats.items }
        ensures group { OnOk result (IsGroup self.old.schema self.old.members self.new.seats.items) }
        ensures world { OnOk result (world_of self.new ≡ happens (language_of self.old.schema) self.old.members (world_of self.old) (Torn member job.now left)) }
        ensures same { self.new ≡ record self.old { seats = self.new.seats } }
    {
        let Some(place) = self.place(member) else {
            return Ok(());
        };
        match self.work_for(member, job)? {
            Some(work) => self.seats[place].tear(self.alloc, work, left),
            None => Ok(()),
        }
    }

    /// What a member answers. Where there is no such member nothing comes of it.
    fn ask(&self, member: Member, query: &Query) -> Result<Vec<Output>, AllocError>
        requires group { IsGroup self.now.schema self.now.members self.now.seats.items }
        ensures given { IfOk result (λ outs. IsGivenAt (language_of self.now.schema) member (select_of (query_of query.now)) (nth (world_of self.now).nodes member) (outputs_of outs.items)) }
        ensures columns { IfOk result (λ outs. All (HasColumns self.now.schema query.now.table) outs.items) }
    {
        let Some(place) = self.place(member) else {
            return Ok(Vec::new(self.alloc));
        };
        match self.seats[place].ask(query) {
            Ok(answer) => single(self.alloc, Output::Answered(member, answer)),
            Err(refusal) => refused(self.alloc, member, refusal),
        }
    }

    /// What comes of an event. One that cannot be changes nothing.
    pub(crate) fn happen(&mut self, event: &Event) -> Result<Vec<Output>, AllocError>
        requires group { IsGroup self.old.schema self.old.members self.old.seats.items }
        ensures group { OnOk result (IsGroup self.old.schema self.old.members self.new.seats.items) }
        ensures world { OnOk result (world_of self.new ≡ happens (language_of self.old.schema) self.old.members (world_of self.old) (event_of event.now)) }
        ensures gives { IfOk result (λ outs. Gives (language_of self.old.schema) self.old.members (world_of self.old) (event_of event.now) (outputs_of outs.items)) }
        ensures columns { IfOk result (λ outs. ShowsColumns self.old.schema event.now outs.items) }
        ensures same { (self.new.schema ≡ self.old.schema) × (self.new.members ≡ self.old.members) }
    {
        match event {
            Event::Hand(member, input) => self.hand(*member, input),
            Event::Deliver { message, reading } => self.deliver(*message, *reading),
            Event::Stop(member) => {
                self.stop(*member);
                Ok(Vec::new(self.alloc))
            }
            Event::Start(member) => {
                self.start(*member)?;
                Ok(Vec::new(self.alloc))
            }
            Event::Torn(member, job, left) => {
                self.tear(*member, job, *left)?;
                Ok(Vec::new(self.alloc))
            }
            Event::Ask(member, query) => self.ask(*member, query),
        }
    }

    /// What a member has stored, none where it is down or not there.
    pub(crate) fn durable(&self, member: Member) -> Option<StoredState>
        requires { IsGroup self.now.schema self.now.members self.now.seats.items }
        ensures { result ≡ durable_in (nth (world_of self.now).nodes member) }
    {
        let Some(place) = self.place(member) else {
            return None;
        };
        self.seats[place].durable()
    }

    /// The entry that a member has stored at an index, none where it is down or not there.
    pub(crate) fn entry(
        &mut self,
        member: Member,
        index: usize,
    ) -> Result<Option<Entry>, AllocError>
        requires group { IsGroup self.old.schema self.old.members self.old.seats.items }
        ensures found { IfOk result (λ found. found ≡ entry_in index (nth (world_of self.old).nodes member)) }
        ensures group { OnOk result (IsGroup self.old.schema self.old.members self.new.seats.items) }
        ensures down { if_up (nth (world_of self.old).nodes member) ≡ None → IsOk result }
        ensures world { world_of self.new ≡ world_of self.old }
        ensures same { (self.new.schema ≡ self.old.schema) × (self.new.members ≡ self.old.members) }
    {
        let Some(place) = self.place(member) else {
            return Ok(None);
        };
        self.seats[place].entry(index)
    }

    /// Up to which index a member has applied its log, none where it is down or not there.
    pub(crate) fn commit(&self, member: Member) -> Option<usize>
        requires { IsGroup self.now.schema self.now.members self.now.seats.items }
        ensures { result ≡ commit_in (nth (world_of self.now).nodes member) }
    {
        let Some(place) = self.place(member) else {
            return None;
        };
        self.seats[place].commit()
    }
}
