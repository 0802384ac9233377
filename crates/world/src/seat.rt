//! A member's place in a group.
ghost use Rattle.std.specs.Prelude.{◌≡◌, ◌≤◌, ℕ, None, Some, false, IfOk, IsOk, OnOk, if◌then◌else◌};
ghost use Rattle.answer.specs.Answers.{columns_in};
ghost use Rattle.model.specs.Worlds.{node_left, started, stopped};
ghost use Rattle.sqlchecks.specs.Columns.{Tables};
ghost use Rattle.sqlread.specs.Meaning.{language_of};
ghost use Rattle.sqlread.specs.Shapes.{query_of};
ghost use Rattle.world.specs.View.{commit_in, durable_in, entry_in, node_in, works_at, IsAskedAt, IsSeat, IsStep};

use crate::event::Left;
use answer::Answer;
use fault::Refusal;
use keep::memory::{MemImage, MemKeeper};
use model::entry::Entry;
use model::member::Member;
use node::Work;
use node::durable::StoredState;
use node::node::{Fault, Node, Out};
use node::recall::Recall;
use schema::Schema;
use sqlread::query::Query;
use std::alloc::{AllocError, Global};
use std::mem;

/// A member that is up, or what one that is down has stored, with what it recalls of what it had applied.
#[derive(Drop)]
pub(crate) enum Seat {
    Up(Node<MemKeeper>),
    Down(MemImage, Option<Recall>),
}

impl Seat {
    /// A step of the member: what it gives, or why it is refused. One that is down refuses all.
    pub(crate) fn step(&mut self, work: Work) -> Result<Result<Out, Refusal>, AllocError>
        ensures seat { OnOk result ((t : Tables) (n m : ℕ) → IsSeat t n m self.old → IsSeat t n m self.new) }
        ensures step { IfOk result (λ s. (t : Tables) (n m : ℕ) → IsSeat t n m self.old →
            IsStep (language_of t) m (node_in self.old) (node_in self.new) (works_at t n m work (node_in self.old)) s) }
    {
        match self {
            Seat::Up(node) => match node.step(work) {
                Ok(out) => Ok(Ok(out)),
                Err(Fault::Kept(refusal)) => Ok(Err(refusal)),
                Err(Fault::Down(_)) => Err(AllocError),
            },
            Seat::Down(_, _) => Ok(Err(Refusal::NodeDown)),
        }
    }

    /// Stops the member, so that what it has stored is all that is left. One that is down stays as it is.
    pub(crate) fn stop(&mut self, alloc: Global)
        ensures seat { (t : Tables) (n m : ℕ) → IsSeat t n m self.old → IsSeat t n m self.new }
        ensures node { (t : Tables) (n m : ℕ) → IsSeat t n m self.old → node_in self.new ≡ stopped (node_in self.old) }
    {
        match mem::replace(self, Seat::Down(MemImage::new(alloc), None)) {
            Seat::Up(member) => {
                let (image, recall) = member.rest();
                *self = Seat::Down(image, recall);
            }
            Seat::Down(image, recall) => *self = Seat::Down(image, recall),
        }
    }

    /// Puts the member down, with what this image holds stored.
    pub(crate) fn put_down(&mut self, image: MemImage)
        ensures { self.new ≡ Seat.Down image None }
    {
        drop(mem::replace(self, Seat::Down(image, None)));
    }

    /// Starts the member with what it has stored. One that is up stays as it is.
    pub(crate) fn start(
        &mut self,
        alloc: Global,
        schema: Schema,
        members: usize,
        me: Member,
    ) -> Result<(), AllocError>
        requires few { members ≤ 7 }
        requires first { 1 ≤ me }
        requires last { me ≤ members }
        requires seat { IsSeat schema members me self.old }
        ensures seat { OnOk result (IsSeat schema members me self.new) }
        ensures node { OnOk result (node_in self.new ≡ (if (node_in self.old).up then node_in self.old else started (node_in self.old))) }
    {
        match mem::replace(self, Seat::Down(MemImage::new(alloc), None)) {
            Seat::Up(node) => {
                *self = Seat::Up(node);
                Ok(())
            }
            Seat::Down(image, recall) => match Node::start_again(
                alloc, image, schema, members, me, recall,
            ) {
                Ok(node) => {
                    *self = Seat::Up(node);
                    Ok(())
                }
                Err(_) => Err(AllocError),
            },
        }
    }

    /// Cuts a step of the member short: what it has stored from before the step, or from after it, is
    /// all that is left. One that is down stays as it is.
    pub(crate) fn tear(&mut self, alloc: Global, work: Work, left: Left) -> Result<(), AllocError>
        ensures seat { OnOk result ((t : Tables) (n m : ℕ) → IsSeat t n m self.old → IsSeat t n m self.new) }
        ensures node { OnOk result ((t : Tables) (n m : ℕ) → IsSeat t n m self.old →
            node_in self.new ≡ stopped (node_left left (node_in self.old) (works_at t n m work (node_in self.old)))) }
    {
        match left {
            Left::Old => {
                self.stop(alloc);
                Ok(())
            }
            Left::New => {
                let _ = self.step(work)?;
                self.stop(alloc);
                Ok(())
            }
        }
    }

    /// What the member has stored, none where it is down.
    pub(crate) fn durable(&self) -> Option<StoredState>
        ensures { (t : Tables) (n m : ℕ) → IsSeat t n m self.now → result ≡ durable_in (Some (node_in self.now)) }
    {
        match self {
            Seat::Up(node) => node.durable().ok(),
            Seat::Down(_, _) => None,
        }
    }

    /// The entry that the member has stored at an index, none where it is down.
    pub(crate) fn entry(&mut self, index: usize) -> Result<Option<Entry>, AllocError>
        ensures found { IfOk result (λ found. (t : Tables) (n m : ℕ) → IsSeat t n m self.old → found ≡ entry_in index (Some (node_in self.old))) }
        ensures seat { OnOk result ((t : Tables) (n m : ℕ) → IsSeat t n m self.old → IsSeat t n m self.new) }
        ensures same { node_in self.new ≡ node_in self.old }
        ensures down { (node_in self.old).up ≡ false → IsOk result }
    {
        match self {
            Seat::Up(node) => match node.entry(index) {
                Ok(entry) => Ok(entry),
                Err(_) => Err(AllocError),
            },
            Seat::Down(_, _) => Ok(None),
        }
    }

    /// Up to which index the member has applied its log, none where it is down.
    pub(crate) fn commit(&self) -> Option<usize>
        ensures { (t : Tables) (n m : ℕ) → IsSeat t n m self.now → result ≡ commit_in (Some (node_in self.now)) }
    {
        match self {
            Seat::Up(node) => node.commit(),
            Seat::Down(_, _) => None,
        }
    }

    /// What the member answers at its closed time.
    pub(crate) fn ask(&self, query: &Query) -> Result<Answer, Refusal>
        ensures asked { (t : Tables) (n m : ℕ) → IsSeat t n m self.now → IsAskedAt (language_of t) (query_of query.now) (node_in self.now) (node_in self.now).up result }
        ensures columns { IfOk result (λ a. (t : Tables) (n m : ℕ) → IsSeat t n m self.now → a.columns.items ≡ columns_in t query.now.table) }
    {
        match self {
            Seat::Up(node) => node.ask(query),
            Seat::Down(_, _) => Err(Refusal::NodeDown),
        }
    }
}
