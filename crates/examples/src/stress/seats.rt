//! The seven nodes, each under a lock of its own.
ghost use Rattle.std.specs.Prelude.{◌≡◌, ◌≤◌, [], IfOk};
ghost use Rattle.flight.specs.Lives.{all_steps};
ghost use Rattle.view.specs.Publishing.{book_of};

use crate::stress::asking::Asker;
use crate::stress::feeding::feed_by_four;
use crate::stress::mail::{Mail, NODES, Task};
use anyhow::{Result, ensure};
use network::Inbox;
use nodes::{Cell, Life, LockedNode, MemImage, MemKeeper, Member, Naming, Refusal, Schema, View};
use std::alloc::Global;
use std::marker::Brand;
use std::sync::ledger::{Blank, Share};
use std::sync::{Mutex, Wait};
use std::thread::Threads;

/// How many views there are: one of each node, and one more of the first one.
pub(crate) const VIEWS: usize = NODES + 1;

// A node that has recorded no step.
#[derive(Drop)]
struct NewNode {
    cell: Cell<MemKeeper>,
    ghost none: { all_steps cell.life ≡ [] },
}

/// A node, and where it takes what it is handed.
#[derive(Drop)]
pub(crate) struct Seat {
    node: NewNode,
    inbox: Inbox<Task>,
}

/// What is left of a node: its life, and how many steps all shares are together of the threads that fed it.
#[derive(Drop)]
pub(crate) struct Led {
    pub(crate) life: Life,
    pub(crate) shared: usize,
}

// A new life of a member of seven.
fn start<R: Wait>(rt: &R, alloc: Global, schema: &Schema, me: Member) -> Result<NewNode, Refusal>
    requires { (1 ≤ me) × (me ≤ 7) }
{
    match Cell::start(
        rt,
        alloc,
        MemImage::new(alloc),
        schema.clone()?,
        7,
        me,
        None,
    ) {
        Ok(cell) => Ok(NewNode { cell }),
        Err((refusal, _image)) => Err(refusal),
    }
}

impl NewNode {
    fn take_view(&mut self) -> Result<View, Refusal> {
        self.cell.take_view()
    }

    fn stop<R: Wait>(self, rt: &R) {
        let NewNode { cell } = self;
        let _ = cell.stop(rt);
    }
}

// Adds an asker of the node, which asks one of the questions.
fn add_asker(
    alloc: Global,
    schema: &Schema,
    node: &mut NewNode,
    me: Member,
    which: usize,
    askers: &mut Vec<Asker>,
) -> Result<(), Refusal> {
    let view = node.take_view()?;
    askers.push(Asker::new(alloc, schema, me, view, which)?)?;
    Ok(())
}

// Adds an asker of the node, and one more of the first one.
fn add_askers(
    alloc: Global,
    schema: &Schema,
    node: &mut NewNode,
    me: Member,
    askers: &mut Vec<Asker>,
) -> Result<(), Refusal> {
    if me == 1 {
        add_asker(alloc, schema, node, me, 0, askers)?;
    }
    add_asker(alloc, schema, node, me, me, askers)
}

// A node, and askers of it.
fn open_node<R: Wait>(
    rt: &R,
    alloc: Global,
    schema: &Schema,
    me: Member,
    askers: &mut Vec<Asker>,
) -> Result<NewNode, Refusal>
    requires { (1 ≤ me) × (me ≤ 7) }
{
    let mut node = start(rt, alloc, schema, me)?;
    match add_askers(alloc, schema, &mut node, me, askers) {
        Ok(()) => Ok(node),
        Err(refusal) => {
            node.stop(rt);
            Err(refusal)
        }
    }
}

/// All nodes with their inboxes, and an asker of each; of the first there are two.
pub(crate) fn seats_and_askers<R: Wait>(
    rt: &R,
    alloc: Global,
    schema: &Schema,
    inboxes: Vec<Inbox<Task>>,
) -> Result<(Vec<Seat>, Vec<Asker>)> {
    let mut seats = Vec::new(alloc);
    let mut askers = Vec::new(alloc);
    for (at, inbox) in inboxes.into_iter().enumerate() {
        ensure!(at < NODES, "too many inboxes");
        let node = open_node(rt, alloc, schema, at + 1, &mut askers)?;
        seats.push(Seat { node, inbox })?;
    }
    Ok((seats, askers))
}

// How many steps all shares are together, and the node's life.
fn finish<L: Naming, R: Wait>(rt: &R, mut node: LockedNode<MemKeeper, L>, mut all: Share<L>) -> Led
    requires { all.parts ≡ L.parts }
{
    let shared = node.all_recorded(&mut all);
    let (_image, life) = node.into_cell().stop(rt);
    Led { life, shared }
}

// Four threads feed a node what it is handed.
fn lead<L: Naming + Send + Sync, R: Threads + Wait + Sync>(
    rt: &R,
    mail: &Mail,
    inbox: &Inbox<Task>,
    cell: Cell<MemKeeper>,
    blank: Blank,
) -> Led
    requires name { blank.name ≡ L.name }
    requires parts { (blank.parts ≡ L.parts) × (blank.parts ≡ 4) }
    requires cell { (book_of cell.publisher ≡ L.history) × (all_steps cell.life ≡ []) }
{
    let (book, all) = blank.open::<L>();
    let node = Mutex::new(LockedNode::new(cell, book));
    let all = feed_by_four(rt, &node, inbox, mail, all);
    finish(rt, node.into_inner(), all)
}

impl Seat {
    /// Leads the node's life till there is no more to do.
    pub(crate) fn run<R: Threads + Wait + Sync>(self, rt: &R, mail: &Mail) -> Led {
        let Seat { node, inbox } = self;
        let NewNode { cell } = node;
        lead::<Brand, _>(rt, mail, &inbox, cell, Blank::new(4))
    }
}
