//! Three locked nodes that three threads feed, beside cells that take the same.
ghost use Rattle.std.specs.Prelude.{◌≡◌, ◌<◌, []};
ghost use Rattle.view.specs.Publishing.{book_of};
ghost use Rattle.view.specs.Viewing.{book_seen};
ghost use Rattle.flight.specs.Lives.{all_steps};

use crate::group::Group;
use crate::packets::timeout;
use crate::player::unlock;
use crate::seats::start_first;
use crate::setting::{Setting, prepare};
use answertext::Lines;
use cells::cell::{Cell, Out};
use cells::locked::{LockedNode, Naming};
use fault::Refusal;
use flight::life::{Life, Packet};
use keep::MemKeeper;
use node::Fault;
use sqlread::query::{Query, read_query};
use std::alloc::{AllocError, Global};
use std::marker::Brand;
use std::process::Abort;
use std::sync::ledger::{Blank, Share};
use std::sync::{Mutex, Wait};
use std::test::Fail;
use std::thread;
use std::thread::Threads;
use view::View;

const QUESTION: &str =
    "SELECT * FROM Dept FOR SYSTEM_TIME AS OF TIMESTAMP '1970-01-01 00:00:00.000100';";

// What is answered once the first entry is closed.
const FIRST_ANSWER: &str = "last 1970-01-01 00:00:00.000100\n\
    columns DNo,DStart,DEnd,DName,SysStart,SysEnd\nrows 0\n";

// A cell and a node that is to be locked, neither of which took anything, and what both are to take.
#[derive(Drop)]
struct Task {
    cell: Cell<MemKeeper>,
    node: Cell<MemKeeper>,
    packets: Vec<Packet>,
    ghost none: { all_steps node.life ≡ [] },
}

// The same packet.
fn copy(packet: &Packet) -> Result<Packet, AllocError> {
    match packet {
        Packet::Local(input) => Ok(Packet::Local(input.clone()?)),
        Packet::Delivered {
            mark,
            reading,
            message,
        } => Ok(Packet::Delivered {
            mark: *mark,
            reading: *reading,
            message: message.clone()?,
        }),
    }
}

// What came of a packet, as text.
fn text_of(rt: &impl Abort, alloc: Global, answer: &Result<Out, Fault>) -> String {
    format!(in alloc; "{answer:?}").expect(rt, "no text")
}

// Feeds a cell a packet while its clock shows 100. What came of it.
fn feed_cell(
    rt: &(impl Wait + Abort),
    alloc: Global,
    cell: &mut Cell<MemKeeper>,
    packet: Packet,
) -> String {
    let answer = cell.feed(rt, 100, packet);
    text_of(rt, alloc, &answer)
}

// The same of a node under its lock.
fn feed_node<L: Naming, R: Wait + Abort>(
    rt: &R,
    alloc: Global,
    node: &Mutex<LockedNode<MemKeeper, L>>,
    share: &mut Share<L>,
    packet: Packet,
) -> String
    requires { 0 < share.old.parts }
    ensures { share.new.parts ≡ share.old.parts }
{
    let answer = node.lock(rt).feed(rt, share, 100, packet);
    text_of(rt, alloc, &answer)
}

// A life as text.
fn life_text(rt: &impl Abort, alloc: Global, life: &Life) -> String {
    format!(in alloc; "{life:?}").expect(rt, "no text")
}

// Feeds both a packet: the same comes of it.
fn feed_both<L: Naming, R: Wait + Abort>(
    rt: &R,
    alloc: Global,
    cell: &mut Cell<MemKeeper>,
    node: &Mutex<LockedNode<MemKeeper, L>>,
    share: &mut Share<L>,
    packet: Packet,
)
    requires { 0 < share.old.parts }
    ensures { share.new.parts ≡ share.old.parts }
{
    let other = copy(&packet).expect(rt, "no memory");
    let own = feed_cell(rt, alloc, cell, packet);
    assert!(rt; own == feed_node(rt, alloc, node, share, other));
}

// Feeds both each packet.
fn feed_all<L: Naming, R: Wait + Abort>(
    rt: &R,
    alloc: Global,
    cell: &mut Cell<MemKeeper>,
    node: &Mutex<LockedNode<MemKeeper, L>>,
    share: &mut Share<L>,
    packets: Vec<Packet>,
)
    requires { 0 < share.old.parts }
    ensures { share.new.parts ≡ share.old.parts }
{
    for packet in packets {
        feed_both(rt, alloc, cell, node, share, packet);
    }
}

// Feeds a cell, and a node under a lock, the same. What is left of the node.
fn feed_locked<L: Naming, R: Wait + Abort>(
    rt: &R,
    alloc: Global,
    cell: &mut Cell<MemKeeper>,
    node: Cell<MemKeeper>,
    packets: Vec<Packet>,
    blank: Blank,
) -> Cell<MemKeeper>
    requires name { blank.name ≡ L.name }
    requires parts { (blank.parts ≡ L.parts) × (blank.parts ≡ 1) }
    requires cell { (book_of node.publisher ≡ L.history) × (all_steps node.life ≡ []) }
    ensures { book_of result.publisher ≡ L.history }
{
    let (book, mut share) = blank.open::<L>();
    let node = Mutex::new(LockedNode::new(node, book));
    feed_all(rt, alloc, cell, &node, &mut share, packets);
    unlock(rt, node.into_inner(), share)
}

// A view that is told of it answers from the first entry.
fn ask(rt: &impl Abort, alloc: Global, node: &Cell<MemKeeper>, view: &mut View, query: &Query)
    requires { book_seen view.old ≡ book_of node.now.publisher }
{
    assert!(rt; view.learn(&node.told()).is_ok());
    let marked = view.ask(query).expect(rt, "no answer");
    let text = format!(in alloc; "{}", Lines(&marked.answer)).expect(rt, "no text");
    assert_eq!(rt; text.as_str(), FIRST_ANSWER);
}

// Feeds both the same, and asks a view of the node.
fn feed_and_ask<L: Naming, R: Wait + Abort>(
    rt: &R,
    alloc: Global,
    query: &Query,
    cell: &mut Cell<MemKeeper>,
    node: Cell<MemKeeper>,
    view: &mut View,
    packets: Vec<Packet>,
    blank: Blank,
) -> Cell<MemKeeper>
    requires name { blank.name ≡ L.name }
    requires parts { (blank.parts ≡ L.parts) × (blank.parts ≡ 1) }
    requires cell { (book_of node.publisher ≡ L.history) × (all_steps node.life ≡ []) }
    requires view { book_seen view.old ≡ L.history }
{
    let node = feed_locked::<L, R>(rt, alloc, cell, node, packets, blank);
    ask(rt, alloc, &node, view, query);
    node
}

// Whether both lives are the same.
fn are_alike(
    rt: &(impl Abort + Wait),
    alloc: Global,
    cell: Cell<MemKeeper>,
    node: Cell<MemKeeper>,
) -> bool {
    let (_image, own) = cell.stop(rt);
    let (_image, locked) = node.stop(rt);
    life_text(rt, alloc, &own) == life_text(rt, alloc, &locked)
}

impl Task {
    // Whether both lives are the same.
    fn run(self, rt: &(impl Abort + Wait), alloc: Global, query: &Query) -> bool {
        let Task {
            mut cell,
            mut node,
            packets,
        } = self;
        let mut view = node.take_view().expect(rt, "no view");
        let node = feed_and_ask::<Brand, _>(
            rt,
            alloc,
            query,
            &mut cell,
            node,
            &mut view,
            packets,
            Blank::new(1),
        );
        are_alike(rt, alloc, cell, node)
    }
}

// What a node took in its life.
fn packets_of(alloc: Global, life: Life) -> Result<Vec<Packet>, AllocError> {
    let mut packets = Vec::new(alloc);
    for step in life.steps {
        packets.push(step.packet)?;
    }
    Ok(packets)
}

// What each of three took in an election and its first entry.
fn three_packets(rt: &(impl Abort + Wait), setting: &Setting) -> Result<Vec<Vec<Packet>>, Refusal> {
    let mut group = Group::start(rt, setting, None)?;
    group.send(rt, timeout())?;
    let mut all = Vec::new(setting.alloc);
    for life in group.stop(rt)? {
        all.push(packets_of(setting.alloc, life)?)?;
    }
    Ok(all)
}

// The tasks of three nodes.
fn three_tasks(rt: &(impl Abort + Wait), setting: &Setting) -> Result<Vec<Task>, Refusal> {
    let mut all = three_packets(rt, setting)?.into_iter();
    let mut tasks = Vec::new(setting.alloc);
    for me in 1..4 {
        let packets = all.next().expect(rt, "no packets");
        let task = Task {
            cell: start_first(rt, setting, me),
            node: start_first(rt, setting, me),
            packets,
        };
        tasks.push(task)?;
    }
    Ok(tasks)
}

// Each on a thread of its own.
fn run_all<R: Threads + Wait + Abort + Sync>(
    rt: &R,
    alloc: Global,
    query: &Query,
    tasks: Vec<Task>,
) -> Result<Vec<bool>, AllocError> {
    thread::map_vec(rt, tasks, &|task: Task| task.run(rt, alloc, query))
}

#[test]
fn locked_as_cell(rt: HostRuntime) -> Result<(), Fail> {
    let setting = prepare(rt.alloc())?;
    let query = read_query(setting.alloc, &setting.schema, QUESTION)?;
    let tasks = three_tasks(&rt, &setting)?;
    let done = run_all(&rt, setting.alloc, &query, tasks)?;
    assert!(rt; done.len() == 3 && done.iter().all(|is_same| *is_same));
    Ok(())
}
