//! What runs on a node's thread.
ghost use Rattle.std.specs.Prelude.{◌≡◌, ◌≤◌, ◌+◌, ◌<◌, ◌^◌, [], IfOk, IfErr, map, vec_len};
ghost use Rattle.std.specs.List.{range_with_len};
ghost use Rattle.std.specs.Vec.{vec_capacity};
ghost use Rattle.sqlread.specs.Meaning.{language_of};
ghost use Rattle.node.specs.Member.{members_of, tables_of};

use crate::gate::{Gate, Point};
use cells::cell::{Cell, Out};
use fault::Refusal;
use flight::life::{Life, Packet};
use keep::keeper::Keeper;
use model::member::Member;
use network::{Address, Inbox, Unsent};
use node::Fault;
use schema::Schema;
use std::alloc::Global;
use std::sync::Wait;
use view::View;

/// A packet that was sent to a node, and what the node's clock shows as it is fed, if the packet bears no reading.
#[derive(Debug, Drop)]
pub struct Sent {
    /// How many packets were sent to this life of the node, up to it: from 1 on.
    pub number: u64,
    pub reading: i64,
    pub packet: Packet,
}

/// What comes of one feed.
#[derive(Debug, Drop)]
pub struct Report {
    /// The number of the packet that was fed.
    pub number: u64,
    pub outcome: Result<Out, Fault>,
}

/// Packets that were sent together, and room for what comes of them.
#[derive(Drop)]
pub(crate) struct Batch {
    /// How many packets were sent to this life of the node before.
    pub before: u64,
    pub reading: i64,
    pub packets: Vec<Packet>,
    pub reports: Vec<Report>,
    ghost numbered: { before + vec_len packets < 2 ^ 64 },
    ghost empty: { reports.items ≡ [] },
    ghost room: { vec_len packets ≤ vec_capacity reports },
}

/// What is sent to a node that runs.
#[derive(Drop)]
pub(crate) enum Order {
    Feed(Batch),
    View(Address<Result<View, Refusal>>),
}

/// What a life did with what it was sent: how many packets it fed, and those that it did not.
#[derive(Drop)]
pub(crate) struct Rest {
    pub fed: u64,
    pub unfed: Vec<Sent>,
}

/// What a life is sent, where what comes of it goes, and where what is left goes.
#[derive(Drop)]
pub(crate) struct Ends {
    pub orders: Inbox<Order>,
    pub reports: Address<Vec<Report>>,
    pub ended: Address<Rest>,
}

/// A life that is to open, and where it tells whether it did.
#[derive(Drop)]
pub(crate) struct Start {
    pub opened: Address<Result<(), Refusal>>,
    pub ends: Ends,
}

/// What a thread is told beside its node's orders.
#[derive(Drop)]
pub(crate) enum Control {
    Start(Start),
    /// The life is to end as stopped, once it has done what it was ordered.
    Stop,
}

/// Which node runs on a thread.
#[derive(Drop)]
pub(crate) struct Post {
    pub schema: Schema,
    pub members: usize,
    pub me: Member,
    ghost few: { members ≤ 7 },
    ghost member: { (1 ≤ me) × (me ≤ members) },
}

// Feeds the cell a packet.
fn feed<K: Keeper, G: Gate, R: Wait>(rt: &R, cell: &mut Cell<K>, sent: Sent, gate: &G) -> Report
    ensures number { result.number ≡ sent.number }
    ensures group { (tables_of cell.new.node ≡ tables_of cell.old.node) × (members_of cell.new.node ≡ members_of cell.old.node) }
{
    let me = cell.node.me();
    let Sent {
        number,
        reading,
        packet,
    } = sent;
    gate.pass(me, Point::Before);
    let outcome = cell.feed(rt, reading, packet);
    gate.pass(me, Point::After);
    Report { number, outcome }
}

// Feeds the cell packets in their order. A report of each, in that order.
fn feed_all<K: Keeper, G: Gate, R: Wait>(
    rt: &R,
    cell: &mut Cell<K>,
    batch: Batch,
    gate: &G,
) -> Vec<Report>
    ensures numbers { map (λ r. r.number) result.items ≡ range_with_len (batch.before + 1) (vec_len batch.packets) }
    ensures group { (tables_of cell.new.node ≡ tables_of cell.old.node) × (members_of cell.new.node ≡ members_of cell.old.node) }
{
    let Batch {
        before,
        reading,
        packets,
        mut reports,
    } = batch;
    let mut number = before;
    for packet in packets {
        number += 1;
        let sent = Sent {
            number,
            reading,
            packet,
        };
        let report = feed(rt, cell, sent, gate);
        reports.push_reserved(report);
    }
    reports
}

// Feeds the cell packets and tells what comes of them; whether there was memory for that.
fn feed_and_tell<K: Keeper, G: Gate, R: Wait>(
    rt: &R,
    cell: &mut Cell<K>,
    batch: Batch,
    reports: &Address<Vec<Report>>,
    gate: &G,
) -> bool
    ensures group { (tables_of cell.new.node ≡ tables_of cell.old.node) × (members_of cell.new.node ≡ members_of cell.old.node) }
{
    let list = feed_all(rt, cell, batch, gate);
    match reports.send(rt, list) {
        Ok(()) => true,
        Err(Unsent::Closed(_list)) => true,
        Err(Unsent::NoMemory(_list)) => false,
    }
}

// Feeds the cell what it is sent, till nothing is sent any more, or there is no memory for what comes of it. How many
// packets it fed.
fn serve<K: Keeper, G: Gate, R: Wait>(
    rt: &R,
    cell: &mut Cell<K>,
    orders: &Inbox<Order>,
    reports: &Address<Vec<Report>>,
    gate: &G,
) -> u64
    ensures group { (tables_of cell.new.node ≡ tables_of cell.old.node) × (members_of cell.new.node ≡ members_of cell.old.node) }
{
    let mut fed: u64 = 0;
    for _ in rt.forever() {
        match orders.next(rt) {
            Some(Order::Feed(batch)) => {
                fed = fed.saturating_add(batch.packets.len() as u64);
                if !feed_and_tell(rt, cell, batch, reports, gate) {
                    break;
                }
            }
            Some(Order::View(reply)) => {
                let _ = reply.send(rt, cell.take_view());
            }
            None => break,
        }
    }
    fed
}

// Adds packets that were not fed, each with its number, as far as there is memory.
fn take_back(unfed: &mut Vec<Sent>, batch: Batch) {
    let Batch {
        before,
        reading,
        packets,
        reports: _reports,
    } = batch;
    let mut number = before;
    for packet in packets {
        number = number.saturating_add(1);
        let _ = unfed.push(Sent {
            number,
            reading,
            packet,
        });
    }
}

// What is left in an inbox once nothing is put in any more, as far as there is memory. Views are given no more.
fn take_unfed<R: Wait>(rt: &R, alloc: Global, orders: &Inbox<Order>) -> Vec<Sent> {
    let mut unfed = Vec::new(alloc);
    for _ in rt.forever() {
        match orders.next(rt) {
            Some(Order::Feed(batch)) => take_back(&mut unfed, batch),
            Some(Order::View(_reply)) => {}
            None => break,
        }
    }
    unfed
}

// Opens a life, whose mark is above those of the lives before. The image comes back with each refusal.
fn open<K: Keeper, R: Wait>(
    rt: &R,
    alloc: Global,
    post: &Post,
    image: K::Image,
    lives: &[Life],
) -> Result<Cell<K>, (Refusal, K::Image)>
    requires suits { K.suits image post.now.members (language_of post.now.schema) }
    ensures group { IfOk result (λ c. (tables_of c.node ≡ post.now.schema) × (members_of c.node ≡ post.now.members)) }
    ensures suits { IfErr result (λ e. K.suits e.1 post.now.members (language_of post.now.schema)) }
{
    let last = lives.last().map(|life| life.last_mark());
    match post.schema.clone() {
        Ok(schema) => Cell::start(rt, alloc, image, schema, post.members, post.me, last),
        Err(_) => Err((Refusal::NoMemory, image)),
    }
}

// Ends a life: as stopped where that is told, else as it is.
fn end<K: Keeper, R: Wait>(rt: &R, cell: Cell<K>, control: &Inbox<Control>) -> (K::Image, Life)
    ensures { K.suits result.0 (members_of cell.node) (language_of (tables_of cell.node)) }
{
    match control.next(rt) {
        Some(_) => cell.stop(rt),
        None => cell.leave(rt),
    }
}

// Opens a life, and tells whether it opened. The image comes back where it did not.
fn begin<K: Keeper, R: Wait>(
    rt: &R,
    alloc: Global,
    post: &Post,
    image: K::Image,
    lives: &[Life],
    opened: &Address<Result<(), Refusal>>,
) -> Result<Cell<K>, K::Image>
    requires suits { K.suits image post.now.members (language_of post.now.schema) }
    ensures group { IfOk result (λ c. (tables_of c.node ≡ post.now.schema) × (members_of c.node ≡ post.now.members)) }
    ensures suits { IfErr result (λ back. K.suits back post.now.members (language_of post.now.schema)) }
{
    match open::<K, R>(rt, alloc, post, image, lives) {
        Ok(cell) => {
            let _ = opened.send(rt, Ok(()));
            Ok(cell)
        }
        Err((refusal, image)) => {
            let _ = opened.send(rt, Err(refusal));
            Err(image)
        }
    }
}

// Leads an open life to its end, and tells what is left of it.
fn carry<K: Keeper, G: Gate, R: Wait>(
    rt: &R,
    alloc: Global,
    mut cell: Cell<K>,
    ends: Ends,
    control: &Inbox<Control>,
    gate: &G,
) -> (K::Image, Life)
    ensures { K.suits result.0 (members_of cell.node) (language_of (tables_of cell.node)) }
{
    let Ends {
        orders,
        reports,
        ended,
    } = ends;
    let fed = serve(rt, &mut cell, &orders, &reports, gate);
    drop(reports);
    let unfed = take_unfed(rt, alloc, &orders);
    let (image, life) = end(rt, cell, control);
    let _ = ended.send(rt, Rest { fed, unfed });
    (image, life)
}

// Leads one life, if it opens, and gives the store back.
fn lead<K: Keeper, G: Gate, R: Wait>(
    rt: &R,
    alloc: Global,
    post: &Post,
    image: K::Image,
    start: Start,
    control: &Inbox<Control>,
    gate: &G,
    lives: &mut Vec<Life>,
) -> K::Image
    requires { K.suits image post.now.members (language_of post.now.schema) }
    ensures { K.suits result post.now.members (language_of post.now.schema) }
{
    let Start { opened, ends } = start;
    if lives.reserve(1).is_err() {
        let _ = opened.send(rt, Err(Refusal::NoMemory));
        return image;
    }
    match begin::<K, R>(rt, alloc, post, image, lives, &opened) {
        Ok(cell) => {
            let (image, life) = carry(rt, alloc, cell, ends, control, gate);
            lives.push_reserved(life);
            image
        }
        Err(image) => image,
    }
}

/// Leads one life after the other, as it is told to, and gives them all once it is told no more.
pub(crate) fn tend<K: Keeper, G: Gate, R: Wait>(
    rt: &R,
    alloc: Global,
    post: &Post,
    mut image: K::Image,
    control: &Inbox<Control>,
    gate: &G,
) -> Vec<Life>
where
    K::Image: Drop,
    requires { K.suits image post.now.members (language_of post.now.schema) }
{
    let mut lives = Vec::new(alloc);
    for _ in rt.forever() {
        let Some(Control::Start(start)) = control.next(rt) else {
            break;
        };
        image = lead::<K, G, R>(rt, alloc, post, image, start, control, gate, &mut lives);
    }
    lives
}
