//! A node as those see it who send to it.
ghost use Rattle.std.specs.Prelude.{◌≡◌, ◌+◌, ◌≤◌, ◌<◌, ◌^◌, ◌∷◌, [], ◌⊎◌, IfOk, IfErr, MatchResult, vec_len};
ghost use Rattle.nodes.specs.Sending.{IsUnsentRefusal};

use crate::berth::{Batch, Control, Ends, Order, Report, Rest, Sent, Start};
use crate::reports::Reports;
use fault::Refusal;
use flight::life::Packet;
use network::inboxes::{open_inbox, open_inbox_of_one};
use network::{Address, Inbox, Unsent};
use std::alloc::Global;
use std::sync::{Arc, Wait};
use view::View;

/// A packet that was not sent, and why.
#[derive(Debug, Drop)]
pub struct NotSent {
    pub refusal: Refusal,
    pub packet: Packet,
}

/// Packets of which none was sent, and why.
#[derive(Debug, Drop)]
pub struct NoneSent {
    pub refusal: Refusal,
    pub packets: Vec<Packet>,
}

/// What a life leaves that was ended. Each packet that it was sent is fed, given back or counted as lost.
#[derive(Drop)]
pub struct Stopped {
    /// How many packets it was sent.
    pub sent: u64,
    /// How many of them it fed.
    pub fed: u64,
    /// Those that it did not feed, in the order in which they were sent.
    pub unfed: Vec<Sent>,
    /// How many it did not feed and had no memory to give back.
    pub lost: u64,
    // What came of what it fed.
    reports: Arc<Reports>,
    ghost whole: { sent ≤ fed + vec_len unfed + lost },
}

/// A life that is ending.
#[derive(Drop)]
pub(crate) struct Leaving {
    sent: u64,
    ended: Inbox<Rest>,
    reports: Arc<Reports>,
}

// A node that runs: what it is sent and how many packets were sent to it, what comes of them, and what it leaves.
#[derive(Drop)]
struct Running {
    orders: Address<Order>,
    sent: u64,
    reports: Arc<Reports>,
    ended: Inbox<Rest>,
}

/// How a node's thread is told what to do, till the cluster ends; and the node, while it runs.
#[derive(Drop)]
pub(crate) struct Desk {
    control: Option<Address<Control>>,
    running: Option<Running>,
}

impl From<NotSent> for Refusal {
    ghost from_gives = { λ unsent refusal. refusal ≡ unsent.refusal };

    fn from(unsent: NotSent) -> Refusal {
        unsent.refusal
    }
}

impl Stopped {
    /// What came of the next packet that was fed and not asked for; none once nothing is left.
    pub fn report<R: Wait>(&self, rt: &R) -> Option<Report> {
        self.reports.next(rt)
    }
}

// What a life leaves of so many packets that it was sent.
fn settle(sent: u64, rest: Rest, reports: Arc<Reports>) -> Stopped
    ensures sent { result.sent ≡ sent }
    ensures fed { result.fed ≡ rest.fed }
{
    let Rest { fed, unfed } = rest;
    let kept = fed.saturating_add(unfed.len() as u64);
    let lost = sent.saturating_sub(kept);
    Stopped {
        sent,
        fed,
        unfed,
        lost,
        reports,
    }
}

impl Leaving {
    /// What the life leaves, for whose end it waits.
    pub(crate) fn finish<R: Wait>(self, rt: &R, alloc: Global) -> Stopped
        ensures sent { result.sent ≡ self.sent }
    {
        let Leaving {
            sent,
            ended,
            reports,
        } = self;
        let rest = match ended.next(rt) {
            Some(rest) => rest,
            None => Rest {
                fed: 0,
                unfed: Vec::new(alloc),
            },
        };
        settle(sent, rest, reports)
    }
}

impl Running {
    // Puts packets behind all that was sent before, and gives the number of the last. They come back where they are refused.
    fn send_all<R: Wait>(
        &mut self,
        rt: &R,
        alloc: Global,
        reading: i64,
        packets: Vec<Packet>,
    ) -> Result<u64, NoneSent>
        ensures counted { MatchResult result (λ number. (number ≡ self.old.sent + vec_len packets) × (self.new.sent ≡ number)) (λ e. self.new.sent ≡ self.old.sent) }
        ensures back { IfErr result (λ e. e.packets ≡ packets) }
        ensures refused { IfErr result (λ e. IsUnsentRefusal e.refusal) }
    {
        let Some(number) = self.sent.checked_add(packets.len() as u64) else {
            return Err(NoneSent {
                refusal: Refusal::LifeFull,
                packets,
            });
        };
        match send_batch(rt, alloc, &self.orders, self.sent, reading, packets) {
            Ok(()) => {
                self.sent = number;
                Ok(number)
            }
            Err(unsent) => Err(unsent),
        }
    }

    // Puts a packet behind all that was sent before. A packet that is refused comes back.
    fn send<R: Wait>(
        &mut self,
        rt: &R,
        alloc: Global,
        reading: i64,
        packet: Packet,
    ) -> Result<u64, NotSent>
        ensures counted { MatchResult result (λ number. (number ≡ self.old.sent + 1) × (self.new.sent ≡ number)) (λ e. self.new.sent ≡ self.old.sent) }
        ensures back { IfErr result (λ e. e.packet ≡ packet) }
        ensures refused { IfErr result (λ e. IsUnsentRefusal e.refusal) }
    {
        let mut packets = Vec::new(alloc);
        if let Err(failed) = packets.push(packet) {
            return Err(NotSent {
                refusal: Refusal::NoMemory,
                packet: failed.value,
            });
        }
        match self.send_all(rt, alloc, reading, packets) {
            Ok(number) => Ok(number),
            Err(unsent) => Err(only_one(unsent)),
        }
    }
}

// A single packet that was not sent.
fn only_one(unsent: NoneSent) -> NotSent
    requires { vec_len unsent.packets ≡ 1 }
    ensures packet { unsent.packets.items ≡ result.packet ∷ [] }
    ensures refusal { result.refusal ≡ unsent.refusal }
{
    let NoneSent {
        refusal,
        mut packets,
    } = unsent;
    match packets.pop() {
        Some(packet) => NotSent { refusal, packet },
        None => unreachable!(),
    }
}

// Puts packets into an inbox that follow so many, with room for what comes of them. They come back where they are refused.
fn send_batch<R: Wait>(
    rt: &R,
    alloc: Global,
    orders: &Address<Order>,
    before: u64,
    reading: i64,
    packets: Vec<Packet>,
) -> Result<(), NoneSent>
    requires { before + vec_len packets < 2 ^ 64 }
    ensures back { IfErr result (λ e. e.packets ≡ packets) }
    ensures refused { IfErr result (λ e. IsUnsentRefusal e.refusal) }
{
    let mut reports = Vec::new(alloc);
    if reports.reserve(packets.len()).is_err() {
        return Err(NoneSent {
            refusal: Refusal::NoMemory,
            packets,
        });
    }
    let batch = Batch {
        before,
        reading,
        packets,
        reports,
    };
    let (refusal, order) = match orders.send(rt, Order::Feed(batch)) {
        Ok(()) => return Ok(()),
        Err(Unsent::Closed(order)) => (Refusal::NodeDown, order),
        Err(Unsent::NoMemory(order)) => (Refusal::NoMemory, order),
    };
    match order {
        Order::Feed(batch) => Err(NoneSent {
            refusal,
            packets: batch.packets,
        }),
        Order::View(_reply) => unreachable!(),
    }
}

// Why a node was told nothing.
fn refusal_of<T: Drop>(unsent: Unsent<T>) -> Refusal {
    match unsent {
        Unsent::Closed(_) => Refusal::NodeDown,
        Unsent::NoMemory(_) => Refusal::NoMemory,
    }
}

impl Desk {
    /// Of a node that does not run, whose thread is told by this.
    pub(crate) fn new(control: Address<Control>) -> Desk {
        Desk {
            control: Some(control),
            running: None,
        }
    }

    /// Opens a life, unless one runs.
    pub(crate) fn start<R: Wait>(&mut self, rt: &R, alloc: Global) -> Result<(), Refusal> {
        if self.running.is_some() {
            return Ok(());
        }
        let Some(control) = &self.control else {
            return Err(Refusal::NodeDown);
        };
        let (orders, taken) = open_inbox::<Order>(alloc)?;
        let (given, reports) = open_inbox::<Vec<Report>>(alloc)?;
        let (answer, opened) = open_inbox_of_one::<Result<(), Refusal>>(alloc)?;
        let (rest, ended) = open_inbox_of_one::<Rest>(alloc)?;
        let reports = Arc::new(alloc, Reports::new(alloc, reports))?;
        let start = Start {
            opened: answer,
            ends: Ends {
                orders: taken,
                reports: given,
                ended: rest,
            },
        };
        control.send(rt, Control::Start(start)).map_err(refusal_of)?;
        match opened.next(rt) {
            Some(answer) => answer?,
            None => return Err(Refusal::NodeDown),
        }
        self.running = Some(Running {
            orders,
            sent: 0,
            reports,
            ended,
        });
        Ok(())
    }

    /// Puts a packet behind all that was sent to the life before, and gives its number. A packet that is refused comes back.
    pub(crate) fn send<R: Wait>(
        &mut self,
        rt: &R,
        alloc: Global,
        reading: i64,
        packet: Packet,
    ) -> Result<u64, NotSent>
        ensures number { IfOk result (λ number. 1 ≤ number) }
        ensures back { IfErr result (λ e. e.packet ≡ packet) }
        ensures refused { IfErr result (λ e. IsUnsentRefusal e.refusal) }
    {
        match &mut self.running {
            Some(running) => running.send(rt, alloc, reading, packet),
            None => Err(NotSent {
                refusal: Refusal::NodeDown,
                packet,
            }),
        }
    }

    /// Puts packets behind all that was sent to the life before, and gives the number of the last. They come back where they
    /// are refused.
    pub(crate) fn send_all<R: Wait>(
        &mut self,
        rt: &R,
        alloc: Global,
        reading: i64,
        packets: Vec<Packet>,
    ) -> Result<u64, NoneSent>
        ensures number { IfOk result (λ number. vec_len packets ≤ number) }
        ensures back { IfErr result (λ e. e.packets ≡ packets) }
        ensures refused { IfErr result (λ e. IsUnsentRefusal e.refusal) }
    {
        match &mut self.running {
            Some(running) => running.send_all(rt, alloc, reading, packets),
            None => Err(NoneSent {
                refusal: Refusal::NodeDown,
                packets,
            }),
        }
    }

    /// Where what comes of its packets is put. 41 where it does not run, 43.
    pub(crate) fn reports(&self) -> Result<Arc<Reports>, Refusal> {
        match &self.running {
            Some(running) => Ok(Arc::try_clone(&running.reports)?),
            None => Err(Refusal::NodeDown),
        }
    }

    /// Asks it for a view, behind all that was sent before, and gives where the view will come. 41 where it does not run, 43.
    pub(crate) fn ask_view<R: Wait>(
        &self,
        rt: &R,
        alloc: Global,
    ) -> Result<Inbox<Result<View, Refusal>>, Refusal> {
        let Some(running) = &self.running else {
            return Err(Refusal::NodeDown);
        };
        let (reply, answer) = open_inbox_of_one::<Result<View, Refusal>>(alloc)?;
        running
            .orders
            .send(rt, Order::View(reply))
            .map_err(refusal_of)?;
        Ok(answer)
    }

    /// Sends the life nothing more, and lets it end as stopped once it has done what it was sent. 41 where none runs.
    pub(crate) fn stop<R: Wait>(&mut self, rt: &R) -> Result<Leaving, Refusal> {
        let Some(control) = &self.control else {
            return Err(Refusal::NodeDown);
        };
        if self.running.is_none() {
            return Err(Refusal::NodeDown);
        }
        control.send(rt, Control::Stop).map_err(refusal_of)?;
        match self.running.take() {
            Some(running) => Ok(running.leave()),
            None => Err(Refusal::NodeDown),
        }
    }

    /// Lets the thread end: a life that runs ends as it is, once it has done what it was sent.
    pub(crate) fn close(&mut self) -> Option<Leaving> {
        self.control = None;
        let running = self.running.take()?;
        Some(running.leave())
    }
}

impl Running {
    // Sends it nothing more.
    fn leave(self) -> Leaving
        ensures sent { result.sent ≡ self.sent }
    {
        let Running {
            orders: _orders,
            sent,
            reports,
            ended,
        } = self;
        Leaving {
            sent,
            ended,
            reports,
        }
    }
}
