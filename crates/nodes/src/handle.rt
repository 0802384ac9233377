//! The calls of a cluster, from any thread.
ghost use Rattle.std.specs.Prelude.{◌≡◌, ◌≤◌, IfOk, IfErr, vec_len};
ghost use Rattle.nodes.specs.Sending.{IsUnsentRefusal};

use crate::berth::Report;
use crate::desk::{Desk, NoneSent, NotSent, Stopped};
use fault::Refusal;
use flight::life::{Life, Packet};
use model::member::Member;
use std::alloc::{AllocError, Global};
use std::sync::{Arc, Mutex, Wait};
use std::thread::{JoinHandle, Threads};
use view::View;

/// What a cluster's nodes are sent by, and told by what came of it: threads share it, or have one each (`try_clone`). Once
/// the cluster has ended each call is refused 41.
///
/// Calls of one node take effect one after another: each packet stands behind all whose `send` returned before, and numbers
/// count up in that order.
#[derive(Drop)]
pub struct ClusterHandle {
    alloc: Global,
    desks: Arc<Vec<Mutex<Desk>>>,
}

impl ClusterHandle {
    pub(crate) fn new(alloc: Global, desks: Vec<Mutex<Desk>>) -> Result<ClusterHandle, AllocError> {
        let desks = Arc::new(alloc, desks)?;
        Ok(ClusterHandle { alloc, desks })
    }

    /// One more handle of the cluster. The error is want of memory.
    pub fn try_clone(&self) -> Result<ClusterHandle, AllocError> {
        let desks = Arc::try_clone(&self.desks)?;
        Ok(ClusterHandle {
            alloc: self.alloc,
            desks,
        })
    }

    // The desk of a node, if there is such a node.
    fn desk(&self, node: Member) -> Option<&Mutex<Desk>> {
        self.desks.get(node.checked_sub(1)?)
    }

    /// Ends the thread of the node at this place, once it has done what it was sent. Its lives, and what the last one leaves.
    pub(crate) fn end_one<R: Threads + Wait>(
        &self,
        rt: &R,
        at: usize,
        thread: JoinHandle<Vec<Life>>,
    ) -> (Vec<Life>, Option<Stopped>) {
        let leaving = match self.desks.get(at) {
            Some(desk) => desk.lock(rt).close(),
            None => None,
        };
        let lives = thread.join(rt);
        match leaving {
            Some(leaving) => (lives, Some(leaving.finish(rt, self.alloc))),
            None => (lives, None),
        }
    }

    /// Sends a packet to a node, behind all that was sent to it before, and gives its number: how many were sent to this life
    /// of the node up to it. `reading` is what the node's clock shows, which is recorded of a packet that bears no reading
    /// itself. The packet comes back with each refusal: 41 where the node does not run, 43 where there is no memory, 42 where
    /// no number of 64 bits is left.
    pub fn send<R: Wait>(
        &self,
        rt: &R,
        node: Member,
        reading: i64,
        packet: Packet,
    ) -> Result<u64, NotSent>
        ensures number { IfOk result (λ number. 1 ≤ number) }
        ensures back { IfErr result (λ e. e.packet ≡ packet) }
        ensures refused { IfErr result (λ e. IsUnsentRefusal e.refusal) }
    {
        match self.desk(node) {
            Some(desk) => desk.lock(rt).send(rt, self.alloc, reading, packet),
            None => Err(NotSent {
                refusal: Refusal::NodeDown,
                packet,
            }),
        }
    }

    /// Sends packets to a node together, in their order, as `send` does each: with this reading, in one call of its thread. It
    /// gives the number of the last one. All of them come back with each refusal, which are those of `send`.
    pub fn send_all<R: Wait>(
        &self,
        rt: &R,
        node: Member,
        reading: i64,
        packets: Vec<Packet>,
    ) -> Result<u64, NoneSent>
        ensures number { IfOk result (λ number. vec_len packets ≤ number) }
        ensures back { IfErr result (λ e. e.packets ≡ packets) }
        ensures refused { IfErr result (λ e. IsUnsentRefusal e.refusal) }
    {
        match self.desk(node) {
            Some(desk) => desk.lock(rt).send_all(rt, self.alloc, reading, packets),
            None => Err(NoneSent {
                refusal: Refusal::NodeDown,
                packets,
            }),
        }
    }

    /// What came of the next feed of a node, for which it waits. Where several threads wait, each report goes to one of
    /// them. 41 where the node does not run, and where it ended meanwhile; 43.
    pub fn report<R: Wait>(&self, rt: &R, node: Member) -> Result<Report, Refusal> {
        let Some(desk) = self.desk(node) else {
            return Err(Refusal::NodeDown);
        };
        let reports = desk.lock(rt).reports()?;
        reports.next(rt).ok_or(Refusal::NodeDown)
    }

    /// What came of the next packets that were sent to a node together, for which it waits: a report of each, in their order,
    /// but for those that `report` gave. It is refused as `report` is.
    pub fn reports<R: Wait>(&self, rt: &R, node: Member) -> Result<Vec<Report>, Refusal> {
        let Some(desk) = self.desk(node) else {
            return Err(Refusal::NodeDown);
        };
        let reports = desk.lock(rt).reports()?;
        reports.next_list(rt).ok_or(Refusal::NodeDown)
    }

    /// `Cell::take_view` of a node, once it has done what it was sent before: so the view has seen what that published. 41
    /// where the node does not run, 43, 45.
    pub fn view<R: Wait>(&self, rt: &R, node: Member) -> Result<View, Refusal> {
        let Some(desk) = self.desk(node) else {
            return Err(Refusal::NodeDown);
        };
        let answer = desk.lock(rt).ask_view(rt, self.alloc)?;
        match answer.next(rt) {
            Some(view) => view,
            None => Err(Refusal::NodeDown),
        }
    }

    /// Stops a node once it has done what it was sent, and gives what is left of that. 41 where it does not run.
    pub fn stop_node<R: Wait>(&self, rt: &R, node: Member) -> Result<Stopped, Refusal> {
        let Some(desk) = self.desk(node) else {
            return Err(Refusal::NodeDown);
        };
        let leaving = desk.lock(rt).stop(rt)?;
        Ok(leaving.finish(rt, self.alloc))
    }

    /// Starts a node again: a new life over the store that it left. 40, 42, 43 or 44 where it does not start; 41 where there
    /// is no such node. Nothing changes where it runs, or does not start.
    pub fn start_node<R: Wait>(&self, rt: &R, node: Member) -> Result<(), Refusal> {
        let Some(desk) = self.desk(node) else {
            return Err(Refusal::NodeDown);
        };
        desk.lock(rt).start(rt, self.alloc)
    }
}
