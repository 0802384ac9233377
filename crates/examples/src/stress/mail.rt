//! What goes between the nodes, in bad weather.
ghost use Rattle.std.specs.Prelude.{◌≡◌};

use network::inboxes::open_inbox;
use network::{Address, Fate, Inbox, Unsent, Weather};
use nodes::{Mark, Message, Packet};
use std::alloc::{AllocError, Global};
use std::sync::atomic::{AtomicU64, Ordering};
use std::sync::{Mutex, Wait};

/// How many nodes there are.
pub(crate) const NODES: usize = 7;

/// How many threads feed each of them.
pub(crate) const FEEDERS: usize = 4;

// How many messages of a hundred are lost.
const LOSS: u8 = 10;

/// What one of the threads is handed that feed a node.
#[derive(Drop)]
pub(crate) enum Task {
    Feed(Packet),
    /// It has no more to do.
    End,
}

/// Where each node is handed its tasks, the weather between the nodes, and the clock that they share.
#[derive(Drop)]
pub(crate) struct Mail {
    doors: Vec<Address<Task>>,
    weather: Mutex<Weather>,
    clock: AtomicU64,
}

// Opens one more door, and gives where its tasks are taken.
fn open_door(alloc: Global, doors: &mut Vec<Address<Task>>) -> Result<Inbox<Task>, AllocError> {
    let (door, inbox) = open_inbox::<Task>(alloc)?;
    doors.push(door)?;
    Ok(inbox)
}

/// The mail of all nodes, and where each of them takes its tasks.
pub(crate) fn open_mail(alloc: Global, seed: u64) -> Result<(Mail, Vec<Inbox<Task>>), AllocError> {
    let mut doors = Vec::new(alloc);
    let mut inboxes = Vec::new(alloc);
    for _ in 0..NODES {
        inboxes.push(open_door(alloc, &mut doors)?)?;
    }
    let mail = Mail {
        doors,
        weather: Mutex::new(Weather::new(seed, LOSS)),
        clock: AtomicU64::new(1),
    };
    Ok((mail, inboxes))
}

// Lets one of the threads of a node end.
fn end_one<R: Wait>(rt: &R, door: &Address<Task>) {
    for _ in rt.forever() {
        match door.send(rt, Task::End) {
            Ok(()) => break,
            Err(Unsent::Closed(_task)) => break,
            // One that is not told would wait for ever.
            Err(Unsent::NoMemory(_task)) => {}
        }
    }
}

// Lets each of them end.
fn end<R: Wait>(rt: &R, door: &Address<Task>) {
    for _ in 0..FEEDERS {
        end_one(rt, door);
    }
}

impl Mail {
    /// What the clock shows, in microseconds: more each time that it is read.
    pub(crate) fn reading(&self) -> i64 {
        let reading = self.clock.fetch_add(1, Ordering::SeqCst);
        i64::try_from(reading).unwrap_or(0)
    }

    /// Hands the node at this place a packet. One that can't be handed over is lost.
    pub(crate) fn hand<R: Wait>(&self, rt: &R, at: usize, packet: Packet) {
        if let Some(door) = self.doors.get(at) {
            let _ = door.send(rt, Task::Feed(packet));
        }
    }

    /// Lets each of the threads end that feed a node, once it has done what was handed over before.
    pub(crate) fn end_all<R: Wait>(&self, rt: &R) {
        for door in &self.doors {
            end(rt, door);
        }
    }

    // How often a message comes.
    fn times<R: Wait>(&self, rt: &R) -> u8 {
        let fate = self.weather.lock(rt).fate();
        match fate {
            Fate::Lost => 0,
            Fate::Once | Fate::Later(_) => 1,
            Fate::Twice => 2,
        }
    }

    // A copy of a message of a step of this mark.
    fn copy(&self, mark: Mark, message: &Message) -> Result<Packet, AllocError> {
        Ok(Packet::Delivered {
            mark,
            reading: self.reading(),
            message: message.clone()?,
        })
    }

    /// Sends a message of a step of this mark, as often as the weather says. One that there is no memory for is lost.
    pub(crate) fn send<R: Wait>(&self, rt: &R, mark: Mark, message: &Message) {
        for _ in 0..self.times(rt) {
            if let Ok(packet) = self.copy(mark, message) {
                self.hand(rt, message.addressee.saturating_sub(1), packet);
            }
        }
    }
}
