//! Inboxes, by which threads hand things to one another.
ghost use Rattle.std.specs.Prelude.{◌≡◌, IfErr};
ghost use Rattle.network.specs.Sending.{thing_in};

use crossbeam_channel::{Receiver, SendError, Sender, bounded, unbounded};
use std::alloc::{AllocError, Global};
use std::sync::Wait;

/// The end of an inbox at which things come out.
#[derive(Drop)]
pub struct Inbox<T: Drop> {
    things: Receiver<T, Global>,
}

/// The end of an inbox at which things are put in.
#[derive(Drop)]
pub struct Address<T: Drop> {
    inbox: Sender<T, Global>,
}

/// A thing that was not put in, and why.
#[derive(Debug, Drop)]
pub enum Unsent<T> {
    /// The other end is gone.
    Closed(T),
    NoMemory(T),
}

/// An inbox for any number of things. The error is want of memory.
pub fn open_inbox<T: Drop>(alloc: Global) -> Result<(Address<T>, Inbox<T>), AllocError> {
    let (inbox, things) = unbounded::<T, Global>(alloc)?;
    Ok((Address { inbox }, Inbox { things }))
}

/// An inbox with room for one thing, into which nothing is put for want of memory. The error is want of memory.
pub fn open_inbox_of_one<T: Drop>(alloc: Global) -> Result<(Address<T>, Inbox<T>), AllocError> {
    let (inbox, things) = bounded::<T, Global>(alloc, 1)?;
    Ok((Address { inbox }, Inbox { things }))
}

impl<T: Drop> Address<T> {
    /// Puts a thing in; it waits while there is no room. A thing that is refused comes back: `Closed` where the other end
    /// is gone, `NoMemory` where there is no memory for it.
    pub fn send<R: Wait>(&self, rt: &R, thing: T) -> Result<(), Unsent<T>>
        ensures back { IfErr result (λ unsent. thing_in unsent ≡ thing) }
    {
        match self.inbox.send(rt, thing) {
            Ok(()) => Ok(()),
            Err(SendError::Disconnected(thing)) => Err(Unsent::Closed(thing)),
            Err(SendError::OutOfMemory(thing)) => Err(Unsent::NoMemory(thing)),
        }
    }
}

impl<T: Drop> Inbox<T> {
    /// The next thing, for which it waits; none once nothing is left and the other end is gone.
    pub fn next<R: Wait>(&self, rt: &R) -> Option<T> {
        self.things.recv(rt).ok()
    }
}
