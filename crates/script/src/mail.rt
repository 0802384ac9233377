//! The messages that a group sent, and what became of them.
ghost use Rattle.std.specs.Prelude.{◌≡◌, ◌++◌, ◌∷◌, [], ◌+◌, ◌^◌, ◌<◌, ◌≤◌, List, suc, map, length, slice_get, IfSome, IfNone, IfOk, OnOk, None, Some};
ghost use Rattle.model.specs.Lists.{nth};
ghost use Rattle.script.specs.declared.sent.Sent.{Sent as Message};
ghost use Rattle.script.specs.Mail.{newly_sent, as_delivered, as_lost, changed, lost_first, messages_in, is_left, NoneLeft};

use crate::sent::Sent;
use std::alloc::{AllocError, Global};
use std::marker::Model;
use world::output::Output;

/// All messages that were sent, in their order, which contracts see with what became of each.
#[derive(Drop)]
pub(crate) struct Mail {
    sent: Vec<Sent>,
    // How many of the first messages were lost all at once.
    all_lost: usize,
    // So many of the first messages are not left.
    settled: usize,
}

impl Model for Mail {
    ghost Value = { List Message };

    ghost view = { λ mail. lost_first mail.all_lost mail.sent.items };

    ghost invariant = { λ mail. (mail.all_lost ≤ length mail.sent.items) × NoneLeft mail.settled (lost_first mail.all_lost mail.sent.items) };
}

impl Mail {
    pub(crate) fn new(alloc: Global) -> Mail
        ensures { result ≡ [] }
    {
        Mail {
            sent: Vec::new(alloc),
            all_lost: 0,
            settled: 0,
        }
    }

    pub(crate) fn len(&self) -> usize
        ensures { result ≡ length self.now }
    {
        self.sent.len()
    }

    // The place of the message of this number, if it was sent.
    pub(crate) fn place_of(&self, number: u64) -> Option<usize>
        ensures some { IfSome result (λ place. (suc place ≡ number) × (place < length self.now)) }
        ensures none { IfNone result (nth self.now number ≡ None) }
    {
        if number < 1 || number > self.sent.len() as u64 {
            return None;
        }
        Some(number as usize - 1)
    }

    // The message at this place, whose number fits.
    pub(crate) fn message_at(&self, place: usize) -> Sent
        requires { place < length self.now }
        ensures message { slice_get self.now place ≡ Some result }
        ensures number { place + 1 < 2 ^ 64 }
    {
        let mut message = self.sent[place];
        if place < self.all_lost {
            message.is_lost = true;
        }
        message
    }

    // Whether the message at this place was never delivered, and is not lost.
    pub(crate) fn is_left(&self, place: usize) -> bool
        requires { place < length self.now }
        ensures { (message : Message) × (slice_get self.now place ≡ Some message) × (result ≡ is_left message) }
    {
        let message = self.message_at(place);
        !message.is_delivered && !message.is_lost
    }

    // Counts the message at this place as delivered.
    pub(crate) fn deliver(&mut self, place: usize)
        requires { place < length self.old }
        ensures { self.new ≡ changed as_delivered self.old (suc place) }
    {
        self.sent[place].is_delivered = true;
    }

    // The message at this place is lost.
    pub(crate) fn lose(&mut self, place: usize)
        requires { place < length self.old }
        ensures { self.new ≡ changed as_lost self.old (suc place) }
    {
        self.sent[place].is_lost = true;
    }

    // All messages so far are lost.
    pub(crate) fn lose_all(&mut self)
        ensures { self.new ≡ map as_lost self.old }
    {
        self.all_lost = self.sent.len();
    }

    // Before which place no message is left.
    pub(crate) fn first_left(&self) -> usize
        ensures { NoneLeft result self.now }
    {
        self.settled
    }

    // Keeps in mind that before this place no message is left.
    pub(crate) fn settle(&mut self, place: usize)
        requires { NoneLeft place self.old }
        ensures { self.new ≡ self.old }
    {
        self.settled = place;
    }

    // Adds the message of an output, if it is one.
    fn note(&mut self, output: &Output) -> Result<(), AllocError>
        ensures { OnOk result (self.new ≡ self.old ++ map newly_sent (messages_in (output.now ∷ []))) }
    {
        match output {
            Output::Sent(_, message) => {
                self.sent.push(Sent {
                    addressee: message.addressee,
                    is_delivered: false,
                    is_lost: false,
                })?;
                Ok(())
            }
            _ => Ok(()),
        }
    }

    // Adds the messages among outputs.
    pub(crate) fn note_all(&mut self, outputs: &[Output]) -> Result<(), AllocError>
        ensures { OnOk result (self.new ≡ self.old ++ map newly_sent (messages_in outputs.now)) }
    {
        for output in outputs {
            self.note(output)?;
        }
        Ok(())
    }
}
