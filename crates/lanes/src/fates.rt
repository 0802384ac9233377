//! What became of messages.
ghost use Rattle.std.specs.Prelude.{◌≡◌, ◌++◌, ◌∷◌, [], length, IfOk, OnOk, OnErr};
ghost use Rattle.model.specs.Lists.{nth, with_nth};
ghost use Rattle.lanes.specs.Fates.{is_under_way as is_under_way_in, lost, number_if, under_way_from};

use std::alloc::{AllocError, Global};
use std::marker::Model;

/// What became of a message.
#[derive(Clone, Copy, Debug, PartialEq, Eq)]
pub enum Fate {
    UnderWay,
    /// It was delivered to a member that was up.
    Taken,
    /// It was delivered to a member that was down.
    Missed,
    Lost,
    /// It was sent by a line whose messages are not drawn.
    Unseen,
}

/// What became of each message. Messages count from 1; a contract sees the list.
#[derive(Drop)]
pub struct Fates {
    alloc: Global,
    fates: Vec<Fate>,
}

impl Model for Fates {
    ghost use Rattle.std.specs.Prelude.{List};
    ghost use Rattle.lanes.specs.declared.fates.Fate.{Fate as AnyFate};

    ghost Value = { List AnyFate };

    ghost view = { λ fates. fates.fates.items };
}

impl Fates {
    /// No message was sent.
    pub fn new(alloc: Global) -> Fates
        ensures { result ≡ [] }
    {
        Fates {
            alloc,
            fates: Vec::new(alloc),
        }
    }

    /// How many messages were sent.
    pub fn count(&self) -> usize
        ensures { result ≡ length self.now }
    {
        self.fates.len()
    }

    /// What became of the message of this number; none where it was not sent.
    pub fn of(&self, number: usize) -> Option<Fate>
        ensures { result ≡ nth self.now number }
    {
        if 1 <= number && number <= self.fates.len() {
            Some(self.fates[number - 1])
        } else {
            None
        }
    }

    /// One more message was sent. Where memory is refused there is none.
    pub fn send(&mut self, fate: Fate) -> Result<(), AllocError>
        ensures ok { OnOk result (self.new ≡ self.old ++ fate ∷ []) }
        ensures err { OnErr result (self.new ≡ self.old) }
    {
        self.fates.push(fate)?;
        Ok(())
    }

    /// Notes what became of the message of this number. Nothing changes where it was not sent.
    pub fn set(&mut self, number: usize, fate: Fate)
        ensures { self.new ≡ with_nth self.old number fate }
    {
        if 1 <= number && number <= self.fates.len() {
            self.fates[number - 1] = fate;
        }
    }

    /// The message of this number is lost, if it is under way. Whether it was; if not, nothing changes.
    pub fn lose(&mut self, number: usize) -> bool
        ensures fates { self.new ≡ lost self.old number }
        ensures was { result ≡ is_under_way_in (nth self.old number) }
    {
        match self.of(number) {
            Some(Fate::UnderWay) => {
                self.set(number, Fate::Lost);
                true
            }
            Some(Fate::Taken | Fate::Missed | Fate::Lost | Fate::Unseen) | None => false,
        }
    }

    /// The numbers of the messages that are under way, in order.
    pub fn under_way(&self) -> Result<Vec<usize>, AllocError>
        ensures { IfOk result (λ numbers. numbers.items ≡ under_way_from 1 self.now) }
    {
        let mut numbers = Vec::new(self.alloc);
        for (at, fate) in self.fates.iter().enumerate() {
            add_under_way(at + 1, *fate, &mut numbers)?;
        }
        Ok(numbers)
    }
}

// Adds the number of a message, if it is under way.
fn add_under_way(number: usize, fate: Fate, numbers: &mut Vec<usize>) -> Result<(), AllocError>
    ensures { OnOk result (numbers.new.items ≡ numbers.old.items ++ number_if number fate) }
{
    match fate {
        Fate::UnderWay => numbers.push(number)?,
        Fate::Taken | Fate::Missed | Fate::Lost | Fate::Unseen => {}
    }
    Ok(())
}
