//! Messages on their way.
ghost use Rattle.std.specs.Prelude.{◌≡◌, ◌++◌, ◌∷◌, [], OnOk};
ghost use Rattle.network.specs.Fates.{fate, generator_of};
ghost use Rattle.live.specs.Letters.{letter, letters_of};

use model::mark::Mark;
use model::message::Message;
use network::{Fate, Weather};
use std::alloc::{AllocError, Global};
use std::mem;

/// A message on its way, with the mark of the step that sent it.
#[derive(Debug, Drop)]
pub struct Letter {
    /// How many rounds it lets pass before the one in which it comes.
    pub wait: u8,
    pub mark: Mark,
    pub message: Message,
}

/// The messages on their way, in the order in which they were sent, and the weather that decides on the next ones.
#[derive(Drop)]
pub struct Mail {
    alloc: Global,
    weather: Weather,
    letters: Vec<Letter>,
}

impl Mail {
    /// No messages yet.
    pub fn new(alloc: Global, weather: Weather) -> Mail
        ensures { (result.weather ≡ weather) × (result.letters.items ≡ []) }
    {
        Mail {
            alloc,
            weather,
            letters: Vec::new(alloc),
        }
    }

    fn put(&mut self, wait: u8, mark: Mark, message: Message) -> Result<(), AllocError>
        ensures put { OnOk result (self.new.letters.items ≡ self.old.letters.items ++ letter wait mark message ∷ []) }
        ensures same { self.new.weather ≡ self.old.weather }
    {
        self.letters.push(Letter {
            wait,
            mark,
            message,
        })?;
        Ok(())
    }

    /// Sends a message, which comes as the weather says: never, in the next round once or twice, or so many rounds later.
    /// The error is want of memory.
    pub fn send(&mut self, mark: Mark, message: Message) -> Result<(), AllocError>
        ensures sent { OnOk result (self.new.letters.items ≡ self.old.letters.items ++ letters_of (fate self.old.weather.loss self.old.weather.words).0 mark message) }
        ensures weather { (self.new.weather.words ≡ (fate self.old.weather.loss self.old.weather.words).1) × (self.new.weather.loss ≡ self.old.weather.loss) }
    {
        match self.weather.fate() {
            Fate::Lost => Ok(()),
            Fate::Once => self.put(0, mark, message),
            Fate::Twice => {
                let again = message.clone()?;
                self.put(0, mark, message)?;
                self.put(0, mark, again)
            }
            Fate::Later(rounds) => self.put(rounds, mark, message),
        }
    }

    /// Sends messages in their order. The error is want of memory.
    pub fn send_all(&mut self, mark: Mark, messages: Vec<Message>) -> Result<(), AllocError> {
        for message in messages {
            self.send(mark, message)?;
        }
        Ok(())
    }

    /// Takes out those that come in this round, in the order in which they were sent; the others wait for one round less.
    /// The error is want of memory.
    pub fn take_due(&mut self) -> Result<Vec<Letter>, AllocError> {
        let letters = mem::replace(&mut self.letters, Vec::new(self.alloc));
        let mut due = Vec::new(self.alloc);
        for letter in letters {
            match letter.wait.checked_sub(1) {
                None => due.push(letter)?,
                Some(wait) => self.put(wait, letter.mark, letter.message)?,
            }
        }
        Ok(due)
    }
}
