//! Weather, which loses messages, repeats them and brings them late, always alike for the same seed.
ghost use Rattle.std.specs.Prelude.{◌≡◌, ◌≤◌};
ghost use Rattle.network.specs.Fates.{fate, generator_of};

use rand_core::SeedableRng;
use rand_core::utils::NextWord;
use rand_pcg::Pcg32;

/// What becomes of a message.
#[derive(Clone, Copy, PartialEq, Eq, Debug, Drop)]
pub enum Fate {
    /// It never comes.
    Lost,
    /// It comes once, in its own round.
    Once,
    /// It comes twice, in its own round.
    Twice,
    /// It comes once, so many rounds later: 1 to 5.
    Later(u8),
}

/// What decides on the fate of messages: a generator of words, and how many messages of a hundred are lost. Two with the
/// same seed and loss give the same fates in the same order.
#[derive(Clone, PartialEq, Eq, Drop)]
pub struct Weather {
    words: Pcg32,
    loss: u8,
}

impl Weather {
    /// The weather of a seed, any number of 64 bits, that loses `loss` messages of a hundred, 0 to 100. Takes no memory.
    pub fn new(seed: u64, loss: u8) -> Weather
        requires { loss ≤ 100 }
        ensures words { result.words ≡ generator_of seed }
        ensures loss { result.loss ≡ loss }
    {
        Weather {
            words: Pcg32::seed_from_u64(seed),
            loss,
        }
    }

    /// Decides on one more message, by one to three words of the generator: a word is drawn only where the choice before
    /// left it open. Never refused; takes no memory.
    pub fn fate(&mut self) -> Fate
        ensures fate { (result, self.new.words) ≡ fate self.old.loss self.old.words }
        ensures loss { self.new.loss ≡ self.old.loss }
    {
        if self.words.next_word() % 100 < u32::from(self.loss) {
            return Fate::Lost;
        }
        match self.words.next_word() % 10 {
            0 => Fate::Twice,
            1 | 2 => Fate::Later(1 + (self.words.next_word() % 5) as u8),
            _ => Fate::Once,
        }
    }
}
