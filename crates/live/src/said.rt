//! What comes of a line.
ghost use Rattle.std.specs.Prelude.{◌≡◌};
ghost use Rattle.live.specs.Saying.{is_answer};

use answer::Answer;
use fault::Refusal;
use model::member::Member;
use model::request::{Client, RequestNumber};
use model::stamp::Stamp;

/// What comes of a line that was played.
#[derive(Debug, Drop)]
pub enum Said {
    /// Nothing that is told.
    Nothing,
    /// The request of this client with this number has this outcome; or none, where its line took as many rounds as it may.
    Outcome(Client, RequestNumber, Option<Result<Stamp, Refusal>>),
    /// A node's view answers.
    Answered(Member, Answer),
    /// A node refuses a question, or to start.
    Refused(Member, Refusal),
}

impl Said {
    /// Whether it is an answer.
    pub fn is_answer(&self) -> bool
        ensures { result ≡ is_answer self.now }
    {
        matches!(self, Said::Answered(_, _))
    }
}
