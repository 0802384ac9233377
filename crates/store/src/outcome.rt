//! What came of a request.
ghost use Rattle.std.specs.Prelude.{Some};
ghost use Rattle.store.specs.Words.{words_of};

use fault::Refusal;
use model::stamp::Stamp;
use std::fmt;

/// What came of a request.
#[derive(Debug, Drop)]
pub enum Outcome {
    /// Its transaction was executed, at this instant.
    Accepted(Stamp),
    /// It was refused: 10 to 18 by its text, 20 to 23 by the tables, 30 and 31 by its number, 35 to 37 by the leader.
    Refused(Refusal),
    /// It is not known whether it is decided: no majority is up, or a member went down in the midst. The same client and number,
    /// handed in again, has the outcome of the first.
    Unanswered,
}

/// As a flight records it, or `unanswered`.
impl fmt::Display for Outcome {
    ghost output = { λ o. Some (words_of o) };

    fn fmt<W: fmt::Write>(&self, f: &mut fmt::Formatter<W>) -> fmt::Result {
        match self {
            Outcome::Accepted(stamp) => {
                let instant = stamp.instant();
                write!(f, "accepted {instant}")
            }
            Outcome::Refused(refusal) => write!(f, "refused {refusal}"),
            Outcome::Unanswered => f.write_str("unanswered"),
        }
    }
}
