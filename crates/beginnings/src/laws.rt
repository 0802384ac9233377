//! Laws of beginnings: what these functions are for is their contracts.
ghost use Rattle.std.specs.Prelude.{◌≡◌, ◌++◌, ◌⊎◌, All, IfOk, MatchOption};
ghost use Rattle.flight.specs.Contents.{FlightContents};
ghost use Rattle.flight.specs.Spelling.{flight_text};
ghost use Rattle.beginnings.specs.Beginnings.{HasBeginning, beginning_of};
ghost use Rattle.beginnings.specs.Growing.{GoesOn, IsGrown, IsSeenAgain, Collide};
ghost use Rattle.beginnings.specs.Lines.{IsKept};
ghost use Rattle.beginnings.specs.Stems.{stem_of, tail_of};

use crate::beginning::Beginning;
use crate::line::{line_of, read_line};
use std::alloc::{AllocError, Global};

/// What stays of a flight's file, and the last lines, are the whole file.
pub fn whole_file()
    ensures { (f : FlightContents) → stem_of f ++ tail_of f ≡ flight_text f }
{}

/// A flight that grows as those of a store do, by further steps, an end of the life that is up, later lives and later answers, goes on
/// from what it was.
pub fn growth()
    ensures { (f g : FlightContents) → IsGrown f g → GoesOn f g }
{}

/// A flight that goes on from what it was has its beginning.
pub fn later_ones()
    ensures { (f g : FlightContents) → GoesOn f g → HasBeginning g (beginning_of f) }
{}

/// A flight that has another one's beginning has all its bytes and answers again, as long as nobody finds two texts with the same
/// SHA-256.
pub fn no_others()
    ensures { (f g : FlightContents) → HasBeginning g (beginning_of f) → IsSeenAgain f g ⊎ Collide }
{}

/// Beginnings that are written as a line, which is then read, come back as they were. The error is want of memory.
pub fn line_again(alloc: Global, seen: &[Beginning]) -> Result<Option<Vec<Beginning>>, AllocError>
    requires { All IsKept seen.now }
    ensures { IfOk result (λ read. MatchOption read ⊥ (λ again. again.items ≡ seen.now)) }
{
    let line = line_of(alloc, seen)?;
    read_line(alloc, line.as_str())
}
