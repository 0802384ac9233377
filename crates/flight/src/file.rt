//! Writing a flight file.
ghost use Rattle.std.specs.Prelude.{IfErr};
ghost use Rattle.answertext.specs.Outlets.{IsWriteFault};
ghost use Rattle.answertext.specs.Sinks.{WritesOrBegins};
ghost use Rattle.flight.specs.Contents.{in_flight};
ghost use Rattle.flight.specs.Spelling.{flight_text};

use crate::flight::Flight;
use crate::writing::text_of_flight;
use answertext::outlet::{Outlet, WriteFault};
use std::alloc::Global;

/// Writes the flight's file: of one that can be read, its one spelling. An error is the outlet's, of which a beginning of the text
/// was put; for want of memory nothing is.
pub fn write_flight<O: Outlet>(
    alloc: Global,
    flight: &Flight,
    outlet: &mut O,
) -> Result<(), WriteFault>
    ensures written { WritesOrBegins (O.holds outlet.old) (O.holds outlet.new) result (flight_text (in_flight flight.now)) }
    ensures failed { IfErr result (λ fault. IsWriteFault O.fails outlet.old fault outlet.new) }
{
    let text = text_of_flight(alloc, flight)?;
    outlet.put(text.as_str())?;
    Ok(())
}
