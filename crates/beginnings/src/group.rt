//! The beginnings of all flights of a group.
ghost use Rattle.std.specs.Prelude.{◌≡◌, All, IfOk, length, map};
ghost use Rattle.flight.specs.Contents.{in_flight};
ghost use Rattle.beginnings.specs.Beginnings.{AreFound, beginning_of};
ghost use Rattle.beginnings.specs.Lines.{IsKept};

use crate::beginning::{Beginning, Found};
use flight::flight::Flight;
use std::alloc::{AllocError, Global};

/// Those of all that flights have, in their order. The error is want of memory.
pub fn beginnings_of(alloc: Global, flights: &[Flight]) -> Result<Vec<Beginning>, AllocError>
    ensures value { IfOk result (λ all. all.items ≡ map (λ f. beginning_of (in_flight f)) flights.now) }
    ensures range { IfOk result (λ all. All IsKept all.items) }
{
    let mut all = Vec::new(alloc);
    for flight in flights {
        all.push(Beginning::of(alloc, flight)?)?;
    }
    Ok(all)
}

/// What flights are beside as many beginnings that were kept, one by one. The error is want of memory.
pub fn found_in(
    alloc: Global,
    flights: &[Flight],
    seen: &[Beginning],
) -> Result<Vec<Found>, AllocError>
    requires { length flights.now ≡ length seen.now }
    ensures { IfOk result (λ found. AreFound (map in_flight flights.now) seen.now found.items) }
{
    let mut found = Vec::new(alloc);
    for (place, flight) in flights.iter().enumerate() {
        let own = seen[place].found_in(alloc, flight)?;
        found.push(own)?;
    }
    Ok(found)
}
