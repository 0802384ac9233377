//! What a store's clock shows.
ghost use Rattle.std.specs.Prelude.{◌≡◌, IfSome};

use fault::Refusal;
use std::rt::Clock;
use store::StoreRefusal;

/// What the calls of a store take as their `reading`: what was set, or else what the system's clock shows, in microseconds since 1970,
/// at most 2^63 - 1. 40 where the system's clock can't be read, or stands before 1970.
pub fn reading_of(rt: &HostRuntime, set: Option<i64>) -> Result<i64, StoreRefusal>
    ensures { IfSome set (λ reading. result ≡ Ok reading) }
{
    if let Some(reading) = set {
        return Ok(reading);
    }
    match rt.since_1970() {
        Ok(since) => Ok(i64::try_from(since.as_micros()).unwrap_or(i64::MAX)),
        Err(_) => Err(StoreRefusal::Refused(Refusal::StoreFault)),
    }
}
