//! Stamps of entries, floors, and the time that a list of entries closes.
#![tactic(auto)]

ghost use Rattle.std.specs.Prelude.{◌≡◌, ◌≤◌, ◌<◌, None, IfSome, IfNone, unwrap_or};
ghost use Rattle.model.specs.Logs.{closed};
ghost use Rattle.model.specs.Stamps.{TIME_LAST, above, greater, stamp};

mod refused;

pub use model::entry::Entry;
use model::stamp::{LAST_MICROS, Stamp};

/// The stamp of an entry that is made when the clock shows `reading`, in microseconds since 1970, by a member with this
/// floor, after an entry with the last stamp, or as the first: the greater of the reading and one more than the greater of
/// last stamp and floor. A reading that is no instant counts as none. None where either is the last instant. Takes no memory.
pub fn stamp(reading: i64, last: Option<Stamp>, floor: Option<Stamp>) -> Option<Stamp>
    ensures some { IfSome result (λ t. (t ≡ stamp reading (above (greater last floor))) × (above (greater last floor) ≤ TIME_LAST)) }
    ensures none { IfNone result (TIME_LAST < above (greater last floor)) }
{
    let least = match greater(last, floor) {
        None => 0,
        Some(most) => most.micros() + 1,
    };
    if least > LAST_MICROS {
        return None;
    }
    Some(Stamp::at(reading, least))
}

/// The floor that a leader asks for when the clock shows `reading`: the greatest of the reading, the last stamp and its floor
/// so far. A reading that is no instant counts as none. Takes no memory.
pub fn next_floor(reading: i64, last: Option<Stamp>, floor: Option<Stamp>) -> Stamp
    ensures { result ≡ stamp reading (unwrap_or (greater last floor) 0) }
{
    let least = match greater(last, floor) {
        None => 0,
        Some(most) => most.micros(),
    };
    Stamp::at(reading, least)
}

/// The greater of two instants, where none is below each. Takes no memory.
pub fn greater(a: Option<Stamp>, b: Option<Stamp>) -> Option<Stamp>
    ensures { result ≡ greater a b }
{
    match (a, b) {
        (None, b) => b,
        (a, None) => a,
        (Some(a), Some(b)) => Some(Stamp::new(a.micros().max(b.micros()))),
    }
}

/// The closed time of a list of entries: the stamp of the last, none where there is none. Takes no memory.
pub fn closed(entries: &[Entry]) -> Option<Stamp>
    ensures { result ≡ closed entries.now }
{
    if entries.is_empty() {
        return None;
    }
    match entries.get(entries.len() - 1) {
        Some(entry) => Some(entry.stamp),
        None => None,
    }
}
