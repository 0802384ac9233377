//! What is said of a store's log that is nearly full.
use std::alloc::{AllocError, Global};
use store::announcing::Announces;
use store::room::FOR_REQUESTS;
use store::{Room, Store, StoreRefusal};

// After how many entries more it is told of again.
const AGAIN: usize = 1_000;

// How much of a log is full.
fn put_room(room: Room, text: &mut String) -> Result<(), AllocError> {
    let Room { entries, most } = room;
    write!(text, "the log has {entries} of its {most} entries")?;
    if room.takes(1) {
        write!(text, ": from {FOR_REQUESTS} on requests are refused\n")
    } else {
        text.push_str(": requests are refused, the rest is for openings\n")
    }
}

/// Below the table of `.status`: how much of a log is full; nothing before nine tenths are.
pub(crate) fn put_room_left(room: Room, text: &mut String) -> Result<(), AllocError> {
    if room.is_nearly_full() {
        put_room(room, text)?;
    }
    Ok(())
}

/// Says on standard error how much of a store's log is full, and what to do, where it has this many entries or more. It gives how many it
/// has to have when that is next said.
pub(crate) fn warn_of_room<K: Announces>(
    rt: &HostRuntime,
    alloc: Global,
    store: &Store<K>,
    from: usize,
) -> Result<usize, StoreRefusal>
where
    K::Image: Drop,
{
    let room = store.room();
    if room.entries < from {
        return Ok(from);
    }
    let mut text = String::new(alloc);
    put_room(room, &mut text)?;
    let _ = eprint!(*rt;
        "{text}        What is there stays to be asked. A new store takes the rows: bitable export, new, import.\n"
    );
    Ok(room.entries.saturating_add(AGAIN))
}
