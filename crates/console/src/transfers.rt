//! Imports and exports over a store's folder.
use crate::restores::restore_unsynced;
use crate::room::warn_of_room;
use fault::Refusal;
use progressline::ProgressLine;
use std::alloc::Global;
use std::io::IsTerminal;
use store::announcing::Announces;
use store::room::NEARLY_FULL;
use storefolder::{Holder, Opened, hold_store, reading_of};
use transfer::{Fault, Order, Work, look_at, work_on};

/// What shows on standard error, where that is a terminal, how far a long work is.
pub(crate) fn progress_on(rt: &HostRuntime) -> ProgressLine<'_, HostRuntime> {
    ProgressLine::new(rt, rt.stderr().is_terminal())
}

// Looks at an order before the store is opened: none where its file has a fault, which was told.
fn work_of<'a>(
    rt: &HostRuntime,
    alloc: Global,
    order: Order<'a>,
) -> Result<Option<Work<'a>>, Fault> {
    let folder = storefolder::enter(rt, alloc, order.dir())?;
    look_at(rt, alloc, order, &folder.form.schema)
}

// Who imports or exports.
#[derive(Drop)]
struct Carrier<'a> {
    alloc: Global,
    work: Work<'a>,
    reading: i64,
}

impl Holder for Carrier<'_> {
    type Output = Result<u8, Fault>;

    // Says where the log is nearly full. 36 where it has no room for all of an import.
    fn hold<K: Announces>(
        self,
        rt: &HostRuntime,
        opened: Opened<K>,
    ) -> (Result<u8, Fault>, Opened<K>)
    where
        K::Image: Drop,
    {
        let Carrier {
            alloc,
            work,
            reading,
        } = self;
        let mut opened = opened;
        if let Work::Import(_, requests) = &work {
            if !opened.store.room().takes(requests.len()) {
                return (Err(Fault::from(Refusal::LogFull)), opened);
            }
        }
        let progress = progress_on(rt);
        let done = work_on(rt, alloc, &work, reading, &mut opened.store, &progress);
        let _ = warn_of_room(rt, alloc, &opened.store, NEARLY_FULL);
        (done, opened)
    }
}

/// Imports or exports over the store in a folder, on standard output, and gives the exit status: 0, or 1 where not all rows of a file
/// are stored. The whole file is read before the store is opened: where it has a fault, that is told, and the store is not opened. At a
/// terminal standard error has how many rows are stored, as long as that takes.
pub(crate) fn carry_out(rt: &HostRuntime, alloc: Global, order: Order<'_>) -> Result<u8, Fault> {
    let Some(work) = work_of(rt, alloc, order)? else {
        return Ok(1);
    };
    restore_unsynced(rt, alloc, order.dir())?;
    let reading = reading_of(rt, None)?;
    let carrier = Carrier {
        alloc,
        work,
        reading,
    };
    let (done, closed) = hold_store(rt, alloc, order.dir(), true, reading, carrier)?;
    let status = done?;
    closed?;
    Ok(status)
}
