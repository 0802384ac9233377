//! What is done with a store while it is open.
use crate::journal_file::JournalFile;
use crate::opening::{Found, Kept, Opened, close, open};
use sqlite::Alter;
use std::alloc::Global;
use store::announcing::Announces;
use store::{Device, Store, StoreRefusal};
use unsynced::Stored;

/// What a program does with a store while it is open, whatever keeps its members.
pub trait Task: Drop {
    /// What comes of it.
    type Output: Drop;

    /// Does it.
    fn work<K: Announces>(
        self,
        rt: &HostRuntime,
        store: &mut Store<K>,
        found: &Found,
    ) -> Self::Output
    where
        K::Image: Drop;
}

/// What holds a store while it is open, whatever keeps its members, and gives it back.
pub trait Holder: Drop {
    /// What comes of it.
    type Output: Drop;

    /// Holds it.
    fn hold<K: Announces>(self, rt: &HostRuntime, opened: Opened<K>) -> (Self::Output, Opened<K>)
    where
        K::Image: Drop;
}

// One that does a task with it.
#[derive(Drop)]
struct Worker<T: Task> {
    task: T,
}

impl<T: Task> Holder for Worker<T> {
    type Output = T::Output;

    fn hold<K: Announces>(self, rt: &HostRuntime, opened: Opened<K>) -> (T::Output, Opened<K>)
    where
        K::Image: Drop,
    {
        let Worker { task } = self;
        let Opened { store, found } = opened;
        let mut store = store;
        let output = task.work(rt, &mut store, &found);
        (output, Opened { store, found })
    }
}

fn hold_over<S: Alter + Drop, J: Device, H: Holder>(
    rt: &HostRuntime,
    opened: Opened<Kept<S, J>>,
    holder: H,
) -> (H::Output, Opened<Kept<S, J>>) {
    holder.hold(rt, opened)
}

/// Opens the store in a folder, has it held, and closes it: what came of that, and of the closing. What `open` refuses.
pub fn hold_store<H: Holder>(
    rt: &HostRuntime,
    alloc: Global,
    dir: &str,
    syncs: bool,
    reading: i64,
    holder: H,
) -> Result<(H::Output, Result<(), StoreRefusal>), StoreRefusal> {
    let opened = open(rt, alloc, dir, syncs, reading)?;
    let (output, opened) = hold_over::<Stored, JournalFile, H>(rt, opened, holder);
    Ok((output, close(rt, opened)))
}

/// Opens the store in a folder, has this done with it, and closes it. What `open` and `close` refuse.
pub fn with_store<T: Task>(
    rt: &HostRuntime,
    alloc: Global,
    dir: &str,
    syncs: bool,
    reading: i64,
    task: T,
) -> Result<T::Output, StoreRefusal> {
    let (output, closed) = hold_store(rt, alloc, dir, syncs, reading, Worker { task })?;
    closed?;
    Ok(output)
}
