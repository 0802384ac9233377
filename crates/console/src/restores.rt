//! Databases that are made anew.
use crate::printing::{counted, print};
use crate::stop::Fault;
use crate::transfers::progress_on;
use std::alloc::{AllocError, Global};
use store::StoreRefusal;
use storerestore::Restored;

// The line of a database that was made anew.
fn put_restored(restored: &Restored, text: &mut String) -> Result<(), AllocError> {
    let member = restored.member;
    let entries = restored.entries;
    let word = if entries == 1 { "entry" } else { "entries" };
    write!(
        text,
        "node {member}: its database is made anew, with {entries} {word}"
    )?;
    if let Some(kept) = &restored.kept {
        write!(text, "; what was there is kept as {kept}")?;
    }
    text.push('\n')?;
    Ok(())
}

// What is said of the databases that were made anew.
fn restored_lines(alloc: Global, all: &[Restored]) -> Result<String, AllocError> {
    let mut text = String::new(alloc);
    for restored in all {
        put_restored(restored, &mut text)?;
    }
    if all.is_empty() {
        text.push_str("nothing to restore: each database is what the journals tell\n")?;
    } else {
        let count = counted(alloc, all.len(), "database")?;
        write!(text, "restored {count}\n")?;
    }
    Ok(text)
}

/// Makes the databases of the store in a folder anew that are missing or hold something else than its journals tell, and says of which
/// members. The exit status is 0.
pub(crate) fn run_restore(rt: &HostRuntime, alloc: Global, dir: &str) -> Result<u8, Fault> {
    let all = storerestore::restore(rt, alloc, dir, &progress_on(rt))?;
    let lines = restored_lines(alloc, all.as_slice())?;
    print(rt, lines.as_str())?;
    Ok(0)
}

/// Where the machine stopped while the store in a folder was open, makes its databases anew, and says so on standard error in a line. What
/// `restore` and `is_unsynced` refuse.
pub(crate) fn restore_unsynced(
    rt: &HostRuntime,
    alloc: Global,
    dir: &str,
) -> Result<(), StoreRefusal> {
    if !storefolder::is_unsynced(rt, alloc, dir)? {
        return Ok(());
    }
    let all = storerestore::restore(rt, alloc, dir, &progress_on(rt))?;
    let count = counted(alloc, all.len(), "database")?;
    let _ = eprintln!(*rt;
        "the machine stopped while the store in {dir} was open: {count} made anew from its journals; the old ones are kept beside them"
    );
    Ok(())
}
