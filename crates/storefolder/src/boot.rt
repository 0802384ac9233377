//! The start of the machine in which databases were written that are not on the disk.
ghost use Rattle.std.specs.Prelude.{◌≡◌, ◌≢◌, ◌↔◌, Some, option_map};

use crate::faults::file_refusal;
use crate::place::{exists, put_file, sync_folder};
use std::alloc::{AllocError, Global};
use std::fs;
use store::StoreRefusal;

// Where the system says which start of the machine this is.
const BOOT_ID: &str = "/proc/sys/kernel/random/boot_id";

// How many characters of a note are compared at most.
const LONGEST: usize = 128;

// Where it is noted that databases were written in a start of the machine.
fn note_path(alloc: Global, dir: &str) -> Result<String, AllocError> {
    format!(in alloc; "{dir}/boot")
}

// Which start of the machine this is; none where the system does not say.
fn this_boot(rt: &HostRuntime) -> Option<String> {
    let text = fs::read_to_string(rt, BOOT_ID).ok()?;
    if text.as_str().trim().is_empty() || text.len() > LONGEST {
        return None;
    }
    Some(text)
}

/// What is noted of the databases in a folder.
#[derive(Clone, Copy, PartialEq, Eq, Debug)]
pub(crate) enum Noted {
    /// Nothing: they are on the disk.
    Nothing,
    /// They were written since the machine was started, so what was written is there.
    ThisBoot,
    /// They were written before it was started, or it can't be told: they may hold anything.
    Another,
}

// What a note says in this start of the machine, if the system says which it is.
fn noted_of(note: &[u8], boot: Option<&str>) -> Noted
    ensures this { result ≡ Noted.ThisBoot ↔ option_map (λ b. b.now) boot.entry ≡ Some note.now }
    ensures another { result ≡ Noted.Another ↔ option_map (λ b. b.now) boot.entry ≢ Some note.now }
{
    match boot {
        Some(boot) if note == boot.as_bytes() => Noted::ThisBoot,
        _ => Noted::Another,
    }
}

/// What is noted of the databases in a folder. 40 and 43 where that can't be told.
pub(crate) fn noted_in(rt: &HostRuntime, alloc: Global, dir: &str) -> Result<Noted, StoreRefusal> {
    let path = note_path(alloc, dir)?;
    if !exists(rt, path.as_str())? {
        return Ok(Noted::Nothing);
    }
    let bytes: Vec<u8> = fs::read(rt, path.as_str()).map_err(|error| file_refusal(&error))?;
    Ok(match this_boot(rt) {
        Some(boot) => noted_of(&bytes, Some(boot.as_str())),
        None => noted_of(&bytes, None),
    })
}

/// Whether the databases in a folder may hold anything: the machine stopped since they were written, and not all was on the disk, or it
/// can't be told whether it did. 40 and 43 where the note of it can't be read.
pub fn is_unsynced(rt: &HostRuntime, alloc: Global, dir: &str) -> Result<bool, StoreRefusal> {
    Ok(noted_in(rt, alloc, dir)? == Noted::Another)
}

/// What is noted of databases that may be trusted: 57 where `is_unsynced`, and what that refuses.
pub(crate) fn noted_synced(
    rt: &HostRuntime,
    alloc: Global,
    dir: &str,
) -> Result<Noted, StoreRefusal> {
    match noted_in(rt, alloc, dir)? {
        Noted::Another => Err(StoreRefusal::Unsynced),
        noted => Ok(noted),
    }
}

/// Looks whether the databases in a folder may be trusted: 57 where `is_unsynced`, and what that refuses.
pub fn check_synced(rt: &HostRuntime, alloc: Global, dir: &str) -> Result<(), StoreRefusal> {
    noted_synced(rt, alloc, dir)?;
    Ok(())
}

/// Notes that databases are written from now on that are not on the disk, and has that outlast a power cut. Whether it could be told which
/// start of the machine this is: else nothing is noted.
pub(crate) fn note_boot(rt: &HostRuntime, alloc: Global, dir: &str) -> Result<bool, StoreRefusal> {
    let Some(boot) = this_boot(rt) else {
        return Ok(false);
    };
    let path = note_path(alloc, dir)?;
    let new = format!(in alloc; "{dir}/boot.new")?;
    match put_file(rt, dir, new.as_str(), path.as_str(), boot.as_bytes()) {
        Ok(()) => Ok(true),
        Err(error) => Err(file_refusal(&error)),
    }
}

/// Takes the note away, once the databases are on the disk.
pub fn forget_boot(rt: &HostRuntime, alloc: Global, dir: &str) -> Result<(), StoreRefusal> {
    let path = note_path(alloc, dir)?;
    if !exists(rt, path.as_str())? {
        return Ok(());
    }
    fs::remove_file(rt, path.as_str()).map_err(|error| file_refusal(&error))?;
    sync_folder(rt, dir).map_err(|error| file_refusal(&error))
}
