//! A folder that is made a store by a form and a first journal.
use crate::faults::file_refusal;
use crate::place::{exists, form_path, journal_path, put_file, put_open, sync_folder};
use std::alloc::Global;
use std::fs;
use std::fs::{File, OpenOptions, TryLockError};
use store::StoreRefusal;

/// Whether a folder has neither a form nor a second journal, so that it may be made a store.
pub fn is_new(rt: &HostRuntime, alloc: Global, dir: &str) -> Result<bool, StoreRefusal> {
    Ok(
        !exists(rt, form_path(alloc, dir)?.as_str())?
            && !exists(rt, journal_path(alloc, dir, 2)?.as_str())?,
    )
}

// The file that becomes the form, with its lock, which is then the folder's: 48 where another process has it.
fn lock_new_form(rt: &HostRuntime, path: &str) -> Result<File, StoreRefusal> {
    let file = match OpenOptions::new().write(true).create(true).open(rt, path) {
        Ok(file) => file,
        Err(error) => return Err(file_refusal(&error)),
    };
    match file.try_lock() {
        Ok(()) => Ok(file),
        Err(TryLockError::WouldBlock) => Err(StoreRefusal::InUse),
        Err(TryLockError::Error(error)) => Err(file_refusal(&error)),
    }
}

// Puts the first journal there. One that is there already has to be this one: else 56.
fn put_journal(rt: &HostRuntime, alloc: Global, dir: &str, text: &str) -> Result<(), StoreRefusal> {
    let path = journal_path(alloc, dir, 1)?;
    if exists(rt, path.as_str())? {
        let bytes: Vec<u8> = fs::read(rt, path.as_str()).map_err(|error| file_refusal(&error))?;
        return if bytes.as_slice() == text.as_bytes() {
            Ok(())
        } else {
            Err(StoreRefusal::NotEmpty)
        };
    }
    let new = format!(in alloc; "{dir}/journal1.new")?;
    put_file(rt, dir, new.as_str(), path.as_str(), text.as_bytes()).map_err(|error| file_refusal(
        &error,
    ))
}

// Writes the form to this file, which is locked and stands beside its place, and puts it there.
fn put_form(
    rt: &HostRuntime,
    alloc: Global,
    dir: &str,
    new: &str,
    lock: File,
    form: &str,
) -> Result<(), StoreRefusal> {
    let path = form_path(alloc, dir)?;
    lock.set_len(0).map_err(|error| file_refusal(&error))?;
    put_open(rt, lock, new, path.as_str(), form.as_bytes()).map_err(|error| file_refusal(&error))?;
    sync_folder(rt, dir).map_err(|error| file_refusal(&error))
}

/// Makes a store of a folder, by the text of its form and that of its first journal. The form comes last, in one step, so that where this
/// failed or was cut short it can be done again. Whether it was done: a folder that has a form by now, or a second journal, is left as it is.
///
/// 48 where another process does this; 56 where another first journal is there; 38, 40 and 43 where files can't be read or written.
pub fn put_store(
    rt: &HostRuntime,
    alloc: Global,
    dir: &str,
    form: &str,
    journal: &str,
) -> Result<bool, StoreRefusal> {
    let new = format!(in alloc; "{dir}/form.new")?;
    let lock = lock_new_form(rt, new.as_str())?;
    if !is_new(rt, alloc, dir)? {
        return Ok(false);
    }
    put_journal(rt, alloc, dir, journal)?;
    put_form(rt, alloc, dir, new.as_str(), lock, form)?;
    Ok(true)
}
