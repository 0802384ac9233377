//! A store's folder.
use crate::faults::{file_refusal, no_store};
use crate::form::{Form, read_form, text_of_form};
use model::member::Member;
use schemaread::schemas::read_schema;
use std::alloc::{AllocError, Global};
use std::fs::{File, OpenOptions, TryLockError};
use std::io::{Read, Write};
use std::{fs, io};
use store::StoreRefusal;

// How many bytes of a journal its first line may take.
const BEGINNING: usize = 256;

/// A folder whose store is this process's own: its form's lock is held.
#[derive(Drop)]
pub struct Folder {
    pub form: Form,
    _lock: File,
}

/// Where the form of a store is.
pub(crate) fn form_path(alloc: Global, dir: &str) -> Result<String, AllocError> {
    format!(in alloc; "{dir}/form")
}

/// Where the journal of this number is.
pub(crate) fn journal_path(alloc: Global, dir: &str, journal: u64) -> Result<String, AllocError> {
    format!(in alloc; "{dir}/journal{journal}")
}

/// Whether there is such a file: 40 where that can't be told.
pub fn exists(rt: &HostRuntime, path: &str) -> Result<bool, StoreRefusal> {
    match fs::exists(rt, path) {
        Ok(is) => Ok(is),
        Err(error) => Err(file_refusal(&error)),
    }
}

/// Whether this is the name of a file, which no folder has.
pub fn is_file(rt: &HostRuntime, name: &str) -> bool {
    match fs::metadata(rt, name) {
        Ok(found) => found.is_file(),
        Err(_) => false,
    }
}

// Whether the folder has something of a store or of a run in it.
fn is_taken(rt: &HostRuntime, alloc: Global, dir: &str) -> Result<bool, StoreRefusal> {
    if exists(rt, form_path(alloc, dir)?.as_str())?
        || exists(rt, journal_path(alloc, dir, 1)?.as_str())?
    {
        return Ok(true);
    }
    for node in 1..8u8 {
        let database = format!(in alloc; "{dir}/node{node}.db")?;
        let flight = format!(in alloc; "{dir}/node{node}.flight")?;
        if exists(rt, database.as_str())? || exists(rt, flight.as_str())? {
            return Ok(true);
        }
    }
    Ok(false)
}

/// Brings to the disk what was made in the folder.
pub(crate) fn sync_folder(rt: &HostRuntime, dir: &str) -> io::Result<()> {
    File::open(rt, dir)?.sync_all()
}

/// Writes an empty file that is open beside its place, and puts it there in one step.
pub(crate) fn put_open(
    rt: &HostRuntime,
    mut file: File,
    new: &str,
    path: &str,
    bytes: &[u8],
) -> io::Result<()> {
    file.write_all(bytes)?;
    file.sync_all()?;
    fs::rename(rt, new, path)
}

/// Writes a file beside its place, puts it there in one step, and brings that to the disk.
pub(crate) fn put_file(
    rt: &HostRuntime,
    dir: &str,
    new: &str,
    path: &str,
    bytes: &[u8],
) -> io::Result<()> {
    let file = File::create(rt, new)?;
    put_open(rt, file, new, path, bytes)?;
    sync_folder(rt, dir)
}

/// Makes a store in a folder, which is made if it is not there: its form comes last, so that a folder where this failed or was cut short is
/// no store, and it can be done again.
///
/// 16 for another number of members than 3 to 7; 10 to 18 of the text of the tables; 56 where the folder has something of a store or
/// of a run in it; 38, 40 and 43 where it can't be written.
pub fn make(
    rt: &HostRuntime,
    alloc: Global,
    dir: &str,
    members: Member,
    schema: &str,
) -> Result<(), StoreRefusal> {
    if members < 3 || members > 7 {
        return Err(StoreRefusal::Refused(fault::Refusal::OutOfRange));
    }
    let _ = read_schema(alloc, schema)?;
    if !exists(rt, dir)? {
        fs::create_dir(rt, dir).map_err(|error| file_refusal(&error))?;
    }
    if is_taken(rt, alloc, dir)? {
        return Err(StoreRefusal::NotEmpty);
    }
    let path = form_path(alloc, dir)?;
    let new = format!(in alloc; "{dir}/form.new")?;
    let text = text_of_form(alloc, members, schema)?;
    put_file(rt, dir, new.as_str(), path.as_str(), text.as_bytes()).map_err(|error| file_refusal(
        &error,
    ))
}

// The form's file, with its lock: 46 where there is none, 48 where another process has it.
fn lock_form(rt: &HostRuntime, path: &str) -> Result<File, StoreRefusal> {
    let file = match File::open(rt, path) {
        Ok(file) => file,
        Err(error) if error.kind() == io::ErrorKind::NotFound => return Err(no_store()),
        Err(error) => return Err(file_refusal(&error)),
    };
    match file.try_lock() {
        Ok(()) => Ok(file),
        Err(TryLockError::WouldBlock) => Err(StoreRefusal::InUse),
        Err(TryLockError::Error(error)) => Err(file_refusal(&error)),
    }
}

/// Enters the folder of a store, which no other process is in from then on, until what is given is dropped or the process ends.
///
/// 46 where the folder has no form of a store, 47 where the form is of another version, 48 where another process is in it; 40 and 43
/// where it can't be read.
pub fn enter(rt: &HostRuntime, alloc: Global, dir: &str) -> Result<Folder, StoreRefusal> {
    let path = form_path(alloc, dir)?;
    let lock = lock_form(rt, path.as_str())?;
    let bytes: Vec<u8> = match fs::read(rt, path.as_str()) {
        Ok(bytes) => bytes,
        Err(error) => return Err(file_refusal(&error)),
    };
    let Ok(text) = String::from_utf8(bytes) else {
        return Err(no_store());
    };
    let form = read_form(alloc, text)?;
    Ok(Folder { form, _lock: lock })
}

// Whether a journal that begins with these bytes goes on from this sum, as its first line says.
fn names_sum(alloc: Global, bytes: &[u8], sum: u64) -> Result<bool, AllocError> {
    let line = format!(in alloc; "opens 1 {sum} ")?;
    Ok(match bytes.iter().position(|byte| *byte == b'\n') {
        Some(at) => bytes
            .split_at_checked(at.saturating_add(1))
            .is_some_and(|(_, body)| body.starts_with(line.as_bytes())),
        None => false,
    })
}

/// Looks whether the first journal goes on from the form: 55 of that journal where it names another sum. Its first bytes alone are read.
pub(crate) fn check_form(
    rt: &HostRuntime,
    alloc: Global,
    dir: &str,
    form: &Form,
) -> Result<(), StoreRefusal> {
    let path = journal_path(alloc, dir, 1)?;
    let mut bytes = Vec::from_elem(alloc, 0u8, BEGINNING)?;
    let read = match File::open(rt, path.as_str()) {
        Ok(mut file) => file.read(&mut bytes),
        Err(error) => Err(error),
    };
    if let Err(error) = read {
        return Err(file_refusal(&error));
    }
    if names_sum(alloc, &bytes, form.sum())? {
        return Ok(());
    }
    Err(StoreRefusal::BadJournal { journal: 1, at: 0 })
}

/// The bytes of a journal.
pub(crate) fn read_journal(
    rt: &HostRuntime,
    alloc: Global,
    dir: &str,
    journal: u64,
) -> Result<Vec<u8>, StoreRefusal> {
    let path = journal_path(alloc, dir, journal)?;
    match fs::read(rt, path.as_str()) {
        Ok(bytes) => Ok(bytes),
        Err(error) => Err(file_refusal(&error)),
    }
}

/// Cuts a journal off behind its last whole block.
pub(crate) fn cut_journal(
    rt: &HostRuntime,
    alloc: Global,
    dir: &str,
    journal: u64,
    at: usize,
) -> Result<(), StoreRefusal> {
    let path = journal_path(alloc, dir, journal)?;
    let file = OpenOptions::new()
        .read(true)
        .write(true)
        .open(rt, path.as_str())
        .map_err(|error| file_refusal(&error))?;
    file.set_len(at as u64)
        .map_err(|error| file_refusal(&error))?;
    file.sync_all().map_err(|error| file_refusal(&error))
}

/// Brings a journal to the disk, as it is.
pub(crate) fn sync_journal(
    rt: &HostRuntime,
    alloc: Global,
    dir: &str,
    journal: u64,
) -> Result<(), StoreRefusal> {
    let path = journal_path(alloc, dir, journal)?;
    let file = File::open(rt, path.as_str()).map_err(|error| file_refusal(&error))?;
    file.sync_all().map_err(|error| file_refusal(&error))
}

/// A new journal; what stood under its number is gone.
pub(crate) fn new_journal(
    rt: &HostRuntime,
    alloc: Global,
    dir: &str,
    journal: u64,
) -> Result<File, StoreRefusal> {
    let path = journal_path(alloc, dir, journal)?;
    let file = match File::create(rt, path.as_str()) {
        Ok(file) => file,
        Err(error) => return Err(file_refusal(&error)),
    };
    match sync_folder(rt, dir) {
        Ok(()) => Ok(file),
        Err(error) => Err(file_refusal(&error)),
    }
}
