//! The databases of a store's members.
use crate::faults::file_refusal;
use crate::place::{exists, put_file};
use durable::first_page;
use fault::Refusal;
use model::member::Member;
use sqlite::{Error, ErrorCode};
use std::alloc::{AllocError, Global};
use store::past::Tale;
use store::{Past, StoreRefusal};

/// A database in a file, each commit of which is on the disk, or outlasts a kill of the process alone.
pub type Database = unsynced::Database;

fn refusal_of(error: &Error) -> StoreRefusal {
    match error {
        Error::SqliteFailure(ErrorCode::OutOfMemory) => StoreRefusal::Refused(Refusal::NoMemory),
        Error::SqliteFailure(ErrorCode::DiskFull) => StoreRefusal::DiskFull,
        Error::SqliteFailure(ErrorCode::DatabaseBusy) => StoreRefusal::InUse,
        _ => StoreRefusal::Refused(Refusal::StoreFault),
    }
}

/// Makes the file of a database that holds nothing, in one step.
pub(crate) fn make_database(
    rt: &HostRuntime,
    alloc: Global,
    dir: &str,
    path: &str,
) -> Result<(), StoreRefusal> {
    let new = format!(in alloc; "{path}.new")?;
    let page = first_page(alloc)?;
    put_file(rt, dir, new.as_str(), path, page.as_slice()).map_err(|error| file_refusal(&error))
}

/// Where a member's database is.
pub(crate) fn database_path(
    alloc: Global,
    dir: &str,
    member: Member,
) -> Result<String, AllocError> {
    format!(in alloc; "{dir}/node{member}.db")
}

/// Opens a database in a file that is there. Whether its commits are brought to the disk.
pub(crate) fn open_file(
    rt: &HostRuntime,
    path: &str,
    syncs: bool,
) -> Result<Database, StoreRefusal> {
    match unsynced::open(rt, path, syncs) {
        Ok(database) => Ok(database),
        Err(error) => Err(refusal_of(&error)),
    }
}

// A member's database; none where its file is not there.
fn find(
    rt: &HostRuntime,
    alloc: Global,
    dir: &str,
    member: Member,
    syncs: bool,
) -> Result<Option<Database>, StoreRefusal> {
    let path = database_path(alloc, dir, member)?;
    if !exists(rt, path.as_str())? {
        return Ok(None);
    }
    Ok(Some(open_file(rt, path.as_str(), syncs)?))
}

/// A member's database, whose commits are brought to the disk; none where its file is not there. 40 and 43 where it can't be opened, 48
/// where another process has it.
pub fn find_database(
    rt: &HostRuntime,
    alloc: Global,
    dir: &str,
    member: Member,
) -> Result<Option<Database>, StoreRefusal> {
    find(rt, alloc, dir, member, true)
}

// A member's database. One that is not there is made where nothing was ever stored in it; else it is missing.
fn open_database(
    rt: &HostRuntime,
    alloc: Global,
    dir: &str,
    member: Member,
    tale: &Tale,
    syncs: bool,
) -> Result<Option<Database>, StoreRefusal> {
    let found = find(rt, alloc, dir, member, syncs)?;
    if found.is_some() || !tale.is_blank() {
        return Ok(found);
    }
    let path = database_path(alloc, dir, member)?;
    make_database(rt, alloc, dir, path.as_str())?;
    Ok(Some(open_file(rt, path.as_str(), syncs)?))
}

/// The members' databases, in their order, whose commits are brought to the disk; none for one that is missing. 40 and 43 where one can't
/// be opened, 48 where another process has it.
pub fn open_databases(
    rt: &HostRuntime,
    alloc: Global,
    dir: &str,
    past: &Past,
) -> Result<Vec<Option<Database>>, StoreRefusal> {
    open_each(rt, alloc, dir, past, true)
}

// One more behind these; after its refusal none of them stays open.
fn with_next<T: Drop>(all: Vec<T>, next: Result<T, StoreRefusal>) -> Result<Vec<T>, StoreRefusal> {
    let mut all = all;
    all.push(next?)?;
    Ok(all)
}

/// The same, and whether their commits are brought to the disk.
pub(crate) fn open_each(
    rt: &HostRuntime,
    alloc: Global,
    dir: &str,
    past: &Past,
    syncs: bool,
) -> Result<Vec<Option<Database>>, StoreRefusal> {
    let mut databases = Vec::new(alloc);
    let mut member: Member = 0;
    for tale in past.members() {
        member = member.saturating_add(1);
        databases = with_next(
            databases,
            open_database(rt, alloc, dir, member, tale, syncs),
        )?;
    }
    Ok(databases)
}
