//! Databases that take the place of others.
use crate::databases::{Database, database_path, make_database, open_file};
use crate::faults::file_refusal;
use crate::place::{exists, sync_folder};
use model::member::Member;
use std::alloc::{AllocError, Global};
use std::fs;
use store::StoreRefusal;

// How many databases of a member may be kept beside the one that it has.
const KEPT_MOST: u32 = 1_000;

// Where a member's next database is made.
fn next_path(alloc: Global, dir: &str, member: Member) -> Result<String, AllocError> {
    format!(in alloc; "{dir}/node{member}.db.next")
}

// Where the log of a database is.
fn log_path(alloc: Global, path: &str) -> Result<String, AllocError> {
    format!(in alloc; "{path}-wal")
}

// Removes a file, if it is there.
fn remove(rt: &HostRuntime, path: &str) -> Result<(), StoreRefusal> {
    if !exists(rt, path)? {
        return Ok(());
    }
    fs::remove_file(rt, path).map_err(|error| file_refusal(&error))
}

// Moves a file, if it is there. Whether it was.
fn put_aside(rt: &HostRuntime, path: &str, aside: &str) -> Result<bool, StoreRefusal> {
    if !exists(rt, path)? {
        return Ok(false);
    }
    match fs::rename(rt, path, aside) {
        Ok(()) => Ok(true),
        Err(error) => Err(file_refusal(&error)),
    }
}

/// A new database for a member, beside its own, that holds nothing. One that was begun before and not put in its place is gone. 38, 40 and
/// 43 where it can't be made.
pub fn begin_database(
    rt: &HostRuntime,
    alloc: Global,
    dir: &str,
    member: Member,
) -> Result<Database, StoreRefusal> {
    let path = next_path(alloc, dir, member)?;
    remove(rt, log_path(alloc, path.as_str())?.as_str())?;
    make_database(rt, alloc, dir, path.as_str())?;
    open_file(rt, path.as_str(), true)
}

// The first of the names that a database of a member is kept under which no file has: `node1.db.old1` and so on. 56 where all are taken.
fn free_name(
    rt: &HostRuntime,
    alloc: Global,
    dir: &str,
    member: Member,
) -> Result<String, StoreRefusal> {
    for number in 1..=KEPT_MOST {
        let name = format!(in alloc; "node{member}.db.old{number}")?;
        let path = format!(in alloc; "{dir}/{name}")?;
        let log = log_path(alloc, path.as_str())?;
        if !exists(rt, path.as_str())? && !exists(rt, log.as_str())? {
            return Ok(name);
        }
    }
    Err(StoreRefusal::NotEmpty)
}

// Moves what a member has of a database under this name. Whether its file was there.
fn put_all_aside(
    rt: &HostRuntime,
    alloc: Global,
    dir: &str,
    member: Member,
    name: &str,
) -> Result<bool, StoreRefusal> {
    let path = database_path(alloc, dir, member)?;
    let aside = format!(in alloc; "{dir}/{name}")?;
    let log = log_path(alloc, path.as_str())?;
    let log_aside = log_path(alloc, aside.as_str())?;
    put_aside(rt, log.as_str(), log_aside.as_str())?;
    put_aside(rt, path.as_str(), aside.as_str())
}

/// Puts the database that was begun for a member, and is closed, in the place of its own. What was there is kept under another name in the
/// same folder, which is given; none where the member had no file of a database.
///
/// 56 where a thousand are kept already, with nothing changed; 38, 40 and 43 where files can't be moved: then the member may have none.
pub fn put_database(
    rt: &HostRuntime,
    alloc: Global,
    dir: &str,
    member: Member,
) -> Result<Option<String>, StoreRefusal> {
    let name = free_name(rt, alloc, dir, member)?;
    let next = next_path(alloc, dir, member)?;
    remove(rt, log_path(alloc, next.as_str())?.as_str())?;
    let was_there = put_all_aside(rt, alloc, dir, member, name.as_str())?;
    let path = database_path(alloc, dir, member)?;
    fs::rename(rt, next.as_str(), path.as_str()).map_err(|error| file_refusal(&error))?;
    sync_folder(rt, dir).map_err(|error| file_refusal(&error))?;
    Ok(if was_there { Some(name) } else { None })
}
