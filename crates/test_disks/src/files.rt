//! The two files of a database, in memory, each of which stops after so many calls.
use sqlite::{Connection, Error, ErrorCode, FileStore, Files, Options};
use sqlite_disk::{Disk, Fuse, Memory};
use std::alloc::{AllocError, Global};

/// The files of a database: its log, and what the log is copied into.
pub(crate) type Pair = Files<Fuse<Memory>>;

/// A database over these.
pub(crate) type Database = Connection<FileStore<Fuse<Memory>>>;

/// How many calls a file takes that does not stop.
pub(crate) const ALL: u64 = u64::MAX;

// With a log of more frames than this a commit begins with a copy of the log into the database file.
const FRAMES: usize = 3;

/// A file that holds these bytes on its disk, and stops after so many calls.
pub(crate) fn file_of(alloc: Global, bytes: &[u8], calls: u64) -> Result<Fuse<Memory>, AllocError> {
    let mut file = Memory::new(alloc);
    file.write_at(0, bytes).map_err(|_| AllocError)?;
    file.sync().map_err(|_| AllocError)?;
    Ok(Fuse::new(file, calls))
}

/// Files with these bytes, which do not stop.
pub(crate) fn files_with(alloc: Global, log: &[u8], db: &[u8]) -> Result<Pair, AllocError> {
    let log = file_of(alloc, log, ALL)?;
    let db = file_of(alloc, db, ALL)?;
    Ok(Files { log, db })
}

/// Whether a file takes no more calls.
pub(crate) fn has_stopped(file: &mut Fuse<Memory>) -> bool {
    !file.may_be_used() || file.len().is_err()
}

fn options() -> Options {
    Options {
        cache_pages: 8,
        spill_pages: 8,
        checkpoint_frames: FRAMES,
        seed: 1,
    }
}

/// Opens the database that the files hold, or makes one.
pub(crate) fn open(alloc: Global, files: Pair) -> Result<Database, (Error, Pair)> {
    if !files.may_be_used() {
        return Err((Error::SqliteFailure(ErrorCode::CannotOpen), files));
    }
    match Connection::open_files(alloc, files, options()) {
        Ok(database) => Ok(database),
        Err((error, left)) => Err((error, left.into_files())),
    }
}
