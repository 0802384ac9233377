//! Databases in files, which sync or do not.
ghost use Rattle.std.specs.Prelude.{codes, ◌≡◌, IsTrue, IfOk, IfErr};
ghost use Rattle.sqlite.specs.Files.{file_state, IsOpened};
ghost use Rattle.sqlite.specs.Held.{IsNew};
ghost use Rattle.sqlite.specs.Opening.{is_open_error};
ghost use Rattle.sqlite.specs.State.{HasCleanDisk};
ghost use Rattle.sqlite_std_file.specs.File.{file_is_usable};
ghost use Rattle.unsynced.specs.Leaving.{inner_of, syncs_of};

use crate::disk::Unsynced;
use sqlite::{
    Connection, Error, ErrorCode, File, FileFrom, FileStore, Files, Options, Start, Unknown,
};
use sqlite_disk::Disk;
use sqlite_std_file::OpenError;
use std::hash::{BuildHasher, RandomState};
use std::io;

/// What a database in files that sync, or do not, lies in.
pub type Stored = FileStore<Unsynced<File>>;

/// A database in files that sync, or do not.
pub type Database = Connection<Stored>;

fn failure(code: ErrorCode) -> Error
    ensures { result ≡ Error.SqliteFailure code }
{
    Error::SqliteFailure(code)
}

fn error_of(error: OpenError) -> Error
    ensures { IsTrue (is_open_error result) }
{
    match error {
        OpenError::OutOfMemory => failure(ErrorCode::OutOfMemory),
        OpenError::Busy => failure(ErrorCode::DatabaseBusy),
        OpenError::Io(error) if error.kind() == io::ErrorKind::OutOfMemory => failure(
            ErrorCode::OutOfMemory,
        ),
        _ => failure(ErrorCode::CannotOpen),
    }
}

// The files at a path, which are brought to the disk as they are opened.
fn files_at<S: Start>(
    rt: &HostRuntime,
    path: &str,
    start: S,
    syncs: bool,
) -> Result<Files<Unsynced<FileFrom<S>>>, Error>
    ensures memory { path.now ≡ codes ":memory:" → result ≡ Err (Error.SqliteFailure ErrorCode.CannotOpen) }
    ensures named { IfErr result (λ e. IsTrue (is_open_error e)) }
    ensures usable { IfOk result (λ files. IsTrue (file_is_usable S.Start (inner_of files.log)) × IsTrue (file_is_usable S.Start (inner_of files.db))) }
    ensures syncs { IfOk result (λ files. (syncs_of files.log ≡ syncs) × (syncs_of files.db ≡ syncs)) }
{
    if path == ":memory:" || path.starts_with("file:") {
        return Err(failure(ErrorCode::CannotOpen));
    }
    match sqlite_std_file::open(rt, path, start) {
        Ok(Files { log, db }) => Ok(Files {
            log: Unsynced::new(log, syncs),
            db: Unsynced::new(db, syncs),
        }),
        Err(error) => Err(error_of(error)),
    }
}

fn options(rt: &HostRuntime) -> Result<Options, Error>
    ensures { IfErr result (λ e. e ≡ Error.SqliteFailure ErrorCode.CannotOpen) }
{
    match RandomState::new(rt) {
        Ok(state) => Ok(Options::new(state.hash_one(&0u8))),
        Err(_) => Err(failure(ErrorCode::CannotOpen)),
    }
}

// A connection over files.
fn connect<D: Disk + Drop>(
    rt: &HostRuntime,
    files: Files<D>,
    options: Options,
) -> Result<Connection<FileStore<D>>, Error>
    requires log { IsTrue (D.Disk.is_usable files.log) }
    requires db { IsTrue (D.Disk.is_usable files.db) }
    ensures named { IfErr result (λ e. IsTrue (is_open_error e)) }
    ensures opened { IfOk result (λ c. HasCleanDisk (file_state c) → IsOpened c) }
    ensures fresh { IfOk result IsNew }
    ensures guarded { IfOk result (λ c. HasCleanDisk (file_state c) → (file_state c).IsShielded) }
{
    match Connection::open_files_with(rt.alloc(), files, options, false) {
        Ok(mut database) => {
            database.set_clock(rt);
            Ok(database)
        }
        Err((error, _)) => Err(error),
    }
}

/// Opens the database in a file, or makes it, as `Connection::open` of the kit does, with what it refuses. What its files hold is on the
/// disk once it is open. Where it does not sync, what is committed from then on outlasts a kill of the process, and no power cut before
/// `close` has answered.
pub fn open(rt: &HostRuntime, path: &str, syncs: bool) -> Result<Database, Error>
    ensures memory { path.now ≡ codes ":memory:" → result ≡ Err (Error.SqliteFailure ErrorCode.CannotOpen) }
    ensures named { IfErr result (λ e. IsTrue (is_open_error e)) }
    ensures opened { IfOk result (λ c. HasCleanDisk (file_state c) → IsOpened c) }
    ensures fresh { IfOk result IsNew }
    ensures guarded { IfOk result (λ c. HasCleanDisk (file_state c) → (file_state c).IsShielded) }
{
    let files = files_at(rt, path, Unknown, syncs)?;
    let options = options(rt)?;
    connect(rt, files, options)
}

// A name for the disk that the files lie on: what is done over any is proved once.
trait Under {
    type Disk: Disk + Drop;
}

// The system's files.
#[derive(Drop)]
struct System;

impl Under for System {
    type Disk = File;
}

// Brings what a file holds to the disk, and gives it.
fn settle<D: Disk + Drop>(file: Unsynced<D>) -> io::Result<D>
    requires { IsTrue (D.Disk.is_usable (inner_of file)) }
{
    let mut inner = file.into_inner();
    inner.sync()?;
    Ok(inner)
}

// Closes a database over any disk, brings its files there, and gives them.
fn close_over<U: Under>(
    database: Connection<FileStore<Unsynced<U::Disk>>>,
) -> Result<Files<U::Disk>, Error> {
    match database.close_files() {
        Ok(Files { log, db }) => match (settle(db), settle(log)) {
            (Ok(db), Ok(log)) => Ok(Files { log, db }),
            _ => Err(failure(ErrorCode::SystemIoFailure)),
        },
        Err((error, store)) => {
            drop(store.close());
            Err(error)
        }
    }
}

/// Closes a database, brings its files to the disk, whether it syncs or not, and gives them: nobody else has it open before they are
/// dropped. The error of what could not be written or brought there: then it may be only in part.
pub fn close_files(database: Database) -> Result<Files<File>, Error> {
    close_over::<System>(database)
}

/// Closes a database, and brings its files to the disk, whether it syncs or not. The error of what could not be written or brought there:
/// then it may be only in part.
pub fn close(database: Database) -> Result<(), Error> {
    match close_files(database) {
        Ok(_) => Ok(()),
        Err(error) => Err(error),
    }
}
