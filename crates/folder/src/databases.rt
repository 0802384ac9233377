//! The databases of the nodes of one run.
ghost use Rattle.std.specs.Prelude.{◌≡◌, IfOk, vec_len};

use crate::files::{Folder, in_words, no_memory, path_of, there_already};
use crate::flights::write_flights;
use diagnosis::{Cause, Found, Name, Trouble};
use durable::{first_page, set_up};
use fault::{Refusal, Text};
use flight::Records;
use sqlite::{Alter, Connection, Error, ErrorCode, File as DatabaseFile, FileStore};
use std::alloc::Global;
use std::fs::{File, OpenFile};
use std::io::Write;
use std::os::unix::fs::MetadataExt;
use std::rt::Files;
use std::{fs, io};

/// A connection to a node's database.
pub type Image = Connection<FileStore<DatabaseFile>>;

// Which file this is, whatever its name is.
#[derive(Clone, Copy, Debug, PartialEq, Eq, Drop)]
struct Identity {
    device: u64,
    number: u64,
}

/// The databases that a run made in its folder, node by node.
#[derive(Drop)]
pub struct Made<'a> {
    alloc: Global,
    folder: Folder<'a>,
    files: Vec<Identity>,
}

fn identity_of(found: &fs::Metadata) -> Identity {
    Identity {
        device: found.dev(),
        number: found.ino(),
    }
}

// What the database answered to this: 43 for want of memory, else 40.
fn of_database<'a>(file: Name<'a>, tried: &'static str, error: Error) -> Trouble<'a> {
    let refusal = match error {
        Error::SqliteFailure(ErrorCode::OutOfMemory) => Refusal::NoMemory,
        _ => Refusal::StoreFault,
    };
    let found = Found::Database(error);
    Trouble {
        refusal,
        cause: Cause { file, tried, found },
    }
}

// Writes these bytes into a new file. Which file it is.
fn fill_file<F: OpenFile + Write>(file: &mut F, bytes: &[u8]) -> io::Result<Identity> {
    file.write_all(bytes)?;
    Ok(identity_of(&file.metadata()?))
}

// Makes a file with these bytes where there is none.
fn make_file<'a, R: Files>(
    rt: &R,
    file: Name<'a>,
    path: &str,
    bytes: &[u8],
) -> Result<Identity, Trouble<'a>> {
    let tried = "making the database";
    let mut made = match File::create_new(rt, path) {
        Ok(made) => made,
        Err(error) if error.kind() == io::ErrorKind::AlreadyExists => {
            return Err(there_already(file));
        }
        Err(error) => return Err(Trouble::of_system(file, tried, Refusal::StoreFault, error)),
    };
    match fill_file(&mut made, bytes) {
        Ok(identity) => Ok(identity),
        Err(error) => {
            let _ = fs::remove_file(rt, path);
            Err(Trouble::of_system(file, tried, Refusal::StoreFault, error))
        }
    }
}

// Makes the tables of a member's store in an empty database.
fn make_tables<S: Alter>(conn: &mut Connection<S>) -> Result<(), Error> {
    if !conn.is_autocommit() {
        return Err(Error::SqliteFailure(ErrorCode::TransactionState));
    }
    set_up(conn)?;
    Ok(())
}

fn open<'a>(host: &HostRuntime, file: Name<'a>, path: &str) -> Result<Image, Trouble<'a>> {
    Connection::open(host, path).map_err(|error| of_database(file, "opening the database", error))
}

// Makes the tables in an empty file, and puts them into the file itself, with nothing left in its log.
fn fill<'a>(host: &HostRuntime, file: Name<'a>, path: &str) -> Result<(), Trouble<'a>> {
    let mut conn = open(host, file, path)?;
    make_tables(&mut conn).map_err(|error| of_database(file, "making its tables", error))?;
    conn.close()
        .map_err(|error| of_database(file, "making its tables", error))
}

// Copies the log of a database into the file, and removes the log while no other program can open the database.
fn close_one<'a, R: Files>(
    rt: &R,
    host: &HostRuntime,
    file: Name<'a>,
    path: &str,
    log: &str,
) -> Result<(), Trouble<'a>> {
    let conn = open(host, file, path)?;
    let _files = match conn.close_files() {
        Ok(files) => files,
        Err((error, store)) => {
            drop(store.close());
            return Err(of_database(file, "closing the database", error));
        }
    };
    match fs::remove_file(rt, log) {
        Err(error) if error.kind() != io::ErrorKind::NotFound => {
            let tried = "removing its log, which is empty";
            Err(Trouble::of_system(file, tried, Refusal::StoreFault, error))
        }
        _ => Ok(()),
    }
}

impl<'a> Made<'a> {
    // Makes the database of the next node, and opens it.
    fn add<R: Files>(
        &mut self,
        rt: &R,
        host: &HostRuntime,
        node: u8,
    ) -> Result<Image, Trouble<'a>> {
        let file = self.folder.file(node, ".db");
        let path = path_of(self.alloc, file)?;
        if self.files.reserve(1).is_err() {
            return Err(no_memory(file, "making the database"));
        }
        let Ok(page) = first_page(self.alloc) else {
            return Err(no_memory(file, "making the database"));
        };
        let made = make_file(rt, file, path.as_str(), page.as_slice())?;
        self.files.push_reserved(made);
        fill(host, file, path.as_str())?;
        open(host, file, path.as_str())
    }

    fn add_all<R: Files>(&mut self, rt: &R, host: &HostRuntime) -> Result<Vec<Image>, Trouble<'a>>
        ensures { IfOk result (λ images. vec_len images ≡ self.old.folder.nodes) }
    {
        let folder = self.folder;
        let mut images = Vec::new(self.alloc);
        for at in 0..folder.nodes {
            let node = at.saturating_add(1);
            let image = self.add(rt, host, node)?;
            if images.push(image).is_err() {
                return Err(no_memory(folder.file(node, ".db"), "making the database"));
            }
        }
        Ok(images)
    }

    // Whether the file at this path is the one that was made.
    fn is_there<R: Files>(&self, rt: &R, at: usize, path: &str) -> bool {
        match fs::symlink_metadata(rt, path) {
            Ok(found) => self.files.get(at) == Some(&identity_of(&found)),
            Err(_) => false,
        }
    }

    // Removes the database of a node and its log, if it is the one that was made.
    fn remove_one<R: Files>(&self, rt: &R, at: usize, node: u8) -> Result<(), Trouble<'a>> {
        let path = path_of(self.alloc, self.folder.file(node, ".db"))?;
        let log = path_of(self.alloc, self.folder.file(node, ".db-wal"))?;
        if self.is_there(rt, at, path.as_str()) {
            let _ = fs::remove_file(rt, log.as_str());
            let _ = fs::remove_file(rt, path.as_str());
        }
        Ok(())
    }

    /// Removes the databases that were made, and nothing else; what can't be removed stays. Nobody has them open any more.
    pub fn remove<R: Files>(&self, rt: &R) {
        for at in 0..self.folder.nodes {
            let _ = self.remove_one(rt, usize::from(at), at.saturating_add(1));
        }
    }

    fn close_node<R: Files>(
        &self,
        rt: &R,
        host: &HostRuntime,
        at: usize,
        node: u8,
    ) -> Result<(), Trouble<'a>> {
        let file = self.folder.file(node, ".db");
        let path = path_of(self.alloc, file)?;
        let log = path_of(self.alloc, self.folder.file(node, ".db-wal"))?;
        if !self.is_there(rt, at, path.as_str()) {
            let words = "the database of the run is not there any more";
            return Err(in_words(file, "closing the database", Refusal::StoreFault, words));
        }
        close_one(rt, host, file, path.as_str(), log.as_str())
    }

    /// Closes the databases that were made, which nobody has open any more: each is whole without its log then, which is
    /// removed. The error is that of the first that can't be closed; the others are closed all the same.
    pub fn close<R: Files>(&self, rt: &R, host: &HostRuntime) -> Result<(), Trouble<'a>> {
        let mut closed = Ok(());
        for at in 0..self.folder.nodes {
            let ended = self.close_node(rt, host, usize::from(at), at.saturating_add(1));
            if closed.is_ok() {
                closed = ended;
            }
        }
        closed
    }
}

impl<'a> Made<'a> {
    /// Ends a run: closes the databases, and writes the flight of each node beside them. The error is that of `close`, else that
    /// of `write_flights`; the flights are written in either case.
    pub fn finish<R: Files>(
        self,
        rt: &R,
        host: &HostRuntime,
        schema: &Text,
        records: Records,
    ) -> Result<(), Trouble<'a>> {
        let closed = self.close(rt, host);
        let written = write_flights(rt, self.alloc, self.folder, schema, records);
        closed?;
        written
    }
}

/// A new database in a file of the folder for each node, `node1.db`, `node2.db` and so on, each with the tables of a member
/// that has stored nothing, in the file itself. 44 where the folder has a file of one of the nodes already, and no file is
/// made then; 40 where the folder is not there or a database can't be made, 43 for want of memory. After each of these
/// the files that were made are removed, and no others.
pub fn make_databases<'a, R: Files>(
    rt: &R,
    host: &HostRuntime,
    alloc: Global,
    folder: Folder<'a>,
) -> Result<(Made<'a>, Vec<Image>), Trouble<'a>>
    ensures { IfOk result (λ made. vec_len made.1 ≡ folder.entry.nodes) }
{
    folder.check(rt, alloc)?;
    let mut made = Made {
        alloc,
        folder,
        files: Vec::new(alloc),
    };
    match made.add_all(rt, host) {
        Ok(images) => Ok((made, images)),
        Err(trouble) => {
            made.remove(rt);
            Err(trouble)
        }
    }
}
