//! What a machine that stops may leave of a file.
use crate::files::{Pair, files_with};
use sqlite_disk::{Crash, Fuse, Memory};
use std::alloc::{AllocError, Global};

/// Of what was written and not synced, how many quarters are on the disk at most.
pub(crate) const QUARTERS: usize = 4;

// All that was written to a file, and what it held at its last sync.
#[derive(Drop)]
struct Remains {
    written: Vec<u8>,
    synced: Vec<u8>,
}

// How many bytes two files have in common from their beginning.
fn common(first: &[u8], second: &[u8]) -> usize {
    let length = first.len().min(second.len());
    for at in 0..length {
        if first[at] != second[at] {
            return at;
        }
    }
    length
}

// Up to which of these bytes two files differ.
fn last_change(first: &[u8], second: &[u8]) -> usize {
    let length = first.len().min(second.len());
    if length < first.len() || length < second.len() {
        return first.len().max(second.len());
    }
    for back in 0..length {
        let at = length - 1 - back;
        if first[at] != second[at] {
            return at + 1;
        }
    }
    0
}

impl Remains {
    fn of(alloc: Global, file: &mut Fuse<Memory>) -> Result<Remains, AllocError> {
        let written = file.inner().bytes().to_vec(alloc)?;
        file.crash();
        let synced = file.inner().bytes().to_vec(alloc)?;
        Ok(Remains { written, synced })
    }

    // Whether all is synced.
    fn is_synced(&self) -> bool {
        self.written.as_slice() == self.synced.as_slice()
    }

    // The byte before which the disk has what was written, and from which on what was synced.
    fn end(&self, quarters: usize) -> usize {
        let first = common(&self.written, &self.synced);
        let last = last_change(&self.written, &self.synced);
        let length = last.saturating_sub(first);
        first.saturating_add((length / QUARTERS).saturating_mul(quarters))
    }

    // What is on the disk with so many quarters of what was written since.
    fn left(&self, alloc: Global, quarters: usize) -> Result<Vec<u8>, AllocError> {
        if quarters >= QUARTERS {
            return self.written.as_slice().to_vec(alloc);
        }
        let end = self.end(quarters);
        let head = self.written.get(..end).unwrap_or(&self.written);
        let mut bytes = head.to_vec(alloc)?;
        bytes.extend_from_slice(self.synced.get(end..).unwrap_or(&[]))?;
        Ok(bytes)
    }
}

/// What is left of both files of a database.
#[derive(Drop)]
pub(crate) struct Left {
    log: Remains,
    db: Remains,
}

impl Left {
    /// Of these files, which are at an end then.
    pub(crate) fn of(alloc: Global, files: &mut Pair) -> Result<Left, AllocError> {
        Ok(Left {
            log: Remains::of(alloc, &mut files.log)?,
            db: Remains::of(alloc, &mut files.db)?,
        })
    }

    /// Whether there is something to be tried with so many quarters of each file: what is synced is as it is.
    pub(crate) fn differs(&self, log: usize, db: usize) -> bool {
        (log == QUARTERS || !self.log.is_synced()) && (db == QUARTERS || !self.db.is_synced())
    }

    /// The files with so many quarters of what was written and not synced.
    pub(crate) fn files(&self, alloc: Global, log: usize, db: usize) -> Result<Pair, AllocError> {
        let log = self.log.left(alloc, log)?;
        let db = self.db.left(alloc, db)?;
        files_with(alloc, &log, &db)
    }
}
