//! The file of a journal.
ghost use Rattle.std.specs.Prelude.{◌≡◌, None, OnOk, true};

use crate::faults::device_error;
use std::alloc::Global;
use std::fs::File;
use std::io;
use std::io::{Seek, SeekFrom, Write};
use store::{Device, DeviceError};

/// How many bytes of room are written ahead at once.
pub const ROOM: u64 = 65_536;

/// When what is written to a journal is brought to the disk.
#[derive(Clone, Copy, PartialEq, Eq, Debug)]
pub enum Syncs {
    /// Not before the journal is finished.
    AtTheEnd,
    /// When it is settled.
    WhenSettled,
    /// Each block before the next step, which a database that syncs may rest on.
    Always,
}

/// The file of a journal. Room is written ahead as zeros, which are brought to the disk before a block goes there: a block over bytes that
/// are there reaches the disk in a fraction of the time of one that makes the file longer.
#[derive(Drop)]
pub struct JournalFile {
    alloc: Global,
    file: File,
    /// Where the next block goes.
    at: u64,
    /// Up to where the file has bytes.
    room: u64,
    syncs: Syncs,
    /// Whether nothing was written since it settled.
    is_settled: bool,
}

impl JournalFile {
    /// Over a new file. Where it syncs at the end alone, a kill of the process loses nothing, but a power cut may.
    pub(crate) fn new(alloc: Global, file: File, syncs: Syncs) -> JournalFile {
        JournalFile {
            alloc,
            file,
            at: 0,
            room: 0,
            syncs,
            is_settled: true,
        }
    }

    // Brings what was written to the disk, unless that is for the end.
    fn sync(&self) -> io::Result<()> {
        match self.syncs {
            Syncs::AtTheEnd => Ok(()),
            Syncs::WhenSettled | Syncs::Always => self.file.sync_data(),
        }
    }

    // Writes room ahead, so that so many bytes more fit.
    fn make_room(&mut self, length: u64) -> io::Result<()> {
        let wanted = self.at.saturating_add(length);
        if wanted <= self.room {
            return Ok(());
        }
        let more = ROOM.max(length);
        let zeros = Vec::from_elem(self.alloc, 0u8, more as usize)?;
        self.file.seek(SeekFrom::Start(self.room))?;
        self.file.write_all(&zeros)?;
        self.room = self.room.saturating_add(more);
        self.sync()?;
        self.file.seek(SeekFrom::Start(self.at))?;
        Ok(())
    }

    fn put(&mut self, block: &[u8]) -> io::Result<()> {
        self.make_room(block.len() as u64)?;
        self.is_settled = false;
        self.file.write_all(block)?;
        self.at = self.at.saturating_add(block.len() as u64);
        match self.syncs {
            Syncs::Always => self.settle_all(),
            Syncs::AtTheEnd | Syncs::WhenSettled => Ok(()),
        }
    }

    // Brings what was written since it settled to the disk.
    fn settle_all(&mut self) -> io::Result<()>
        ensures { OnOk result (self.new.is_settled ≡ true) }
    {
        if !self.is_settled {
            self.sync()?;
            self.is_settled = true;
        }
        Ok(())
    }

    /// Gives back the room that was not used, and brings the file to the disk.
    pub(crate) fn finish(self) -> io::Result<()> {
        self.file.set_len(self.at)?;
        self.file.sync_all()
    }
}

impl Device for JournalFile {
    ghost contents = { λ _. None };

    ghost is_settled = { λ file. file.is_settled ≡ true };

    fn write(&mut self, block: &[u8]) -> Result<(), DeviceError> {
        match self.put(block) {
            Ok(()) => Ok(()),
            Err(error) => Err(device_error(&error)),
        }
    }

    fn settle(&mut self) -> Result<(), DeviceError> {
        match self.settle_all() {
            Ok(()) => Ok(()),
            Err(error) => Err(device_error(&error)),
        }
    }
}
