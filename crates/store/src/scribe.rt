//! What writes a journal: lines go to a buffer, and the buffer goes to the device as one block.
ghost use Rattle.std.specs.Prelude.{◌≡◌, ◌≢◌, ◌⊎◌, Some, None, [], ◌∷◌, ◌++◌, IsErr, IfErr, OnOk, OnErr, IsSome, string_bytes};
ghost use Rattle.flight.specs.Additions.{Adds};
ghost use Rattle.journal.specs.Blocks.{block_text};
ghost use Rattle.journal.specs.Spelling.{line_text};
ghost use Rattle.store.specs.Continuing.{Continues, IsBlockWritten, IsUnfiled};
ghost use Rattle.store.specs.Lines.{no_lines, one_block, waiting};
ghost use Rattle.store.specs.Recording.{reading_after};
ghost use Rattle.store.specs.Writing.{AppendsPart, IsSummed, IsWritten, with_line};

use crate::device::{Device, DeviceError};
use journal::blocks::put_block;
use journal::{Line, put_line};
use std::alloc::Global;

/// Writes a journal. Lines go to a buffer, which `flush` writes as one block: right before a member saves, and right before anything is
/// given out, when `settle` also has all outlast a power cut; and at no other time. After an error it is spent: it writes nothing any more.
#[derive(Drop)]
pub struct Scribe<J: Device> {
    alloc: Global,
    device: J,
    buffer: String,
    /// The sum of the last block.
    sum: u64,
    /// What clocks showed last.
    reading: Option<i64>,
    failure: Option<DeviceError>,
}

impl<J: Device> Scribe<J> {
    /// One that goes on after a block of this sum.
    pub fn new(alloc: Global, device: J, sum: u64) -> Scribe<J>
        ensures device { result.device ≡ device }
        ensures empty { string_bytes result.buffer ≡ [] }
        ensures state { (result.sum ≡ sum) × (result.reading ≡ None) × (result.failure ≡ None) }
    {
        Scribe {
            alloc,
            device,
            buffer: String::new(alloc),
            sum,
            reading: None,
            failure: None,
        }
    }

    /// The sum of the last block.
    pub fn sum(&self) -> u64
        ensures { result ≡ self.now.sum }
    {
        self.sum
    }

    /// Why it writes nothing any more; none while it does.
    pub fn failure(&self) -> Option<DeviceError>
        ensures { result ≡ self.now.failure }
    {
        self.failure
    }

    /// It writes nothing any more; one that is spent stays as it is.
    pub fn spend(&mut self, failure: DeviceError)
        ensures spent { IsSome self.new.failure }
        ensures first { IsSome self.old.failure → self.new ≡ self.old }
        ensures same { (self.new.device ≡ self.old.device) × (self.new.buffer ≡ self.old.buffer) × (self.new.sum ≡ self.old.sum) }
        ensures continues { Continues J.contents self.old self.new no_lines }
    {
        if self.failure.is_none() {
            self.failure = Some(failure);
        }
    }

    // An error where it is spent.
    fn check(&self) -> Result<(), DeviceError>
        ensures ok { OnOk result (self.now.failure ≡ None) }
        ensures err { IfErr result (λ e. self.now.failure ≡ Some e) }
    {
        match self.failure {
            None => Ok(()),
            Some(failure) => Err(failure),
        }
    }

    // What clocks showed last behind this line.
    fn shown(&self, line: &Line) -> Option<i64>
        ensures { result ≡ reading_after self.now.reading line.now }
    {
        match line {
            Line::Clock { reading } => Some(*reading),
            _ => self.reading,
        }
    }

    /// Adds a line to the buffer; nothing goes to the device. For want of memory it is spent. Its failure where it is spent, with
    /// nothing changed.
    pub fn add(&mut self, line: &Line) -> Result<(), DeviceError>
        ensures ok { OnOk result (Adds (string_bytes self.old.buffer) (string_bytes self.new.buffer) (line_text line.now)) }
        ensures up { OnOk result ((self.old.failure ≡ None) × (self.new.failure ≡ None)) }
        ensures err { IfErr result (λ e. self.new.failure ≡ Some e) }
        ensures spent { IsSome self.old.failure → IsErr result × (self.new ≡ self.old) }
        ensures same { (self.new.device ≡ self.old.device) × (self.new.sum ≡ self.old.sum) }
        ensures shows { OnOk result (self.new.reading ≡ reading_after self.old.reading line.now) }
        ensures continues { OnOk result (Continues J.contents self.old self.new (waiting (line.now ∷ []))) }
        ensures lost { OnErr result (Continues J.contents self.old self.new no_lines) }
    {
        self.check()?;
        match put_line(self.alloc, line, &mut self.buffer) {
            Ok(()) => {
                self.reading = self.shown(line);
                Ok(())
            }
            Err(_) => {
                self.failure = Some(DeviceError::NoMemory);
                Err(DeviceError::NoMemory)
            }
        }
    }

    /// Says what clocks show, where they show something else than before. What `add` refuses.
    pub fn show(&mut self, reading: i64) -> Result<(), DeviceError>
        ensures told { self.old.reading ≡ Some reading → (self.new ≡ self.old) }
        ensures ok { OnOk result (self.old.reading ≢ Some reading → Adds (string_bytes self.old.buffer) (string_bytes self.new.buffer) (line_text (Line.Clock reading))) }
        ensures shown { OnOk result (self.new.reading ≡ Some reading) }
        ensures up { OnOk result (self.new.failure ≡ self.old.failure) }
        ensures err { IfErr result (λ e. self.new.failure ≡ Some e) }
        ensures same { (self.new.device ≡ self.old.device) × (self.new.sum ≡ self.old.sum) }
        ensures continues { IsUnfiled J.contents (Some self.old) (Some self.new) }
    {
        if self.reading == Some(reading) {
            return Ok(());
        }
        self.add(&Line::Clock { reading })
    }

    // Writes the buffer's lines as a block.
    fn write(&mut self) -> Result<(), DeviceError>
        requires { string_bytes self.old.buffer ≢ [] }
        ensures ok { OnOk result (IsWritten (J.contents self.old.device) (J.contents self.new.device) self.old.sum (string_bytes self.old.buffer)) }
        ensures empty { OnOk result (string_bytes self.new.buffer ≡ []) }
        ensures sum { OnOk result (IsSummed self.old.sum self.new.sum (string_bytes self.old.buffer)) }
        ensures err { OnErr result (AppendsPart (J.contents self.old.device) (J.contents self.new.device) (block_text self.old.sum (string_bytes self.old.buffer) [])) }
        ensures same { (self.new.failure ≡ self.old.failure) × (self.new.reading ≡ self.old.reading) }
    {
        let mut block = String::new(self.alloc);
        let Ok(sum) = put_block(self.sum, self.buffer.as_str(), &mut block) else {
            return Err(DeviceError::NoMemory);
        };
        self.device.write(block.as_bytes())?;
        self.sum = sum;
        self.buffer.clear();
        Ok(())
    }

    /// Writes what is in the buffer as one block, if anything is. After an error it is spent, and the device holds what it held and
    /// a beginning of that block at most. Its failure where it is spent, with nothing changed.
    pub fn flush(&mut self) -> Result<(), DeviceError>
        ensures reading { self.new.reading ≡ self.old.reading }
        ensures ok { OnOk result (IsWritten (J.contents self.old.device) (J.contents self.new.device) self.old.sum (string_bytes self.old.buffer)) }
        ensures empty { OnOk result (string_bytes self.new.buffer ≡ []) }
        ensures sum { OnOk result (IsSummed self.old.sum self.new.sum (string_bytes self.old.buffer)) }
        ensures up { OnOk result ((self.old.failure ≡ None) × (self.new.failure ≡ None)) }
        ensures part { OnErr result (self.old.failure ≡ None → AppendsPart (J.contents self.old.device) (J.contents self.new.device) (block_text self.old.sum (string_bytes self.old.buffer) [])) }
        ensures err { IfErr result (λ e. self.new.failure ≡ Some e) }
        ensures spent { IsSome self.old.failure → IsErr result × (self.new ≡ self.old) }
        ensures continues { OnOk result (IsBlockWritten J.contents self.old self.new) }
        ensures lost { OnErr result (Continues J.contents self.old self.new no_lines) }
    {
        self.check()?;
        if self.buffer.is_empty() {
            return Ok(());
        }
        match self.write() {
            Ok(()) => Ok(()),
            Err(failure) => {
                self.failure = Some(failure);
                Err(failure)
            }
        }
    }

    /// Writes what is in the buffer as one block, if anything is, and has all that was written outlast a power cut too. After an error it
    /// is spent, and the device holds what it held and a beginning of that block at most, which may be all of it. Its failure where it is
    /// spent, with nothing changed.
    pub fn settle(&mut self) -> Result<(), DeviceError>
        ensures ok { OnOk result (IsWritten (J.contents self.old.device) (J.contents self.new.device) self.old.sum (string_bytes self.old.buffer)) }
        ensures settled { OnOk result (J.is_settled self.new.device) }
        ensures empty { OnOk result (string_bytes self.new.buffer ≡ []) }
        ensures sum { OnOk result (IsSummed self.old.sum self.new.sum (string_bytes self.old.buffer)) }
        ensures up { OnOk result ((self.old.failure ≡ None) × (self.new.failure ≡ None)) }
        ensures part { OnErr result (self.old.failure ≡ None → AppendsPart (J.contents self.old.device) (J.contents self.new.device) (block_text self.old.sum (string_bytes self.old.buffer) [])) }
        ensures err { IfErr result (λ e. self.new.failure ≡ Some e) }
        ensures spent { IsSome self.old.failure → IsErr result × (self.new ≡ self.old) }
        ensures continues { OnOk result (IsBlockWritten J.contents self.old self.new) }
        ensures lost { OnErr result (Continues J.contents self.old self.new no_lines) }
    {
        self.flush()?;
        match self.device.settle() {
            Ok(()) => Ok(()),
            Err(failure) => {
                self.failure = Some(failure);
                Err(failure)
            }
        }
    }

    /// Adds a line, and writes what is then in the buffer. What `add` and `flush` refuse.
    pub fn tell(&mut self, line: &Line) -> Result<(), DeviceError>
        ensures ok { OnOk result (IsWritten (J.contents self.old.device) (J.contents self.new.device) self.old.sum (with_line (string_bytes self.old.buffer) line.now)) }
        ensures empty { OnOk result (string_bytes self.new.buffer ≡ []) }
        ensures spent { IsSome self.old.failure → IsErr result × (self.new ≡ self.old) }
        ensures continues { OnOk result (Continues J.contents self.old self.new (one_block (line.now ∷ []))) }
        ensures lost { OnErr result (Continues J.contents self.old self.new no_lines ⊎ Continues J.contents self.old self.new (waiting (line.now ∷ []))) }
    {
        self.add(line)?;
        self.flush()
    }

    /// The device, with what was written to it.
    pub fn into_device(self) -> J
        ensures { result ≡ self.device }
    {
        let Scribe { device, .. } = self;
        device
    }
}
