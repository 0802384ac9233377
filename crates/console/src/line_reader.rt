//! Lines that come in.
ghost use Rattle.std.specs.Prelude.{◌≡◌, ◌+◌, ◌⊎◌, min, IfOk, IfErr, MatchOption, string_bytes};
ghost use Rattle.std.specs.Io.BufRead.{ends_with_byte, strip_last};
ghost use Rattle.std.specs.Io.Buffered.{reader_buffer};
ghost use Rattle.fault.specs.declared.refusal.Refusal.TheVariants.{BadScript, NoMemory};
ghost use Rattle.console.specs.Lines.{has_end, left_of, IsNextLine, IsNoLine};

use crate::line_limit::LineLimit;
use fault::Refusal;
use std::alloc::Global;
use std::io;
use std::io::{BufRead, BufReader, Read};
use store::StoreRefusal;

/// Lines of a reader, counted from 1.
#[derive(Drop)]
pub(crate) struct LineReader<R: Read + Drop> {
    pub alloc: Global,
    pub reader: BufReader<LineLimit<R>>,
    /// How many lines came.
    pub count: usize,
}

// Why this line could not be read.
fn refusal_at(line: usize, error: &io::Error) -> StoreRefusal
    ensures { (result ≡ StoreRefusal.Refused NoMemory) ⊎ (result ≡ StoreRefusal.Refused (BadScript 0)) ⊎ (result ≡ StoreRefusal.Refused (BadScript line)) }
{
    match error.kind() {
        io::ErrorKind::OutOfMemory => StoreRefusal::Refused(Refusal::NoMemory),
        io::ErrorKind::InvalidData => StoreRefusal::Refused(Refusal::BadScript(line)),
        _ => StoreRefusal::Refused(Refusal::BadScript(0)),
    }
}

// Takes off the last byte, if it is this one. Whether it was.
fn cut_last(bytes: &mut Vec<u8>, byte: u8) -> bool
    ensures was { result ≡ ends_with_byte byte bytes.old.items }
    ensures left { bytes.new.items ≡ strip_last byte bytes.old.items }
{
    let length = bytes.len();
    if length == 0 || bytes[length - 1] != byte {
        return false;
    }
    bytes.truncate(length - 1);
    true
}

impl<R: Read + Drop> LineReader<R> {
    pub fn new(alloc: Global, reader: BufReader<LineLimit<R>>) -> LineReader<R>
        ensures { (result.reader ≡ reader) × (result.count ≡ 0) }
    {
        LineReader {
            alloc,
            reader,
            count: 0,
        }
    }

    /// Which line was the last one that came.
    pub fn count(&self) -> usize
        ensures { result ≡ self.now.count }
    {
        self.count
    }

    /// Whether a whole line has come in already, so that `next` need not wait for it.
    pub fn has_line(&self) -> bool
        ensures { result ≡ has_end (reader_buffer self.now.reader) }
    {
        self.reader.buffer().contains(&b'\n')
    }

    // The bytes of the next line, without LF or CR LF at its end; none at the end of the input.
    fn next_bytes(&mut self) -> Result<Option<Vec<u8>>, StoreRefusal>
        ensures line { IfOk result (λ found. MatchOption found (IsNoLine (left_of R.remaining self.old.reader) (left_of R.remaining self.new.reader)) (λ line. IsNextLine (left_of R.remaining self.old.reader) line.items (left_of R.remaining self.new.reader))) }
        ensures count { IfOk result (λ found. MatchOption found (self.new.count ≡ self.old.count) (λ _. self.new.count ≡ min (self.old.count + 1) usize.MAX)) }
        ensures err { IfErr result (λ refusal. (refusal ≡ StoreRefusal.Refused NoMemory) ⊎ (refusal ≡ StoreRefusal.Refused (BadScript 0)) ⊎ (refusal ≡ StoreRefusal.Refused (BadScript (min (self.old.count + 1) usize.MAX)))) }
    {
        let line = self.count.saturating_add(1);
        let mut bytes = Vec::new(self.alloc);
        match self.reader.read_until(b'\n', &mut bytes) {
            Ok(0) => return Ok(None),
            Ok(_) => {}
            Err(error) => return Err(refusal_at(line, &error)),
        }
        self.count = line;
        if cut_last(&mut bytes, b'\n') {
            let _ = cut_last(&mut bytes, b'\r');
        }
        Ok(Some(bytes))
    }

    /// The next line, without LF or CR LF at its end; none at the end of the input. 60 at line 0 where the input can't be read, and at the
    /// line where that is not UTF-8 or too long (`LineLimit`); 43 for want of memory.
    pub fn next(&mut self) -> Result<Option<String>, StoreRefusal>
        ensures line { IfOk result (λ found. MatchOption found (IsNoLine (left_of R.remaining self.old.reader) (left_of R.remaining self.new.reader)) (λ line. IsNextLine (left_of R.remaining self.old.reader) (string_bytes line) (left_of R.remaining self.new.reader))) }
        ensures count { IfOk result (λ found. MatchOption found (self.new.count ≡ self.old.count) (λ _. self.new.count ≡ min (self.old.count + 1) usize.MAX)) }
        ensures err { IfErr result (λ refusal. (refusal ≡ StoreRefusal.Refused NoMemory) ⊎ (refusal ≡ StoreRefusal.Refused (BadScript 0)) ⊎ (refusal ≡ StoreRefusal.Refused (BadScript (min (self.old.count + 1) usize.MAX)))) }
    {
        let Some(bytes) = self.next_bytes()? else {
            return Ok(None);
        };
        match String::from_utf8(bytes) {
            Ok(line) => Ok(Some(line)),
            Err(_) => Err(StoreRefusal::Refused(Refusal::BadScript(self.count))),
        }
    }
}
