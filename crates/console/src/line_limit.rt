//! An input whose lines are limited.
ghost use Rattle.std.specs.Prelude.{◌≡◌, ◌≤◌, take, IfOk, IsErr, OnErr};
ghost use Rattle.std.specs.Io.{ReadsAtMost};
ghost use Rattle.std.specs.Io.KnownBytes.{ReadConsumes};
ghost use Rattle.console.specs.Lines.{IsBehindEnd};

use std::io;
use std::io::{ErrorKind, Read};

/// How many bytes may stand behind the last line's end; then nothing more is read.
const LINE_MOST: usize = 1_048_576;

// How many bytes stand behind the last line's end, where so many stood there before these came.
fn behind_end(before: usize, bytes: &[u8]) -> usize
    ensures { IsBehindEnd before bytes.now result }
{
    match bytes.iter().rposition(|byte| *byte == b'\n') {
        Some(at) => bytes.len() - at - 1,
        None => before.saturating_add(bytes.len()),
    }
}

/// A reader that gives an error, `InvalidData`, in place of more where a line is so long that it can be none of a script.
#[derive(Drop)]
pub(crate) struct LineLimit<R: Read + Drop> {
    pub reader: R,
    /// How many bytes came behind the last line's end.
    pub length: usize,
}

impl<R: Read + Drop> LineLimit<R> {
    pub fn new(reader: R) -> LineLimit<R>
        ensures { (result.reader ≡ reader) × (result.length ≡ 0) }
    {
        LineLimit { reader, length: 0 }
    }
}

impl<R: Read + Drop> Read for LineLimit<R> {
    ghost remaining = { λ limit. R.remaining limit.reader };

    fn read(&mut self, buf: &mut [u8]) -> io::Result<usize>
        ensures bound { ReadsAtMost result buf.new }
        ensures bytes { ReadConsumes (R.remaining self.old.reader) (R.remaining self.new.reader) result buf.new }
        ensures long { 1048576 ≤ self.old.length → IsErr result × (self.new ≡ self.old) }
        ensures count { IfOk result (λ count. IsBehindEnd self.old.length (take count buf.new) self.new.length) }
        ensures err { OnErr result (self.new.length ≡ self.old.length) }
    {
        if self.length >= LINE_MOST {
            return Err(io::Error::from(ErrorKind::InvalidData));
        }
        let count = self.reader.read(buf)?;
        self.length = behind_end(self.length, &buf[..count]);
        Ok(count)
    }
}
