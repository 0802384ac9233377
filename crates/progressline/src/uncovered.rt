//! A writer before whose text a line is taken away.
use crate::telling::Progress;
use std::io;

/// A writer to what may be the same terminal: before it writes, what is shown of a work is taken away.
#[derive(Drop)]
pub struct Uncovered<'a, W: Drop, P> {
    writer: W,
    progress: &'a P,
}

impl<'a, W: Drop, P> Uncovered<'a, W, P> {
    pub fn new(writer: W, progress: &'a P) -> Uncovered<'a, W, P> {
        Uncovered { writer, progress }
    }
}

impl<'a, W: io::Write + Drop, P: Progress> io::Write for Uncovered<'a, W, P> {
    ghost contents = { λ it. W.contents it.writer };

    fn write(&mut self, bytes: &[u8]) -> io::Result<usize> {
        self.progress.hide();
        self.writer.write(bytes)
    }

    fn flush(&mut self) -> io::Result<()> {
        self.writer.flush()
    }
}
