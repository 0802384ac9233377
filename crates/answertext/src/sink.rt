//! Where texts go: chunk by chunk into a formatter, or whole into a writer, of which it is known what it holds where it fails.
ghost use Rattle.std.specs.Prelude.{ℕ, List, [], ◌++◌, ⊤, IfSome};
ghost use Rattle.std.specs.Fmt.{HasWritten, IsPlainFormatter};
ghost use Rattle.answertext.specs.Sinks.{WritesOrBegins, Puts};
ghost use Rattle.answertext.specs.Appending.{has_written-nothing, has_written-more};

use std::{fmt, io};

/// What takes texts chunk by chunk.
pub trait Sink {
    /// Why a text was not taken whole.
    type Fault: From<fmt::Error>;

    /// The sink before, a text that was put whole, and the sink after.
    ghost takes: { Self → List ℕ → Self → Type 0 };

    /// The sink before, a text of which a beginning was put, and the sink after.
    ghost begins: { Self → List ℕ → Self → Type 0 };

    /// Puts a chunk. At a fault a beginning of it may have been put.
    fn put<D: fmt::Display + Drop>(&mut self, chunk: D) -> Result<(), Self::Fault>
        ensures { IfSome (D.output chunk) (λ text. Puts takes begins self.old result text self.new) };

    ghost nothing: { (a : Self) → takes a [] a };

    ghost not_begun: { (a : Self) (x : List ℕ) → begins a x a };

    ghost then_takes: { (a b c : Self) (x y : List ℕ) → takes a x b → takes b y c → takes a (x ++ y) c };

    ghost then_begins: { (a b c : Self) (x y : List ℕ) → takes a x b → begins b y c → begins a (x ++ y) c };

    ghost longer: { (a b : Self) (x y : List ℕ) → begins a x b → begins a (x ++ y) b };
}

impl<W: fmt::Write> Sink for fmt::Formatter<W> {
    type Fault = fmt::Error;

    ghost takes = { λ a text b. IsPlainFormatter a → HasWritten W.write_str_gives a text b };

    ghost begins = { λ a text b. ⊤ };

    fn put<D: fmt::Display + Drop>(&mut self, chunk: D) -> fmt::Result {
        self.write(chunk)
    }

    ghost nothing = { λ a plain. has_written-nothing W.write_str_gives a plain };

    ghost not_begun = { λ a x. tt };

    ghost then_takes = { λ a b c x y p q plain. has_written-more W.write_str_gives a b c x y (p plain) (q (p plain).plain) };

    ghost then_begins = { λ a b c x y p q. q };

    ghost longer = { λ a b x y p. p };
}

/// Writes until all of the text is written, also after a write that was interrupted. Where the writer fails, its
/// error is returned, and a beginning of the text was written.
pub fn write_whole<W: io::Write>(text: &str, writer: &mut W) -> io::Result<()>
    ensures { WritesOrBegins (W.contents writer.old) (W.contents writer.new) result text.now }
{
    let mut rest = text.as_bytes();
    for _ in 0..u64::MAX {
        if rest.is_empty() {
            return Ok(());
        }
        match writer.write(rest) {
            Ok(0) => return Err(io::Error::from(io::ErrorKind::WriteZero)),
            Ok(count) => rest = &rest[count..],
            Err(error) if error.kind() == io::ErrorKind::Interrupted => {}
            Err(error) => return Err(error),
        }
    }
    Err(io::Error::from(io::ErrorKind::Interrupted))
}
