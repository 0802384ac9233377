//! Where texts go whole.
ghost use Rattle.std.specs.Prelude.{◌≡◌, ℕ, List, ⊤, IfErr, OnOk, Option};
ghost use Rattle.std.specs.Io.KnownBytes.{Keeps};
ghost use Rattle.std.specs.declared.io.Error.{Error};
ghost use Rattle.answertext.specs.Sinks.{WritesOrBegins};
ghost use Rattle.answertext.specs.Outlets.{IsLastError};
ghost use Rattle.answertext.specs.declared.outlet.WriteFault.TheVariants.{NoMemory, Writer};

use crate::sink::write_whole;
use std::alloc::AllocError;
use std::io;
use thiserror::Error;

/// Why a text was not written.
#[derive(Debug, Drop, Error)]
pub enum WriteFault {
    /// There was no memory for it, and nothing was written.
    #[error("no memory")]
    NoMemory,
    /// The outlet gave this error, after a beginning of the text.
    #[error("{0}")]
    Writer(io::Error),
}

impl From<AllocError> for WriteFault {
    ghost from_gives = { λ _ fault. fault ≡ NoMemory };

    fn from(_error: AllocError) -> WriteFault {
        WriteFault::NoMemory
    }
}

impl From<io::Error> for WriteFault {
    ghost from_gives = { λ error fault. fault ≡ Writer error };

    fn from(error: io::Error) -> WriteFault {
        WriteFault::Writer(error)
    }
}

/// What takes texts; each writer is one. Of an error `fails` is known only where a call gave it,
/// and `is_sent` only where a call succeeded: who promises them over any outlet can't invent an error, nor a success.
pub trait Outlet {
    /// The bytes that it holds, where they are known.
    ghost holds: { Self → Option (List ℕ) };

    /// The outlet before a call, the error that the call gave, and the outlet after it.
    ghost fails: { Self → Error → Self → Type 0 };

    /// What it took went on its way.
    ghost is_sent: { Self → Type 0 };

    /// Takes a text. At an error it took a beginning.
    fn put(&mut self, text: &str) -> io::Result<()>
        ensures written { WritesOrBegins (holds self.old) (holds self.new) result text.now }
        ensures failed { IfErr result (λ e. fails self.old e self.new) };

    /// Lets what it took go on its way.
    fn send(&mut self) -> io::Result<()>
        ensures kept { Keeps (holds self.old) (holds self.new) }
        ensures sent { OnOk result (is_sent self.new) }
        ensures failed { IfErr result (λ e. fails self.old e self.new) };
}

impl<W: io::Write> Outlet for W {
    ghost holds = { λ w. W.contents w };

    ghost fails = { λ _ _ _. ⊤ };

    ghost is_sent = { λ _. ⊤ };

    fn put(&mut self, text: &str) -> io::Result<()> {
        write_whole(text, self)
    }

    fn send(&mut self) -> io::Result<()> {
        self.flush()
    }
}

/// Puts a text, and lets it go on its way. At an error, which is that of the outlet's last call, a beginning of it was put.
pub fn tell<O: Outlet>(text: &str, outlet: &mut O) -> io::Result<()>
    ensures written { WritesOrBegins (O.holds outlet.old) (O.holds outlet.new) result text.now }
    ensures sent { OnOk result (O.is_sent outlet.new) }
    ensures failed { IfErr result (λ e. IsLastError O.fails e outlet.new) }
{
    outlet.put(text)?;
    outlet.send()
}
