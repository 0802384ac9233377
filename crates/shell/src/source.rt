//! Where the bytes of a script come from.
ghost use Rattle.std.specs.Prelude.{◌≡◌, ℕ, List, ⊤, IfOk, IfErr, IfSome};
ghost use Rattle.std.specs.declared.io.Error.{Error};

use std::alloc::Global;
use std::io;

/// What gives bytes to their end; each reader is one. `gives` is known only of bytes that a call gave, and `fails` only of an
/// error that a call gave: who promises them over any source can't invent bytes, nor an error.
pub trait Source {
    /// The source before a call, the bytes that the call gave, and the source after it.
    ghost gives: { Self → List ℕ → Self → Type 0 };

    /// The source before a call, the error that the call gave, and the source after it.
    ghost fails: { Self → Error → Self → Type 0 };

    /// All bytes that are left.
    fn read_all(&mut self, alloc: Global) -> io::Result<Vec<u8>>
        ensures given { IfOk result (λ bytes. gives self.old bytes.items self.new) }
        ensures failed { IfErr result (λ error. fails self.old error self.new) };
}

impl<R: io::Read> Source for R {
    ghost gives = { λ before bytes _. IfSome (R.remaining before) (λ known. bytes ≡ known) };

    ghost fails = { λ _ _ _. ⊤ };

    fn read_all(&mut self, alloc: Global) -> io::Result<Vec<u8>> {
        let mut bytes = Vec::new(alloc);
        self.read_to_end(&mut bytes)?;
        Ok(bytes)
    }
}
