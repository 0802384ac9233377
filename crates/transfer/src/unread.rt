//! What is wrong in a file, and where.
ghost use Rattle.std.specs.Prelude.{◌≡◌};
ghost use Rattle.transfer.specs.declared.unread.Stop.TheVariants.{NoMemory};

use fault::Refusal;
use std::alloc::{AllocError, AllocFailed};

/// What is wrong in a file.
#[derive(Debug, Drop)]
pub struct Fault {
    /// The line, where the first is 1.
    pub line: usize,
    /// How many bytes of that line stand before it.
    pub before: usize,
    pub refusal: Refusal,
}

/// Why a file is not read to its end.
#[derive(Debug, Drop)]
pub enum Stop {
    /// For want of memory.
    NoMemory,
    /// For its first fault.
    At(Fault),
}

impl Stop {
    /// That this is refused there.
    pub(crate) fn at(line: usize, before: usize, refusal: Refusal) -> Stop
        ensures { result ≡ Stop.At (record { line = line; before = before; refusal = refusal }) }
    {
        Stop::At(Fault {
            line,
            before,
            refusal,
        })
    }
}

impl From<AllocError> for Stop {
    ghost from_gives = { λ _ s. s ≡ NoMemory };

    fn from(_error: AllocError) -> Stop {
        Stop::NoMemory
    }
}

impl<T: Drop> From<AllocFailed<T>> for Stop {
    ghost from_gives = { λ _ s. s ≡ NoMemory };

    fn from(_error: AllocFailed<T>) -> Stop {
        Stop::NoMemory
    }
}
