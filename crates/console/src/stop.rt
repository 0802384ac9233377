//! What ends a command before its end, and of which file or folder that came.
ghost use Rattle.std.specs.Prelude.{◌≡◌};
ghost use Rattle.console.specs.Sittings.{fault_of, no_memory};

use diagnosis::{Cause, Found, Name, Trouble};
use fault::Refusal;
use std::alloc::{AllocError, AllocFailed};
use std::io;
use store::StoreRefusal;
use thiserror::Error;

/// Why a command ended before its end.
#[derive(Debug, Drop, Error)]
pub enum Fault {
    /// A refusal ended it.
    #[error("{0}")]
    Refused(StoreRefusal),
    /// Standard output could not be written.
    #[error("standard output: {0}")]
    Output(io::Error),
}

impl From<StoreRefusal> for Fault {
    fn from(refusal: StoreRefusal) -> Fault {
        Fault::Refused(refusal)
    }
}

impl From<Refusal> for Fault {
    ghost from_gives = { λ refusal fault. fault ≡ fault_of refusal };

    fn from(refusal: Refusal) -> Fault {
        Fault::Refused(StoreRefusal::Refused(refusal))
    }
}

impl From<io::Error> for Fault {
    fn from(error: io::Error) -> Fault {
        Fault::Output(error)
    }
}

impl From<AllocError> for Fault {
    ghost from_gives = { λ _ fault. fault ≡ no_memory };

    fn from(_error: AllocError) -> Fault {
        Fault::from(Refusal::NoMemory)
    }
}

impl<T: Drop> From<AllocFailed<T>> for Fault {
    ghost from_gives = { λ _ fault. fault ≡ no_memory };

    fn from(_error: AllocFailed<T>) -> Fault {
        Fault::from(Refusal::NoMemory)
    }
}

/// Why a command ended before its end, and the file or the folder that this came of, where one is known.
#[derive(Debug, Drop)]
pub struct Stop<'a> {
    pub fault: Fault,
    pub cause: Option<Cause<'a>>,
}

impl<'a> From<Trouble<'a>> for Stop<'a> {
    fn from(trouble: Trouble<'a>) -> Stop<'a> {
        let Trouble { refusal, cause } = trouble;
        Stop {
            fault: Fault::from(refusal),
            cause: Some(cause),
        }
    }
}

// What a refusal says of the file or the folder that it came of.
fn found_by(refusal: &StoreRefusal) -> &'static str {
    match refusal {
        StoreRefusal::DiskFull => "there is no room on its disk",
        StoreRefusal::TooFew => "most databases are missing",
        StoreRefusal::NoStore => "it has no form of a store",
        StoreRefusal::Version(_) => "its form is of another version",
        StoreRefusal::InUse => "another process has it",
        StoreRefusal::Altered { .. } => "a database was changed, or is an older one",
        StoreRefusal::BadJournal { .. } => "a journal was changed, or is missing",
        StoreRefusal::NotEmpty => "a store, a run or a flight is there already",
        StoreRefusal::Unsynced => "the machine stopped while it was open",
        StoreRefusal::OtherScript => "it is of another store",
        StoreRefusal::Refused(refusal) => found_otherwise(refusal),
    }
}

fn found_otherwise(refusal: &Refusal) -> &'static str {
    match refusal {
        Refusal::NoMemory => "memory was refused, or room on its disk",
        Refusal::StoreFault => "a file of it can't be read or written",
        Refusal::BadScript(_) =>
            "it can't be read, is no text, or has a line of over a million bytes",
        other if other.number() < 20 => "it is refused",
        _ => "it was given up",
    }
}

impl<'a> Stop<'a> {
    /// This, where it was refused, came of the file or the folder of this name, with which this was tried.
    pub(crate) fn of(fault: Fault, file: Name<'a>, tried: &'static str) -> Stop<'a> {
        let cause = match &fault {
            Fault::Refused(refusal) => {
                let found = Found::Words(found_by(refusal));
                Some(Cause { file, tried, found })
            }
            Fault::Output(_) => None,
        };
        Stop { fault, cause }
    }

    /// This came of the file, the folder or the word of this name, with which this was tried, and of which this was found.
    pub(crate) fn found(
        fault: Fault,
        name: Name<'a>,
        tried: &'static str,
        found: &'static str,
    ) -> Stop<'a> {
        let found = Found::Words(found);
        Stop {
            fault,
            cause: Some(Cause {
                file: name,
                tried,
                found,
            }),
        }
    }

    /// What to do, in a line; none where the rest says it.
    pub fn hint(&self) -> Option<&'static str> {
        match &self.fault {
            Fault::Refused(refusal) => refusal.hint(),
            Fault::Output(_) => None,
        }
    }
}
