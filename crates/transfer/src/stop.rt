//! What ends an import or an export before its end.
use fault::Refusal;
use std::alloc::{AllocError, AllocFailed};
use std::io;
use store::StoreRefusal;
use thiserror::Error;

/// Why an import or an export ended before its end.
#[derive(Debug, Drop, Error)]
pub enum Fault {
    /// A refusal ended it.
    #[error("{0}")]
    Refused(StoreRefusal),
    /// Standard output could not be written.
    #[error("standard output: {0}")]
    Output(io::Error),
    /// The file of the rows could not be read.
    #[error("{0}")]
    File(io::Error),
}

impl From<StoreRefusal> for Fault {
    fn from(refusal: StoreRefusal) -> Fault {
        Fault::Refused(refusal)
    }
}

impl From<Refusal> for Fault {
    fn from(refusal: Refusal) -> Fault {
        Fault::Refused(StoreRefusal::Refused(refusal))
    }
}

impl From<AllocError> for Fault {
    fn from(_error: AllocError) -> Fault {
        Fault::from(Refusal::NoMemory)
    }
}

impl<T: Drop> From<AllocFailed<T>> for Fault {
    fn from(_error: AllocFailed<T>) -> Fault {
        Fault::from(Refusal::NoMemory)
    }
}
