//! What ends a command before its end.
ghost use Rattle.std.specs.Prelude.{◌≡◌};
ghost use Rattle.fault.specs.declared.refusal.Refusal.TheVariants.{NoMemory};
ghost use Rattle.script.specs.Faults.{run_fault_of};
ghost use Rattle.script.specs.declared.run_fault.RunFault.TheVariants.{Refused, Output};

use answertext::outlet::WriteFault;
use fault::Refusal;
use std::alloc::{AllocError, AllocFailed};
use std::io;
use thiserror::Error;

/// Why a command ended before its end.
#[derive(Debug, Drop, Error)]
pub enum RunFault {
    /// A refusal ended it.
    #[error("{0}")]
    Refused(Refusal),
    /// Its output could not be written.
    #[error("standard output: {0}")]
    Output(io::Error),
}

impl From<Refusal> for RunFault {
    ghost from_gives = { λ refusal fault. fault ≡ Refused refusal };

    fn from(refusal: Refusal) -> RunFault {
        RunFault::Refused(refusal)
    }
}

impl From<io::Error> for RunFault {
    ghost from_gives = { λ error fault. fault ≡ Output error };

    fn from(error: io::Error) -> RunFault {
        RunFault::Output(error)
    }
}

impl From<AllocError> for RunFault {
    ghost from_gives = { λ _ fault. fault ≡ Refused NoMemory };

    fn from(_error: AllocError) -> RunFault {
        RunFault::Refused(Refusal::NoMemory)
    }
}

impl From<WriteFault> for RunFault {
    ghost from_gives = { λ fault found. found ≡ run_fault_of fault };

    fn from(fault: WriteFault) -> RunFault {
        match fault {
            WriteFault::NoMemory => RunFault::Refused(Refusal::NoMemory),
            WriteFault::Writer(error) => RunFault::Output(error),
        }
    }
}

impl<T: Drop> From<AllocFailed<T>> for RunFault {
    ghost from_gives = { λ _ fault. fault ≡ Refused NoMemory };

    fn from(_error: AllocFailed<T>) -> RunFault {
        RunFault::Refused(Refusal::NoMemory)
    }
}
