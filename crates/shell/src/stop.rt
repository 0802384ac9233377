//! What ends a command before its end, with what is known of why.
ghost use Rattle.std.specs.Prelude.{◌≡◌};
ghost use Rattle.fault.specs.declared.refusal.Refusal.TheVariants.{NoMemory};
ghost use Rattle.script.specs.declared.run_fault.RunFault.TheVariants.{Refused, Output};

use diagnosis::{Cause, Found, Name, Trouble, why_no_group};
use fault::Refusal;
use script::run_fault::RunFault;
use std::alloc::{AllocError, AllocFailed, Global};
use std::io;

/// Why a command ended before its end, and of which file that came, where that is known.
#[derive(Debug, Drop)]
pub struct Stop<'a> {
    pub fault: RunFault,
    pub cause: Option<Cause<'a>>,
}

impl<'a> From<RunFault> for Stop<'a> {
    ghost from_gives = { λ fault stop. stop.fault ≡ fault };

    fn from(fault: RunFault) -> Stop<'a> {
        Stop { fault, cause: None }
    }
}

impl<'a> From<Refusal> for Stop<'a> {
    ghost from_gives = { λ refusal stop. stop.fault ≡ Refused refusal };

    fn from(refusal: Refusal) -> Stop<'a> {
        Stop::from(RunFault::Refused(refusal))
    }
}

impl<'a> From<AllocError> for Stop<'a> {
    ghost from_gives = { λ _ stop. stop.fault ≡ Refused NoMemory };

    fn from(_error: AllocError) -> Stop<'a> {
        Stop::from(RunFault::Refused(Refusal::NoMemory))
    }
}

impl<'a, T: Drop> From<AllocFailed<T>> for Stop<'a> {
    ghost from_gives = { λ _ stop. stop.fault ≡ Refused NoMemory };

    fn from(_error: AllocFailed<T>) -> Stop<'a> {
        Stop::from(RunFault::Refused(Refusal::NoMemory))
    }
}

impl<'a> From<io::Error> for Stop<'a> {
    ghost from_gives = { λ error stop. stop.fault ≡ Output error };

    fn from(error: io::Error) -> Stop<'a> {
        Stop::from(RunFault::Output(error))
    }
}

impl<'a> From<Trouble<'a>> for Stop<'a> {
    ghost from_gives = { λ trouble stop. stop.fault ≡ Refused trouble.refusal };

    fn from(trouble: Trouble<'a>) -> Stop<'a> {
        let Trouble { refusal, cause } = trouble;
        Stop {
            fault: RunFault::Refused(refusal),
            cause: Some(cause),
        }
    }
}

// What a refusal says of the script that it came of.
fn found_in_script<'a>(refusal: &Refusal) -> Found<'a> {
    match refusal {
        Refusal::BadScript(0) => Found::Words("it can't be read, or is no text"),
        Refusal::BadScript(line) => Found::BadLine(*line),
        Refusal::NoMemory => Found::Words("memory was refused"),
        other if other.number() < 20 => Found::Words("its schema is refused"),
        _ => Found::Words("it was given up"),
    }
}

impl<'a> Stop<'a> {
    /// The same, and where it is not known of which file a refusal came, it came of the script of this name, with which
    /// this was tried.
    pub fn of_script(self, file: Name<'a>, tried: &'static str) -> Stop<'a> {
        let Stop { fault, cause } = self;
        let cause = match (&fault, cause) {
            (RunFault::Refused(refusal), None) => Some(Cause {
                file,
                tried,
                found: found_in_script(refusal),
            }),
            (_, known) => known,
        };
        Stop { fault, cause }
    }
}

impl<'a> Stop<'a> {
    /// The same of an audit of the files of these names, whose texts these are: why they are not the flights of a group.
    pub fn of_flights(
        alloc: Global,
        fault: RunFault,
        names: &[&'a str],
        texts: &[String],
    ) -> Stop<'a> {
        let cause = match &fault {
            RunFault::Refused(Refusal::BadFlight) => why_no_group(alloc, names, texts),
            RunFault::Refused(_) => names.first().map(|name| Cause {
                file: Name::Given(*name),
                tried: "judging it and the others",
                found: Found::Words("memory was refused"),
            }),
            RunFault::Output(_) => None,
        };
        Stop { fault, cause }
    }
}
