//! Standard output.
use crate::stop::Fault;
use std::io;
use std::io::Write;

/// Prints bytes, at once.
pub(crate) fn print_bytes(rt: &HostRuntime, bytes: &[u8]) -> Result<(), Fault> {
    match io::writer(rt).write_all(bytes) {
        Ok(()) => Ok(()),
        Err(error) => Err(Fault::Output(error)),
    }
}

/// Prints a text, at once.
pub(crate) fn print(rt: &HostRuntime, text: &str) -> Result<(), Fault> {
    print_bytes(rt, text.as_bytes())
}
