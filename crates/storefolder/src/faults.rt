//! What an error of a file comes to.
ghost use Rattle.std.specs.Prelude.{◌≡◌};

use fault::Refusal;
use std::io;
use store::{DeviceError, StoreRefusal};

/// What an error of the journal's file is to a store.
pub(crate) fn device_error(error: &io::Error) -> DeviceError {
    match error.kind() {
        io::ErrorKind::OutOfMemory => DeviceError::NoMemory,
        io::ErrorKind::StorageFull => DeviceError::Full,
        _ => DeviceError::Failed,
    }
}

/// What an error of any other file is: 38, 43, or 40.
pub fn file_refusal(error: &io::Error) -> StoreRefusal {
    StoreRefusal::from(device_error(error))
}

/// A file that is no part of a store.
pub(crate) fn no_store() -> StoreRefusal
    ensures { result ≡ StoreRefusal.NoStore }
{
    StoreRefusal::NoStore
}
