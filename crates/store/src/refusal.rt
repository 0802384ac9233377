//! Why a store does not do what it is asked.
ghost use Rattle.std.specs.Prelude.{◌≡◌, Some};
ghost use Rattle.store.specs.Refusals.{refusal_text, device_refusal, error_refusal, no_memory, other_refusal};

use crate::device::DeviceError;
use fault::Refusal;
use keep::StoreError;
use model::member::Member;
use std::alloc::{AllocError, AllocFailed};
use std::error::Error;
use std::fmt;

/// Why a store does not do what it is asked, with the number and the text that it is shown with. `hint` says what to do.
#[derive(Debug, Drop)]
pub enum StoreRefusal {
    /// 38: there is no room for the journal.
    DiskFull,
    /// 39: of so many members the database is missing that those that are there are no majority.
    TooFew,
    /// 46: the folder has no form of a store.
    NoStore,
    /// 47: the form is of this version, which is another one.
    Version(u64),
    /// 48: another process has the store.
    InUse,
    /// 49: the database of this member holds something else than the journal says. The first entry that differs, where it is known.
    Altered {
        member: Member,
        entry: Option<usize>,
    },
    /// 55: this journal spells nothing from this byte on, or lines that may not stand there, or it is missing.
    BadJournal {
        journal: u64,
        at: usize,
    },
    /// 56: the folder has something of a store or of a run in it.
    NotEmpty,
    /// 57: the machine stopped since databases were written, and not brought to the disk.
    Unsynced,
    /// 61: the script is of other members or other tables.
    OtherScript,
    /// Any other one.
    Refused(Refusal),
}

impl StoreRefusal {
    /// What to do, in a line; none where the text says it.
    pub fn hint(&self) -> Option<&'static str> {
        match self {
            StoreRefusal::DiskFull => {
                Some(
                    "Make room on the disk, and open the store again: nothing that was told is lost.",
                )
            }
            StoreRefusal::TooFew => Some(
                "More than half of the members need their database: bitable restore DIR makes them anew, from the journals.",
            ),
            StoreRefusal::NoStore => {
                Some(
                    "Its form is missing or damaged, or it is another folder. bitable new DIR --nodes 3 --schema FILE makes a store.",
                )
            }
            StoreRefusal::Version(_) => {
                Some("The store was made by another version of bitable: open it with that one.")
            }
            StoreRefusal::InUse => {
                Some("Another process has it open: leave that one by .quit, or wait until it ends.")
            }
            StoreRefusal::Altered { .. } => Some(
                "bitable restore DIR makes it anew. Where most databases differ it is the last journal that was changed or lost: bring that back.",
            ),
            StoreRefusal::BadJournal { .. } => Some(
                "The file was changed or is missing, or the form was changed: bring it back, as from a backup of the whole folder.",
            ),
            StoreRefusal::NotEmpty => {
                Some("Name a folder that is empty, or one that is not there yet.")
            }
            StoreRefusal::Unsynced => Some(
                "The machine stopped while the store was open: bitable restore DIR makes them anew, from the journals. bitable open does so by itself.",
            ),
            StoreRefusal::OtherScript => {
                Some(
                    "The script's members and schema have to be those that the store was made with.",
                )
            }
            StoreRefusal::Refused(_) => None,
        }
    }
}

/// The number, a space and the text.
impl fmt::Display for StoreRefusal {
    ghost output = { λ r. Some (refusal_text r) };

    fn fmt<W: fmt::Write>(&self, f: &mut fmt::Formatter<W>) -> fmt::Result {
        match self {
            StoreRefusal::DiskFull => f.write_str("38 disk full"),
            StoreRefusal::TooFew => f.write_str("39 too few databases"),
            StoreRefusal::NoStore => f.write_str("46 no store"),
            StoreRefusal::Version(version) => write!(f, "47 store of version {version}"),
            StoreRefusal::InUse => f.write_str("48 store in use"),
            StoreRefusal::Altered {
                member,
                entry: None,
            } => write!(f, "49 altered database of node {member}"),
            StoreRefusal::Altered {
                member,
                entry: Some(entry),
            } => write!(f, "49 altered database of node {member} at entry {entry}"),
            StoreRefusal::BadJournal { journal, at } => {
                write!(f, "55 bad journal {journal} at byte {at}")
            }
            StoreRefusal::NotEmpty => f.write_str("56 folder in use"),
            StoreRefusal::Unsynced => f.write_str("57 unsynced databases"),
            StoreRefusal::OtherScript => f.write_str("61 script of another store"),
            StoreRefusal::Refused(refusal) => refusal.fmt(f),
        }
    }
}

impl Error for StoreRefusal {}

impl From<Refusal> for StoreRefusal {
    ghost from_gives = { λ refusal r. r ≡ other_refusal refusal };

    fn from(refusal: Refusal) -> StoreRefusal {
        StoreRefusal::Refused(refusal)
    }
}

impl From<StoreError> for StoreRefusal {
    ghost from_gives = { λ error r. r ≡ error_refusal error };

    fn from(error: StoreError) -> StoreRefusal {
        StoreRefusal::Refused(Refusal::from(error))
    }
}

impl From<DeviceError> for StoreRefusal {
    ghost from_gives = { λ error r. r ≡ device_refusal error };

    fn from(error: DeviceError) -> StoreRefusal {
        match error {
            DeviceError::Full => StoreRefusal::DiskFull,
            DeviceError::Failed => StoreRefusal::Refused(Refusal::StoreFault),
            DeviceError::NoMemory => StoreRefusal::Refused(Refusal::NoMemory),
        }
    }
}

impl From<AllocError> for StoreRefusal {
    ghost from_gives = { λ _ r. r ≡ no_memory };

    fn from(_error: AllocError) -> StoreRefusal {
        StoreRefusal::Refused(Refusal::NoMemory)
    }
}

impl<T: Drop> From<AllocFailed<T>> for StoreRefusal {
    ghost from_gives = { λ _ r. r ≡ no_memory };

    fn from(_error: AllocFailed<T>) -> StoreRefusal {
        StoreRefusal::Refused(Refusal::NoMemory)
    }
}
