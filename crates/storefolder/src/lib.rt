//! The folder of a store: its form, its journals and its members' databases.
#![tactic(auto)]

mod beginning;
mod boot;
mod clock;
mod databases;
mod faults;
mod form;
mod journal_file;
mod journals;
mod memory;
mod numbers;
mod opening;
mod place;
mod replacing;
mod task;
mod torn;

pub use beginning::{is_new, put_store};
pub use boot::{check_synced, forget_boot, is_unsynced};
pub use clock::reading_of;
pub use databases::{Database, find_database, open_databases};
pub use faults::file_refusal;
pub use form::{Form, read_form, text_of_form};
pub use journal_file::JournalFile;
pub use journals::tell_all;
pub use memory::{InMemory, open_in_memory};
pub use numbers::{Journals, find_journals};
pub use opening::{Cut, FolderStore, Found, Kept, Opened, close, open};
pub use place::{Folder, enter, exists, is_file, make};
pub use replacing::{begin_database, put_database};
pub use task::{Holder, Task, hold_store, with_store};
