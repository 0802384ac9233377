//! The entries that an open read, and those that are read later.
ghost use Rattle.std.specs.Prelude.{◌≡◌, ◌<◌, ◌++◌, List, false, take, option_map, slice_get, IfOk, OnOk, IsTrue};
ghost use Rattle.sqlite.specs.State.{HasCleanDisk, IsUnchanged, KeepsCommit};
ghost use Rattle.sqlite.specs.Held.{state};
ghost use Rattle.model.specs.declared.entry.Entry as in_log;
ghost use Rattle.durable.specs.Contents.{Contents, entry_in, entries_in};
ghost use Rattle.durable.specs.Rows.{Holds};
ghost use Rattle.durable.specs.Saving.{IsBeginning};

use crate::rows::find_entry;
use crate::whole::Whole;
use keep::Change;
use model::entry::Entry;
use sqlite::{Alter, Connection, Error};
use std::alloc::{AllocError, Global};

/// How many saves leave the entries in memory that an open read.
const READ_SAVES: u64 = 16;

fn copy_of(entry: &Entry) -> Result<Entry, AllocError>
    ensures { IfOk result (λ copy. copy ≡ entry.now) }
{
    entry.clone()
}

/// The entry that has `i` others before it: a copy of what was read, where the beginning of the log was read as far, else from
/// the tables; none where there is none.
#[tactic(auto, using(crate::proofs::Settling::read_is))]
pub(crate) fn entry_at<S: Alter>(
    conn: &mut Connection<S>,
    read: &[Entry],
    i: usize,
) -> Result<Option<Entry>, Error>
    requires { i < 100000 }
    ensures ok { HasCleanDisk (state S.Store conn.new) → IfOk result (λ e. (d : Contents) → Holds (state S.Store conn.old).now d → IsBeginning read.now (entries_in d.log) → e ≡ option_map entry_in (slice_get d.log i)) }
    ensures same { HasCleanDisk (state S.Store conn.new) → OnOk result ((d : Contents) → Holds (state S.Store conn.old).now d → IsTrue (state S.Store conn.old).is_open → IsUnchanged (state S.Store conn.old) (state S.Store conn.new)) }
    ensures keeps { HasCleanDisk (state S.Store conn.new) → (d : Contents) → Holds (state S.Store conn.old).now d → KeepsCommit (state S.Store conn.old) (state S.Store conn.new) }
    ensures autocommit { conn.old.in_transaction ≡ false → conn.new.in_transaction ≡ false }
    ensures clean { HasCleanDisk (state S.Store conn.new) → HasCleanDisk (state S.Store conn.old) }
    ensures limit { conn.new.step_limit ≡ conn.old.step_limit }
{
    match read.get(i) {
        Some(entry) => Ok(Some(copy_of(entry)?)),
        None => {
            let number = Whole {
                value: i as u64 + 1,
            };
            find_entry(conn, number)
        }
    }
}

/// Of the entries that an open read those that a change keeps; none once so many saves were made that a member which was started
/// has applied them.
#[tactic(auto, using(crate::proofs::Settling::begins_cut))]
pub(crate) fn keep_read(alloc: Global, read: &mut Vec<Entry>, change: &Change, saves: u64)
    ensures { (log : List in_log.Entry) → IsBeginning read.old.items log → IsBeginning read.new.items (take change.now.kept log ++ change.now.entries.items) }
{
    if saves > READ_SAVES {
        *read = Vec::new(alloc);
    } else {
        read.truncate(change.kept);
    }
}
