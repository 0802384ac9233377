//! The versions of a table by their keys.
ghost use Rattle.std.specs.Prelude.{◌≡◌, ◌≤◌, ◌+◌, ◌++◌, ◌∷◌, [], map, length, OnOk, OnErr};
ghost use Rattle.std.specs.BTreeMap.{IsOrdered};
ghost use Rattle.model.specs.Values.{key_cmp};
ghost use Rattle.current.specs.Rows.{row_of};
ghost use Rattle.versionlaws.specs.Committing.{opened};
ghost use Rattle.sysversion.specs.Lists.{lists_of, with_list};
ghost use Rattle.sysversion.specs.Open.{ended_from, open_from};

use crate::key_versions::KeyVersions;
use current::Row;
use model::stamp::Stamp;
use overlaps::Key;
use overlaps::counted::Count;
use std::alloc::{AllocError, Global};
use std::collections::BTreeMap;

/// The versions of each key, in the order in which they came.
pub type Lists = BTreeMap<Key, KeyVersions>;

// Ends what is open at the row's key and start.
fn end_in_lists(lists: &mut Lists, row: &Row, t: Stamp, count: &mut Count)
    ensures lists { lists_of lists.new ≡ with_list row.now.key (map (ended_from t (row_of row.now).period.start) (lists_of lists.old row.now.key)) (lists_of lists.old) }
    ensures few { count.new ≤ count.old + length (open_from (row_of row.now).period.start (lists_of lists.old row.now.key)) }
{
    let Some(list) = lists.get_mut(&row.key) else {
        return;
    };
    list.end_from(row.period.start, t, count);
}

/// Ends the open versions at the key and the start of a row that goes. The count rises by one for each of them: no other
/// version is read. Takes no memory.
pub(crate) fn end_row(lists: &mut Lists, row: &Row, t: Stamp, count: &mut Count)
    ensures lists { lists_of lists.new ≡ with_list row.now.key (map (ended_from t (row_of row.now).period.start) (lists_of lists.old row.now.key)) (lists_of lists.old) }
    ensures few { count.new ≤ count.old + length (open_from (row_of row.now).period.start (lists_of lists.old row.now.key)) }
    ensures ordered { IsOrdered key_cmp lists.new }
{
    end_in_lists(lists, row, t, count);
    keys_in_order(lists);
}

// Adds the first version of a key.
fn open_first(alloc: Global, lists: &mut Lists, row: Row) -> Result<(), AllocError>
    requires { lists_of lists.old row.key ≡ [] }
    ensures ok { OnOk result (lists_of lists.new ≡ with_list row.key (opened (row_of row) ∷ []) (lists_of lists.old)) }
    ensures err { OnErr result (lists_of lists.new ≡ lists_of lists.old) }
{
    let key = row.key.clone()?;
    let mut list = KeyVersions::new(alloc);
    list.open(row)?;
    lists.insert(key, list)?;
    Ok(())
}

/// Adds an open version of a row that comes. Want of memory changes nothing.
pub(crate) fn open_row(alloc: Global, lists: &mut Lists, row: Row) -> Result<(), AllocError>
    ensures ok { OnOk result (lists_of lists.new ≡ with_list row.key (lists_of lists.old row.key ++ opened (row_of row) ∷ []) (lists_of lists.old)) }
    ensures err { OnErr result (lists_of lists.new ≡ lists_of lists.old) }
{
    match lists.get_mut(&row.key) {
        Some(list) => list.open(row),
        None => open_first(alloc, lists, row),
    }
}

/// The keys of a map are in order. It does nothing: what it is for is its contract.
pub(crate) fn keys_in_order(lists: &Lists)
    ensures { IsOrdered key_cmp lists.now }
{
    let _ = lists.len();
}
