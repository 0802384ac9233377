//! The versions of one table.
ghost use Rattle.std.specs.Prelude.{◌≡◌, ℕ, ◌<◌, ◌≤◌, List, IsTrue, length};
ghost use Rattle.std.specs.List.{list_all};
ghost use Rattle.std.specs.BTreeMap.{IsOrdered};
ghost use Rattle.std.specs.List.Sorted.{IsStrictlySortedBy-prop};
ghost use Rattle.model.specs.declared.value.Value.{Value};
ghost use Rattle.model.specs.Values.{key_cmp};
ghost use Rattle.versionlaws.specs.ByKey.{is_of};
ghost use Rattle.sysversion.specs.Lists.{lists_of};

use crate::key_versions::KeyVersions;
use crate::lists::{Lists, end_row, keys_in_order, open_row};
use current::{Changes, Row};
use model::stamp::Stamp;
use overlaps::Key;
use overlaps::counted::Count;
use std::alloc::{AllocError, Global};
use std::collections::BTreeMap;

/// The versions of a table by their keys. A contract sees what `versions_of_table` gives.
#[derive(Debug, Drop)]
pub struct TableVersions {
    pub(crate) lists: Lists,
    pub(crate) columns: usize,
    pub(crate) alloc: Global,
    ghost ordered: { IsOrdered key_cmp lists } by { IsStrictlySortedBy-prop _ _ },
    ghost of_keys: { (key : List Value) → IsTrue (list_all (is_of key) (lists_of lists key)) },
    ghost short: { (key : List Value) → columns < length key → length (lists_of lists key) ≡ 0 },
    ghost least: { (n : ℕ) → ((key : List Value) → n < length key → length (lists_of lists key) ≡ 0) → columns ≤ n },
}

impl TableVersions {
    ghost use Rattle.std.specs.Prelude.{◌≡◌, ℕ, ◌≤◌, ◌+◌, ◌++◌, ◌∷◌, [], map, max, filter, length, OnOk, OnErr};
    ghost use Rattle.std.specs.Option.{option_map_or};
    ghost use Rattle.rowlaws.specs.Rows.{Has};
    ghost use Rattle.current.specs.Rows.{row_of};
    ghost use Rattle.current.specs.Touched.{removed_of, added_of};
    ghost use Rattle.versionlaws.specs.Versions.{Version as Seen};
    ghost use Rattle.versionlaws.specs.ByKey.{is_of, SameByKey};
    ghost use Rattle.versionlaws.specs.Committing.{ended, opened, committed};
    ghost use Rattle.sysversion.specs.Lists.{version_of, with_list, rows_of, versions_in};
    ghost use Rattle.sysversion.specs.Open.{open_from};
    ghost use Rattle.sysversion.specs.Reads.{reads_to_end};
    ghost use Rattle.sysversion.specs.Versions.{list_of, versions_of_table};

    /// No versions. Takes no memory.
    pub(crate) fn new(alloc: Global) -> TableVersions
        ensures { versions_of_table result ≡ [] }
    {
        TableVersions {
            lists: BTreeMap::new(alloc),
            columns: 0,
            alloc,
        }
    }

    // Ends the open version of a row that goes, and reads no other.
    fn end(&mut self, row: &Row, t: Stamp, count: &mut Count)
        ensures ended { list_of self.new ≡ with_list row.now.key (map (ended t (row_of row.now ∷ [])) (list_of self.old row.now.key)) (list_of self.old) }
        ensures few { count.new ≤ count.old + length (open_from (row_of row.now).period.start (list_of self.old row.now.key)) }
    {
        end_row(&mut self.lists, row, t, count);
    }

    // Adds an open version of a row that comes.
    fn open(&mut self, row: Row) -> Result<(), AllocError>
        ensures ok { OnOk result (list_of self.new ≡ with_list row.key (list_of self.old row.key ++ opened (row_of row) ∷ []) (list_of self.old)) }
        ensures err { OnErr result (list_of self.new ≡ list_of self.old) }
    {
        let columns = self.columns.max(row.key.as_slice().len());
        let opened = open_row(self.alloc, &mut self.lists, row);
        keys_in_order(&self.lists);
        opened?;
        self.columns = columns;
        Ok(())
    }

    // Ends the open versions of the rows that go, and reads no others.
    fn end_all(&mut self, removed: &[Row], t: Stamp, count: &mut Count)
        ensures ended { (key : List Value) → list_of self.new key ≡ map (ended t (rows_of key (map row_of removed.now))) (list_of self.old key) }
        ensures few { count.new ≤ count.old + reads_to_end (map row_of removed.now) (versions_of_table self.old) }
    {
        for row in removed {
            self.end(row, t, count);
        }
    }

    // Adds an open version of each row that comes.
    fn open_all(&mut self, added: Vec<Row>) -> Result<(), AllocError>
        ensures { OnOk result ((key : List Value) → list_of self.new key ≡ list_of self.old key ++ map opened (rows_of key (map row_of added.items))) }
    {
        for row in added {
            self.open(row)?;
        }
        Ok(())
    }

    /// Ends the open versions of the rows that go, and adds an open version for each row that comes. Of the versions only
    /// those that end are read: each is looked up by its key and start, and the count rises by one for each of them,
    /// whatever the outcome. Want of memory may leave some of it out.
    pub(crate) fn commit(
        &mut self,
        changes: Changes,
        t: Stamp,
        count: &mut Count,
    ) -> Result<(), AllocError>
        ensures committed { OnOk result (SameByKey (versions_of_table self.new) (committed t (removed_of changes) (added_of changes) (versions_of_table self.old))) }
        ensures few { count.new ≤ count.old + reads_to_end (removed_of changes) (versions_of_table self.old) }
    {
        let Changes { removed, added } = changes;
        self.end_all(removed.as_slice(), t, count);
        self.open_all(added)
    }

    /// The greatest number of columns of a version's key, 0 where there is no version. Takes no memory.
    pub fn columns(&self) -> usize
        ensures bound { (v : Seen) → Has (versions_of_table self.now) v → length v.row.key ≤ result }
        ensures least { (n : ℕ) → ((v : Seen) → Has (versions_of_table self.now) v → length v.row.key ≤ n) → result ≤ n }
    {
        self.columns
    }

    /// The versions of a key, in the order in which they came, if it has any. Takes no memory.
    pub fn of_key(&self, key: &Key) -> Option<&KeyVersions>
        ensures { option_map_or (λ list. map version_of list.now) result [] ≡ filter (is_of key.now) (versions_of_table self.now) }
    {
        self.lists.get(key)
    }

    /// The versions of each key, in the order in which they came. Takes no memory.
    pub fn lists(&self) -> &Lists
        ensures { versions_in result.now.entries ≡ versions_of_table self.now }
    {
        &self.lists
    }
}
