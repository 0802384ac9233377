//! The versions of all tables.
ghost use Rattle.std.specs.Prelude.{◌≡◌, ◌≢◌, ℕ, ◌+◌, ◌<◌, ◌≤◌, [], true, false, length, Err, alloc_error, OnOk, OnErr, IfOk};
ghost use Rattle.std.specs.Option.{option_map_or};
ghost use Rattle.current.specs.Touched.{removed_of, added_of, removed_in, added_in};
ghost use Rattle.versionlaws.specs.ByKey.{SameByKey};
ghost use Rattle.versionlaws.specs.Committing.{committed};

use crate::table::TableVersions;
use current::{Changes, Touched};
use model::stamp::Stamp;
use overlaps::counted::Count;
use schema::Schema;
use std::alloc::{AllocError, Global};

/// The versions of all tables of a schema, which it keeps. A contract sees what `versions_of` gives: of each table, by
/// its number from 0, its versions key by key, and those of a key in the order in which they came.
#[derive(Drop)]
pub struct Versions {
    pub(crate) schema: Schema,
    pub(crate) tables: Vec<TableVersions>,
    pub(crate) alloc: Global,
    pub(crate) failed: bool,
    ghost counted: { length tables.items ≡ length schema },
}

impl Versions {
    ghost use Rattle.sysversion.specs.Reads.{reads_to_end, reads_in_tables};
    ghost use Rattle.sysversion.specs.Versions.{versions_of, versions_of_table, schema_in, table_count, is_failed};

    /// The tables of a schema, without versions.
    pub fn new(alloc: Global, schema: &Schema) -> Result<Versions, AllocError>
        ensures versions { IfOk result (λ versions. (n : ℕ) → versions_of versions n ≡ []) }
        ensures schema { IfOk result (λ versions. schema_in versions ≡ schema.now) }
        ensures up { IfOk result (λ versions. is_failed versions ≡ false) }
    {
        let schema = schema.clone()?;
        let mut tables = Vec::new(alloc);
        for _ in 0..schema.len() {
            tables.push(TableVersions::new(alloc))?;
        }
        Ok(Versions {
            schema,
            tables,
            alloc,
            failed: false,
        })
    }

    // Takes in what was touched of a table, if it is there. Of its versions those that end are read, and no others.
    fn commit_table(
        &mut self,
        table: usize,
        changes: Changes,
        t: Stamp,
        count: &mut Count,
    ) -> Result<(), AllocError>
        ensures here { OnOk result (table < table_count self.old → SameByKey (versions_of self.new table) (committed t (removed_of changes) (added_of changes) (versions_of self.old table))) }
        ensures others { OnOk result ((n : ℕ) → n ≢ table → versions_of self.new n ≡ versions_of self.old n) }
        ensures schema { schema_in self.new ≡ schema_in self.old }
        ensures few { count.new ≤ count.old + reads_to_end (removed_of changes) (versions_of self.old table) }
    {
        let Some(found) = self.tables.get_mut(table) else {
            return Ok(());
        };
        found.commit(changes, t, count)
    }

    // Takes in what was touched of each table. Of the versions those that end are read, and no others.
    fn commit_tables(
        &mut self,
        touched: Touched,
        t: Stamp,
        count: &mut Count,
    ) -> Result<(), AllocError>
        ensures ok { OnOk result ((n : ℕ) → n < table_count self.old → SameByKey (versions_of self.new n) (committed t (removed_in touched n) (added_in touched n) (versions_of self.old n))) }
        ensures schema { schema_in self.new ≡ schema_in self.old }
        ensures few { count.new ≤ count.old + reads_in_tables (table_count self.old) (removed_in touched) (versions_of self.old) }
    {
        current::laws::nothing_beyond();
        for (table, changes) in touched.tables.into_iter().enumerate() {
            self.commit_table(table, changes, t, count)?;
        }
        Ok(())
    }

    /// Takes in what a transaction at an instant touched: the versions of the rows that went end then, and the rows
    /// that came begin as open versions. What is touched of a table that is not there is passed over.
    ///
    /// Of the versions only those that end are read: each is looked up by its key and start, in a set of its key's open
    /// versions. So a commit costs the rows that it is given, each times the digits of the numbers of keys and of a key's
    /// open versions, however many have ended. Whatever the outcome, the count rises by one for each version that is read:
    /// for each row that went, by at most the open versions of its key that start on its first day. Where the versions hold
    /// the tables' histories there is at most one of these, as `laws::one_for_each_row` says.
    ///
    /// Want of memory may leave some of it out: the value has then failed, and each later commit is refused.
    pub fn commit(
        &mut self,
        touched: Touched,
        t: Stamp,
        count: &mut Count,
    ) -> Result<(), AllocError>
        ensures ok { OnOk result ((n : ℕ) → n < table_count self.old → SameByKey (versions_of self.new n) (committed t (removed_in touched n) (added_in touched n) (versions_of self.old n))) }
        ensures err { OnErr result (is_failed self.new ≡ true) }
        ensures up { OnOk result ((is_failed self.old ≡ false) × (is_failed self.new ≡ false)) }
        ensures schema { schema_in self.new ≡ schema_in self.old }
        ensures once_failed { is_failed self.old ≡ true → result ≡ Err alloc_error }
        ensures few { count.new ≤ count.old + reads_in_tables (table_count self.old) (removed_in touched) (versions_of self.old) }
    {
        if self.failed {
            return Err(AllocError);
        }
        let committed = self.commit_tables(touched, t, count);
        self.failed = committed.is_err();
        committed
    }

    /// The versions of a table, if it is there. Takes no memory.
    ///
    /// Of a value that has failed, as `has_failed` tells, those that it has: of the transaction at which it failed some
    /// may be missing.
    pub fn table(&self, table: usize) -> Option<&TableVersions>
        ensures { option_map_or (λ found. versions_of_table found.now) result [] ≡ versions_of self.now table }
    {
        self.tables.get(table)
    }

    /// The schema whose tables they are.
    pub fn schema(&self) -> &Schema
        ensures { result.now ≡ schema_in self.now }
    {
        &self.schema
    }

    /// Whether a commit has found no memory.
    pub fn has_failed(&self) -> bool
        ensures { result ≡ is_failed self.now }
    {
        self.failed
    }
}
