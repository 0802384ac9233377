//! What statements touch.
ghost use Rattle.std.specs.Prelude.{◌≡◌, ℕ, ◌+◌, ◌<◌, ◌≤◌, ◌==◌, ◌++◌, [], map, max, length, slice_get, if◌then◌else◌, IfOk, OnOk};
ghost use Rattle.std.specs.Option.{option_copied};
ghost use Rattle.rowlaws.specs.Touching.{removed_both, added_both};
ghost use Rattle.current.specs.Rows.{row_of};
ghost use Rattle.std.specs.Vec.Iter.{into_iter_items};
ghost use Rattle.current.specs.Places.{rows_at};
ghost use Rattle.current.specs.Touched.{removed_of, added_of, removed_in, added_in};

use crate::compare::{append, changes_both, clone_rows};
use crate::row::Row;
use crate::strand::Changes;
use std::alloc::{AllocError, Global};
use std::vec::IntoIter;

/// The rows that go and those that come, table by table. A contract sees what `removed_in` and
/// `added_in` give.
#[derive(Debug, Drop)]
pub struct Touched {
    /// By the tables' numbers. In a table that is not there nothing is touched.
    pub tables: Vec<Changes>,
}

// Adds copies of rows. After an error some of them may be there.
fn add_rows(
    alloc: Global,
    changes: &mut Changes,
    removed: &[Row],
    added: &[Row],
) -> Result<(), AllocError>
    ensures removed { OnOk result (removed_of changes.new ≡ removed_of changes.old ++ map row_of removed.now) }
    ensures added { OnOk result (added_of changes.new ≡ added_of changes.old ++ map row_of added.now) }
{
    append(&mut changes.removed, clone_rows(alloc, removed)?)?;
    append(&mut changes.added, clone_rows(alloc, added)?)
}

impl Touched {
    /// Nothing, with room for the changes of this table.
    pub(crate) fn none(alloc: Global, table: usize) -> Result<Touched, AllocError>
        ensures removed { IfOk result (λ touched. (n : ℕ) → removed_in touched n ≡ []) }
        ensures added { IfOk result (λ touched. (n : ℕ) → added_in touched n ≡ []) }
        ensures room { IfOk result (λ touched. length touched.tables.items ≡ table + 1) }
    {
        let mut tables = Vec::new(alloc);
        for _ in 0..table {
            tables.push(Changes::none(alloc))?;
        }
        tables.push(Changes::none(alloc))?;
        Ok(Touched { tables })
    }

    /// The same with these changes of a table that it has room for. Takes no memory.
    pub(crate) fn with(self, table: usize, changes: Changes) -> Touched
        requires { table < length self.tables.items }
        ensures removed { (n : ℕ) → removed_in result n ≡ (if n == table then removed_of changes else removed_in self n) }
        ensures added { (n : ℕ) → added_in result n ≡ (if n == table then added_of changes else added_in self n) }
        ensures room { length result.tables.items ≡ length self.tables.items }
    {
        let Touched { mut tables } = self;
        tables[table] = changes;
        Touched { tables }
    }

    // What is touched of a table, if there is an entry for it.
    fn changes(&self, table: usize) -> Option<&Changes>
        ensures { option_copied result ≡ slice_get self.now.tables.items table }
    {
        self.tables.get(table)
    }

    /// The rows of a table that go. Takes no memory.
    pub fn removed(&self, table: usize) -> &[Row]
        ensures { map row_of result.now ≡ removed_in self.now table }
    {
        match self.changes(table) {
            Some(changes) => changes.removed.as_slice(),
            None => &[],
        }
    }

    /// The rows of a table that come. Takes no memory.
    pub fn added(&self, table: usize) -> &[Row]
        ensures { map row_of result.now ≡ added_in self.now table }
    {
        match self.changes(table) {
            Some(changes) => changes.added.as_slice(),
            None => &[],
        }
    }

    // The same, with an entry for each of so many tables.
    fn with_room(self, alloc: Global, count: usize) -> Result<Touched, AllocError>
        ensures removed { IfOk result (λ touched. (n : ℕ) → removed_in touched n ≡ removed_in self n) }
        ensures added { IfOk result (λ touched. (n : ℕ) → added_in touched n ≡ added_in self n) }
        ensures room { IfOk result (λ touched. count ≤ length touched.tables.items) }
    {
        let Touched { mut tables } = self;
        for _ in tables.len()..count {
            tables.push(Changes::none(alloc))?;
        }
        Ok(Touched { tables })
    }

    // Adds copies of rows to those of a table that it has an entry for.
    fn add(
        self,
        alloc: Global,
        table: usize,
        removed: &[Row],
        added: &[Row],
    ) -> Result<Touched, AllocError>
        requires { table < length self.tables.items }
        ensures removed { IfOk result (λ touched. (n : ℕ) → removed_in touched n ≡ (if n == table then removed_in self n ++ map row_of removed.now else removed_in self n)) }
        ensures added { IfOk result (λ touched. (n : ℕ) → added_in touched n ≡ (if n == table then added_in self n ++ map row_of added.now else added_in self n)) }
        ensures room { IfOk result (λ touched. length touched.tables.items ≡ length self.tables.items) }
    {
        let Touched { mut tables } = self;
        add_rows(alloc, &mut tables[table], removed, added)?;
        Ok(Touched { tables })
    }

    /// The rows that go and those that come with either, where a row that came and went stays in both
    /// parts. Copies the rows of the later ones alone.
    pub fn joined(self, alloc: Global, later: &Touched) -> Result<Touched, AllocError>
        ensures removed { IfOk result (λ all. (n : ℕ) → removed_in all n ≡ removed_in self n ++ removed_in later.now n) }
        ensures added { IfOk result (λ all. (n : ℕ) → added_in all n ≡ added_in self n ++ added_in later.now n) }
    {
        let count = later.tables.len();
        let mut all = self.with_room(alloc, count)?;
        for n in 0..count {
            all = all.add(alloc, n, later.removed(n), later.added(n))?;
        }
        Ok(all)
    }

    /// What is touched by these statements and then by later ones of the same transaction: a row that
    /// came and went is in neither part. Costs what both touch, and not its square.
    pub fn then(self, alloc: Global, later: Touched) -> Result<Touched, AllocError>
        ensures removed { IfOk result (λ both. (n : ℕ) → removed_in both n ≡ removed_both (removed_in self n) (added_in self n) (removed_in later n)) }
        ensures added { IfOk result (λ both. (n : ℕ) → added_in both n ≡ added_both (added_in self n) (removed_in later n) (added_in later n)) }
        ensures tables { IfOk result (λ both. length both.tables.items ≡ max (length self.tables.items) (length later.tables.items)) }
    {
        let count = self.tables.len().max(later.tables.len());
        let mut firsts = self.tables.into_iter();
        let mut laters = later.tables.into_iter();
        let mut tables = Vec::new(alloc);
        for _ in 0..count {
            let first = next_changes(alloc, &mut firsts);
            let later = next_changes(alloc, &mut laters);
            tables.push(changes_both(alloc, first, later)?)?;
        }
        Ok(Touched { tables })
    }
}

// The next changes, none where none are left.
fn next_changes(alloc: Global, rest: &mut IntoIter<Changes>) -> Changes
    ensures removed { removed_of result ≡ rows_at removed_of (into_iter_items rest.old) 0 }
    ensures added { added_of result ≡ rows_at added_of (into_iter_items rest.old) 0 }
    ensures removed_left { (n : ℕ) → rows_at removed_of (into_iter_items rest.new) n ≡ rows_at removed_of (into_iter_items rest.old) (n + 1) }
    ensures added_left { (n : ℕ) → rows_at added_of (into_iter_items rest.new) n ≡ rows_at added_of (into_iter_items rest.old) (n + 1) }
{
    match rest.next() {
        Some(changes) => changes,
        None => Changes::none(alloc),
    }
}
