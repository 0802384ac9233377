//! The current rows of one table.
ghost use Rattle.std.specs.Prelude.{◌≡◌, ◌≤◌, ℕ, List, IsTrue, length};
ghost use Rattle.model.specs.Tables.{Row as TableRow};
ghost use Rattle.rowlaws.specs.Rows.{Has};
ghost use Rattle.std.specs.BTreeMap.{IsOrdered};
ghost use Rattle.std.specs.List.Sorted.{IsStrictlySortedBy-prop};
ghost use Rattle.model.specs.declared.value.Value.{Value};
ghost use Rattle.model.specs.Values.{key_cmp};
ghost use Rattle.current.specs.ByKey.{strands_of, rows_in, in_strand};

use crate::correction::Correction;
use crate::named::named_key;
use crate::plan::{Plan, plan_correction, replace_strands};
use crate::row::Row;
use crate::strand::{Changes, correct_strand};
use crate::strands::{keys_in_order, put_row, take_row};
use fault::Refusal;
use overlaps::{Count, Key, KeyIndex};
use period::Period;
use std::alloc::{AllocError, Global};

/// How many current rows a table may have.
const ROWS_MOST: usize = 20_000;

/// The rows of a table. A contract sees what `rows_of_table` gives.
#[derive(Debug, Drop)]
pub(crate) struct TableRows {
    pub index: KeyIndex<Row>,
    pub count: usize,
    /// No row's key has more columns.
    pub columns: usize,
    pub alloc: Global,
    pub ghost ordered: { IsOrdered key_cmp index.strands } by { IsStrictlySortedBy-prop _ _ },
    pub ghost in_strands: { (key : List Value) → IsTrue (in_strand key 0 (strands_of index.strands key)) },
    pub ghost short: { (row : TableRow) → Has (rows_in index.strands.entries) row → length row.key ≤ columns },
    pub ghost counted: { count ≡ length (rows_in index.strands.entries) },
}

impl TableRows {
    ghost use Rattle.std.specs.Prelude.{◌≡◌, ◌⊎◌, ◌+◌, ◌*◌, ◌^◌, ◌<◌, ◌≤◌, ◌++◌, ◌∷◌, [], true, false, map, filter, flat_map, min, max, OnOk, OnErr, IfOk, IfErr, length};
    ghost use Rattle.std.specs.List.{list_any};
    ghost use Rattle.fault.specs.declared.refusal.Refusal.TheVariants.{NoMemory, KeyOverlap, RowLimit, NumberRange};
    ghost use Rattle.rowlaws.specs.Changes.{clashes};
    ghost use Rattle.current.specs.Rows.{row_of};
    ghost use Rattle.current.specs.Table.{rows_of_table, IsWith, IsInserted, IsInsertRefused, IsCorrection, IsCorrectionRefused, IsWithout, IsJoined, CanPut, CanUndo, HaveSame};
    ghost use Rattle.rowlaws.specs.Touching.{rows_without, same_row};
    ghost use Rattle.current.specs.Corrections.{action_of_correction, is_met};
    ghost use Rattle.current.specs.ByKey.{strands_of, strand_in};
    ghost use Rattle.model.specs.Periods.{period_of};
    ghost use Rattle.overlaps.specs.Index.{AreSharing};
    ghost use Rattle.overlaps.specs.Items.{items_of};
    ghost use Rattle.current.specs.Reads.{is_of, FewToFind, FewToInsert, FewToCorrect, FewIfNamed, NoMoreThanAll};

    /// No rows. Takes no memory.
    pub(crate) fn new(alloc: Global) -> TableRows
        ensures rows { rows_of_table result ≡ [] }
        ensures columns { result.columns ≡ 0 }
    {
        let index = KeyIndex::new(alloc);
        keys_in_order(&index);
        TableRows {
            index,
            count: 0,
            columns: 0,
            alloc,
        }
    }

    /// Whether a row of the key has a day of the period. It is searched for by halves, as `KeyIndex::find` does. Takes
    /// no memory.
    pub(crate) fn has_clash(&self, row: &Row, count: &mut Count) -> bool
        ensures strand { result ≡ list_any (clashes row.now.key (period_of row.now.period)) (strands_of self.now.index.strands row.now.key) }
        ensures rows { result ≡ list_any (clashes row.now.key (period_of row.now.period)) (rows_of_table self.now) }
        ensures few { FewToFind row.now.key (rows_of_table self.now) count.old count.new }
    {
        overlaps::laws::sharing_is_overlap();
        self.index.find(&row.key, row.period, count).is_some()
    }

    /// Adds a row. Its place is searched for by halves. Want of memory changes nothing.
    pub(crate) fn put(&mut self, row: Row, count: &mut Count) -> Result<(), AllocError>
        requires { list_any (clashes row.key (period_of row.period)) (strands_of self.old.index.strands row.key) ≡ false }
        ensures ok { OnOk result (IsWith (row_of row) (rows_of_table self.old) (rows_of_table self.new)) }
        ensures err { OnErr result (rows_of_table self.new ≡ rows_of_table self.old) }
        ensures columns { self.new.columns ≤ max self.old.columns (length row.key) }
        ensures longer { length (rows_of_table self.new) ≤ length (rows_of_table self.old) + 1 }
        ensures few { (digits : ℕ) → length (filter (is_of row.key) (rows_of_table self.old)) < 2 ^ digits → count.new ≤ count.old + digits }
    {
        let Some(total) = self.count.checked_add(1) else {
            return Err(AllocError);
        };
        let columns = self.columns.max(row.key.as_slice().len());
        let added = put_row(&mut self.index, row, count);
        keys_in_order(&self.index);
        added?;
        self.count = total;
        self.columns = columns;
        Ok(())
    }

    /// Adds a row as INSERT does. Each refusal changes nothing.
    ///
    /// `KeyOverlap` where a row of its key has a day of its period; then `RowLimit` where there are
    /// 20,000 rows; `NoMemory`. A row that clashes, and then the row's place, are searched for by halves.
    pub(crate) fn insert(&mut self, row: Row, count: &mut Count) -> Result<(), Refusal>
        ensures ok { IfOk result (λ u. IsInserted (row_of row) (rows_of_table self.old) (rows_of_table self.new)) }
        ensures err { IfErr result (λ refusal. (rows_of_table self.new ≡ rows_of_table self.old) × IsInsertRefused (row_of row) (rows_of_table self.old) refusal) }
        ensures few { FewToInsert row.key (rows_of_table self.old) count.old count.new }
        ensures columns { self.new.columns ≤ max self.old.columns (length row.key) }
    {
        if self.has_clash(&row, count) {
            return Err(Refusal::KeyOverlap);
        }
        if self.count >= ROWS_MOST {
            return Err(Refusal::RowLimit);
        }
        self.put(row, count)?;
        Ok(())
    }

    /// The rows of a key that have a day of the period, after the place at which the first of them stands, counted from 0.
    /// They are searched for by halves. Takes no memory.
    pub(crate) fn sharing(&self, key: &Key, period: Period, count: &mut Count) -> (usize, &[Row])
        ensures found { AreSharing (λ r. period_of r.period) (period_of period) (items_of self.now.index.strands key.now) result.0 result.1.now }
        ensures few { FewToCorrect key.now (period_of period) (rows_of_table self.now) count.old count.new }
        ensures each { length result.1.now ≤ count.new }
    {
        overlaps::laws::sharing_is_overlap();
        self.index.sharing(key, period, count)
    }

    // Corrects the rows of the one key that has rows that are met. Of its rows those that have a day in the portion are
    // looked at, and no others.
    fn correct_key(
        &mut self,
        correction: &Correction,
        key: &Key,
        count: &mut Count,
    ) -> Result<Changes, Refusal>
        requires { (r : TableRow) → Has (rows_of_table self.old) r → is_met (action_of_correction correction.now) r ≡ true → r.key ≡ key.now }
        ensures ok { IfOk result (λ changes. IsCorrection (action_of_correction correction.now) correction.now.system_start (rows_of_table self.old) (rows_of_table self.new) (map row_of changes.removed.items) (map row_of changes.added.items)) }
        ensures err { IfErr result (λ refusal. (rows_of_table self.new ≡ rows_of_table self.old) × IsCorrectionRefused (action_of_correction correction.now) correction.now.system_start (rows_of_table self.old) refusal) }
        ensures few { FewToCorrect key.now (period_of correction.now.portion) (rows_of_table self.old) count.old count.new }
        ensures columns { self.new.columns ≡ self.old.columns }
        ensures each { IfOk result (λ changes. length changes.removed.items ≤ count.new) }
    {
        overlaps::laws::sharing_is_overlap();
        let (start, found) = self.sharing(key, correction.portion, count);
        let many = found.len();
        let mut changes = Changes::none(self.alloc);
        let rows = correct_strand(self.alloc, correction, found, &mut changes)?;
        let total = (self.count - many).saturating_add(rows.len());
        if total > ROWS_MOST {
            return Err(Refusal::RowLimit);
        }
        if many == 0 {
            return Ok(changes);
        }
        let replaced = self.index.replace(key, start, many, rows);
        keys_in_order(&self.index);
        replaced?;
        self.count = total;
        Ok(changes)
    }

    // Corrects the rows of all keys.
    fn correct_all(
        &mut self,
        correction: &Correction,
        count: &mut Count,
    ) -> Result<Changes, Refusal>
        ensures ok { IfOk result (λ changes. IsCorrection (action_of_correction correction.now) correction.now.system_start (rows_of_table self.old) (rows_of_table self.new) (map row_of changes.removed.items) (map row_of changes.added.items)) }
        ensures err { IfErr result (λ refusal. (rows_of_table self.new ≡ rows_of_table self.old) × IsCorrectionRefused (action_of_correction correction.now) correction.now.system_start (rows_of_table self.old) refusal) }
        ensures counted { count.new ≤ count.old + length (rows_of_table self.old) }
        ensures columns { self.new.columns ≡ self.old.columns }
        ensures each { IfOk result (λ changes. length changes.removed.items ≤ count.new) }
    {
        let plan = plan_correction(self.alloc, correction, &self.index.strands, count)?;
        if plan.count > ROWS_MOST {
            return Err(Refusal::RowLimit);
        }
        let Plan {
            strands,
            count: total,
            changes,
        } = plan;
        replace_strands(&mut self.index.strands, strands);
        keys_in_order(&self.index);
        self.count = total;
        Ok(changes)
    }

    /// Corrects the rows that are met, as UPDATE and DELETE do, and tells what it touched. Where WHERE names a key only those
    /// of its rows are looked at that have a day in the portion. Each refusal changes nothing.
    ///
    /// `NumberRange` where a new value of a row that is met is out of range; then `RowLimit` where
    /// more than 20,000 rows would be left; `NoMemory`.
    pub(crate) fn correct(
        &mut self,
        correction: &Correction,
        count: &mut Count,
    ) -> Result<Changes, Refusal>
        ensures ok { IfOk result (λ changes. IsCorrection (action_of_correction correction.now) correction.now.system_start (rows_of_table self.old) (rows_of_table self.new) (map row_of changes.removed.items) (map row_of changes.added.items)) }
        ensures err { IfErr result (λ refusal. (rows_of_table self.new ≡ rows_of_table self.old) × IsCorrectionRefused (action_of_correction correction.now) correction.now.system_start (rows_of_table self.old) refusal) }
        ensures named { FewIfNamed correction.now.conditions.now (period_of correction.now.portion) self.old.columns (rows_of_table self.old) count.old count.new }
        ensures all { NoMoreThanAll (rows_of_table self.old) count.old count.new }
        ensures columns { self.new.columns ≡ self.old.columns }
        ensures each { IfOk result (λ changes. length changes.removed.items ≤ count.new) }
    {
        match named_key(self.alloc, correction.conditions, self.columns)? {
            Some(key) => self.correct_key(correction, &key, count),
            None => self.correct_all(correction, count),
        }
    }

    /// Whether the row is there. It is searched for by halves, as `KeyIndex::find` does. Takes no memory.
    pub(crate) fn has(&self, row: &Row, count: &mut Count) -> bool
        ensures there { result ≡ list_any (same_row (row_of row.now)) (strands_of self.now.index.strands row.now.key) }
        ensures few { FewToFind row.now.key (rows_of_table self.now) count.old count.new }
    {
        overlaps::laws::sharing_is_overlap();
        match self.index.find(&row.key, row.period, count) {
            Some(found) => row.is_same(found),
            None => false,
        }
    }

    // Takes a row out, if it is there. It is searched for by halves, and then its place.
    fn take(&mut self, row: &Row, count: &mut Count)
        ensures rows { IsWithout (row_of row.now ∷ []) (rows_of_table self.old) (rows_of_table self.new) }
        ensures columns { self.new.columns ≡ self.old.columns }
        ensures shorter { length (rows_of_table self.new) ≤ length (rows_of_table self.old) }
        ensures few { (digits : ℕ) → length (rows_of_table self.old) < 2 ^ digits → count.new ≤ count.old + (digits + digits + 2) }
    {
        if !self.has(row, count) {
            return;
        }
        take_row(&mut self.index, row, count);
        keys_in_order(&self.index);
        self.count -= 1;
    }

    // Takes rows out, the last of them first: where all rows of a key go, none has to be moved then.
    fn take_all(&mut self, rows: &[Row], count: &mut Count)
        ensures rows { IsWithout (map row_of rows.now) (rows_of_table self.old) (rows_of_table self.new) }
        ensures columns { self.new.columns ≡ self.old.columns }
        ensures shorter { length (rows_of_table self.new) ≤ length (rows_of_table self.old) }
        ensures few { (digits : ℕ) → length (rows_of_table self.old) < 2 ^ digits → count.new ≤ count.old + length rows.now * (digits + digits + 2) }
    {
        let mut left = rows;
        while let Some((row, others)) = left.split_last() {
            self.take(row, count);
            left = others;
        }
    }

    // Puts rows back. Want of memory leaves some of them away.
    fn put_all(&mut self, rows: &[Row], count: &mut Count) -> Result<(), AllocError>
        requires { CanPut (rows_of_table self.old) (map row_of rows.now) }
        ensures rows { OnOk result (IsJoined (map row_of rows.now) (rows_of_table self.old) (rows_of_table self.new)) }
        ensures columns { (most : ℕ) → self.old.columns ≤ most → ((r : TableRow) → Has (map row_of rows.now) r → length r.key ≤ most) → self.new.columns ≤ most }
        ensures few { (digits : ℕ) → length (rows_of_table self.old) + length rows.now < 2 ^ digits → count.new ≤ count.old + length rows.now * digits }
    {
        for row in rows {
            self.put(row.clone()?, count)?;
        }
        Ok(())
    }

    /// Gives the rows before a statement, by what it touched. Each row that it touched is searched for by halves, and then
    /// its place. Want of memory leaves some of them away.
    pub(crate) fn undo(
        &mut self,
        removed: &[Row],
        added: &[Row],
        count: &mut Count,
    ) -> Result<(), AllocError>
        requires { CanUndo (rows_of_table self.old) (map row_of removed.now) (map row_of added.now) }
        ensures rows { OnOk result (HaveSame (rows_without (rows_of_table self.old) (map row_of added.now) ++ map row_of removed.now) (rows_of_table self.new)) }
        ensures columns { (most : ℕ) → self.old.columns ≤ most → ((r : TableRow) → Has (map row_of removed.now) r → length r.key ≤ most) → self.new.columns ≤ most }
        ensures few { (digits : ℕ) → length (rows_of_table self.old) + length removed.now < 2 ^ digits → count.new ≤ count.old + (length removed.now + length added.now) * (digits + digits + 2) }
    {
        self.take_all(added, count);
        self.put_all(removed, count)
    }
}
