//! The current rows of all tables.
ghost use Rattle.std.specs.Prelude.{◌≡◌, ◌<◌, ◌≤◌, ◌++◌, ◌⊎◌, ℕ, [], true, false, Ok, Err, alloc_error, length, unwrap_or, OnOk, OnErr, IfOk, IfErr};
ghost use Rattle.std.specs.Option.{option_map};
ghost use Rattle.fault.specs.declared.refusal.Refusal.TheVariants.{NoMemory, NoParent};
ghost use Rattle.sqlread.specs.Shapes.{insert_of, update_of, delete_of, statement_of};
ghost use Rattle.sqlread.specs.Shapes as shapes;
ghost use Rattle.sqlread.specs.Meaning.{meaning, table_of, all_days, name_of, language_of};
ghost use Rattle.model.specs.Texts.{key_text, day_text};
ghost use Rattle.model.specs.Transactions.{State, first_orphan, unless_orphan};
ghost use Rattle.rowlaws.specs.Statements.{AllListed};
ghost use Rattle.rowlaws.specs.Whole.{ComesFromWhole};
ghost use Rattle.current.specs.Table.{HaveSame};
ghost use Rattle.rowlaws.specs.Touching.{rows_without};
ghost use Rattle.current.specs.Touched.{removed_in, added_in};
ghost use Rattle.model.specs.Periods.{period_of};
ghost use Rattle.model.specs.Tables.{Row as TableRow};
ghost use Rattle.rowlaws.specs.Rows.{Has, SameRows, RowCount};
ghost use Rattle.rowlaws.specs.Touching.{Untouched, TouchedBy};
ghost use Rattle.rowlaws.specs.Changes.{new_row, ActionOnRows};
ghost use Rattle.current.specs.Rows.{row_of};
ghost use Rattle.current.specs.Corrections.{action_of_correction};
ghost use Rattle.current.specs.Run.{IsRun, IsRefused, AllUndoable, IsUndone};

use crate::correction::Correction;
use crate::references::{Place, first_orphan};
use crate::row::Row;
use crate::strand::Changes;
use crate::suspects::first_touched_orphan;
use crate::table::TableRows;
use crate::touched::Touched;
use fault::{Refusal, Text};
use model::literal::{day_text, key_text};
use model::stamp::Stamp;
use overlaps::{Count, Key};
use period::{Day, Period};
use schema::Schema;
use sqlread::statement::{Assignment, Delete, Insert, Statement, Update};
use std::alloc::{AllocError, Global};
use std::sync::ArcSlice;

/// The current rows of all tables of a schema, which it keeps. A contract sees what `rows_of` gives: of
/// each table, by its number from 0, its rows in the order of key and start.
#[derive(Drop)]
pub struct Current {
    pub(crate) schema: Schema,
    pub(crate) tables: Vec<TableRows>,
    pub(crate) alloc: Global,
    pub(crate) failed: bool,
    ghost counted: { length tables.items ≡ length schema },
}

// What an action of one table's rows comes to on days.
fn action_laws()
    ensures on_rows { ActionOnRows }
    ensures count { RowCount }
    ensures untouched { Untouched }
    ensures touched { TouchedBy }
    ensures same { SameRows }
{
    rowlaws::action_on_rows();
    rowlaws::row_count();
    rowlaws::untouched();
    rowlaws::touched_by();
    rowlaws::same_rows();
}

impl Current {
    ghost use Rattle.current.specs.Current.{rows_of, schema_in, table_count, is_failed, most_columns, IsNarrow, AreNarrow};
    ghost use Rattle.current.specs.Reads.{FewReads, FewIfNamed, NoMoreThanAll, FewToUndo, FewToCheck};

    /// The tables of a schema, without rows.
    pub fn new(alloc: Global, schema: &Schema) -> Result<Current, AllocError>
        ensures rows { IfOk result (λ current. (n : ℕ) → rows_of current n ≡ []) }
        ensures schema { IfOk result (λ current. schema_in current ≡ schema.now) }
        ensures up { IfOk result (λ current. is_failed current ≡ false) }
        ensures columns { IfOk result (λ current. (n : ℕ) → most_columns current n ≡ 0) }
    {
        let schema = schema.clone()?;
        let mut tables = Vec::new(alloc);
        for _ in 0..schema.len() {
            tables.push(TableRows::new(alloc))?;
        }
        Ok(Current {
            schema,
            tables,
            alloc,
            failed: false,
        })
    }

    // Runs an INSERT.
    fn insert(&mut self, insert: &Insert, t: Stamp, count: &mut Count) -> Result<Touched, Refusal>
        requires { insert.now.table < table_count self.old }
        ensures ok { IfOk result (λ touched. IsRun t (meaning (shapes.Insert (insert_of insert.now))) (rows_of self.old) (rows_of self.new) (removed_in touched) (added_in touched)) }
        ensures err { IfErr result (λ refusal. IsRefused t (meaning (shapes.Insert (insert_of insert.now))) (rows_of self.old) refusal) }
        ensures unchanged { OnErr result (rows_of self.new ≡ rows_of self.old) }
        ensures schema { schema_in self.new ≡ schema_in self.old }
        ensures tables { IfOk result (λ touched. length touched.tables.items ≤ table_count self.old) }
        ensures failed { is_failed self.new ≡ is_failed self.old }
        ensures few { FewReads (shapes.Insert (insert_of insert.now)) (most_columns self.old insert.now.table) (rows_of self.old insert.now.table) count.old count.new }
        ensures columns { (columns : ℕ → ℕ) → AreNarrow columns self.old → length insert.now.key.items ≤ columns insert.now.table → AreNarrow columns self.new }
        ensures each { IfOk result (λ touched. (n : ℕ) → length (removed_in touched n) ≤ count.new) }
    {
        action_laws();
        let row = inserted_row(insert, t)?;
        let mut changes = Changes::none(self.alloc);
        changes.added.push(row.clone()?)?;
        let touched = Touched::none(self.alloc, insert.table)?;
        match self.tables[insert.table].insert(row, count) {
            Ok(()) => Ok(touched.with(insert.table, changes)),
            Err(refusal) => Err(refusal),
        }
    }

    // Runs an UPDATE or a DELETE.
    fn correct(
        &mut self,
        table: usize,
        correction: &Correction,
        count: &mut Count,
    ) -> Result<Touched, Refusal>
        requires { table < table_count self.old }
        ensures ok { IfOk result (λ touched. IsRun correction.now.system_start (record { table = table; action = action_of_correction correction.now }) (rows_of self.old) (rows_of self.new) (removed_in touched) (added_in touched)) }
        ensures err { IfErr result (λ refusal. IsRefused correction.now.system_start (record { table = table; action = action_of_correction correction.now }) (rows_of self.old) refusal) }
        ensures unchanged { OnErr result (rows_of self.new ≡ rows_of self.old) }
        ensures schema { schema_in self.new ≡ schema_in self.old }
        ensures tables { IfOk result (λ touched. length touched.tables.items ≤ table_count self.old) }
        ensures failed { is_failed self.new ≡ is_failed self.old }
        ensures named { FewIfNamed correction.now.conditions.now (period_of correction.now.portion) (most_columns self.old table) (rows_of self.old table) count.old count.new }
        ensures all { NoMoreThanAll (rows_of self.old table) count.old count.new }
        ensures columns { (n : ℕ) → most_columns self.new n ≡ most_columns self.old n }
        ensures each { IfOk result (λ touched. (n : ℕ) → length (removed_in touched n) ≤ count.new) }
    {
        action_laws();
        let touched = Touched::none(self.alloc, table)?;
        match self.tables[table].correct(correction, count) {
            Ok(changes) => Ok(touched.with(table, changes)),
            Err(refusal) => Err(refusal),
        }
    }

    // Runs an UPDATE.
    fn update(&mut self, update: &Update, t: Stamp, count: &mut Count) -> Result<Touched, Refusal>
        requires { update.now.table < table_count self.old }
        ensures ok { IfOk result (λ touched. IsRun t (meaning (shapes.Update (update_of update.now))) (rows_of self.old) (rows_of self.new) (removed_in touched) (added_in touched)) }
        ensures err { IfErr result (λ refusal. IsRefused t (meaning (shapes.Update (update_of update.now))) (rows_of self.old) refusal) }
        ensures unchanged { OnErr result (rows_of self.new ≡ rows_of self.old) }
        ensures schema { schema_in self.new ≡ schema_in self.old }
        ensures tables { IfOk result (λ touched. length touched.tables.items ≤ table_count self.old) }
        ensures failed { is_failed self.new ≡ is_failed self.old }
        ensures few { FewReads (shapes.Update (update_of update.now)) (most_columns self.old update.now.table) (rows_of self.old update.now.table) count.old count.new }
        ensures columns { (n : ℕ) → most_columns self.new n ≡ most_columns self.old n }
        ensures each { IfOk result (λ touched. (n : ℕ) → length (removed_in touched n) ≤ count.new) }
    {
        let assignments: &[Assignment] = update.assignments.as_slice();
        let correction = Correction {
            conditions: update.conditions.as_slice(),
            portion: portion_or_all(update.portion),
            assignments: Some(assignments),
            system_start: t,
        };
        self.correct(update.table, &correction, count)
    }

    // Runs a DELETE.
    fn delete(&mut self, delete: &Delete, t: Stamp, count: &mut Count) -> Result<Touched, Refusal>
        requires { delete.now.table < table_count self.old }
        ensures ok { IfOk result (λ touched. IsRun t (meaning (shapes.Delete (delete_of delete.now))) (rows_of self.old) (rows_of self.new) (removed_in touched) (added_in touched)) }
        ensures err { IfErr result (λ refusal. IsRefused t (meaning (shapes.Delete (delete_of delete.now))) (rows_of self.old) refusal) }
        ensures unchanged { OnErr result (rows_of self.new ≡ rows_of self.old) }
        ensures schema { schema_in self.new ≡ schema_in self.old }
        ensures tables { IfOk result (λ touched. length touched.tables.items ≤ table_count self.old) }
        ensures failed { is_failed self.new ≡ is_failed self.old }
        ensures few { FewReads (shapes.Delete (delete_of delete.now)) (most_columns self.old delete.now.table) (rows_of self.old delete.now.table) count.old count.new }
        ensures columns { (n : ℕ) → most_columns self.new n ≡ most_columns self.old n }
        ensures each { IfOk result (λ touched. (n : ℕ) → length (removed_in touched n) ≤ count.new) }
    {
        let assignments: Option<&[Assignment]> = None;
        let correction = Correction {
            conditions: delete.conditions.as_slice(),
            portion: portion_or_all(delete.portion),
            assignments,
            system_start: t,
        };
        self.correct(delete.table, &correction, count)
    }

    /// Runs a statement at an instant, and tells what it touched. Each refusal changes nothing.
    ///
    /// `KeyOverlap` of an INSERT where a row of its key has a day of its period; `NumberRange` of an
    /// UPDATE where SET of a row that is met is out of range; then `RowLimit` where the table would
    /// have more than 20,000 rows; `NoMemory`, always once it has failed, and for a statement on a table
    /// that is not there, which only another schema has.
    ///
    /// The count rises by the rows of the table that were read, and is then at least how many go. An INSERT searches its
    /// key's rows by halves, twice. An UPDATE or DELETE that has `=` for each column of a key searches that key's rows by halves,
    /// and reads those of them that have a day of its portion; one that does not reads all rows.
    pub fn run(
        &mut self,
        statement: &Statement,
        t: Stamp,
        count: &mut Count,
    ) -> Result<Touched, Refusal>
        ensures ok { IfOk result (λ touched. IsRun t (meaning (statement_of statement.now)) (rows_of self.old) (rows_of self.new) (removed_in touched) (added_in touched)) }
        ensures err { IfErr result (λ refusal. IsRefused t (meaning (statement_of statement.now)) (rows_of self.old) refusal) }
        ensures unchanged { OnErr result (rows_of self.new ≡ rows_of self.old) }
        ensures schema { schema_in self.new ≡ schema_in self.old }
        ensures tables { IfOk result (λ touched. length touched.tables.items ≤ table_count self.old) }
        ensures failed { is_failed self.new ≡ is_failed self.old }
        ensures once_failed { is_failed self.old ≡ true → result ≡ Err NoMemory }
        ensures few { FewReads (statement_of statement.now) (most_columns self.old (table_of (statement_of statement.now))) (rows_of self.old (table_of (statement_of statement.now))) count.old count.new }
        ensures columns { (columns : ℕ → ℕ) → AreNarrow columns self.old → IsNarrow columns (statement_of statement.now) → AreNarrow columns self.new }
        ensures each { IfOk result (λ touched. (n : ℕ) → length (removed_in touched n) ≤ count.new) }
    {
        if self.failed || statement.table() >= self.tables.len() {
            return Err(Refusal::NoMemory);
        }
        match statement {
            Statement::Insert(insert) => self.insert(insert, t, count),
            Statement::Update(update) => self.update(update, t, count),
            Statement::Delete(delete) => self.delete(delete, t, count),
        }
    }

    // Gives the rows of each table before a statement. Want of memory leaves some of them away.
    fn undo_tables(&mut self, touched: &Touched, count: &mut Count) -> Result<(), AllocError>
        requires { AllUndoable (rows_of self.old) (removed_in touched.now) (added_in touched.now) }
        ensures ok { OnOk result ((n : ℕ) → n < table_count self.old → HaveSame (rows_without (rows_of self.old n) (added_in touched.now n) ++ removed_in touched.now n) (rows_of self.new n)) }
        ensures schema { schema_in self.new ≡ schema_in self.old }
        ensures columns { (n most : ℕ) → most_columns self.old n ≤ most → ((r : TableRow) → Has (removed_in touched.now n) r → length r.key ≤ most) → most_columns self.new n ≤ most }
        ensures few { FewToUndo (table_count self.old) (rows_of self.old) (removed_in touched.now) (added_in touched.now) count.old count.new }
    {
        for n in 0..self.tables.len() {
            self.tables[n].undo(touched.removed(n), touched.added(n), count)?;
        }
        Ok(())
    }

    /// Gives the rows before the statement that touched this, which must be what the last statement
    /// touched that is not yet undone. Want of memory loses rows: the value has then failed, and
    /// answers only that.
    ///
    /// The count rises by the rows that were read: each row that was touched is searched for by halves, twice at most.
    pub fn undo(&mut self, touched: &Touched, count: &mut Count) -> Result<(), AllocError>
        requires tables { length touched.now.tables.items ≤ table_count self.old }
        requires touched { AllUndoable (rows_of self.old) (removed_in touched.now) (added_in touched.now) }
        ensures ok { OnOk result (IsUndone (rows_of self.old) (rows_of self.new) (removed_in touched.now) (added_in touched.now)) }
        ensures err { OnErr result (is_failed self.new ≡ true) }
        ensures up { OnOk result (is_failed self.new ≡ false) }
        ensures schema { schema_in self.new ≡ schema_in self.old }
        ensures once_failed { is_failed self.old ≡ true → result ≡ Err alloc_error }
        ensures columns { (n most : ℕ) → most_columns self.old n ≤ most → ((r : TableRow) → Has (removed_in touched.now n) r → length r.key ≤ most) → most_columns self.new n ≤ most }
        ensures few { FewToUndo (table_count self.old) (rows_of self.old) (removed_in touched.now) (added_in touched.now) count.old count.new }
    {
        if self.failed {
            return Err(AllocError);
        }
        rowlaws::undo();
        rowlaws::same_rows();
        let undone = self.undo_tables(touched, count);
        self.failed = undone.is_err();
        undone
    }

    /// Checks the foreign keys: each day of a row that refers to a parent is to be a day of a row of the parent's key.
    ///
    /// `NoParent` with the first table in declared order, then its least key, then its least day without a parent;
    /// `NoMemory`, always once it has failed.
    pub fn check(&self) -> Result<(), Refusal>
        ensures ok { OnOk result ((state : State) → AllListed (rows_of self.now) state → unless_orphan (language_of (schema_in self.now)) state (first_orphan (language_of (schema_in self.now)) state) ≡ Ok state) }
        ensures err { IfErr result (λ refusal. (refusal ≡ NoMemory) ⊎ ((state : State) → AllListed (rows_of self.now) state → unless_orphan (language_of (schema_in self.now)) state (first_orphan (language_of (schema_in self.now)) state) ≡ Err refusal)) }
        ensures once_failed { is_failed self.now ≡ true → result ≡ Err NoMemory }
    {
        if self.failed {
            return Err(Refusal::NoMemory);
        }
        rowlaws::orphan_on_rows();
        match first_orphan(self.alloc, self.tables.as_slice(), &self.schema)? {
            Some(place) => Err(no_parent(self.alloc, &self.schema, &place)?),
            None => Ok(()),
        }
    }

    /// What `check` says, of tables in which no day was without a parent before these rows went and came. Rows that came and
    /// went again may be among them. It looks at the rows that came, and where a key lost days at those rows of each table
    /// that refer to it between the first and the last of these days, found by halves key by key; tables without foreign
    /// keys cost nothing.
    ///
    /// `NoParent` with the first table in declared order, then its least key, then its least day without a parent;
    /// `NoMemory`, always once it has failed.
    ///
    /// The count rises by the rows that were read. A row that came is searched for by halves, and so are its parents' rows that
    /// have a day of it; for a row that went, those rows of its key that have a day of it. Where a key lost days, each key of a
    /// table that refers to it is searched by halves for its rows among these days, and those that refer to such a key are
    /// judged as rows that came.
    pub fn check_touched(&self, touched: &Touched, count: &mut Count) -> Result<(), Refusal>
        ensures ok { OnOk result (ComesFromWhole (language_of (schema_in self.now)) (rows_of self.now) (removed_in touched.now) (added_in touched.now) → (state : State) → AllListed (rows_of self.now) state → unless_orphan (language_of (schema_in self.now)) state (first_orphan (language_of (schema_in self.now)) state) ≡ Ok state) }
        ensures err { IfErr result (λ refusal. (refusal ≡ NoMemory) ⊎ (ComesFromWhole (language_of (schema_in self.now)) (rows_of self.now) (removed_in touched.now) (added_in touched.now) → (state : State) → AllListed (rows_of self.now) state → unless_orphan (language_of (schema_in self.now)) state (first_orphan (language_of (schema_in self.now)) state) ≡ Err refusal)) }
        ensures once_failed { is_failed self.now ≡ true → result ≡ Err NoMemory }
        ensures few { FewToCheck (schema_in self.now) (rows_of self.now) (removed_in touched.now) (added_in touched.now) count.old count.new }
    {
        if self.failed {
            return Err(Refusal::NoMemory);
        }
        let tables = self.tables.as_slice();
        match first_touched_orphan(self.alloc, tables, &self.schema, touched, count)? {
            Some(place) => Err(no_parent(self.alloc, &self.schema, &place)?),
            None => Ok(()),
        }
    }

    /// Whether an undo has found no memory.
    pub fn has_failed(&self) -> bool
        ensures { result ≡ is_failed self.now }
    {
        self.failed
    }

    /// The schema whose tables they are.
    pub fn schema(&self) -> &Schema
        ensures { result.now ≡ schema_in self.now }
    {
        &self.schema
    }
}

// The refusal that names a day without a parent.
fn no_parent(alloc: Global, schema: &Schema, place: &Place) -> Result<Refusal, AllocError>
    requires { place.now.table < length schema.now }
    ensures { IfOk result (λ refusal. refusal ≡ NoParent (name_of schema.now place.now.table) (key_text place.now.key.now) (day_text place.now.day.number)) }
{
    let (name, _) = schema.table(place.table);
    let table = Text::new(alloc, name.as_str())?;
    let key = key_text(alloc, place.key.as_slice())?;
    let day = day_text(alloc, place.day)?;
    Ok(Refusal::NoParent { table, key, day })
}

// The row that an INSERT makes.
fn inserted_row(insert: &Insert, t: Stamp) -> Result<Row, AllocError>
    ensures { IfOk result (λ row. row_of row ≡ new_row insert.now.key.items insert.now.values.items (period_of insert.now.period) t) }
{
    let key = Key::new(insert.key.clone()?)?;
    let values = ArcSlice::from_vec(insert.values.clone()?)?;
    Ok(Row {
        key,
        period: insert.period,
        values,
        system_start: t,
    })
}

// The portion, or else all days.
#[tactic(auto, unfolding(model::specs::Tables::days))]
fn portion_or_all(portion: Option<Period>) -> Period
    ensures { period_of result ≡ unwrap_or (option_map period_of portion) all_days }
{
    match portion {
        Some(portion) => portion,
        None => Period {
            start: Day { number: 0 },
            end: Day { number: 3_652_058 },
        },
    }
}
