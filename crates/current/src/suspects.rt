//! Foreign keys after a transaction, judged where it touched: the rows that came, and those that have a day that a key they
//! refer to lost. References that held before are judged so as by going through all.
ghost use Rattle.std.specs.Prelude.{◌≡◌, ◌<◌, ◌≤◌, ◌⊎◌, ◌+◌, ℕ, List, IsTrue, true, map, filter, if◌then◌else◌, length, option_map, IfOk, IfSome};
ghost use Rattle.model.specs.Periods.{period_of};
ghost use Rattle.model.specs.Tables.{Row as TableRow};
ghost use Rattle.model.specs.Transactions.{State};
ghost use Rattle.model.specs.Transactions as model;
ghost use Rattle.rowlaws.specs.Rows.{Has};
ghost use Rattle.rowlaws.specs.Statements.{AllListed};
ghost use Rattle.rowlaws.specs.Losing.{lost_days, has_lost_day};
ghost use Rattle.rowlaws.specs.Whole.{ComesFromWhole};
ghost use Rattle.rowlaws.specs.Suspects.{PickedOrphan, earlier as earlier_place};
ghost use Rattle.sqlread.specs.Meaning.{references_from, language_of};
ghost use Rattle.current.specs.Rows.{row_of};
ghost use Rattle.current.specs.Table.{rows_of_table};
ghost use Rattle.current.specs.Places.{rows_at};
ghost use Rattle.current.specs.Orphans.{place_of};
ghost use Rattle.current.specs.Touched.{removed_in, added_in};
ghost use Rattle.current.specs.Reads.{CostsAtMost, total, searching, judging, checking, FewToCheck};
ghost use Rattle.current.specs.Suspects.{IsIn, IsAcross, IsLost, IsOfLost, IsFirstPicked, references_at};

use crate::references::{Place, free_span, missing, referred_key, table_at};
use crate::row::Row;
use crate::table::TableRows;
use crate::touched::Touched;
use overlaps::{Count, Counted, Key};
use period::Period;
use schema::{Reference, Schema, Table};
use std::alloc::{AllocError, Global};
use std::collections::BTreeSet;

/// The keys of a table that lost a day, and a period with all days that they lost.
#[derive(Debug, Drop)]
pub(crate) struct Lost {
    pub keys: BTreeSet<Key>,
    /// None where no day is lost.
    pub span: Option<Period>,
}

/// A search for the first day without a parent, among rows of one table.
#[derive(Clone, Copy)]
pub(crate) struct Search<'a> {
    pub alloc: Global,
    pub tables: &'a [TableRows],
    /// Where the table stands.
    pub place: usize,
    pub table: &'a Table,
}

// The earlier of two places of one table, by key and then by day.
fn earlier<'a>(one: Option<Place<'a>>, other: Option<Place<'a>>) -> Option<Place<'a>>
    ensures { option_map place_of result ≡ earlier_place (option_map place_of one.entry) (option_map place_of other.entry) }
{
    match (one, other) {
        (Some(place), Some(later)) => {
            let order = place.key.cmp(later.key);
            if order.then(place.day.number.cmp(&later.day.number)).is_gt() {
                Some(later)
            } else {
                Some(place)
            }
        }
        (Some(place), None) => Some(place),
        (None, place) => place,
    }
}

// A period with the days of both.
fn joined(one: Option<Period>, other: Period) -> Period
    ensures first { (d : ℕ) → IsIn one d → (result.start.number ≤ d) × (d < result.end.number) }
    ensures second { (d : ℕ) → other.start.number ≤ d → d < other.end.number → (result.start.number ≤ d) × (d < result.end.number) }
    ensures across { (rows : List TableRow) → IfSome one (IsAcross rows) → IsAcross rows other → IsAcross rows result }
{
    match one {
        Some(one) => Period {
            start: one.start.min(other.start),
            end: one.end.max(other.end),
        },
        None => other,
    }
}

impl Lost {
    ghost use Rattle.model.specs.declared.value.Value.{Value};

    // And what it lost with one row more.
    fn with(
        self,
        alloc: Global,
        tables: &[TableRows],
        table: usize,
        row: &Row,
        count: &mut Count,
    ) -> Result<Lost, AllocError>
        ensures before { IfOk result (λ lost. (key : List Value) (d : ℕ) → IsLost self key d → IsLost lost key d) }
        ensures row { IfOk result (λ lost. (d : ℕ) → Has (lost_days (rows_at rows_of_table tables.now table) (row_of row.now)) d → IsLost lost row.now.key d) }
        ensures of_lost { IfOk result (λ lost. (rows : List TableRow) → IsOfLost rows self → (has_lost_day (rows_at rows_of_table tables.now table) (row_of row.now) ≡ true → Has rows (row_of row.now)) → IsOfLost rows lost) }
        ensures few { CostsAtMost (rows_at rows_of_table tables.now) (λ digits. searching digits row.now.key (period_of row.now.period) (rows_at rows_of_table tables.now table)) count.old count.new }
    {
        let Some(more) = free_span(alloc, tables, table, &row.key, row.period, count)? else {
            return Ok(self);
        };
        let Lost { mut keys, span } = self;
        let key = row.key.clone()?;
        keys.insert(key)?;
        Ok(Lost {
            keys,
            span: Some(joined(span, more)),
        })
    }
}

/// What a table lost with these rows that went: each day that none of a row's key has now, and its key.
pub(crate) fn lost_with(
    alloc: Global,
    tables: &[TableRows],
    table: usize,
    removed: &[Row],
    count: &mut Count,
) -> Result<Lost, AllocError>
    ensures each { IfOk result (λ lost. (row : TableRow) (d : ℕ) → Has (map row_of removed.now) row → Has (lost_days (rows_at rows_of_table tables.now table) row) d → IsLost lost row.key d) }
    ensures of_lost { IfOk result (λ lost. IsOfLost (filter (has_lost_day (rows_at rows_of_table tables.now table)) (map row_of removed.now)) lost) }
    ensures few { CostsAtMost (rows_at rows_of_table tables.now) (λ digits. total (λ q. searching digits q.key q.period (rows_at rows_of_table tables.now table)) (map row_of removed.now)) count.old count.new }
{
    let mut lost = Lost {
        keys: BTreeSet::new(alloc),
        span: None,
    };
    for row in removed {
        let next = lost.with(alloc, tables, table, row, count)?;
        lost = next;
    }
    Ok(lost)
}

impl<'a> Search<'a> {
    ghost use Rattle.std.specs.Prelude.{Some};
    ghost use Rattle.rowlaws.specs.Suspects.{rows_losing};
    ghost use Rattle.sqlread.specs.Meaning.{reference_of, values_at};
    ghost use Rattle.schema.specs.Shape.{ReferenceShape};
    ghost use Rattle.overlaps.specs.Index.{AreApart};
    ghost use Rattle.current.specs.Reads.{seeking, following};
    ghost use Rattle.current.specs.Suspects.{rows_by, references_by, meets_span, refers_among, LooksAt};

    // Looks at a row.
    fn row(
        &self,
        row: &'a Row,
        before: Option<Place<'a>>,
        count: &mut Count,
    ) -> Result<Option<Place<'a>>, AllocError>
        requires { Has (rows_by self.now self.now.place) (row_of row.now) }
        ensures looks { IfOk result (λ now. LooksAt self.now (λ r. r ≡ row_of row.now) (option_map place_of before.entry) (option_map place_of now)) }
        ensures few { CostsAtMost (rows_by self.now) (λ digits. judging digits (rows_by self.now) (references_by self.now) (row_of row.now)) count.old count.new }
    {
        let key = &row.key;
        let table = self.place;
        match missing(self.alloc, self.tables, table, self.table, row, count)? {
            Some(day) => {
                let here = Some(Place { table, key, day });
                Ok(earlier(here, before))
            }
            None => Ok(before),
        }
    }

    // Whether the row stands in the table. It is searched for by halves.
    fn stands(&self, row: &Row, count: &mut Count) -> bool
        ensures stands { IsTrue result → Has (rows_by self.now self.now.place) (row_of row.now) }
        ensures each { Has (rows_by self.now self.now.place) (row_of row.now) → IsTrue result }
        ensures few { CostsAtMost (rows_by self.now) (λ digits. digits + 1) count.old count.new }
    {
        match table_at(self.tables, self.place) {
            Some(rows) => rows.has(row, count),
            None => false,
        }
    }

    // Looks at a row that came, if it stands now.
    fn came_row(
        &self,
        row: &'a Row,
        before: Option<Place<'a>>,
        count: &mut Count,
    ) -> Result<Option<Place<'a>>, AllocError>
        ensures looks { IfOk result (λ now. LooksAt self.now (λ r. (r ≡ row_of row.now) × Has (rows_by self.now self.now.place) r) (option_map place_of before.entry) (option_map place_of now)) }
        ensures few { CostsAtMost (rows_by self.now) (λ digits. digits + 1 + judging digits (rows_by self.now) (references_by self.now) (row_of row.now)) count.old count.new }
    {
        if !self.stands(row, count) {
            return Ok(before);
        }
        self.row(row, before, count)
    }

    // Looks at those rows that came and stand now.
    fn came(
        &self,
        added: &'a [Row],
        before: Option<Place<'a>>,
        count: &mut Count,
    ) -> Result<Option<Place<'a>>, AllocError>
        ensures looks { IfOk result (λ now. LooksAt self.now (λ r. Has (map row_of added.now) r × Has (rows_by self.now self.now.place) r) (option_map place_of before.entry) (option_map place_of now)) }
        ensures few { CostsAtMost (rows_by self.now) (λ digits. total (λ r. digits + 1 + judging digits (rows_by self.now) (references_by self.now) r) (map row_of added.now)) count.old count.new }
    {
        let mut found = before;
        for row in added {
            let next = self.came_row(row, found, count)?;
            found = next;
        }
        Ok(found)
    }

    // Looks at a row, if it refers to one of the keys.
    fn referring_row(
        &self,
        columns: &[usize],
        keys: &BTreeSet<Key>,
        row: &'a Row,
        before: Option<Place<'a>>,
        count: &mut Count,
    ) -> Result<Option<Place<'a>>, AllocError>
        requires { Has (rows_by self.now self.now.place) (row_of row.now) }
        ensures looks { IfOk result (λ now. LooksAt self.now (λ r. (r ≡ row_of row.now) × Has keys.now.keys (values_at self.now.table.now columns.now r.key r.values)) (option_map place_of before.entry) (option_map place_of now)) }
        ensures few { CostsAtMost (rows_by self.now) (λ digits. if refers_among self.now.table.now columns.now keys.now.keys (row_of row.now) then judging digits (rows_by self.now) (references_by self.now) (row_of row.now) else 0) count.old count.new }
    {
        let key = referred_key(self.alloc, self.table, columns, row)?;
        if !keys.contains(&key) {
            return Ok(before);
        }
        self.row(row, before, count)
    }

    // Looks at those of these rows that refer to one of the keys.
    fn referring(
        &self,
        columns: &[usize],
        keys: &BTreeSet<Key>,
        rows: &'a [Row],
        before: Option<Place<'a>>,
        count: &mut Count,
    ) -> Result<Option<Place<'a>>, AllocError>
        requires { (r : TableRow) → Has (map row_of rows.now) r → Has (rows_by self.now self.now.place) r }
        ensures looks { IfOk result (λ now. LooksAt self.now (λ r. Has (map row_of rows.now) r × Has keys.now.keys (values_at self.now.table.now columns.now r.key r.values)) (option_map place_of before.entry) (option_map place_of now)) }
        ensures few { CostsAtMost (rows_by self.now) (λ digits. total (λ r. if refers_among self.now.table.now columns.now keys.now.keys r then judging digits (rows_by self.now) (references_by self.now) r else 0) (map row_of rows.now)) count.old count.new }
    {
        let mut found = before;
        for row in rows {
            let next = self.referring_row(columns, keys, row, found, count)?;
            found = next;
        }
        Ok(found)
    }

    // Looks at those of a key's rows that refer to one of the keys and have a day of the span. Those that have one are found
    // by halves.
    fn meeting_of_key(
        &self,
        columns: &[usize],
        keys: &BTreeSet<Key>,
        span: Period,
        strand: &'a Counted<Row>,
        before: Option<Place<'a>>,
        count: &mut Count,
    ) -> Result<Option<Place<'a>>, AllocError>
        requires apart { AreApart (map (λ r. period_of r.period) strand.now) }
        requires among { (r : TableRow) → Has (map row_of strand.now) r → Has (rows_by self.now self.now.place) r }
        requires short { length strand.now ≤ length (rows_by self.now self.now.place) }
        ensures looks { IfOk result (λ now. LooksAt self.now (λ r. Has (map row_of strand.now) r × Has keys.now.keys (values_at self.now.table.now columns.now r.key r.values) × (r.period.start < span.end.number) × (span.start.number < r.period.end)) (option_map place_of before.entry) (option_map place_of now)) }
        ensures few { CostsAtMost (rows_by self.now) (λ digits. (digits + digits + 1) + total (λ r. 1 + (if refers_among self.now.table.now columns.now keys.now.keys r then judging digits (rows_by self.now) (references_by self.now) r else 0)) (filter (meets_span span) (map row_of strand.now))) count.old count.new }
    {
        overlaps::laws::sharing_is_overlap();
        let (_, met) = strand.sharing(span, count);
        self.referring(columns, keys, met, before, count)
    }

    // The same of the rows of all keys. A key without rows is passed over.
    fn meeting(
        &self,
        columns: &[usize],
        keys: &BTreeSet<Key>,
        span: Period,
        rows: &'a TableRows,
        before: Option<Place<'a>>,
        count: &mut Count,
    ) -> Result<Option<Place<'a>>, AllocError>
        requires { rows_of_table rows.now ≡ rows_by self.now self.now.place }
        ensures looks { IfOk result (λ now. LooksAt self.now (λ r. Has (rows_of_table rows.now) r × Has keys.now.keys (values_at self.now.table.now columns.now r.key r.values) × (r.period.start < span.end.number) × (span.start.number < r.period.end)) (option_map place_of before.entry) (option_map place_of now)) }
        ensures few { CostsAtMost (rows_by self.now) (λ digits. seeking digits (rows_by self.now) (references_by self.now) (meets_span span) (refers_among self.now.table.now columns.now keys.now.keys) (rows_of_table rows.now)) count.old count.new }
    {
        let mut found = before;
        for (_, strand) in &rows.index.strands {
            if strand.is_empty() {
                continue;
            }
            let next = self.meeting_of_key(columns, keys, span, strand, found, count)?;
            found = next;
        }
        Ok(found)
    }

    // The same of a table that may have no rows yet.
    fn spanned(
        &self,
        columns: &[usize],
        keys: &BTreeSet<Key>,
        span: Period,
        before: Option<Place<'a>>,
        count: &mut Count,
    ) -> Result<Option<Place<'a>>, AllocError>
        ensures looks { IfOk result (λ now. LooksAt self.now (λ r. Has (rows_by self.now self.now.place) r × Has keys.now.keys (values_at self.now.table.now columns.now r.key r.values) × (r.period.start < span.end.number) × (span.start.number < r.period.end)) (option_map place_of before.entry) (option_map place_of now)) }
        ensures few { CostsAtMost (rows_by self.now) (λ digits. seeking digits (rows_by self.now) (references_by self.now) (meets_span span) (refers_among self.now.table.now columns.now keys.now.keys) (rows_by self.now self.now.place)) count.old count.new }
    {
        match table_at(self.tables, self.place) {
            Some(rows) => self.meeting(columns, keys, span, rows, before, count),
            None => Ok(before),
        }
    }

    // Looks at the rows that have a day that a key they refer to lost.
    fn losing(
        &self,
        reference: &Reference,
        removed: &[Row],
        before: Option<Place<'a>>,
        count: &mut Count,
    ) -> Result<Option<Place<'a>>, AllocError>
        ensures looks { IfOk result (λ now. LooksAt self.now (λ r. (row : TableRow) × Has (map row_of removed.now) row × Has (rows_losing (reference_of self.now.place self.now.table.now reference.now) (rows_by self.now self.now.place) (rows_by self.now reference.now.parent) row) r) (option_map place_of before.entry) (option_map place_of now)) }
        ensures few { CostsAtMost (rows_by self.now) (λ digits. following digits (rows_by self.now) (references_by self.now) (reference_of self.now.place self.now.table.now reference.now) (map row_of removed.now)) count.old count.new }
    {
        let lost = lost_with(self.alloc, self.tables, reference.parent(), removed, count)?;
        match lost.span {
            Some(span) => self.spanned(reference.columns(), &lost.keys, span, before, count),
            None => Ok(before),
        }
    }

    // And so by all foreign keys of the table.
    fn losing_any(
        &self,
        touched: &Touched,
        before: Option<Place<'a>>,
        count: &mut Count,
    ) -> Result<Option<Place<'a>>, AllocError>
        ensures looks { IfOk result (λ now. LooksAt self.now (λ r. (f : ReferenceShape) × Has self.now.table.now.references f × (row : TableRow) × Has (removed_in touched.now f.parent) row × Has (rows_losing (reference_of self.now.place self.now.table.now f) (rows_by self.now self.now.place) (rows_by self.now f.parent) row) r) (option_map place_of before.entry) (option_map place_of now)) }
        ensures few { CostsAtMost (rows_by self.now) (λ digits. total (λ f. following digits (rows_by self.now) (references_by self.now) f (removed_in touched.now f.parent)) (references_by self.now)) count.old count.new }
    {
        let mut found = before;
        let references = self.table.references();
        for reference in references {
            let removed = touched.removed(reference.parent());
            let next = self.losing(reference, removed, found, count)?;
            found = next;
        }
        Ok(found)
    }
}

// The first such day of the table at this place. A table without foreign keys is not looked at.
fn first_in_table<'a>(
    alloc: Global,
    tables: &'a [TableRows],
    schema: &'a Schema,
    place: usize,
    touched: &'a Touched,
    count: &mut Count,
) -> Result<Option<Place<'a>>, AllocError>
    requires { place < length schema.now }
    ensures picked { IfOk result (λ found. IsFirstPicked (references_from 0 schema.now) (rows_at rows_of_table tables.now) (removed_in touched.now) (added_in touched.now) place (option_map place_of found)) }
    ensures few { CostsAtMost (rows_at rows_of_table tables.now) (λ digits. checking digits (rows_at rows_of_table tables.now) (removed_in touched.now) (added_in touched.now) place (references_at place schema.now)) count.old count.new }
{
    let (_, table) = schema.table(place);
    if table.references().is_empty() {
        return Ok(None);
    }
    let search = Search {
        alloc,
        tables,
        place,
        table,
    };
    let found = search.came(touched.added(place), None, count)?;
    search.losing_any(touched, found, count)
}

/// The first day without a parent, where there was none before these rows went and came: of the
/// first table in declared order, its least key, its least day.
pub(crate) fn first_touched_orphan<'a>(
    alloc: Global,
    tables: &'a [TableRows],
    schema: &'a Schema,
    touched: &'a Touched,
    count: &mut Count,
) -> Result<Option<Place<'a>>, AllocError>
    ensures first { IfOk result (λ found. ComesFromWhole (language_of schema.now) (rows_at rows_of_table tables.now) (removed_in touched.now) (added_in touched.now) → (state : State) → AllListed (rows_at rows_of_table tables.now) state → option_map place_of found ≡ model.first_orphan (language_of schema.now) state) }
    ensures within { IfOk result (λ found. IfSome found (λ place. place.table < length schema.now)) }
    ensures few { FewToCheck schema.now (rows_at rows_of_table tables.now) (removed_in touched.now) (added_in touched.now) count.old count.new }
{
    rowlaws::picked_orphan();
    for place in 0..schema.len() {
        if let Some(found) = first_in_table(alloc, tables, schema, place, touched, count)? {
            return Ok(Some(found));
        }
    }
    Ok(None)
}
