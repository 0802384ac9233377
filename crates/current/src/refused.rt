//! Wrong bodies that no contract here lets through: functions that do nothing but call what they speak of.
ghost use Rattle.std.specs.Prelude.{◌≡◌, ◌≤◌, ◌<◌, ℕ, true, map, is_some, IsTrue, IfOk, IsErr};
ghost use Rattle.std.specs.List.{list_any};
ghost use Rattle.model.specs.Periods.{period_of, is_free};
ghost use Rattle.model.specs.Tables.{Row as TableRow};
ghost use Rattle.rowlaws.specs.Rows.{Has};
ghost use Rattle.rowlaws.specs.Losing.{lost_days};
ghost use Rattle.rowlaws.specs.Changes.{clashes};
ghost use Rattle.rowlaws.specs.Covering.{periods_of};
ghost use Rattle.rowlaws.specs.Cutting as cutting;
ghost use Rattle.current.specs.Rows.{row_of};
ghost use Rattle.current.specs.Corrections.{action_of_correction, is_met};
ghost use Rattle.current.specs.Places.{rows_at};
ghost use Rattle.current.specs.Table.{rows_of_table};

use crate::correction::Correction;
use crate::references::first_free_day;
use crate::row::Row;
use crate::suspects::{Lost, lost_with};
use crate::table::TableRows;
use fault::Refusal;
use overlaps::{Count, Key};
use period::{Day, Period};
use std::alloc::{AllocError, Global};

/// A function that loses what lies of a row before the portion or after it, or gives it new values or the old system start, does not meet the contract of `Correction::add_parts`.
fn parts_are_lost(
    correction: &Correction,
    alloc: Global,
    row: &Row,
    rows: &mut Vec<Row>,
) -> Result<(), Refusal>
    requires { IsTrue (is_met (action_of_correction correction.now) (row_of row.now)) }
    ensures before { IfOk result (λ u. row.now.period.start.number < correction.now.portion.start.number → Has (map row_of rows.new.items) (cutting.part (row_of row.now) row.now.period.start.number correction.now.portion.start.number (row_of row.now).values correction.now.system_start)) }
    ensures after { IfOk result (λ u. correction.now.portion.end.number < row.now.period.end.number → Has (map row_of rows.new.items) (cutting.part (row_of row.now) correction.now.portion.end.number row.now.period.end.number (row_of row.now).values correction.now.system_start)) }
{
    correction.add_parts(alloc, row, rows)
}

/// A function that inserts a row of which another row of the key has a day does not meet the contract of `TableRows::insert`.
fn inserts_a_clash(rows: &mut TableRows, row: Row) -> Result<(), Refusal>
    requires { list_any (clashes row.key (period_of row.period)) (rows_of_table rows.old) ≡ true }
    ensures { IsErr result }
{
    rows.insert(row, &mut Count::new())
}

/// A function that passes over a day without a row of the key, since the ends of the period have rows, does not meet the contract of `first_free_day`.
fn passes_over_a_hole(
    alloc: Global,
    tables: &[TableRows],
    table: usize,
    key: &Key,
    period: Period,
) -> Result<Option<Day>, AllocError>
    ghost day: { ℕ }
    requires from { period.start.number ≤ day }
    requires before { day < period.end.number }
    requires free { is_free (periods_of (rows_at rows_of_table tables.now table) key.now) day ≡ true }
    ensures { IfOk result (λ found. is_some found ≡ true) }
{
    first_free_day(alloc, tables, table, key, period, &mut Count::new())
}

/// A function that forgets a day of a row that went, where no row of its key has it or its key has no rows, does not meet the contract of `lost_with`.
fn forgets_a_lost_day(
    alloc: Global,
    tables: &[TableRows],
    table: usize,
    removed: &[Row],
) -> Result<Lost, AllocError>
    ghost of: { TableRow × ℕ }
    requires went { Has (map row_of removed.now) of.0 }
    requires lost { Has (lost_days (rows_at rows_of_table tables.now table) of.0) of.1 }
    ensures keys { IfOk result (λ lost. Has lost.keys.keys of.0.key) }
    ensures span { IfOk result (λ lost. is_some lost.span ≡ true) }
{
    lost_with(alloc, tables, table, removed, &mut Count::new())
}
