//! Lists of rows against each other.
ghost use Rattle.std.specs.Prelude.{◌≡◌, ◌<◌, ◌++◌, ◌∷◌, [], map, filter, not, length, IfOk, OnOk, IfSome};
ghost use Rattle.std.specs.Option.{is_some};
ghost use Rattle.std.specs.List.{list_any};
ghost use Rattle.rowlaws.specs.Touching.{same_row, rows_without, removed_both, added_both};
ghost use Rattle.current.specs.Rows.{row_of};
ghost use Rattle.current.specs.RowOrder.{is_same, is_among, AreInOrder};
ghost use Rattle.current.specs.Touched.{removed_of, added_of};
ghost use Rattle.current.specs.declared.row.Row.{Row as DeclaredRow};

use crate::row::Row;
use crate::strand::Changes;
use std::alloc::{AllocError, Global};
use std::mem;

pub(crate) fn has_row(rows: &[Row], row: &Row) -> bool
    ensures { result ≡ list_any (λ other. same_row (row_of row.now) (row_of other)) rows.now }
{
    rows.iter().any(|other| row.is_same(other))
}

/// Adds a copy of a row, if it is not among the others.
pub(crate) fn add_unless(more: &mut Vec<Row>, row: &Row, others: &[Row]) -> Result<(), AllocError>
    ensures { IfOk result (λ u. map row_of more.new.items ≡ map row_of more.old.items ++ rows_without (row_of row.now ∷ []) (map row_of others.now)) }
{
    if has_row(others, row) {
        return Ok(());
    }
    more.push(row.clone()?)?;
    Ok(())
}

/// Adds copies of the rows that are not the other one.
pub(crate) fn add_others(more: &mut Vec<Row>, rows: &[Row], other: &Row) -> Result<(), AllocError>
    ensures { IfOk result (λ u. map row_of more.new.items ≡ map row_of more.old.items ++ rows_without (map row_of rows.now) (row_of other.now ∷ [])) }
{
    for row in rows {
        if !row.is_same(other) {
            more.push(row.clone()?)?;
        }
    }
    Ok(())
}

/// A copy of the rows.
pub(crate) fn clone_rows(alloc: Global, rows: &[Row]) -> Result<Vec<Row>, AllocError>
    ensures { IfOk result (λ copy. map row_of copy.items ≡ map row_of rows.now) }
{
    let mut copy = Vec::new(alloc);
    for row in rows {
        copy.push(row.clone()?)?;
    }
    Ok(copy)
}

/// Adds rows.
pub(crate) fn append(rows: &mut Vec<Row>, more: Vec<Row>) -> Result<(), AllocError>
    ensures { IfOk result (λ u. map row_of rows.new.items ≡ map row_of rows.old.items ++ map row_of more.items) }
{
    let mut more = more;
    rows.append(&mut more)
}

// The rows in order, for a search by halves.
fn in_order<'a>(alloc: Global, rows: &'a [Row]) -> Result<Vec<&'a Row>, AllocError>
    ensures in_order { IfOk result (λ sorted. AreInOrder sorted.items) }
    ensures rows { IfOk result (λ sorted. (row : DeclaredRow) → is_among sorted.items row ≡ list_any (is_same row) rows.now) }
{
    let mut sorted = Vec::new(alloc);
    for row in rows {
        sorted.push(row)?;
    }
    sorted.sort()?;
    Ok(sorted)
}

// A place where rows in order have this one. It is looked for at the near place first.
fn place_of(sorted: &[&Row], row: &Row, near: usize) -> Option<usize>
    requires { AreInOrder sorted.now }
    ensures there { is_some result ≡ is_among sorted.now row.now }
    ensures bound { IfSome result (λ place. place < length sorted.now) }
{
    if sorted.get(near).is_some_and(|other| row.is_same(*other)) {
        return Some(near);
    }
    sorted.binary_search(&row).ok()
}

// Takes those out that are among other rows, and gives them. Where both stand in order each is found at one
// comparison. After an error the rows are of no use.
fn take_out(alloc: Global, rows: &mut Vec<Row>, others: &[Row]) -> Result<Vec<Row>, AllocError>
    ensures left { OnOk result (rows.new.items ≡ filter (λ row. not (list_any (is_same row) others.now)) rows.old.items) }
    ensures taken { IfOk result (λ taken. taken.items ≡ filter (λ row. list_any (is_same row) others.now) rows.old.items) }
{
    let sorted = in_order(alloc, others)?;
    let mut taken = Vec::new(alloc);
    let mut near = 0;
    for row in mem::replace(rows, Vec::new(alloc)) {
        if let Some(place) = place_of(sorted.as_slice(), &row, near) {
            taken.push(row)?;
            near = place + 1;
        } else {
            rows.push(row)?;
        }
    }
    Ok(taken)
}

// Takes those rows out of both lists that each has, and copies none. After an error both are of no use.
fn cancel(
    alloc: Global,
    added: &mut Vec<Row>,
    later_removed: &mut Vec<Row>,
) -> Result<(), AllocError>
    ensures added { OnOk result (map row_of added.new.items ≡ rows_without (map row_of added.old.items) (map row_of later_removed.old.items)) }
    ensures removed { OnOk result (map row_of later_removed.new.items ≡ rows_without (map row_of later_removed.old.items) (map row_of added.old.items)) }
{
    if added.is_empty() || later_removed.is_empty() {
        return Ok(());
    }
    let both = take_out(alloc, added, later_removed.as_slice())?;
    take_out(alloc, later_removed, both.as_slice())?;
    Ok(())
}

/// What two statements touch of one table: what comes with the first and goes with the second does not
/// count.
pub(crate) fn changes_both(
    alloc: Global,
    first: Changes,
    later: Changes,
) -> Result<Changes, AllocError>
    ensures removed { IfOk result (λ both. removed_of both ≡ removed_both (removed_of first) (added_of first) (removed_of later)) }
    ensures added { IfOk result (λ both. added_of both ≡ added_both (added_of first) (removed_of later) (added_of later)) }
{
    let Changes {
        mut removed,
        mut added,
    } = first;
    let Changes {
        removed: mut later_removed,
        added: later_added,
    } = later;
    cancel(alloc, &mut added, &mut later_removed)?;
    append(&mut removed, later_removed)?;
    append(&mut added, later_added)?;
    Ok(Changes { removed, added })
}
