//! UPDATE and DELETE of the rows of one key.
ghost use Rattle.std.specs.Prelude.{◌≡◌, ◌≤◌, ◌⊎◌, ◌++◌, [], drop, length, map, true, false, flat_map, IfOk, IfErr};
ghost use Rattle.std.specs.List.{list_any};
ghost use Rattle.fault.specs.declared.refusal.Refusal.TheVariants.{NoMemory, NumberRange};
ghost use Rattle.current.specs.Rows.{row_of};
ghost use Rattle.current.specs.Touched.{removed_of, added_of};
ghost use Rattle.current.specs.Corrections.{action_of_correction, is_met, is_stuck, kept, removed_at, added_at};

use crate::compare::{add_others, add_unless};
use crate::correction::Correction;
use crate::row::Row;
use fault::Refusal;
use std::alloc::{AllocError, Global};

/// What a statement touches of one table.
#[derive(Debug, Drop)]
pub struct Changes {
    /// The rows that go.
    pub removed: Vec<Row>,
    /// The rows that come.
    pub added: Vec<Row>,
}

impl Changes {
    /// None. Takes no memory.
    pub(crate) fn none(alloc: Global) -> Changes
        ensures removed { removed_of result ≡ [] }
        ensures added { added_of result ≡ [] }
    {
        Changes {
            removed: Vec::new(alloc),
            added: Vec::new(alloc),
        }
    }
}

// The rows from a place on.
fn rows_from(rows: &[Row], place: usize) -> &[Row]
    requires { place ≤ length rows.now }
    ensures { result.now ≡ drop place rows.now }
{
    &rows[place..]
}

// Adds what becomes of a row that is met to the rows of its key, and what it touches to the changes.
fn correct_met(
    alloc: Global,
    correction: &Correction,
    row: &Row,
    rows: &mut Vec<Row>,
    changes: &mut Changes,
) -> Result<(), Refusal>
    requires { is_met (action_of_correction correction.now) (row_of row.now) ≡ true }
    ensures rows { IfOk result (λ u. map row_of rows.new.items ≡ map row_of rows.old.items ++ kept (action_of_correction correction.now) correction.now.system_start (row_of row.now)) }
    ensures removed { IfOk result (λ u. map row_of changes.new.removed.items ≡ map row_of changes.old.removed.items ++ removed_at (action_of_correction correction.now) correction.now.system_start (row_of row.now)) }
    ensures added { IfOk result (λ u. map row_of changes.new.added.items ≡ map row_of changes.old.added.items ++ added_at (action_of_correction correction.now) correction.now.system_start (row_of row.now)) }
    ensures in_range { IfOk result (λ u. is_stuck (action_of_correction correction.now) (row_of row.now) ≡ false) }
    ensures err { IfErr result (λ refusal. (refusal ≡ NoMemory) ⊎ ((refusal ≡ NumberRange) × (is_stuck (action_of_correction correction.now) (row_of row.now) ≡ true))) }
{
    let place = rows.len();
    correction.add_parts(alloc, row, rows)?;
    let parts = rows_from(rows.as_slice(), place);
    add_unless(&mut changes.removed, row, parts)?;
    add_others(&mut changes.added, parts, row)?;
    Ok(())
}

// Adds what becomes of a row to the rows of its key, and what it touches to the changes.
#[tactic(auto, using(crate::proofs::Walks::unmet_in_range))]
fn correct_row(
    alloc: Global,
    correction: &Correction,
    row: &Row,
    rows: &mut Vec<Row>,
    changes: &mut Changes,
) -> Result<(), Refusal>
    ensures rows { IfOk result (λ u. map row_of rows.new.items ≡ map row_of rows.old.items ++ kept (action_of_correction correction.now) correction.now.system_start (row_of row.now)) }
    ensures removed { IfOk result (λ u. map row_of changes.new.removed.items ≡ map row_of changes.old.removed.items ++ removed_at (action_of_correction correction.now) correction.now.system_start (row_of row.now)) }
    ensures added { IfOk result (λ u. map row_of changes.new.added.items ≡ map row_of changes.old.added.items ++ added_at (action_of_correction correction.now) correction.now.system_start (row_of row.now)) }
    ensures in_range { IfOk result (λ u. is_stuck (action_of_correction correction.now) (row_of row.now) ≡ false) }
    ensures err { IfErr result (λ refusal. (refusal ≡ NoMemory) ⊎ ((refusal ≡ NumberRange) × (is_stuck (action_of_correction correction.now) (row_of row.now) ≡ true))) }
{
    if correction.meets(row) {
        return correct_met(alloc, correction, row, rows, changes);
    }
    rows.push(row.clone()?)?;
    Ok(())
}

/// What becomes of the rows of a key; what is touched is added to the changes.
///
/// `NumberRange` where a new value of a row that is met is out of range; `NoMemory`.
pub(crate) fn correct_strand(
    alloc: Global,
    correction: &Correction,
    strand: &[Row],
    changes: &mut Changes,
) -> Result<Vec<Row>, Refusal>
    ensures rows { IfOk result (λ rows. map row_of rows.items ≡ flat_map (kept (action_of_correction correction.now) correction.now.system_start) (map row_of strand.now)) }
    ensures removed { IfOk result (λ rows. map row_of changes.new.removed.items ≡ map row_of changes.old.removed.items ++ flat_map (removed_at (action_of_correction correction.now) correction.now.system_start) (map row_of strand.now)) }
    ensures added { IfOk result (λ rows. map row_of changes.new.added.items ≡ map row_of changes.old.added.items ++ flat_map (added_at (action_of_correction correction.now) correction.now.system_start) (map row_of strand.now)) }
    ensures in_range { IfOk result (λ rows. list_any (is_stuck (action_of_correction correction.now)) (map row_of strand.now) ≡ false) }
    ensures err { IfErr result (λ refusal. (refusal ≡ NoMemory) ⊎ ((refusal ≡ NumberRange) × (list_any (is_stuck (action_of_correction correction.now)) (map row_of strand.now) ≡ true))) }
{
    let mut rows = Vec::with_capacity(alloc, strand.len())?;
    for row in strand {
        correct_row(alloc, correction, row, &mut rows, changes)?;
    }
    Ok(rows)
}
