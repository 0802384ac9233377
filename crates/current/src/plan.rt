//! What an UPDATE or a DELETE will make of a table, and how it is then made.
ghost use Rattle.std.specs.Prelude.{◌≡◌, ◌⊎◌, ◌<◌, ◌≤◌, ◌+◌, ◌++◌, [], map, flat_map, length, min, true, false, IfOk, IfErr, fold};
ghost use Rattle.std.specs.List.{list_any};
ghost use Rattle.fault.specs.declared.refusal.Refusal.TheVariants.{NoMemory, NumberRange};
ghost use Rattle.current.specs.Rows.{row_of};
ghost use Rattle.current.specs.Corrections.{action_of_correction, is_met, is_stuck, kept, removed_at, added_at};
ghost use Rattle.current.specs.ByKey.{strands_of, rows_in};
ghost use Rattle.current.specs.Plans.{IsPlanned, ArePlanned, with_planned};

use crate::correction::Correction;
use crate::row::Row;
use crate::strand::{Changes, correct_strand};
use crate::strands::{Strands, replace_strand};
use fault::Refusal;
use overlaps::{Count, Key};
use std::alloc::Global;

/// A key whose rows change, and its new rows.
#[derive(Debug, Drop)]
pub(crate) struct Strand {
    pub key: Key,
    pub rows: Vec<Row>,
}

/// What will become of a table.
#[derive(Debug, Drop)]
pub(crate) struct Plan {
    /// The keys that have a row that is met.
    pub strands: Vec<Strand>,
    /// How many rows the table will have; the greatest number where that is greater.
    pub count: usize,
    pub changes: Changes,
}

fn meets_some(correction: &Correction, rows: &[Row]) -> bool
    ensures { result ≡ list_any (λ r. is_met (action_of_correction correction.now) (row_of r)) rows.now }
{
    rows.iter().any(|row| correction.meets(row))
}

impl Plan {
    // Plans what will become of a key.
    fn add(
        &mut self,
        alloc: Global,
        correction: &Correction,
        key: &Key,
        rows: &[Row],
    ) -> Result<(), Refusal>
        ensures strands { IfOk result (λ u. IsPlanned (action_of_correction correction.now) correction.now.system_start key.now (map row_of rows.now) self.old.strands.items self.new.strands.items) }
        ensures count { IfOk result (λ u. self.new.count ≡ min (self.old.count + length (flat_map (kept (action_of_correction correction.now) correction.now.system_start) (map row_of rows.now))) usize.MAX) }
        ensures removed { IfOk result (λ u. map row_of self.new.changes.removed.items ≡ map row_of self.old.changes.removed.items ++ flat_map (removed_at (action_of_correction correction.now) correction.now.system_start) (map row_of rows.now)) }
        ensures added { IfOk result (λ u. map row_of self.new.changes.added.items ≡ map row_of self.old.changes.added.items ++ flat_map (added_at (action_of_correction correction.now) correction.now.system_start) (map row_of rows.now)) }
        ensures in_range { IfOk result (λ u. list_any (is_stuck (action_of_correction correction.now)) (map row_of rows.now) ≡ false) }
        ensures err { IfErr result (λ refusal. (refusal ≡ NoMemory) ⊎ ((refusal ≡ NumberRange) × (list_any (is_stuck (action_of_correction correction.now)) (map row_of rows.now) ≡ true))) }
    {
        if !meets_some(correction, rows) {
            self.count = self.count.saturating_add(rows.len());
            return Ok(());
        }
        let rows = correct_strand(alloc, correction, rows, &mut self.changes)?;
        let key = key.clone()?;
        self.count = self.count.saturating_add(rows.len());
        self.strands.push(Strand { key, rows })?;
        Ok(())
    }
}

/// What will become of a table's rows.
///
/// `NumberRange` where a new value of a row that is met is out of range; `NoMemory`. It reads each row once.
pub(crate) fn plan_correction(
    alloc: Global,
    correction: &Correction,
    strands: &Strands,
    count: &mut Count,
) -> Result<Plan, Refusal>
    ensures strands { IfOk result (λ plan. ArePlanned (action_of_correction correction.now) correction.now.system_start (strands_of strands.now) plan.strands.items) }
    ensures count { IfOk result (λ plan. plan.count ≡ min (length (flat_map (kept (action_of_correction correction.now) correction.now.system_start) (rows_in strands.now.entries))) usize.MAX) }
    ensures removed { IfOk result (λ plan. map row_of plan.changes.removed.items ≡ flat_map (removed_at (action_of_correction correction.now) correction.now.system_start) (rows_in strands.now.entries)) }
    ensures added { IfOk result (λ plan. map row_of plan.changes.added.items ≡ flat_map (added_at (action_of_correction correction.now) correction.now.system_start) (rows_in strands.now.entries)) }
    ensures in_range { IfOk result (λ plan. list_any (is_stuck (action_of_correction correction.now)) (rows_in strands.now.entries) ≡ false) }
    ensures err { IfErr result (λ refusal. (refusal ≡ NoMemory) ⊎ ((refusal ≡ NumberRange) × (list_any (is_stuck (action_of_correction correction.now)) (rows_in strands.now.entries) ≡ true))) }
    ensures counted { count.new ≤ count.old + length (rows_in strands.now.entries) }
    ensures each { IfOk result (λ plan. length plan.changes.removed.items ≤ count.new) }
{
    let changes = Changes::none(alloc);
    let mut plan = Plan {
        strands: Vec::new(alloc),
        count: 0,
        changes,
    };
    for (key, rows) in strands {
        plan.add(alloc, correction, key, rows.all(count))?;
    }
    Ok(plan)
}

/// Gives these keys these rows; a key that has no rows is given none. Takes no memory.
pub(crate) fn replace_strands(strands: &mut Strands, plan: Vec<Strand>)
    ensures { strands_of strands.new ≡ fold with_planned (strands_of strands.old) plan.items }
{
    for planned in plan {
        let Strand { key, rows } = planned;
        replace_strand(strands, &key, rows);
    }
}
