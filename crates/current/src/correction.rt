//! UPDATE and DELETE of one row.
ghost use Rattle.std.specs.Prelude.{◌≡◌, ◌⊎◌, ◌++◌, map, true, false, IsTrue, IfOk, IfErr};
ghost use Rattle.std.specs.Option.{option_map};
ghost use Rattle.std.specs.Arc.{arc_slice_items};
ghost use Rattle.fault.specs.declared.refusal.Refusal.TheVariants.{NoMemory, NumberRange};
ghost use Rattle.rowlaws.specs.Parts.{row_of_part};
ghost use Rattle.current.specs.Rows.{row_of};
ghost use Rattle.current.specs.Corrections.{action_of_correction, AreSet, IsOutOfRange, new_part, is_met, is_stuck, made};

use crate::row::Row;
use fault::Refusal;
use model::stamp::Stamp;
use model::value::Value;
use period::Period;
use portion::pieces;
use sqlchecks::comparison::{Comparison, pass_all};
use sqlread::statement::{Assignment, assigned};
use std::alloc::{AllocError, Global};
use std::sync::ArcSlice;

/// An UPDATE or a DELETE of the days in a portion, at an instant.
#[derive(Clone, Copy)]
pub(crate) struct Correction<'a> {
    pub conditions: &'a [Comparison],
    pub portion: Period,
    /// What UPDATE sets. DELETE has none.
    pub assignments: Option<&'a [Assignment]>,
    pub system_start: Stamp,
}

// Adds the part of the row as a row, if there is a part.
fn push_part(
    parts: &mut Vec<Row>,
    row: &Row,
    part: Option<Period>,
    values: ArcSlice<Value>,
    system_start: Stamp,
) -> Result<(), AllocError>
    ensures { IfOk result (λ u. map row_of parts.new.items ≡ map row_of parts.old.items ++ row_of_part (row_of row.now) part (arc_slice_items values) system_start) }
{
    if let Some(period) = part {
        let key = row.key.clone()?;
        parts.push(Row {
            key,
            period,
            values,
            system_start,
        })?;
    }
    Ok(())
}

// The same with the row's own values.
fn push_old_part(
    parts: &mut Vec<Row>,
    row: &Row,
    part: Option<Period>,
    system_start: Stamp,
) -> Result<(), AllocError>
    ensures { IfOk result (λ u. map row_of parts.new.items ≡ map row_of parts.old.items ++ row_of_part (row_of row.now) part (row_of row.now).values system_start) }
{
    match part {
        Some(_) => push_part(parts, row, part, row.values.clone()?, system_start),
        None => Ok(()),
    }
}

// The same with new values, if there are any.
fn push_new_part(
    parts: &mut Vec<Row>,
    row: &Row,
    part: Option<Period>,
    values: Option<ArcSlice<Value>>,
    system_start: Stamp,
) -> Result<(), AllocError>
    ensures { IfOk result (λ u. map row_of parts.new.items ≡ map row_of parts.old.items ++ new_part (row_of row.now) part (option_map arc_slice_items values) system_start) }
{
    match values {
        Some(values) => push_part(parts, row, part, values, system_start),
        None => Ok(()),
    }
}

impl Correction<'_> {
    /// Whether the row passes WHERE and has a day in the portion. Takes no memory.
    #[tactic(auto, unfolding(sqlchecks::specs::Comparisons::passes_all))]
    pub(crate) fn meets(&self, row: &Row) -> bool
        ensures { result ≡ is_met (action_of_correction self.now) (row_of row.now) }
    {
        pass_all(self.conditions, row.key.as_slice(), row.values.as_slice())
            && row.period.start < self.portion.end
            && self.portion.start < row.period.end
    }

    // What SET makes of the values. DELETE leaves none within the portion.
    fn new_values(&self, alloc: Global, row: &Row) -> Result<Option<ArcSlice<Value>>, Refusal>
        ensures ok { IfOk result (λ new. AreSet self.now.assignments (row_of row.now).values (option_map arc_slice_items new)) }
        ensures err { IfErr result (λ refusal. (refusal ≡ NoMemory) ⊎ ((refusal ≡ NumberRange) × IsOutOfRange self.now.assignments (row_of row.now).values)) }
    {
        match self.assignments {
            None => Ok(None),
            Some(assignments) => {
                match assigned(alloc, assignments, row.values.as_slice())? {
                    Some(values) => Ok(Some(ArcSlice::from_vec(values)?)),
                    None => Err(Refusal::NumberRange),
                }
            }
        }
    }

    /// The rows that become of a row that is met: its parts before the portion and after it, with
    /// the old values, and for UPDATE its part within the portion, with the new ones. All are born
    /// anew, and added to the rows.
    ///
    /// `NumberRange` where a new value is out of range; `NoMemory`.
    pub(crate) fn add_parts(
        &self,
        alloc: Global,
        row: &Row,
        rows: &mut Vec<Row>,
    ) -> Result<(), Refusal>
        requires { IsTrue (is_met (action_of_correction self.now) (row_of row.now)) }
        ensures ok { IfOk result (λ u. (map row_of rows.new.items ≡ map row_of rows.old.items ++ made (action_of_correction self.now) self.now.system_start (row_of row.now)) × (is_stuck (action_of_correction self.now) (row_of row.now) ≡ false)) }
        ensures err { IfErr result (λ refusal. (refusal ≡ NoMemory) ⊎ ((refusal ≡ NumberRange) × (is_stuck (action_of_correction self.now) (row_of row.now) ≡ true))) }
    {
        rowlaws::parts_of_update();
        rowlaws::parts_of_delete();
        let new = self.new_values(alloc, row)?;
        let (before, within, after) = pieces(row.period, self.portion);
        let at = self.system_start;
        push_old_part(rows, row, before, at)?;
        push_new_part(rows, row, within, new, at)?;
        push_old_part(rows, row, after, at)?;
        Ok(())
    }
}
