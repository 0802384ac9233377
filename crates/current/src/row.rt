//! Rows of tables.
ghost use Rattle.std.specs.Prelude.{◌≡◌};
ghost use Rattle.model.specs.Values.{same_key, key_cmp};

use model::stamp::Stamp;
use model::value::Value;
use overlaps::{HasPeriod, Key};
use period::Period;
use std::alloc::AllocError;
use std::cmp::Ordering;
use std::sync::ArcSlice;

/// A current row: a key has these values on the days of a period, since an instant. A copy shares the key and the
/// values, and takes no memory. A contract sees what `row_of` gives.
#[derive(Debug, Drop)]
pub struct Row {
    pub key: Key,
    pub period: Period,
    /// Of the table's value columns, in their order.
    pub values: ArcSlice<Value>,
    /// The instant of the transaction that made the row.
    pub system_start: Stamp,
}

impl Clone for Row {
    ghost use Rattle.current.specs.Rows.{row_of};

    ghost is_clone = { λ row copy. row_of copy ≡ row_of row };

    fn clone(&self) -> Result<Row, AllocError> {
        Ok(Row {
            key: self.key.clone()?,
            period: self.period,
            values: self.values.clone()?,
            system_start: self.system_start,
        })
    }
}

impl HasPeriod for Row {
    ghost use Rattle.model.specs.Periods.{period_of};

    ghost period = { λ row. period_of row.period };

    ghost some_day = { λ row. row.period.ordered };

    fn period(&self) -> Period {
        self.period
    }
}

#[tactic(auto, unfolding(model::specs::Values::same_key, model::specs::Values::key_cmp))]
fn same_values(values: &[Value], others: &[Value]) -> bool
    ensures { result ≡ same_key values.now others.now }
{
    values.cmp(&others).is_eq()
}

#[tactic(auto, unfolding(model::specs::Values::key_cmp))]
fn compare_values(values: &[Value], others: &[Value]) -> Ordering
    ensures { result ≡ key_cmp values.now others.now }
{
    values.cmp(&others)
}

impl PartialEq for Row {
    ghost use Rattle.std.specs.Cmp.{partial_equiv_from_equiv};
    ghost use Rattle.current.specs.RowOrder.{is_same, is_same_equiv};

    ghost eq = { is_same };

    ghost laws = { partial_equiv_from_equiv is_same_equiv };

    fn eq(&self, other: &Row) -> bool {
        self.is_same(other)
    }
}

impl Eq for Row {
    ghost use Rattle.current.specs.RowOrder.{is_same_equiv};

    ghost laws = { is_same_equiv };
}

impl PartialOrd for Row {
    ghost use Rattle.std.specs.Ordering.{as_partial_cmp};
    ghost use Rattle.current.specs.RowOrder.{row_order, row_order_partial};

    ghost partial_cmp = { as_partial_cmp row_order };

    ghost laws = { row_order_partial };

    fn partial_cmp(&self, other: &Row) -> Option<Ordering> {
        Some(self.cmp(other))
    }
}

impl Ord for Row {
    ghost use Rattle.std.specs.Prelude.{refl};
    ghost use Rattle.current.specs.RowOrder.{row_order, row_order_total, is_same-ties};

    ghost cmp = { row_order };

    ghost total = { row_order_total };

    ghost matches_partial_cmp = { λ x y. refl };

    ghost matches_eq = { is_same-ties };

    fn cmp(&self, other: &Row) -> Ordering {
        let (period, after) = (self.period, other.period);
        self.key
            .cmp(&other.key)
            .then(period.start.number.cmp(&after.start.number))
            .then(period.end.number.cmp(&after.end.number))
            .then(compare_values(self.values.as_slice(), other.values.as_slice()))
            .then(self.system_start.micros().cmp(&other.system_start.micros()))
    }
}

impl Row {
    ghost use Rattle.rowlaws.specs.Touching.{same_row};
    ghost use Rattle.current.specs.Rows.{row_of};

    /// Whether the two have the same key, period, values and system start. Takes no memory.
    pub fn is_same(&self, other: &Row) -> bool
        ensures { result ≡ same_row (row_of self.now) (row_of other.now) }
    {
        self.key == other.key
            && self.period.start.number == other.period.start.number
            && self.period.end.number == other.period.end.number
            && same_values(self.values.as_slice(), other.values.as_slice())
            && self.system_start.micros() == other.system_start.micros()
    }
}
