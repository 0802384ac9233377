//! The rows of a table by their keys.
ghost use Rattle.std.specs.Prelude.{◌≡◌, ◌<◌, ◌≤◌, ◌+◌, ◌^◌, ℕ, length, map, filter, not, true, false, IsTrue, OnOk, OnErr};
ghost use Rattle.std.specs.List.{list_any};
ghost use Rattle.std.specs.BTreeMap.{IsOrdered};
ghost use Rattle.model.specs.Values.{key_cmp};
ghost use Rattle.model.specs.Periods.{period_of};
ghost use Rattle.rowlaws.specs.Changes.{clashes};
ghost use Rattle.rowlaws.specs.Touching.{same_row};
ghost use Rattle.current.specs.Rows.{row_of};
ghost use Rattle.current.specs.Plans.{instead};
ghost use Rattle.current.specs.ByKey.{strands_of, rows_in, in_strand, with_strand, with_row};

use crate::row::Row;
use overlaps::{Count, Counted, Key, KeyIndex};
use std::alloc::AllocError;
use std::collections::BTreeMap;

/// The rows of each key, in the order of their starts.
pub(crate) type Strands = BTreeMap<Key, Counted<Row>>;

// Keeps no memory for a key without rows.
fn forget_if_empty(strands: &mut Strands, key: &Key)
    ensures { strands_of strands.new ≡ strands_of strands.old }
{
    let Some(strand) = strands.get(key) else {
        return;
    };
    if strand.is_empty() {
        strands.remove(key);
    }
}

/// Gives a key other rows. A key that has no rows is given none. Takes no memory.
pub(crate) fn replace_strand(strands: &mut Strands, key: &Key, rows: Vec<Row>)
    ensures { strands_of strands.new ≡ with_strand key.now (instead (strands_of strands.old key.now) (map row_of rows.items)) (strands_of strands.old) }
{
    let Some(strand) = strands.get_mut(key) else {
        return;
    };
    if strand.is_empty() {
        return;
    }
    let some_left = !rows.is_empty();
    *strand = Counted::from(rows);
    if some_left {
        return;
    }
    forget_if_empty(strands, key);
}

/// Adds a row, no day of which its key has. Its place is searched for by halves, as `KeyIndex::insert` does. Want of memory
/// changes nothing.
pub(crate) fn put_row(
    index: &mut KeyIndex<Row>,
    row: Row,
    count: &mut Count,
) -> Result<(), AllocError>
    requires in_strand { IsTrue (in_strand row.key 0 (strands_of index.old.strands row.key)) }
    requires free { list_any (clashes row.key (period_of row.period)) (strands_of index.old.strands row.key) ≡ false }
    ensures ok { OnOk result (strands_of index.new.strands ≡ with_strand row.key (with_row (row_of row) (strands_of index.old.strands row.key)) (strands_of index.old.strands)) }
    ensures err { OnErr result (strands_of index.new.strands ≡ strands_of index.old.strands) }
    ensures kept { OnErr result (rows_in index.new.strands.entries ≡ rows_in index.old.strands.entries) }
    ensures few { (digits : ℕ) → length (strands_of index.old.strands row.key) < 2 ^ digits → count.new ≤ count.old + digits }
{
    overlaps::laws::sharing_is_overlap();
    let key = row.key.clone()?;
    index.insert(key, row, count)
}

/// Takes a row out, which is there. It is searched for by halves, as `KeyIndex::remove` does. Takes no memory.
pub(crate) fn take_row(index: &mut KeyIndex<Row>, row: &Row, count: &mut Count)
    requires in_strand { IsTrue (in_strand row.now.key 0 (strands_of index.old.strands row.now.key)) }
    requires there { list_any (same_row (row_of row.now)) (strands_of index.old.strands row.now.key) ≡ true }
    ensures rest { strands_of index.new.strands ≡ with_strand row.now.key (filter (λ r. not (same_row r (row_of row.now))) (strands_of index.old.strands row.now.key)) (strands_of index.old.strands) }
    ensures few { (digits : ℕ) → length (strands_of index.old.strands row.now.key) < 2 ^ digits → count.new ≤ count.old + digits + 1 }
{
    index.remove(&row.key, row.period, count);
}

/// The keys of an index are in order. It does nothing: what it is for is its contract.
pub(crate) fn keys_in_order(index: &KeyIndex<Row>)
    ensures { IsOrdered key_cmp index.now.strands }
{
    let _ = index.strands.len();
}
