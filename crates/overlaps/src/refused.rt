//! Wrong bodies that no contract here lets through: functions that do nothing but call what they speak of.
ghost use Rattle.std.specs.Prelude.{◌≡◌, ◌≤◌, ◌+◌, ◌++◌, ◌∷◌, List, Some, true, false, length, option_copied};
ghost use Rattle.std.specs.List.{list_any};
ghost use Rattle.model.specs.Periods.{period_of};
ghost use Rattle.overlaps.specs.Index.{shares_day};
ghost use Rattle.overlaps.specs.Items.{items_of};

use crate::counted::Count;
use crate::has_period::HasPeriod;
use crate::index::KeyIndex;
use crate::key::Key;
use period::Period;

/// A function that walks through all items of a key does not meet the contract of `KeyIndex::find`: of 20,000 it reads
/// 16 at most.
fn walks_through_all<'a, T: HasPeriod>(
    index: &'a KeyIndex<T>,
    key: &Key,
    p: Period,
    count: &mut Count,
) -> Option<&'a T>
    requires { length (items_of index.now.strands key.now) ≤ 20000 }
    ensures { count.new ≤ count.old + 16 }
{
    index.find(key, p, count)
}

/// A function that passes over the first item that shares a day does not meet the contract of `KeyIndex::find`.
fn passes_over_the_first<'a, T: HasPeriod>(
    index: &'a KeyIndex<T>,
    key: &Key,
    p: Period,
    count: &mut Count,
) -> Option<&'a T>
    ghost items: { List T × T × List T }
    requires stored { items_of index.now.strands key.now ≡ items.0 ++ items.1 ∷ items.2 }
    requires none_before { list_any (λ x. shares_day (period_of p) (T.period x)) items.0 ≡ false }
    requires shares { shares_day (period_of p) (T.period items.1) ≡ true }
    ensures { option_copied result ≡ Some items.1 }
{
    index.find(key, p, count)
}
