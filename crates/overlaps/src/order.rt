//! Items of one key, in the order of the starts of their periods, of which no two share a day.
ghost use Rattle.std.specs.Prelude.{◌≡◌, ◌<◌, ◌≤◌, ◌+◌, ◌^◌, ℕ, None, map, find, length, nat_le, nat_lt, option_copied, OnOk, OnErr};
ghost use Rattle.std.specs.List.{prefix_len};
ghost use Rattle.model.specs.Periods.{period_of};
ghost use Rattle.overlaps.specs.Index.{AreApart, shares_day, same_period, with_item, without_period};

use crate::counted::{Count, Counted};
use crate::has_period::HasPeriod;
use period::{Day, Period};
use std::alloc::AllocError;

/// The place of the first of the items that ends after the day; how many items there are, where none does. It is found
/// by halves.
pub(crate) fn first_after<T: HasPeriod>(items: &Counted<T>, day: Day, count: &mut Count) -> usize
    requires { AreApart (map T.period items.now) }
    ensures place { result ≡ prefix_len (λ x. nat_le (T.period x).end day.number) items.now }
    ensures few { (digits : ℕ) → length items.now < 2 ^ digits → count.new ≤ count.old + digits }
    ensures grows { count.old ≤ count.new }
{
    let mut low = 0;
    let mut high = items.len();
    while low < high {
        let middle = low + (high - low) / 2;
        if items.at(middle, count).period().end <= day {
            low = middle + 1;
        } else {
            high = middle;
        }
    }
    low
}

/// The first of the items whose period has a day of `p`.
pub(crate) fn first_sharing<'a, T: HasPeriod>(
    items: &'a Counted<T>,
    p: Period,
    count: &mut Count,
) -> Option<&'a T>
    requires { AreApart (map T.period items.now) }
    ensures item { option_copied result ≡ find (λ x. shares_day (period_of p) (T.period x)) items.now }
    ensures few { (digits : ℕ) → length items.now < 2 ^ digits → count.new ≤ count.old + digits + 1 }
    ensures grows { count.old ≤ count.new }
{
    let place = first_after(items, p.start, count);
    if place >= items.len() {
        return None;
    }
    let item = items.at(place, count);
    if item.period().start < p.end {
        Some(item)
    } else {
        None
    }
}

/// The places of the items whose periods have a day of `p`: that of the first of them, and the one after the last.
pub(crate) fn sharing_places<T: HasPeriod>(
    items: &Counted<T>,
    p: Period,
    count: &mut Count,
) -> (usize, usize)
    requires { AreApart (map T.period items.now) }
    ensures start { result.0 ≡ prefix_len (λ x. nat_le (T.period x).end p.start.number) items.now }
    ensures end { result.1 ≡ prefix_len (λ x. nat_lt (T.period x).start p.end.number) items.now }
    ensures few { (digits : ℕ) → length items.now < 2 ^ digits → count.new ≤ count.old + digits + digits + 1 }
    ensures grows { count.old ≤ count.new }
{
    let start = first_after(items, p.start, count);
    let last = first_after(items, p.end, count);
    if last < items.len() && items.at(last, count).period().start < p.end {
        return (start, last + 1);
    }
    (start, last)
}

impl<T: HasPeriod> Counted<T> {
    ghost use Rattle.overlaps.specs.Index.{AreSharing};

    /// All items whose periods have a day of `p`, of items in the order of their starts of which no two share a day, after the
    /// place at which the first of them stands, counted from 0. It reads as many as `KeyIndex::sharing` does. Takes no memory.
    pub fn sharing(&self, p: Period, count: &mut Count) -> (usize, &[T])
        requires { AreApart (map T.period self.now) }
        ensures found { AreSharing T.period (period_of p) self.now result.0 result.1.now }
        ensures few { (digits : ℕ) → length self.now < 2 ^ digits → count.new ≤ count.old + digits + digits + 1 + length result.1.now }
        ensures each { length result.1.now ≤ count.new }
        ensures grows { count.old ≤ count.new }
    {
        let (start, end) = sharing_places(self, p, count);
        (start, self.range(start, end, count))
    }
}

/// Adds an item, no day of which is in another, or is refused memory and changes nothing. Its place is found by halves.
pub(crate) fn insert_in_order<T: HasPeriod + Drop>(
    items: &mut Counted<T>,
    item: T,
    count: &mut Count,
) -> Result<(), AllocError>
    requires apart { AreApart (map T.period items.old) }
    requires free { find (λ x. shares_day (T.period item) (T.period x)) items.old ≡ None }
    ensures ok { OnOk result (items.new ≡ with_item T.period item items.old) }
    ensures err { OnErr result (items.new ≡ items.old) }
    ensures few { (digits : ℕ) → length items.old < 2 ^ digits → count.new ≤ count.old + digits }
    ensures grows { count.old ≤ count.new }
{
    let place = first_after(items, item.period().start, count);
    items.insert(place, item)
}

/// Takes the item with this period out, and gives it; none, and no change, where none has it. It is found by halves.
pub(crate) fn remove_from<T: HasPeriod>(
    items: &mut Counted<T>,
    period: Period,
    count: &mut Count,
) -> Option<T>
    requires { AreApart (map T.period items.old) }
    ensures found { result ≡ find (λ x. same_period (T.period x) (period_of period)) items.old }
    ensures rest { items.new ≡ without_period T.period (period_of period) items.old }
    ensures few { (digits : ℕ) → length items.old < 2 ^ digits → count.new ≤ count.old + digits + 1 }
    ensures grows { count.old ≤ count.new }
{
    let place = first_after(items, period.start, count);
    if place >= items.len() {
        return None;
    }
    if items.at(place, count).period() != period {
        return None;
    }
    Some(items.remove(place))
}
