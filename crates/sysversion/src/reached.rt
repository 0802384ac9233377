//! Where the versions of a key stand, by how many days their periods have and when they start.
ghost use Rattle.std.specs.Prelude.{◌≡◌, ℕ, ◌<◌, ◌≤◌, ◌+◌, ◌^◌, true, false, IfOk, IfSome, IfNone};
ghost use Rattle.std.specs.BTreeSet.{contains};
ghost use Rattle.std.specs.Ordering.{nat_cmp, is_gt};
ghost use Rattle.std.specs.declared.cmp.Ordering.TheVariants.{Less};
ghost use Rattle.sysversion.specs.Days.{Reached, reached_cmp};

use period::Period;
use std::alloc::{AllocError, Global};
use std::collections::BTreeSet;
use std::ops::Bound;

// The reach of a version, the start of its period, and its place among the versions. Versions of one reach lie side by
// side, and those that have a day start within the reach before it.
pub(crate) type ReachedPlaces = BTreeSet<(u32, (u32, usize))>;

/// The reach of a period: the power of two that is more than its days and at most twice as many.
pub(crate) fn reach_of(period: Period) -> u32
    ensures covers { period.end.number ≤ period.start.number + result }
    ensures short { period.start.number + period.start.number + result ≤ period.end.number + period.end.number }
{
    let days = period.end.number - period.start.number;
    2u32.pow(days.ilog2()) * 2
}

// The first after this one.
fn first_after(places: &ReachedPlaces, after: (u32, (u32, usize))) -> Option<(u32, (u32, usize))>
    ensures found { IfSome result (λ e. contains reached_cmp places.now e ≡ true) }
    ensures later { IfSome result (λ e. reached_cmp after e ≡ Less) }
    ensures first { IfSome result (λ e. (q : Reached) → contains reached_cmp places.now q ≡ true → reached_cmp after q ≡ Less → is_gt (reached_cmp e q) ≡ false) }
    ensures fits { IfSome result (λ e. (e.1.0 < 2 ^ 32) × (e.1.1 < 2 ^ 64)) }
    ensures none { IfNone result ((q : Reached) → contains reached_cmp places.now q ≡ true → reached_cmp after q ≡ Less → ⊥) }
{
    let rest = (Bound::Excluded(after), Bound::Unbounded);
    match places.range(rest).next() {
        Some((reach, (start, place))) => Some((*reach, (*start, *place))),
        None => None,
    }
}

/// The places of the versions that start at the day or before it by less than their reach.
pub(crate) fn places_near(
    alloc: Global,
    reached: &ReachedPlaces,
    day: u32,
) -> Result<BTreeSet<usize>, AllocError>
    ensures only { IfOk result (λ places. (place : ℕ) → contains nat_cmp places place ≡ true → (reach : ℕ) × (start : ℕ) × (contains reached_cmp reached.now (reach, (start, place)) ≡ true) × (start ≤ day) × (day < start + reach)) }
    ensures each { IfOk result (λ places. (reach start place : ℕ) → contains reached_cmp reached.now (reach, (start, place)) ≡ true → start ≤ day → day < start + reach → contains nat_cmp places place ≡ true) }
{
    let mut places = BTreeSet::new(alloc);
    let mut after = (0, (0, 0));
    while let Some((reach, (start, place))) = first_after(reached, after) {
        if day < start {
            after = (reach, (u32::MAX, usize::MAX));
        } else if reach <= day - start {
            after = (reach, (day - reach, usize::MAX));
        } else {
            places.insert(place)?;
            after = (reach, (start, place));
        }
    }
    Ok(places)
}
