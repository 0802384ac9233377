//! What a portion makes of a period: the parts before it, within it and after it.
#![tactic(auto)]

ghost use Rattle.std.specs.Prelude.{◌≡◌, ℕ, ◌&&◌, nat_lt, nat_le};
ghost use Rattle.model.specs.Tables.{inside};
ghost use Rattle.model.specs.Periods.{period_of, has_day};

use period::{Day, Period};

/// The days of `x` before the portion, those within it and those after it, each part as a period, or
/// none where it has no day. Each day of `x` is in one part. Takes no memory.
pub fn pieces(x: Period, portion: Period) -> (Option<Period>, Option<Period>, Option<Period>)
    ensures before { (d : ℕ) → has_day result.0 d ≡ (inside (period_of x) d && nat_lt d portion.start.number) }
    ensures within { (d : ℕ) → has_day result.1 d ≡ (inside (period_of x) d && inside (period_of portion) d) }
    ensures after { (d : ℕ) → has_day result.2 d ≡ (inside (period_of x) d && nat_le portion.end.number d) }
{
    let before = between(x.start, x.end.min(portion.start));
    let within = between(x.start.max(portion.start), x.end.min(portion.end));
    let after = between(x.start.max(portion.end), x.end);
    (before, within, after)
}

// The days from `start` up to `end`, if there are any.
fn between(start: Day, end: Day) -> Option<Period>
    ensures { (d : ℕ) → has_day result d ≡ (nat_le start.number d && nat_lt d end.number) }
{
    Period::new(start, end).ok()
}
