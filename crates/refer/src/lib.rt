//! References between tables with periods: the days of a child that no parent has.
#![tactic(auto)]

ghost use Rattle.std.specs.Prelude.{◌≡◌, nat_lt, Some, None, find, map, if◌then◌else◌};
ghost use Rattle.std.specs.Option.{option_map};
ghost use Rattle.std.specs.Result.{result_err};
ghost use Rattle.model.specs.Statements.{days_of};
ghost use Rattle.model.specs.Periods.{period_of, is_free, StartInOrder};

use period::{Day, Period};

/// Whether each day of the child is a day of a parent. The error is the least day that is not. The
/// parents stand in the order of their starts; they may touch, and there may be none. Takes no memory.
pub fn covered(child: Period, parents: &[Period]) -> Result<(), Day>
    requires { StartInOrder (map period_of parents.now) }
    ensures { option_map (λ day. day.number) (result_err result) ≡ find (is_free (map period_of parents.now)) (days_of (period_of child)) }
{
    let mut day = child.start;
    for parent in parents {
        if day < parent.start {
            return none_before(day, child.end);
        }
        day = day.max(parent.end);
    }
    none_before(day, child.end)
}

// The first of the days from `day` up to `end`, if there is one, is the error.
fn none_before(day: Day, end: Day) -> Result<(), Day>
    ensures { option_map (λ d. d.number) (result_err result) ≡ (if nat_lt day.number end.number then Some day.number else None) }
{
    if day < end { Err(day) } else { Ok(()) }
}
