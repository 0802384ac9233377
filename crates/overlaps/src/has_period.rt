//! What has a period.
ghost use Rattle.std.specs.Prelude.{◌≡◌, ◌<◌};
ghost use Rattle.model.specs.Periods.{period_of};

use period::Period;

/// Something with a period, by which it is stored and found.
pub trait HasPeriod {
    ghost use Rattle.model.specs.Tables.{Period as Days};

    /// The days of its period.
    ghost period: { Self → Days };

    /// Its period. Takes no memory.
    fn period(&self) -> Period
        ensures { period_of result ≡ period self.now };

    /// The period has a day.
    ghost some_day: { (it : Self) → (period it).start < (period it).end };
}

impl HasPeriod for Period {
    ghost period = { period_of };

    ghost some_day = { λ it. it.ordered };

    fn period(&self) -> Period {
        *self
    }
}
