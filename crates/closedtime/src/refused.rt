//! Wrong bodies that no contract here lets through: functions that do nothing but call what they speak of.
ghost use Rattle.std.specs.Prelude.{◌≡◌, ◌<◌, ℕ, Some, IfSome};

use crate::stamp;
use model::stamp::Stamp;

/// A function that stamps at or below the last stamp, or the floor, does not meet the contract of `stamp`.
fn stamps_below(reading: i64, last: Option<Stamp>, floor: Option<Stamp>) -> Option<Stamp>
    ensures last { IfSome result (λ t. (before : ℕ) → last ≡ Some before → before < t) }
    ensures floor { IfSome result (λ t. (before : ℕ) → floor ≡ Some before → before < t) }
{
    stamp(reading, last, floor)
}
