//! Wrong bodies that no contract here lets through: functions that do nothing but call what they speak of.
ghost use Rattle.std.specs.Prelude.{◌≡◌, ◌<◌, ℕ, Some, None};

use crate::shown::shown_end;
use model::stamp::Stamp;

/// A function that shows the end of a version that ends after the last instant of the answer does not meet the contract of `shown_end`.
fn shows_a_later_end(last: Stamp, end: Option<Stamp>) -> Option<Stamp>
    ghost at: { ℕ }
    requires ends { end ≡ Some at }
    requires later { last < at }
    ensures { result ≡ None }
{
    shown_end(last, end)
}
