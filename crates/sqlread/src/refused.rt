//! Wrong bodies that no contract here lets through: functions that do nothing but call what they speak of.
ghost use Rattle.std.specs.Prelude.{◌≡◌, ◌+◌, ℕ, Ok, IfOk};
ghost use Rattle.sqlchecks.specs.Literals.{instant_named};

use crate::query::{SystemTime, read_time};
use fault::Refusal;
use sqlsyntax::SystemTime as TimeText;
use sqltokens::Quoted;

/// A function that asks at FROM .. TO for the instant at its end, too, does not meet the contract of `read_time`.
fn from_to_has_its_end(from: Quoted, to: Quoted) -> Result<SystemTime, Refusal>
    ghost end: { ℕ }
    requires { instant_named to.source.now ≡ Ok end }
    ensures { IfOk result (λ time. time.last + 1 ≡ end) }
{
    read_time(TimeText::FromTo { from, to })
}

/// A function that does not ask at BETWEEN for its upper instant does not meet the contract of `read_time`.
fn between_lacks_its_last(from: Quoted, to: Quoted) -> Result<SystemTime, Refusal>
    ghost last: { ℕ }
    requires { instant_named to.source.now ≡ Ok last }
    ensures { IfOk result (λ time. time.last ≡ last) }
{
    read_time(TimeText::Between { from, to })
}
