//! Wrong bodies that no contract here lets through: functions that do nothing but call what they speak of.
ghost use Rattle.std.specs.Prelude.{◌≡◌, ◌++◌, ℕ, List, codes, IsErr};

use crate::flight::Version;
use crate::life::Opening;
use crate::lives::read_opening;
use fault::Refusal;
use std::alloc::Global;

/// A function that takes a mark that begins with 0 does not meet the contract of `read_opening`.
fn reads_a_leading_zero(
    alloc: Global,
    version: Version,
    text: &str,
) -> Result<(Opening, &str), Refusal>
    ghost rest: { List ℕ }
    requires { text.now ≡ codes "life 0" ++ rest }
    ensures { IsErr result }
{
    read_opening(alloc, version, text)
}
