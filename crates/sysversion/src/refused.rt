//! Wrong bodies that no contract here lets through: functions that do nothing but call what they speak of.
ghost use Rattle.std.specs.Prelude.{◌≡◌, Some};
ghost use Rattle.sysversion.specs.Lists.{version_of};

use crate::version::Version;
use model::stamp::Stamp;

/// A function that leaves a version open that it should end does not meet the contract of `Version::end_at`.
fn stays_open(version: &mut Version, t: Stamp)
    ensures { (version_of version.new).end ≡ Some t }
{
    version.end_at(t);
}
