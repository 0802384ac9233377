//! Wrong bodies that no contract here lets through: functions that do nothing but call what they speak of.
ghost use Rattle.std.specs.Prelude.{◌≡◌};
ghost use Rattle.world.specs.View.{IsGroup};

use crate::event::{Job, Left};
use crate::group::Group;
use model::member::Member;
use std::alloc::AllocError;

/// A function that sends messages of a torn step does not meet the contract of `Group::tear`.
fn sends_of_a_torn_step(
    group: &mut Group,
    member: Member,
    job: &Job,
    left: Left,
) -> Result<(), AllocError>
    requires { IsGroup group.old.schema group.old.members group.old.seats.items }
    ensures { group.new.sent.items ≡ group.old.sent.items }
{
    group.tear(member, job, left)
}
