//! What the members of a run have stored, in short.
ghost use Rattle.std.specs.Prelude.{◌≡◌, ◌≤◌, false, length, IfOk, OnOk};
ghost use Rattle.model.specs.Worlds.{happens};
ghost use Rattle.model.specs.Worlds.Event.{Start};
ghost use Rattle.world.specs.Run.{language_in, members_in, now_of, member_of};
ghost use Rattle.moments.specs.Behind.{log_in};
ghost use Rattle.journal.specs.Digests.{digest_of};
ghost use Rattle.adopt.specs.Lines.{summary_in, summary_at};
ghost use Rattle.adopt.specs.View.{IsLookedAt};

use journal::Summary;
use journal::digest::{BLANK_DIGEST, next_digest};
use model::member::Member;
use std::alloc::{AllocError, Global};
use world::event::Event;
use world::history::World;

// The digest of a member's log, which has so many entries.
fn digest_in(
    alloc: Global,
    world: &mut World,
    node: Member,
    count: usize,
) -> Result<[u8; 32], AllocError>
    requires live { world.old.is_spent ≡ false }
    ensures digest { IfOk result (λ digest. count ≡ length (log_in (member_of world.old node)) → digest ≡ digest_of (log_in (member_of world.old node))) }
    ensures same { OnOk result (IsLookedAt world.old world.new) }
{
    let mut digest = BLANK_DIGEST;
    for index in 0..count {
        let Some(entry) = world.entry(node, index + 1)? else {
            return Err(AllocError);
        };
        digest = next_digest(alloc, &digest, &entry)?;
    }
    Ok(digest)
}

/// What a member that is up has stored, in short; none of one that is down or not there. The error is want of memory.
pub(crate) fn summary(
    alloc: Global,
    world: &mut World,
    node: Member,
) -> Result<Option<Summary>, AllocError>
    requires live { world.old.is_spent ≡ false }
    ensures found { IfOk result (λ found. found ≡ summary_in (member_of world.old node)) }
    ensures same { OnOk result (IsLookedAt world.old world.new) }
{
    let Some(stored) = world.durable(node)? else {
        return Ok(None);
    };
    let digest = digest_in(alloc, world, node, stored.length)?;
    Ok(Some(Summary {
        hard: stored.hard,
        length: stored.length,
        digest,
    }))
}

/// What a member of a run of so many, 3 to 7, has stored once it is started, in short; none of one that is not there. The run is
/// played again for it. The error is want of memory.
pub(crate) fn summary_if_started(
    alloc: Global,
    world: &World,
    members: usize,
    node: Member,
) -> Result<Option<Summary>, AllocError>
    requires least { 3 ≤ members }
    requires most { members ≤ 7 }
    requires members { members_in world.now ≡ members }
    ensures { IfOk result (λ found. found ≡ summary_at (happens (language_in world.now) (members_in world.now) (now_of world.now) (Start node)) node) }
{
    let mut trial = World::new(alloc, members, world.schema().clone()?)?;
    let _played = trial.run(world.events())?;
    let _started = trial.step(&Event::Start(node))?;
    summary(alloc, &mut trial, node)
}
