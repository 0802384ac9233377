//! The moment of a record that its run does not have.
ghost use Rattle.std.specs.Prelude.{◌≡◌, ◌≤◌, length};
ghost use Rattle.world.specs.Run.{tables_in};
ghost use Rattle.moments.specs.View.{IsLive};

use flight::flight::Version;
use flight::life::Life;
use model::mark::Mark;
use moments::{AuditFault, Moment, Recorded, Replay, events_in, timeline};
use schema::Schema;
use std::alloc::{AllocError, Global};
use world::event::Event;

/// What was recorded of a group: its version and tables, the lives of each node, and the answers.
#[derive(Clone, Copy)]
pub struct Evidence<'a> {
    pub version: Version,
    pub schema: &'a Schema,
    pub lives: &'a [Vec<Life>],
    pub answers: &'a [Recorded],
}

/// How far a run has what was recorded.
#[derive(Drop)]
pub(crate) struct Stuck {
    /// The moments that were recorded, in the order of the audit.
    pub moments: Vec<Moment>,
    /// How many of them the run has.
    pub followed: usize,
    /// The events of these.
    pub events: Vec<Event>,
    /// At which mark each of them happened.
    pub marks: Vec<Mark>,
    /// The event of the next moment, if one happened.
    pub next: Option<Event>,
}

// Notes the mark at which the events happened that are not noted yet.
fn note(replay: &Replay, mark: Mark, marks: &mut Vec<Mark>) -> Result<(), AllocError> {
    if replay.world.events().len() > marks.len() {
        marks.push(mark)?;
    }
    Ok(())
}

// Follows moments up to the first that the run does not have, and gives how many it has.
fn follow_some(
    replay: &mut Replay,
    evidence: &Evidence<'_>,
    moments: &[Moment],
    marks: &mut Vec<Mark>,
) -> Result<usize, AllocError>
    requires live { IsLive replay.old }
    requires tables { evidence.now.schema.now ≡ tables_in replay.old.world }
{
    let mut followed = 0;
    for moment in moments {
        match replay.follow(
            evidence.version,
            evidence.schema,
            evidence.lives,
            evidence.answers,
            moment,
        ) {
            Ok(()) => {}
            Err(AuditFault::NoMemory) => return Err(AllocError),
            Err(_) => return Ok(followed),
        }
        note(replay, moment.mark, marks)?;
        followed += 1;
    }
    Ok(followed)
}

/// How far the run has what was recorded of a group of 3 to 7 nodes. The error is want of memory.
pub(crate) fn stuck_at(alloc: Global, evidence: &Evidence<'_>) -> Result<Stuck, AllocError>
    requires least { 3 ≤ length evidence.now.lives.now }
    requires most { length evidence.now.lives.now ≤ 7 }
{
    let Ok(moments) = timeline(alloc, evidence.lives, evidence.answers) else {
        return Err(AllocError);
    };
    let mut replay = Replay::new(alloc, evidence.lives.len(), evidence.schema.clone()?)?;
    let mut marks = Vec::new(alloc);
    let followed = follow_some(&mut replay, evidence, moments.as_slice(), &mut marks)?;
    let mut events = events_in(alloc, &replay.world)?;
    let next = if events.len() > marks.len() {
        events.pop()
    } else {
        None
    };
    Ok(Stuck {
        moments,
        followed,
        events,
        marks,
        next,
    })
}
