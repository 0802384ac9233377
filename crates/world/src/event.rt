//! What happens to a group.
ghost use Rattle.std.specs.Prelude.{◌≡◌};

pub use model::event::{Job, Left};
use model::member::Member;
use model::message::Input;
use sqlread::query::Query;
use std::alloc::AllocError;

/// One thing that happens to the members of a group. Members count from 1.
#[derive(Debug, Drop)]
pub enum Event {
    /// A local input is handed to a member.
    Hand(Member, Input),
    /// A message reaches the member that it is addressed to.
    Deliver {
        /// Which message, counted from 1 in the order in which all were sent.
        message: usize,
        /// What the addressee's clock shows, in microseconds since 1970.
        reading: i64,
    },
    /// A member that is up goes down, and keeps only what it has stored.
    Stop(Member),
    /// A member that is down comes up again with what it has stored, as a follower that has applied
    /// nothing.
    Start(Member),
    /// A step of a member that is up is cut short: nothing is sent or told, and the member is down.
    Torn(Member, Job, Left),
    /// A question is asked of a member.
    Ask(Member, Query),
}

impl Clone for Event {
    ghost use Rattle.world.specs.View.{event_of};

    ghost is_clone = { λ e copy. event_of copy ≡ event_of e };

    fn clone(&self) -> Result<Event, AllocError> {
        match self {
            Event::Hand(member, input) => Ok(Event::Hand(*member, input.clone()?)),
            Event::Deliver { message, reading } => Ok(Event::Deliver {
                message: *message,
                reading: *reading,
            }),
            Event::Stop(member) => Ok(Event::Stop(*member)),
            Event::Start(member) => Ok(Event::Start(*member)),
            Event::Torn(member, job, left) => Ok(Event::Torn(*member, job.clone()?, *left)),
            Event::Ask(member, query) => Ok(Event::Ask(*member, query.clone()?)),
        }
    }
}
