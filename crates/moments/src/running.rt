//! The events of a run.
ghost use Rattle.std.specs.Prelude.{◌≡◌, map, IfOk};
ghost use Rattle.world.specs.Run.{events_of};
ghost use Rattle.world.specs.View.{event_of};

use std::alloc::{AllocError, Global};
use world::event::Event;
use world::history::World;

/// The events of a run, in order. The one error is want of memory.
pub fn events_in(alloc: Global, world: &World) -> Result<Vec<Event>, AllocError>
    ensures { IfOk result (λ events. map event_of events.items ≡ events_of world.now) }
{
    let mut events = Vec::new(alloc);
    for event in world.events() {
        events.push(event.clone()?)?;
    }
    Ok(events)
}
