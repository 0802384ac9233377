//! What members take, as a journal says it.
ghost use Rattle.std.specs.Prelude.{◌≡◌, IfOk, slice_get, option_and_then};
ghost use Rattle.world.specs.View.{event_of};
ghost use Rattle.world.specs.Run.{events_of};
ghost use Rattle.adopt.specs.Taken.{input_taken, job_taken, event_taken};

use journal::Taken;
use model::message::Input;
use std::alloc::AllocError;
use world::event::{Event, Job};
use world::history::World;

fn input_taken(input: &Input) -> Result<Taken, AllocError>
    ensures { IfOk result (λ taken. taken ≡ input_taken input.now) }
{
    match input {
        Input::Timeout => Ok(Taken::Timeout),
        Input::Beat => Ok(Taken::Beat),
        Input::Close { .. } => Ok(Taken::Close),
        Input::Floor { .. } => Ok(Taken::Floor),
        Input::Submit { request, .. } => Ok(Taken::Submit(request.clone()?)),
    }
}

fn job_taken(job: &Job) -> Result<Taken, AllocError>
    ensures { IfOk result (λ taken. taken ≡ job_taken job.now) }
{
    match job {
        Job::Local(input) => input_taken(input),
        Job::Delivery { message, .. } => Ok(Taken::Message(*message)),
    }
}

fn event_taken(event: &Event) -> Result<Option<Taken>, AllocError>
    ensures { IfOk result (λ taken. taken ≡ event_taken (event_of event.now)) }
{
    match event {
        Event::Hand(_, input) => Ok(Some(input_taken(input)?)),
        Event::Deliver { message, .. } => Ok(Some(Taken::Message(*message))),
        Event::Torn(_, job, _) => Ok(Some(job_taken(job)?)),
        Event::Stop(_) | Event::Start(_) | Event::Ask(_, _) => Ok(None),
    }
}

/// What is taken by the event at this place of a run, counted from 0; none where there is none, or nothing is taken by it. The error
/// is want of memory.
pub(crate) fn taken_at(world: &World, place: usize) -> Result<Option<Taken>, AllocError>
    ensures { IfOk result (λ taken. taken ≡ option_and_then event_taken (slice_get (events_of world.now) place)) }
{
    match world.events().get(place) {
        Some(event) => event_taken(event),
        None => Ok(None),
    }
}
