//! The steps of members.
ghost use Rattle.std.specs.Prelude.{◌≡◌, ◌+◌, false, Some, IfOk, IfSome, OnErr, OnOk, List};
ghost use Rattle.model.specs.Lists.{nth};
ghost use Rattle.model.specs.Worlds.{Output as TheOutput};
ghost use Rattle.model.specs.declared.event.Job.{Job as TheJob};
ghost use Rattle.flight.specs.Telling.{outcomes_of};
ghost use Rattle.sessions.specs.Kills.{whole};
ghost use Rattle.sessions.specs.Sessions.{later_number};
ghost use Rattle.store.specs.Recording.{job_of};
ghost use Rattle.world.specs.View.{event_of, outputs_of};
ghost use Rattle.playback.specs.Histories.{IsGiven};
ghost use Rattle.playback.specs.Playing.{taken_job, IsFor, Plays};
ghost use Rattle.playback.specs.Scenes.{happened, noting, posted, scene_of, with_member, wording, StandsAs};
ghost use Rattle.playback.specs.Words.{first_told, told_in};
ghost use Rattle.playback.specs.Standings.{Up, Within};

use crate::actor::Begun;
use crate::play::{Play, bad_line, mark_of};
use crate::post::post_all;
use crate::told::are_same;
use fault::Refusal;
use flight::life::{Packet, Step};
use flight::outcome::Outcomes;
use journal::{Summary, Taken};
use model::mark::Mark;
use model::member::Member;
use model::message::{Input, Message};
use std::alloc::AllocError;
use store::StoreRefusal;
use world::event::{Event, Job};
use world::output::Output;

// The input that is taken, none where a message is.
fn input_of(taken: &Taken, reading: i64) -> Result<Option<Input>, AllocError>
    ensures { IfOk result (λ found. IfSome found (λ input. job_of reading taken.now ≡ TheJob.Local input)) }
{
    Ok(match taken {
        Taken::Timeout => Some(Input::Timeout),
        Taken::Beat => Some(Input::Beat),
        Taken::Close => Some(Input::Close { reading }),
        Taken::Floor => Some(Input::Floor { reading }),
        Taken::Submit(request) => {
            let request = request.clone()?;
            Some(Input::Submit { reading, request })
        }
        Taken::Message(_) => None,
    })
}

// The event that is a whole step of a member with this job.
fn whole_step(member: Member, job: &Job) -> Result<Event, AllocError>
    ensures { IfOk result (λ event. event_of event ≡ whole member job.now) }
{
    Ok(match job {
        Job::Local(input) => Event::Hand(member, input.clone()?),
        Job::Delivery { message, reading } => Event::Deliver {
            message: *message,
            reading: *reading,
        },
    })
}

impl Play {
    // The place among all messages, from 0, of the message of this number in the journal.
    fn place_of(&self, number: usize) -> Option<usize>
        ensures { IfSome result (λ at. at + 1 ≡ later_number self.now.before number) }
    {
        self.before.checked_add(number.checked_sub(1)?)
    }

    // The number in the run, the mark and a copy of the message of this number in the journal, which has to be for the member: 52.
    fn post(&self, member: Member, number: usize) -> Result<(usize, Mark, Message), StoreRefusal>
        ensures number { IfOk result (λ found. found.0 ≡ later_number self.now.before number) }
        ensures sent { IfOk result (λ found. (nth (scene_of self.now).sent found.0 ≡ Some found.2) × (found.2.addressee ≡ member)) }
    {
        let refusal = Refusal::Unsent {
            node: member,
            mark: self.marks,
        };
        let Some(at) = self.place_of(number) else {
            return Err(StoreRefusal::Refused(refusal));
        };
        match self.posts.get(at) {
            Some(post) if post.message.addressee == member => {
                Ok((at.saturating_add(1), post.mark, post.message.clone()?))
            }
            _ => Err(StoreRefusal::Refused(refusal)),
        }
    }

    // A step as a flight has it, where flights are kept.
    fn step_of(&self, packet: Packet) -> Result<Option<Step>, StoreRefusal> {
        if !self.keeps {
            return Ok(None);
        }
        let mark = mark_of(self.marks)?;
        Ok(Some(Step::new(self.alloc, mark, self.reading, packet)))
    }

    fn begun_by_input(&self, input: Input) -> Result<Begun, StoreRefusal>
        ensures { IfOk result (λ begun. begun.job ≡ TheJob.Local input) }
    {
        let step = self.step_of(Packet::Local(input.clone()?))?;
        Ok(Begun {
            job: Job::Local(input),
            step,
            announced: None,
        })
    }

    fn begun_by_message(&self, member: Member, number: usize) -> Result<Begun, StoreRefusal>
        ensures is { IfOk result (λ begun. begun.job ≡ TheJob.Delivery (later_number self.now.before number) self.now.reading) }
        ensures sent { IfOk result (λ begun. IsFor (scene_of self.now) member begun.job) }
    {
        let reading = self.reading;
        let (place, mark, message) = self.post(member, number)?;
        let step = self.step_of(Packet::Delivered {
            mark,
            reading,
            message,
        })?;
        Ok(Begun {
            job: Job::Delivery {
                message: place,
                reading,
            },
            step,
            announced: None,
        })
    }

    fn begun_by(&self, member: Member, taken: &Taken) -> Result<Begun, StoreRefusal>
        ensures is { IfOk result (λ begun. begun.job ≡ taken_job (scene_of self.now) taken.now) }
        ensures sent { IfOk result (λ begun. IsFor (scene_of self.now) member begun.job) }
    {
        if let Taken::Message(number) = taken {
            return self.begun_by_message(member, *number);
        }
        match input_of(taken, self.reading)? {
            Some(input) => self.begun_by_input(input),
            None => Err(bad_line()),
        }
    }

    /// A member begins a step.
    pub(crate) fn begin_step(&mut self, member: Member, taken: &Taken) -> Result<(), StoreRefusal>
        ensures ok { OnOk result (StandsAs (scene_of self.old) member Up × IsFor (scene_of self.old) member (taken_job (scene_of self.old) taken.now) × (scene_of self.new ≡ record (with_member (scene_of self.old) member (Within (taken_job (scene_of self.old) taken.now))) { is_head = false })) }
        ensures err { OnErr result (scene_of self.new ≡ scene_of self.old) }
    {
        self.marks = self.marks.saturating_add(1);
        let begun = self.begun_by(member, taken)?;
        self.enter(member, begun)?;
        self.is_head = false;
        Ok(())
    }

    // A member that is up enters this step; 50 where it is not up, or in one.
    fn enter(&mut self, member: Member, begun: Begun) -> Result<(), StoreRefusal>
        ensures ok { OnOk result (StandsAs (scene_of self.old) member Up × (scene_of self.new ≡ with_member (scene_of self.old) member (Within begun.job))) }
        ensures err { OnErr result (scene_of self.new ≡ scene_of self.old) }
    {
        let mark = self.marks;
        let at = self.place(member)?;
        if !self.actors[at].is_idle() {
            return Err(bad_line());
        }
        self.actors[at].enter(mark, begun);
        Ok(())
    }

    // The step that a member is in, which is over; 50 where it is in none.
    fn leave(&mut self, member: Member) -> Result<Begun, StoreRefusal>
        ensures ok { IfOk result (λ begun. StandsAs (scene_of self.old) member (Within begun.job) × (scene_of self.new ≡ with_member (scene_of self.old) member Up)) }
        ensures err { OnErr result (scene_of self.new ≡ scene_of self.old) }
    {
        let at = self.place(member)?;
        match self.actors[at].leave() {
            Some(begun) => Ok(begun),
            None => Err(bad_line()),
        }
    }

    /// A member is about to store this.
    pub(crate) fn announce(&mut self, member: Member, stored: &Summary) -> Result<(), StoreRefusal>
        ensures { scene_of self.new ≡ scene_of self.old }
    {
        let at = self.place(member)?;
        self.actors[at].announce(stored);
        Ok(())
    }

    // A whole step of a member happens, at this mark.
    fn let_happen(
        &mut self,
        member: Member,
        mark: u64,
        job: &Job,
    ) -> Result<Vec<Output>, StoreRefusal>
        ensures { IfOk result (λ outs. IsGiven (scene_of self.old).history (whole member job.now) (outputs_of outs.items)
            × (scene_of self.new ≡ posted (happened (scene_of self.old) (whole member job.now)) (outputs_of outs.items))) }
    {
        let event = whole_step(member, job)?;
        let outputs = self.happen(event)?;
        post_all(&mut self.posts, mark_of(mark)?, &outputs)?;
        Ok(outputs)
    }

    /// A member's step is over, and the journal has these outcomes of it.
    pub(crate) fn end_step(
        &mut self,
        member: Member,
        outcomes: &Outcomes,
    ) -> Result<(), StoreRefusal>
        ensures { OnOk result ((job : TheJob) × (outs : List TheOutput) × StandsAs (scene_of self.old) member (Within job) × IsGiven (scene_of self.old).history (whole member job) outs
            × (outcomes.now ≡ outcomes_of (first_told (scene_of self.old).noted (told_in outs)))
            × (scene_of self.new ≡ wording (noting (posted (happened (with_member (scene_of self.old) member Up) (whole member job)) outs) outs) job outs)) }
    {
        let mark = self.mark(member)?;
        let Begun {
            job,
            step,
            announced,
        } = self.leave(member)?;
        let outputs = self.let_happen(member, mark, &job)?;
        self.check_outcomes(member, mark, &outputs, outcomes)?;
        self.hear_all(&job, &outputs)?;
        self.check_stored(member, announced)?;
        self.record_step(member, step, &outputs)
    }

    // What a step announced that it was about to store has to be what is stored after it: 51.
    fn check_stored(
        &mut self,
        member: Member,
        announced: Option<Summary>,
    ) -> Result<(), StoreRefusal>
        ensures { scene_of self.new ≡ scene_of self.old }
    {
        if announced.is_some() && self.stored(member)? != announced {
            return Err(self.broken(member));
        }
        Ok(())
    }

    // Records a step with all that it told, where flights are kept.
    fn record_step(
        &mut self,
        member: Member,
        step: Option<Step>,
        outputs: &[Output],
    ) -> Result<(), StoreRefusal>
        ensures { scene_of self.new ≡ scene_of self.old }
    {
        if step.is_none() {
            return Ok(());
        }
        let told = Outcomes::new(self.texts.all_told(outputs)?);
        self.make(member, step, told)
    }

    // A step of a member, as flights have it, told this.
    fn make(
        &mut self,
        member: Member,
        step: Option<Step>,
        told: Outcomes,
    ) -> Result<(), StoreRefusal>
        ensures { scene_of self.new ≡ scene_of self.old }
    {
        let at = self.place(member)?;
        self.actors[at].make(step, told)?;
        Ok(())
    }

    // What is written of a step has to be what it is the first to tell: 54.
    fn check_outcomes(
        &mut self,
        member: Member,
        mark: u64,
        outputs: &[Output],
        written: &Outcomes,
    ) -> Result<(), StoreRefusal>
        ensures written { OnOk result (written.now ≡ outcomes_of (first_told (scene_of self.old).noted (told_in (outputs_of outputs.now)))) }
        ensures ok { OnOk result (scene_of self.new ≡ noting (scene_of self.old) (outputs_of outputs.now)) }
    {
        let (first, noted) = self.texts.first_told(outputs, self.noted)?;
        self.noted = noted;
        if are_same(written.as_slice(), &first) {
            Ok(())
        } else {
            Err(self.wrong(member, mark))
        }
    }
}
