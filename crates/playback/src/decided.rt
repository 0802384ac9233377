//! What is decided, and what may be given out of it.
ghost use Rattle.std.specs.Prelude.{◌≡◌, ◌++◌, ◌∷◌, [], OnOk};
ghost use Rattle.model.specs.declared.event.Job.{Job as TheJob};
ghost use Rattle.world.specs.View.{output_of, outputs_of};
ghost use Rattle.playback.specs.Scenes.{scene_of, wording};
ghost use Rattle.playback.specs.Words.{refused_word, word_of};

use crate::play::Play;
use crate::told::Word;
use fault::{Refusal, Text};
use flight::outcome::Outcome;
use model::entry::Told;
use model::member::Member;
use model::message::Input;
use model::request::{Client, RequestNumber};
use model::stamp::Stamp;
use store::StoreRefusal;
use world::event::Job;
use world::output::Output;

/// A request that is decided.
#[derive(Drop)]
pub struct Decided {
    /// The index of its entry in the log, from 1.
    pub index: usize,
    pub stamp: Stamp,
    pub client: Client,
    pub number: RequestNumber,
    /// `accepted` and the instant, or `refused` and the refusal.
    pub outcome: Text,
    pub text: Text,
}

impl Play {
    /// What may be printed from here on, and what is decided.
    pub(crate) fn hear_all(&mut self, job: &Job, outputs: &[Output]) -> Result<(), StoreRefusal>
        ensures { OnOk result (scene_of self.new ≡ wording (scene_of self.old) job.now (outputs_of outputs.now)) }
    {
        for output in outputs {
            self.hear_output(job, output)?;
        }
        Ok(())
    }

    fn hear_output(&mut self, job: &Job, output: &Output) -> Result<(), StoreRefusal>
        ensures { OnOk result (scene_of self.new ≡ wording (scene_of self.old) job.now (output_of output.now ∷ [])) }
    {
        match output {
            Output::Applied(member, told) => self.hear_told(*member, told),
            Output::Refused(_, refusal) => self.hear_refusal(job, refusal),
            Output::Sent(..) => Ok(()),
            Output::Answered(..) => Ok(()),
        }
    }

    fn hear_told(&mut self, member: Member, told: &Told) -> Result<(), StoreRefusal>
        ensures { OnOk result (scene_of self.new ≡ record (scene_of self.old) { words = (scene_of self.old).words ++ word_of told.now ∷ [] }) }
    {
        self.words.push(Word::of(told)?)?;
        self.decide(member, told)
    }

    fn hear_refusal(&mut self, job: &Job, refusal: &Refusal) -> Result<(), StoreRefusal>
        ensures { OnOk result (scene_of self.new ≡ record (scene_of self.old) { words = (scene_of self.old).words ++ refused_word job.now refusal.now }) }
    {
        match job {
            Job::Local(input) => self.hear_refused(input, refusal),
            Job::Delivery { .. } => Ok(()),
        }
    }

    // An input that is handed to a member is refused.
    fn hear_refused(&mut self, input: &Input, refusal: &Refusal) -> Result<(), StoreRefusal>
        ensures { OnOk result (scene_of self.new ≡ record (scene_of self.old) { words = (scene_of self.old).words ++ refused_word (TheJob.Local input.now) refusal.now }) }
    {
        match input {
            Input::Submit { request, .. } => {
                let outcome = Err(refusal.clone()?);
                self.words.push(Word {
                    client: request.client,
                    number: request.number,
                    outcome,
                })?;
                Ok(())
            }
            Input::Timeout => Ok(()),
            Input::Beat => Ok(()),
            Input::Close { .. } => Ok(()),
            Input::Floor { .. } => Ok(()),
        }
    }

    // A request that a member tells of, if nobody told of it before.
    fn decide(&mut self, member: Member, told: &Told) -> Result<(), StoreRefusal>
        ensures { scene_of self.new ≡ scene_of self.old }
    {
        let last = match self.decided.last() {
            Some(decided) => decided.index,
            None => 0,
        };
        if told.index <= last {
            return Ok(());
        }
        let Some(entry) = self.group.entry(member, told.index)? else {
            return Ok(());
        };
        let Some(request) = &entry.request else {
            return Ok(());
        };
        let text = request.text.clone()?;
        let Outcome {
            index,
            client,
            number,
            text: outcome,
        } = self.texts.outcome(told)?;
        self.decided.push(Decided {
            index,
            stamp: entry.stamp,
            client,
            number,
            outcome,
            text,
        })?;
        Ok(())
    }
}
