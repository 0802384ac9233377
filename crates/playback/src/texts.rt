//! The texts of outcomes.
ghost use Rattle.std.specs.Prelude.{◌≡◌, ◌++◌, ◌∷◌, [], Ok, IfOk, IfSome, OnOk};
ghost use Rattle.flight.specs.Telling.{outcome_of, outcomes_of, told_text};
ghost use Rattle.world.specs.View.{output_of, outputs_of};
ghost use Rattle.playback.specs.Words.{first_told, noted_after, told_in};

use fault::Text;
use flight::outcome::Outcome;
use model::entry::Told;
use model::stamp::Stamp;
use std::alloc::{AllocError, Global};
use world::output::Output;

// The text of an acceptance at this instant.
#[derive(Drop)]
struct Accepted {
    stamp: Stamp,
    text: Text,
    ghost said: { text ≡ told_text (Ok stamp) },
}

/// The texts of what was told of requests, by the indices of their entries. All members tell the same of a request, and tell it again
/// after each start: its text is made once.
#[derive(Drop)]
pub(crate) struct Texts {
    alloc: Global,
    items: Vec<Option<Accepted>>,
}

impl Texts {
    /// None yet.
    pub fn new(alloc: Global) -> Texts {
        Texts {
            alloc,
            items: Vec::new(alloc),
        }
    }

    // The text that was made of this outcome.
    fn find(&self, told: &Told) -> Option<&Text>
        ensures { IfSome result (λ text. text.now ≡ told_text told.now.outcome) }
    {
        let Ok(stamp) = &told.outcome else {
            return None;
        };
        match self.items.get(told.index) {
            Some(Some(accepted)) if accepted.stamp == *stamp => Some(&accepted.text),
            _ => None,
        }
    }

    // Keeps the text of an acceptance.
    fn keep(&mut self, told: &Told, text: &Text) -> Result<(), AllocError>
        requires { text.now ≡ told_text told.now.outcome }
    {
        let Ok(stamp) = &told.outcome else {
            return Ok(());
        };
        for _ in self.items.len()..told.index.saturating_add(1) {
            self.items.push(None)?;
        }
        let text = text.clone()?;
        if let Some(item) = self.items.get_mut(told.index) {
            *item = Some(Accepted {
                stamp: *stamp,
                text,
            });
        }
        Ok(())
    }

    /// What is recorded of what was told.
    pub fn outcome(&mut self, told: &Told) -> Result<Outcome, AllocError>
        ensures { IfOk result (λ outcome. outcome ≡ outcome_of told.now) }
    {
        if let Some(text) = self.find(told) {
            let text = text.clone()?;
            return Ok(Outcome {
                index: told.index,
                client: told.client,
                number: told.number,
                text,
            });
        }
        let outcome = Outcome::of(self.alloc, told)?;
        self.keep(told, &outcome.text)?;
        Ok(outcome)
    }

    /// What outputs tell of the requests of entries past an index, each past those before it, and the index of the last one.
    pub fn first_told(
        &mut self,
        outputs: &[Output],
        noted: usize,
    ) -> Result<(Vec<Outcome>, usize), AllocError>
        ensures first { IfOk result (λ found. found.0.items ≡ outcomes_of (first_told noted (told_in (outputs_of outputs.now)))) }
        ensures noted { IfOk result (λ found. found.1 ≡ noted_after noted (told_in (outputs_of outputs.now))) }
    {
        let mut last = noted;
        let mut first = Vec::new(self.alloc);
        for output in outputs {
            last = self.put_first(output, last, &mut first)?;
        }
        Ok((first, last))
    }

    // Adds what an output tells of an entry past an index. The last index that is told of then.
    fn put_first(
        &mut self,
        output: &Output,
        noted: usize,
        first: &mut Vec<Outcome>,
    ) -> Result<usize, AllocError>
        ensures first { OnOk result (first.new.items ≡ first.old.items ++ outcomes_of (first_told noted (told_in (output_of output.now ∷ [])))) }
        ensures noted { IfOk result (λ last. last ≡ noted_after noted (told_in (output_of output.now ∷ []))) }
    {
        match output {
            Output::Applied(_, told) => self.put_told(told, noted, first),
            Output::Sent(..) => Ok(noted),
            Output::Refused(..) => Ok(noted),
            Output::Answered(..) => Ok(noted),
        }
    }

    fn put_told(
        &mut self,
        told: &Told,
        noted: usize,
        first: &mut Vec<Outcome>,
    ) -> Result<usize, AllocError>
        ensures first { OnOk result (first.new.items ≡ first.old.items ++ outcomes_of (first_told noted (told.now ∷ []))) }
        ensures noted { IfOk result (λ last. last ≡ noted_after noted (told.now ∷ [])) }
    {
        if noted >= told.index {
            return Ok(noted);
        }
        first.push(self.outcome(told)?)?;
        Ok(told.index)
    }

    /// All that outputs tell of requests.
    pub fn all_told(&mut self, outputs: &[Output]) -> Result<Vec<Outcome>, AllocError>
        ensures { IfOk result (λ all. all.items ≡ outcomes_of (told_in (outputs_of outputs.now))) }
    {
        let mut all = Vec::new(self.alloc);
        for output in outputs {
            self.put_any(output, &mut all)?;
        }
        Ok(all)
    }

    // Adds what an output tells.
    fn put_any(&mut self, output: &Output, all: &mut Vec<Outcome>) -> Result<(), AllocError>
        ensures { OnOk result (all.new.items ≡ all.old.items ++ outcomes_of (told_in (output_of output.now ∷ []))) }
    {
        if let Output::Applied(_, told) = output {
            all.push(self.outcome(told)?)?;
        }
        Ok(())
    }
}
