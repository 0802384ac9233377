//! What was given out.
ghost use Rattle.std.specs.Prelude.{◌≡◌, [], List, IfOk, IfSome, OnOk, string_bytes};
ghost use Rattle.sqlread.specs.declared.query.Query.{Query as TheQuery};
ghost use Rattle.world.specs.View.{event_of, outputs_of};
ghost use Rattle.world.specs.declared.event.Event.TheVariants.{Ask};
ghost use Rattle.world.specs.declared.output.Output.{Output as Out};
ghost use Rattle.playback.specs.Histories.{HasShown, IsAsked, IsGiven, IsPut};
ghost use Rattle.playback.specs.Scenes.{happened, scene_of};
ghost use Rattle.playback.specs.Words.{IsSaid};

use crate::play::{Play, mark_of};
use crate::told::is_given_out;
use answertext::Lines;
use fault::{Refusal, Text};
use flight::flight::Answered;
use model::member::Member;
use model::request::{Client, RequestNumber};
use sqlread::query::{Query, read_query};
use std::alloc::{AllocError, Global};
use store::StoreRefusal;
use world::event::Event;
use world::output::Output;

// The text that a question's output is given out with: an answer's lines, or a refusal's.
fn answer_text(alloc: Global, outputs: &[Output]) -> Result<Option<String>, AllocError>
    ensures { IfOk result (λ found. IfSome found (λ text. IsPut outputs.now (string_bytes text))) }
{
    match outputs.first() {
        Some(Output::Answered(_, answer)) => {
            let text = format!(in alloc; "{}", Lines(answer))?;
            Ok(Some(text))
        }
        Some(Output::Refused(_, refusal)) => {
            let text = format!(in alloc; "{refusal}")?;
            Ok(Some(text))
        }
        _ => Ok(None),
    }
}

impl Play {
    /// What came of a request was given out in these words: 54 where no member told so since the one before.
    pub(crate) fn check_printed(
        &mut self,
        client: Client,
        number: RequestNumber,
        printed: &str,
    ) -> Result<(), StoreRefusal>
        ensures { OnOk result (IsSaid (scene_of self.old).words client number printed.now × (scene_of self.new ≡ record (scene_of self.old) { words = [] })) }
    {
        self.requests = self.requests.saturating_add(1);
        let is_told = is_given_out(self.alloc, self.words.as_slice(), client, number, printed)?;
        if !is_told {
            return Err(self.wrong(1, self.marks));
        }
        self.words.clear();
        Ok(())
    }

    // What the text of a question asks; 54 where it is none.
    fn read_asked(&self, member: Member, mark: u64, query: &Text) -> Result<Query, StoreRefusal>
        ensures { IfOk result (λ asked. IsAsked (scene_of self.now).history query.now asked) }
    {
        match read_query(self.alloc, self.group.schema(), query.as_str()) {
            Ok(asked) => Ok(asked),
            Err(Refusal::NoMemory) => Err(StoreRefusal::Refused(Refusal::NoMemory)),
            Err(_) => Err(self.wrong(member, mark)),
        }
    }

    /// A member answered a question so: 54 where it answers something else.
    pub(crate) fn check_answer(
        &mut self,
        member: Member,
        query: Text,
        answer: Text,
    ) -> Result<(), StoreRefusal>
        ensures { OnOk result ((asked : TheQuery) × (outs : List Out) × IsAsked (scene_of self.old).history query asked × IsGiven (scene_of self.old).history (event_of (Ask member asked)) (outputs_of outs)
            × HasShown (scene_of self.old).history (Ask member asked) outs × IsPut outs answer × (scene_of self.new ≡ happened (scene_of self.old) (event_of (Ask member asked)))) }
    {
        let mark = self.mark(member)?;
        let asked = self.read_asked(member, mark, &query)?;
        self.ask(member, mark, asked, answer.as_str())?;
        self.record_answer(member, mark, query, answer)
    }

    // A member is asked this, and has to answer so: 54.
    fn ask(
        &mut self,
        member: Member,
        mark: u64,
        asked: Query,
        answer: &str,
    ) -> Result<(), StoreRefusal>
        ensures { OnOk result ((outs : List Out) × IsGiven (scene_of self.old).history (event_of (Ask member asked)) (outputs_of outs)
            × HasShown (scene_of self.old).history (Ask member asked) outs × IsPut outs answer.now × (scene_of self.new ≡ happened (scene_of self.old) (event_of (Ask member asked)))) }
    {
        let outputs = self.happen(Event::Ask(member, asked))?;
        match answer_text(self.alloc, &outputs)? {
            Some(text) if text.as_str() == answer => Ok(()),
            _ => Err(self.wrong(member, mark)),
        }
    }

    // Records an answer, where flights are kept.
    fn record_answer(
        &mut self,
        member: Member,
        mark: u64,
        query: Text,
        answer: Text,
    ) -> Result<(), StoreRefusal>
        ensures { scene_of self.new ≡ scene_of self.old }
    {
        if !self.keeps {
            return Ok(());
        }
        let recorded = Answered {
            mark: mark_of(mark)?,
            query,
            answer,
        };
        if let Some(own) = self.answers.get_mut(member.saturating_sub(1)) {
            own.push(recorded)?;
        }
        Ok(())
    }
}
