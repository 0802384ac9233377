//! Questions to views.
ghost use Rattle.std.specs.Prelude.{IfOk};
ghost use Rattle.live.specs.Saying.{IsReply};

use crate::driver::Driver;
use crate::said::Said;
use answer::Answer;
use fault::{Refusal, Text};
use model::member::Member;
use sqlread::query::read_query;
use std::sync::Wait;

impl Driver {
    // Sees to it that the node has a view of the life that runs: one is taken for the first question to it.
    fn look<R: Wait>(&mut self, rt: &R, node: Member) -> Result<(), Refusal> {
        let Some(station) = self.stations.get_mut(node.saturating_sub(1)) else {
            return Err(Refusal::NodeDown);
        };
        if !station.runs {
            return Err(Refusal::NodeDown);
        }
        if station.view.is_none() {
            station.view = Some(self.cluster.view(rt, node)?);
        }
        Ok(())
    }

    fn answer<R: Wait>(&mut self, rt: &R, node: Member, text: &Text) -> Result<Answer, Refusal> {
        let _query = read_query(self.alloc, &self.schema, text.as_str())?;
        self.look(rt, node)?;
        match self.stations.get_mut(node.saturating_sub(1)) {
            Some(station) => station.ask(&self.schema, text),
            None => Err(Refusal::NodeDown),
        }
    }

    /// Asks a view of a node. 43 for want of memory, and nothing is recorded then.
    pub(crate) fn ask<R: Wait>(
        &mut self,
        rt: &R,
        node: Member,
        text: &Text,
    ) -> Result<Said, Refusal>
        ensures { IfOk result (IsReply node) }
    {
        match self.answer(rt, node, text) {
            Ok(answer) => Ok(Said::Answered(node, answer)),
            Err(Refusal::NoMemory) => Err(Refusal::NoMemory),
            Err(refusal) => Ok(Said::Refused(node, refusal)),
        }
    }
}
