//! The acts of a run as they are noted.
use crate::role::{Role, Standing};
use crate::run::{Act, Event, MOST_EVENTS, MOST_MESSAGES, News, Note, What};
use crate::wording::plain_note;
use model::member::Member;
use std::alloc::{AllocError, Global};

/// The acts that are drawn, with their events.
#[derive(Drop)]
pub(crate) struct Album {
    pub(crate) alloc: Global,
    pub(crate) roles: Vec<Role>,
    pub(crate) acts: Vec<Act>,
    pub(crate) drawn: usize,
    pub(crate) happened: usize,
    // Whether what happens now is drawn.
    pub(crate) is_drawn: bool,
}

impl Album {
    pub(crate) fn new(alloc: Global) -> Album {
        Album {
            alloc,
            roles: Vec::new(alloc),
            acts: Vec::new(alloc),
            drawn: 0,
            happened: 0,
            is_drawn: false,
        }
    }

    pub(crate) fn is_too_much(&self) -> bool {
        self.drawn > MOST_MESSAGES || self.happened > MOST_EVENTS
    }

    // A line of the script begins, which is drawn or not, where members are this.
    pub(crate) fn begin_act(
        &mut self,
        line: usize,
        text: &str,
        is_drawn: bool,
        standings: &[Standing],
    ) -> Result<(), AllocError> {
        self.is_drawn = is_drawn;
        if !is_drawn {
            return Ok(());
        }
        if self.acts.is_empty() {
            self.roles = roles_of(self.alloc, standings)?;
        }
        self.acts.push(Act {
            line,
            text: String::from_str(self.alloc, text)?,
            events: Vec::new(self.alloc),
        })?;
        Ok(())
    }

    // Something happens to a member.
    pub(crate) fn begin_event(
        &mut self,
        node: Member,
        what: What,
        round: usize,
    ) -> Result<(), AllocError> {
        let event = Event {
            node,
            what,
            round,
            sent: Vec::new(self.alloc),
            notes: Vec::new(self.alloc),
        };
        if !self.is_drawn {
            return Ok(());
        }
        self.happened = self.happened.saturating_add(1);
        if let Some(act) = self.acts.last_mut() {
            act.events.push(event)?;
        }
        Ok(())
    }

    // The member of an event sent the message of this number.
    pub(crate) fn send(&mut self, node: Member, number: usize) -> Result<(), AllocError> {
        if let Some(event) = self.event_of(node)? {
            event.sent.push(number)?;
            self.drawn = self.drawn.saturating_add(1);
        }
        Ok(())
    }

    // What a member became.
    pub(crate) fn say_role(&mut self, node: Member, standing: Standing) -> Result<(), AllocError> {
        let term = standing.term;
        let words = match standing.role {
            Role::Stands => format!(in self.alloc; "stands in term {term}")?,
            Role::Leads => format!(in self.alloc; "leads term {term}")?,
            Role::Follows | Role::Down => format!(in self.alloc; "follows, term {term}")?,
        };
        self.say(node, News::Becomes(standing.role), words.as_str())
    }

    // What came of an event, in these words.
    pub(crate) fn say(&mut self, node: Member, news: News, words: &str) -> Result<(), AllocError> {
        let note = plain_note(self.alloc, news, words)?;
        self.note(node, note)
    }

    pub(crate) fn note(&mut self, node: Member, note: Note) -> Result<(), AllocError> {
        if let Some(event) = self.event_of(node)? {
            event.notes.push(note)?;
        }
        Ok(())
    }

    // The last event of this member in the act that is drawn, which is made where there is none.
    fn event_of(&mut self, node: Member) -> Result<Option<&mut Event>, AllocError> {
        if !self.is_drawn {
            return Ok(None);
        }
        if !self.has_event(node) {
            self.begin_event(node, What::Does(String::new(self.alloc)), 0)?;
        }
        match self.acts.last_mut() {
            Some(act) => Ok(last_of(act.events.as_mut_slice(), node)),
            None => Ok(None),
        }
    }

    fn has_event(&self, node: Member) -> bool {
        match self.acts.last() {
            Some(act) => act.events.iter().any(|event| event.node == node),
            None => false,
        }
    }
}

fn roles_of(alloc: Global, standings: &[Standing]) -> Result<Vec<Role>, AllocError> {
    let mut each = Vec::new(alloc);
    for standing in standings {
        each.push(standing.role)?;
    }
    Ok(each)
}

// The last of the events that happen to this member.
fn last_of(events: &mut [Event], node: Member) -> Option<&mut Event> {
    events.iter_mut().rev().find(|event| event.node == node)
}
