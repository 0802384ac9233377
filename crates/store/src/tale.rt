//! What journals tell of a member.
ghost use Rattle.std.specs.Prelude.{◌≡◌, ◌↔◌, None, IsTrue};
ghost use Rattle.keep.specs.Durable.{blank};
ghost use Rattle.journal.specs.Digests.{summary_of};
ghost use Rattle.store.specs.Tales.{at_rest, untold, laid_down, IsFit, started, begun, announces, made, ended, tale_after, Tells};

use journal::{Line, Summary};

/// What is told of a member so far.
#[derive(Clone, Copy, PartialEq, Eq, Debug)]
pub struct Tale {
    /// What it has stored after its last whole step.
    pub stored: Summary,
    /// What the step that is begun announced that it was about to store.
    pub announced: Option<Summary>,
    /// Whether it is up.
    pub is_up: bool,
    /// Whether it is in a step.
    pub is_begun: bool,
}

impl Tale {
    /// Nothing is told of it.
    pub fn blank() -> Tale
        ensures { result ≡ untold }
    {
        Tale::at_rest(Summary::blank())
    }

    // A member that is not up, and has this stored.
    fn at_rest(stored: Summary) -> Tale
        ensures { result ≡ at_rest stored }
    {
        Tale {
            stored,
            announced: None,
            is_up: false,
            is_begun: false,
        }
    }

    /// Whether a database that holds this fits: it is what is stored, or what was announced.
    pub fn fits(&self, found: &Summary) -> bool
        ensures { IsTrue result ↔ IsFit self.now found.now }
    {
        *found == self.stored || self.announced == Some(*found)
    }

    /// Whether nothing was ever stored or announced, so that its database may be missing.
    pub fn is_blank(&self) -> bool
        ensures { IsTrue result ↔ ((self.now.stored ≡ summary_of blank) × (self.now.announced ≡ None)) }
    {
        self.stored == Summary::blank() && self.announced.is_none()
    }

    /// As a journal begins: it is not up.
    pub(crate) fn lay_down(&mut self)
        ensures { self.new ≡ laid_down self.old }
    {
        self.is_up = false;
        self.is_begun = false;
    }

    // It is started: not one that is up and in no step.
    fn start(&mut self, stored: Summary) -> bool
        ensures { Tells (started self.old stored) result self.new }
    {
        let may = !self.is_up || self.is_begun;
        *self = Tale::at_rest(stored);
        self.is_up = true;
        may
    }

    // It begins a step.
    fn take(&mut self) -> bool
        ensures { Tells (begun self.old) result self.new }
    {
        let may = self.is_up && !self.is_begun;
        self.is_begun = true;
        may
    }

    // Its step is over.
    fn make(&mut self) -> bool
        ensures { Tells (made self.old) result self.new }
    {
        let may = self.is_begun;
        if let Some(stored) = self.announced.take() {
            self.stored = stored;
        }
        self.is_begun = false;
        may
    }

    // It announces what it is about to store; one that is not up, what it had announced before.
    fn announce(&mut self, stored: Summary) -> bool
        ensures { Tells (announces self.old stored) result self.new }
    {
        self.announced = Some(stored);
        self.is_begun || !self.is_up
    }

    // It is stopped.
    fn end(&mut self) -> bool
        ensures { Tells (ended self.old) result self.new }
    {
        let may = self.is_up && !self.is_begun;
        self.is_up = false;
        may
    }

    /// Hears a line about the member. Whether it may stand there.
    pub(crate) fn hear(&mut self, line: &Line) -> bool
        ensures { Tells (tale_after self.old line.now) result self.new }
    {
        match line {
            Line::Rests { stored, .. } => {
                *self = Tale::at_rest(*stored);
                true
            }
            Line::Life { stored, .. } => self.start(*stored),
            Line::Takes { .. } => self.take(),
            Line::Saves { stored, .. } => self.announce(*stored),
            Line::Made { .. } => self.make(),
            Line::Ends { .. } => self.end(),
            _ => true,
        }
    }
}
