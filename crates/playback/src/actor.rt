//! A member as its journals are played again.
ghost use Rattle.std.specs.Prelude.{◌≡◌, ◌↔◌, IsTrue, MatchOption, OnOk};
ghost use Rattle.playback.specs.Standings.{standing_of, Standing, Down, Up, Within};

use flight::life::{Ending, Life, Step};
use flight::outcome::Outcomes;
use journal::Summary;
use model::entry::Entry;
use std::alloc::{AllocError, Global};
use std::mem::replace;
use store::chain::Chain;
use store::past::Tale;
use world::event::Job;

/// A step that is begun.
#[derive(Drop)]
pub(crate) struct Begun {
    pub job: Job,
    /// As it is recorded in a flight, where flights are kept.
    pub step: Option<Step>,
    /// What it announced that it was about to store.
    pub announced: Option<Summary>,
}

/// What a member does.
#[derive(Drop)]
pub(crate) enum Doing {
    Down,
    Up,
    /// It is up, and in this step.
    Within(Begun),
}

/// A member: its lives so far, where flights are kept, and its log with the chain of it.
#[derive(Drop)]
pub(crate) struct Actor {
    pub lives: Vec<Life>,
    pub doing: Doing,
    pub chain: Chain,
    pub log: Vec<Entry>,
    /// The number of the mark of its last life or step, 0 for none.
    pub mark: u64,
    /// Whether it is known what it goes on from.
    pub is_known: bool,
    /// What is told of it before that is known.
    pub tale: Option<Tale>,
}

impl Actor {
    /// A member that is down, of which nothing is told.
    pub fn new(alloc: Global) -> Actor
        ensures { standing_of result.doing ≡ Down }
    {
        Actor {
            lives: Vec::new(alloc),
            doing: Doing::Down,
            chain: Chain::new(alloc),
            log: Vec::new(alloc),
            mark: 0,
            is_known: true,
            tale: None,
        }
    }

    /// Whether it is up and in no step.
    pub fn is_idle(&self) -> bool
        ensures { IsTrue result ↔ (standing_of self.now.doing ≡ Up) }
    {
        matches!(&self.doing, Doing::Up)
    }

    /// It is not up as a journal begins, with this stored: told of one that is not known yet.
    pub fn rest(&mut self, stored: &Summary)
        ensures { self.new.doing ≡ self.old.doing }
    {
        if !self.is_known && self.tale.is_none() {
            self.tale = Some(Tale {
                stored: *stored,
                announced: None,
                is_up: false,
                is_begun: false,
            });
        }
    }

    /// It is about to store this, or was when it was last up.
    pub fn announce(&mut self, stored: &Summary)
        ensures { standing_of self.new.doing ≡ standing_of self.old.doing }
    {
        if let Doing::Within(begun) = &mut self.doing {
            begun.announced = Some(*stored);
        } else if let Some(tale) = &mut self.tale {
            tale.announced = Some(*stored);
        }
    }

    /// Whether it may have this stored, by what is told of it.
    pub fn may_have(&self, found: &Summary) -> bool {
        match &self.tale {
            Some(tale) => tale.fits(found),
            None => true,
        }
    }

    /// It is not known what it goes on from.
    pub fn forget(&mut self)
        ensures { self.new.doing ≡ self.old.doing }
    {
        self.is_known = false;
    }

    /// It is known.
    pub fn know(&mut self)
        ensures { self.new.doing ≡ self.old.doing }
    {
        self.is_known = true;
    }

    /// A life begins at this mark.
    pub fn begin(&mut self, mark: u64, life: Option<Life>) -> Result<(), AllocError>
        ensures { OnOk result (standing_of self.new.doing ≡ Up) }
    {
        if let Some(life) = life {
            self.lives.push(life)?;
        }
        self.doing = Doing::Up;
        self.mark = mark;
        Ok(())
    }

    /// A step begins at this mark.
    pub fn enter(&mut self, mark: u64, begun: Begun)
        ensures { standing_of self.new.doing ≡ Within begun.job }
    {
        self.doing = Doing::Within(begun);
        self.mark = mark;
    }

    /// The step that it is in, which is over; none where it is in none.
    pub fn leave(&mut self) -> Option<Begun>
        ensures { MatchOption result (self.new ≡ self.old) (λ begun. (standing_of self.old.doing ≡ Within begun.job) × (standing_of self.new.doing ≡ Up)) }
    {
        match replace(&mut self.doing, Doing::Up) {
            Doing::Within(begun) => Some(begun),
            doing => {
                self.doing = doing;
                None
            }
        }
    }

    /// It goes down. What it did.
    pub fn lower(&mut self) -> Doing
        ensures was { result ≡ self.old.doing }
        ensures down { standing_of self.new.doing ≡ Down }
    {
        replace(&mut self.doing, Doing::Down)
    }

    /// A step told this.
    pub fn make(&mut self, step: Option<Step>, outcomes: Outcomes) -> Result<(), AllocError>
        ensures { self.new.doing ≡ self.old.doing }
    {
        let Some(step) = step else {
            return Ok(());
        };
        match self.lives.last_mut() {
            Some(life) => {
                life.steps.push(step.with_outcomes(outcomes))?;
                Ok(())
            }
            None => Ok(()),
        }
    }

    /// Its last life ended so.
    pub fn end(&mut self, ending: Ending)
        ensures { self.new.doing ≡ self.old.doing }
    {
        if let Some(life) = self.lives.last_mut() {
            life.ending = ending;
        }
    }

    /// One entry more of its log.
    pub fn add(&mut self, entry: &Entry) -> Result<(), AllocError>
        ensures { self.new.doing ≡ self.old.doing }
    {
        self.chain.push(entry)?;
        self.log.push(entry.clone()?)?;
        Ok(())
    }

    /// Whether it has this entry at a place of its log, counted from 0. There it is known by its term and its stamp.
    pub fn has(&self, place: usize, entry: &Entry) -> bool {
        match self.log.get(place) {
            Some(own) => own.term == entry.term && own.stamp == entry.stamp,
            None => false,
        }
    }

    /// Only the first so many entries of its log.
    pub fn cut(&mut self, kept: usize)
        ensures { self.new.doing ≡ self.old.doing }
    {
        self.log.truncate(kept);
        self.chain.truncate(kept);
    }

    /// Its lives, the last one torn where a step is begun.
    pub fn into_lives(self) -> Vec<Life> {
        let Actor {
            mut lives,
            doing,
            ..
        } = self;
        if let Some(step) = step_in(doing) {
            if let Some(life) = lives.last_mut() {
                life.ending = Ending::Torn(step);
            }
        }
        lives
    }
}

// The step that it is in, where flights are kept.
fn step_in(doing: Doing) -> Option<Step> {
    match doing {
        Doing::Within(Begun { step, .. }) => step,
        _ => None,
    }
}
