//! One line of a terminal, drawn again in its place.
ghost use Rattle.std.specs.Prelude.{◌≤◌, IfSome};

use crate::pace::{is_due, rate_of};
use crate::row::{Judging, Row};
use crate::telling::Progress;
use std::cell::Cell;
use std::time::{Clock, Instant};

// How many steps it takes an audit half a second to judge.
const MANY_STEPS: usize = 500_000;

// What is known of a work.
#[derive(Clone, Copy)]
struct Work {
    what: &'static str,
    all: usize,
    // When it began; none where nothing is to be shown.
    began: Option<Instant>,
    // When the line was drawn last.
    drawn: Option<Instant>,
    is_shown: bool,
}

/// A line on standard error that tells how far a work is. It is first drawn half a second after the work began, and then each tenth of
/// a second at most.
#[derive(Drop)]
pub struct ProgressLine<'a, R: Clock + Eprint> {
    rt: &'a R,
    is_terminal: bool,
    work: Cell<Work>,
}

fn millis_between(from: Instant, to: Instant) -> u64 {
    u64::try_from(to.duration_since(from).as_millis()).unwrap_or(u64::MAX)
}

impl<'a, R: Clock + Eprint> ProgressLine<'a, R> {
    /// A line on standard error, which nothing is ever written to where that is no terminal.
    pub fn new(rt: &'a R, is_terminal: bool) -> ProgressLine<'a, R> {
        let nothing = Work {
            what: "",
            all: 0,
            began: None,
            drawn: None,
            is_shown: false,
        };
        ProgressLine {
            rt,
            is_terminal,
            work: Cell::new(nothing),
        }
    }

    /// Whether anything is ever shown.
    pub fn is_on(&self) -> bool {
        self.is_terminal
    }

    // What the clock shows, where anything is to be shown.
    fn now(&self) -> Option<Instant> {
        if self.is_terminal {
            Instant::now(self.rt).ok()
        } else {
            None
        }
    }

    // What the clock shows, and for how many milliseconds the work goes on, where the line is to be drawn now.
    fn due(&self, work: &Work) -> Option<(Instant, u64)>
        ensures { IfSome result (λ due. 1 ≤ due.1) }
    {
        let began = work.began?;
        let now = self.now()?;
        let since_begun = millis_between(began, now);
        let since_drawn = match work.drawn {
            Some(drawn) => Some(millis_between(drawn, now)),
            None => None,
        };
        if is_due(since_begun, since_drawn) {
            Some((now, since_begun))
        } else {
            None
        }
    }
}

impl<'a, R: Clock + Eprint> Progress for ProgressLine<'a, R> {
    fn begin(&self, what: &'static str, all: usize) {
        let Work { is_shown, .. } = self.work.get();
        self.work.set(Work {
            what,
            all,
            began: self.now(),
            drawn: None,
            is_shown,
        });
    }

    fn tell(&self, done: usize) {
        let work = self.work.get();
        let Some((now, millis)) = self.due(&work) else {
            return;
        };
        let Work {
            what,
            all,
            began,
            ..
        } = work;
        let rate = rate_of(done, millis);
        let row = Row {
            done,
            all,
            what,
            rate,
        };
        let _ = eprint!(*self.rt; "{row}");
        self.work.set(Work {
            what,
            all,
            began,
            drawn: Some(now),
            is_shown: true,
        });
    }

    fn judge(&self, steps: usize) {
        if steps < MANY_STEPS || !self.is_terminal {
            return;
        }
        let judging = Judging(steps);
        let _ = eprint!(*self.rt; "{judging}");
        self.work.set(Work {
            what: "",
            all: steps,
            began: None,
            drawn: None,
            is_shown: true,
        });
    }

    fn hide(&self) {
        let work = self.work.get();
        if !work.is_shown {
            return;
        }
        let _ = eprint!(*self.rt; "\r\u{1b}[K");
        let Work {
            what,
            all,
            began,
            drawn,
            ..
        } = work;
        self.work.set(Work {
            what,
            all,
            began,
            drawn,
            is_shown: false,
        });
    }
}
