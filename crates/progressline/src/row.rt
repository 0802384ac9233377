//! What is shown of a work, in place of what the terminal's row had.
ghost use Rattle.std.specs.Prelude.{Some};
ghost use Rattle.progressline.specs.Shown.{judging_text, row_text};

use std::fmt;

/// How much of a work is done, and how fast it goes.
#[derive(Clone, Copy)]
pub(crate) struct Row {
    pub(crate) done: usize,
    pub(crate) all: usize,
    /// What the things are called.
    pub(crate) what: &'static str,
    /// How many of them are done in a second.
    pub(crate) rate: u64,
}

impl fmt::Display for Row {
    ghost output = { λ row. Some (row_text row.done row.all row.what.now row.rate) };

    fn fmt<W: fmt::Write>(&self, f: &mut fmt::Formatter<W>) -> fmt::Result {
        let Row {
            done,
            all,
            what,
            rate,
        } = self;
        write!(f, "\r{done} of {all} {what}, {rate} a second\u{1b}[K")
    }
}

/// That an audit judges so many steps.
#[derive(Clone, Copy)]
pub(crate) struct Judging(pub(crate) usize);

impl fmt::Display for Judging {
    ghost output = { λ judging. Some (judging_text judging.0) };

    fn fmt<W: fmt::Write>(&self, f: &mut fmt::Formatter<W>) -> fmt::Result {
        let steps = self.0;
        write!(f, "\rjudging {steps} steps\u{1b}[K")
    }
}
