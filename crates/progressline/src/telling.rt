//! Who is told how far a work is.

/// Who is told how far a long work is. Nothing fails by it: what can't be shown is not.
pub trait Progress {
    /// A work begins of so many things, which are called this, as `lines`.
    fn begin(&self, what: &'static str, all: usize);

    /// So many of them are done.
    fn tell(&self, done: usize);

    /// An audit judges so many steps now, and does not tell how far it is.
    fn judge(&self, steps: usize);

    /// What is shown is taken away, since something else is to be written, or the work is over.
    fn hide(&self);
}

/// Nobody, to whom nothing is shown.
#[derive(Clone, Copy, Debug, PartialEq, Eq)]
pub struct Silence;

impl Progress for Silence {
    fn begin(&self, _what: &'static str, _all: usize) {}

    fn tell(&self, _done: usize) {}

    fn judge(&self, _steps: usize) {}

    fn hide(&self) {}
}
