//! Marks, which order the openings and steps of all nodes.
ghost use Rattle.std.specs.Prelude.{◌≡◌, ◌<◌, ◌≤◌};
ghost use Rattle.model.specs.Marks.{mark_after};

use std::marker::Model;

/// The last mark.
pub const LAST_MARK: u64 = 9223372036854775807;

/// The mark of an opening or a step, from 1 to `LAST_MARK`. A contract sees the number.
#[derive(Clone, Copy, PartialEq, Eq, Debug)]
pub struct Mark {
    number: u64,
}

impl Model for Mark {
    ghost use Rattle.std.specs.Prelude.{ℕ, ◌<◌, ◌≤◌};

    ghost Value = { ℕ };

    ghost view = { λ m. m.number };

    ghost invariant = { λ m. (0 < m.number) × (m.number ≤ 9223372036854775807) };

    ghost inverse = { λ n. record { number = n } };
}

impl Mark {
    /// The mark of this number, which is from 1 to `LAST_MARK`.
    pub fn new(number: u64) -> Mark
        requires positive { 0 < number }
        requires small { number ≤ LAST_MARK }
        ensures { result ≡ number }
    {
        Mark { number }
    }

    /// Its number, from 1 to `LAST_MARK`.
    pub fn number(self) -> u64
        ensures value { result ≡ self }
        ensures positive { 0 < result }
        ensures small { result ≤ LAST_MARK }
    {
        self.number
    }

    /// The mark that follows this number: none where it is `LAST_MARK` or more.
    pub fn after(number: u64) -> Option<Mark>
        ensures { result ≡ mark_after number }
    {
        if number >= LAST_MARK {
            return None;
        }
        Some(Mark { number: number + 1 })
    }
}
