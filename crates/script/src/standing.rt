//! How a member stands, as far as its group tells.
ghost use Rattle.std.specs.Prelude.{◌≡◌, ◌&&◌};
ghost use Rattle.script.specs.Standing.{ends_own, is_in_step, is_up_to_date};

// Of one that is down, or not there, all is 0.
#[derive(Clone, Copy)]
pub(crate) struct Standing {
    pub(crate) term: u64,
    // The term of the last entry of its log.
    pub(crate) last_term: u64,
    // How many entries its log has, and how many of them it has applied.
    pub(crate) length: usize,
    pub(crate) applied: usize,
}

impl Standing {
    pub(crate) const NONE: Standing = Standing {
        term: 0,
        last_term: 0,
        length: 0,
        applied: 0,
    };

    // Whether its log is at least as up to date as the other's.
    pub(crate) fn is_up_to_date(self, other: Standing) -> bool
        ensures { result ≡ is_up_to_date self other }
    {
        other.last_term < self.last_term
            || (other.last_term == self.last_term && other.length <= self.length)
    }

    // Whether its log ends with an entry of its term.
    pub(crate) fn ends_own(self) -> bool
        ensures { result ≡ ends_own self }
    {
        0 < self.length && self.last_term == self.term
    }

    // Whether others are in step, and it is in the term of this one with as much applied as that one's log has.
    pub(crate) fn is_in_step_too(self, other: Standing, are_others: bool) -> bool
        ensures { result ≡ (are_others && is_in_step self other) }
    {
        are_others && (self.term == other.term && self.applied == other.length)
    }

    // Whether all is well where it is to lead: its log ends with an entry of its term, and all are in step with it.
    pub(crate) fn is_well(self, are_in_step: bool) -> bool
        ensures { result ≡ (ends_own self && are_in_step) }
    {
        self.ends_own() && are_in_step
    }
}
