//! How the members of a store stand.
use model::member::Member;
use model::stamp::Stamp;

/// What a member is in its store.
#[derive(Clone, Copy, PartialEq, Eq, Debug)]
pub enum Standing {
    Leads,
    Follows,
    Down,
    /// Its database was not there when the store was opened.
    Missing,
}

/// How a member stands.
#[derive(Clone, Copy, PartialEq, Eq, Debug)]
pub struct Status {
    pub member: Member,
    pub standing: Standing,
    /// Its term, 0 where it is not up.
    pub term: u64,
    /// How many entries its log has, 0 where it is not up.
    pub entries: usize,
    /// How many of them it has applied, 0 where it is not up.
    pub applied: usize,
    /// Up to which instant it answers; none where it answers nothing.
    pub closed: Option<Stamp>,
}
