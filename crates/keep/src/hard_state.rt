//! What a member must remember besides its log.
use model::member::Member;
use model::stamp::Stamp;

/// What a member stores besides its log: of the "persistent state on all servers" in Figure 2 of "In search of an
/// understandable consensus algorithm", the current term and the vote; and its floor.
#[derive(Clone, Copy, PartialEq, Eq, Debug)]
pub struct HardState {
    /// The latest term that it has seen, from 0, where it has seen none, to `LAST_TERM`.
    pub term: u64,
    /// The member that it gave its vote in that term, counted from 1; none where it gave none.
    pub vote: Option<Member>,
    /// No entry that it makes as a leader is stamped at or below this; none where it has no floor.
    pub floor: Option<Stamp>,
}
