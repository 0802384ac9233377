//! The state of a member, and what a step gives.
ghost use Rattle.std.specs.Prelude.{◌≡◌, ℕ, List, ◌+◌, ◌≤◌, true, false, vec_len};
ghost use Rattle.model.specs.Lists.{nth_or};
ghost use Rattle.model.specs.Members.{is_candidate, is_leader};
ghost use Rattle.keep.specs.Log.{is_vote};
ghost use Rattle.keep.specs.Durable.{Durable};
ghost use Rattle.model.specs.declared.entry.Entry.{Entry};

use crate::short_log::ShortLog;
use fault::Refusal;
use keep::change::Change;
use keep::hard_state::HardState;
use keep::state::State;
use model::member::{AskedFloor, Member, SealedFloor};
use model::message::{Body, Input, Message, Role};
use model::stamp::Stamp;
use schema::Schema;
use std::alloc::Global;

/// What is brought to a member.
#[derive(Debug, Drop)]
pub enum Work {
    /// A timeout, a beat, a close, a floor or a submit.
    Local(Input),
    /// A message, with what the clock shows in microseconds since 1970.
    Delivered { reading: i64, message: Message },
}

/// What a step gives that changes or sends something.
#[derive(Debug, Drop)]
pub struct Taken {
    /// What is to be stored before a message leaves, none exactly where what is stored stays. It keeps
    /// the longest beginning that the log before the step and the log after it have in common.
    pub change: Option<Change>,
    /// In the order of their addressees.
    pub messages: Vec<Message>,
    /// The commit index before the step: the entries after it, up to the commit index, are newly
    /// committed.
    pub committed_before: usize,
}

/// What comes of an input or a message.
#[derive(Debug, Drop)]
pub enum Effect<T> {
    /// Nothing changed.
    Refused(Refusal),
    /// Nothing changed, and nothing is sent.
    Ignored,
    /// What a step gives.
    Done(T),
}

/// What is to be sent after a step, before the entries that it takes are fetched.
#[derive(Debug, Drop)]
pub(crate) enum Sending {
    Nothing,
    /// One message, to one member.
    Back { to: Member, body: Body },
    /// A `RequestVote` to each other member.
    VoteRequests,
    /// An `Append` to one member.
    Append(Member),
    /// An `Append` to each other member.
    Appends,
    /// What a leader sends once the log of a member is known to agree further: entries may be committed now.
    Agreed(Member),
    /// That entries were taken, and up to which index the log is now the leader's: a seal that waits may count now.
    Accepted { to: Member, matched: usize },
    /// A `Seek` to each other member.
    Seeks(AskedFloor),
    /// A `Seal` to each other member, once it is learned.
    Seals(SealedFloor),
    /// Nothing, once this seal is learned.
    Learned(SealedFloor),
}

/// What a member was before it heard of a greater term.
#[derive(Drop)]
pub(crate) struct Before {
    pub term: u64,
    pub vote: Option<Member>,
    pub role: Role,
    pub known: Option<Member>,
    pub votes: Vec<bool>,
    pub told: Option<Stamp>,
    pub next: Vec<usize>,
    pub matched: Vec<usize>,
    pub asked: Option<AskedFloor>,
    pub stored: Vec<bool>,
    ghost term_within: { term ≤ 9223372036854775807 },
    ghost stands: { is_candidate role ≡ true → 1 ≤ term },
    ghost leads: { is_leader role ≡ true → 1 ≤ term },
    ghost matches_within: { (m : ℕ) → nth_or matched.items m 0 ≤ 100000 },
}

/// A member of a group of up to seven, counted from 1, that all have the same tables.
///
/// Its hard state and its log are to be kept over a restart; its role, its commit index, the leader that
/// it knows, what a candidate or a leader knows of the others, and what it has sealed are not.
#[derive(Drop)]
pub struct Core {
    pub(crate) alloc: Global,
    /// The tables.
    pub schema: Schema,
    /// How many members the group has.
    pub members: usize,
    /// Which member this is.
    pub me: Member,
    pub(crate) term: u64,
    pub(crate) vote: Option<Member>,
    /// No entry that it makes as a leader is stamped at or below this.
    pub(crate) floor: Option<Stamp>,
    /// Up to 100,000 entries, the first of which has index 1, and of which the last are here.
    pub log: ShortLog,
    pub(crate) role: Role,
    /// Up to which index the log is known to be committed.
    pub commit: usize,
    pub(crate) known: Option<Member>,
    /// On a candidate, for each member: whether it gave me its vote.
    pub(crate) votes: Vec<bool>,
    /// On a candidate, the greatest floor that the votes told which it counted.
    pub(crate) told: Option<Stamp>,
    /// On a leader, for each member: the index of the entry to send next.
    pub(crate) next: Vec<usize>,
    /// On a leader, for each member: up to where its log is known to agree.
    pub(crate) matched: Vec<usize>,
    /// On a leader, the floor that it asks for.
    pub(crate) asked: Option<AskedFloor>,
    /// On a leader, for each member: whether it stored that floor.
    pub(crate) stored: Vec<bool>,
    /// The greatest floor of a seal whose entry is applied.
    pub(crate) sealed: Option<Stamp>,
    /// A seal whose entry is not applied yet.
    pub(crate) waiting: Option<SealedFloor>,
    /// A step failed, for want of memory or by its store, so that no further step is taken.
    pub is_spent: bool,
    ghost one_of_few: { members ≤ 7 },
    ghost is_member: { (1 ≤ me) × (me ≤ members) },
    ghost term_within: { term ≤ 9223372036854775807 },
    ghost vote_within: { is_vote members vote ≡ true },
    ghost stands: { is_candidate role ≡ true → 1 ≤ term },
    ghost leads: { is_leader role ≡ true → 1 ≤ term },
    ghost commit_within: { commit ≤ log.elsewhere + vec_len log.tail },
    ghost matches_within: { (m : ℕ) → nth_or matched.items m 0 ≤ 100000 },
}

impl Core {
    ghost use Rattle.raft.specs.View.{hard_in, log_of, node_of, opening, IsInStep, IsStateOf};
    ghost use Rattle.raft.specs.Start.{IsStart};

    /// A member that starts with what was stored, as a follower that knows of no leader and of no
    /// committed entry. `me` is one of the group: from 1 to `members`, of which there are up to 7. The
    /// caller sees to this, and by `is_start` to it that what was stored may be that of such a member.
    pub fn start(alloc: Global, schema: Schema, members: usize, me: Member, state: State) -> Core
        requires few { members ≤ 7 }
        requires member { (1 ≤ me) × (me ≤ members) }
        requires start { IsStart members state }
        ensures node { (stored : List Entry) → node_of result stored ≡ opening state.hard (log_of result stored) }
        ensures step { (d : Durable) → IsStateOf state d → IsInStep result d }
        ensures group { (result.members ≡ members) × (result.me ≡ me) × (result.schema ≡ schema) × (result.is_spent ≡ false) }
    {
        let State { hard, length, tail } = state;
        let log = ShortLog::new(length, tail);
        Core {
            alloc,
            schema,
            members,
            me,
            term: hard.term,
            vote: hard.vote,
            floor: hard.floor,
            log,
            role: Role::Follower,
            commit: 0,
            known: None,
            votes: Vec::new(alloc),
            told: None,
            next: Vec::new(alloc),
            matched: Vec::new(alloc),
            asked: None,
            stored: Vec::new(alloc),
            sealed: None,
            waiting: None,
            is_spent: false,
        }
    }

    /// What it is to keep over a restart besides its log.
    pub fn hard_state(&self) -> HardState
        ensures { result ≡ hard_in self.now }
    {
        HardState {
            term: self.term,
            vote: self.vote,
            floor: self.floor,
        }
    }

    /// How many entries its log has.
    pub fn length(&self) -> usize
        ensures { result ≡ self.now.log.elsewhere + vec_len self.now.log.tail }
    {
        self.log.length()
    }

    /// The greatest floor of a seal whose entry it has applied, none where there is none. It does not fall while the member
    /// is up.
    pub fn sealed(&self) -> Option<Stamp>
        ensures { result ≡ self.now.sealed }
    {
        self.sealed
    }

    /// Up to which index the log is known to be committed.
    pub fn commit(&self) -> usize
        ensures { result ≡ self.now.commit }
    {
        self.commit
    }
}
