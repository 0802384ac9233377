//! What a leader does with replies.
ghost use Rattle.std.specs.Prelude.{◌≡◌, ◌+◌, ◌-◌, ◌*◌, ◌<◌, ◌≤◌, ◌^◌, List, length, max, vec_len, true, false, IfOk, OnOk, OnErr, replicate};
ghost use Rattle.model.specs.declared.entry.Entry as in_log;
ghost use Rattle.model.specs.Members.{count_members, is_majority, is_in};
ghost use Rattle.model.specs.Steps.{holds_to, is_matched, greatest, crowned, noted, on_reply, on_reply_yes, on_reply_no};
ghost use Rattle.raft.specs.Below.{greatest_below};
ghost use Rattle.raft.specs.View.{log_of, node_of, outcome_of, IsSameSeat, Reaches, SameUnlessDone};

use crate::counted::{flag_at, number_at, set_number};
use crate::state::{Core, Effect, Sending};
use closedtime::greater;
use model::member::Member;
use model::message::Role;
use std::alloc::AllocError;

/// How many members are in a set.
pub(crate) fn count_set(set: &[bool], members: usize) -> usize
    requires { members ≤ 7 }
    ensures value { result ≡ count_members members (is_in set.now) }
    ensures small { result ≤ members }
{
    let mut count = 0;
    for index in 0..members {
        if flag_at(set, index + 1) {
            count += 1;
        }
    }
    count
}

/// How many members match the log up to a place. The leader matches all of its own.
fn count_matching(matched: &[usize], members: usize, me: Member, place: usize) -> usize
    requires { members ≤ 7 }
    ensures value { result ≡ count_members members (holds_to me matched.now place) }
    ensures small { result ≤ members }
{
    let mut count = 0;
    for index in 0..members {
        let member = index + 1;
        if member == me || place <= number_at(matched, member) {
            count += 1;
        }
    }
    count
}

/// The greatest of these numbers below the bound, 0 where there is none.
#[tactic(auto, using(crate::proofs::Greatest::below_more, crate::proofs::Greatest::below_all))]
fn greatest_below(numbers: &[usize], bound: usize) -> usize
    ensures { result ≡ greatest_below bound numbers.now }
{
    let mut most = 0;
    for number in numbers {
        if *number < bound {
            most = most.max(*number);
        }
    }
    most
}

impl Core {
    /// Whether a majority gave me their vote.
    pub(crate) fn is_elected(&self) -> bool
        ensures { result ≡ is_majority self.now.members (is_in self.now.votes.items) }
    {
        2 * count_set(&self.votes, self.members) > self.members
    }

    /// A majority match the log up to this index.
    pub(crate) fn is_held(&self, index: usize) -> bool
        ensures { result ≡ is_majority self.now.members (holds_to self.now.me self.now.matched.items index) }
    {
        2 * count_matching(&self.matched, self.members, self.me, index) > self.members
    }

    /// Up to which index a majority match the log, if that is past its commit index; no index above it
    /// can be committed. It goes over what each member matches, not over the log.
    #[tactic(auto, using(crate::proofs::Greatest::held_skip, crate::proofs::Greatest::below_less, crate::proofs::Windows::length_of))]
    pub(crate) fn held(&self) -> usize
        ensures within { result ≤ self.now.log.elsewhere + vec_len self.now.log.tail }
        ensures most { (stored : List in_log.Entry) → Reaches self.now stored → greatest (is_matched self.now.members self.now.me (node_of self.now stored)) (length (log_of self.now stored)) ≡ greatest (is_matched self.now.members self.now.me (node_of self.now stored)) result }
        ensures held { self.now.commit < result → is_majority self.now.members (holds_to self.now.me self.now.matched.items result) ≡ true }
    {
        let mut index = self.log.length();
        while index > self.commit && !self.is_held(index) {
            index = greatest_below(&self.matched, index);
        }
        index
    }

    /// Takes the lead of its term, as a member does that a majority chose: it is to send each member
    /// what comes after its own log, and knows of no match yet; no floor that they told is above its
    /// own. Changes nothing where memory is refused.
    #[tactic(auto, using(crate::proofs::Lists::zeros, crate::proofs::Windows::length_of))]
    pub(crate) fn become_leader(&mut self) -> Result<(), AllocError>
        ghost stored: { List in_log.Entry }
        requires term { 1 ≤ self.old.term }
        requires reaches { Reaches self.old stored }
        ensures node { OnOk result (node_of self.new stored ≡ crowned self.old.members (node_of self.old stored)) }
        ensures err { OnErr result (node_of self.new stored ≡ node_of self.old stored) }
        ensures seat { IsSameSeat self.old self.new }
        ensures log { self.new.log ≡ self.old.log }
    {
        let first = self.log.length() + 1;
        let next = vec![in self.alloc; first; self.members]?;
        let matched = vec![in self.alloc; 0; self.members]?;
        self.floor = greater(self.floor, self.told);
        self.role = Role::Leader;
        self.votes.clear();
        self.told = None;
        self.next = next;
        self.matched = matched;
        self.asked = None;
        self.stored.clear();
        Ok(())
    }

    /// Notes up to where a member's log agrees.
    #[tactic(auto, using(crate::proofs::Lists::noted_within))]
    fn note(&mut self, sender: Member, matched: usize)
        ghost stored: { List in_log.Entry }
        requires { matched ≤ self.old.log.elsewhere + vec_len self.old.log.tail }
        ensures node { node_of self.new stored ≡ noted sender matched (node_of self.old stored) }
        ensures seat { IsSameSeat self.old self.new }
        ensures log { self.new.log ≡ self.old.log }
    {
        let most = number_at(&self.matched, sender).max(matched);
        set_number(&mut self.matched, sender, most);
        set_number(&mut self.next, sender, most + 1);
    }

    /// The sender's log agrees up to `matched`.
    #[tactic(auto, unfolding(model::specs::Steps::on_reply_yes), using(crate::proofs::Windows::length_of))]
    fn on_reply_yes(&mut self, sender: Member, matched: usize) -> Effect<Sending>
        ghost stored: { List in_log.Entry }
        requires { Reaches self.old stored }
        ensures done { outcome_of self.new stored result
            ≡ on_reply_yes self.old.members self.old.me sender matched (node_of self.old stored) }
        ensures same { SameUnlessDone self.old self.new stored result }
        ensures seat { IsSameSeat self.old self.new }
        ensures log { self.new.log ≡ self.old.log }
    {
        if matched > self.log.length() {
            return Effect::Ignored;
        }
        self.note(sender, matched);
        Effect::Done(Sending::Agreed(sender))
    }

    /// The sender had not the entry before: goes one back, and sends again.
    #[tactic(auto, unfolding(model::specs::Steps::on_reply_no))]
    fn on_reply_no(&mut self, sender: Member) -> Effect<Sending>
        ghost stored: { List in_log.Entry }
        ensures done { outcome_of self.new stored result ≡ on_reply_no self.old.me sender (node_of self.old stored) }
        ensures same { SameUnlessDone self.old self.new stored result }
        ensures seat { IsSameSeat self.old self.new }
        ensures log { self.new.log ≡ self.old.log }
    {
        let back = number_at(&self.next, sender).saturating_sub(1).max(1);
        set_number(&mut self.next, sender, back);
        Effect::Done(Sending::Append(sender))
    }

    /// Takes what a follower answers to an `Append`.
    pub(crate) fn on_reply(
        &mut self,
        sender: Member,
        term: u64,
        ok: bool,
        matched: usize,
    ) -> Effect<Sending>
        ghost stored: { List in_log.Entry }
        requires { Reaches self.old stored }
        ensures done { outcome_of self.new stored result
            ≡ on_reply self.old.members self.old.me sender term ok matched (node_of self.old stored) }
        ensures same { SameUnlessDone self.old self.new stored result }
        ensures seat { IsSameSeat self.old self.new }
        ensures log { self.new.log ≡ self.old.log }
    {
        if !(self.is_leader() && term == self.term) {
            return Effect::Done(Sending::Nothing);
        }
        if ok {
            self.on_reply_yes(sender, matched)
        } else {
            self.on_reply_no(sender)
        }
    }
}
