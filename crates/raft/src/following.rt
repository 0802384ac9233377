//! What a follower takes from its leader.
ghost use Rattle.std.specs.Prelude.{◌≡◌, ◌+◌, ◌-◌, ◌<◌, ◌≤◌, ◌||◌, nat_lt, List, nat_le, length, take, drop, vec_len, IfOk, true, false, OnOk};
ghost use Rattle.std.specs.List.{list_all};
ghost use Rattle.model.specs.declared.entry.Entry as in_log;
ghost use Rattle.model.specs.Members.{agreed, stands};
ghost use Rattle.model.specs.Steps.{accepted, cuts_below, on_append, follows, takes_entries, LOG_LIMIT, TERM_LAST};
ghost use Rattle.raft.specs.Saved.{IsSaved, Tells};
ghost use Rattle.raft.specs.View.{log_of, node_of, IsSameSeat, Reaches, outcome_of, asks_after, SameUnlessDone};

use crate::logs::{agreed, continues, has_term};
use crate::state::{Core, Effect, Sending};
use model::entry::Entry;
use model::member::Member;
use model::message::{Body, LOG_ROOM, Role};
use std::alloc::AllocError;

impl Core {
    /// An entry of this term stands at `prev`, in a log of which the window shows what comes from there on; index 0 is
    /// before each log.
    #[tactic(auto, using(crate::proofs::Windows::stands_seen, crate::proofs::Windows::length_of, crate::proofs::Lists::stands_within))]
    fn stands(&self, window: &[Entry], prev: usize, prev_term: u64) -> bool
        ghost stored: { List in_log.Entry }
        requires reaches { Reaches self.now stored }
        ensures value { window.now ≡ take 65 (drop (prev - 1) (log_of self.now stored)) → result ≡ stands (log_of self.now stored) prev prev_term }
        ensures within { result ≡ true → prev ≤ self.now.log.elsewhere + vec_len self.now.log.tail }
    {
        prev == 0 || (prev <= self.log.length() && has_term(window, 0, prev_term))
    }

    /// Up to which index the log and the entries that come after `prev` have the same terms.
    #[tactic(auto, using(crate::proofs::Windows::agreed_seen, crate::proofs::Windows::length_of))]
    pub(crate) fn agreed(&self, window: &[Entry], prev: usize, entries: &[Entry]) -> usize
        ghost stored: { List in_log.Entry }
        requires reaches { Reaches self.now stored }
        requires few { length entries.now ≤ 64 }
        requires within { prev ≤ self.now.log.elsewhere + vec_len self.now.log.tail }
        ensures value { window.now ≡ take 65 (drop (prev - 1) (log_of self.now stored)) → result ≡ agreed (log_of self.now stored) prev entries.now }
        ensures low { prev ≤ result }
        ensures high { result ≤ prev + length entries.now }
        ensures within { result ≤ self.now.log.elsewhere + vec_len self.now.log.tail }
    {
        let first = prev.min(1);
        let index = prev - first + agreed(window, first, entries);
        index.min(self.log.length())
    }

    /// A cut at the index up to which the log agrees with the entries after `prev` is below commit, or makes the log longer
    /// than it may be.
    fn cuts_too_far(&self, index: usize, prev: usize, entries: &[Entry]) -> bool
        ghost stored: { List in_log.Entry }
        requires reaches { Reaches self.now stored }
        requires few { length entries.now ≤ 64 }
        requires within { prev ≤ self.now.log.elsewhere + vec_len self.now.log.tail }
        ensures value { index ≡ agreed (log_of self.now stored) prev entries.now → result ≡ (cuts_below self.now.commit (log_of self.now stored) prev entries.now || nat_lt LOG_LIMIT (length (accepted (log_of self.now stored) prev entries.now))) }
        ensures keeps { result ≡ false → index < prev + length entries.now → self.now.commit ≤ index }
        ensures room { result ≡ false → index < prev + length entries.now → prev + length entries.now ≤ 100000 }
    {
        let end = prev + entries.len();
        index < end && (index < self.commit || LOG_ROOM < end)
    }

    /// Takes this member for the leader.
    pub(crate) fn follow(&mut self, leader: Member)
        ghost stored: { List in_log.Entry }
        ensures node { node_of self.new stored ≡ follows leader (node_of self.old stored) }
        ensures seat { IsSameSeat self.old self.new }
        ensures log { self.new.log ≡ self.old.log }
        ensures commit { self.new.commit ≡ self.old.commit }
    {
        self.role = Role::Follower;
        self.known = Some(leader);
        self.votes.clear();
        self.told = None;
        self.next.clear();
        self.matched.clear();
        self.asked = None;
        self.stored.clear();
    }

    /// Takes the entries after `prev`, with which the log agrees up to an index, and what the leader says of its commit
    /// index.
    fn take_entries(
        &mut self,
        index: usize,
        prev: usize,
        entries: Vec<Entry>,
        commit: usize,
    ) -> Result<(), AllocError>
        ghost stored: { List in_log.Entry }
        requires reaches { Reaches self.old stored }
        requires few { vec_len entries ≤ 64 }
        requires low { prev ≤ index }
        requires high { index ≤ prev + vec_len entries }
        requires within { index ≤ self.old.log.elsewhere + vec_len self.old.log.tail }
        requires keeps { index < prev + vec_len entries → self.old.commit ≤ index }
        requires room { index < prev + vec_len entries → prev + vec_len entries ≤ 100000 }
        requires terms { list_all (λ e. nat_le e.term TERM_LAST) entries.items ≡ true }
        ensures done { index ≡ agreed (log_of self.old stored) prev entries.items → IfOk result
            (λ _. node_of self.new stored ≡ takes_entries prev entries.items commit (node_of self.old stored)) }
        ensures seat { IsSameSeat self.old self.new }
        ensures tells { index ≡ agreed (log_of self.old stored) prev entries.items → IsSaved self.old.log → OnOk result (Tells stored self.old.log self.new.log) }
        ensures lower { self.new.log.elsewhere ≤ self.old.log.elsewhere }
        ensures short { vec_len self.new.log.tail ≤ vec_len self.old.log.tail + 64 }
    {
        let end = prev + entries.len();
        self.log.accept(index, prev, entries)?;
        self.commit = self.commit.max(commit.min(end));
        Ok(())
    }

    /// Takes entries of a leader, or answers no where it has not the entry before them. The window shows its log from that
    /// entry on.
    #[tactic(auto, unfolding(model::specs::Steps::on_append), using(crate::proofs::Windows::continues_seen))]
    pub(crate) fn on_append(
        &mut self,
        window: &[Entry],
        sender: Member,
        term: u64,
        prev: usize,
        prev_term: u64,
        entries: Vec<Entry>,
        commit: usize,
    ) -> Result<Effect<Sending>, AllocError>
        ghost stored: { List in_log.Entry }
        requires reaches { Reaches self.old stored }
        requires few { vec_len entries ≤ 64 }
        requires term { term ≤ self.old.term }
        requires terms { list_all (λ e. nat_le e.term TERM_LAST) entries.items ≡ true }
        ensures done { window.now ≡ take 65 (drop (prev - 1) (log_of self.old stored)) → IfOk result
            (λ o. outcome_of self.new stored o
            ≡ on_append self.old.me sender term prev prev_term entries.items commit (node_of self.old stored)) }
        ensures same { IfOk result (SameUnlessDone self.old self.new stored) }
        ensures few { IfOk result (λ o. asks_after o ≤ 1) }
        ensures seat { IsSameSeat self.old self.new }
        ensures tells { window.now ≡ take 65 (drop (prev - 1) (log_of self.old stored)) → IsSaved self.old.log → OnOk result (Tells stored self.old.log self.new.log) }
        ensures lower { self.new.log.elsewhere ≤ self.old.log.elsewhere }
        ensures short { vec_len self.new.log.tail ≤ vec_len self.old.log.tail + 64 }
    {
        let no = Sending::Back {
            to: sender,
            body: Body::Reply {
                ok: false,
                matched: 0,
            },
        };
        if term < self.term {
            return Ok(Effect::Done(no));
        }
        if self.is_leader() {
            return Ok(Effect::Ignored);
        }
        if !self.stands(window, prev, prev_term) {
            self.follow(sender);
            return Ok(Effect::Done(no));
        }
        if !continues(window, prev.min(1), term, &entries) {
            return Ok(Effect::Ignored);
        }
        let index = self.agreed(window, prev, &entries);
        if self.cuts_too_far(index, prev, &entries) {
            return Ok(Effect::Ignored);
        }
        let end = prev + entries.len();
        self.follow(sender);
        self.take_entries(index, prev, entries, commit)?;
        Ok(Effect::Done(Sending::Accepted {
            to: sender,
            matched: end,
        }))
    }
}
