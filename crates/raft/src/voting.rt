//! Elections.
ghost use Rattle.std.specs.Prelude.{◌≡◌, ◌==◌, true, ◌+◌, ◌<◌, ◌≤◌, ◌++◌, List, take, vec_len, IfOk, OnOk};
ghost use Rattle.std.specs.Option.{option_map_or};
ghost use Rattle.model.specs.Members.{is_up_to_date, is_leader, is_candidate};
ghost use Rattle.model.specs.Steps.{counted, hears, grants, on_request_vote, on_vote, opened, stands_up};
ghost use Rattle.model.specs.declared.entry.Entry as in_log;
ghost use Rattle.raft.specs.Saved.{IsSaved, Tells};
ghost use Rattle.raft.specs.View.{log_of, node_of, sends, CanForget, IsSameSeat, Reaches, forgotten};

use crate::counted::set_flag;
use crate::state::{Before, Core, Sending};
use closedtime::greater;
use model::member::Member;
use model::message::{Body, LAST_TERM, Role};
use model::stamp::Stamp;
use std::alloc::AllocError;
use std::mem;

/// The vote is none yet, or for this candidate.
pub(crate) fn is_free_for(vote: Option<Member>, candidate: Member) -> bool
    ensures { result ≡ option_map_or (λ v. v == candidate) vote true }
{
    match vote {
        None => true,
        Some(member) => member == candidate,
    }
}

impl Core {
    pub(crate) fn is_leader(&self) -> bool
        ensures { result ≡ is_leader self.now.role }
    {
        match self.role {
            Role::Leader => true,
            Role::Follower | Role::Candidate => false,
        }
    }

    pub(crate) fn is_candidate(&self) -> bool
        ensures { result ≡ is_candidate self.now.role }
    {
        match self.role {
            Role::Candidate => true,
            Role::Follower | Role::Leader => false,
        }
    }

    /// Takes the term of a message if it is greater, and gives what it was before then.
    #[tactic(auto, unfolding(model::specs::Steps::hears), using(crate::proofs::Lists::none_within))]
    pub(crate) fn hear(&mut self, term: u64) -> Option<Before>
        ghost stored: { List in_log.Entry }
        requires { term ≤ LAST_TERM }
        ensures node { node_of self.new stored ≡ hears term (node_of self.old stored) }
        ensures heard { term ≤ self.new.term }
        ensures can { CanForget result self.new }
        ensures before { forgotten result (node_of self.new stored) ≡ node_of self.old stored }
        ensures seat { IsSameSeat self.old self.new }
        ensures log { self.new.log ≡ self.old.log }
    {
        if self.term >= term {
            return None;
        }
        let before = Before {
            term: self.term,
            vote: self.vote,
            role: self.role,
            known: self.known,
            votes: mem::replace(&mut self.votes, Vec::new(self.alloc)),
            told: self.told,
            next: mem::replace(&mut self.next, Vec::new(self.alloc)),
            matched: mem::replace(&mut self.matched, Vec::new(self.alloc)),
            asked: self.asked,
            stored: mem::replace(&mut self.stored, Vec::new(self.alloc)),
        };
        self.term = term;
        self.vote = None;
        self.role = Role::Follower;
        self.known = None;
        self.told = None;
        self.asked = None;
        Some(before)
    }

    /// Goes back to what it was before it heard of a term.
    pub(crate) fn forget(&mut self, heard: Option<Before>)
        ghost stored: { List in_log.Entry }
        requires { CanForget heard self.old }
        ensures node { node_of self.new stored ≡ forgotten heard (node_of self.old stored) }
        ensures seat { IsSameSeat self.old self.new }
        ensures log { self.new.log ≡ self.old.log }
    {
        let Some(
            Before {
                term,
                vote,
                role,
                known,
                votes,
                told,
                next,
                matched,
                asked,
                stored,
            },
        ) = heard
        else {
            return;
        };
        self.term = term;
        self.vote = vote;
        self.role = role;
        self.known = known;
        self.votes = votes;
        self.told = told;
        self.next = next;
        self.matched = matched;
        self.asked = asked;
        self.stored = stored;
    }

    /// A log of this length and last term is at least as up to date as its own: its last term is greater, or equal where it
    /// is not shorter.
    #[tactic(auto, using(crate::proofs::Windows::last_term_of, crate::proofs::Windows::length_of))]
    pub(crate) fn is_up_to_date(&self, last_index: usize, last_term: u64) -> bool
        ghost stored: { List in_log.Entry }
        requires { Reaches self.now stored }
        ensures { result ≡ is_up_to_date last_term last_index (log_of self.now stored) }
    {
        let own = self.log.last_term();
        own < last_term || (own == last_term && self.log.length() <= last_index)
    }

    /// Whether a candidate is given the vote.
    fn grants(&self, sender: Member, term: u64, last_index: usize, last_term: u64) -> bool
        ghost stored: { List in_log.Entry }
        requires { Reaches self.now stored }
        ensures { result ≡ grants sender term last_index last_term (node_of self.now stored) }
    {
        term == self.term
            && is_free_for(self.vote, sender)
            && self.is_up_to_date(last_index, last_term)
    }

    #[tactic(auto, unfolding(model::specs::Steps::on_request_vote))]
    pub(crate) fn on_request_vote(
        &mut self,
        sender: Member,
        term: u64,
        last_index: usize,
        last_term: u64,
    ) -> Sending
        ghost stored: { List in_log.Entry }
        requires member { (1 ≤ sender) × (sender ≤ self.old.members) }
        requires reaches { Reaches self.old stored }
        ensures done { sends self.old.members self.old.me result (node_of self.new stored)
            ≡ on_request_vote self.old.me sender term last_index last_term (node_of self.old stored) }
        ensures seat { IsSameSeat self.old self.new }
        ensures log { self.new.log ≡ self.old.log }
    {
        let given = self.grants(sender, term, last_index, last_term);
        if given {
            self.vote = Some(sender);
        }
        Sending::Back {
            to: sender,
            body: Body::Vote {
                given,
                floor: self.floor,
            },
        }
    }

    /// Stands for election in the next term.
    pub(crate) fn stand_up(&mut self) -> Result<(), AllocError>
        ghost stored: { List in_log.Entry }
        requires { self.old.term < LAST_TERM }
        ensures node { IfOk result (λ _. node_of self.new stored ≡ stands_up self.old.members self.old.me (node_of self.old stored)) }
        ensures seat { IsSameSeat self.old self.new }
        ensures log { self.new.log ≡ self.old.log }
    {
        let mut votes = vec![in self.alloc; false; self.members]?;
        set_flag(&mut votes, self.me, true);
        self.term += 1;
        self.vote = Some(self.me);
        self.role = Role::Candidate;
        self.votes = votes;
        self.told = None;
        self.next.clear();
        self.matched.clear();
        self.asked = None;
        self.stored.clear();
        Ok(())
    }

    /// A new leader's first entry, if a stamp and room are there.
    fn open(&mut self, reading: i64) -> Result<(), AllocError>
        ghost stored: { List in_log.Entry }
        requires term { 1 ≤ self.old.term }
        requires reaches { Reaches self.old stored }
        ensures done { IfOk result (λ _. node_of self.new stored ≡ opened reading (node_of self.old stored)) }
        ensures seat { IsSameSeat self.old self.new }
        ensures tells { IsSaved self.old.log → OnOk result (Tells stored self.old.log self.new.log) }
        ensures elsewhere { self.new.log.elsewhere ≡ self.old.log.elsewhere }
        ensures short { vec_len self.new.log.tail ≤ vec_len self.old.log.tail + 1 }
    {
        let Some(stamp) = self.next_stamp(reading) else {
            return Ok(());
        };
        if self.is_log_full() {
            return Ok(());
        }
        self.extend(stamp, None)
    }

    /// Counts one vote more, and the floor that it tells.
    fn count(&mut self, sender: Member, floor: Option<Stamp>)
        ghost stored: { List in_log.Entry }
        ensures node { node_of self.new stored ≡ counted sender floor (node_of self.old stored) }
        ensures seat { IsSameSeat self.old self.new }
        ensures log { self.new.log ≡ self.old.log }
    {
        set_flag(&mut self.votes, sender, true);
        self.told = greater(self.told, floor);
    }

    #[tactic(auto, unfolding(model::specs::Steps::on_vote))]
    pub(crate) fn on_vote(
        &mut self,
        reading: i64,
        sender: Member,
        term: u64,
        given: bool,
        floor: Option<Stamp>,
    ) -> Result<Sending, AllocError>
        ghost stored: { List in_log.Entry }
        requires { Reaches self.old stored }
        ensures done { IfOk result
            (λ sending. sends self.old.members self.old.me sending (node_of self.new stored)
            ≡ on_vote self.old.members self.old.me reading sender term given floor (node_of self.old stored)) }
        ensures seat { IsSameSeat self.old self.new }
        ensures tells { IsSaved self.old.log → OnOk result (Tells stored self.old.log self.new.log) }
        ensures elsewhere { self.new.log.elsewhere ≡ self.old.log.elsewhere }
        ensures short { vec_len self.new.log.tail ≤ vec_len self.old.log.tail + 1 }
    {
        if !(given && term == self.term && self.is_candidate()) {
            return Ok(Sending::Nothing);
        }
        self.count(sender, floor);
        if !self.is_elected() {
            return Ok(Sending::Nothing);
        }
        self.become_leader()?;
        self.open(reading)?;
        Ok(Sending::Appends)
    }
}
