//! What members are, as their messages show it.
ghost use Rattle.std.specs.Prelude.{◌≡◌, replicate, IfOk};
ghost use Rattle.model.specs.Lists.{nth_or, with_nth};
ghost use Rattle.lanes.specs.Roles.{after_sending, after_taking, in_role, opening as opening_role, shown_by, stands as stands_in};

use model::member::Member;
use model::message::{Body, Message};
use std::alloc::{AllocError, Global};
use std::marker::Model;

/// What a member is.
#[derive(Clone, Copy, Debug, PartialEq, Eq)]
pub enum Role {
    Follows,
    /// It stands for election.
    Stands,
    Leads,
    Down,
}

/// What a member is, and the greatest term that it sent or took.
#[derive(Clone, Copy, Debug, PartialEq, Eq)]
pub struct Standing {
    pub role: Role,
    pub term: u64,
}

// What a message shows of its sender, which was this.
fn role_shown(body: &Body, role: Role) -> Role
    ensures { result ≡ shown_by body.now role }
{
    match body {
        Body::Append { .. } => Role::Leads,
        Body::RequestVote { .. } => Role::Stands,
        Body::Vote { .. }
        | Body::Reply { .. }
        | Body::Seek { .. }
        | Body::Stored { .. }
        | Body::Seal { .. } => role,
    }
}

impl Standing {
    /// What a member is before anything happens: it follows, in term 0.
    pub fn opening() -> Standing
        ensures { result ≡ opening_role }
    {
        Standing {
            role: Role::Follows,
            term: 0,
        }
    }

    /// What it is once it sent a message: an Append shows that it leads the message's term, a request for a vote that it stands
    /// in it.
    pub fn sent(self, message: &Message) -> Standing
        ensures { result ≡ after_sending message.now self }
    {
        Standing {
            role: role_shown(&message.body, self.role),
            term: self.term.max(message.term),
        }
    }

    /// What it is once it took a message: one of a greater term makes it follow, and so does an Append of the term in which it
    /// stands.
    pub fn took(self, term: u64, is_append: bool) -> Standing
        ensures { result ≡ after_taking term is_append self }
    {
        if self.term < term || (is_append && (self.stands() && term == self.term)) {
            Standing {
                role: Role::Follows,
                term,
            }
        } else {
            self
        }
    }

    // Whether it stands for election.
    fn stands(self) -> bool
        ensures { result ≡ stands_in self.role }
    {
        match self.role {
            Role::Stands => true,
            Role::Follows | Role::Leads | Role::Down => false,
        }
    }

    /// The same in another role.
    pub fn as_role(self, role: Role) -> Standing
        ensures { result ≡ in_role role self }
    {
        Standing {
            role,
            term: self.term,
        }
    }
}

/// What each member is. Members count from 1; a contract sees the list.
#[derive(Drop)]
pub struct Roles {
    standings: Vec<Standing>,
}

impl Model for Roles {
    ghost use Rattle.std.specs.Prelude.{List};
    ghost use Rattle.lanes.specs.declared.role.Standing.{Standing as AnyStanding};

    ghost Value = { List AnyStanding };

    ghost view = { λ roles. roles.standings.items };
}

impl Roles {
    /// So many members, before anything happens.
    pub fn new(alloc: Global, members: usize) -> Result<Roles, AllocError>
        ensures { IfOk result (λ roles. roles ≡ replicate members opening_role) }
    {
        Ok(Roles {
            standings: vec![in alloc; Standing::opening(); members]?,
        })
    }

    /// What a member is; one that is not there is as before anything happens.
    pub fn of(&self, node: Member) -> Standing
        ensures { result ≡ nth_or self.now node opening_role }
    {
        if 1 <= node && node <= self.standings.len() {
            self.standings[node - 1]
        } else {
            Standing::opening()
        }
    }

    /// Notes what a member is now. Nothing changes where it is not there.
    pub fn set(&mut self, node: Member, standing: Standing)
        ensures { self.new ≡ with_nth self.old node standing }
    {
        if 1 <= node && node <= self.standings.len() {
            self.standings[node - 1] = standing;
        }
    }

    /// What each member is, in order.
    pub fn as_slice(&self) -> &[Standing]
        ensures { result.now ≡ self.now }
    {
        self.standings.as_slice()
    }
}
