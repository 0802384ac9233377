//! What a node keeps over a restart, as others ask for it.
ghost use Rattle.std.specs.Prelude.{◌≡◌, ◌≤◌, ◌+◌, true, false, IfOk, IfErr, OnOk};
ghost use Rattle.model.specs.Lists.{nth};
ghost use Rattle.keep.specs.Durable.{Durable};
ghost use Rattle.node.specs.View.{durable_of, HasCause};
ghost use Rattle.node.specs.Answered.{stored_of, IsFaultOf};

use crate::node::{Fault, Node};
use fault::Refusal;
use keep::hard_state::HardState;
use keep::keeper::Keeper;
use model::entry::Entry;

/// What a node has stored: its hard state, and the length of its log.
#[derive(Clone, Copy, PartialEq, Eq, Debug)]
pub struct StoredState {
    pub hard: HardState,
    pub length: usize,
}

impl<K: Keeper> Node<K> {
    ghost use Rattle.node.specs.Member.{member_of, IsSameSeat};

    /// What is stored, which takes no memory and asks no store: 41 where the node is down.
    pub fn durable(&self) -> Result<StoredState, Fault>
        ensures ok { IfOk result (λ stored. (self.now.is_up ≡ true) × (K.is_honest self.now.keeper → stored ≡ stored_of (durable_of (member_of self.now)))) }
        ensures kept { IfOk result (λ stored. K.is_honest self.now.keeper → stored ≡ stored_of (K.stored self.now.keeper)) }
        ensures down { IfErr result (λ fault. (self.now.is_up ≡ false) × (fault ≡ Fault.Kept Refusal.NodeDown)) }
    {
        if !self.is_up {
            return Err(Fault::Kept(Refusal::NodeDown));
        }
        Ok(StoredState {
            hard: self.core.hard_state(),
            length: self.core.length(),
        })
    }

    /// The entry at an index of the log, counted from 1; none where there is none. One that the core no longer has comes
    /// from the keeper. 41 where the node is down, with nothing changed; after 40 and 43 it is down.
    pub fn entry(&mut self, index: usize) -> Result<Option<Entry>, Fault>
        ensures ok { IfOk result (λ found. K.is_honest self.new.keeper → found ≡ nth (member_of self.old).log index) }
        ensures up { OnOk result ((self.old.is_up ≡ true) × (self.new.is_up ≡ true)) }
        ensures fails { IfErr result (IsFaultOf self.old.is_up self.new.is_up) }
        ensures cause { IfErr result (HasCause (K.failed self.old.keeper) (K.failed self.new.keeper)) }
        ensures stays { self.old.is_up ≡ false → self.new ≡ self.old }
        ensures core { self.new.core ≡ self.old.core }
        ensures member { OnOk result (K.is_honest self.new.keeper → member_of self.new ≡ member_of self.old) }
        ensures group { IsSameSeat self.old self.new }
        ensures honest { K.is_honest self.new.keeper → K.is_honest self.old.keeper }
        ensures came { (o : K.Origin) → K.came_from self.old.keeper o → K.came_from self.new.keeper o }
        ensures left { (d : Durable) → K.may_hold self.new.keeper d → K.may_hold self.old.keeper d }
        ensures held { self.old.is_up ≡ true → (d : Durable) → K.may_hold self.new.keeper d → d ≡ durable_of (member_of self.old) }
        ensures asks { K.asks self.new.keeper ≤ K.asks self.old.keeper + 1 }
        ensures saves { K.saves self.new.keeper ≡ K.saves self.old.keeper }
    {
        if !self.is_up {
            return Err(Fault::Kept(Refusal::NodeDown));
        }
        match self.core.entry(&mut self.keeper, index) {
            Ok(entry) => Ok(entry),
            Err(error) => {
                self.is_up = false;
                Err(Fault::Down(error))
            }
        }
    }
}
