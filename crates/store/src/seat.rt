//! A member's seat: what a store has of it.
ghost use Rattle.std.specs.Prelude.{◌≡◌, ◌≢◌, ◌≤◌, ◌⊎◌, ℕ, [], true, false, Some, None, Err, IsTrue, IsSome, IfOk, IfErr, OnOk, OnErr, MatchOption, ◌↔◌};
ghost use Rattle.std.specs.Option.{ForSome};
ghost use Rattle.keep.specs.Durable.{Durable};
ghost use Rattle.model.specs.Members.{Node as TheNode};
ghost use Rattle.sqlchecks.specs.Columns.{Tables};
ghost use Rattle.node.specs.Member.{me_of, member_of, members_of, tables_of, IsSameSeat};
ghost use Rattle.model.specs.Worlds.{started};
ghost use Rattle.node.specs.View.{durable_of, started_from};
ghost use Rattle.store.specs.Nodes.{IsMember, StepsTo};
ghost use Rattle.journal.specs.Digests.{summary_of};
ghost use Rattle.store.specs.Announcing.{HasContinued};
ghost use Rattle.store.specs.Chains.{links_of};
ghost use Rattle.store.specs.Continuing.{IsKeptOn};

use crate::announcing::Announces;
use crate::chain::Chain;
use crate::known::KnownLog;
use crate::refusal::StoreRefusal;
use crate::scribe::Scribe;
use crate::tale::Tale;
use crate::voice::Voice;
use fault::Refusal;
use journal::{Line, Summary};
use keep::StoreError;
use model::member::Member;
use node::{Fault, Node, Out, Work};
use schema::Schema;
use std::alloc::Global;
use std::mem::replace;

/// A member: up, or at rest with its database, or with its database missing.
#[derive(Drop)]
pub(crate) struct Seat<K: Announces>
where
    K::Image: Drop,
{
    pub alloc: Global,
    pub member: Member,
    pub node: Option<Node<K>>,
    pub image: Option<K::Image>,
    /// That of the node's log.
    pub chain: Chain,
    /// What is told of it, where its database is missing.
    pub tale: Tale,
    pub ghost numbered: { ForSome node (λ n. me_of n ≡ member) },
    pub ghost linked: { ForSome node (λ n. n.is_up ≡ true → K.is_honest n.keeper → chain.links.items ≡ links_of (member_of n).log) },
}

// The chain of a node's log.
fn chain_of<K: Announces>(
    alloc: Global,
    node: &mut Node<K>,
    known: &mut KnownLog,
) -> Result<Chain, StoreRefusal>
where
    K::Image: Drop,
    ensures links { IfOk result (λ chain. K.is_honest node.new.keeper → chain.links.items ≡ links_of (member_of node.new).log) }
    ensures up { OnOk result (node.new.is_up ≡ true) }
    ensures other { result ≢ Err StoreRefusal.TooFew }
    ensures group { IsSameSeat node.old node.new }
    ensures honest { K.is_honest node.new.keeper → K.is_honest node.old.keeper }
    ensures member { OnOk result (K.is_honest node.new.keeper → member_of node.new ≡ member_of node.old) }
    ensures held { node.old.is_up ≡ true → (d : Durable) → K.may_hold node.new.keeper d → d ≡ durable_of (member_of node.old) }
{
    let entries = node.entries()?;
    let chain = known.link(alloc, entries.as_slice())?;
    Ok(chain)
}

// A node over an image, and the chain of its log. An error gives the image back.
fn start_node<K: Announces>(
    alloc: Global,
    image: K::Image,
    schema: Schema,
    members: usize,
    member: Member,
    known: &mut KnownLog,
) -> Result<(Node<K>, Chain), (StoreRefusal, K::Image)>
where
    K::Image: Drop,
    requires few { members ≤ 7 }
    requires member { (1 ≤ member) × (member ≤ members) }
    ensures group { IfOk result (λ p. (tables_of p.0 ≡ schema) × (members_of p.0 ≡ members) × (me_of p.0 ≡ member)) }
    ensures opened { IfOk result (λ p. K.is_honest p.0.keeper → member_of p.0 ≡ started_from (durable_of (member_of p.0))) }
    ensures found { IfOk result (λ p. K.is_honest p.0.keeper → K.holds image (durable_of (member_of p.0))) }
    ensures back { IfErr result (λ e. (d : Durable) → K.holds e.1 d → K.holds image d) }
    ensures links { IfOk result (λ p. K.is_honest p.0.keeper → p.1.links.items ≡ links_of (member_of p.0).log) }
    ensures up { IfOk result (λ p. p.0.is_up ≡ true) }
    ensures other { IfErr result (λ e. e.0 ≢ StoreRefusal.TooFew) }
{
    let mut node = match Node::start(alloc, image, schema, members, member) {
        Ok(node) => node,
        Err((error, image)) => return Err((StoreRefusal::from(error), image)),
    };
    match chain_of(alloc, &mut node, known) {
        Ok(chain) => Ok((node, chain)),
        Err(refusal) => Err((refusal, node.stop())),
    }
}

impl<K: Announces> Seat<K>
where
    K::Image: Drop,
{
    ghost use Rattle.runlaws.specs.Going.{after_stop};
    ghost use Rattle.store.specs.Closing.{IsAtRest};
    ghost use Rattle.store.specs.Seats.{HasMember, IsClean, KeepsStored};

    /// A member with this database, which is not started yet; with none it is missing.
    pub fn new(alloc: Global, member: Member, image: Option<K::Image>, tale: Tale) -> Seat<K>
        ensures { (result.member ≡ member) × (result.node ≡ None) × (result.image ≡ image) × (result.tale ≡ tale) }
    {
        Seat {
            alloc,
            member,
            node: None,
            image,
            chain: Chain::new(alloc),
            tale,
        }
    }

    /// Whether it is up.
    pub fn is_up(&self) -> bool
        ensures { IsTrue result ↔ IsSome self.now.node }
    {
        self.node.is_some()
    }

    /// Whether its database is missing.
    pub fn is_missing(&self) -> bool
        ensures { IsTrue result ↔ ((self.now.node ≡ None) × (self.now.image ≡ None)) }
    {
        self.node.is_none() && self.image.is_none()
    }

    /// Starts it over its database; one that is up stays so. 41 where it is missing, else the refusal of the database. The chain of
    /// its log is taken from one that is known, as far as that begins so.
    pub fn start(
        &mut self,
        schema: Schema,
        members: usize,
        known: &mut KnownLog,
    ) -> Result<(), StoreRefusal>
        ensures up { OnOk result (IsSome self.new.node) }
        ensures runs { OnOk result (self.old.node ≡ None → ForSome self.new.node (λ n. n.is_up ≡ true)) }
        ensures err { OnErr result (self.new.node ≡ None) }
        ensures other { result ≢ Err StoreRefusal.TooFew }
        ensures still { IsSome self.old.node → self.new ≡ self.old }
        ensures missing { self.old.node ≡ None → self.old.image ≡ None → result ≡ Err (StoreRefusal.Refused Refusal.NodeDown) }
        ensures clean { IsClean K.is_honest K.holds self.new → IsClean K.is_honest K.holds self.old }
        ensures starts { OnOk result (self.old.node ≡ None → IsClean K.is_honest K.holds self.new → (x : TheNode) → HasMember K.may_hold K.holds schema members self.old.member self.old x → (x.up ≡ false) × HasMember K.may_hold K.holds schema members self.old.member self.new (started x)) }
        ensures rests { OnErr result (IsClean K.is_honest K.holds self.new → (x : TheNode) → HasMember K.may_hold K.holds schema members self.old.member self.old x → HasMember K.may_hold K.holds schema members self.old.member self.new x) }
        ensures same { (self.new.member ≡ self.old.member) × (self.new.tale ≡ self.old.tale) }
    {
        if self.is_up() {
            return Ok(());
        }
        let Some(image) = self.image.take() else {
            return Err(StoreRefusal::Refused(Refusal::NodeDown));
        };
        if members > 7 || self.member < 1 || self.member > members {
            self.image = Some(image);
            return Err(StoreRefusal::Refused(Refusal::NodeDown));
        }
        match start_node::<K>(self.alloc, image, schema, members, self.member, known) {
            Ok((node, chain)) => {
                self.chain = chain;
                if let Some(before) = self.node.replace(node) {
                    self.image = Some(before.stop());
                }
                Ok(())
            }
            Err((refusal, image)) => {
                self.image = Some(image);
                Err(refusal)
            }
        }
    }

    /// Stops it; one that is not up stays so.
    pub fn stop(&mut self)
        ensures rests { IsAtRest K.may_hold K.holds self.old self.new }
        ensures still { self.old.node ≡ None → self.new ≡ self.old }
        ensures clean { IsClean K.is_honest K.holds self.new → IsClean K.is_honest K.holds self.old }
        ensures stops { (tables : Tables) (n m : ℕ) (x : TheNode) → HasMember K.may_hold K.holds tables n m self.old x → HasMember K.may_hold K.holds tables n m self.new (after_stop x) }
        ensures same { (self.new.member ≡ self.old.member) × (self.new.tale ≡ self.old.tale) }
    {
        if !self.is_up() {
            return;
        }
        if let Some(node) = self.node.take() {
            self.image = Some(node.stop());
        }
    }

    /// Takes its database out, where its member is not up.
    pub fn take_image(&mut self) -> Option<K::Image>
        ensures { (result ≡ self.old.image) × (self.new.image ≡ None) × (self.new.member ≡ self.old.member) × (self.new.node ≡ self.old.node) }
    {
        self.image.take()
    }

    /// What it has stored, where it is up.
    pub fn stored(&self) -> Option<Summary>
        ensures { MatchOption self.now.node (result ≡ None) (λ n. IsSome result × (n.is_up ≡ true → K.is_honest n.keeper → result ≡ Some (summary_of (durable_of (member_of n))))) }
    {
        match &self.node {
            Some(node) => Some(self.chain.summary(node.hard_state())),
            None => None,
        }
    }

    /// The line that it begins a journal with.
    pub fn head(&self) -> Line
        ensures down { self.now.node ≡ None → result ≡ Line.Rests self.now.member self.now.tale.stored }
        ensures life { ForSome self.now.node (λ n. (stored : Summary) × (result ≡ Line.Life self.now.member stored)) }
        ensures up { ForSome self.now.node (λ n. n.is_up ≡ true → K.is_honest n.keeper → result ≡ Line.Life self.now.member (summary_of (durable_of (member_of n)))) }
    {
        let member = self.member;
        match self.stored() {
            Some(stored) => Line::Life { member, stored },
            None => Line::Rests {
                member,
                stored: self.tale.stored,
            },
        }
    }

    /// Takes a step, with the journal lent to it, which comes back as it was or gone on; where no block of it went to the device, what is
    /// stored is the same. 41 where it is not up.
    pub fn step(
        &mut self,
        scribe: Scribe<K::Journal>,
        work: Work,
    ) -> (Option<Scribe<K::Journal>>, Result<Out, Fault>)
        ensures clean { IsClean K.is_honest K.holds self.new → IsClean K.is_honest K.holds self.old }
        ensures steps { IsClean K.is_honest K.holds self.new → (tables : Tables) (n m : ℕ) (x : TheNode) → HasMember K.may_hold K.holds tables n m self.old x → (y : TheNode) × (HasMember K.may_hold K.holds tables n m self.new y × StepsTo tables n m work x y result.1) }
        ensures same { (self.new.member ≡ self.old.member) × (self.new.tale ≡ self.old.tale) }
        ensures continues { (on : IsKeptOn K.Journal.contents (Some scribe) result.0) × (on.0.groups ≡ [] → KeepsStored K.is_honest K.may_hold K.holds work result.1 self.old self.new) }
    {
        let Some(node) = &mut self.node else {
            return (Some(scribe), Err(Fault::Kept(Refusal::NodeDown)));
        };
        if !node.is_up {
            return (Some(scribe), Err(Fault::Kept(Refusal::NodeDown)));
        }
        let chain = replace(&mut self.chain, Chain::new(self.alloc));
        let voice = Voice {
            scribe,
            chain,
            member: self.member,
        };
        let (voice, result) = step_with(node, voice, work);
        match voice {
            Some(voice) => {
                let Voice { scribe, chain, .. } = voice;
                self.chain = chain;
                (Some(scribe), result)
            }
            None => (None, result),
        }
    }
}

// Takes a step of a node with a voice lent to it, which comes back; where the keeper lost it the node is down.
fn step_with<K: Announces>(
    node: &mut Node<K>,
    voice: Voice<K::Journal>,
    work: Work,
) -> (Option<Voice<K::Journal>>, Result<Out, Fault>)
where
    K::Image: Drop,
    requires up { node.old.is_up ≡ true }
    requires links { K.is_honest node.old.keeper → voice.chain.links.items ≡ links_of (member_of node.old).log }
    ensures links { MatchOption result.0 (node.new.is_up ≡ false) (λ v. node.new.is_up ≡ true → K.is_honest node.new.keeper → v.chain.links.items ≡ links_of (member_of node.new).log) }
    ensures group { IsSameSeat node.old node.new }
    ensures honest { K.is_honest node.new.keeper → K.is_honest node.old.keeper }
    ensures steps { K.is_honest node.new.keeper → (y : TheNode) × (IsMember K.may_hold node.new y × StepsTo (tables_of node.old) (members_of node.old) (me_of node.old) work (member_of node.old) y result.1) }
    ensures continues { HasContinued K.Journal.contents voice.scribe (K.is_honest node.new.keeper → (y : TheNode) → IsMember K.may_hold node.new y → durable_of y ≡ durable_of (member_of node.old)) result.0 }
{
    node.keeper.lend(voice);
    let result = node.step(work);
    match node.keeper.take_back() {
        Some(voice) => (Some(voice), result),
        None => {
            node.take_down();
            (None, Err(Fault::Down(StoreError::StoreFault)))
        }
    }
}
