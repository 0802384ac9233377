//! What a member has applied, for who keeps a copy of it.
ghost use Rattle.std.specs.Prelude.{◌≡◌, ◌≢◌, ◌-◌, ◌+◌, ◌<◌, ℕ, true, false, None, Some, length, slice_get, slice_range, IsErr, IsSome, IfOk, IfErr, IfSome, OnOk, OnSome, MatchBool, MatchOption, if◌then◌else◌};
ghost use Rattle.std.specs.Option.{ForSome};
ghost use Rattle.keep.specs.Durable.{Durable};
ghost use Rattle.model.specs.Members.{Node as TheNode};
ghost use Rattle.node.specs.Member.{me_of, member_of, IsSameSeat};
ghost use Rattle.node.specs.View.{durable_of};
ghost use Rattle.sqlchecks.specs.Columns.{Tables};
ghost use Rattle.store.specs.Applied.{IsKept, IsSince, SaysDown, found};
ghost use Rattle.store.specs.Chains.{links_of};
ghost use Rattle.store.specs.Going.{GoesOn, Stops};
ghost use Rattle.store.specs.Journals.{IsSpent};

use crate::announcing::Announces;
use crate::chain::Chain;
use crate::refusal::StoreRefusal;
use crate::seat::Seat;
use crate::store::Store;
use fault::Refusal;
use model::entry::Entry;
use model::member::Member;
use model::stamp::Stamp;
use node::{Fault, Node};
use std::alloc::Global;

/// What a member has applied after the first entries of its log.
#[derive(Debug, Drop)]
pub struct Since {
    /// How many entries it has applied in all.
    pub applied: usize,
    /// Those of them that come after the first ones, in the order of the log.
    pub entries: Vec<Entry>,
    /// Up to which instant it answers; none where it answers nothing.
    pub closed: Option<Stamp>,
    /// The digest of the first ones, as journals have it; of all where the log has fewer.
    pub digest: [u8; 32],
}

// The entry of a node that is up that has so many before it. Where its store failed the node is down.
#[tactic(auto, using(crate::proofs::Ranges::nth_next))]
fn entry_at<K: Announces>(node: &mut Node<K>, place: usize) -> Result<Entry, StoreRefusal>
where
    K::Image: Drop,
    requires up { node.old.is_up ≡ true }
    requires place { place < usize.MAX }
    ensures entry { IfOk result (λ entry. K.is_honest node.new.keeper → slice_get (member_of node.old).log place ≡ Some entry) }
    ensures up { OnOk result (node.new.is_up ≡ true) }
    ensures member { node.new.is_up ≡ true → K.is_honest node.new.keeper → member_of node.new ≡ member_of node.old }
    ensures honest { K.is_honest node.new.keeper → K.is_honest node.old.keeper }
    ensures me { me_of node.new ≡ me_of node.old }
    ensures group { IsSameSeat node.old node.new }
    ensures held { (d : Durable) → K.may_hold node.new.keeper d → d ≡ durable_of (member_of node.old) }
    ensures why { IfErr result (λ refusal. SaysDown refusal → ⊥) }
{
    match node.entry(place + 1) {
        Ok(Some(entry)) => Ok(entry),
        Ok(None) => Err(StoreRefusal::Refused(Refusal::StoreFault)),
        Err(Fault::Kept(refusal)) => Err(StoreRefusal::Refused(refusal)),
        Err(Fault::Down(error)) => Err(StoreRefusal::from(error)),
    }
}

// The entries of a node that is up after the first so many, up to its commit index. Where its store failed the node is down.
#[tactic(auto, using(crate::proofs::Ranges::range_next, crate::proofs::Ranges::range_none))]
fn entries_after<K: Announces>(
    alloc: Global,
    node: &mut Node<K>,
    after: usize,
    commit: usize,
) -> Result<Vec<Entry>, StoreRefusal>
where
    K::Image: Drop,
    requires up { node.old.is_up ≡ true }
    ensures entries { IfOk result (λ entries. K.is_honest node.new.keeper → entries.items ≡ slice_range (member_of node.old).log after commit) }
    ensures up { OnOk result (node.new.is_up ≡ true) }
    ensures member { node.new.is_up ≡ true → K.is_honest node.new.keeper → member_of node.new ≡ member_of node.old }
    ensures honest { K.is_honest node.new.keeper → K.is_honest node.old.keeper }
    ensures me { me_of node.new ≡ me_of node.old }
    ensures group { IsSameSeat node.old node.new }
    ensures down { node.new.is_up ≡ false → K.is_honest node.new.keeper → (d : Durable) → K.may_hold node.new.keeper d → d ≡ durable_of (member_of node.old) }
    ensures why { IfErr result (λ refusal. SaysDown refusal → ⊥) }
{
    let mut entries = Vec::new(alloc);
    if commit <= after {
        return Ok(entries);
    }
    for place in after..commit {
        let entry = entry_at(node, place)?;
        entries.push(entry)?;
    }
    Ok(entries)
}

// What a node that is up has applied after the first so many entries. The chain is that of its log. Where its store failed the node is down.
#[tactic(auto, using(crate::proofs::Ranges::digest_first))]
fn since_of<K: Announces>(
    alloc: Global,
    node: &mut Node<K>,
    chain: &Chain,
    after: usize,
) -> Result<Since, StoreRefusal>
where
    K::Image: Drop,
    requires up { node.old.is_up ≡ true }
    requires linked { K.is_honest node.old.keeper → chain.now.links.items ≡ links_of (member_of node.old).log }
    ensures since { IfOk result (λ since. IsSince K.is_honest node.new after since) }
    ensures member { node.new.is_up ≡ true → K.is_honest node.new.keeper → K.is_honest node.old.keeper × (member_of node.new ≡ member_of node.old) }
    ensures me { me_of node.new ≡ me_of node.old }
    ensures honest { K.is_honest node.new.keeper → K.is_honest node.old.keeper }
    ensures group { IsSameSeat node.old node.new }
    ensures down { node.new.is_up ≡ false → K.is_honest node.new.keeper → (d : Durable) → K.may_hold node.new.keeper d → d ≡ durable_of (member_of node.old) }
    ensures why { IfErr result (λ refusal. SaysDown refusal → ⊥) }
{
    let applied = node.commit().unwrap_or(0);
    let closed = node.closed_time();
    let digest = chain.digest_at(after);
    let entries = entries_after(alloc, node, after, applied)?;
    Ok(Since {
        applied,
        entries,
        closed,
        digest,
    })
}

impl<K: Announces> Seat<K>
where
    K::Image: Drop,
{
    ghost use Rattle.runlaws.specs.Going.{after_stop};
    ghost use Rattle.store.specs.Seats.{HasMember, IsClean};

    // Whether it has a node that is up.
    fn is_running(&self) -> bool
        ensures { MatchBool result (MatchOption self.now.node ⊥ (λ n. n.is_up ≡ true)) (ForSome self.now.node (λ n. n.is_up ≡ false)) }
    {
        match &self.node {
            Some(node) => node.is_up,
            None => false,
        }
    }

    // What its node, which is up, has applied after the first so many entries.
    fn applied_since(&mut self, after: usize) -> Result<Since, StoreRefusal>
        requires { MatchOption self.old.node ⊥ (λ n. n.is_up ≡ true) }
        ensures since { IfOk result (λ since. MatchOption self.new.node ⊥ (λ n. IsSince K.is_honest n after since)) }
        ensures kept { OnOk result (IsKept K.is_honest self.old.node self.new.node) }
        ensures why { IfErr result (λ refusal. SaysDown refusal → ⊥) }
        ensures there { IsSome self.new.node }
        ensures clean { IsClean K.is_honest K.holds self.new → IsClean K.is_honest K.holds self.old }
        ensures reads { IsClean K.is_honest K.holds self.new → (tables : Tables) (n m : ℕ) (x : TheNode) → HasMember K.may_hold K.holds tables n m self.old x → MatchOption self.new.node ⊥ (λ node. HasMember K.may_hold K.holds tables n m self.new (if node.is_up then x else after_stop x)) }
    {
        match &mut self.node {
            Some(node) => since_of(self.alloc, node, &self.chain, after),
            None => Err(StoreRefusal::Refused(Refusal::StoreFault)),
        }
    }

    // Whether its node is down, and nobody took notice of it yet.
    fn has_failed(&self) -> bool
        ensures { MatchBool result (MatchOption self.now.node ⊥ (λ n. n.is_up ≡ false)) (ForSome self.now.node (λ n. n.is_up ≡ true)) }
    {
        match &self.node {
            Some(node) => !node.is_up,
            None => false,
        }
    }
}

impl<K: Announces> Store<K>
where
    K::Image: Drop,
{
    // Whether the member that has so many before it has a node that is up.
    fn is_running(&self, at: usize) -> bool
        requires { at < length self.now.seats.items }
        ensures { MatchBool result (MatchOption (found self.now.seats.items at (λ seat. seat.node)) ⊥ (λ n. n.is_up ≡ true)) (ForSome (found self.now.seats.items at (λ seat. seat.node)) (λ n. n.is_up ≡ false)) }
    {
        self.seats[at].is_running()
    }

    // What the member that has so many before it, and is up, has applied after the first so many entries.
    fn read_since(&mut self, at: usize, after: usize) -> Result<Since, StoreRefusal>
        requires there { at < length self.old.seats.items }
        requires up { MatchOption (found self.old.seats.items at (λ seat. seat.node)) ⊥ (λ n. n.is_up ≡ true) }
        ensures since { IfOk result (λ since. MatchOption (found self.new.seats.items at (λ seat. seat.node)) ⊥ (λ n. IsSince K.is_honest n after since)) }
        ensures kept { OnOk result (IsKept K.is_honest (found self.old.seats.items at (λ seat. seat.node)) (found self.new.seats.items at (λ seat. seat.node))) }
        ensures others { (i : ℕ) → i ≢ at → slice_get self.new.seats.items i ≡ slice_get self.old.seats.items i }
        ensures same { self.new ≡ record self.old { seats = self.new.seats } }
        ensures there { IsSome (found self.new.seats.items at (λ seat. seat.node)) }
        ensures stays { ForSome (found self.new.seats.items at (λ seat. seat.node)) (λ n. n.is_up ≡ true) → GoesOn K.Journal.contents K.is_honest K.may_hold K.holds self.old self.new }
        ensures falls { MatchOption (found self.new.seats.items at (λ seat. seat.node)) ⊥ (λ n. n.is_up ≡ false) → Stops K.is_honest K.may_hold K.holds (at + 1) self.old self.new }
        ensures why { IfErr result (λ refusal. SaysDown refusal → ⊥) }
    {
        let seat = &mut self.seats[at];
        seat.applied_since(after)
    }

    /// What a member has applied after the first `after` entries of its log, and up to which instant it answers; none exactly where it is
    /// not up, or there is no such member. Each entry is read by itself, so it costs what is new. Nothing is changed, but for what the
    /// member's database counts.
    ///
    /// 40 and 43 where an entry can't be read: the member is down then, and the journal says so. 43 for want of memory otherwise. 38, 40
    /// and 43 where the journal can't be written; of a store that was spent before nothing changes then.
    #[tactic(auto, using(crate::proofs::Going::stays))]
    pub fn applied_since(
        &mut self,
        member: Member,
        after: usize,
    ) -> Result<Option<Since>, StoreRefusal>
        ensures since { IfOk result (λ r. IfSome r (λ since. (0 < member) × MatchOption (found self.new.seats.items (member - 1) (λ seat. seat.node)) ⊥ (λ n. IsSince K.is_honest n after since))) }
        ensures none { IfOk result (λ r. r ≡ None → (self.new ≡ self.old) × (0 < member → ForSome (found self.old.seats.items (member - 1) (λ seat. seat.node)) (λ n. n.is_up ≡ false))) }
        ensures kept { IfOk result (λ r. OnSome r (IsKept K.is_honest (found self.old.seats.items (member - 1) (λ seat. seat.node)) (found self.new.seats.items (member - 1) (λ seat. seat.node)))) }
        ensures others { (i : ℕ) → i ≢ member - 1 → slice_get self.new.seats.items i ≡ slice_get self.old.seats.items i }
        ensures same { OnOk result (self.new ≡ record self.old { seats = self.new.seats }) }
        ensures goes { GoesOn K.Journal.contents K.is_honest K.may_hold K.holds self.old self.new }
        ensures why { IfErr result (λ refusal. SaysDown refusal → ⊥) }
        ensures spent { IsSpent self.old.scribe → IsErr result × (self.new ≡ self.old) }
    {
        self.check()?;
        let Some(at) = self.place_of(member) else {
            return Ok(None);
        };
        if !self.is_running(at) {
            return Ok(None);
        }
        match self.read_since(at, after) {
            Ok(since) => Ok(Some(since)),
            Err(refusal) => {
                if !self.has_failed(at) {
                    return Err(refusal);
                }
                let _ = self.end_now(member);
                Err(refusal)
            }
        }
    }

    // Whether the node of the member that has so many before it is down, and nobody took notice of it yet.
    fn has_failed(&self, at: usize) -> bool
        requires { at < length self.now.seats.items }
        ensures { MatchBool result (MatchOption (found self.now.seats.items at (λ seat. seat.node)) ⊥ (λ n. n.is_up ≡ false)) (ForSome (found self.now.seats.items at (λ seat. seat.node)) (λ n. n.is_up ≡ true)) }
    {
        self.seats[at].has_failed()
    }
}
