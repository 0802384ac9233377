//! A request on its way to the node that takes it.
ghost use Rattle.std.specs.Prelude.{◌≡◌, ◌≢◌, ◌≤◌, ◌<◌, ◌+◌, ◌⊎◌, ℕ, true, false, Some, None, Err, IfOk, OnOk};
ghost use Rattle.fault.specs.declared.refusal.Refusal.TheVariants.{NotLeader, NodeDown, LifeFull, NoMemory};
ghost use Rattle.model.specs.declared.message.Input.TheVariants.{Submit};
ghost use Rattle.live.specs.Errands.{next_of, IsToldOf};

use fault::{Refusal, Text};
use model::entry::{Request, Told};
use model::member::Member;
use model::message::Input;
use model::stamp::Stamp;
use std::alloc::AllocError;

/// How many rounds a request waits for its outcome before it goes to the next node.
pub const PATIENCE: u8 = 50;

/// A client's request, the node to which it went last or goes next, and its outcome once that is known.
#[derive(Debug, Drop)]
pub struct Errand {
    request: Request,
    /// The entries up to here were told of before.
    after: usize,
    /// Where it goes.
    pub to: Member,
    /// Whether it is to go there in the next round.
    pub is_due: bool,
    waited: u8,
    pub outcome: Option<Result<Stamp, Refusal>>,
}

/// The node after this one, in a group of so many; after the last comes the first.
pub fn next_node(node: Member, members: usize) -> Member
    requires { 1 ≤ members }
    ensures { result ≡ next_of members node }
{
    if node < members { node + 1 } else { 1 }
}

/// Whether a node that refuses a request so decides on it. One that does not lead, is down, or has no room or memory
/// does not.
pub fn decides(refusal: &Refusal) -> bool
    ensures passes { (node : _) → refusal.now ≡ NotLeader node → result ≡ false }
    ensures fails { (refusal.now ≡ NodeDown) ⊎ (refusal.now ≡ LifeFull) ⊎ (refusal.now ≡ NoMemory) → result ≡ false }
{
    !matches!(
        refusal,
        Refusal::NotLeader(_) | Refusal::NodeDown | Refusal::LifeFull | Refusal::NoMemory
    )
}

impl Errand {
    /// A request that goes to this node first. Entries up to `after` were told of before.
    pub fn new(to: Member, request: Request, after: usize) -> Errand
        ensures new { (result.request ≡ request) × (result.after ≡ after) }
        ensures due { (result.to ≡ to) × (result.is_due ≡ true) × (result.outcome ≡ None) }
    {
        Errand {
            request,
            after,
            to,
            is_due: true,
            waited: 0,
            outcome: None,
        }
    }

    /// What the node is handed at this reading of its clock. The error is want of memory.
    pub fn input(&mut self, reading: i64) -> Result<Input, AllocError>
        ensures input { IfOk result (λ input. input ≡ Submit reading self.old.request) }
        ensures sent { OnOk result (self.new.is_due ≡ false) }
        ensures same { (self.new.request ≡ self.old.request) × (self.new.to ≡ self.old.to) × (self.new.outcome ≡ self.old.outcome) }
    {
        let request = self.request.clone()?;
        self.is_due = false;
        self.waited = 0;
        Ok(Input::Submit { reading, request })
    }

    /// Goes to this node in the next round.
    pub fn go(&mut self, to: Member)
        ensures goes { (self.new.to ≡ to) × (self.new.is_due ≡ true) }
        ensures same { (self.new.request ≡ self.old.request) × (self.new.after ≡ self.old.after) × (self.new.outcome ≡ self.old.outcome) }
    {
        self.to = to;
        self.is_due = true;
        self.waited = 0;
    }

    /// The node to which it went refuses it: where that decides on it, that is its outcome, unless it has one. Else it goes
    /// to the leader that the refusal names, or to the next node.
    pub fn refused(&mut self, refusal: Refusal, members: usize)
        requires { 1 ≤ members }
        ensures hint { (node : ℕ) → refusal ≡ NotLeader (Some node) → (self.new.to ≡ node) × (self.new.is_due ≡ true) × (self.new.outcome ≡ self.old.outcome) }
        ensures next { (refusal ≡ NotLeader None) ⊎ (refusal ≡ NodeDown) → (self.new.to ≡ next_of members self.old.to) × (self.new.is_due ≡ true) × (self.new.outcome ≡ self.old.outcome) }
        ensures same { (self.new.request ≡ self.old.request) × (self.new.after ≡ self.old.after) }
    {
        if decides(&refusal) {
            self.decided(Err(refusal));
            return;
        }
        match refusal {
            Refusal::NotLeader(Some(hint)) => self.go(hint),
            _ => self.go(next_node(self.to, members)),
        }
    }

    // The first outcome stays.
    fn decided(&mut self, outcome: Result<Stamp, Refusal>)
        ensures first { self.old.outcome ≡ None → self.new.outcome ≡ Some outcome }
        ensures later { self.old.outcome ≢ None → self.new.outcome ≡ self.old.outcome }
        ensures same { (self.new.request ≡ self.old.request) × (self.new.after ≡ self.old.after) × (self.new.to ≡ self.old.to) × (self.new.is_due ≡ self.old.is_due) }
    {
        if self.outcome.is_none() {
            self.outcome = Some(outcome);
        }
    }

    /// A node tells of an applied request: of this one it is the outcome, unless it has one. The error is want of memory.
    pub fn hear(&mut self, told: &Told) -> Result<(), AllocError>
        ensures heard { OnOk result (IsToldOf self.old told.now → self.old.outcome ≡ None → self.new.outcome ≡ Some told.now.outcome) }
        ensures later { self.old.outcome ≢ None → self.new.outcome ≡ self.old.outcome }
        ensures unheard { (IsToldOf self.old told.now → ⊥) → self.new.outcome ≡ self.old.outcome }
        ensures same { (self.new.request ≡ self.old.request) × (self.new.after ≡ self.old.after) × (self.new.to ≡ self.old.to) × (self.new.is_due ≡ self.old.is_due) }
    {
        if told.index <= self.after
            || told.client != self.request.client
            || told.number != self.request.number
        {
            return Ok(());
        }
        let outcome = match &told.outcome {
            Ok(stamp) => Ok(*stamp),
            Err(refusal) => Err(refusal.clone()?),
        };
        self.decided(outcome);
        Ok(())
    }

    /// A round ends: after fifty without an outcome it goes to the next node.
    pub fn end_round(&mut self, members: usize)
        requires { 1 ≤ members }
        ensures waits { self.old.waited + 1 < 50 → (self.new.to ≡ self.old.to) × (self.new.is_due ≡ self.old.is_due) }
        ensures goes { self.old.is_due ≡ false → 50 ≤ self.old.waited + 1 → (self.new.to ≡ next_of members self.old.to) × (self.new.is_due ≡ true) }
        ensures same { (self.new.request ≡ self.old.request) × (self.new.after ≡ self.old.after) × (self.new.outcome ≡ self.old.outcome) }
    {
        if self.is_due {
            return;
        }
        self.waited = self.waited.saturating_add(1);
        if self.waited >= PATIENCE {
            self.go(next_node(self.to, members));
        }
    }
}
