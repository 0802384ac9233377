//! Wrong bodies that no contract here lets through: functions that do nothing but call what they speak of.
ghost use Rattle.std.specs.Prelude.{◌≡◌, ◌<◌, ◌+◌, ◌++◌, ◌∷◌, [], ℕ, Some, None, Err, true, false, length, IfOk, IfErr, OnOk};
ghost use Rattle.fault.specs.declared.refusal.Refusal.TheVariants.{LifeFull};
ghost use Rattle.model.specs.Members.{is_leader};
ghost use Rattle.node.specs.View.{IsKept};
ghost use Rattle.node.specs.Member.{member_of};
ghost use Rattle.node.specs.declared.node.Fault.TheVariants as faults;
ghost use Rattle.view.specs.Publishing.{pending};
ghost use Rattle.flight.specs.Lives.{all_steps, mark_for, step_of, told_step};

use crate::cell::{Cell, Out};
use crate::locked::{LockedNode, Naming};
use crate::publishing::note;
use flight::life::Packet;
use flight::outcome::Outcomes;
use keep::StoreError;
use keep::keeper::Keeper;
use model::mark::Mark;
use model::message::Input;
use node::{Fault, Out as NodeOut};
use std::alloc::Global;
use std::sync::Wait;
use std::sync::ledger::Share;
use view::Publisher;

/// A function that records a step with another packet or reading, or none, or refuses 42 where a mark is left, does not meet the contract of `Cell::feed`.
fn records_another_step<R: Wait, K: Keeper>(
    cell: &mut Cell<K>,
    rt: &R,
    reading: i64,
    packet: Packet,
) -> Result<Out, Fault>
    requires up { cell.old.node.is_up ≡ true }
    ensures recorded { IfOk result (λ out. cell.new.life.steps.items ≡ cell.old.life.steps.items ++ told_step out.given.told.items (step_of out.mark reading packet) ∷ []) }
    ensures full { (mark : ℕ) → mark_for cell.old.life packet ≡ Some mark → result ≡ Err (faults.Kept LifeFull) → cell.new.life.steps.items ≡ cell.old.life.steps.items ++ step_of mark reading packet ∷ [] }
{
    cell.feed(rt, reading, packet)
}

/// A function by which a beat to a member that does not lead takes the cell down does not meet the contract of `Cell::feed`.
fn goes_down_of_a_beat<R: Wait, K: Keeper>(
    cell: &mut Cell<K>,
    rt: &R,
    reading: i64,
) -> Result<Out, Fault>
    requires follows { is_leader (member_of cell.old.node).role ≡ false }
    ensures { K.is_honest cell.new.node.keeper → IfErr result IsKept }
{
    cell.feed(rt, reading, Packet::Local(Input::Beat))
}

/// A function that records a step with another packet or reading, or lets a share rise without a step, does not meet the contract of `LockedNode::feed`.
fn locks_another_step<R: Wait, K: Keeper, L: Naming>(
    locked: &mut LockedNode<K, L>,
    rt: &R,
    share: &mut Share<L>,
    reading: i64,
    packet: Packet,
) -> Result<Out, Fault>
    requires { 0 < share.old.parts }
    ensures recorded { IfOk result (λ out. locked.new.cell.life.steps.items ≡ locked.old.cell.life.steps.items ++ told_step out.given.told.items (step_of out.mark reading packet) ∷ []) }
    ensures counted { length (all_steps locked.new.cell.life) ≡ length (all_steps locked.old.cell.life) → share.new.amount ≡ share.old.amount }
{
    locked.feed(rt, share, reading, packet)
}

/// A function that leaves an entry that became applied out of what is to be published does not meet the contract of `note`.
fn notes_fewer(
    alloc: Global,
    publisher: &mut Publisher,
    mark: Mark,
    given: &NodeOut,
) -> Result<Outcomes, StoreError>
    requires { given.now.sealed ≡ None }
    ensures { OnOk result (length (pending publisher.new) ≡ length (pending publisher.old) + length given.now.applied.items) }
{
    note(alloc, publisher, mark, given)
}
