//! The messages of a run, with the marks at which they were sent.
ghost use Rattle.std.specs.Prelude.{◌≡◌, ◌↔◌, ◌<◌, ◌+◌, ◌++◌, ◌∷◌, [], ℕ, false, length, slice_get, IfSome, IfNone, IsTrue, OnOk, Some};
ghost use Rattle.model.specs.Lists.{nth};
ghost use Rattle.world.specs.Run.{now_of};
ghost use Rattle.moments.specs.Past.{IsSent};
ghost use Rattle.moments.specs.Posts.{messages_in, past_with, posted, IsSentThen};

use crate::same::is_same_message;
use model::mark::Mark;
use model::member::Member;
use model::message::Message;
use std::alloc::AllocError;
use world::history::World;
use world::output::Output;

// Adds the mark of the message of an output, if it is one.
fn post_one(marks: &mut Vec<Mark>, mark: Mark, output: &Output) -> Result<(), AllocError>
    ensures { OnOk result (marks.new.items ≡ marks.old.items ++ posted mark (messages_in (output.now ∷ []))) }
{
    match output {
        Output::Sent(_, _) => {
            marks.push(mark)?;
            Ok(())
        }
        _ => Ok(()),
    }
}

/// Adds the mark of each message among outputs, which were sent at this mark.
pub(crate) fn post_all(
    marks: &mut Vec<Mark>,
    mark: Mark,
    outputs: &[Output],
) -> Result<(), AllocError>
    ensures { OnOk result (marks.new.items ≡ marks.old.items ++ posted mark (messages_in outputs.now)) }
{
    for output in outputs {
        post_one(marks, mark, output)?;
    }
    Ok(())
}

// Whether this is the message that was sent as this one, counted from 1.
fn is_sent_as(world: &World, number: usize, message: &Message) -> bool
    requires { world.now.is_spent ≡ false }
    ensures { IsTrue result ↔ (nth (now_of world.now).sent number ≡ Some message.now) }
{
    match world.message(number) {
        Some(sent) => is_same_message(sent, message),
        None => false,
    }
}

// The number of the mark at this place.
fn mark_at(marks: &[Mark], place: usize) -> u64
    requires { place < length marks.now }
    ensures { slice_get marks.now place ≡ Some result }
{
    marks[place].number()
}

// Whether the message at this place, counted from 0, is this one, and was sent at this mark.
#[tactic(auto, using(crate::proofs::Posting::other_mark, crate::proofs::Posting::then_is))]
fn is_sent_then(world: &World, marks: &[Mark], place: usize, mark: Mark, message: &Message) -> bool
    requires live { world.now.is_spent ≡ false }
    requires place { place < length marks.now }
    ensures { IsTrue result ↔ IsSentThen (past_with world.now marks.now) mark message.now (place + 1) }
{
    if mark_at(marks, place) != mark.number() {
        return false;
    }
    is_sent_as(world, place + 1, message)
}

// Which message this is, of those sent at this mark, counted from 1 among all. Marks do not fall from one message to
// the next, so those of the mark are found by halves.
fn number_near(world: &World, marks: &[Mark], mark: Mark, message: &Message) -> Option<usize>
    requires { world.now.is_spent ≡ false }
    ensures { IfSome result (IsSentThen (past_with world.now marks.now) mark message.now) }
{
    let first = marks.partition_point(|sent| sent.number() < mark.number());
    for place in first..marks.len() {
        if mark_at(marks, place) > mark.number() {
            return None;
        }
        if is_sent_then(world, marks, place, mark, message) {
            return Some(place + 1);
        }
    }
    None
}

// The same, looked for among all.
#[tactic(auto, using(crate::proofs::Posting::none_among))]
fn number_among(world: &World, marks: &[Mark], mark: Mark, message: &Message) -> Option<usize>
    requires { world.now.is_spent ≡ false }
    ensures some { IfSome result (IsSentThen (past_with world.now marks.now) mark message.now) }
    ensures none { IfNone result ((k : ℕ) → IsSentThen (past_with world.now marks.now) mark message.now k → ⊥) }
{
    for place in 0..marks.len() {
        if is_sent_then(world, marks, place, mark, message) {
            return Some(place + 1);
        }
    }
    None
}

/// Which message this is, of those sent to the node at this mark, counted from 1 among all: each of them has the mark at
/// its place. Before it answers none it has looked at all.
#[tactic(auto, using(crate::proofs::Posting::sent_to, crate::proofs::Posting::none_to, crate::proofs::Posting::to_another))]
pub(crate) fn number_of(
    world: &World,
    marks: &[Mark],
    mark: Mark,
    node: Member,
    message: &Message,
) -> Option<usize>
    requires { world.now.is_spent ≡ false }
    ensures some { IfSome result (IsSent (past_with world.now marks.now) mark node message.now) }
    ensures none { IfNone result ((k : ℕ) → IsSent (past_with world.now marks.now) mark node message.now k → ⊥) }
{
    if message.addressee != node {
        return None;
    }
    match number_near(world, marks, mark, message) {
        Some(number) => Some(number),
        None => number_among(world, marks, mark, message),
    }
}
