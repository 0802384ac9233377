//! What events give.
ghost use Rattle.std.specs.Prelude.{◌≡◌, ◌++◌, ◌∷◌, [], map, IfOk, OnOk};
ghost use Rattle.model.specs.Worlds.{numbered};
ghost use Rattle.model.specs.Worlds.Output.{Applied as ModelApplied};
ghost use Rattle.world.specs.View.{output_of, outputs_of};

use answer::Answer;
use fault::Refusal;
use model::entry::Told;
use model::member::Member;
use model::message::Message;
use std::alloc::{AllocError, Global};

/// What an event gives.
#[derive(Debug, Drop)]
pub enum Output {
    /// A message was sent, the so many-th of all, counted from 1.
    Sent(usize, Message),
    /// A member applied a request, and tells what came of it.
    Applied(Member, Told),
    /// A member refused an input or a question.
    Refused(Member, Refusal),
    /// A member answered a question.
    Answered(Member, Answer),
}

/// Messages with their numbers, after so many.
#[tactic(auto, using(crate::proofs::Numbers::numbered_more, crate::proofs::Numbers::numbered_all))]
pub(crate) fn announce(
    alloc: Global,
    before: usize,
    messages: &[Message],
) -> Result<Vec<Output>, AllocError>
    ensures { IfOk result (λ outs. outputs_of outs.items ≡ numbered before messages.now) }
{
    let mut outs = Vec::new(alloc);
    let mut number = before;
    for message in messages {
        number = match number.checked_add(1) {
            Some(number) => number,
            None => return Err(AllocError),
        };
        outs.push(Output::Sent(number, message.clone()?))?;
    }
    Ok(outs)
}

/// Adds what a member tells.
#[tactic(auto, using(crate::proofs::Numbers::told_more))]
pub(crate) fn apply_all(
    outs: &mut Vec<Output>,
    member: Member,
    told: Vec<Told>,
) -> Result<(), AllocError>
    ensures { OnOk result (outputs_of outs.new.items ≡ outputs_of outs.old.items ++ map (ModelApplied member) told.items) }
{
    for one in told {
        outs.push(Output::Applied(member, one))?;
    }
    Ok(())
}

/// A list of one output.
pub(crate) fn single(alloc: Global, output: Output) -> Result<Vec<Output>, AllocError>
    ensures { IfOk result (λ outs. outs.items ≡ output ∷ []) }
{
    let mut outs = Vec::new(alloc);
    outs.push(output)?;
    Ok(outs)
}

/// What a member refuses, as a list. Want of memory is no output.
pub(crate) fn refused(
    alloc: Global,
    member: Member,
    refusal: Refusal,
) -> Result<Vec<Output>, AllocError>
    ensures { IfOk result
        (λ outs. (outs.items ≡ Output.Refused member refusal ∷ []) × (refusal ≡ Refusal.NoMemory → ⊥)) }
{
    match refusal {
        Refusal::NoMemory => Err(AllocError),
        refusal => single(alloc, Output::Refused(member, refusal)),
    }
}
