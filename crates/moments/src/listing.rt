//! The moments as they are listed: node by node, its openings and steps, its answers, the ends of its lives.
ghost use Rattle.std.specs.Prelude.{◌≡◌, ◌++◌, ◌+◌, IfOk, OnOk};
ghost use Rattle.flight.specs.Lives.{last_mark};
ghost use Rattle.moments.specs.Moments.{answer_moment, answer_moments, deed_moments, end_moments, life_moments, listed, node_moments, step_moments, stop_moments, stray_moment, stray_moments, IsTimeline};

use crate::moment::{Deed, Moment};
use crate::recorded::Recorded;
use flight::life::{Ending, Life};
use model::member::Member;
use std::alloc::{AllocError, Global};

fn list_life(
    moments: &mut Vec<Moment>,
    node: Member,
    place: usize,
    life: &Life,
) -> Result<(), AllocError>
    ensures { OnOk result (moments.new.items ≡ moments.old.items ++ life_moments node place life.now) }
{
    moments.push(Moment {
        mark: life.opening.mark,
        node,
        deed: Deed::Opens { life: place },
    })?;
    for (step, taken) in life.steps.iter().enumerate() {
        moments.push(Moment {
            mark: taken.mark,
            node,
            deed: Deed::Takes { life: place, step },
        })?;
    }
    if let Ending::Torn(step) = &life.ending {
        moments.push(Moment {
            mark: step.mark,
            node,
            deed: Deed::Tears { life: place },
        })?;
    }
    Ok(())
}

/// Adds what a node does in its lives, in their order. Want of memory leaves a part of it there.
pub fn list_deeds(moments: &mut Vec<Moment>, node: Member, lives: &[Life]) -> Result<(), AllocError>
    ensures { OnOk result (moments.new.items ≡ moments.old.items ++ deed_moments node 0 lives.now) }
{
    for (place, life) in lives.iter().enumerate() {
        list_life(moments, node, place, life)?;
    }
    Ok(())
}

fn list_answer(
    moments: &mut Vec<Moment>,
    node: Member,
    place: usize,
    answer: &Recorded,
) -> Result<(), AllocError>
    ensures { OnOk result (moments.new.items ≡ moments.old.items ++ answer_moment node place answer.now) }
{
    if answer.node == node {
        moments.push(Moment {
            mark: answer.mark,
            node,
            deed: Deed::Answers { answer: place },
        })?;
    }
    Ok(())
}

fn list_answers(
    moments: &mut Vec<Moment>,
    node: Member,
    answers: &[Recorded],
) -> Result<(), AllocError>
    ensures { OnOk result (moments.new.items ≡ moments.old.items ++ answer_moments node 0 answers.now) }
{
    for (place, answer) in answers.iter().enumerate() {
        list_answer(moments, node, place, answer)?;
    }
    Ok(())
}

fn list_end(
    moments: &mut Vec<Moment>,
    node: Member,
    place: usize,
    life: &Life,
) -> Result<(), AllocError>
    ensures { OnOk result (moments.new.items ≡ moments.old.items ++ end_moments node place (last_mark life.now) life.now.ending) }
{
    match life.ending {
        Ending::Stopped => {
            moments.push(Moment {
                mark: life.last_mark(),
                node,
                deed: Deed::Stops { life: place },
            })?;
            Ok(())
        }
        Ending::Up => Ok(()),
        Ending::Torn(_) => Ok(()),
    }
}

fn list_stops(moments: &mut Vec<Moment>, node: Member, lives: &[Life]) -> Result<(), AllocError>
    ensures { OnOk result (moments.new.items ≡ moments.old.items ++ stop_moments node 0 lives.now) }
{
    for (place, life) in lives.iter().enumerate() {
        list_end(moments, node, place, life)?;
    }
    Ok(())
}

fn list_node(
    moments: &mut Vec<Moment>,
    answers: &[Recorded],
    node: Member,
    lives: &[Life],
) -> Result<(), AllocError>
    ensures { OnOk result (moments.new.items ≡ moments.old.items ++ node_moments answers.now node lives.now) }
{
    list_deeds(moments, node, lives)?;
    list_answers(moments, node, answers)?;
    list_stops(moments, node, lives)
}

fn list_all(
    alloc: Global,
    lives: &[Vec<Life>],
    answers: &[Recorded],
) -> Result<Vec<Moment>, AllocError>
    ensures { IfOk result (λ moments. moments.items ≡ listed answers.now 1 lives.now) }
{
    let mut moments = Vec::new(alloc);
    for (place, own) in lives.iter().enumerate() {
        list_node(&mut moments, answers, place + 1, own)?;
    }
    Ok(moments)
}

fn list_stray(
    moments: &mut Vec<Moment>,
    members: usize,
    place: usize,
    answer: &Recorded,
) -> Result<(), AllocError>
    ensures { OnOk result (moments.new.items ≡ moments.old.items ++ stray_moment members place answer.now) }
{
    if answer.node == 0 || members < answer.node {
        moments.push(Moment {
            mark: answer.mark,
            node: answer.node,
            deed: Deed::Answers { answer: place },
        })?;
    }
    Ok(())
}

// The answers of nodes that are not there.
fn list_strays(
    moments: &mut Vec<Moment>,
    members: usize,
    answers: &[Recorded],
) -> Result<(), AllocError>
    ensures { OnOk result (moments.new.items ≡ moments.old.items ++ stray_moments members 0 answers.now) }
{
    for (place, answer) in answers.iter().enumerate() {
        list_stray(moments, members, place, answer)?;
    }
    Ok(())
}

/// All moments of what was recorded of a group, in the order in which they are joined: that of marks and, where these are
/// equal, that of nodes; of one node first its opening or its step, then its answers, then the end of its life. Lives are
/// given in the order of the nodes, so the first are those of node 1. What nodes that are not there answered stands after
/// what all others do at its mark.
///
/// The one error is want of memory.
pub fn timeline(
    alloc: Global,
    lives: &[Vec<Life>],
    answers: &[Recorded],
) -> Result<Vec<Moment>, AllocError>
    ensures { IfOk result (λ moments. IsTimeline lives.now answers.now moments.items) }
{
    let mut moments = list_all(alloc, lives, answers)?;
    list_strays(&mut moments, lives.len(), answers)?;
    moments.sort_by_key(|moment| moment.mark.number())?;
    Ok(moments)
}
