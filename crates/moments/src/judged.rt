//! Answers of flights, as an audit takes them.
ghost use Rattle.std.specs.Prelude.{◌≡◌, ◌++◌, map, IfOk, OnOk};
ghost use Rattle.moments.specs.Judged.{judged_of, judged_from};

use crate::recorded::Recorded;
use flight::flight::Answered;
use model::member::Member;
use std::alloc::{AllocError, Global};

// Adds the answers of a node.
fn add_answers(
    judged: &mut Vec<Recorded>,
    node: Member,
    answers: &[Answered],
) -> Result<(), AllocError>
    ensures { OnOk result (judged.new.items ≡ judged.old.items ++ map (judged_of node) answers.now) }
{
    for answer in answers {
        judged.push(Recorded {
            node,
            mark: answer.mark,
            query: answer.query.clone()?,
            answer: answer.answer.clone()?,
        })?;
    }
    Ok(())
}

/// The answers of the flights of all nodes, node by node, as an audit takes them. The one error is want of memory.
pub fn all_answers(alloc: Global, answers: &[Vec<Answered>]) -> Result<Vec<Recorded>, AllocError>
    ensures { IfOk result (λ all. all.items ≡ judged_from 1 answers.now) }
{
    let mut judged = Vec::new(alloc);
    for (at, given) in answers.iter().enumerate() {
        add_answers(&mut judged, at + 1, given.as_slice())?;
    }
    Ok(judged)
}
