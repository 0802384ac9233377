//! Outcomes, each told once.
ghost use Rattle.std.specs.Prelude.{◌≡◌, IfOk};
ghost use Rattle.adopt.specs.Lines.{first_told, noted_with};

use flight::outcome::Outcome;
use std::alloc::{AllocError, Global};

fn copy_of(outcome: &Outcome) -> Result<Outcome, AllocError>
    ensures { IfOk result (λ copy. copy ≡ outcome.now) }
{
    Ok(Outcome {
        index: outcome.index,
        client: outcome.client,
        number: outcome.number,
        text: outcome.text.clone()?,
    })
}

/// The outcomes of entries past this one.
pub(crate) fn first_told(
    alloc: Global,
    noted: usize,
    outcomes: &[Outcome],
) -> Result<Vec<Outcome>, AllocError>
    ensures { IfOk result (λ first. first.items ≡ first_told noted outcomes.now) }
{
    let mut first = Vec::new(alloc);
    for outcome in outcomes {
        if noted < outcome.index {
            first.push(copy_of(outcome)?)?;
        }
    }
    Ok(first)
}

/// Up to which entry outcomes were told with these.
pub(crate) fn noted_with(noted: usize, outcomes: &[Outcome]) -> usize
    ensures { result ≡ noted_with noted outcomes.now }
{
    let mut most = noted;
    for outcome in outcomes {
        most = most.max(outcome.index);
    }
    most
}
