//! Whether what an event gave tells the outcomes that were recorded.
ghost use Rattle.std.specs.Prelude.{◌≡◌, ◌++◌, ◌∷◌, [], ◌↔◌, IsTrue, IfOk, OnOk};
ghost use Rattle.world.specs.View.{output_of, outputs_of};
ghost use Rattle.moments.specs.Behind.{outcomes_in, AreTold};

use flight::flight::Version;
use flight::outcome::Outcome;
use std::alloc::{AllocError, Global};
use world::output::Output;

fn is_same_outcome(one: &Outcome, other: &Outcome) -> bool
    ensures { IsTrue result ↔ (one.now ≡ other.now) }
{
    one.index == other.index
        && one.client.get() == other.client.get()
        && one.number.get() == other.number.get()
        && one.text.as_str() == other.text.as_str()
}

fn are_same_outcomes(some: &[Outcome], others: &[Outcome]) -> bool
    ensures { IsTrue result ↔ (some.now ≡ others.now) }
{
    if some.len() != others.len() {
        return false;
    }
    for (place, outcome) in some.iter().enumerate() {
        if !is_same_outcome(outcome, &others[place]) {
            return false;
        }
    }
    true
}

// Adds what an output tells, if it tells of a request.
fn add_told(alloc: Global, outcomes: &mut Vec<Outcome>, output: &Output) -> Result<(), AllocError>
    ensures { OnOk result (outcomes.new.items ≡ outcomes.old.items ++ outcomes_in (output_of output.now ∷ [])) }
{
    match output {
        Output::Applied(_, told) => {
            outcomes.push(Outcome::of(alloc, told)?)?;
            Ok(())
        }
        _ => Ok(()),
    }
}

// What is told among outputs, as a flight records it.
fn told_in(alloc: Global, outputs: &[Output]) -> Result<Vec<Outcome>, AllocError>
    ensures { IfOk result (λ told. told.items ≡ outcomes_in (outputs_of outputs.now)) }
{
    let mut told = Vec::new(alloc);
    for output in outputs {
        add_told(alloc, &mut told, output)?;
    }
    Ok(told)
}

/// Whether outputs tell these outcomes and no others, in their order. Version 1 records none: there it is so.
pub(crate) fn are_told(
    alloc: Global,
    version: Version,
    outputs: &[Output],
    outcomes: &[Outcome],
) -> Result<bool, AllocError>
    ensures { IfOk result (λ b. IsTrue b ↔ AreTold version (outputs_of outputs.now) outcomes.now) }
{
    match version {
        Version::One => Ok(true),
        Version::Two | Version::Three => {
            let told = told_in(alloc, outputs)?;
            Ok(are_same_outcomes(outcomes, &told))
        }
    }
}
