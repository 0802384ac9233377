//! Outcomes and answers, in the form that is asked for.
ghost use Rattle.std.specs.Prelude.{◌≡◌, IfOk};
ghost use Rattle.console.specs.Shown.{outcome_shown, shape_of, told_of as what_is_told};
ghost use Rattle.forms.specs.Shown.{IsOutputIn};
ghost use Rattle.world.specs.declared.output.Output.TheVariants.{Answered};

use answer::Answer;
use fault::Refusal;
use forms::{Look, outcome_in, output_in};
use looks::Asked;
use model::member::Member;
use model::request::{Client, RequestNumber};
use model::stamp::Stamp;
use std::alloc::{AllocError, Global};
use store::Outcome;
use storecommands::dot::Form;
use world::output::Output;

/// How answers and outcomes are shown.
#[derive(Clone, Copy, PartialEq, Eq, Debug)]
pub(crate) struct Manner {
    pub form: Form,
    /// Whether somebody sits at a terminal, to whom outcomes that are known are shown without client and number.
    pub is_terminal: bool,
    /// How many columns a table may have; none for any number.
    pub width: Option<usize>,
}

// A form, as all outputs have it.
fn shape(form: Form) -> forms::Form
    ensures { result ≡ shape_of form }
{
    match form {
        Form::Table => forms::Form::Table,
        Form::Lines => forms::Form::Lines,
        Form::Csv => forms::Form::Csv,
        Form::Json => forms::Form::Json,
    }
}

/// A member's answer in the form that is asked for. One that comes after another is told so.
pub(crate) fn shown_answer(
    alloc: Global,
    manner: Manner,
    is_next: bool,
    member: Member,
    answer: Answer,
    asked: Asked,
) -> Result<Vec<u8>, AllocError>
    ensures { IfOk result (λ text. IsOutputIn (shape_of manner.form) is_next (Answered member answer) text.items) }
{
    let look = Look {
        form: shape(manner.form),
        is_quiet: false,
        width: manner.width,
    };
    output_in(
        alloc,
        look,
        asked,
        is_next,
        &Output::Answered(member, answer),
    )
}

// What was told, as all outputs have it.
fn told_of(outcome: Outcome) -> Option<Result<Stamp, Refusal>>
    ensures { result ≡ what_is_told outcome }
{
    match outcome {
        Outcome::Accepted(stamp) => Some(Ok(stamp)),
        Outcome::Refused(refusal) => Some(Err(refusal)),
        Outcome::Unanswered => None,
    }
}

/// An outcome in the form that is asked for: at a terminal without its client and number, unless it is not known or shown as an object.
pub(crate) fn shown_outcome(
    alloc: Global,
    manner: Manner,
    client: Client,
    number: RequestNumber,
    outcome: Outcome,
) -> Result<Vec<u8>, AllocError>
    ensures { IfOk result (λ text. text.items ≡ outcome_shown manner.form manner.is_terminal client number outcome) }
{
    let is_known = !matches!(outcome, Outcome::Unanswered);
    if manner.is_terminal && is_known && manner.form != Form::Json {
        let line = format!(in alloc; "{outcome}\n")?;
        return Ok(line.into_bytes());
    }
    let told = told_of(outcome);
    outcome_in(alloc, shape(manner.form), client, number, &told)
}
