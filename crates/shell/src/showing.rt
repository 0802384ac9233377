//! What is printed of what the lines of a run say, in the form that is asked for.
ghost use Rattle.std.specs.Prelude.{◌≡◌, IfOk, string_bytes};
ghost use Rattle.forms.specs.Shown.{beside_of, printed_of};
ghost use Rattle.shell.specs.Showing.{IsBesideIn, IsPrintedIn, TellsIn, unshown};

use crate::pilot::Pilot;
use answer::Answer;
use fault::Refusal;
use forms::{Form, Look, asked_in, outcome_in, output_in};
use lines::line::Line;
use live::Said;
use looks::Asked;
use model::member::Member;
use schema::Schema;
use std::alloc::{AllocError, Global};
use std::sync::Wait;
use world::output::Output;

/// How what is said is shown, and over which tables.
#[derive(Clone, Copy)]
pub(crate) struct Manner<'a> {
    pub(crate) alloc: Global,
    pub(crate) look: Look,
    pub(crate) schema: &'a Schema,
}

/// What is printed, and what is told beside it on standard error.
#[derive(Drop)]
pub(crate) struct Printed {
    pub(crate) text: String,
    pub(crate) beside: String,
}

/// A pilot, and whether an answer was printed of what it played.
pub(crate) struct Showing<P> {
    pub(crate) pilot: P,
    pub(crate) has_answered: bool,
}

// Bytes as a text. Those of tables are ASCII; any that are no text count as want of memory.
pub(crate) fn text_of(bytes: Vec<u8>) -> Result<String, AllocError>
    ensures { IfOk result (λ text. string_bytes text ≡ bytes.items) }
{
    match String::from_utf8(bytes) {
        Ok(text) => Ok(text),
        Err(_) => Err(AllocError),
    }
}

// What is no answer: it is printed, but told beside answers as CSV.
fn line_in(alloc: Global, form: Form, line: Vec<u8>) -> Result<Printed, AllocError>
    ensures text { IfOk result (λ printed. string_bytes printed.text ≡ printed_of form line.items) }
    ensures beside { IfOk result (λ printed. string_bytes printed.beside ≡ beside_of form line.items) }
{
    let line = text_of(line)?;
    let nothing = String::new(alloc);
    match form {
        Form::Csv => Ok(Printed {
            text: nothing,
            beside: line,
        }),
        _ => Ok(Printed {
            text: line,
            beside: nothing,
        }),
    }
}

// An answer to a line's question.
fn answer_in(
    manner: Manner<'_>,
    is_next: bool,
    line: &Line,
    node: Member,
    answer: Answer,
) -> Result<Printed, AllocError>
    ensures text { IfOk result (λ printed. IsPrintedIn manner.entry.look.form is_next (Said.Answered node answer) (string_bytes printed.text)) }
    ensures beside { IfOk result (λ printed. IsBesideIn manner.entry.look.form is_next (Said.Answered node answer) (string_bytes printed.beside)) }
{
    let Manner {
        alloc,
        look,
        schema,
    } = manner;
    let asked = asked_in(alloc, schema, line);
    let answered = Output::Answered(node, answer);
    let text = text_of(output_in(alloc, look, asked, is_next, &answered)?)?;
    let beside = String::new(alloc);
    Ok(Printed { text, beside })
}

// A refusal of a node.
fn refusal_in(
    alloc: Global,
    look: Look,
    is_next: bool,
    node: Member,
    refusal: Refusal,
) -> Result<Printed, AllocError>
    ensures text { IfOk result (λ printed. IsPrintedIn look.form is_next (Said.Refused node refusal) (string_bytes printed.text)) }
    ensures beside { IfOk result (λ printed. IsBesideIn look.form is_next (Said.Refused node refusal) (string_bytes printed.beside)) }
{
    let refused = Output::Refused(node, refusal);
    let line = output_in(alloc, look, Asked::AsOf, is_next, &refused)?;
    line_in(alloc, look.form, line)
}

/// What is printed of what a line says, where it is told whether an answer was printed before. The error is want of memory.
pub(crate) fn printed_in(
    manner: Manner<'_>,
    is_next: bool,
    line: &Line,
    said: Said,
) -> Result<Printed, AllocError>
    ensures text { IfOk result (λ printed. IsPrintedIn manner.entry.look.form is_next said (string_bytes printed.text)) }
    ensures beside { IfOk result (λ printed. IsBesideIn manner.entry.look.form is_next said (string_bytes printed.beside)) }
{
    let (alloc, look) = (manner.alloc, manner.look);
    match said {
        Said::Nothing => Ok(Printed {
            text: String::new(alloc),
            beside: String::new(alloc),
        }),
        Said::Outcome(client, number, outcome) => {
            let line = outcome_in(alloc, look.form, client, number, &outcome)?;
            line_in(alloc, look.form, line)
        }
        Said::Answered(node, answer) => answer_in(manner, is_next, line, node, answer),
        Said::Refused(node, refusal) => refusal_in(alloc, look, is_next, node, refusal),
    }
}

impl Printed {
    /// Whether something of it goes to a terminal, or may, as what is told beside.
    pub(crate) fn is_for_terminal(&self, look: Look) -> bool {
        let is_text_for_one = look.width.is_some() && !self.text.is_empty();
        is_text_for_one || !self.beside.is_empty()
    }
}

impl<P: Pilot> Showing<P> {
    /// A pilot of which nothing was printed yet.
    pub(crate) fn new(pilot: P) -> Showing<P>
        ensures { result ≡ unshown pilot }
    {
        Showing {
            pilot,
            has_answered: false,
        }
    }

    /// Plays a line, and gives what is printed of what it says.
    pub(crate) fn play<R: Wait>(
        &mut self,
        rt: &R,
        manner: Manner<'_>,
        line: &Line,
    ) -> Result<Printed, Refusal>
        ensures { IfOk result (λ printed. TellsIn manner.entry.look.form P.plays self.old line.now (string_bytes printed.text) (string_bytes printed.beside) self.new) }
    {
        let said = self.pilot.play(rt, line)?;
        let is_next = self.has_answered;
        self.has_answered = is_next || said.is_answer();
        Ok(printed_in(manner, is_next, line, said)?)
    }
}
