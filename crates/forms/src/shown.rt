//! A printer that shows outputs in a form, and counts what is refused.
ghost use Rattle.std.specs.Prelude.{None, ⊤, IfErr};
ghost use Rattle.script.specs.Faults.{IsPlayFault};

use crate::form::{Form, Look};
use crate::tally::Tally;
use crate::texts::output_in;
use lines::line::Line;
use looks::Asked;
use script::printer::Printer;
use script::run_fault::RunFault;
use std::alloc::Global;
use std::io;
use world::output::Output;

// What the line that is played asks for.
#[derive(Clone, Copy)]
enum Purpose {
    // Of a client, with its number.
    Request(u16, u64),
    Question(Asked),
    Other,
}

/// What shows outputs in a form: on one writer, and what is beside an answer's CSV on another.
#[derive(Drop)]
pub struct Shown<W: io::Write + Drop, E: io::Write + Drop> {
    alloc: Global,
    look: Look,
    writer: W,
    beside: E,
    purpose: Purpose,
    has_answered: bool,
    tally: Tally,
}

impl<W: io::Write + Drop, E: io::Write + Drop> Shown<W, E> {
    /// Shows outputs so on the first writer. What is no answer goes to the second one where answers are CSV.
    pub fn new(alloc: Global, look: Look, writer: W, beside: E) -> Shown<W, E> {
        Shown {
            alloc,
            look,
            writer,
            beside,
            purpose: Purpose::Other,
            has_answered: false,
            tally: Tally::new(alloc),
        }
    }

    /// That the outputs from now on are those of this line. A question asks about instants up to one where it is said so.
    pub fn begin(&mut self, line: &Line, asked: Asked) {
        self.purpose = match line {
            Line::Submit { client, number, .. } => Purpose::Request(client.get(), number.get()),
            Line::Ask { .. } => Purpose::Question(asked),
            _ => Purpose::Other,
        };
    }

    /// What was refused.
    pub fn into_tally(self) -> Tally {
        let Shown {
            alloc: _,
            look: _,
            writer: _,
            beside: _,
            purpose: _,
            has_answered: _,
            tally,
        } = self;
        tally
    }

    /// Hands on all that was shown.
    pub fn flush(&mut self) -> io::Result<()> {
        self.writer.flush()?;
        self.beside.flush()
    }

    fn count(&mut self, output: &Output) -> Result<(), RunFault>
        ensures { IfErr result IsPlayFault }
    {
        match output {
            Output::Sent(_, _) => {}
            Output::Applied(_, told) => {
                self.tally.note_request(
                    told.client.get(),
                    told.number.get(),
                    told.outcome.is_err(),
                )?;
            }
            Output::Answered(_, _) => self.tally.note_question(false),
            Output::Refused(_, _) => self.count_refused()?,
        }
        Ok(())
    }

    fn count_refused(&mut self) -> Result<(), RunFault>
        ensures { IfErr result IsPlayFault }
    {
        match self.purpose {
            Purpose::Request(client, number) => self.tally.note_request(client, number, true)?,
            Purpose::Question(_) => self.tally.note_question(true),
            Purpose::Other => self.tally.note_refused_line(),
        }
        Ok(())
    }

    fn show(&mut self, output: &Output) -> Result<(), RunFault>
        ensures { IfErr result IsPlayFault }
    {
        let (look, asked, is_next) = (self.look, self.asked(), self.has_answered);
        let text = output_in(self.alloc, look, asked, is_next, output)?;
        let is_answer = matches!(output, Output::Answered(_, _));
        if look.form == Form::Csv && !is_answer {
            self.beside.write_all(text.as_slice())?;
        } else {
            self.writer.write_all(text.as_slice())?;
        }
        self.has_answered = is_next || is_answer;
        Ok(())
    }

    fn asked(&self) -> Asked {
        match self.purpose {
            Purpose::Question(asked) => asked,
            _ => Asked::AsOf,
        }
    }
}

impl<W: io::Write + Drop, E: io::Write + Drop> Printer for Shown<W, E> {
    ghost printed = { λ shown. None };

    ghost fails = { λ before error after. ⊤ };

    fn print(&mut self, _alloc: Global, output: &Output) -> Result<(), RunFault> {
        self.count(output)?;
        match output {
            Output::Sent(_, _) if self.look.is_quiet => Ok(()),
            output => self.show(output),
        }
    }
}
