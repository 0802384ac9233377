//! A printer that notes outputs for a picture.
ghost use Rattle.std.specs.Prelude.{None, ⊤};

use lanes::recorder::Recorder;
use model::message::Message;
use script::printer::Printer;
use script::printing::Printed;
use script::run_fault::RunFault;
use std::alloc::{AllocError, Global};
use world::output::Output;

/// What notes the outputs of a group.
#[derive(Drop)]
pub(crate) struct Pencil {
    pub(crate) alloc: Global,
    pub(crate) recorder: Recorder,
}

impl Pencil {
    // All that a message says is what is printed of it, behind its number and its way.
    fn send(&mut self, output: &Output, message: &Message) -> Result<(), AllocError> {
        let line = Printed(output).to_string(self.alloc)?;
        self.recorder.send(message, after_words(line.as_str(), 3))
    }
}

// What stands behind so many words of a line.
fn after_words(line: &str, count: usize) -> &str {
    let mut rest = line.trim_end();
    for _ in 0..count {
        rest = match rest.split_once(' ') {
            Some((_, after)) => after,
            None => rest,
        };
    }
    rest
}

impl Printer for Pencil {
    ghost printed = { λ pencil. None };

    ghost fails = { λ before error after. ⊤ };

    fn print(&mut self, _alloc: Global, output: &Output) -> Result<(), RunFault> {
        match output {
            Output::Sent(_, message) => self.send(output, message)?,
            Output::Applied(node, told) => self.recorder.tell(*node, told)?,
            Output::Refused(node, refusal) => self.recorder.refuse(*node, refusal)?,
            Output::Answered(node, answer) => {
                self.recorder.answer(*node, answer.rows.len(), answer.last)?
            }
        }
        Ok(())
    }
}
