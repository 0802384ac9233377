//! The lines of a sitting.
ghost use Rattle.std.specs.Prelude.{◌≡◌, IfOk, IfSome, List, string_bytes, ℕ};
ghost use Rattle.console.specs.Lines.{left_of, IsShortened, IsWhole, is_ended as ends_so};

use crate::gathered::Gathered;
use crate::line_reader::LineReader;
use crate::printing::print;
use crate::session::Session;
use crate::stop::Fault;
use fault::Refusal;
use std::io::Read;
use store::announcing::Announces;
use storecommands::read_dot_command;

// Whether a line is left out: one with blanks alone, or a comment.
fn is_skipped(line: &str) -> bool {
    line.trim().is_empty() || line.starts_with('#')
}

// Whether a line is what other programs take as the wish to leave or for help.
fn is_way_out(line: &str) -> bool {
    matches!(line, "quit" | "exit" | "help" | "?" | "\\q" | "\\h")
}

// Whether a line ends with a semicolon, but for blanks behind it.
fn is_ended(line: &str) -> bool
    ensures { result ≡ ends_so line.now }
{
    let line = line.trim_end().as_bytes();
    let length = line.len();
    length > 0 && line[length - 1] == b';'
}

impl<'a, K: Announces> Session<'a, K>
where
    K::Image: Drop,
{
    // The text whose first line this is: with LF between them, the next lines up to one that ends with a semicolon, or up to the end of
    // the input. Of one that is far too long for a request only the first lines are kept.
    fn whole_text<R: Read + Drop>(
        &mut self,
        rt: &HostRuntime,
        input: &mut LineReader<R>,
        first: &str,
    ) -> Result<String, Fault>
        ensures { IfOk result (λ text. IfSome (left_of R.remaining input.old.reader) (λ xs. (whole : List ℕ) × IsWhole first.now xs whole (left_of R.remaining input.new.reader) × IsShortened whole (string_bytes text))) }
    {
        let mut gathered = Gathered::new(self.alloc, first)?;
        let mut is_whole = is_ended(first);
        for _more in 0..u64::MAX {
            if is_whole {
                return Ok(gathered.into_text()?);
            }
            self.prompt(rt, false)?;
            let Some(line) = self.next_line(rt, input)? else {
                return Ok(gathered.into_text()?);
            };
            gathered.push(line.as_str())?;
            is_whole = is_ended(line.as_str());
        }
        Err(Fault::from(Refusal::NoMemory))
    }

    // A line that begins with a full stop, with those that a request in it goes over. Whether the sitting goes on.
    fn take_dot<R: Read + Drop>(
        &mut self,
        rt: &HostRuntime,
        input: &mut LineReader<R>,
        line: &str,
    ) -> Result<bool, Fault> {
        let at = input.count();
        let text = if line.starts_with(".submit ") || line.starts_with(".beliefs ") {
            self.whole_text(rt, input, line)?
        } else {
            String::from_str(self.alloc, line)?
        };
        self.line = at;
        match read_dot_command(text.as_str().trim_end()) {
            Some(command) => self.obey(rt, command),
            None => {
                self.complain(rt, at)?;
                Ok(true)
            }
        }
    }

    // One line, with those that it goes over. Whether the sitting goes on.
    fn take_line<R: Read + Drop>(
        &mut self,
        rt: &HostRuntime,
        input: &mut LineReader<R>,
        line: &str,
    ) -> Result<bool, Fault> {
        if is_skipped(line) {
            return Ok(true);
        }
        let dotted = line.trim_start();
        if dotted.starts_with('.') {
            return self.take_dot(rt, input, dotted);
        }
        if self.place.is_terminal && is_way_out(line.trim()) {
            print(rt, "        .quit ends it, .help tells what can be typed\n")?;
            return Ok(true);
        }
        let at = input.count();
        let text = self.whole_text(rt, input, line)?;
        self.take_text(rt, text.as_str().trim(), at)?;
        Ok(true)
    }

    // Takes lines until there are no more, or one says that it is over.
    fn take_lines<R: Read + Drop>(
        &mut self,
        rt: &HostRuntime,
        input: &mut LineReader<R>,
    ) -> Result<(), Fault> {
        for _ in 0..u64::MAX {
            self.prompt(rt, true)?;
            let Some(line) = self.next_line(rt, input)? else {
                return Ok(());
            };
            if !self.take_line(rt, input, line.as_str())? {
                return Ok(());
            }
            self.warn(rt)?;
        }
        Ok(())
    }

    /// Greets, and takes lines until there are no more, or one says that it is over. What came of each that was taken is told, if the
    /// store can settle. Nothing is held when it ends, whatever comes of it, unless something was held before.
    pub fn play<R: Read + Drop>(
        &mut self,
        rt: &HostRuntime,
        input: &mut LineReader<R>,
    ) -> Result<(), Fault>
        ensures held { self.old.held.requests ≡ 0 → self.new.held.requests ≡ 0 }
    {
        self.greet(rt)?;
        self.warn(rt)?;
        let taken = self.take_lines(rt, input);
        let told = self.tell_held(rt);
        taken?;
        told
    }
}
