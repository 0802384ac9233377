//! Texts that are gathered line by line.
ghost use Rattle.std.specs.Prelude.{◌≡◌, ◌<◌, ◌++◌, ◌∷◌, length, IfOk, List, OnOk, string_bytes, ℕ};
ghost use Rattle.console.specs.Lines.{IsShortened};

use std::alloc::{AllocError, Global};

/// How many bytes of a text are kept at most, but for those of the line that passes it. It is far over what a request may have.
const TEXT_MOST: usize = 65_536;

/// A text of which the first lines have come.
#[derive(Drop)]
pub(crate) struct Gathered {
    pub text: String,
    /// Whether anything but blanks was left out of it.
    pub is_cut: bool,
}

// Adds a line to a text, with LF before it.
fn push_line(text: &mut String, line: &str) -> Result<(), AllocError>
    ensures { OnOk result (string_bytes text.new ≡ string_bytes text.old ++ 10 ∷ line.now) }
{
    text.push('\n')?;
    text.push_str(line)
}

impl Gathered {
    /// A text whose first line this is.
    pub fn new(alloc: Global, first: &str) -> Result<Gathered, AllocError>
        ensures { IfOk result (λ gathered. string_bytes gathered.text ≡ first.now) }
    {
        let text = String::from_str(alloc, first)?;
        Ok(Gathered {
            text,
            is_cut: false,
        })
    }

    /// Adds a line, of which nothing is kept where the text is long enough.
    #[tactic(auto, using(crate::proofs::Shortening::kept))]
    pub fn push(&mut self, line: &str) -> Result<(), AllocError>
        ensures gathers { OnOk result ((whole : List ℕ) → IsShortened whole (string_bytes self.old.text) → IsShortened (whole ++ 10 ∷ line.now) (string_bytes self.new.text)) }
        ensures long { 65536 < length (string_bytes self.old.text) → string_bytes self.new.text ≡ string_bytes self.old.text }
    {
        if self.text.len() > TEXT_MOST {
            self.is_cut = self.is_cut || !line.trim().is_empty();
            return Ok(());
        }
        push_line(&mut self.text, line)
    }

    /// The text. What stands for words that were left out keeps it too long for a request, whatever blanks stand before them.
    pub fn into_text(self) -> Result<String, AllocError>
        ensures { IfOk result (λ text. (whole : List ℕ) → IsShortened whole (string_bytes self.text) → IsShortened whole (string_bytes text)) }
    {
        let Gathered { mut text, is_cut } = self;
        if is_cut && text.len() > TEXT_MOST {
            push_line(&mut text, "..")?;
        }
        Ok(text)
    }
}
