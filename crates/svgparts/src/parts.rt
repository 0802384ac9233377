//! Words and shapes of a page.
use std::alloc::{AllocError, Global};

/// What stands on a page so far.
#[derive(Drop)]
pub struct Parts {
    pub alloc: Global,
    pub text: String,
}

impl Parts {
    /// An empty page.
    pub fn new(alloc: Global) -> Parts {
        Parts {
            alloc,
            text: String::new(alloc),
        }
    }

    /// A text as it stands.
    pub fn raw(&mut self, text: &str) -> Result<(), AllocError> {
        self.text.push_str(text)
    }

    /// A number with one digit behind the point, or none where it is whole.
    pub fn number(&mut self, value: f64) -> Result<(), AllocError> {
        let text = format!(in self.alloc; "{value:.1}")?;
        let text = text.as_str();
        self.text.push_str(text.strip_suffix(".0").unwrap_or(text))
    }

    /// A whole number.
    pub fn count(&mut self, count: usize) -> Result<(), AllocError> {
        let text = format!(in self.alloc; "{count}")?;
        self.text.push_str(text.as_str())
    }

    /// A text between tags.
    pub fn escaped(&mut self, words: &str) -> Result<(), AllocError> {
        for letter in words.chars() {
            match letter {
                '&' => self.text.push_str("&amp;")?,
                '<' => self.text.push_str("&lt;")?,
                '>' => self.text.push_str("&gt;")?,
                letter => self.text.push(letter)?,
            }
        }
        Ok(())
    }

    /// Words of this class at this place, and a line's end.
    pub fn words(&mut self, x: f64, y: f64, words: &str, class: &str) -> Result<(), AllocError> {
        self.bare_words(x, y, words, class, "")?;
        self.raw("\n")
    }

    /// The same with more attributes, and without a line's end.
    pub fn bare_words(
        &mut self,
        x: f64,
        y: f64,
        words: &str,
        class: &str,
        more: &str,
    ) -> Result<(), AllocError> {
        self.raw("<text x=\"")?;
        self.number(x)?;
        self.raw("\" y=\"")?;
        self.number(y)?;
        self.raw("\"")?;
        self.class(class)?;
        self.raw(more)?;
        self.raw(">")?;
        self.escaped(words)?;
        self.raw("</text>")
    }

    fn class(&mut self, class: &str) -> Result<(), AllocError> {
        if class.is_empty() {
            return Ok(());
        }
        self.raw(" class=\"")?;
        self.raw(class)?;
        self.raw("\"")
    }

    /// A straight line, and a line's end.
    pub fn line(
        &mut self,
        from: (f64, f64),
        to: (f64, f64),
        class: &str,
    ) -> Result<(), AllocError> {
        self.bare_line(from, to, class)?;
        self.raw("\n")
    }

    /// The same without a line's end.
    pub fn bare_line(
        &mut self,
        from: (f64, f64),
        to: (f64, f64),
        class: &str,
    ) -> Result<(), AllocError> {
        self.raw("<path class=\"")?;
        self.raw(class)?;
        self.raw("\" d=\"M")?;
        self.pair(from, " ")?;
        self.raw("L")?;
        self.pair(to, " ")?;
        self.raw("\"/>")
    }

    /// Two numbers, with a sign between them.
    pub fn pair(&mut self, pair: (f64, f64), sign: &str) -> Result<(), AllocError> {
        self.number(pair.0)?;
        self.raw(sign)?;
        self.number(pair.1)
    }

    /// A rectangle by its corner and its size.
    pub fn rect(&mut self, at: (f64, f64), size: (f64, f64), more: &str) -> Result<(), AllocError> {
        self.raw("<rect x=\"")?;
        self.number(at.0)?;
        self.raw("\" y=\"")?;
        self.number(at.1)?;
        self.raw("\" width=\"")?;
        self.number(size.0)?;
        self.raw("\" height=\"")?;
        self.number(size.1)?;
        self.raw("\" ")?;
        self.raw(more)?;
        self.raw("/>")
    }
}
