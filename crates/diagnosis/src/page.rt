//! Faults as they are shown: the place, the line with what is wrong below it, and what could be done.
ghost use Rattle.std.specs.Prelude.{◌≡◌, ◌↔◌, ◌<◌, IsTrue, IfOk, OnOk, true, false};
ghost use Rattle.std.specs.Option.{is_none};

use crate::walk::{Found, Spot, joined};
use fault::Refusal;
use std::alloc::{AllocError, Global};

// How many columns a shown line has.
const WIDE: usize = 80;

// How many columns stand before the text of a line.
const GUTTER: usize = 8;

/// What is told of a file.
#[derive(Drop)]
pub struct Diagnosis {
    /// Whether nothing is wrong in it.
    pub is_clean: bool,
    /// How many faults are told.
    pub faults: usize,
    /// Each fault with its place, its line and what could be done, and a last line that counts them.
    pub text: String,
}

impl Diagnosis {
    /// With one more line.
    pub fn with_line(self, line: &str) -> Result<Diagnosis, AllocError>
        ensures clean { IfOk result (λ told. told.is_clean ≡ self.is_clean) }
        ensures faults { IfOk result (λ told. told.faults ≡ self.faults) }
    {
        let Diagnosis {
            is_clean,
            faults,
            mut text,
        } = self;
        text.push_str(line)?;
        Ok(Diagnosis {
            is_clean,
            faults,
            text,
        })
    }
}

/// A line of a file, counted from 1.
#[derive(Clone, Copy)]
pub(crate) struct Line<'a> {
    pub number: usize,
    pub text: &'a str,
}

/// What is shown of a file.
#[derive(Drop)]
pub(crate) struct Page<'f> {
    pub file: &'f str,
    pub text: String,
    /// How many faults are shown.
    pub faults: usize,
}

// Which bytes of a line are shown: all from the first up to the one before the last, and whether more stand before and behind.
#[derive(Clone, Copy)]
struct Window {
    first: usize,
    end: usize,
    has_before: bool,
    has_behind: bool,
}

fn window_at(len: usize, column: usize) -> Window {
    let room = WIDE - GUTTER;
    let first = if len > room {
        column.saturating_sub(room / 2).min(len - (room - 2))
    } else {
        0
    };
    let has_before = first > 0;
    let end = first.saturating_add(if has_before { room - 2 } else { room });
    let has_behind = end < len;
    Window {
        first,
        end: if has_behind {
            end.saturating_sub(2)
        } else {
            len
        },
        has_before,
        has_behind,
    }
}

fn put_many(letter: &str, count: usize, page: &mut String) -> Result<(), AllocError> {
    for _ in 0..count {
        page.push_str(letter)?;
    }
    Ok(())
}

// A byte as it is shown: a blank for a tab, and a question mark for what is no printable ASCII.
fn shown(byte: u8) -> char {
    match byte {
        b'\t' => ' ',
        b' '..=b'~' => byte as char,
        _ => '?',
    }
}

fn put_part(text: &str, window: Window, page: &mut String) -> Result<(), AllocError> {
    for (at, byte) in text.as_bytes().iter().enumerate() {
        if window.first <= at && at < window.end {
            page.push(shown(*byte))?;
        }
    }
    Ok(())
}

// The line's number before its text.
fn put_gutter(number: Option<usize>, page: &mut String) -> Result<(), AllocError> {
    match number {
        Some(number) => write!(page, "{number:5} | "),
        None => page.push_str("      | "),
    }
}

fn put_dots(has_more: bool, page: &mut String) -> Result<(), AllocError> {
    page.push_str(if has_more { ".." } else { "" })
}

// A line, as far as it is shown.
fn put_line(line: Line, window: Window, page: &mut String) -> Result<(), AllocError> {
    put_gutter(Some(line.number), page)?;
    put_dots(window.has_before, page)?;
    put_part(line.text, window, page)?;
    put_dots(window.has_behind, page)?;
    page.push_str("\n")
}

// Carets below what is wrong in a line.
fn put_carets(spot: Spot, window: Window, page: &mut String) -> Result<(), AllocError> {
    let dots = if window.has_before { 2 } else { 0 };
    let blanks = spot.at.saturating_sub(window.first).saturating_add(dots);
    let room = window.end.saturating_sub(spot.at);
    put_gutter(None, page)?;
    put_many(" ", blanks, page)?;
    put_many("^", spot.len.min(room).max(1), page)?;
    page.push_str("\n")
}

// What could be done, on lines of their own.
fn put_hint(hint: &str, page: &mut String) -> Result<(), AllocError> {
    if hint.is_empty() {
        return Ok(());
    }
    put_many(" ", GUTTER, page)?;
    for byte in hint.as_bytes() {
        page.push(*byte as char)?;
        if *byte == b'\n' {
            put_many(" ", GUTTER, page)?;
        }
    }
    page.push_str("\n")
}

impl<'f> Page<'f> {
    /// What is shown of a file of this name, at first nothing.
    pub fn new(alloc: Global, file: &'f str) -> Page<'f> {
        Page {
            file,
            text: String::new(alloc),
            faults: 0,
        }
    }

    // The place of a fault and the refusal. Columns are bytes, counted from 1.
    fn put_place(
        &mut self,
        alloc: Global,
        number: usize,
        at: usize,
        refusal: &Refusal,
    ) -> Result<(), AllocError> {
        let file = self.file;
        let column = at.saturating_add(1);
        let place = format!(in alloc; "{file}:{number}:{column}: {refusal}\n")?;
        self.text.push_str(place.as_str())
    }

    /// Shows what was found in a line, whose spot counts the bytes of the line.
    pub fn tell(&mut self, alloc: Global, line: Line, found: &Found) -> Result<(), AllocError> {
        self.faults = self.faults.saturating_add(1);
        self.put_place(alloc, line.number, found.spot.at, &found.refusal)?;
        let window = window_at(line.text.len(), found.spot.at);
        put_line(line, window, &mut self.text)?;
        put_carets(found.spot, window, &mut self.text)?;
        put_hint(found.hint.as_str(), &mut self.text)?;
        self.text.push_str("\n")
    }

    /// Shows a fault of a file whose lines can't be shown.
    pub fn tell_bare(
        &mut self,
        alloc: Global,
        number: usize,
        at: usize,
        found: &Found,
    ) -> Result<(), AllocError>
        ensures { OnOk result (0 < self.new.faults) }
    {
        self.put_place(alloc, number, at, &found.refusal)?;
        put_hint(found.hint.as_str(), &mut self.text)?;
        self.text.push_str("\n")?;
        self.faults = self.faults.saturating_add(1);
        Ok(())
    }

    // That nothing is wrong in the file, and what it has.
    fn end_clean(self, alloc: Global, has: &str) -> Result<Diagnosis, AllocError>
        ensures { IfOk result (λ told. (told.is_clean ≡ true) × (told.faults ≡ 0)) }
    {
        let text = joined(alloc, &[self.file, ": no faults; ", has, "\n"])?;
        Ok(Diagnosis {
            is_clean: true,
            faults: 0,
            text,
        })
    }

    // Shows that the whole file is refused, where no fault is shown.
    fn tell_whole(&mut self, alloc: Global, refusal: Refusal) -> Result<(), AllocError>
        ensures { OnOk result (0 < self.new.faults) }
    {
        if self.faults > 0 {
            return Ok(());
        }
        let found = Found {
            spot: Spot { at: 0, len: 1 },
            refusal,
            hint: String::new(alloc),
        };
        self.tell_bare(alloc, 1, 0, &found)
    }

    // How many faults there are in a file that is refused so.
    fn end_refused(mut self, alloc: Global, refusal: Refusal) -> Result<Diagnosis, AllocError>
        ensures { IfOk result (λ told. (told.is_clean ≡ false) × (0 < told.faults)) }
    {
        self.tell_whole(alloc, refusal)?;
        let Page {
            file,
            mut text,
            faults,
        } = self;
        let last = match faults {
            1 => format!(in alloc; "{file}: 1 fault\n")?,
            _ => format!(in alloc; "{file}: {faults} faults\n")?,
        };
        text.push_str(last.as_str())?;
        Ok(Diagnosis {
            is_clean: false,
            faults,
            text,
        })
    }

    /// What is shown of a file that is refused so, or of one that is clean and has this. A file that is refused has a fault:
    /// where none was found, it is told of the whole file.
    pub fn end(
        self,
        alloc: Global,
        fault: Option<Refusal>,
        has: &str,
    ) -> Result<Diagnosis, AllocError>
        ensures clean { IfOk result (λ told. told.is_clean ≡ is_none fault) }
        ensures counted { IfOk result (λ told. IsTrue told.is_clean ↔ (told.faults ≡ 0)) }
    {
        match fault {
            None => self.end_clean(alloc, has),
            Some(refusal) => self.end_refused(alloc, refusal),
        }
    }
}
