//! The command `sim` in another form than lines, and the commands that draw a script.
use crate::sim::read_text;
use forms::{Canvas, Drawing, Look, Tally, draw_script, play_shown};
use script::run_fault::RunFault;
use scriptlanes::{Drawing as RunDrawing, Sheet, Span, draw_lanes};
use std::alloc::Global;
use std::io;

/// Reads a script to its end, plays it, and shows what its lines give in this form. It tells what was refused, or what ended
/// the command: want of memory, a writer's fault, or a bad script or the refusal of its schema. What is no answer goes to the
/// second writer where answers are CSV.
pub fn run_shown<R: io::Read, W: io::Write + Drop, E: io::Write + Drop>(
    alloc: Global,
    look: Look,
    reader: &mut R,
    writer: W,
    beside: E,
) -> Result<Tally, RunFault> {
    let text = read_text(alloc, reader)?;
    play_shown(alloc, text.as_str(), look, writer, beside)
}

/// Reads a script to its end, plays it, and draws its last answer. What ends it is what ends `run_shown`, but that it writes
/// nothing.
pub fn run_beliefs<R: io::Read>(
    alloc: Global,
    canvas: Canvas,
    reader: &mut R,
) -> Result<Drawing, RunFault> {
    let text = read_text(alloc, reader)?;
    draw_script(alloc, text.as_str(), canvas)
}

/// Reads a script to its end, plays it, and draws what its members do, in these lines of it. The name stands above. What ends it
/// is what ends `run_beliefs`.
pub fn run_lanes<R: io::Read>(
    alloc: Global,
    name: &str,
    sheet: Sheet,
    span: Span,
    reader: &mut R,
) -> Result<RunDrawing, RunFault> {
    let text = read_text(alloc, reader)?;
    draw_lanes(alloc, text.as_str(), name, sheet, span)
}
