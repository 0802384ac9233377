//! Pictures: of what was believed, and of what the members do.
use crate::{SIM, columns, open_script, script_ended};
use diagnosis::Name;
use fault::Refusal;
use forms::{Canvas, Drawing};
use scriptlanes::{Drawing as RunDrawing, Sheet, Span};
use shell::command::{Beliefs, Lanes};
use shell::shown_run::{run_beliefs, run_lanes};
use shell::stop::Stop;
use std::io::{IsTerminal, Write};
use std::rt::{Env, Files};
use std::{fs, io};

// Draws the last answer of a script, on standard output or into a file.
pub(crate) fn draw<'a, R>(rt: &R, beliefs: Beliefs<'a>) -> Result<u8, Stop<'a>>
where
    R: AllocGlobal + Env + Files + Print + Eprint,
{
    let mut script = open_script(rt, beliefs.script)?;
    let canvas = match beliefs.svg {
        Some(_) => Canvas::Page,
        None => Canvas::Text(columns(rt)),
    };
    let ended = match run_beliefs(rt.alloc(), canvas, &mut script) {
        Ok(Drawing::Drawn(picture)) => hand_out(rt, beliefs.svg, picture.as_slice()),
        Ok(Drawing::NoAnswer) => refuse_drawing(rt, "nothing in the script is answered"),
        Ok(Drawing::TooMuch) => {
            refuse_drawing(
                rt,
                "more than 200 versions: ask about fewer days, instants or keys",
            )
        }
        Err(fault) => Err(Stop::from(fault)),
    };
    script_ended(ended, Name::Given(beliefs.script), SIM)
}

fn line_or(number: Option<u64>, other: usize) -> usize {
    match number {
        Some(number) => usize::try_from(number).unwrap_or(usize::MAX),
        None => other,
    }
}

// The lines that are asked for: all where none is named.
fn span_of(lanes: Lanes<'_>) -> Span {
    Span {
        first: line_or(lanes.first, 0),
        last: line_or(lanes.last, usize::MAX),
    }
}

// Draws what the members do in a script, on standard output or into a file.
pub(crate) fn draw_run<'a, R>(rt: &R, host: &HostRuntime, lanes: Lanes<'a>) -> Result<u8, Stop<'a>>
where
    R: AllocGlobal + Env + Files + Print + Eprint,
{
    let mut script = open_script(rt, lanes.script)?;
    let sheet = match lanes.svg {
        Some(_) => Sheet::Page,
        None if host.stdout().is_terminal() => Sheet::Text(Some(columns(rt))),
        None => Sheet::Text(None),
    };
    let ended = match run_lanes(rt.alloc(), lanes.script, sheet, span_of(lanes), &mut script) {
        Ok(RunDrawing::Drawn(picture)) => hand_out(rt, lanes.svg, picture.as_bytes()),
        Ok(RunDrawing::Nothing) => refuse_drawing(rt, "nothing happens in these lines"),
        Ok(RunDrawing::TooMuch) => {
            refuse_drawing(
                rt,
                "more than 110 messages or 440 events: draw fewer lines, with --from and --to",
            )
        }
        Ok(RunDrawing::TooNarrow(needed)) => refuse_terminal(rt, needed),
        Err(fault) => Err(Stop::from(fault)),
    };
    script_ended(ended, Name::Given(lanes.script), SIM)
}

// That the terminal has fewer columns than a picture takes.
fn refuse_terminal<'a>(rt: &impl Eprint, needed: usize) -> Result<u8, Stop<'a>> {
    let _ = eprintln!(rt;
        "the picture takes {needed} columns: widen the terminal, or draw a page with --svg"
    );
    Ok(1)
}

// That nothing is drawn, and why.
fn refuse_drawing<'a>(rt: &impl Eprint, why: &str) -> Result<u8, Stop<'a>> {
    let _ = eprintln!(rt; "{why}");
    Ok(1)
}

// Writes a picture into the file of this name, or where there is none on standard output.
fn hand_out<'a, R>(rt: &R, path: Option<&str>, picture: &[u8]) -> Result<u8, Stop<'a>>
where
    R: AllocGlobal + Files + Print + Eprint,
{
    let Some(path) = path else {
        let mut writer = io::writer(rt);
        writer.write_all(picture)?;
        writer.flush()?;
        return Ok(0);
    };
    match fs::write(rt, path, picture) {
        Ok(()) => Ok(0),
        Err(error) if error.kind() == io::ErrorKind::OutOfMemory => {
            Err(Stop::from(Refusal::NoMemory))
        }
        Err(error) => {
            let _ = eprintln!(rt; "{path}: writing the picture: {error}");
            Ok(1)
        }
    }
}
