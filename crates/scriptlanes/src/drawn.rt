//! The picture of a script's run.
ghost use Rattle.std.specs.Prelude.{ℕ, List, OnOk};
ghost use Rattle.lines.specs.declared.line.Line.{Line as AnyLine};
ghost use Rattle.lines.specs.Script.{HasLines};
ghost use Rattle.sqlchecks.specs.Columns.{Tables};

use crate::numbered::{numbered, printable};
use crate::pencil::Pencil;
use crate::stage::{Stage, sets_clocks};
use lanes::recorder::Recorder;
use lanes::run::Run;
use lanes::{columns_of, run_as_text};
use lanessvg::run_as_svg;
use lines::line::Line;
use lines::script::{Script, read_script};
use script::player::Player;
use script::run_fault::RunFault;
use std::alloc::{AllocError, Global};

/// What a run is drawn on.
#[derive(Clone, Copy, Debug, PartialEq, Eq)]
pub enum Sheet {
    /// Lines of at most so many columns, or of as many as it takes.
    Text(Option<usize>),
    /// A page for a browser, as SVG.
    Page,
}

/// Which lines of a script are drawn, by their numbers in it: from the first one to the last one. Those before are played and not
/// drawn, those after are not played.
#[derive(Clone, Copy, Debug, PartialEq, Eq)]
pub struct Span {
    pub first: usize,
    pub last: usize,
}

impl Span {
    /// All lines.
    pub const ALL: Span = Span {
        first: 0,
        last: usize::MAX,
    };

    fn has(self, number: usize) -> bool {
        self.first <= number && number <= self.last
    }
}

/// What came of drawing a run.
#[derive(Debug, Drop)]
pub enum Drawing {
    /// No line that does something is to be drawn.
    Nothing,
    /// More messages or events than a picture has room for: `MOST_MESSAGES` and `MOST_EVENTS` of `lanes`.
    TooMuch,
    /// The text would take so many columns.
    TooNarrow(usize),
    /// The picture.
    Drawn(String),
}

/// Plays a script, and draws what the members did: its lines, the messages with what became of them, who stands for election,
/// leads and is down, and what members tell. The name stands above; of a path it is what follows the last `/`. Control characters are
/// `?`. It fails as playing does: by the refusal of the script or its schema, or by want of memory.
pub fn draw_lanes(
    alloc: Global,
    text: &str,
    name: &str,
    sheet: Sheet,
    span: Span,
) -> Result<Drawing, RunFault>
    ensures { OnOk result ((members : ℕ) × (schema : Tables) × (lines : List AnyLine) × HasLines text.now members schema lines) }
{
    let Script {
        members,
        schema,
        lines,
    } = read_script(alloc, text)?;
    let mut stage = Stage {
        members,
        player: Player::new(alloc, members, schema)?,
        pencil: Pencil {
            alloc,
            recorder: Recorder::new(alloc, members)?,
        },
    };
    play_lines(alloc, text, lines.as_slice(), span, &mut stage)?;
    let run = run_of(stage);
    let name = printable(alloc, last_part(name))?;
    let drawing = drawing_of(alloc, &run, name.as_str(), sheet)?;
    Ok(drawing)
}

// What was noted.
fn run_of(stage: Stage) -> Run {
    let Stage {
        members: _,
        player: _,
        pencil,
    } = stage;
    let Pencil { alloc: _, recorder } = pencil;
    recorder.into_run()
}

fn play_lines(
    alloc: Global,
    text: &str,
    lines: &[Line],
    span: Span,
    stage: &mut Stage,
) -> Result<(), RunFault> {
    let numbers = numbered(alloc, text)?;
    for (line, (number, words)) in lines.iter().zip(&numbers) {
        if *number > span.last || stage.pencil.recorder.is_too_much() {
            return Ok(());
        }
        if !sets_clocks(line) {
            let words = printable(alloc, words)?;
            stage
                .pencil
                .recorder
                .begin_act(*number, words.as_str(), span.has(*number))?;
        }
        stage.play_line(line)?;
    }
    Ok(())
}

fn drawing_of(alloc: Global, run: &Run, name: &str, sheet: Sheet) -> Result<Drawing, AllocError> {
    if run.acts.is_empty() {
        return Ok(Drawing::Nothing);
    }
    if run.is_too_much() {
        return Ok(Drawing::TooMuch);
    }
    match sheet {
        Sheet::Page => Ok(Drawing::Drawn(run_as_svg(alloc, run, name)?)),
        Sheet::Text(width) => {
            let text = run_as_text(alloc, run, name)?;
            let needed = columns_of(text.as_str());
            match width {
                Some(width) if width < needed => Ok(Drawing::TooNarrow(needed)),
                _ => Ok(Drawing::Drawn(text)),
            }
        }
    }
}

fn last_part(path: &str) -> &str {
    match path.rsplit_once('/') {
        Some((_, name)) => name,
        None => path,
    }
}
