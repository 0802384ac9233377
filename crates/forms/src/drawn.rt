//! The picture of a script's last answer.
ghost use Rattle.std.specs.Prelude.{ℕ, List, None, ⊤, OnOk};
ghost use Rattle.lines.specs.declared.line.Line.{Line as AnyLine};
ghost use Rattle.lines.specs.Script.{HasLines};
ghost use Rattle.sqlchecks.specs.Columns.{Tables};

use crate::play::time_of;
use answer::Answer;
use beliefs::{Asking, Time, beliefs_as_text};
use beliefsvg::beliefs_as_svg;
use fault::Text;
use lines::line::Line;
use lines::script::{Script, read_script};
use model::member::Member;
use schema::Schema;
use script::player::Player;
use script::printer::Printer;
use script::run_fault::RunFault;
use sqlread::query::{SystemTime, read_query};
use std::alloc::{AllocError, Global};
use world::output::Output;

/// What a picture is drawn on.
#[derive(Clone, Copy, Debug, PartialEq, Eq)]
pub enum Canvas {
    /// Lines of so many columns.
    Text(usize),
    /// A page for a browser, as SVG.
    Page,
}

/// What came of drawing a script's last answer.
#[derive(Debug, Drop)]
pub enum Drawing {
    /// Nothing in the script is answered.
    NoAnswer,
    /// The answer has more rows than a page has room for.
    TooMuch,
    /// The picture.
    Drawn(Vec<u8>),
}

// A question, and what is needed to draw its answer.
#[derive(Drop)]
struct Question {
    table: Text,
    text: Text,
    time: Time,
}

// A printer that draws each answer, and keeps the last drawing.
#[derive(Drop)]
struct Sketch {
    alloc: Global,
    canvas: Canvas,
    question: Option<Question>,
    drawing: Drawing,
}

impl Question {
    // Draws the answer that a member gave to it.
    fn draw(
        &self,
        alloc: Global,
        canvas: Canvas,
        node: Member,
        answer: &Answer,
    ) -> Result<Drawing, AllocError> {
        let asking = Asking {
            table: self.table.as_str(),
            text: self.text.as_str(),
            time: self.time,
        };
        drawing_of(alloc, canvas, node, answer, &asking)
    }
}

impl Sketch {
    fn draw(&mut self, node: Member, answer: &Answer) -> Result<(), AllocError> {
        if let Some(question) = &self.question {
            self.drawing = question.draw(self.alloc, self.canvas, node, answer)?;
        }
        Ok(())
    }
}

/// Draws the answer that a member gave to the question of a text, over these tables; `NoAnswer` where the text is no question. The
/// error is want of memory.
pub fn draw_answer(
    alloc: Global,
    canvas: Canvas,
    schema: &Schema,
    text: &str,
    node: Member,
    answer: &Answer,
) -> Result<Drawing, AllocError> {
    match question_in(alloc, schema, text)? {
        Some(question) => question.draw(alloc, canvas, node, answer),
        None => Ok(Drawing::NoAnswer),
    }
}

fn drawing_of(
    alloc: Global,
    canvas: Canvas,
    node: Member,
    answer: &Answer,
    asking: &Asking,
) -> Result<Drawing, AllocError> {
    match canvas {
        Canvas::Text(width) => {
            let text = beliefs_as_text(alloc, node, answer, asking, width)?;
            Ok(Drawing::Drawn(text))
        }
        Canvas::Page => match beliefs_as_svg(alloc, node, answer, asking)? {
            Some(page) => Ok(Drawing::Drawn(page.into_bytes())),
            None => Ok(Drawing::TooMuch),
        },
    }
}

impl Printer for Sketch {
    ghost printed = { λ sketch. None };

    ghost fails = { λ before error after. ⊤ };

    fn print(&mut self, _alloc: Global, output: &Output) -> Result<(), RunFault> {
        if let Output::Answered(node, answer) = output {
            self.draw(*node, answer)?;
        }
        Ok(())
    }
}

/// Plays a script, and draws its last answer. It fails as playing does: by the refusal of the script or its schema, or by
/// want of memory.
pub fn draw_script(alloc: Global, text: &str, canvas: Canvas) -> Result<Drawing, RunFault>
    ensures { OnOk result ((members : ℕ) × (schema : Tables) × (lines : List AnyLine) × HasLines text.now members schema lines) }
{
    let Script {
        members,
        schema,
        lines,
    } = read_script(alloc, text)?;
    let asked = schema.clone()?;
    let mut player = Player::new(alloc, members, schema)?;
    let mut sketch = Sketch {
        alloc,
        canvas,
        question: None,
        drawing: Drawing::NoAnswer,
    };
    play_lines(alloc, &asked, lines.as_slice(), &mut player, &mut sketch)?;
    let Sketch {
        alloc: _,
        canvas: _,
        question: _,
        drawing,
    } = sketch;
    Ok(drawing)
}

fn play_lines(
    alloc: Global,
    schema: &Schema,
    lines: &[Line],
    player: &mut Player,
    sketch: &mut Sketch,
) -> Result<(), RunFault> {
    for line in lines {
        sketch.question = question_of(alloc, schema, line)?;
        player.play(line, sketch)?;
    }
    Ok(())
}

// The question of a line, if it is one.
fn question_of(
    alloc: Global,
    schema: &Schema,
    line: &Line,
) -> Result<Option<Question>, AllocError> {
    match line {
        Line::Ask { text, .. } => question_in(alloc, schema, text.as_str()),
        _ => Ok(None),
    }
}

// The question of a text, if it is one.
fn question_in(alloc: Global, schema: &Schema, text: &str) -> Result<Option<Question>, AllocError> {
    let Some(name) = table_name(alloc, schema, text) else {
        return Ok(None);
    };
    let time = match time_of(alloc, schema, text) {
        Some(time) => about(time),
        None => Time::Now,
    };
    Ok(Some(Question {
        table: Text::new(alloc, name)?,
        text: Text::new(alloc, text)?,
        time,
    }))
}

fn about(time: SystemTime) -> Time {
    if time.first == time.last {
        Time::AsOf
    } else {
        Time::From(time.first)
    }
}

// The name of the table that a question asks, as declared.
fn table_name<'a>(alloc: Global, schema: &'a Schema, text: &str) -> Option<&'a str> {
    match read_query(alloc, schema, text) {
        Ok(query) => name_at(schema, query.table),
        Err(_) => None,
    }
}

fn name_at(schema: &Schema, table: usize) -> Option<&str> {
    if table < schema.len() {
        Some(schema.table(table).0.as_str())
    } else {
        None
    }
}
