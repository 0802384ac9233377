//! Reading a script for a group of so many nodes.
ghost use Rattle.std.specs.Prelude.{◌≡◌, ◌↔◌, All, IfOk, IsTrue};
ghost use Rattle.lines.specs.Script.{HasLines};
ghost use Rattle.live.specs.Taken.{IsTaken};

use fault::{Refusal, Text};
use lines::line::Line;
use lines::script::{Script, read_script};
use schema::Schema;
use std::alloc::{AllocError, Global};

/// A script of which every line is taken, and the text of its schema.
#[derive(Drop)]
pub struct LiveScript {
    pub schema_text: Text,
    pub schema: Schema,
    pub lines: Vec<Line>,
}

// Which part of a script a line belongs to.
#[derive(Clone, Copy)]
enum Part {
    Members,
    Heading,
    Block,
    Lines,
}

impl Part {
    // The part of the line that comes next.
    fn after(self, line: &str) -> Part {
        match self {
            Part::Members if is_skipped(line) => Part::Members,
            Part::Members => Part::Heading,
            Part::Heading if is_skipped(line) => Part::Heading,
            Part::Heading => Part::Block,
            Part::Block if line == "end" => Part::Lines,
            Part::Block => Part::Block,
            Part::Lines => Part::Lines,
        }
    }
}

// Whether a line is empty or begins with `#`.
fn is_skipped(line: &str) -> bool {
    match line.as_bytes() {
        [] | [b'#', ..] => true,
        _ => false,
    }
}

// Whether a line is taken, as far as its first word says.
fn is_taken(line: &str) -> bool {
    let word = match line.split_once(' ') {
        Some((word, _)) => word,
        None => line,
    };
    is_skipped(line)
        || matches!(
            word,
            "clock" | "submit" | "settle" | "stop" | "start" | "ask"
        )
}

// The number that an opening line of a group of so many nodes has.
fn opens(line: &str, nodes: u8) -> bool {
    match line.strip_prefix("members ") {
        Some(count) => matches!(count.as_bytes(), [digit] if *digit == b'0'.saturating_add(nodes)),
        None => false,
    }
}

// The number of the first line that names another number of members, or is not taken.
fn first_untaken(text: &str, nodes: u8, until: Part) -> Option<usize> {
    let mut part = Part::Members;
    let mut number: usize = 0;
    for line in text.split('\n') {
        number = number.saturating_add(1);
        let is_bad = match (part, until) {
            (Part::Members, _) => !is_skipped(line) && !opens(line, nodes),
            (Part::Lines, Part::Lines) => !is_taken(line),
            _ => false,
        };
        if is_bad {
            return Some(number);
        }
        part = part.after(line);
    }
    None
}

// The lines between `schema` and `end`.
fn schema_block(alloc: Global, text: &str) -> Result<String, AllocError> {
    let mut part = Part::Members;
    let mut block = String::new(alloc);
    for line in text.split('\n') {
        let next = part.after(line);
        if matches!((part, next), (Part::Block, Part::Block)) {
            block.push_str(line)?;
            block.push_str("\n")?;
        }
        part = next;
    }
    Ok(block)
}

// Whether a line is one that is taken.
fn is_taken_line(line: &Line) -> bool
    ensures { IsTrue result ↔ IsTaken line.now }
{
    matches!(
        line,
        Line::Clock { .. }
            | Line::ClockAll { .. }
            | Line::Submit { .. }
            | Line::Settle { .. }
            | Line::Stop { .. }
            | Line::Start { .. }
            | Line::Ask { .. }
    )
}

/// A script for a group of so many nodes, 3 to 7. Its lines are those of a script, of which `clock`, `submit`, `settle`,
/// `stop`, `start` and `ask` are taken.
///
/// 60 at the first line that is no line of a script, is not taken, or names another number of members; 10 to 18 where the
/// schema is refused, unless a line before it is bad; 43 for want of memory.
pub fn read_live(alloc: Global, text: &str, nodes: u8) -> Result<LiveScript, Refusal>
    ensures lines { IfOk result (λ script. HasLines text.now nodes script.schema script.lines.items) }
    ensures taken { IfOk result (λ script. All IsTaken script.lines.items) }
{
    match read_script(alloc, text) {
        Ok(script) => {
            let is_whole = script.members == usize::from(nodes)
                && script.lines.iter().all(is_taken_line);
            if is_whole {
                with_text(alloc, text, script)
            } else {
                Err(Refusal::BadScript(first_untaken(text, nodes, Part::Lines).unwrap_or(0)))
            }
        }
        Err(Refusal::NoMemory) => Err(Refusal::NoMemory),
        Err(Refusal::BadScript(bad)) => {
            let untaken = first_untaken(text, nodes, Part::Lines).unwrap_or(bad);
            Err(Refusal::BadScript(untaken.min(bad)))
        }
        Err(refusal) => match first_untaken(text, nodes, Part::Members) {
            Some(line) => Err(Refusal::BadScript(line)),
            None => Err(refusal),
        },
    }
}

fn with_text(alloc: Global, text: &str, script: Script) -> Result<LiveScript, Refusal>
    ensures { IfOk result (λ read. (read.schema ≡ script.schema) × (read.lines ≡ script.lines)) }
{
    let block = schema_block(alloc, text)?;
    let Script {
        members: _,
        schema,
        lines,
    } = script;
    Ok(LiveScript {
        schema_text: Text::from_string(block)?,
        schema,
        lines,
    })
}
