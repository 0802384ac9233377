//! Scripts played, and shown in a form.
ghost use Rattle.std.specs.Prelude.{ℕ, List, OnOk};
ghost use Rattle.lines.specs.declared.line.Line.{Line as AnyLine};
ghost use Rattle.lines.specs.Script.{HasLines};
ghost use Rattle.sqlchecks.specs.Columns.{Tables};

use crate::form::Look;
use crate::shown::Shown;
use crate::tally::Tally;
use lines::line::Line;
use lines::script::{Script, read_script};
use looks::Asked;
use schema::Schema;
use script::player::Player;
use script::run_fault::RunFault;
use sqlread::query::{SystemTime, read_query};
use std::alloc::Global;
use std::io;

/// Plays a script, shows what its lines give in this form, and tells what was refused. What is no answer goes to the second
/// writer where answers are CSV. It fails as playing does: by the refusal of the script or its schema, by want of memory, or
/// by a writer's fault.
pub fn play_shown<W: io::Write + Drop, E: io::Write + Drop>(
    alloc: Global,
    text: &str,
    look: Look,
    writer: W,
    beside: E,
) -> Result<Tally, RunFault>
    ensures { OnOk result ((members : ℕ) × (schema : Tables) × (lines : List AnyLine) × HasLines text.now members schema lines) }
{
    let Script {
        members,
        schema,
        lines,
    } = read_script(alloc, text)?;
    let asked = schema.clone()?;
    let mut player = Player::new(alloc, members, schema)?;
    let mut shown = Shown::new(alloc, look, writer, beside);
    play_lines(alloc, &asked, lines.as_slice(), &mut player, &mut shown)?;
    shown.flush()?;
    Ok(shown.into_tally())
}

fn play_lines<W: io::Write + Drop, E: io::Write + Drop>(
    alloc: Global,
    schema: &Schema,
    lines: &[Line],
    player: &mut Player,
    shown: &mut Shown<W, E>,
) -> Result<(), RunFault> {
    for line in lines {
        shown.begin(line, asked_in(alloc, schema, line));
        player.play(line, shown)?;
    }
    Ok(())
}

// Which instants a text asks about, if it is a question that names any.
pub(crate) fn time_of(alloc: Global, schema: &Schema, text: &str) -> Option<SystemTime> {
    match read_query(alloc, schema, text) {
        Ok(query) => query.time,
        Err(_) => None,
    }
}

/// What a line's question asks about: one instant, or those up to one; of another line it is one.
pub fn asked_in(alloc: Global, schema: &Schema, line: &Line) -> Asked {
    match line {
        Line::Ask { text, .. } => asked_by(alloc, schema, text.as_str()),
        _ => Asked::AsOf,
    }
}

/// Whether a question asks about one instant, or about those up to one; of another text it is one.
pub fn asked_by(alloc: Global, schema: &Schema, text: &str) -> Asked {
    match time_of(alloc, schema, text) {
        Some(time) => about(time),
        None => Asked::AsOf,
    }
}

fn about(time: SystemTime) -> Asked {
    if time.first == time.last {
        Asked::AsOf
    } else {
        Asked::UpTo
    }
}
