//! The texts of answers.
ghost use Rattle.std.specs.Prelude.{Some, IfErr, length, flat_map, map};
ghost use Rattle.answertext.specs.Outlets.{IsWriteFault};
ghost use Rattle.answertext.specs.Sinks.{Puts, WritesOrBegins};
ghost use Rattle.answertext.specs.Answers.{answer_text, heading_text, row_text, slot_text, count_text, joined};

use crate::outlet::{Outlet, WriteFault};
use crate::sink::Sink;
use crate::slot::Slot;
use answer::{Answer, Column, Shown};
use itoa::Buffer;
use model::stamp::Stamp;
use std::alloc::Global;
use std::fmt;

/// An answer as its lines, each of which ends with LF: the last instant that was asked about, the
/// names of the columns, each row, and how many rows there are.
///
/// Numbers are in decimal, days as YYYY-MM-DD, texts in quotes with each quote doubled, instants as
/// YYYY-MM-DD hh:mm:ss.ffffff, and an open system end as the highest value,
/// 9999-12-31 23:59:59.999999. A column shows nothing of a row that has no such place.
#[derive(Clone, Copy)]
pub struct Lines<'a>(pub &'a Answer);

impl fmt::Display for Lines<'_> {
    ghost output = { λ lines. Some (answer_text lines.0.now) };

    fn fmt<W: fmt::Write>(&self, f: &mut fmt::Formatter<W>) -> fmt::Result {
        put_answer(self.0, f)
    }
}

/// Writes an answer's text, as `Lines` prints it. An error is the outlet's, of which a beginning of the text was put; for want of
/// memory nothing is.
pub fn write_answer<O: Outlet>(
    alloc: Global,
    answer: &Answer,
    outlet: &mut O,
) -> Result<(), WriteFault>
    ensures written { WritesOrBegins (O.holds outlet.old) (O.holds outlet.new) result (answer_text answer.now) }
    ensures failed { IfErr result (λ fault. IsWriteFault O.fails outlet.old fault outlet.new) }
{
    let lines = Lines(answer);
    let text = format!(in alloc; "{lines}")?;
    outlet.put(text.as_str())?;
    Ok(())
}

#[tactic(auto, unfolding(crate::specs::Answers::answer_text))]
fn put_answer<S: Sink>(answer: &Answer, sink: &mut S) -> Result<(), S::Fault>
    ensures { Puts S.takes S.begins sink.old result (answer_text answer.now) sink.new }
{
    let columns = answer.columns.as_slice();
    let rows = answer.rows.as_slice();
    put_heading(answer.last, columns, sink)?;
    put_rows(columns, rows, sink)?;
    put_count(rows.len(), sink)
}

fn put_heading<S: Sink>(last: Stamp, columns: &[Column], sink: &mut S) -> Result<(), S::Fault>
    ensures { Puts S.takes S.begins sink.old result (heading_text last columns.now) sink.new }
{
    let last = last.instant();
    sink.put(format_args!("last {last}\n"))?;
    sink.put("columns ")?;
    put_names(columns, sink)?;
    sink.put("\n")
}

// The names of the columns, with commas between them.
fn put_names<S: Sink>(columns: &[Column], sink: &mut S) -> Result<(), S::Fault>
    ensures { Puts S.takes S.begins sink.old result (joined (map (λ c. c.name) columns.now)) sink.new }
{
    let mut comma = "";
    for column in columns {
        let name = &column.name;
        sink.put(format_args!("{comma}{name}"))?;
        comma = ",";
    }
    Ok(())
}

fn put_rows<S: Sink>(columns: &[Column], rows: &[Shown], sink: &mut S) -> Result<(), S::Fault>
    ensures { Puts S.takes S.begins sink.old result (flat_map (row_text columns.now) rows.now) sink.new }
{
    for row in rows {
        put_row(columns, row, sink)?;
    }
    Ok(())
}

fn put_row<S: Sink>(columns: &[Column], row: &Shown, sink: &mut S) -> Result<(), S::Fault>
    ensures { Puts S.takes S.begins sink.old result (row_text columns.now row.now) sink.new }
{
    sink.put("row ")?;
    put_slots(columns, row, sink)?;
    sink.put("\n")
}

// What each column shows of the row, with commas between them.
fn put_slots<S: Sink>(columns: &[Column], row: &Shown, sink: &mut S) -> Result<(), S::Fault>
    ensures { Puts S.takes S.begins sink.old result (joined (map (λ c. slot_text row.now c.shows) columns.now)) sink.new }
{
    let mut comma = "";
    for column in columns {
        let shows = column.shows;
        let slot = Slot { row, shows };
        sink.put(format_args!("{comma}{slot}"))?;
        comma = ",";
    }
    Ok(())
}

fn put_count<S: Sink>(count: usize, sink: &mut S) -> Result<(), S::Fault>
    ensures { Puts S.takes S.begins sink.old result (count_text count) sink.new }
{
    let mut buffer = Buffer::new();
    let count = buffer.format(count);
    sink.put(format_args!("rows {count}\n"))
}
