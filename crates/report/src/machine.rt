//! A report as JSON.
ghost use Rattle.std.specs.Prelude.{◌≡◌, ◌++◌, ◌+◌, ◌∷◌, [], Some, codes, map, option_map, string_bytes, IfOk, OnOk};
ghost use Rattle.std.specs.List.{flat_map};
ghost use Rattle.beginnings.specs.Lines.{line_text};
ghost use Rattle.fault.specs.Refusal.{shown, text_of};
ghost use Rattle.hex.specs.Hex.{encode_lower};
ghost use Rattle.json.specs.Token.{key, string};
ghost use Rattle.looks.specs.Objects.{Adds, line_of as object_line};
ghost use Rattle.looks.specs.Outcomes.{counts, object, says, refusal_tokens};
ghost use Rattle.report.specs.Machine.{answers_tokens, array_at, difference_tokens, digested_tokens, earlier_tokens, extent_tokens, file_tokens, first_tokens, judged_tokens, kept_tokens, last_tokens, made_tokens, mark_tokens, member_tokens, members_tokens, name_at, optional_number, optional_text, report_tokens, requests_tokens, settled_tokens, stamp_tokens, told_tokens, verdict_tokens, what_tokens, word_of};

use crate::counts::Counts;
use crate::difference::{Difference, Differs};
use crate::digests::Digested;
use crate::earlier::Earlier;
use crate::files::Place;
use crate::settled::Settled;
use crate::whole::{Contents, Held, Report};
use beginnings::line::line_of;
use fault::Refusal;
use json::Writer;
use model::stamp::Stamp;
use moments::AuditFault;
use std::alloc::{AllocError, Global};

/// A report as one JSON object on a line; its members are those of docs/FORMATS.md, "Report". The error is want of memory.
pub fn report_as_json(alloc: Global, report: &Report) -> Result<Vec<u8>, AllocError>
    ensures { IfOk result (λ text. text.items ≡ object_line (report_tokens report.now)) }
{
    let mut writer = Writer::new(Vec::new(alloc));
    put_report(alloc, report, &mut writer)?;
    let mut text = writer.into_inner();
    text.push(b'\n')?;
    Ok(text)
}

/// A verdict alone as one JSON object on a line, in the words of a report. The error is want of memory.
pub fn verdict_as_json(alloc: Global, fault: Option<AuditFault>) -> Result<Vec<u8>, AllocError>
    ensures { IfOk result (λ text. text.items ≡ object_line (object (verdict_tokens fault))) }
{
    let mut writer = Writer::new(Vec::new(alloc));
    put_verdict_alone(alloc, fault, &mut writer)?;
    let mut text = writer.into_inner();
    text.push(b'\n')?;
    Ok(text)
}

fn put_verdict_alone(
    alloc: Global,
    fault: Option<AuditFault>,
    writer: &mut Writer,
) -> Result<(), AllocError>
    ensures { Adds result writer.old writer.new (object (verdict_tokens fault)) }
{
    writer.begin_object()?;
    put_verdict(alloc, fault, writer)?;
    writer.end_object()
}

#[tactic(auto, unfolding(crate::specs::Machine::report_tokens))]
fn put_report(alloc: Global, report: &Report, writer: &mut Writer) -> Result<(), AllocError>
    ensures { Adds result writer.old writer.new (report_tokens report.now) }
{
    writer.begin_object()?;
    put_first(alloc, report, writer)?;
    put_judged(alloc, report, writer)?;
    put_last(alloc, report, writer)?;
    writer.end_object()
}

fn put_number(name: &str, value: u64, writer: &mut Writer) -> Result<(), AllocError>
    ensures { Adds result writer.old writer.new (counts name.now value) }
{
    writer.key(name)?;
    writer.u64(value)
}

fn put_text(name: &str, text: &str, writer: &mut Writer) -> Result<(), AllocError>
    ensures { Adds result writer.old writer.new (says name.now text.now) }
{
    writer.key(name)?;
    writer.string(text)
}

fn put_digest(
    alloc: Global,
    name: &str,
    digest: &[u8; 32],
    writer: &mut Writer,
) -> Result<(), AllocError>
    ensures { Adds result writer.old writer.new (says name.now (encode_lower digest.now)) }
{
    let digits = hex::encode(alloc, digest.as_slice())?;
    put_text(name, digits.as_str(), writer)
}

// The version of the report, and the verdict, and where it differs.
#[tactic(auto, unfolding(crate::specs::Machine::first_tokens))]
fn put_first(alloc: Global, report: &Report, writer: &mut Writer) -> Result<(), AllocError>
    ensures { Adds result writer.old writer.new (first_tokens report.now) }
{
    put_number("report", 1, writer)?;
    put_verdict(alloc, report.fault, writer)?;
    put_any_difference(&report.difference, writer)
}

fn put_verdict(
    alloc: Global,
    fault: Option<AuditFault>,
    writer: &mut Writer,
) -> Result<(), AllocError>
    ensures { Adds result writer.old writer.new (verdict_tokens fault) }
{
    match fault {
        None => put_text("audit", "yes", writer),
        Some(fault) => put_fault(alloc, fault, writer),
    }
}

fn put_fault(alloc: Global, fault: AuditFault, writer: &mut Writer) -> Result<(), AllocError>
    ensures { Adds result writer.old writer.new (verdict_tokens (Some fault)) }
{
    let refusal = Refusal::from(fault);
    put_text("audit", "no", writer)?;
    put_refusal(alloc, &refusal, writer)
}

// The number of a refusal, and its text.
fn put_refusal(alloc: Global, refusal: &Refusal, writer: &mut Writer) -> Result<(), AllocError>
    ensures { Adds result writer.old writer.new (refusal_tokens refusal.now) }
{
    put_number("refused", refusal.number() as u64, writer)?;
    writer.key("text")?;
    let text = refusal.to_string(alloc)?;
    writer.string(without_number(refusal, text.as_str()))
}

// The text of a refusal, of which the whole has the number too.
fn without_number<'a>(refusal: &Refusal, whole: &'a str) -> &'a str
    requires { whole.now ≡ shown refusal.now }
    ensures { result.now ≡ text_of refusal.now }
{
    match whole.split_once(' ') {
        Some((_, text)) => text,
        None => whole,
    }
}

fn put_any_difference(
    difference: &Option<Difference>,
    writer: &mut Writer,
) -> Result<(), AllocError>
    ensures { Adds result writer.old writer.new (difference_tokens difference.now) }
{
    match difference {
        None => Ok(()),
        Some(difference) => put_difference(difference, writer),
    }
}

fn put_difference(difference: &Difference, writer: &mut Writer) -> Result<(), AllocError>
    ensures { Adds result writer.old writer.new (difference_tokens (Some difference.now)) }
{
    writer.key("difference")?;
    writer.begin_object()?;
    put_file(difference, writer)?;
    put_mark(difference, writer)?;
    put_extent(difference, writer)?;
    put_what(difference, writer)?;
    put_all_earlier(difference.earlier.as_slice(), writer)?;
    writer.end_object()
}

fn line_of_place(place: &Option<Place>) -> Option<usize>
    ensures { result ≡ option_map (λ p. p.line) place.now }
{
    match place {
        Some(place) => Some(place.line),
        None => None,
    }
}

fn byte_of_place(place: &Option<Place>) -> Option<usize>
    ensures { result ≡ option_map (λ p. p.byte) place.now }
{
    match place {
        Some(place) => Some(place.byte),
        None => None,
    }
}

fn put_optional_number(
    name: &str,
    value: Option<usize>,
    writer: &mut Writer,
) -> Result<(), AllocError>
    ensures { Adds result writer.old writer.new (optional_number name.now value) }
{
    writer.key(name)?;
    match value {
        Some(value) => writer.u64(value as u64),
        None => writer.null(),
    }
}

fn put_optional_text(
    name: &str,
    text: &Option<String>,
    writer: &mut Writer,
) -> Result<(), AllocError>
    ensures { Adds result writer.old writer.new (optional_text name.now text.now) }
{
    writer.key(name)?;
    match text {
        Some(text) => writer.string(text.as_str()),
        None => writer.null(),
    }
}

#[tactic(auto, unfolding(crate::specs::Machine::file_tokens))]
fn put_file(difference: &Difference, writer: &mut Writer) -> Result<(), AllocError>
    ensures { Adds result writer.old writer.new (file_tokens difference.now) }
{
    put_text("file", difference.file.as_str(), writer)?;
    put_optional_number("line", line_of_place(&difference.place), writer)?;
    put_optional_number("byte", byte_of_place(&difference.place), writer)
}

#[tactic(auto, unfolding(crate::specs::Machine::mark_tokens))]
fn put_mark(difference: &Difference, writer: &mut Writer) -> Result<(), AllocError>
    ensures { Adds result writer.old writer.new (mark_tokens difference.now) }
{
    let mark = difference.mark.number();
    put_number("node", difference.node as u64, writer)?;
    put_number("life", difference.life as u64, writer)?;
    put_number("mark", mark, writer)
}

fn word_of(differs: Differs) -> &'static str
    ensures { result.now ≡ word_of differs }
{
    match differs {
        Differs::Order => "order",
        Differs::Opening => "opening",
        Differs::Up => "up",
        Differs::Message => "message",
        Differs::Outcomes => "outcomes",
        Differs::Answer => "answer",
        Differs::Unmarked => "unmarked",
    }
}

#[tactic(auto, unfolding(crate::specs::Machine::extent_tokens))]
fn put_extent(difference: &Difference, writer: &mut Writer) -> Result<(), AllocError>
    ensures { Adds result writer.old writer.new (extent_tokens difference.now) }
{
    put_text("differs", word_of(difference.differs), writer)?;
    put_number("lines", difference.lines as u64, writer)?;
    put_number("differing", difference.differing as u64, writer)
}

#[tactic(auto, unfolding(crate::specs::Machine::what_tokens))]
fn put_what(difference: &Difference, writer: &mut Writer) -> Result<(), AllocError>
    ensures { Adds result writer.old writer.new (what_tokens difference.now) }
{
    put_optional_text("question", &difference.question, writer)?;
    put_optional_text("recorded", &difference.recorded, writer)?;
    put_optional_text("run", &difference.given, writer)
}

#[tactic(auto, unfolding(crate::specs::Machine::earlier_tokens))]
fn put_earlier(moment: &Earlier, writer: &mut Writer) -> Result<(), AllocError>
    ensures { Adds result writer.old writer.new (earlier_tokens moment.now) }
{
    let mark = moment.mark.number();
    writer.begin_object()?;
    put_number("mark", mark, writer)?;
    put_number("node", moment.node as u64, writer)?;
    put_number("line", moment.line as u64, writer)?;
    put_text("took", moment.words.as_str(), writer)?;
    writer.end_object()
}

fn put_each_earlier(earlier: &[Earlier], writer: &mut Writer) -> Result<(), AllocError>
    ensures { Adds result writer.old writer.new (flat_map earlier_tokens earlier.now) }
{
    for moment in earlier {
        put_earlier(moment, writer)?;
    }
    Ok(())
}

fn put_all_earlier(earlier: &[Earlier], writer: &mut Writer) -> Result<(), AllocError>
    ensures { Adds result writer.old writer.new (array_at (codes "earlier") (flat_map earlier_tokens earlier.now)) }
{
    writer.key("earlier")?;
    writer.begin_array()?;
    put_each_earlier(earlier, writer)?;
    writer.end_array()
}

// What was judged: the members, the schema and the tables.
#[tactic(auto, unfolding(crate::specs::Machine::judged_tokens))]
fn put_judged(alloc: Global, report: &Report, writer: &mut Writer) -> Result<(), AllocError>
    ensures { Adds result writer.old writer.new (judged_tokens report.now) }
{
    put_members(alloc, report, writer)?;
    put_schema(alloc, &report.contents.schema, writer)?;
    put_tables(report.tables.as_slice(), writer)
}

fn put_members(alloc: Global, report: &Report, writer: &mut Writer) -> Result<(), AllocError>
    ensures { Adds result writer.old writer.new (array_at (codes "members") (members_tokens 0 report.now.files.items report.now.contents.nodes.items)) }
{
    writer.key("members")?;
    writer.begin_array()?;
    put_each_member(
        alloc,
        report.files.as_slice(),
        report.contents.nodes.as_slice(),
        writer,
    )?;
    writer.end_array()
}

// The name of the file at this place, if there is one.
fn name_at(files: &[String], place: usize) -> &str
    ensures { result.now ≡ name_at files.now place }
{
    match files.get(place) {
        Some(name) => name.as_str(),
        None => "",
    }
}

fn put_each_member(
    alloc: Global,
    files: &[String],
    nodes: &[Held],
    writer: &mut Writer,
) -> Result<(), AllocError>
    ensures { Adds result writer.old writer.new (members_tokens 0 files.now nodes.now) }
{
    for (place, held) in nodes.iter().enumerate() {
        put_member(alloc, place + 1, name_at(files, place), held, writer)?;
    }
    Ok(())
}

#[tactic(auto, unfolding(crate::specs::Machine::member_tokens))]
fn put_member(
    alloc: Global,
    node: usize,
    name: &str,
    held: &Held,
    writer: &mut Writer,
) -> Result<(), AllocError>
    ensures { Adds result writer.old writer.new (member_tokens node name.now held.now) }
{
    writer.begin_object()?;
    put_number("node", node as u64, writer)?;
    put_text("file", name, writer)?;
    put_number("bytes", held.file.bytes as u64, writer)?;
    put_digest(alloc, "sha256", &held.file.digest, writer)?;
    put_made(&held.counts, writer)?;
    put_told(&held.counts, writer)?;
    writer.end_object()
}

#[tactic(auto, unfolding(crate::specs::Machine::made_tokens))]
fn put_made(held: &Counts, writer: &mut Writer) -> Result<(), AllocError>
    ensures { Adds result writer.old writer.new (made_tokens held.now) }
{
    put_number("lives", held.lives as u64, writer)?;
    put_number("steps", held.steps as u64, writer)?;
    put_number("torn", held.torn as u64, writer)
}

#[tactic(auto, unfolding(crate::specs::Machine::told_tokens))]
fn put_told(held: &Counts, writer: &mut Writer) -> Result<(), AllocError>
    ensures { Adds result writer.old writer.new (told_tokens held.now) }
{
    put_number("taken", held.taken as u64, writer)?;
    put_number("outcomes", held.outcomes as u64, writer)?;
    put_number("answers", held.answers as u64, writer)
}

#[tactic(auto, unfolding(crate::specs::Machine::digested_tokens))]
fn put_schema(alloc: Global, schema: &Digested, writer: &mut Writer) -> Result<(), AllocError>
    ensures { Adds result writer.old writer.new (digested_tokens (codes "schema") schema.now) }
{
    writer.key("schema")?;
    writer.begin_object()?;
    put_number("bytes", schema.bytes as u64, writer)?;
    put_digest(alloc, "sha256", &schema.digest, writer)?;
    writer.end_object()
}

fn put_names(names: &[String], writer: &mut Writer) -> Result<(), AllocError>
    ensures { Adds result writer.old writer.new (map (λ name. string (string_bytes name)) names.now) }
{
    for name in names {
        writer.string(name.as_str())?;
    }
    Ok(())
}

fn put_tables(names: &[String], writer: &mut Writer) -> Result<(), AllocError>
    ensures { Adds result writer.old writer.new (array_at (codes "tables") (map (λ name. string (string_bytes name)) names.now)) }
{
    writer.key("tables")?;
    writer.begin_array()?;
    put_names(names, writer)?;
    writer.end_array()
}

// What was decided and answered, and what is kept.
#[tactic(auto, unfolding(crate::specs::Machine::last_tokens))]
fn put_last(alloc: Global, report: &Report, writer: &mut Writer) -> Result<(), AllocError>
    ensures { Adds result writer.old writer.new (last_tokens report.now) }
{
    put_settled(alloc, &report.settled, writer)?;
    put_answers(alloc, report, writer)?;
    put_kept(alloc, report, writer)
}

// The line that is kept for a later audit, and the seal.
#[tactic(auto, unfolding(crate::specs::Machine::kept_tokens))]
fn put_kept(alloc: Global, report: &Report, writer: &mut Writer) -> Result<(), AllocError>
    ensures { Adds result writer.old writer.new (kept_tokens report.now) }
{
    put_since(alloc, &report.contents, writer)?;
    put_digest(alloc, "seal", &report.seal, writer)
}

fn put_since(alloc: Global, contents: &Contents, writer: &mut Writer) -> Result<(), AllocError>
    ensures { Adds result writer.old writer.new (says (codes "since") (line_text contents.now.beginnings.items)) }
{
    let line = line_of(alloc, contents.beginnings.as_slice())?;
    put_text("since", line.as_str(), writer)
}

#[tactic(auto, unfolding(crate::specs::Machine::answers_tokens))]
fn put_answers(alloc: Global, report: &Report, writer: &mut Writer) -> Result<(), AllocError>
    ensures { Adds result writer.old writer.new (answers_tokens report.now.contents.given report.now.contents.answers) }
{
    writer.key("answers")?;
    writer.begin_object()?;
    put_number("count", report.contents.given as u64, writer)?;
    put_digest(alloc, "sha256", &report.contents.answers, writer)?;
    writer.end_object()
}

fn put_stamp(
    alloc: Global,
    name: &str,
    stamp: Option<Stamp>,
    writer: &mut Writer,
) -> Result<(), AllocError>
    ensures { Adds result writer.old writer.new (stamp_tokens name.now stamp) }
{
    writer.key(name)?;
    match stamp {
        Some(stamp) => {
            let instant = stamp.instant();
            let text = instant.to_string(alloc)?;
            writer.string(text.as_str())
        }
        None => writer.null(),
    }
}

#[tactic(auto, unfolding(crate::specs::Machine::requests_tokens))]
fn put_requests(settled: &Settled, writer: &mut Writer) -> Result<(), AllocError>
    ensures { Adds result writer.old writer.new (requests_tokens settled.now) }
{
    put_number("requests", settled.requests as u64, writer)?;
    put_number("accepted", settled.accepted as u64, writer)?;
    put_number("refused", settled.refused as u64, writer)
}

#[tactic(auto, unfolding(crate::specs::Machine::settled_tokens))]
fn put_settled(alloc: Global, settled: &Settled, writer: &mut Writer) -> Result<(), AllocError>
    ensures { Adds result writer.old writer.new (settled_tokens settled.now) }
{
    writer.key("decided")?;
    writer.begin_object()?;
    put_number("entries", settled.entries as u64, writer)?;
    put_requests(settled, writer)?;
    put_stamp(alloc, "first", settled.first, writer)?;
    put_stamp(alloc, "last", settled.last, writer)?;
    put_digest(alloc, "sha256", &settled.log, writer)?;
    writer.end_object()
}
