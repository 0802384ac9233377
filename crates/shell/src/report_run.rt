//! The command `audit` with a report.
ghost use Rattle.std.specs.Prelude.{◌≡◌, ◌≢◌, ◌≤◌, ◌++◌, ◌⊎◌, ℕ, List, Some, length, map, string_bytes, Err, IfOk, IfErr, OnErr, OnOk};
ghost use Rattle.std.specs.Io.KnownBytes.{Appends};
ghost use Rattle.std.specs.declared.io.Error.{Error};
ghost use Rattle.fault.specs.declared.refusal.Refusal.TheVariants.{NoMemory, BadFlight};
ghost use Rattle.fault.specs.declared.refusal.Refusal.{Refusal as AnyRefusal};
ghost use Rattle.looks.specs.Objects.{line_of};
ghost use Rattle.moments.specs.declared.recorded.AuditFault.TheVariants.{NoMemory as NoMemoryLeft};
ghost use Rattle.report.specs.Machine.{report_tokens};
ghost use Rattle.report.specs.Pages.{kept_lines};
ghost use Rattle.report.specs.Whole.{seal_of};
ghost use Rattle.shell.specs.Audit.{evidence_of};
ghost use Rattle.shell.specs.Group.{IsNoGroup};
ghost use Rattle.answertext.specs.Outlets.{IsLastError};
ghost use Rattle.shell.specs.Reported.{BeginsReported, IsPrinted, IsReported, IsReportOn, IsVerdict, status_of, verdict_line};

use crate::group::read_group;
use answertext::outlet::{Outlet, tell};
use auditor::{AuditFault, audit};
use fault::Refusal;
use flight::Records;
use flight::flight::Version;
use moments::all_answers;
use report::difference::{Difference, difference_of};
use report::files::{File, files_of};
use report::machine::report_as_json;
use report::page::page_of;
use report::settled::{Settled, decided_of};
use report::stuck::Evidence;
use report::whole::{Contents, Report, verdict_of};
use schema::Schema;
use script::run_fault::RunFault;
use std::alloc::{AllocError, Global};
use world::event::Event;

// What an audit says, and of what run.
#[derive(Drop)]
struct Verdict {
    fault: Option<AuditFault>,
    difference: Option<Difference>,
    events: Vec<Event>,
}

// The verdict of a fault, with what differs there. The error is want of memory, be it the fault itself.
fn verdict_of_fault(
    alloc: Global,
    evidence: &Evidence<'_>,
    files: &[File<'_>],
    fault: &AuditFault,
) -> Result<Verdict, AllocError>
    requires least { 3 ≤ length evidence.now.lives.now }
    requires most { length evidence.now.lives.now ≤ 7 }
    ensures { IfOk result (λ verdict. (verdict.fault ≡ Some fault.now) × (fault.now ≢ NoMemoryLeft)) }
{
    if let AuditFault::NoMemory = *fault {
        return Err(AllocError);
    }
    let (difference, events) = difference_of(alloc, evidence, files, *fault)?;
    Ok(Verdict {
        fault: Some(*fault),
        difference,
        events,
    })
}

// What an audit says of what was recorded of a group of 3 to 7 nodes. The error is want of memory.
fn verdict_on(
    alloc: Global,
    evidence: &Evidence<'_>,
    files: &[File<'_>],
) -> Result<Verdict, AllocError>
    requires least { 3 ≤ length evidence.now.lives.now }
    requires most { length evidence.now.lives.now ≤ 7 }
    ensures { IfOk result (λ verdict. IsVerdict (record { version = evidence.now.version; tables = evidence.now.schema.now; lives = evidence.now.lives.now; answers = evidence.now.answers.now }) verdict.fault) }
{
    match audit(
        alloc,
        evidence.version,
        evidence.schema,
        evidence.lives,
        evidence.answers,
    ) {
        Ok(events) => Ok(Verdict {
            fault: None,
            difference: None,
            events,
        }),
        Err(fault) => verdict_of_fault(alloc, evidence, files, &fault),
    }
}

// The status with which an audit ends.
pub(crate) fn status_of(fault: &Option<AuditFault>) -> u8
    ensures { result ≡ status_of fault.now }
{
    if fault.is_none() { 0 } else { 1 }
}

// The report on what flights of a group of 3 to 7 nodes with these files hold. The error is want of memory.
fn report_on(
    alloc: Global,
    evidence: &Evidence<'_>,
    files: &[File<'_>],
    contents: Contents,
) -> Result<Report, AllocError>
    requires least { 3 ≤ length evidence.now.lives.now }
    requires most { length evidence.now.lives.now ≤ 7 }
    ensures verdict { IfOk result (λ r. IsVerdict (record { version = evidence.now.version; tables = evidence.now.schema.now; lives = evidence.now.lives.now; answers = evidence.now.answers.now }) r.fault) }
    ensures contents { IfOk result (λ r. r.contents ≡ contents) }
    ensures seal { IfOk result (λ r. r.seal ≡ seal_of r.contents r.settled r.fault) }
{
    let Verdict {
        fault,
        difference,
        events,
    } = verdict_on(alloc, evidence, files)?;
    let schema = evidence.schema;
    let list = decided_of(alloc, evidence.lives.len(), schema, events.as_slice())?;
    let settled = Settled::of(alloc, schema, list.as_slice())?;
    Report::of(alloc, files, fault, contents, schema, settled, difference)
}

// The same, of what was read of flights. 50 exactly of another group than one of 3 to 7 nodes, else 43 for want of memory.
fn report_of(
    alloc: Global,
    version: Version,
    schema: &Schema,
    records: &Records,
    files: &[File<'_>],
    contents: Contents,
) -> Result<Report, Refusal>
    ensures verdict { IfOk result (λ r. IsVerdict (evidence_of version schema.now records.now.lives.items records.now.answers.items) r.fault) }
    ensures contents { IfOk result (λ r. r.contents ≡ contents) }
    ensures seal { IfOk result (λ r. r.seal ≡ seal_of r.contents r.settled r.fault) }
    ensures err { IfErr result (λ refusal. (refusal ≡ NoMemory) ⊎ ((refusal ≡ BadFlight) × (3 ≤ length records.now.lives.items → length records.now.lives.items ≤ 7 → ⊥))) }
{
    if records.lives.len() < 3 || records.lives.len() > 7 {
        return Err(Refusal::BadFlight);
    }
    let judged = all_answers(alloc, records.answers.as_slice())?;
    let evidence = Evidence {
        version,
        schema,
        lives: records.lives.as_slice(),
        answers: judged.as_slice(),
    };
    Ok(report_on(alloc, &evidence, files, contents)?)
}

// The report on the flights in the files of these names, with these texts.
fn judge(alloc: Global, names: &[&str], texts: &[String]) -> Result<Report, Refusal>
    ensures ok { IfOk result (IsReportOn (map string_bytes texts.now)) }
    ensures err { IfErr result (λ refusal. (refusal ≡ NoMemory) ⊎ ((refusal ≡ BadFlight) × IsNoGroup (map string_bytes texts.now))) }
{
    let (version, schema, flights) = read_group(alloc, texts)?;
    let contents = Contents::of(alloc, flights.as_slice())?;
    let records = Records::of(alloc, flights)?;
    let files = files_of(alloc, names, texts)?;
    report_of(
        alloc,
        version,
        &schema,
        &records,
        files.as_slice(),
        contents,
    )
}

// A report as JSON.
fn as_json(alloc: Global, report: &Report) -> Result<String, AllocError>
    ensures { IfOk result (λ text. string_bytes text ≡ line_of (report_tokens report.now)) }
{
    match String::from_utf8(report_as_json(alloc, report)?) {
        Ok(text) => Ok(text),
        Err(_) => Err(AllocError),
    }
}

// The line of the verdict, and what a report has behind it, the lines to keep last.
fn as_text(alloc: Global, report: &Report) -> Result<String, AllocError>
    ensures { IfOk result (λ text. (more : List ℕ) × (string_bytes text ≡ verdict_line report.now.fault ++ (more ++ kept_lines report.now))) }
{
    let verdict = verdict_of(alloc, report.fault)?;
    let page = page_of(alloc, report)?;
    format!(in alloc; "audit: {verdict}\n{page}")
}

// What is printed of a report.
fn printed(alloc: Global, report: &Report, is_json: bool) -> Result<String, AllocError>
    ensures { IfOk result (λ text. IsPrinted is_json report.now (string_bytes text)) }
{
    if is_json {
        as_json(alloc, report)
    } else {
        as_text(alloc, report)
    }
}

// The exit status of an audit of the flights in the files of these names, with these texts, and what is printed of it.
fn reported(
    alloc: Global,
    names: &[&str],
    texts: &[String],
    is_json: bool,
) -> Result<(u8, String), Refusal>
    ensures ok { IfOk result (λ said. IsReported (map string_bytes texts.now) is_json said.0 (string_bytes said.1)) }
    ensures err { IfErr result (λ refusal. (refusal ≡ NoMemory) ⊎ ((refusal ≡ BadFlight) × IsNoGroup (map string_bytes texts.now))) }
{
    let report = judge(alloc, names, texts)?;
    let text = printed(alloc, &report, is_json)?;
    Ok((status_of(&report.fault), text))
}

/// Judges the flights in the files of these names, whose texts these are, as `run_audit` does, and prints a report: the line of the verdict,
/// and what stands behind it, or the whole as JSON. The exit status and what ends it otherwise are those of `run_audit`; at an
/// error of the outlet a beginning of the report was written.
pub fn run_report<O: Outlet>(
    alloc: Global,
    names: &[&str],
    texts: &[String],
    is_json: bool,
    outlet: &mut O,
) -> Result<u8, RunFault>
    ensures said { IfOk result (λ status. (text : List ℕ) × IsReported (map string_bytes texts.now) is_json status text × Appends (O.holds outlet.old) (O.holds outlet.new) text) }
    ensures sent { OnOk result (O.is_sent outlet.new) }
    ensures begun { OnErr result ((outlet.new ≡ outlet.old) ⊎ BeginsReported (map string_bytes texts.now) is_json (O.holds outlet.old) (O.holds outlet.new)) }
    ensures refused { (refusal : AnyRefusal) → result ≡ Err (RunFault.Refused refusal) → ((refusal ≡ NoMemory) ⊎ ((refusal ≡ BadFlight) × IsNoGroup (map string_bytes texts.now))) × (outlet.new ≡ outlet.old) }
    ensures failed { (error : Error) → result ≡ Err (RunFault.Output error) → IsLastError O.fails error outlet.new }
{
    let (status, text) = reported(alloc, names, texts, is_json)?;
    tell(text.as_str(), outlet)?;
    Ok(status)
}
