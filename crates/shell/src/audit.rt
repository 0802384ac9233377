//! The command `audit`, and the audit at the end of `live`.
ghost use Rattle.std.specs.Prelude.{◌≡◌, ◌≤◌, ◌⊎◌, ℕ, List, length, map, string_bytes, Err, IfOk, IfErr, OnErr, OnOk};
ghost use Rattle.std.specs.Io.KnownBytes.{Appends};
ghost use Rattle.std.specs.declared.io.Error.{Error};
ghost use Rattle.fault.specs.declared.refusal.Refusal.TheVariants.{NoMemory, BadFlight};
ghost use Rattle.fault.specs.declared.refusal.Refusal.{Refusal as AnyRefusal};
ghost use Rattle.shell.specs.Audit.{BeginsJudged, IsJudged, IsSaid, line_of, evidence_of};
ghost use Rattle.shell.specs.Group.{IsNoGroup};
ghost use Rattle.answertext.specs.Outlets.{IsLastError};

use crate::group::read_run;
use answertext::outlet::{Outlet, tell};
use auditor::AuditFault;
use fault::Refusal;
use flight::Records;
use flight::flight::Version;
use schema::Schema;
use script::run_fault::RunFault;
use std::alloc::{AllocError, Global};

fn fault_line(alloc: Global, fault: AuditFault) -> Result<String, AllocError>
    ensures { IfOk result (λ line. string_bytes line ≡ line_of fault) }
{
    let refusal = Refusal::from(fault);
    format!(in alloc; "audit: {refusal}\n")
}

// The exit status and the line to print of an audit of a group of 3 to 7 nodes. The error is want of memory.
fn said_of(
    alloc: Global,
    version: Version,
    schema: &Schema,
    records: &Records,
) -> Result<(u8, String), Refusal>
    requires least { 3 ≤ length records.now.lives.items }
    requires most { length records.now.lives.items ≤ 7 }
    ensures said { IfOk result (λ said. IsSaid (evidence_of version schema.now records.now.lives.items records.now.answers.items) said.0 (string_bytes said.1)) }
    ensures err { IfErr result (λ refusal. refusal ≡ NoMemory) }
{
    match auditor::judge(alloc, version, schema, records) {
        Ok(()) => Ok((0, format!(in alloc; "audit: yes\n")?)),
        Err(AuditFault::NoMemory) => Err(Refusal::NoMemory),
        Err(fault) => Ok((1, fault_line(alloc, fault)?)),
    }
}

/// What an audit says of these lives and answers, node by node, in flights of this version: the exit status, 0 or where it says no 1, and the line to
/// print. 50 exactly of another group than one of 3 to 7 nodes, else 43 for want of memory.
pub(crate) fn audit_line(
    alloc: Global,
    version: Version,
    schema: &Schema,
    records: &Records,
) -> Result<(u8, String), Refusal>
    ensures said { IfOk result (λ said. IsSaid (evidence_of version schema.now records.now.lives.items records.now.answers.items) said.0 (string_bytes said.1)) }
    ensures err { IfErr result (λ refusal. (refusal ≡ NoMemory) ⊎ ((refusal ≡ BadFlight) × (3 ≤ length records.now.lives.items → length records.now.lives.items ≤ 7 → ⊥))) }
{
    if records.lives.len() < 3 || records.lives.len() > 7 {
        return Err(Refusal::BadFlight);
    }
    said_of(alloc, version, schema, records)
}

// What an audit says of the flights in these texts.
fn judge(alloc: Global, texts: &[String]) -> Result<(u8, String), Refusal>
    ensures said { IfOk result (λ said. IsJudged (map string_bytes texts.now) said.0 (string_bytes said.1)) }
    ensures err { IfErr result (λ refusal. (refusal ≡ NoMemory) ⊎ ((refusal ≡ BadFlight) × IsNoGroup (map string_bytes texts.now))) }
{
    let (version, schema, records) = read_run(alloc, texts)?;
    audit_line(alloc, version, &schema, &records)
}

/// Judges the flights in these texts, one of each node in any order, and prints what an audit says of them: the one line
/// `audit: yes` with exit status 0, where the events of one run explain the lives and answers that the flights hold, or
/// `audit: ` and the fault with 1, where none do or marks do not rise. Else it gives what ended the command, and no other
/// line is printed: 50 exactly where the texts are not the flight files of a group, since one is no flight file, two differ in
/// version, members or schema, or a node is missing or doubled; or 43; or the error of the outlet's last call, after a
/// beginning of that line.
pub fn run_audit<O: Outlet>(alloc: Global, texts: &[String], outlet: &mut O) -> Result<u8, RunFault>
    ensures said { IfOk result (λ status. (line : List ℕ) × IsJudged (map string_bytes texts.now) status line × Appends (O.holds outlet.old) (O.holds outlet.new) line) }
    ensures sent { OnOk result (O.is_sent outlet.new) }
    ensures begun { OnErr result ((outlet.new ≡ outlet.old) ⊎ BeginsJudged (map string_bytes texts.now) (O.holds outlet.old) (O.holds outlet.new)) }
    ensures refused { (refusal : AnyRefusal) → result ≡ Err (RunFault.Refused refusal) → ((refusal ≡ NoMemory) ⊎ ((refusal ≡ BadFlight) × IsNoGroup (map string_bytes texts.now))) × (outlet.new ≡ outlet.old) }
    ensures failed { (error : Error) → result ≡ Err (RunFault.Output error) → IsLastError O.fails error outlet.new }
{
    let (status, line) = judge(alloc, texts)?;
    tell(line.as_str(), outlet)?;
    Ok(status)
}
