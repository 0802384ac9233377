//! The verdict on a run, in the form that is asked for.
ghost use Rattle.std.specs.Prelude.{◌≡◌, ◌≤◌, [], IfOk, length, string_bytes};
ghost use Rattle.flight.specs.declared.flight.Version.TheVariants.{Three};
ghost use Rattle.looks.specs.Objects.{line_of};
ghost use Rattle.looks.specs.Outcomes.{object};
ghost use Rattle.report.specs.Machine.{verdict_tokens};
ghost use Rattle.shell.specs.Audit.{IsSaid, evidence_of};
ghost use Rattle.shell.specs.Reported.{IsVerdict, status_of as status_with};
ghost use Rattle.shell.specs.Showing.{IsVerdictBeside, IsVerdictIn};

use crate::audit::audit_line;
use crate::report_run::status_of;
use crate::showing::{Printed, text_of};
use auditor::{AuditFault, judge};
use fault::Refusal;
use flight::Records;
use flight::flight::Version;
use forms::Form;
use report::machine::verdict_as_json;
use schema::Schema;
use std::alloc::{AllocError, Global};

// The fault that an audit finds in what was recorded of a group of 3 to 7 nodes, if it finds one. The error is want of memory.
fn found_in(
    alloc: Global,
    schema: &Schema,
    records: &Records,
) -> Result<Option<AuditFault>, Refusal>
    requires least { 3 ≤ length records.now.lives.items }
    requires most { length records.now.lives.items ≤ 7 }
    ensures { IfOk result (λ fault. IsVerdict (evidence_of Three schema.now records.now.lives.items records.now.answers.items) fault) }
{
    match judge(alloc, Version::Three, schema, records) {
        Ok(()) => Ok(None),
        Err(AuditFault::NoMemory) => Err(Refusal::NoMemory),
        Err(fault) => Ok(Some(fault)),
    }
}

// The same, of a run. 50 of another group than one of 3 to 7 nodes, else 43 for want of memory.
fn fault_of(
    alloc: Global,
    schema: &Schema,
    records: &Records,
) -> Result<Option<AuditFault>, Refusal>
    ensures { IfOk result (λ fault. IsVerdict (evidence_of Three schema.now records.now.lives.items records.now.answers.items) fault) }
{
    if records.lives.len() < 3 || records.lives.len() > 7 {
        return Err(Refusal::BadFlight);
    }
    found_in(alloc, schema, records)
}

// A verdict as JSON.
fn as_json(alloc: Global, fault: Option<AuditFault>) -> Result<String, AllocError>
    ensures { IfOk result (λ text. string_bytes text ≡ line_of (object (verdict_tokens fault))) }
{
    text_of(verdict_as_json(alloc, fault)?)
}

// The exit status and what is printed of a verdict as JSON.
fn object_with(alloc: Global, fault: Option<AuditFault>) -> Result<(u8, Printed), AllocError>
    ensures status { IfOk result (λ said. said.0 ≡ status_with fault) }
    ensures printed { IfOk result (λ said. string_bytes said.1.text ≡ line_of (object (verdict_tokens fault))) }
    ensures beside { IfOk result (λ said. string_bytes said.1.beside ≡ []) }
{
    let status = status_of(&fault);
    let text = as_json(alloc, fault)?;
    let beside = String::new(alloc);
    Ok((status, Printed { text, beside }))
}

// The exit status and the verdict of a run, as JSON.
fn object_of(alloc: Global, schema: &Schema, records: &Records) -> Result<(u8, Printed), Refusal>
    ensures printed { IfOk result (λ said. IsVerdictIn Form.Json (evidence_of Three schema.now records.now.lives.items records.now.answers.items) said.0 (string_bytes said.1.text)) }
    ensures beside { IfOk result (λ said. string_bytes said.1.beside ≡ []) }
{
    let fault = fault_of(alloc, schema, records)?;
    Ok(object_with(alloc, fault)?)
}

// The exit status and the verdict of a run, as the line that an audit says.
fn line_of_run(alloc: Global, schema: &Schema, records: &Records) -> Result<(u8, Printed), Refusal>
    ensures printed { IfOk result (λ said. IsSaid (evidence_of Three schema.now records.now.lives.items records.now.answers.items) said.0 (string_bytes said.1.text)) }
    ensures beside { IfOk result (λ said. string_bytes said.1.beside ≡ []) }
{
    let (status, text) = audit_line(alloc, Version::Three, schema, records)?;
    let beside = String::new(alloc);
    Ok((status, Printed { text, beside }))
}

// The same, told beside what is printed.
fn line_beside(alloc: Global, schema: &Schema, records: &Records) -> Result<(u8, Printed), Refusal>
    ensures printed { IfOk result (λ said. string_bytes said.1.text ≡ []) }
    ensures beside { IfOk result (λ said. IsSaid (evidence_of Three schema.now records.now.lives.items records.now.answers.items) said.0 (string_bytes said.1.beside)) }
{
    let (status, beside) = audit_line(alloc, Version::Three, schema, records)?;
    let text = String::new(alloc);
    Ok((status, Printed { text, beside }))
}

/// The exit status of a run, and what is printed of the verdict on it in a form, or told beside that. 50 of another group than one of 3
/// to 7 nodes, else 43 for want of memory.
pub(crate) fn verdict_in(
    alloc: Global,
    form: Form,
    schema: &Schema,
    records: &Records,
) -> Result<(u8, Printed), Refusal>
    ensures printed { IfOk result (λ said. IsVerdictIn form (evidence_of Three schema.now records.now.lives.items records.now.answers.items) said.0 (string_bytes said.1.text)) }
    ensures beside { IfOk result (λ said. IsVerdictBeside form (evidence_of Three schema.now records.now.lives.items records.now.answers.items) said.0 (string_bytes said.1.beside)) }
{
    match form {
        Form::Lines => line_of_run(alloc, schema, records),
        Form::Table => line_of_run(alloc, schema, records),
        Form::Csv => line_beside(alloc, schema, records),
        Form::Json => object_of(alloc, schema, records),
    }
}
