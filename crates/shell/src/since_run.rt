//! The command `audit` with a line that was kept of an earlier one.
ghost use Rattle.std.specs.Prelude.{◌≡◌, ◌++◌, ◌⊎◌, ℕ, List, map, string_bytes, Err, IfOk, IfErr, OnErr, OnOk};
ghost use Rattle.std.specs.Io.KnownBytes.{Appends};
ghost use Rattle.std.specs.declared.io.Error.{Error};
ghost use Rattle.answertext.specs.Outlets.{IsLastError};
ghost use Rattle.fault.specs.declared.refusal.Refusal.TheVariants.{NoMemory, BadFlight};
ghost use Rattle.fault.specs.declared.refusal.Refusal.{Refusal as AnyRefusal};
ghost use Rattle.shell.specs.Group.{IsNoGroup};
ghost use Rattle.shell.specs.Since.{BeginsSince, IsSince, status_with};

use crate::audit::audit_line;
use crate::group::read_group;
use answertext::outlet::{Outlet, tell};
use beginnings::Beginning;
use beginnings::words::told_of;
use fault::Refusal;
use flight::Records;
use script::run_fault::RunFault;
use std::alloc::{AllocError, Global};

// The exit status: the audit's, or 1 where not all flights begin as was kept.
fn status_with(verdict: u8, is_beginning: bool) -> u8
    ensures { result ≡ status_with verdict is_beginning }
{
    if is_beginning { verdict } else { 1 }
}

// A line, and what stands behind it.
fn joined(alloc: Global, line: &str, words: &str) -> Result<String, AllocError>
    ensures { IfOk result (λ text. string_bytes text ≡ line.now ++ words.now) }
{
    let mut text = String::from_str(alloc, line)?;
    text.push_str(words)?;
    Ok(text)
}

// The exit status of an audit of the flights in these texts beside what was kept of them, and what is printed of it.
fn judge(alloc: Global, seen: &[Beginning], texts: &[String]) -> Result<(u8, String), Refusal>
    ensures ok { IfOk result (λ said. IsSince (map string_bytes texts.now) seen.now said.0 (string_bytes said.1)) }
    ensures err { IfErr result (λ refusal. (refusal ≡ NoMemory) ⊎ ((refusal ≡ BadFlight) × IsNoGroup (map string_bytes texts.now))) }
{
    let (version, schema, flights) = read_group(alloc, texts)?;
    let told = told_of(alloc, flights.as_slice(), seen)?;
    let records = Records::of(alloc, flights)?;
    let (verdict, line) = audit_line(alloc, version, &schema, &records)?;
    let text = joined(alloc, line.as_str(), told.words.as_str())?;
    Ok((status_with(verdict, told.is_beginning), text))
}

/// Judges the flights in these texts as `run_audit` does, and prints, behind the line of the verdict, whether they begin as was kept of
/// them in the order of the nodes: `since: what was seen then is a beginning of this`; or a line of each node that does not begin so,
/// `since: node N differs from what was seen then` or `since: node N has less than was seen then`; or, of another number of nodes, which
/// it was. The exit status is 0 only where the audit says yes and all begin so, else 1. What ends it otherwise is as of `run_audit`; at
/// an error of the outlet a beginning of these lines was written.
pub fn run_since<O: Outlet>(
    alloc: Global,
    seen: &[Beginning],
    texts: &[String],
    outlet: &mut O,
) -> Result<u8, RunFault>
    ensures said { IfOk result (λ status. (text : List ℕ) × IsSince (map string_bytes texts.now) seen.now status text × Appends (O.holds outlet.old) (O.holds outlet.new) text) }
    ensures sent { OnOk result (O.is_sent outlet.new) }
    ensures begun { OnErr result ((outlet.new ≡ outlet.old) ⊎ BeginsSince (map string_bytes texts.now) seen.now (O.holds outlet.old) (O.holds outlet.new)) }
    ensures refused { (refusal : AnyRefusal) → result ≡ Err (RunFault.Refused refusal) → ((refusal ≡ NoMemory) ⊎ ((refusal ≡ BadFlight) × IsNoGroup (map string_bytes texts.now))) × (outlet.new ≡ outlet.old) }
    ensures failed { (error : Error) → result ≡ Err (RunFault.Output error) → IsLastError O.fails error outlet.new }
{
    let (status, text) = judge(alloc, seen, texts)?;
    tell(text.as_str(), outlet)?;
    Ok(status)
}
