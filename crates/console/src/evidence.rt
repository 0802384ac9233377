//! What the journals of a store give: its audit, its log, its flights.
use crate::printing::print;
use crate::stop::{Fault, Stop};
use crate::transfers::progress_on;
use diagnosis::Name;
use model::member::Member;
use playback::Decided;
use std::alloc::{AllocError, Global};
use store::StoreRefusal;
use storeaudit::{Audited, Later, Verdict};

// What is said of a store of which an audit says yes.
fn yes_lines(alloc: Global, audited: &Audited) -> Result<String, AllocError> {
    let mut text = String::new(alloc);
    let missing = audited.missing.as_slice();
    put_missing(missing, &mut text)?;
    let members = audited.members;
    put_counts(
        audited.sessions,
        audited.requests,
        members,
        missing,
        &mut text,
    )?;
    text.push_str("audit: yes\n")?;
    Ok(text)
}

// The same where the first journals are away.
fn later_lines(alloc: Global, later: &Later) -> Result<String, AllocError> {
    let mut text = String::new(alloc);
    let missing = later.missing.as_slice();
    put_missing(missing, &mut text)?;
    let members = later.members;
    put_counts(later.sessions, later.requests, members, missing, &mut text)?;
    let journal = later.journal;
    let before = journal.saturating_sub(1);
    write!(
        text,
        "audit: yes, from journal {journal} on; it rests on what journal {before} left\n"
    )?;
    Ok(text)
}

// How many journals were played, and what came of them.
fn put_counts(
    sessions: u64,
    requests: u64,
    members: usize,
    missing: &[Member],
    text: &mut String,
) -> Result<(), AllocError> {
    let which = if missing.is_empty() {
        ""
    } else {
        " that is there"
    };
    write!(
        text,
        "sessions {sessions}, requests {requests}, members {members}: each database{which} is what the journals give\n"
    )
}

fn put_missing(missing: &[Member], text: &mut String) -> Result<(), AllocError> {
    for member in missing {
        let member = *member;
        write!(text, "the database of node {member} is missing\n")?;
    }
    Ok(())
}

// Judges the store in a folder. The exit status is 0 where the audit says yes, else 1.
pub(crate) fn run_audit(rt: &HostRuntime, alloc: Global, dir: &str) -> Result<u8, Fault> {
    match storeaudit::audit(rt, alloc, dir, &progress_on(rt))? {
        Verdict::Yes(audited) => {
            let lines = yes_lines(alloc, &audited)?;
            print(rt, lines.as_str())?;
            Ok(0)
        }
        Verdict::Later(later) => {
            let lines = later_lines(alloc, &later)?;
            print(rt, lines.as_str())?;
            Ok(0)
        }
        Verdict::No(fault) => {
            let line = format!(in alloc; "audit: {fault}\n")?;
            print(rt, line.as_str())?;
            if let Some(hint) = fault.hint() {
                let _ = eprintln!(*rt; "        {hint}");
            }
            Ok(1)
        }
    }
}

// A text as one line.
fn put_in_line(text: &str, line: &mut String) -> Result<(), AllocError> {
    for (at, part) in text.split('\n').enumerate() {
        if at > 0 {
            line.push(' ')?;
        }
        line.push_str(part)?;
    }
    Ok(())
}

// The line of a decided request. Its text's lines are put into one.
fn decided_line(alloc: Global, decided: &Decided) -> Result<String, AllocError> {
    let index = decided.index;
    let instant = decided.stamp.instant();
    let client = decided.client.get();
    let number = decided.number.get();
    let outcome = decided.outcome.as_str();
    let mut line = format!(in alloc;
        "entry {index} {instant} request {client} {number} {outcome} "
    )?;
    put_in_line(decided.text.as_str(), &mut line)?;
    line.push('\n')?;
    Ok(line)
}

// Lists the decided requests of the store in a folder.
pub(crate) fn run_log(rt: &HostRuntime, alloc: Global, dir: &str) -> Result<u8, Fault> {
    let play = storeaudit::replay(rt, alloc, dir, &progress_on(rt))?;
    for decided in play.decided() {
        let line = decided_line(alloc, decided)?;
        print(rt, line.as_str())?;
    }
    Ok(0)
}

// Writes the flights of the store in a folder.
pub(crate) fn run_flights<'a>(
    rt: &HostRuntime,
    alloc: Global,
    dir: &'a str,
    out: &'a str,
) -> Result<u8, Stop<'a>> {
    let tried = "writing the flights";
    match storeaudit::flights(rt, alloc, dir, out, &progress_on(rt)) {
        Ok(()) => Ok(0),
        Err(StoreRefusal::NotEmpty) => {
            Err(Stop::of(
                Fault::Refused(StoreRefusal::NotEmpty),
                Name::Given(out),
                tried,
            ))
        }
        Err(refusal) => Err(Stop::of(Fault::Refused(refusal), Name::Given(dir), tried)),
    }
}
