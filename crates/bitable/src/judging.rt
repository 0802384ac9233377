//! Audits of flights in files.
use crate::{progress_on, tell_unproved};
use beginnings::line::read_line;
use diagnosis::{Name, Trouble};
use fault::Refusal;
use progressline::{Progress, Uncovered};
use shell::audit::run_audit;
use shell::command::Audit;
use shell::report_run::run_report;
use shell::since_run::run_since;
use shell::stop::Stop;
use std::alloc::Global;
use std::io::Write;
use std::rt::Files;
use std::{fs, io};

// The texts of the files of these names. How many are read is told to who asks for it.
fn read_flights<'a, R: AllocGlobal + Files, Q: Progress>(
    rt: &R,
    names: &[&'a str],
    progress: &Q,
) -> Result<Vec<String>, Stop<'a>> {
    let mut texts = Vec::new(rt.alloc());
    progress.begin("files", names.len());
    for name in names {
        match fs::read_to_string(rt, *name) {
            Ok(text) => {
                texts.push(text)?;
                progress.tell(texts.len());
            }
            Err(error) => {
                let (file, tried) = (Name::Given(*name), "reading the flight");
                return Err(Stop::from(Trouble::of_system(file, tried, Refusal::BadFlight, error)));
            }
        }
    }
    Ok(texts)
}

// How many steps flights have, each in a line of its own.
fn steps_in(texts: &[String]) -> usize {
    let mut steps: usize = 0;
    for text in texts {
        let lines = text.as_str().split('\n');
        steps = steps.saturating_add(lines.filter(|line| line.starts_with("step ")).count());
    }
    steps
}

// That a report and a line that was kept do not go together, in the words that the command line has for such.
fn refuse_both(rt: &impl Eprint) -> Result<u8, Stop<'static>> {
    let _ = eprintln!(rt;
        "error: the argument '--since <LINE>' cannot be used with '--report' or '--json'\n\nFor more information, try '--help'."
    );
    Ok(2)
}

// That no report ends with this line, in the words that the command line has for a value that it does not take.
fn refuse_since(rt: &impl Eprint, line: &str) -> Result<u8, Stop<'static>> {
    let _ = eprintln!(rt;
        "error: invalid value '{line}' for '--since <LINE>': it is no line that 'audit --report' gives\n\nFor more information, try '--help'."
    );
    Ok(2)
}

// Says what an unproved program has to before its report: above the text, or on standard error where the report is JSON.
fn head_report<W: Write>(host: &HostRuntime, is_json: bool, writer: &mut W) {
    let _ = if is_json {
        tell_unproved(&mut io::writer(&host.stderr()))
    } else {
        tell_unproved(writer)
    };
}

// Judges flights in files, as it is asked for.
pub(crate) fn audit<'a, R>(rt: &R, host: &HostRuntime, asked: &Audit<'a>) -> Result<u8, Stop<'a>>
where
    R: AllocGlobal + Files + Print + Eprint,
{
    let alloc: Global = rt.alloc();
    let names = asked.files.as_slice();
    let seen = match asked.since {
        Some(_) if asked.is_report || asked.is_json => return refuse_both(rt),
        Some(line) => match read_line(alloc, line)? {
            Some(seen) => Some(seen),
            None => return refuse_since(rt, line),
        },
        None => None,
    };
    let progress = progress_on(host);
    let read = read_flights(rt, names, &progress);
    progress.hide();
    let texts = read?;
    if progress.is_on() {
        progress.judge(steps_in(texts.as_slice()));
    }
    let mut writer = Uncovered::new(io::writer(rt), &progress);
    let ended = if let Some(seen) = seen {
        run_since(alloc, seen.as_slice(), texts.as_slice(), &mut writer)
    } else if asked.is_report || asked.is_json {
        head_report(host, asked.is_json, &mut writer);
        run_report(alloc, names, texts.as_slice(), asked.is_json, &mut writer)
    } else {
        run_audit(alloc, texts.as_slice(), &mut writer)
    };
    progress.hide();
    ended.map_err(|fault| Stop::of_flights(alloc, fault, names, texts.as_slice()))
}
