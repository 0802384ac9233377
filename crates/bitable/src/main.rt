//! The program `bitable`: commands of the crates `shell` and `console` over files, folders and the standard streams.
#![tactic(auto)]

mod drawing;
mod judging;

use crate::drawing::{draw, draw_run};
use crate::judging::audit;
use clap::Error;
use clap::error::ErrorKind;
use console::Stop as Ended;
use diagnosis::{Name, Subject, Trouble, diagnose};
use fault::Refusal;
use forms::{Form, Look};
use progressline::ProgressLine;
use shell::command::{Audit, Beliefs, Check, Command, Lanes, Live, Sim};
use shell::command_line::{VERSION, read_command};
use shell::live_run::run_live;
use shell::shown_run::run_shown;
use shell::sim::run_sim;
use shell::stop::Stop;
use std::alloc::Global;
use std::fs::{File, OpenOptions};
use std::io::{BufWriter, IsTerminal, Read, Write};
use std::process::ExitCode;
use std::rt::{Env, Files};
use std::sync::Wait;
use std::thread::Threads;
use std::{env, fs, io};
use storecommands::Command as StoreCommand;

pub(crate) const SIM: &str = "playing the script";

// How the version ends of a program that tools/build_unproved made.
const UNPROVED: &str = "unproved";

// How many columns a terminal has.
const TERMINAL: usize = 80;

// The null device, if it can be opened.
fn null_device(rt: &HostRuntime) -> Option<File> {
    OpenOptions::new()
        .read(true)
        .write(true)
        .open(rt, "/dev/null")
        .ok()
}

// Opens the null device as often as there are standard streams. It takes the place of one that is closed, so that no other file does and is
// written to as if it were that stream.
fn hold_streams(rt: &HostRuntime) -> [Option<File>; 3] {
    [null_device(rt), null_device(rt), null_device(rt)]
}

fn main(rt: HostRuntime) -> ExitCode {
    let _streams = hold_streams(&rt);
    match words_given(&rt) {
        Ok(Some(words)) => do_asked(&rt, &rt, words.as_slice()),
        Ok(None) => end(&rt, refuse_words(&rt)),
        Err(stop) => end(&rt, Err(stop)),
    }
}

// Does what a command line asks for.
fn do_asked<R>(rt: &R, host: &HostRuntime, words: &[String]) -> ExitCode
where
    R: AllocGlobal + Files + Print + Eprint,
    R: Wait + Threads + Copy + Send + Drop + 'static,
{
    match read_command(host.alloc(), words) {
        Ok(Command::Store(command)) => serve_store(host, command),
        Ok(Command::Audit(asked)) => judge(host, &asked),
        Ok(Command::Beliefs(beliefs)) => draw_beliefs(host, beliefs),
        Ok(Command::PlayInput) => end(host, play_input(host)),
        Ok(Command::Sim(sim)) => end(host, play_sim(host, host, sim)),
        Ok(Command::Live(live)) => end(host, play_live(rt, host, live)),
        Ok(Command::Lanes(lanes)) => end(host, draw_run(host, host, lanes)),
        Ok(Command::Check(check)) => end(host, check_file(host, check)),
        Err(error) => end(host, tell_of_words(host, error)),
    }
}

// Does what is asked of a store. A sitting at a terminal begins with a line where nothing of the program was proved.
fn serve_store(host: &HostRuntime, command: StoreCommand<'_>) -> ExitCode {
    let is_open = matches!(command, StoreCommand::Open(_));
    if is_open && host.stdin().is_terminal() && host.stdout().is_terminal() {
        let _ = tell_unproved(&mut io::writer(host));
    }
    end_store(host, console::run(host, command))
}

// Says that nothing of the program was proved, where nothing was.
pub(crate) fn tell_unproved<W: Write>(writer: &mut W) -> io::Result<()> {
    if !VERSION.ends_with(UNPROVED) {
        return Ok(());
    }
    write!(
        writer,
        "bitable {VERSION}: nothing of this program was proved\n"
    )
}

// Prints the help that a command line asks for, or why it is refused.
fn tell_of_words<'a, R: Print + Eprint>(rt: &R, error: Error) -> Result<u8, Stop<'a>> {
    if error.kind() == ErrorKind::OutOfMemory {
        return Err(Stop::from(Refusal::NoMemory));
    }
    error.print(rt)?;
    Ok(if error.use_stderr() { 2 } else { 0 })
}

// Whether this is the name of a folder.
fn is_folder(rt: &HostRuntime, name: &str) -> bool {
    match fs::exists(rt, name) {
        Ok(true) => !storefolder::is_file(rt, name),
        _ => false,
    }
}

// Judges the store in a folder, where nothing but the name of a folder is given, else flights.
fn judge(rt: &HostRuntime, asked: &Audit<'_>) -> ExitCode {
    match asked.lone_name() {
        Some(name) if is_folder(rt, name) => {
            end_store(rt, console::run(rt, StoreCommand::Audit(name)))
        }
        _ => {
            let status = end(rt, audit(rt, rt, asked));
            hint_at_flights(rt, asked);
            status
        }
    }
}

// Below what an audit of flights says of a folder: how a store's flights are had.
fn hint_at_flights(rt: &HostRuntime, asked: &Audit<'_>) {
    let [name] = asked.files.as_slice() else {
        return;
    };
    let name = *name;
    if is_folder(rt, name) {
        let _ = eprintln!(*rt;
            "        bitable flights {name} OUT writes the flights of a store: these have a report."
        );
    }
}

// Draws what was ever believed, as the store in a folder answers a question, or as a script's last answer says.
fn draw_beliefs(rt: &HostRuntime, beliefs: Beliefs<'_>) -> ExitCode {
    match beliefs.query {
        Some(query) => {
            let (dir, width) = (beliefs.script, columns(rt));
            end_store(
                rt,
                console::draw_beliefs(rt, dir, query, beliefs.svg, width),
            )
        }
        None => end(rt, draw(rt, beliefs)),
    }
}

// The exit status; where the command was refused, why: the refusal, below it what is known of the file or the folder, and what to do.
fn end_store(rt: &impl Eprint, ended: Result<u8, Ended<'_>>) -> ExitCode {
    let stop = match ended {
        Ok(status) => return ExitCode::from(status),
        Err(stop) => stop,
    };
    let fault = &stop.fault;
    let _ = eprintln!(rt; "{fault}");
    if let Some(cause) = stop.cause {
        let _ = eprintln!(rt; "{cause}");
    }
    if let Some(hint) = stop.hint() {
        let _ = eprintln!(rt; "        {hint}");
    }
    ExitCode::FAILURE
}

// The exit status; where the command was refused, why: the refusal, and below it what is known of the file.
fn end(rt: &impl Eprint, ended: Result<u8, Stop<'_>>) -> ExitCode {
    let Stop { fault, cause } = match ended {
        Ok(status) => return ExitCode::from(status),
        Err(stop) => stop,
    };
    let _ = eprintln!(rt; "{fault}");
    if let Some(cause) = cause {
        let _ = eprintln!(rt; "{cause}");
    }
    ExitCode::FAILURE
}

// The words of the command line, the program's name first, or none where one is not UTF-8.
fn words_given<R: AllocGlobal + Env>(rt: &R) -> Result<Option<Vec<String>>, Stop<'static>> {
    match env::args(rt) {
        Ok(words) => Ok(Some(words.collect(rt.alloc())?)),
        Err(error) if error.kind() == io::ErrorKind::OutOfMemory => {
            Err(Stop::from(Refusal::NoMemory))
        }
        Err(_) => Ok(None),
    }
}

fn refuse_words(rt: &impl Eprint) -> Result<u8, Stop<'static>> {
    let _ = eprintln!(rt; "error: the command line is not UTF-8");
    Ok(2)
}

pub(crate) fn open_script<'a, R: Files>(rt: &R, path: &'a str) -> Result<R::File, Trouble<'a>> {
    let file = Name::Given(path);
    File::open(rt, path).map_err(|error| {
        Trouble::of_system(file, "opening the script", Refusal::BadScript(0), error)
    })
}

// What a played script came to: a refusal of the script has its file and what was tried as its cause.
pub(crate) fn script_ended<'a>(
    ended: Result<u8, Stop<'a>>,
    file: Name<'a>,
    tried: &'static str,
) -> Result<u8, Stop<'a>> {
    match ended {
        Ok(status) => Ok(status),
        Err(stop) => Err(stop.of_script(file, tried)),
    }
}

// Plays the script on standard input.
fn play_input<'a, R: AllocGlobal + Input + Print>(rt: &R) -> Result<u8, Stop<'a>> {
    script_ended(play(rt, &mut rt.reader()), Name::Input, SIM)
}

// Plays the script that the reader has, on standard output.
fn play<'a, R: AllocGlobal + Print, I: Read>(rt: &R, reader: &mut I) -> Result<u8, Stop<'a>> {
    let alloc: Global = rt.alloc();
    match BufWriter::new(alloc, io::writer(rt)) {
        Ok(mut writer) => Ok(run_sim(alloc, reader, &mut writer)?),
        Err(_) => Err(Stop::from(Refusal::NoMemory)),
    }
}

fn form_of(name: &str) -> Option<Form> {
    match name {
        "lines" => Some(Form::Lines),
        "table" => Some(Form::Table),
        "csv" => Some(Form::Csv),
        "json" => Some(Form::Json),
        _ => None,
    }
}

// That no form has this name, in the words that the command line has for a value that it does not take.
fn refuse_form(rt: &impl Eprint, name: &str) -> Result<u8, Stop<'static>> {
    let _ = eprintln!(rt;
        "error: invalid value '{name}' for '--format <FORM>'\n  [possible values: lines, table, csv, json]\n\nFor more information, try '--help'."
    );
    Ok(2)
}

// How many columns a line may have: what COLUMNS says, else 80.
pub(crate) fn columns<R: AllocGlobal + Env>(rt: &R) -> usize {
    match env::var(rt, "COLUMNS") {
        Ok(text) => text.as_str().parse::<usize>().unwrap_or(TERMINAL),
        Err(_) => TERMINAL,
    }
}

// How outputs are shown in this form: tables at a terminal in its columns.
fn look_of<R: AllocGlobal + Env>(rt: &R, host: &HostRuntime, form: Form, is_quiet: bool) -> Look {
    let width = if host.stdout().is_terminal() {
        Some(columns(rt))
    } else {
        None
    };
    Look {
        form,
        is_quiet,
        width,
    }
}

// Plays a script as it is asked for.
fn play_sim<'a, R>(rt: &R, host: &HostRuntime, sim: Sim<'a>) -> Result<u8, Stop<'a>>
where
    R: AllocGlobal + Env + Files + Print + Eprint,
{
    let name = sim.format.unwrap_or("lines");
    let Some(form) = form_of(name) else {
        return refuse_form(rt, name);
    };
    let mut script = open_script(rt, sim.script)?;
    let ended = if form == Form::Lines && !sim.is_quiet && !sim.is_strict {
        play(rt, &mut script)
    } else {
        let look = look_of(rt, host, form, sim.is_quiet);
        show(rt, host, look, sim.is_strict, &mut script)
    };
    script_ended(ended, Name::Given(sim.script), SIM)
}

// Plays the script that the reader has, shows it so, and, where it is strict, says what was refused.
fn show<'a, R, I>(
    rt: &R,
    host: &HostRuntime,
    look: Look,
    is_strict: bool,
    reader: &mut I,
) -> Result<u8, Stop<'a>>
where
    R: AllocGlobal + Print + Eprint,
    I: Read,
{
    let alloc: Global = rt.alloc();
    let errors = host.stderr();
    let Ok(writer) = BufWriter::new(alloc, io::writer(rt)) else {
        return Err(Stop::from(Refusal::NoMemory));
    };
    let tally = run_shown(alloc, look, reader, writer, io::writer(&errors))?;
    if !is_strict || tally.is_clean() {
        return Ok(0);
    }
    let _ = eprintln!(rt; "{tally}");
    Ok(1)
}

// What shows on standard error, where that is a terminal, how far a long work is.
pub(crate) fn progress_on(host: &HostRuntime) -> ProgressLine<'_, HostRuntime> {
    ProgressLine::new(host, host.stderr().is_terminal())
}

// Plays a script on nodes that run on threads of their own.
fn play_live<'a, R>(rt: &R, host: &HostRuntime, live: Live<'a>) -> Result<u8, Stop<'a>>
where
    R: AllocGlobal + Files + Print + Eprint + Wait + Threads + Copy + Send + Drop + 'static,
{
    let name = live.format.unwrap_or("lines");
    let Some(form) = form_of(name) else {
        return refuse_form(rt, name);
    };
    let file = Name::Given(live.script);
    let mut script = open_script(rt, live.script)?;
    let look = look_of(host, host, form, false);
    let ended = match BufWriter::new(rt.alloc(), io::writer(rt)) {
        Ok(mut writer) => {
            run_live(
                rt,
                host,
                live,
                look,
                &mut script,
                &mut writer,
                &progress_on(host),
            )
        }
        Err(_) => Err(Stop::from(Refusal::NoMemory)),
    };
    script_ended(ended, file, "playing the script with live")
}

// The bytes of a file that is read without being played.
fn read_bytes<'a, R: AllocGlobal + Files>(rt: &R, path: &'a str) -> Result<Vec<u8>, Stop<'a>> {
    match fs::read(rt, path) {
        Ok(bytes) => Ok(bytes),
        Err(error) => {
            let (file, tried) = (Name::Given(path), "reading the file");
            Err(Stop::from(Trouble::of_system(file, tried, Refusal::BadScript(0), error)))
        }
    }
}

// Tells the faults of a script or a schema.
fn check_file<'a, R>(rt: &R, check: Check<'a>) -> Result<u8, Stop<'a>>
where
    R: AllocGlobal + Files + Print,
{
    let bytes = read_bytes(rt, check.file)?;
    let subject = if check.is_schema {
        Subject::Schema
    } else {
        Subject::Script
    };
    let told = diagnose(rt.alloc(), subject, check.file, bytes.as_slice())?;
    let mut writer = io::writer(rt);
    writer.write_all(told.text.as_bytes())?;
    writer.flush()?;
    Ok(if told.is_clean { 0 } else { 1 })
}
