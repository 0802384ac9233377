//! The commands.
use crate::evidence::{run_audit, run_flights, run_log};
use crate::line_limit::LineLimit;
use crate::line_reader::LineReader;
use crate::printing::{counted, name_of, print};
use crate::restores::{restore_unsynced, run_restore};
use crate::session::{Place, Session};
use crate::stop::{Fault, Stop};
use crate::transfers::carry_out;
use diagnosis::{Name, Trouble};
use fault::Refusal;
use schema::Schema;
use schemaread::schemas::read_schema;
use std::alloc::{AllocError, Global};
use std::fs::File;
use std::io::{BufReader, IsTerminal, Read};
use std::{env, fs};
use store::StoreRefusal;
use store::announcing::Announces;
use storecommands::dot::Form;
use storecommands::{Command, ExportRows, ImportRows, NewStore, OpenStore};
use storefolder::{Holder, Opened, hold_store, reading_of};
use transfer::{Export, Import, Order, Versions};

// How many columns a terminal has, where nothing tells.
const TERMINAL: usize = 80;

// How many bytes of an input are read ahead at most: as many as a pipe holds.
const READ_AHEAD: usize = 65_536;

// The names of the tables.
fn put_tables(schema: &Schema, line: &mut String) -> Result<(), AllocError> {
    let count = schema.len();
    line.push_str(if count == 1 { ", table " } else { ", tables " })?;
    for place in 0..count {
        if place > 0 {
            let is_last = place.saturating_add(1) == count;
            line.push_str(if is_last { " and " } else { ", " })?;
        }
        line.push_str(schema.table(place).0.as_str())?;
    }
    Ok(())
}

// Makes a store with the tables of a text, and says so; at a terminal with the names of the tables.
fn make(rt: &HostRuntime, alloc: Global, new: NewStore<'_>, schema: &str) -> Result<u8, Fault> {
    let members = usize::from(new.members);
    storefolder::make(rt, alloc, new.dir, members, schema)?;
    let name = name_of(new.dir);
    let members = counted(alloc, members, "member")?;
    let mut line = format!(in alloc; "made {name}: {members}")?;
    if rt.stdout().is_terminal() {
        put_tables(&read_schema(alloc, schema)?, &mut line)?;
    }
    line.push('\n')?;
    print(rt, line.as_str())?;
    Ok(0)
}

// Whether it is the tables that are refused.
fn is_of_tables(fault: &Fault) -> bool {
    match fault {
        Fault::Refused(StoreRefusal::Refused(refusal)) => refusal.number() < 20,
        _ => false,
    }
}

// Makes a store.
fn run_new<'a>(rt: &HostRuntime, alloc: Global, new: NewStore<'a>) -> Result<u8, Stop<'a>> {
    let (file, tried) = (Name::Given(new.schema), "reading the tables");
    let schema = match fs::read_to_string(rt, new.schema) {
        Ok(schema) => schema,
        Err(error) => {
            let refusal = Refusal::BadScript(0);
            return Err(Stop::from(Trouble::of_system(file, tried, refusal, error)));
        }
    };
    match make(rt, alloc, new, schema.as_str().trim_end()) {
        Ok(status) => Ok(status),
        Err(fault) if is_of_tables(&fault) => Err(Stop::of(fault, file, tried)),
        Err(fault) => Err(Stop::of(fault, Name::Given(new.dir), "making the store")),
    }
}

// What clocks show, if not what the system's clock does. 16 past what a clock can show.
fn clock_of<'a>(open: OpenStore<'_>) -> Result<Option<i64>, Stop<'a>> {
    let Some(reading) = open.clock else {
        return Ok(None);
    };
    match i64::try_from(reading) {
        Ok(reading) => Ok(Some(reading)),
        Err(_) => {
            let fault = Fault::from(Refusal::OutOfRange);
            Err(Stop::of(fault, Name::Given("--clock"), "reading the command line"))
        }
    }
}

// Somebody who sits at a store while it is open.
#[derive(Drop)]
struct Sitter<'a, R: Read + Drop> {
    alloc: Global,
    place: Place<'a>,
    input: LineReader<R>,
    clock: Option<i64>,
}

impl<R: Read + Drop> Holder for Sitter<'_, R> {
    // What came of it, and whether something was refused.
    type Output = (Result<(), Fault>, bool);

    fn hold<K: Announces>(
        self,
        rt: &HostRuntime,
        opened: Opened<K>,
    ) -> ((Result<(), Fault>, bool), Opened<K>)
    where
        K::Image: Drop,
    {
        let Sitter {
            alloc,
            place,
            input,
            clock,
        } = self;
        let Opened { store, found } = opened;
        let mut input = input;
        let mut session = Session::new(alloc, place, store, &found, clock);
        let played = session.play(rt, &mut input);
        let (store, is_refused) = session.end();
        ((played, is_refused), Opened { store, found })
    }
}

// Makes a store of a folder with the flights of a run, and says so on standard error.
fn adopt(rt: &HostRuntime, alloc: Global, dir: &str) -> Result<(), Fault> {
    if let Some(flights) = adopt::adopt_run(rt, alloc, dir)? {
        let _ = eprintln!(*rt;
            "made a store of the run in {dir}: its {flights} flights are journal 1"
        );
    }
    Ok(())
}

// A sitting over a reader. The exit status is 1 where something was refused and nobody sits at a terminal.
fn sit<R: Read + Drop>(
    rt: &HostRuntime,
    alloc: Global,
    place: Place<'_>,
    reader: R,
    syncs: bool,
    clock: Option<i64>,
) -> Result<u8, Fault> {
    let reading = reading_of(rt, clock)?;
    let Ok(reader) = BufReader::with_capacity(alloc, READ_AHEAD, LineLimit::new(reader)) else {
        return Err(Fault::from(Refusal::NoMemory));
    };
    let input = LineReader::new(alloc, reader);
    adopt(rt, alloc, place.dir)?;
    restore_unsynced(rt, alloc, place.dir)?;
    let sitter = Sitter {
        alloc,
        place,
        input,
        clock,
    };
    let ((played, is_refused), closed) = hold_store(rt, alloc, place.dir, syncs, reading, sitter)?;
    played?;
    closed?;
    Ok(if is_refused && !place.is_terminal {
        1
    } else {
        0
    })
}

// Whether it is the input that can't be read.
fn is_of_input(fault: &Fault) -> bool {
    matches!(
        fault,
        Fault::Refused(StoreRefusal::Refused(Refusal::BadScript(_)))
    )
}

// Why a sitting over this input ended before its end.
fn sitting_stopped<'a>(fault: Fault, dir: &'a str, input: Name<'a>) -> Stop<'a> {
    if is_of_input(&fault) {
        Stop::of(fault, input, "taking its lines")
    } else {
        Stop::of(
            fault,
            Name::Given(dir),
            "opening the store and taking lines",
        )
    }
}

// How many columns a line may have: what COLUMNS says, else 80.
fn columns(rt: &HostRuntime) -> usize {
    match env::var(rt, "COLUMNS") {
        Ok(text) => text.as_str().parse::<usize>().unwrap_or(TERMINAL),
        Err(_) => TERMINAL,
    }
}

// How answers are shown at first: as the command line says, else as tables at a terminal, and as lines elsewhere.
fn form_of(open: OpenStore<'_>, is_terminal: bool) -> Form {
    match open.form {
        Some(form) => form,
        None if is_terminal => Form::Table,
        None => Form::Lines,
    }
}

// A sitting over standard input.
fn sit_at_input<'a>(
    rt: &HostRuntime,
    alloc: Global,
    open: OpenStore<'a>,
    clock: Option<i64>,
) -> Result<u8, Stop<'a>> {
    let is_terminal = rt.stdin().is_terminal() && rt.stdout().is_terminal();
    let place = Place {
        dir: open.dir,
        name: "-",
        is_terminal,
        width: if is_terminal { Some(columns(rt)) } else { None },
        form: form_of(open, is_terminal),
    };
    match sit(rt, alloc, place, rt.reader(), open.syncs, clock) {
        Ok(status) => Ok(status),
        Err(fault) => Err(sitting_stopped(fault, open.dir, Name::Input)),
    }
}

// A sitting over the lines of a file, or of standard input.
fn run_open<'a>(rt: &HostRuntime, alloc: Global, open: OpenStore<'a>) -> Result<u8, Stop<'a>> {
    let clock = clock_of(open)?;
    let name = match open.script {
        Some(name) if name != "-" => name,
        _ => return sit_at_input(rt, alloc, open, clock),
    };
    let input = Name::Given(name);
    let file = match File::open(rt, name) {
        Ok(file) => file,
        Err(error) => {
            let refusal = Refusal::BadScript(0);
            return Err(Stop::from(Trouble::of_system(input, "opening it", refusal, error)));
        }
    };
    let place = Place {
        dir: open.dir,
        name,
        is_terminal: false,
        width: None,
        form: form_of(open, false),
    };
    match sit(rt, alloc, place, file, open.syncs, clock) {
        Ok(status) => Ok(status),
        Err(fault) => Err(sitting_stopped(fault, open.dir, input)),
    }
}

// Why an import or an export ended before its end.
fn fault_of(fault: transfer::Fault) -> Fault {
    match fault {
        transfer::Fault::Refused(refusal) => Fault::Refused(refusal),
        transfer::Fault::Output(error) => Fault::Output(error),
        transfer::Fault::File(_) => Fault::from(Refusal::BadScript(0)),
    }
}

// Whether it is the refusal of this number.
fn has_number(fault: &Fault, number: u8) -> bool {
    match fault {
        Fault::Refused(StoreRefusal::Refused(refusal)) => refusal.number() == number,
        _ => false,
    }
}

// Why an import or an export ended before its end: a table that is not there is named, else the folder.
fn rows_stopped<'a>(fault: Fault, dir: &'a str, table: &'a str, tried: &'static str) -> Stop<'a> {
    if has_number(&fault, 11) {
        let found = "the store has none of this name";
        return Stop::found(fault, Name::Given(table), "looking for the table", found);
    }
    Stop::of(fault, Name::Given(dir), tried)
}

// Why an export ended before its end: an instant that is none is of its option.
fn export_stopped<'a>(fault: Fault, dir: &'a str, table: &'a str) -> Stop<'a> {
    let (option, tried) = (Name::Given("--as-of"), "reading the instant");
    if has_number(&fault, 10) {
        let found = "it is written as '2026-01-31 00:00:00.000000'";
        return Stop::found(fault, option, tried, found);
    }
    if has_number(&fault, 16) {
        return Stop::found(fault, option, tried, "there is no such instant");
    }
    rows_stopped(fault, dir, table, "exporting rows")
}

// Stores the rows of a CSV file. The exit status is 1 where not all are stored.
fn run_import<'a>(rt: &HostRuntime, alloc: Global, import: ImportRows<'a>) -> Result<u8, Stop<'a>> {
    let ImportRows {
        dir,
        table,
        file,
        from,
    } = import;
    let from = match from {
        Some(line) => line as usize,
        None => 1,
    };
    let order = Order::Import(Import {
        dir,
        table,
        file,
        from,
    });
    match carry_out(rt, alloc, order) {
        Ok(status) => Ok(status),
        Err(transfer::Fault::File(error)) => {
            let (file, refusal) = (Name::Given(file), Refusal::BadScript(0));
            Err(Stop::from(Trouble::of_system(file, "reading the rows", refusal, error)))
        }
        Err(fault) => Err(rows_stopped(fault_of(fault), dir, table, "importing rows")),
    }
}

// Which versions are written; none where the words name both an instant and all.
fn versions_of<'a>(export: ExportRows<'a>) -> Option<Versions<'a>> {
    match (export.as_of, export.is_all) {
        (None, false) => Some(Versions::Current),
        (Some(instant), false) => Some(Versions::AsOf(instant)),
        (None, true) => Some(Versions::All),
        (Some(_), true) => None,
    }
}

// Writes the rows of a table as CSV.
fn run_export<'a>(rt: &HostRuntime, alloc: Global, export: ExportRows<'a>) -> Result<u8, Stop<'a>> {
    let Some(versions) = versions_of(export) else {
        let fault = Fault::from(Refusal::OutOfRange);
        let (option, tried) = (Name::Given("--as-of"), "reading the command line");
        return Err(Stop::found(fault, option, tried, "--all is of every instant"));
    };
    let ExportRows { dir, table, .. } = export;
    let order = Order::Export(Export {
        dir,
        table,
        versions,
    });
    match carry_out(rt, alloc, order) {
        Ok(status) => Ok(status),
        Err(fault) => Err(export_stopped(fault_of(fault), dir, table)),
    }
}

/// Does what a command line asks for, on the standard streams. It gives the exit status: 0; 1 where an audit says no, or something
/// was refused in a sitting and nobody sits at a terminal.
///
/// It ends before its end where standard output fails, or as the store is refused: 38 to 40, 43, 46 to 49 and 55 to 57; 10 to 18 of the
/// tables of a new store; 60 of an input that can't be read.
pub fn run<'a>(rt: &HostRuntime, command: Command<'a>) -> Result<u8, Stop<'a>> {
    let alloc: Global = rt.alloc();
    match command {
        Command::New(new) => run_new(rt, alloc, new),
        Command::Open(open) => run_open(rt, alloc, open),
        Command::Log(dir) => match run_log(rt, alloc, dir) {
            Ok(status) => Ok(status),
            Err(fault) => Err(Stop::of(fault, Name::Given(dir), "reading the journals")),
        },
        Command::Flights { dir, out } => run_flights(rt, alloc, dir, out),
        Command::Audit(dir) => match run_audit(rt, alloc, dir) {
            Ok(status) => Ok(status),
            Err(fault) => Err(Stop::of(fault, Name::Given(dir), "judging the store")),
        },
        Command::Restore(dir) => match run_restore(rt, alloc, dir) {
            Ok(status) => Ok(status),
            Err(fault) => Err(Stop::of(fault, Name::Given(dir), "restoring databases")),
        },
        Command::Import(import) => run_import(rt, alloc, import),
        Command::Export(export) => run_export(rt, alloc, export),
    }
}
