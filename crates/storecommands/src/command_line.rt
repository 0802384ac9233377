//! The commands over a store's folder on a command line: their words, and what these ask for.
ghost use Rattle.std.specs.Prelude.{◌≡◌, option_map, codes, false, IfSome, IfNone, IfOk};
ghost use Rattle.clap.specs.declared.builder.command.Command.TheViews.{out-Command};
ghost use Rattle.clap.specs.Words.{app_of, found_of, rows_of, rule_of};
ghost use Rattle.storecommands.specs.declared.command.Command.{Command as Asked};
ghost use Rattle.storecommands.specs.declared.command.NewStore.{NewStore as Made};
ghost use Rattle.storecommands.specs.declared.command.OpenStore.{OpenStore as Opened};
ghost use Rattle.storecommands.specs.declared.command.ExportRows.{ExportRows as Exported};
ghost use Rattle.storecommands.specs.declared.command.ImportRows.{ImportRows as Imported};
ghost use Rattle.storecommands.specs.CommandLine.{AsksExport, AsksFor, AsksImport, AsksNew, AsksOpen, GivesClock, GivesForm, GivesSync, all_rule, as_of_rule, csv_rule, from_line_rule, table_rule, import_app, export_app, clock_rule, format_rule, dir_rule, file_rule, nodes_rule, out_rule, schema_rule, sync_rule, new_app_words, open_app, log_app, flights_app, restore_app, with_store_commands};

use crate::command::{Command, ExportRows, ImportRows, NewStore, OpenStore};
use crate::dot::{Form, form_of};
use crate::given::{flag_of, line_of, text_of};
use clap::{Arg, ArgAction, ArgMatches, Command as Parser, value_parser};
use std::alloc::{AllocError, Global};

/// What is wrong with a command line that `clap` takes and for which `command_of` finds nothing.
pub const ASKS_NOTHING: &str = "--sync takes yes or no, and --format lines, table, csv or json";

const NEW_END: &str = "Example:
  bitable new pay --nodes 3 --schema pay.sql

  made pay: 3 members

Exit status:
  0  the store is made
  1  it is refused, on standard error; it can simply be asked for again
  2  the command line is not one of these";

const OPEN_END: &str = "Example:
  echo 'SELECT * FROM Pay;' | bitable open pay

  node 1 answer
  last 2026-01-05 09:12:59.370867
  ..

A line that ends with ; is a request or a question; .help tells what else can be typed. With
--format csv, or json, answers are shown so from the first one on.

Exit status:
  0  all lines were taken
  1  something was refused and nobody sits at a terminal; or the store is refused, on standard error
  2  the command line is not one of these";

const LOG_END: &str = "Exit status:
  0  the requests that are decided are listed
  1  the store is refused, on standard error
  2  the command line is not one of these";

const FLIGHTS_END: &str = "Example:
  bitable flights pay out
  bitable audit out/node1.flight out/node2.flight out/node3.flight

  audit: yes

Exit status:
  0  the flights are written
  1  the store is refused, or a flight can't be written, on standard error
  2  the command line is not one of these";

const RESTORE_END: &str =
    "The databases of a store's members are what its journals give. One that is missing, or holds something
else, is made anew from these; what was there is kept beside it. Nothing else is changed.

Example:
  bitable restore pay

  node 2: its database is made anew, with 9 entries
  restored 1 database

Exit status:
  0  each database is what the journals give
  1  the store is refused, on standard error
  2  the command line is not one of these";

const IMPORT_END: &str =
    "The first line names the columns; each other line is a row. The whole file is read first, and where a
line has a fault it is told with its place, and nothing is stored. Rows go in requests of up to
sixteen; one that is refused ends it, and --from-line goes on from there.

Example:
  bitable import pay Pay raises.csv

  raises.csv:2: accepted 2026-04-20 15:20:07.118240, lines 2 to 17
  raises.csv:18: accepted 2026-04-20 15:20:07.118241, line 18
  raises.csv: 17 of 17 rows are stored, in 2 requests

Exit status:
  0  all rows are stored
  1  a line has a fault, or a request is refused, on standard output; or the store is refused, on
     standard error
  2  the command line is not one of these";

const EXPORT_END: &str = "Example:
  bitable export pay Pay --as-of '2026-03-15 00:00:00.000000'

  ENo,PStart,PEnd,Salary,SysStart,SysEnd
  1,2026-01-01,2028-01-01,5000,2026-01-05 09:12:59.370867,9999-12-31 23:59:59.999999

Exit status:
  0  the rows are written
  1  the table or the instant is refused, or the store is, on standard error
  2  the command line is not one of these";

fn dir_word<'a>(alloc: Global) -> Arg<'a>
    ensures { (rule_of result ≡ dir_rule) × (result.global ≡ false) }
{
    Arg::new(alloc, "DIR")
        .required(true)
        .action(ArgAction::Set)
        .help("The folder of the store")
}

fn out_word<'a>(alloc: Global) -> Arg<'a>
    ensures { (rule_of result ≡ out_rule) × (result.global ≡ false) }
{
    Arg::new(alloc, "OUT")
        .required(true)
        .action(ArgAction::Set)
        .help("The folder for the flights; it is made if it is not there")
}

fn file_word<'a>(alloc: Global) -> Arg<'a>
    ensures { (rule_of result ≡ file_rule) × (result.global ≡ false) }
{
    Arg::new(alloc, "FILE").action(ArgAction::Set).help(
        "The file of the lines; without it, or as -, standard input",
    )
}

fn nodes_word<'a>(alloc: Global) -> Arg<'a>
    ensures { (rule_of result ≡ nodes_rule) × (result.global ≡ false) }
{
    Arg::new(alloc, "nodes")
        .long("nodes")
        .value_name("N")
        .required(true)
        .value_parser(value_parser!(u8).range(3..=7))
        .help("How many members there are, 3 to 7")
}

fn schema_word<'a>(alloc: Global) -> Arg<'a>
    ensures { (rule_of result ≡ schema_rule) × (result.global ≡ false) }
{
    Arg::new(alloc, "schema")
        .long("schema")
        .value_name("FILE")
        .required(true)
        .action(ArgAction::Set)
        .help("The file with the tables, as CREATE TABLE declares them")
}

fn sync_word<'a>(alloc: Global) -> Arg<'a>
    ensures { (rule_of result ≡ sync_rule) × (result.global ≡ false) }
{
    Arg::new(alloc, "sync")
        .long("sync")
        .value_name("YESNO")
        .action(ArgAction::Set)
        .help(
            "no: the journal is not synced, so that a power cut may lose what was told; a kill does not",
        )
}

fn clock_word<'a>(alloc: Global) -> Arg<'a>
    ensures { (rule_of result ≡ clock_rule) × (result.global ≡ false) }
{
    Arg::new(alloc, "clock")
        .long("clock")
        .value_name("T")
        .value_parser(value_parser!(u64))
        .help("What clocks show, in microseconds since 1970, in place of the system's clock")
}

fn format_word<'a>(alloc: Global) -> Arg<'a>
    ensures { (rule_of result ≡ format_rule) × (result.global ≡ false) }
{
    Arg::new(alloc, "format")
        .long("format")
        .value_name("FORM")
        .action(ArgAction::Set)
        .help("How answers are shown at first: lines, table, csv or json")
}

fn table_word<'a>(alloc: Global) -> Arg<'a>
    ensures { (rule_of result ≡ table_rule) × (result.global ≡ false) }
{
    Arg::new(alloc, "TABLE")
        .required(true)
        .action(ArgAction::Set)
        .help("The name of the table")
}

fn csv_word<'a>(alloc: Global) -> Arg<'a>
    ensures { (rule_of result ≡ csv_rule) × (result.global ≡ false) }
{
    Arg::new(alloc, "FILE")
        .required(true)
        .action(ArgAction::Set)
        .help("The CSV file with the rows")
}

fn from_line_word<'a>(alloc: Global) -> Arg<'a>
    ensures { (rule_of result ≡ from_line_rule) × (result.global ≡ false) }
{
    Arg::new(alloc, "from-line")
        .long("from-line")
        .value_name("N")
        .value_parser(value_parser!(u64))
        .help("Takes the rows from this line on; the first line of the file is 1")
}

fn as_of_word<'a>(alloc: Global) -> Arg<'a>
    ensures { (rule_of result ≡ as_of_rule) × (result.global ≡ false) }
{
    Arg::new(alloc, "as-of")
        .long("as-of")
        .value_name("INSTANT")
        .action(ArgAction::Set)
        .help("What was believed then, as '2026-03-15 00:00:00.000000'")
}

fn all_word<'a>(alloc: Global) -> Arg<'a>
    ensures { (rule_of result ≡ all_rule) × (result.global ≡ false) }
{
    Arg::new(alloc, "all")
        .long("all")
        .action(ArgAction::SetTrue)
        .help("All that was ever believed")
}

fn new_words<'a>(alloc: Global) -> Result<Parser<'a>, AllocError>
    ensures { IfOk result (λ c. (app_of c ≡ new_app_words) × ((out-Command c).has_globals ≡ false)) }
{
    Parser::new(alloc, "new")
        .about("Makes a store in a folder")
        .after_help(NEW_END)
        .arg(nodes_word(alloc))?
        .arg(schema_word(alloc))?
        .arg(dir_word(alloc))
}

fn open_words<'a>(alloc: Global) -> Result<Parser<'a>, AllocError>
    ensures { IfOk result (λ c. (app_of c ≡ open_app) × ((out-Command c).has_globals ≡ false)) }
{
    Parser::new(alloc, "open")
        .about("Opens the store in a folder, and takes requests and questions")
        .after_help(OPEN_END)
        .arg(sync_word(alloc))?
        .arg(clock_word(alloc))?
        .arg(format_word(alloc))?
        .arg(dir_word(alloc))?
        .arg(file_word(alloc))
}

fn log_words<'a>(alloc: Global) -> Result<Parser<'a>, AllocError>
    ensures { IfOk result (λ c. (app_of c ≡ log_app) × ((out-Command c).has_globals ≡ false)) }
{
    Parser::new(alloc, "log")
        .about("Lists the requests that are decided in the store of a folder")
        .after_help(LOG_END)
        .arg(dir_word(alloc))
}

fn flights_words<'a>(alloc: Global) -> Result<Parser<'a>, AllocError>
    ensures { IfOk result (λ c. (app_of c ≡ flights_app) × ((out-Command c).has_globals ≡ false)) }
{
    Parser::new(alloc, "flights")
        .about("Writes the flights of the store in a folder into another one")
        .after_help(FLIGHTS_END)
        .arg(dir_word(alloc))?
        .arg(out_word(alloc))
}

fn restore_words<'a>(alloc: Global) -> Result<Parser<'a>, AllocError>
    ensures { IfOk result (λ c. (app_of c ≡ restore_app) × ((out-Command c).has_globals ≡ false)) }
{
    Parser::new(alloc, "restore")
        .about(
            "Makes missing or altered databases of the store in a folder anew, from its journals",
        )
        .after_help(RESTORE_END)
        .arg(dir_word(alloc))
}

fn import_words<'a>(alloc: Global) -> Result<Parser<'a>, AllocError>
    ensures { IfOk result (λ c. (app_of c ≡ import_app) × ((out-Command c).has_globals ≡ false)) }
{
    Parser::new(alloc, "import")
        .about("Stores the rows of a CSV file in a table")
        .after_help(IMPORT_END)
        .arg(from_line_word(alloc))?
        .arg(dir_word(alloc))?
        .arg(table_word(alloc))?
        .arg(csv_word(alloc))
}

fn export_words<'a>(alloc: Global) -> Result<Parser<'a>, AllocError>
    ensures { IfOk result (λ c. (app_of c ≡ export_app) × ((out-Command c).has_globals ≡ false)) }
{
    Parser::new(alloc, "export")
        .about(
            "Writes the rows of a table as CSV: what is believed now, was at an instant, or ever was",
        )
        .after_help(EXPORT_END)
        .arg(as_of_word(alloc))?
        .arg(all_word(alloc))?
        .arg(dir_word(alloc))?
        .arg(table_word(alloc))
}

/// The program with the commands over a store's folder as its last subcommands.
pub fn with_commands<'a>(alloc: Global, program: Parser<'a>) -> Result<Parser<'a>, AllocError>
    ensures { IfOk result (λ c. app_of c ≡ with_store_commands (app_of program.entry)) }
{
    program
        .subcommand(new_words(alloc)?)?
        .subcommand(open_words(alloc)?)?
        .subcommand(import_words(alloc)?)?
        .subcommand(export_words(alloc)?)?
        .subcommand(log_words(alloc)?)?
        .subcommand(flights_words(alloc)?)?
        .subcommand(restore_words(alloc)?)
}

fn new_of<'a>(matches: &ArgMatches<'a>) -> Option<NewStore<'a>>
    ensures some { IfSome result (AsksNew (rows_of (found_of matches.now))) }
    ensures none { IfNone result ((made : Made) → ¬ AsksNew (rows_of (found_of matches.now)) made) }
{
    let members: u8 = matches.get_one("nodes")?;
    let schema = text_of(matches, "schema")?;
    let dir = text_of(matches, "DIR")?;
    if members < 3 || members > 7 {
        return None;
    }
    Some(NewStore {
        dir,
        members,
        schema,
    })
}

// Whether the journal is synced; none where the word is neither yes nor no.
fn sync_of(word: Option<&str>) -> Option<bool>
    ensures some { IfSome result (GivesSync (option_map (λ text. text.now) word.entry)) }
    ensures none { IfNone result ((syncs : _) → ¬ GivesSync (option_map (λ text. text.now) word.entry) syncs) }
{
    match word {
        None => Some(true),
        Some("yes") => Some(true),
        Some("no") => Some(false),
        Some(_) => None,
    }
}

// How answers are shown, if that is said; none where the word names no form.
fn format_of(word: Option<&str>) -> Option<Option<Form>>
    ensures some { IfSome result (GivesForm (option_map (λ text. text.now) word.entry)) }
    ensures none { IfNone result ((form : _) → ¬ GivesForm (option_map (λ text. text.now) word.entry) form) }
{
    let Some(word) = word else {
        return Some(None);
    };
    match form_of(word) {
        Some(form) => Some(Some(form)),
        None => None,
    }
}

fn clock_of(matches: &ArgMatches) -> Option<u64>
    ensures { GivesClock (rows_of (found_of matches.now)) result }
{
    matches.get_one("clock")
}

fn open_of<'a>(matches: &ArgMatches<'a>) -> Option<OpenStore<'a>>
    ensures some { IfSome result (AsksOpen (rows_of (found_of matches.now))) }
    ensures none { IfNone result ((opened : Opened) → ¬ AsksOpen (rows_of (found_of matches.now)) opened) }
{
    let dir = text_of(matches, "DIR")?;
    let syncs = sync_of(text_of(matches, "sync"))?;
    let form = format_of(text_of(matches, "format"))?;
    Some(OpenStore {
        dir,
        script: text_of(matches, "FILE"),
        syncs,
        clock: clock_of(matches),
        form,
    })
}

fn import_of<'a>(matches: &ArgMatches<'a>) -> Option<ImportRows<'a>>
    ensures some { IfSome result (AsksImport (rows_of (found_of matches.now))) }
    ensures none { IfNone result ((rows : Imported) → ¬ AsksImport (rows_of (found_of matches.now)) rows) }
{
    let dir = text_of(matches, "DIR")?;
    let table = text_of(matches, "TABLE")?;
    let file = text_of(matches, "FILE")?;
    Some(ImportRows {
        dir,
        table,
        file,
        from: line_of(matches, "from-line"),
    })
}

fn export_of<'a>(matches: &ArgMatches<'a>) -> Option<ExportRows<'a>>
    ensures some { IfSome result (AsksExport (rows_of (found_of matches.now))) }
    ensures none { IfNone result ((rows : Exported) → ¬ AsksExport (rows_of (found_of matches.now)) rows) }
{
    let dir = text_of(matches, "DIR")?;
    let table = text_of(matches, "TABLE")?;
    Some(ExportRows {
        dir,
        table,
        as_of: text_of(matches, "as-of"),
        is_all: flag_of(matches, "all"),
    })
}

fn new_command<'a>(matches: &ArgMatches<'a>) -> Option<Command<'a>>
    ensures some { IfSome result (AsksFor (codes "new") (rows_of (found_of matches.now))) }
    ensures none { IfNone result ((command : Asked) → ¬ AsksFor (codes "new") (rows_of (found_of matches.now)) command) }
{
    match new_of(matches) {
        Some(new) => Some(Command::New(new)),
        None => None,
    }
}

fn open_command<'a>(matches: &ArgMatches<'a>) -> Option<Command<'a>>
    ensures some { IfSome result (AsksFor (codes "open") (rows_of (found_of matches.now))) }
    ensures none { IfNone result ((command : Asked) → ¬ AsksFor (codes "open") (rows_of (found_of matches.now)) command) }
{
    match open_of(matches) {
        Some(open) => Some(Command::Open(open)),
        None => None,
    }
}

fn import_command<'a>(matches: &ArgMatches<'a>) -> Option<Command<'a>>
    ensures some { IfSome result (AsksFor (codes "import") (rows_of (found_of matches.now))) }
    ensures none { IfNone result ((command : Asked) → ¬ AsksFor (codes "import") (rows_of (found_of matches.now)) command) }
{
    match import_of(matches) {
        Some(import) => Some(Command::Import(import)),
        None => None,
    }
}

fn export_command<'a>(matches: &ArgMatches<'a>) -> Option<Command<'a>>
    ensures some { IfSome result (AsksFor (codes "export") (rows_of (found_of matches.now))) }
    ensures none { IfNone result ((command : Asked) → ¬ AsksFor (codes "export") (rows_of (found_of matches.now)) command) }
{
    match export_of(matches) {
        Some(export) => Some(Command::Export(export)),
        None => None,
    }
}

fn flights_of<'a>(matches: &ArgMatches<'a>) -> Option<Command<'a>>
    ensures some { IfSome result (AsksFor (codes "flights") (rows_of (found_of matches.now))) }
    ensures none { IfNone result ((command : Asked) → ¬ AsksFor (codes "flights") (rows_of (found_of matches.now)) command) }
{
    let dir = text_of(matches, "DIR")?;
    let out = text_of(matches, "OUT")?;
    Some(Command::Flights { dir, out })
}

/// What the subcommand of this name, with what `clap` found in its words, asks for: none where it is no command over a store's
/// folder, or one that asks for nothing, as `open` where `--sync` is neither yes nor no, or `--format` names no
/// form.
pub fn command_of<'a>(name: &str, matches: &ArgMatches<'a>) -> Option<Command<'a>>
    ensures some { IfSome result (AsksFor name.now (rows_of (found_of matches.now))) }
    ensures none { IfNone result ((command : Asked) → ¬ AsksFor name.now (rows_of (found_of matches.now)) command) }
{
    if name == "new" {
        return new_command(matches);
    }
    if name == "open" {
        return open_command(matches);
    }
    if name == "import" {
        return import_command(matches);
    }
    if name == "export" {
        return export_command(matches);
    }
    if name == "log" {
        return text_of(matches, "DIR").map(Command::Log);
    }
    if name == "flights" {
        return flights_of(matches);
    }
    if name == "restore" {
        return text_of(matches, "DIR").map(Command::Restore);
    }
    None
}
