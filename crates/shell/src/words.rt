//! The words of each command, and their help.
ghost use Rattle.std.specs.Prelude.{◌≡◌, codes, false, IfOk};
ghost use Rattle.clap.specs.declared.builder.command.Command.TheViews.{out-Command};
ghost use Rattle.clap.specs.Words.{app_of, new_app, rule_of};
ghost use Rattle.shell.specs.CommandLine.{script_rule, query_rule, format_rule, quiet_rule, strict_rule, svg_rule, from_rule, to_rule, nodes_rule, seed_rule, loss_rule, dir_rule, schema_rule, file_rule, report_rule, json_rule, since_rule, files_rule, sim_app, beliefs_app, lanes_app, live_app, audit_app, check_app, bitable_app, versioned};

use crate::command_line::VERSION;
use clap::builder::ValueParser;
use clap::{Arg, ArgAction, Command as Parser, value_parser};
use std::alloc::{AllocError, Global};
use storecommands::with_commands;

const EXAMPLES: &str = "Examples:
  bitable new pay --nodes 3 --schema examples/store.sql
  bitable import pay Emp examples/import.staff.csv
  bitable export pay Emp
  bitable audit pay
  bitable sim --quiet --format table examples/payroll.script

Each command has a --help of its own. Without a command it plays the script on
standard input, as sim does.";

const SIM_END: &str = "Example:
  bitable sim --quiet --format json examples/payroll.script

  {\"node\":1,\"entry\":2,\"client\":7,\"request\":1,\"accepted\":\"2026-01-05 09:00:00.000001\"}
  ..

Exit status:
  0  the script was played
  1  the script is refused, or, with --strict, something in it was: on standard error
  2  the command line is not one of these";

const LIVE_END: &str = "Example:
  bitable live --nodes 3 --seed 1 --loss 20 examples/insurance.script

  request 7 1 accepted 2026-03-02 09:00:00.000063
  ..
  audit: yes

Exit status:
  0  the script was played, and an audit of the run says yes
  1  the script or the folder is refused, on standard error; or the audit says no
  2  the command line is not one of these";

const AUDIT_END: &str = "Example:
  bitable audit run/node1.flight run/node2.flight run/node3.flight

  audit: yes

With --report what was judged, what is in it and what was decided follow, in counts and in
SHA-256, and what the verdict means; of a no where it differs, and what came before.
A lone name of a folder is that of a store: bitable audit pay

  sessions 3, requests 5, members 3: each database is what the journals give
  audit: yes

Exit status:
  0  yes: the events of one run explain what the flights have; of a store, the events that its
     journals spell give each outcome and answer, and what each database holds
  1  no; or the files are not the flights of a group, or the store is refused, on standard error
  2  the command line is not one of these";

const BELIEFS_END: &str =
    "A level of the picture is what was believed at that time, of each day; a column is
what was ever believed of a day, the newest on top.
With --svg it goes into a file, as a page for a browser, and nothing is printed.
With QUERY it is what the store in a folder answers: bitable beliefs pay 'SELECT * FROM Pay;'

Example:
  bitable beliefs examples/payroll.script

  still believed              ^           ^           ^           ^
                              | 5000      | 5000      | 5500      |
  2026-04-20 09:00:00.000000  |           +-----------+-----------+
                              |           | 5500                  |
  2026-02-10 09:00:00.000000  +-----------+-----------------------+
                              | 5000                              |
  2026-01-05 09:00:00.000001  +-----------------------------------+
                              2026-01-01  2026-02-01  2026-03-01  2028-01-01
                               1 month     1 month     22 months

Exit status:
  0  the picture is drawn, or there is no row to draw
  1  the script, the store or the question is refused, or nothing is answered; or there is too
     much to draw, or the file can't be written: on standard error
  2  the command line is not one of these";

const LANES_END: &str =
    "Each line of the script that does something and each thing that happens by it has a line. An
arrow is a message, from its sender to who takes it.
With --svg it goes into a file, as a page for a browser, and nothing is printed.

Example:
  bitable lanes --to 25 examples/failover.script

  failover.script
  | follows   ? stands for election   # leads   : is down   ...x is never taken

                            node 1             node 2             node 3
   24 timeout 1             |                  |                  |
                            ? stands in term 1 |                  |
   25 settle                ?                  |                  |
      1 votereq             ?----------------->|                  |
  ..

Exit status:
  0  the picture is drawn
  1  the script is refused, or nothing happens in these lines of it; or there is too much to
     draw, or the terminal is too narrow, or the file can't be written: on standard error
  2  the command line is not one of these";

const CHECK_END: &str =
    "Each fault is told with its place, its line and, where one is known, what could be done. A
schema is read to its first fault. What only a run can refuse is no fault.

Example:
  bitable check run.script

  run.script:22:26: 11 unknown table
     22 | submit 1 7 1 DELETE FROM Pya WHERE ENo = 1;
        |                          ^^^
          there is no table Pya. Did you mean Pay?

  run.script: 1 fault

Exit status:
  0  nothing is wrong
  1  something is, on standard output; or the file can't be read, on standard error
  2  the command line is not one of these";

fn script_word<'a>(alloc: Global) -> Arg<'a>
    ensures { (rule_of result ≡ script_rule) × (result.global ≡ false) }
{
    Arg::new(alloc, "SCRIPT")
        .required(true)
        .action(ArgAction::Set)
        .help("The file of the script")
}

fn format_word<'a>(alloc: Global) -> Arg<'a>
    ensures { (rule_of result ≡ format_rule) × (result.global ≡ false) }
{
    Arg::new(alloc, "format")
        .long("format")
        .value_name("FORM")
        .action(ArgAction::Set)
        .help("lines, table, csv or json")
}

fn quiet_word<'a>(alloc: Global) -> Arg<'a>
    ensures { (rule_of result ≡ quiet_rule) × (result.global ≡ false) }
{
    Arg::new(alloc, "quiet")
        .long("quiet")
        .action(ArgAction::SetTrue)
        .help("Leaves out the messages that are sent")
}

fn strict_word<'a>(alloc: Global) -> Arg<'a>
    ensures { (rule_of result ≡ strict_rule) × (result.global ≡ false) }
{
    Arg::new(alloc, "strict")
        .long("strict")
        .action(ArgAction::SetTrue)
        .help("Ends with status 1 where something was refused, and says how much")
}

fn sim_words<'a>(alloc: Global) -> Result<Parser<'a>, AllocError>
    ensures { IfOk result (λ c. (app_of c ≡ sim_app) × ((out-Command c).has_globals ≡ false)) }
{
    Parser::new(alloc, "sim")
        .about("Plays a script, one event after the other")
        .after_help(SIM_END)
        .arg(format_word(alloc))?
        .arg(quiet_word(alloc))?
        .arg(strict_word(alloc))?
        .arg(script_word(alloc))
}

fn svg_word<'a>(alloc: Global) -> Arg<'a>
    ensures { (rule_of result ≡ svg_rule) × (result.global ≡ false) }
{
    Arg::new(alloc, "svg")
        .long("svg")
        .value_name("FILE")
        .action(ArgAction::Set)
        .value_parser(ValueParser::NonEmptyString)
        .help("Draws a page for a browser into this file")
}

fn source_word<'a>(alloc: Global) -> Arg<'a>
    ensures { (rule_of result ≡ script_rule) × (result.global ≡ false) }
{
    Arg::new(alloc, "SCRIPT")
        .required(true)
        .action(ArgAction::Set)
        .help("The file of the script; with QUERY, the folder of a store")
}

fn query_word<'a>(alloc: Global) -> Arg<'a>
    ensures { (rule_of result ≡ query_rule) × (result.global ≡ false) }
{
    Arg::new(alloc, "QUERY")
        .action(ArgAction::Set)
        .value_parser(ValueParser::NonEmptyString)
        .help("The question that is asked of the store")
}

fn beliefs_words<'a>(alloc: Global) -> Result<Parser<'a>, AllocError>
    ensures { IfOk result (λ c. (app_of c ≡ beliefs_app) × ((out-Command c).has_globals ≡ false)) }
{
    Parser::new(alloc, "beliefs")
        .about("Draws what a script's last answer, or a store, says was ever believed")
        .after_help(BELIEFS_END)
        .arg(svg_word(alloc))?
        .arg(source_word(alloc))?
        .arg(query_word(alloc))
}

fn from_word<'a>(alloc: Global) -> Arg<'a>
    ensures { (rule_of result ≡ from_rule) × (result.global ≡ false) }
{
    Arg::new(alloc, "from")
        .long("from")
        .value_name("LINE")
        .value_parser(value_parser!(u64))
        .help("The first line of the script that is drawn")
}

fn to_word<'a>(alloc: Global) -> Arg<'a>
    ensures { (rule_of result ≡ to_rule) × (result.global ≡ false) }
{
    Arg::new(alloc, "to")
        .long("to")
        .value_name("LINE")
        .value_parser(value_parser!(u64))
        .help("The last line of the script that is drawn and played")
}

fn lanes_words<'a>(alloc: Global) -> Result<Parser<'a>, AllocError>
    ensures { IfOk result (λ c. (app_of c ≡ lanes_app) × ((out-Command c).has_globals ≡ false)) }
{
    Parser::new(alloc, "lanes")
        .about("Draws what the members do in a script, message by message")
        .after_help(LANES_END)
        .arg(svg_word(alloc))?
        .arg(from_word(alloc))?
        .arg(to_word(alloc))?
        .arg(script_word(alloc))
}

fn nodes_word<'a>(alloc: Global) -> Arg<'a>
    ensures { (rule_of result ≡ nodes_rule) × (result.global ≡ false) }
{
    Arg::new(alloc, "nodes")
        .long("nodes")
        .value_name("N")
        .required(true)
        .value_parser(value_parser!(u8).range(3..=7))
        .help("How many nodes there are, 3 to 7")
}

fn seed_word<'a>(alloc: Global) -> Arg<'a>
    ensures { (rule_of result ≡ seed_rule) × (result.global ≡ false) }
{
    Arg::new(alloc, "seed")
        .long("seed")
        .value_name("S")
        .required(true)
        .value_parser(value_parser!(u64))
        .help("What all chance comes from: the same seed and script give the same output")
}

fn loss_word<'a>(alloc: Global) -> Arg<'a>
    ensures { (rule_of result ≡ loss_rule) × (result.global ≡ false) }
{
    Arg::new(alloc, "loss")
        .long("loss")
        .value_name("P")
        .required(true)
        .value_parser(value_parser!(u8).range(0..=100))
        .help("How many messages of a hundred are lost")
}

fn dir_word<'a>(alloc: Global) -> Arg<'a>
    ensures { (rule_of result ≡ dir_rule) × (result.global ≡ false) }
{
    Arg::new(alloc, "dir")
        .long("dir")
        .value_name("DIR")
        .action(ArgAction::Set)
        .value_parser(ValueParser::NonEmptyString)
        .help("The folder for databases and flights; without it all is kept in memory")
}

fn live_words<'a>(alloc: Global) -> Result<Parser<'a>, AllocError>
    ensures { IfOk result (λ c. (app_of c ≡ live_app) × ((out-Command c).has_globals ≡ false)) }
{
    Parser::new(alloc, "live")
        .about("Plays a script on nodes that run on threads of their own")
        .after_help(LIVE_END)
        .arg(nodes_word(alloc))?
        .arg(seed_word(alloc))?
        .arg(loss_word(alloc))?
        .arg(dir_word(alloc))?
        .arg(format_word(alloc))?
        .arg(script_word(alloc))
}

fn files_word<'a>(alloc: Global) -> Arg<'a>
    ensures { (rule_of result ≡ files_rule) × (result.global ≡ false) }
{
    Arg::new(alloc, "FILE")
        .required(true)
        .num_args(1..)
        .action(ArgAction::Append)
        .help("The flight files, one of each node")
}

fn report_word<'a>(alloc: Global) -> Arg<'a>
    ensures { (rule_of result ≡ report_rule) × (result.global ≡ false) }
{
    Arg::new(alloc, "report")
        .long("report")
        .action(ArgAction::SetTrue)
        .help("Prints a report behind the verdict")
}

fn json_word<'a>(alloc: Global) -> Arg<'a>
    ensures { (rule_of result ≡ json_rule) × (result.global ≡ false) }
{
    Arg::new(alloc, "json")
        .long("json")
        .action(ArgAction::SetTrue)
        .help("Prints the verdict and the report as JSON, one object on a line")
}

fn since_word<'a>(alloc: Global) -> Arg<'a>
    ensures { (rule_of result ≡ since_rule) × (result.global ≡ false) }
{
    Arg::new(alloc, "since")
        .long("since")
        .value_name("LINE")
        .action(ArgAction::Set)
        .value_parser(ValueParser::NonEmptyString)
        .help("A line that an earlier report printed, which these flights are held against")
}

fn audit_words<'a>(alloc: Global) -> Result<Parser<'a>, AllocError>
    ensures { IfOk result (λ c. (app_of c ≡ audit_app) × ((out-Command c).has_globals ≡ false)) }
{
    Parser::new(alloc, "audit")
        .about("Says whether flights, or the store in a folder, are what one run gives")
        .after_help(AUDIT_END)
        .arg(report_word(alloc))?
        .arg(json_word(alloc))?
        .arg(since_word(alloc))?
        .arg(files_word(alloc))
}

fn schema_word<'a>(alloc: Global) -> Arg<'a>
    ensures { (rule_of result ≡ schema_rule) × (result.global ≡ false) }
{
    Arg::new(alloc, "schema")
        .long("schema")
        .action(ArgAction::SetTrue)
        .help("Reads the file as the tables of a schema, and not as a script")
}

fn file_word<'a>(alloc: Global) -> Arg<'a>
    ensures { (rule_of result ≡ file_rule) × (result.global ≡ false) }
{
    Arg::new(alloc, "FILE")
        .required(true)
        .action(ArgAction::Set)
        .help("The file of the script, or of the schema")
}

fn check_words<'a>(alloc: Global) -> Result<Parser<'a>, AllocError>
    ensures { IfOk result (λ c. (app_of c ≡ check_app) × ((out-Command c).has_globals ≡ false)) }
{
    Parser::new(alloc, "check")
        .about("Finds the faults of a script or a schema, and plays nothing")
        .after_help(CHECK_END)
        .arg(schema_word(alloc))?
        .arg(file_word(alloc))
}

fn program_words<'a>(alloc: Global) -> Parser<'a>
    ensures { app_of result ≡ versioned (new_app (codes "bitable")) }
{
    Parser::new(alloc, "bitable")
        .about("Tables that answer what was believed when, kept by several members")
        .version(VERSION)
        .after_help(EXAMPLES)
}

/// All words of the program: its own commands and those of a store.
pub(crate) fn all_words<'a>(alloc: Global) -> Result<Parser<'a>, AllocError>
    ensures { IfOk result (λ c. app_of c ≡ bitable_app) }
{
    with_commands(alloc, program_words(alloc))?
        .subcommand(audit_words(alloc)?)?
        .subcommand(sim_words(alloc)?)?
        .subcommand(live_words(alloc)?)?
        .subcommand(beliefs_words(alloc)?)?
        .subcommand(lanes_words(alloc)?)?
        .subcommand(check_words(alloc)?)
}
