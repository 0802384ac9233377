//! The command line.
ghost use Rattle.std.specs.Prelude.{◌≡◌, ◌⊎◌, [], Some, map, option_map, string_bytes, codes, IfSome, IfNone, IfOk, IfErr, OnOk};
ghost use Rattle.clap.specs.Words.{fault_of, found_of, rows_of, subcommand_of, subcommand_rows_of, HasKind};
ghost use Rattle.clap.specs.Words.{all_of};
ghost use Rattle.shell.specs.declared.command.Command.{Command as Asked};
ghost use Rattle.shell.specs.declared.command.Live.{Live as Run};
ghost use Rattle.shell.specs.declared.command.Sim.{Sim as Shown};
ghost use Rattle.shell.specs.declared.command.Audit.{Audit as Judging};
ghost use Rattle.shell.specs.declared.command.Beliefs.{Beliefs as Picture};
ghost use Rattle.shell.specs.declared.command.Lanes.{Lanes as Drawn};
ghost use Rattle.shell.specs.declared.command.Check.{Check as Looked};
ghost use Rattle.shell.specs.CommandLine.{AsksAudit, AsksBeliefs, AsksCheck, AsksFor, AsksLanes, AsksLive, AsksSim, IsOfStore, bitable_app};

use crate::command::{Audit, Beliefs, Check, Command, Lanes, Live, Sim};
use crate::words::all_words;
use clap::error::ErrorKind;
use clap::{ArgMatches, Error};
use std::alloc::{AllocError, Global};
use storecommands::ASKS_NOTHING;
use storecommands::given::{flag_of, line_of, text_of};

/// The program's version, and the kit that proves it.
pub const VERSION: &str = "0.2.0 (rattle-kit-13f)";

fn live_of<'a>(matches: &ArgMatches<'a>) -> Option<Live<'a>>
    ensures some { IfSome result (AsksLive (rows_of (found_of matches.now))) }
    ensures none { IfNone result ((live : Run) → ¬ AsksLive (rows_of (found_of matches.now)) live) }
{
    let nodes: u8 = matches.get_one("nodes")?;
    let seed: u64 = matches.get_one("seed")?;
    let loss: u8 = matches.get_one("loss")?;
    let script = text_of(matches, "SCRIPT")?;
    let dir = text_of(matches, "dir");
    let format = text_of(matches, "format");
    if nodes < 3 || nodes > 7 || loss > 100 {
        return None;
    }
    Some(Live {
        nodes,
        seed,
        loss,
        dir,
        format,
        script,
    })
}

fn sim_of<'a>(matches: &ArgMatches<'a>) -> Option<Sim<'a>>
    ensures some { IfSome result (AsksSim (rows_of (found_of matches.now))) }
    ensures none { IfNone result ((sim : Shown) → ¬ AsksSim (rows_of (found_of matches.now)) sim) }
{
    let script = text_of(matches, "SCRIPT")?;
    Some(Sim {
        format: text_of(matches, "format"),
        is_quiet: flag_of(matches, "quiet"),
        is_strict: flag_of(matches, "strict"),
        script,
    })
}

fn beliefs_of<'a>(matches: &ArgMatches<'a>) -> Option<Beliefs<'a>>
    ensures some { IfSome result (AsksBeliefs (rows_of (found_of matches.now))) }
    ensures none { IfNone result ((picture : Picture) → ¬ AsksBeliefs (rows_of (found_of matches.now)) picture) }
{
    let script = text_of(matches, "SCRIPT")?;
    Some(Beliefs {
        svg: text_of(matches, "svg"),
        script,
        query: text_of(matches, "QUERY"),
    })
}

fn lanes_of<'a>(matches: &ArgMatches<'a>) -> Option<Lanes<'a>>
    ensures some { IfSome result (AsksLanes (rows_of (found_of matches.now))) }
    ensures none { IfNone result ((picture : Drawn) → ¬ AsksLanes (rows_of (found_of matches.now)) picture) }
{
    let script = text_of(matches, "SCRIPT")?;
    Some(Lanes {
        svg: text_of(matches, "svg"),
        first: line_of(matches, "from"),
        last: line_of(matches, "to"),
        script,
    })
}

fn check_of<'a>(matches: &ArgMatches<'a>) -> Option<Check<'a>>
    ensures some { IfSome result (AsksCheck (rows_of (found_of matches.now))) }
    ensures none { IfNone result ((check : Looked) → ¬ AsksCheck (rows_of (found_of matches.now)) check) }
{
    let file = text_of(matches, "FILE")?;
    Some(Check {
        is_schema: flag_of(matches, "schema"),
        file,
    })
}

fn files_of<'a>(alloc: Global, matches: &ArgMatches<'a>) -> Result<Option<Vec<&'a str>>, AllocError>
    ensures { IfOk result (λ files. option_map (λ names. map (λ text. text.now) names.items) files
        ≡ all_of (codes "FILE") (rows_of (found_of matches.now))) }
{
    match matches.get_strs("FILE") {
        Some(names) => Ok(Some(names.to_vec(alloc)?)),
        None => Ok(None),
    }
}

fn audit_of<'a>(alloc: Global, matches: &ArgMatches<'a>) -> Result<Option<Audit<'a>>, AllocError>
    ensures some { IfOk result (λ found. IfSome found (AsksAudit (rows_of (found_of matches.now)))) }
    ensures none { IfOk result (λ found. IfNone found ((audit : Judging) → ¬ AsksAudit (rows_of (found_of matches.now)) audit)) }
{
    let Some(files) = files_of(alloc, matches)? else {
        return Ok(None);
    };
    Ok(Some(Audit {
        is_report: flag_of(matches, "report"),
        is_json: flag_of(matches, "json"),
        since: text_of(matches, "since"),
        files,
    }))
}

// What the subcommand of this name, with what was found in its words, asks for; none where only a store's commands may have the name.
fn other_command_of<'a>(
    alloc: Global,
    name: &str,
    given: &ArgMatches<'a>,
) -> Result<Option<Command<'a>>, AllocError>
    ensures some { IfOk result (λ found. IfSome found (AsksFor (Some (name.now, rows_of (found_of given.now))))) }
    ensures none { IfOk result (λ found. IfNone found ((command : Asked) → AsksFor (Some (name.now, rows_of (found_of given.now))) command → IsOfStore command)) }
{
    if name == "sim" {
        return Ok(sim_of(given).map(Command::Sim));
    }
    if name == "beliefs" {
        return Ok(beliefs_of(given).map(Command::Beliefs));
    }
    if name == "lanes" {
        return Ok(lanes_of(given).map(Command::Lanes));
    }
    if name == "live" {
        return Ok(live_of(given).map(Command::Live));
    }
    if name == "audit" {
        return Ok(audit_of(alloc, given)?.map(Command::Audit));
    }
    if name == "check" {
        return Ok(check_of(given).map(Command::Check));
    }
    Ok(None)
}

// What parsed words ask for; none where they ask for nothing that there is.
fn command_of<'a>(
    alloc: Global,
    matches: &ArgMatches<'a>,
) -> Result<Option<Command<'a>>, AllocError>
    ensures some { IfOk result (λ found. IfSome found (AsksFor (subcommand_rows_of matches.now))) }
    ensures none { IfOk result (λ found. IfNone found ((command : Asked) → ¬ AsksFor (subcommand_rows_of matches.now) command)) }
{
    let Some((name, given)) = matches.subcommand() else {
        return Ok(Some(Command::PlayInput));
    };
    match storecommands::command_of(name, given) {
        Some(command) => Ok(Some(Command::Store(command))),
        None => other_command_of(alloc, name, given),
    }
}

/// What a command line asks for, the program's name first. The error is clap's: help that was asked for, words that it
/// refuses, or want of memory.
pub fn read_command<'a>(alloc: Global, words: &'a [String]) -> Result<Command<'a>, Error>
    ensures asked { IfOk result (AsksFor (subcommand_of bitable_app (map string_bytes words.now))) }
    ensures taken { OnOk result (fault_of bitable_app (map string_bytes words.now) ≡ []) }
    ensures refused { IfErr result (λ e. HasKind (fault_of bitable_app (map string_bytes words.now)) e
        ⊎ ((command : Asked) → ¬ AsksFor (subcommand_of bitable_app (map string_bytes words.now)) command)) }
{
    let mut parser = all_words(alloc)?;
    let matches = parser.try_get_matches_from_mut(words)?;
    match command_of(alloc, &matches)? {
        Some(command) => Ok(command),
        None => Err(parser.error(ErrorKind::InvalidValue, ASKS_NOTHING)?),
    }
}
