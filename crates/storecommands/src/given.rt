//! What the matches of a command line give an argument.
ghost use Rattle.std.specs.Prelude.{◌≡◌, option_map};
ghost use Rattle.clap.specs.Words.{first_of, found_of, rows_of};
ghost use Rattle.storecommands.specs.Given.{GivesFlag, GivesLine};

use clap::ArgMatches;

/// The first text that an argument was given, if any.
pub fn text_of<'a>(matches: &ArgMatches<'a>, id: &str) -> Option<&'a str>
    ensures { option_map (λ text. text.now) result ≡ first_of id.now (rows_of (found_of matches.now)) }
{
    matches.get_str(id)
}

/// Whether a flag was used.
pub fn flag_of(matches: &ArgMatches, id: &str) -> bool
    ensures { GivesFlag id.now (rows_of (found_of matches.now)) result }
{
    matches.get_flag(id)
}

/// The number of a line that an option was given, if any: unsigned, of 64 bits.
pub fn line_of(matches: &ArgMatches, id: &str) -> Option<u64>
    ensures { GivesLine id.now (rows_of (found_of matches.now)) result }
{
    matches.get_one(id)
}
