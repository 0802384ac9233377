//! What a column shows of a row, without quotes.
ghost use Rattle.std.specs.Prelude.{Some};
ghost use Rattle.std.specs.Fmt.{WritesOnOk};
ghost use Rattle.std.specs.Option.{option_copied};
ghost use Rattle.std.specs.Prelude.{◌≡◌};
ghost use Rattle.period.specs.SystemEnd.{end_text as system_end_text};
ghost use Rattle.answertext.specs.Answers.{end_text};
ghost use Rattle.looks.specs.Bare.{bare_optional, bare_text, bare_value};

use answer::{Shown, Shows};
use model::literal::Literal;
use model::stamp::Stamp;
use model::value::Value;
use period::SystemEnd;
use std::fmt;

// What a row has where a column shows it, without quotes, or nothing where it has none.
#[derive(Clone, Copy)]
pub(crate) struct Bare<'a> {
    pub(crate) row: &'a Shown,
    pub(crate) shows: Shows,
}

impl fmt::Display for Bare<'_> {
    ghost output = { λ bare. Some (bare_text bare.row.now bare.shows) };

    fn fmt<W: fmt::Write>(&self, f: &mut fmt::Formatter<W>) -> fmt::Result {
        let row = self.row;
        match self.shows {
            Shows::Key(place) => write_optional(row.key.as_slice().get(place), f),
            Shows::Value(place) => write_optional(row.values.as_slice().get(place), f),
            Shows::Start => {
                let start = row.period.start;
                write!(f, "{start}")
            }
            Shows::End => {
                let end = row.period.end;
                write!(f, "{end}")
            }
            Shows::SystemStart => {
                let system_start = row.system_start.instant();
                write!(f, "{system_start}")
            }
            Shows::SystemEnd => {
                let end = system_end_of(row.end);
                write!(f, "{end}")
            }
        }
    }
}

fn write_optional<W: fmt::Write>(value: Option<&Value>, f: &mut fmt::Formatter<W>) -> fmt::Result
    ensures { WritesOnOk W.write_str_gives f.old result (bare_optional (option_copied value.entry)) f.new }
{
    match value {
        Some(value) => write_value(value, f),
        None => Ok(()),
    }
}

fn write_value<W: fmt::Write>(value: &Value, f: &mut fmt::Formatter<W>) -> fmt::Result
    ensures { WritesOnOk W.write_str_gives f.old result (bare_value value.now) f.new }
{
    match value {
        Value::Text(text) => write!(f, "{text}"),
        value => {
            let literal = Literal(value);
            write!(f, "{literal}")
        }
    }
}

fn system_end_of(end: Option<Stamp>) -> SystemEnd
    ensures { system_end_text result ≡ end_text end }
{
    match end {
        Some(stamp) => SystemEnd::At(stamp.instant()),
        None => SystemEnd::Open,
    }
}
