//! How values, keys and days are written where an answer or a refusal names them.
ghost use Rattle.std.specs.Prelude.{◌≡◌, Some, IfOk};
ghost use Rattle.std.specs.Fmt.{WritesOnOk};
ghost use Rattle.model.specs.Texts.{doubled, value_text, key_text, day_text};

use crate::key::Joined;
use crate::value::Value;
use fault::Text;
use period::Day;
use std::alloc::{AllocError, Global};
use std::fmt;

// The number of 9999-12-31.
const LAST_DAY: u32 = 3_652_058;

/// A value as an answer shows it: a number in decimal, a text in quotes with each quote doubled, a
/// day as YYYY-MM-DD. A number past the last day is that of no day, and is shown in decimal.
#[derive(Clone, Copy)]
pub struct Literal<'a>(pub &'a Value);

impl fmt::Display for Literal<'_> {
    ghost output = { λ l. Some (value_text l.0.now) };

    fn fmt<W: fmt::Write>(&self, f: &mut fmt::Formatter<W>) -> fmt::Result {
        match self.0 {
            Value::Number(number) => write!(f, "{number}"),
            Value::Text(text) => {
                f.write_str("'")?;
                write_doubled(text, f)?;
                f.write_str("'")
            }
            Value::Day(number) => write_day(*number, f),
        }
    }
}

/// The text of a key: the texts of its values, as `Literal` shows them, with commas between them.
pub fn key_text(alloc: Global, key: &[Value]) -> Result<Text, AllocError>
    ensures { IfOk result (λ text. text ≡ key_text key.now) }
{
    let key = Joined(key);
    Text::from_string(format!(in alloc; "{key}")?)
}

/// The text of a day, YYYY-MM-DD.
pub fn day_text(alloc: Global, day: Day) -> Result<Text, AllocError>
    ensures { IfOk result (λ text. text ≡ day_text day.number) }
{
    Text::from_string(format!(in alloc; "{day}")?)
}

fn write_day<W: fmt::Write>(number: u32, f: &mut fmt::Formatter<W>) -> fmt::Result
    ensures { WritesOnOk W.write_str_gives f.old result (value_text (Value.Day number)) f.new }
{
    if number <= LAST_DAY {
        let day = Day { number };
        write!(f, "{day}")
    } else {
        write!(f, "{number}")
    }
}

// The text with its quotes doubled.
fn write_doubled<W: fmt::Write>(text: &Text, f: &mut fmt::Formatter<W>) -> fmt::Result
    ensures { WritesOnOk W.write_str_gives f.old result (doubled text.now) f.new }
{
    let mut rest = text.as_str();
    while let Some((before, after)) = rest.split_once('\'') {
        f.write_str(before)?;
        f.write_str("''")?;
        rest = after;
    }
    f.write_str(rest)
}
