//! The texts of keys.
ghost use Rattle.std.specs.Prelude.{Some, flat_map};
ghost use Rattle.std.specs.Fmt.{WritesOnOk};
ghost use Rattle.model.specs.Texts.{key_text};
ghost use Rattle.model.specs.Joined.{after_comma};

use crate::literal::Literal;
use crate::value::Value;
use std::fmt;

// Values with commas between them.
#[derive(Clone, Copy)]
pub(crate) struct Joined<'a>(pub(crate) &'a [Value]);

impl fmt::Display for Joined<'_> {
    ghost output = { λ joined. Some (key_text joined.0.now) };

    fn fmt<W: fmt::Write>(&self, f: &mut fmt::Formatter<W>) -> fmt::Result {
        match self.0.split_first() {
            None => Ok(()),
            Some((first, rest)) => {
                let first = Literal(first);
                write!(f, "{first}")?;
                write_rest(rest, f)
            }
        }
    }
}

// Each value, and a comma before it.
fn write_rest<W: fmt::Write>(rest: &[Value], f: &mut fmt::Formatter<W>) -> fmt::Result
    ensures { WritesOnOk W.write_str_gives f.old result (flat_map after_comma rest.now) f.new }
{
    for value in rest {
        let value = Literal(value);
        write!(f, ",{value}")?;
    }
    Ok(())
}
