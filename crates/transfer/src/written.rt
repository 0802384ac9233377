//! Names and values as a statement has them.
ghost use Rattle.std.specs.Prelude.{◌++◌, Some, map, flat_map, codes};
ghost use Rattle.std.specs.Fmt.{WritesOnOk};
ghost use Rattle.transfer.specs.Fields.{literal_text};
ghost use Rattle.transfer.specs.Rows.{listed};

use crate::header::Target;
use model::literal::Literal;
use model::value::Value;
use std::fmt;

/// The names of columns, with a comma and a space between two.
#[derive(Clone, Copy)]
pub(crate) struct Names<'a>(pub(crate) &'a [Target]);

impl fmt::Display for Names<'_> {
    ghost output = { λ names. Some (listed (map (λ t. t.name) names.0.now)) };

    fn fmt<W: fmt::Write>(&self, f: &mut fmt::Formatter<W>) -> fmt::Result {
        match self.0.split_first() {
            None => Ok(()),
            Some((first, rest)) => {
                let name = &first.name;
                write!(f, "{name}")?;
                write_names(rest, f)
            }
        }
    }
}

fn write_names<W: fmt::Write>(rest: &[Target], f: &mut fmt::Formatter<W>) -> fmt::Result
    ensures { WritesOnOk W.write_str_gives f.old result (flat_map (λ q. codes ", " ++ q) (map (λ t. t.name) rest.now)) f.new }
{
    for target in rest {
        let name = &target.name;
        write!(f, ", {name}")?;
    }
    Ok(())
}

/// The literal of a value.
#[derive(Clone, Copy)]
struct Written<'a>(&'a Value);

impl fmt::Display for Written<'_> {
    ghost output = { λ written. Some (literal_text written.0.now) };

    fn fmt<W: fmt::Write>(&self, f: &mut fmt::Formatter<W>) -> fmt::Result {
        let literal = Literal(self.0);
        match self.0 {
            Value::Day(_) => write!(f, "DATE '{literal}'"),
            _ => write!(f, "{literal}"),
        }
    }
}

/// The literals of values, with a comma and a space between two.
#[derive(Clone, Copy)]
pub(crate) struct Values<'a>(pub(crate) &'a [Value]);

impl fmt::Display for Values<'_> {
    ghost output = { λ values. Some (listed (map literal_text values.0.now)) };

    fn fmt<W: fmt::Write>(&self, f: &mut fmt::Formatter<W>) -> fmt::Result {
        match self.0.split_first() {
            None => Ok(()),
            Some((first, rest)) => {
                let first = Written(first);
                write!(f, "{first}")?;
                write_values(rest, f)
            }
        }
    }
}

fn write_values<W: fmt::Write>(rest: &[Value], f: &mut fmt::Formatter<W>) -> fmt::Result
    ensures { WritesOnOk W.write_str_gives f.old result (flat_map (λ q. codes ", " ++ q) (map literal_text rest.now)) f.new }
{
    for value in rest {
        let value = Written(value);
        write!(f, ", {value}")?;
    }
    Ok(())
}
