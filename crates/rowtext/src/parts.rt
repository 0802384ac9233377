//! Parts of a statement that stand one after the other.
ghost use Rattle.std.specs.Prelude.{◌++◌, flat_map};
ghost use Rattle.answertext.specs.Sinks.{Puts};

use answertext::sink::Sink;
use schema::Table;

/// What a statement has several of: what is set, or the conditions.
pub(crate) trait Part {
    ghost use Rattle.std.specs.Prelude.{ℕ, List};
    ghost use Rattle.schema.specs.Shape.{TableShape};
    ghost use Rattle.answertext.specs.Sinks.{Puts};

    /// What is written of it over a table.
    ghost text: { TableShape → Self → List ℕ };

    /// Writes it.
    fn put<S: Sink>(&self, table: &Table, sink: &mut S) -> Result<(), S::Fault>
        ensures { Puts S.takes S.begins sink.old result (text table.now self.now) sink.new };
}

/// Writes each with the separator before it.
pub(crate) fn put_more<P: Part, S: Sink>(
    table: &Table,
    separator: &str,
    parts: &[P],
    sink: &mut S,
) -> Result<(), S::Fault>
    ensures { Puts S.takes S.begins sink.old result (flat_map (λ p. separator.now ++ P.text table.now p) parts.now) sink.new }
{
    for part in parts {
        sink.put(separator)?;
        part.put(table, sink)?;
    }
    Ok(())
}
