//! The values that an INSERT gives the columns of its list.
ghost use Rattle.std.specs.Prelude.{IsTrue};
ghost use Rattle.sqlread.specs.Calendar.{is_in_calendar};

use fault::Refusal;
use model::value::Value;
use period::Day;
use schema::Kind;
use sqlchecks::literal::literal_value;
use sqlsyntax::Literal;
use std::alloc::Global;

/// A column by its place, and the value that it is given.
#[derive(Drop)]
pub(crate) struct Given {
    pub column: usize,
    pub value: Value,
    pub ghost in_calendar: { IsTrue (is_in_calendar value) },
}

impl Given {
    ghost use Rattle.sqlsyntax.specs.Shared.{literal_form};
    ghost use Rattle.namesyntax.specs.Parsing.{GivesInMemory};
    ghost use Rattle.sqlread.specs.Changes.{given_of, given, day_of};

    /// A literal as the value of a column, which is named by its place and its kind.
    #[tactic(auto, unfolding(crate::specs::Changes::given))]
    pub fn read(alloc: Global, column: (usize, Kind), literal: Literal) -> Result<Given, Refusal>
        ensures { GivesInMemory given_of result (given (column, literal_form literal.entry)) }
    {
        let (column, kind) = column;
        let value = literal_value(alloc, kind, literal)?;
        Ok(Given { column, value })
    }

    /// The value as a day. `WrongType` where it is another.
    pub fn day(&self) -> Result<Day, Refusal>
        ensures { GivesInMemory (λ d. d.number) result (day_of self.now.value) }
    {
        match self.value {
            Value::Day(number) => Ok(Day { number }),
            _ => Err(Refusal::WrongType),
        }
    }
}
