//! The terms of a query's WHERE, and the rows that pass them.
ghost use Rattle.std.specs.Prelude.{◌≡◌, ℕ, map};
ghost use Rattle.std.specs.List.{list_all};
ghost use Rattle.sqlsyntax.specs.Queries.{term_form};
ghost use Rattle.sqlchecks.specs.Answering.{Gives, each_of};
ghost use Rattle.namesyntax.specs.Parsing.{GivesInMemory};
ghost use Rattle.model.specs.Periods.{period_of};
ghost use Rattle.sqlread.specs.Shapes.{row, term_of};
ghost use Rattle.sqlread.specs.Questions.{of_period, term_in};
ghost use Rattle.sqlread.specs.Meaning.{relates, term_passes};

use fault::Refusal;
use model::value::Value;
use period::{Day, Period};
use schema::Table;
use sqlchecks::comparison::{Comparison, read_comparison};
use sqlchecks::literal::{read_day, read_period};
use sqlsyntax::{Comparison as ComparisonText, Name, Predicate, Relation, Term as TermText};
use std::alloc::{AllocError, Global};

/// What is asked of a row.
#[derive(Debug, Drop)]
pub enum Term {
    /// The row's value of a column lies so to a literal.
    Compares(Comparison),
    /// The row's period has this day.
    ContainsDay(Day),
    /// The row's period has each day of this one.
    Contains(Period),
    /// The row's period lies so to this one.
    Relates(Relation, Period),
}

impl Clone for Term {
    ghost is_clone = { λ term copy. term_of copy ≡ term_of term };

    fn clone(&self) -> Result<Term, AllocError> {
        match self {
            Term::Compares(comparison) => Ok(Term::Compares(comparison.clone()?)),
            Term::ContainsDay(day) => Ok(Term::ContainsDay(*day)),
            Term::Contains(period) => Ok(Term::Contains(*period)),
            Term::Relates(relation, period) => Ok(Term::Relates(*relation, *period)),
        }
    }
}

/// Refuses a name that is not that of the table's application period.
fn check_period(table: &Table, name: Name) -> Result<(), Refusal>
    ensures { Gives (λ _. tt) result (of_period table.now name.entry.written.now) }
{
    if !name.written.eq_ignore_ascii_case(table.period().as_str()) {
        return Err(Refusal::UnknownColumn);
    }
    Ok(())
}

/// A term of WHERE over the columns and the period of a table.
#[tactic(auto, unfolding(crate::specs::Questions::term_in, crate::specs::Questions::predicate_in))]
fn read_term(alloc: Global, table: &Table, term: &TermText) -> Result<Term, Refusal>
    ensures { GivesInMemory term_of result (term_in table.now (term_form term.now)) }
{
    match term.predicate {
        Predicate::Compares(operator, literal) => {
            let comparison = ComparisonText {
                column: term.name,
                operator,
                literal,
            };
            Ok(Term::Compares(read_comparison(alloc, table, &comparison)?))
        }
        Predicate::ContainsDay(day) => {
            check_period(table, term.name)?;
            Ok(Term::ContainsDay(read_day(day)?))
        }
        Predicate::ContainsSpan(span) => {
            check_period(table, term.name)?;
            Ok(Term::Contains(read_period(span.from, span.to)?))
        }
        Predicate::Relates(relation, span) => {
            check_period(table, term.name)?;
            Ok(Term::Relates(relation, read_period(span.from, span.to)?))
        }
    }
}

/// All of the terms, or the refusal of the first that has one.
pub(crate) fn read_terms(
    alloc: Global,
    table: &Table,
    terms: &[TermText],
) -> Result<Vec<Term>, Refusal>
    ensures { GivesInMemory (λ ts. map term_of ts.items) result (each_of (term_in table.now) (map term_form terms.now)) }
{
    let mut read = Vec::new(alloc);
    for term in terms {
        read.push(read_term(alloc, table, term)?)?;
    }
    Ok(read)
}

/// Whether the first period lies so to the second.
fn relates(relation: Relation, row: Period, other: Period) -> bool
    ensures { result ≡ relates relation (period_of row) (period_of other) }
{
    period::laws::by_ends();
    match relation {
        Relation::Overlaps => row.overlaps(other),
        Relation::Equals => row.equals(other),
        Relation::Precedes => row.precedes(other),
        Relation::Succeeds => row.succeeds(other),
        Relation::ImmediatelyPrecedes => row.immediately_precedes(other),
        Relation::ImmediatelySucceeds => row.immediately_succeeds(other),
    }
}

impl Term {
    /// Whether a row with this key, these values and this period passes, whenever it was born. A comparison with a
    /// value that the row does not have does not pass. Takes no memory.
    #[tactic(auto, unfolding(crate::specs::Meaning::term_passes))]
    pub fn passes(&self, key: &[Value], values: &[Value], period: Period) -> bool
        ensures { (system_start : ℕ) → result ≡ term_passes (term_of self.now) (row key.now values.now period system_start) }
    {
        match self {
            Term::Compares(comparison) => comparison.passes(key, values),
            Term::ContainsDay(day) => period.contains_day(*day),
            Term::Contains(other) => period.contains(*other),
            Term::Relates(relation, other) => relates(*relation, period, *other),
        }
    }
}

/// Whether a row with this key, these values and this period passes each term, whenever it was born. Takes no memory.
pub fn pass_all_terms(terms: &[Term], key: &[Value], values: &[Value], period: Period) -> bool
    ensures { (system_start : ℕ) → result ≡ list_all (λ t. term_passes t (row key.now values.now period system_start)) (map term_of terms.now) }
{
    for term in terms {
        if !term.passes(key, values, period) {
            return false;
        }
    }
    true
}
