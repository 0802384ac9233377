//! Comparisons of a column with a literal.
ghost use Rattle.std.specs.Prelude.{◌≡◌, map};
ghost use Rattle.std.specs.List.{list_all};
ghost use Rattle.std.specs.Option.{option_copied};
ghost use Rattle.sqlsyntax.specs.Shared.{comparison_form};
ghost use Rattle.namesyntax.specs.Parsing.{GivesInMemory};
ghost use Rattle.sqlchecks.specs.Columns.{kept_at};
ghost use Rattle.sqlchecks.specs.Comparisons.{compared_kind, comparison_in, comparisons_in, holds, compares};

use crate::column::{field_of, find_column};
use crate::field::Field;
use crate::literal::literal_value;
use fault::Refusal;
use model::value::Value;
use schema::{Kind, Table};
use sqlsyntax::{Comparison as ComparisonText, Operator};
use std::alloc::{AllocError, Global};
use std::cmp::Ordering;

/// A test on a row: its value of a column lies so to this one.
#[derive(Debug, Drop)]
pub struct Comparison {
    pub field: Field,
    pub operator: Operator,
    pub value: Value,
}

impl Clone for Comparison {
    ghost is_clone = { λ comparison copy. copy ≡ comparison };

    fn clone(&self) -> Result<Comparison, AllocError> {
        Ok(Comparison {
            field: self.field,
            operator: self.operator,
            value: self.value.clone()?,
        })
    }
}

/// The kind of a literal that a column of this kind is compared with.
fn compared_kind(kind: Kind) -> Kind
    ensures { result ≡ compared_kind kind }
{
    match kind {
        Kind::Varchar(_) => Kind::Varchar(255),
        kind => kind,
    }
}

/// A comparison as it is written, over the columns of a table.
///
/// `UnknownColumn` where the name is no column of the key and no value column; then `WrongType` and `OutOfRange` of
/// the literal, where a text may have up to 255 bytes; `NoMemory`.
#[tactic(auto, unfolding(crate::specs::Comparisons::comparison_in))]
pub fn read_comparison(
    alloc: Global,
    table: &Table,
    text: &ComparisonText,
) -> Result<Comparison, Refusal>
    ensures { GivesInMemory (λ c. c) result (comparison_in table.now (comparison_form text.now)) }
{
    let (column, kind) = find_column(table, text.column.written)?;
    let field = field_of(table, column).ok_or(Refusal::UnknownColumn)?;
    let value = literal_value(alloc, compared_kind(kind), text.literal)?;
    Ok(Comparison {
        field,
        operator: text.operator,
        value,
    })
}

/// All of these comparisons, refused with the refusal of the first that has one.
#[tactic(auto, unfolding(crate::specs::Comparisons::comparisons_in))]
pub fn read_comparisons(
    alloc: Global,
    table: &Table,
    texts: &[ComparisonText],
) -> Result<Vec<Comparison>, Refusal>
    ensures { GivesInMemory (λ cs. cs.items) result (comparisons_in table.now (map comparison_form texts.now)) }
{
    let mut comparisons = Vec::new(alloc);
    for text in texts {
        comparisons.push(read_comparison(alloc, table, text)?)?;
    }
    Ok(comparisons)
}

fn holds(operator: Operator, ordering: Ordering) -> bool
    ensures { result ≡ holds operator ordering }
{
    match operator {
        Operator::Equal => ordering.is_eq(),
        Operator::NotEqual => ordering.is_ne(),
        Operator::Less => ordering.is_lt(),
        Operator::LessEqual => ordering.is_le(),
        Operator::Greater => ordering.is_gt(),
        Operator::GreaterEqual => ordering.is_ge(),
    }
}

#[tactic(auto, unfolding(crate::specs::Columns::kept_at))]
fn kept_at<'a>(key: &'a [Value], values: &'a [Value], field: Field) -> Option<&'a Value>
    ensures { option_copied result ≡ kept_at key.now values.now field }
{
    match field {
        Field::Key(place) => key.get(place),
        Field::Value(place) => values.get(place),
    }
}

impl Comparison {
    /// Whether a row with this key and these values passes. One that has no such value does not. Takes no memory.
    #[tactic(auto, unfolding(crate::specs::Comparisons::compares))]
    pub fn passes(&self, key: &[Value], values: &[Value]) -> bool
        ensures { result ≡ compares self.now key.now values.now }
    {
        match kept_at(key, values, self.field) {
            Some(value) => holds(self.operator, value.cmp(&self.value)),
            None => false,
        }
    }
}

/// Whether a row with this key and these values passes all of them. Takes no memory.
pub fn pass_all(comparisons: &[Comparison], key: &[Value], values: &[Value]) -> bool
    ensures { result ≡ list_all (λ c. compares c key.now values.now) comparisons.now }
{
    comparisons.iter().all(|c| c.passes(key, values))
}
