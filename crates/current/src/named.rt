//! The key that a WHERE names, so that only its rows need be looked at.
ghost use Rattle.std.specs.Prelude.{◌≡◌, ◌<◌, ◌≤◌, ℕ, true, length, IfOk, IfSome, None};
ghost use Rattle.std.specs.Option.{option_copied};
ghost use Rattle.model.specs.Tables.{Row};
ghost use Rattle.sqlchecks.specs.Comparisons.{passes_all};
ghost use Rattle.current.specs.Named.{equal_at, said_at, IsNamed};

use model::value::Value;
use overlaps::Key;
use sqlchecks::comparison::Comparison;
use sqlchecks::field::Field;
use sqlsyntax::Operator;
use std::alloc::{AllocError, Global};

// What the key column at this place is to be equal to, if the condition says so.
fn said_by(condition: &Comparison, place: usize) -> Option<&Value>
    ensures { option_copied result ≡ equal_at place condition.now.operator condition.now.field condition.now.value }
{
    let Operator::Equal = condition.operator else {
        return None;
    };
    match condition.field {
        Field::Key(column) if column == place => Some(&condition.value),
        _ => None,
    }
}

// The same of all conditions: the first that says it counts.
fn said_by_all(conditions: &[Comparison], place: usize) -> Option<&Value>
    ensures { option_copied result ≡ said_at place conditions.now }
{
    for condition in conditions {
        if let Some(value) = said_by(condition, place) {
            return Some(value);
        }
    }
    None
}

/// The one key of so many columns, or fewer, whose rows may pass the conditions, if they name each of
/// its columns with `=`.
pub(crate) fn named_key(
    alloc: Global,
    conditions: &[Comparison],
    columns: usize,
) -> Result<Option<Key>, AllocError>
    ensures some { IfOk result (λ found. IfSome found (λ key. (length key ≡ columns) × IsNamed conditions.now key)) }
    ensures none { IfOk result (λ found. found ≡ None → (place : ℕ) × (place < columns) × (said_at place conditions.now ≡ None)) }
    ensures only { IfOk result (λ found. IfSome found (λ key. (row : Row) → passes_all conditions.now row ≡ true → length row.key ≤ columns → row.key ≡ key)) }
{
    let mut values = Vec::new(alloc);
    for place in 0..columns {
        let Some(value) = said_by_all(conditions, place) else {
            return Ok(None);
        };
        values.push(value.clone()?)?;
    }
    Ok(Some(Key::new(values)?))
}
