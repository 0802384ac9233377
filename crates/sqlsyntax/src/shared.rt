//! What queries and transactions share.

ghost use Rattle.std.specs.Prelude.{◌≡◌, Ok, map};
ghost use Rattle.std.specs.Option.{option_map};
ghost use Rattle.sqltokens.specs.What.{What, whats, is_word, is_symbol};
ghost use Rattle.phrase.specs.Grammar.{next, one, optional};
ghost use Rattle.phrase.specs.Reading.{Gives};
ghost use Rattle.sqlsyntax.specs.Shared.{operator_of, is_operator, operators, date, literal, literal_form, comparison, comparison_form, another_comparison, comparisons, condition};

use crate::forms::{Comparison, Literal, Operator};
use namesyntax::lists::{Repeated, row};
use namesyntax::names::name;
use phrase::ReadError;
use sqltokens::{
    Cursor, Keyword, Kind, Quoted, Sign, date_text, digits, next_is, next_is_sign, next_is_text,
    sign, text, word,
};
use std::alloc::Global;

fn operator_of(sign: Sign) -> Option<Operator>
    ensures { result ≡ operator_of sign }
{
    match sign {
        Sign::Equal => Some(Operator::Equal),
        Sign::NotEqual => Some(Operator::NotEqual),
        Sign::Less => Some(Operator::Less),
        Sign::LessEqual => Some(Operator::LessEqual),
        Sign::Greater => Some(Operator::Greater),
        Sign::GreaterEqual => Some(Operator::GreaterEqual),
        _ => None,
    }
}

pub(crate) fn next_is_operator(cursor: &Cursor) -> bool
    ensures { result ≡ next is_operator (whats cursor.now.rest.now) }
{
    if let [first, ..] = cursor.rest {
        if let Kind::Sign(sign) = first.kind {
            return operator_of(sign).is_some();
        }
    }
    false
}

#[tactic(auto, unfolding(crate::specs::Shared::operators))]
pub(crate) fn operator(cursor: &mut Cursor) -> Result<Operator, ReadError>
    ensures { Gives (λ x. (x, whats cursor.new.rest.now)) result ((one operators).read (whats cursor.old.rest.now)) }
{
    if let [first, rest @ ..] = cursor.rest {
        if let Kind::Sign(sign) = first.kind {
            if let Some(operator) = operator_of(sign) {
                cursor.rest = rest;
                return Ok(operator);
            }
        }
    }
    Err(ReadError::Wrong(cursor.rest.len()))
}

#[tactic(auto, unfolding(crate::specs::Shared::date))]
pub(crate) fn date<'a>(cursor: &mut Cursor<'_, 'a>) -> Result<Quoted<'a>, ReadError>
    ensures { Gives (λ x. (x.source.now, whats cursor.new.rest.now)) result (date.read (whats cursor.old.rest.now)) }
{
    word(cursor, Keyword::Date)?;
    date_text(cursor)
}

#[tactic(auto, unfolding(crate::specs::Shared::literal))]
pub(crate) fn literal<'a>(cursor: &mut Cursor<'_, 'a>) -> Result<Literal<'a>, ReadError>
    ensures { Gives (λ x. (literal_form x, whats cursor.new.rest.now)) result (literal.read (whats cursor.old.rest.now)) }
{
    if next_is(cursor, Keyword::Date) {
        return Ok(Literal::Date(date(cursor)?));
    }
    if next_is_text(cursor) {
        return Ok(Literal::Text(text(cursor)?));
    }
    let negative = next_is_sign(cursor, Sign::Minus);
    if negative {
        sign(cursor, Sign::Minus)?;
    }
    let digits = digits(cursor)?;
    Ok(Literal::Number { negative, digits })
}

#[tactic(auto, unfolding(crate::specs::Shared::comparison))]
fn comparison<'a>(cursor: &mut Cursor<'_, 'a>) -> Result<Comparison<'a>, ReadError>
    ensures { Gives (λ x. (comparison_form x, whats cursor.new.rest.now)) result (comparison.read (whats cursor.old.rest.now)) }
{
    let column = name(cursor)?;
    let operator = operator(cursor)?;
    let literal = literal(cursor)?;
    Ok(Comparison {
        column,
        operator,
        literal,
    })
}

/// A comparison behind AND.
struct AnotherComparison;

impl<'a> Repeated<'a> for AnotherComparison {
    ghost use Rattle.sqltokens.specs.declared.token.Keyword.TheVariants as keyword;
    ghost use Rattle.sqlsyntax.specs.Shared.{ComparisonForm};

    type Item = Comparison<'a>;

    ghost Form = { ComparisonForm };

    ghost form = { comparison_form };

    ghost begins = { is_word keyword.And };

    ghost reads = { another_comparison.read };

    fn is_next(cursor: &Cursor<'_, 'a>) -> bool {
        next_is(cursor, Keyword::And)
    }

    #[tactic(auto, unfolding(crate::specs::Shared::another_comparison))]
    fn read(_alloc: Global, cursor: &mut Cursor<'_, 'a>) -> Result<Comparison<'a>, ReadError> {
        word(cursor, Keyword::And)?;
        comparison(cursor)
    }
}

#[tactic(auto, unfolding(crate::specs::Shared::comparisons))]
fn comparisons<'a>(
    alloc: Global,
    cursor: &mut Cursor<'_, 'a>,
) -> Result<Vec<Comparison<'a>>, ReadError>
    ensures { Gives (λ x. (map comparison_form x.items, whats cursor.new.rest.now)) result (comparisons.read (whats cursor.old.rest.now)) }
{
    let first = comparison(cursor)?;
    row::<AnotherComparison>(alloc, first, cursor)
}

#[tactic(auto, unfolding(crate::specs::Shared::condition))]
pub(crate) fn condition<'a>(
    alloc: Global,
    cursor: &mut Cursor<'_, 'a>,
) -> Result<Option<Vec<Comparison<'a>>>, ReadError>
    ensures { Gives (λ x. (option_map (λ v. map comparison_form v.items) x, whats cursor.new.rest.now)) result ((optional (is_word Keyword.Where) condition).read (whats cursor.old.rest.now)) }
{
    if !next_is(cursor, Keyword::Where) {
        return Ok(None);
    }
    word(cursor, Keyword::Where)?;
    Ok(Some(comparisons(alloc, cursor)?))
}
