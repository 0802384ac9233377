//! Queries, read from the left.

ghost use Rattle.std.specs.Prelude.{◌≡◌, Ok, map};
ghost use Rattle.std.specs.Option.{option_map};
ghost use Rattle.sqltokens.specs.What.{What, whats, is_word, is_symbol};
ghost use Rattle.phrase.specs.Grammar.{next, one, optional};
ghost use Rattle.phrase.specs.Reading.{Gives};
ghost use Rattle.sqlsyntax.specs.Queries.{span, span_form, relation, relation_form, predicate, predicate_form, term, term_form, another_term, terms, condition, point, time, time_form, query, query_form};

use crate::forms::{Predicate, Query, Relation, Span, SystemTime, Term};
use crate::shared::{date, literal, next_is_operator, operator};
use namesyntax::lists::{Repeated, row};
use namesyntax::names::name;
use phrase::ReadError;
use sqltokens::{Cursor, Keyword, Quoted, Sign, next_is, point_text, sign, word};
use std::alloc::Global;

#[tactic(auto, unfolding(crate::specs::Queries::span))]
fn span<'a>(cursor: &mut Cursor<'_, 'a>) -> Result<Span<'a>, ReadError>
    ensures { Gives (λ x. (span_form x, whats cursor.new.rest.now)) result (span.read (whats cursor.old.rest.now)) }
{
    word(cursor, Keyword::Period)?;
    sign(cursor, Sign::Open)?;
    let from = date(cursor)?;
    sign(cursor, Sign::Comma)?;
    let to = date(cursor)?;
    sign(cursor, Sign::Close)?;
    Ok(Span { from, to })
}

#[tactic(auto, unfolding(crate::specs::Queries::relation))]
fn relation(cursor: &mut Cursor) -> Result<Relation, ReadError>
    ensures { Gives (λ x. (relation_form x, whats cursor.new.rest.now)) result (relation.read (whats cursor.old.rest.now)) }
{
    if next_is(cursor, Keyword::Overlaps) {
        word(cursor, Keyword::Overlaps)?;
        return Ok(Relation::Overlaps);
    }
    if next_is(cursor, Keyword::Equals) {
        word(cursor, Keyword::Equals)?;
        return Ok(Relation::Equals);
    }
    if next_is(cursor, Keyword::Precedes) {
        word(cursor, Keyword::Precedes)?;
        return Ok(Relation::Precedes);
    }
    if next_is(cursor, Keyword::Succeeds) {
        word(cursor, Keyword::Succeeds)?;
        return Ok(Relation::Succeeds);
    }
    word(cursor, Keyword::Immediately)?;
    if next_is(cursor, Keyword::Precedes) {
        word(cursor, Keyword::Precedes)?;
        Ok(Relation::ImmediatelyPrecedes)
    } else {
        word(cursor, Keyword::Succeeds)?;
        Ok(Relation::ImmediatelySucceeds)
    }
}

#[tactic(auto, unfolding(crate::specs::Queries::predicate))]
fn predicate<'a>(cursor: &mut Cursor<'_, 'a>) -> Result<Predicate<'a>, ReadError>
    ensures { Gives (λ x. (predicate_form x, whats cursor.new.rest.now)) result (predicate.read (whats cursor.old.rest.now)) }
{
    if next_is(cursor, Keyword::Contains) {
        word(cursor, Keyword::Contains)?;
        if next_is(cursor, Keyword::Period) {
            return Ok(Predicate::ContainsSpan(span(cursor)?));
        }
        return Ok(Predicate::ContainsDay(date(cursor)?));
    }
    if next_is_operator(cursor) {
        let operator = operator(cursor)?;
        let literal = literal(cursor)?;
        return Ok(Predicate::Compares(operator, literal));
    }
    let relation = relation(cursor)?;
    let span = span(cursor)?;
    Ok(Predicate::Relates(relation, span))
}

#[tactic(auto, unfolding(crate::specs::Queries::term))]
fn term<'a>(cursor: &mut Cursor<'_, 'a>) -> Result<Term<'a>, ReadError>
    ensures { Gives (λ x. (term_form x, whats cursor.new.rest.now)) result (term.read (whats cursor.old.rest.now)) }
{
    let name = name(cursor)?;
    let predicate = predicate(cursor)?;
    Ok(Term { name, predicate })
}

/// A term behind AND.
struct AnotherTerm;

impl<'a> Repeated<'a> for AnotherTerm {
    ghost use Rattle.sqltokens.specs.declared.token.Keyword.TheVariants as keyword;
    ghost use Rattle.sqlsyntax.specs.Queries.{TermForm};

    type Item = Term<'a>;

    ghost Form = { TermForm };

    ghost form = { term_form };

    ghost begins = { is_word keyword.And };

    ghost reads = { another_term.read };

    fn is_next(cursor: &Cursor<'_, 'a>) -> bool {
        next_is(cursor, Keyword::And)
    }

    #[tactic(auto, unfolding(crate::specs::Queries::another_term))]
    fn read(_alloc: Global, cursor: &mut Cursor<'_, 'a>) -> Result<Term<'a>, ReadError> {
        word(cursor, Keyword::And)?;
        term(cursor)
    }
}

#[tactic(auto, unfolding(crate::specs::Queries::terms))]
fn terms<'a>(alloc: Global, cursor: &mut Cursor<'_, 'a>) -> Result<Vec<Term<'a>>, ReadError>
    ensures { Gives (λ x. (map term_form x.items, whats cursor.new.rest.now)) result (terms.read (whats cursor.old.rest.now)) }
{
    let first = term(cursor)?;
    row::<AnotherTerm>(alloc, first, cursor)
}

#[tactic(auto, unfolding(crate::specs::Queries::condition))]
fn condition<'a>(
    alloc: Global,
    cursor: &mut Cursor<'_, 'a>,
) -> Result<Option<Vec<Term<'a>>>, ReadError>
    ensures { Gives (λ x. (option_map (λ v. map term_form v.items) x, whats cursor.new.rest.now)) result ((optional (is_word Keyword.Where) condition).read (whats cursor.old.rest.now)) }
{
    if !next_is(cursor, Keyword::Where) {
        return Ok(None);
    }
    word(cursor, Keyword::Where)?;
    Ok(Some(terms(alloc, cursor)?))
}

#[tactic(auto, unfolding(crate::specs::Queries::point))]
fn point<'a>(cursor: &mut Cursor<'_, 'a>) -> Result<Quoted<'a>, ReadError>
    ensures { Gives (λ x. (x.source.now, whats cursor.new.rest.now)) result (point.read (whats cursor.old.rest.now)) }
{
    word(cursor, Keyword::Timestamp)?;
    point_text(cursor)
}

#[tactic(auto, unfolding(crate::specs::Queries::time))]
fn time<'a>(cursor: &mut Cursor<'_, 'a>) -> Result<SystemTime<'a>, ReadError>
    ensures { Gives (λ x. (time_form x, whats cursor.new.rest.now)) result (time.read (whats cursor.old.rest.now)) }
{
    word(cursor, Keyword::For)?;
    word(cursor, Keyword::SystemTime)?;
    if next_is(cursor, Keyword::As) {
        word(cursor, Keyword::As)?;
        word(cursor, Keyword::Of)?;
        Ok(SystemTime::AsOf(point(cursor)?))
    } else if next_is(cursor, Keyword::From) {
        word(cursor, Keyword::From)?;
        let from = point(cursor)?;
        word(cursor, Keyword::To)?;
        let to = point(cursor)?;
        Ok(SystemTime::FromTo { from, to })
    } else {
        word(cursor, Keyword::Between)?;
        let from = point(cursor)?;
        word(cursor, Keyword::And)?;
        let to = point(cursor)?;
        Ok(SystemTime::Between { from, to })
    }
}

fn asked_time<'a>(cursor: &mut Cursor<'_, 'a>) -> Result<Option<SystemTime<'a>>, ReadError>
    ensures { Gives (λ x. (option_map time_form x, whats cursor.new.rest.now)) result ((optional (is_word Keyword.For) time).read (whats cursor.old.rest.now)) }
{
    if !next_is(cursor, Keyword::For) {
        return Ok(None);
    }
    Ok(Some(time(cursor)?))
}

#[tactic(auto, unfolding(crate::specs::Queries::query))]
pub(crate) fn query<'a>(alloc: Global, cursor: &mut Cursor<'_, 'a>) -> Result<Query<'a>, ReadError>
    ensures { Gives (λ x. (query_form x, whats cursor.new.rest.now)) result (query.read (whats cursor.old.rest.now)) }
{
    word(cursor, Keyword::Select)?;
    sign(cursor, Sign::Star)?;
    word(cursor, Keyword::From)?;
    let table = name(cursor)?;
    let time = asked_time(cursor)?;
    let terms = condition(alloc, cursor)?;
    sign(cursor, Sign::Semicolon)?;
    Ok(Query { table, time, terms })
}
