//! Transactions, read from the left.

ghost use Rattle.std.specs.Prelude.{◌≡◌, Ok, map};
ghost use Rattle.std.specs.Option.{option_map};
ghost use Rattle.sqltokens.specs.What.{What, whats, is_word, is_symbol};
ghost use Rattle.phrase.specs.Grammar.{next, one, optional};
ghost use Rattle.phrase.specs.Reading.{Gives};
ghost use Rattle.sqlsyntax.specs.Shared.{literal_form, comparison_form, condition};
ghost use Rattle.sqlsyntax.specs.Transactions.{another_literal, literals, portion, portion_form, new_value, value_form, assignment, assignment_form, another_assignment, assignments, insert, insert_form, update, update_form, delete, delete_form, is_statement, statement, statement_form, statements};

use crate::forms::{
    Assignment, Comparison, Delete, Insert, Literal, NewValue, Portion, Statement, Update,
};
use crate::shared::{condition, date, literal};
use namesyntax::lists::{Repeated, row};
use namesyntax::names::{name, name_list, next_is_name};
use phrase::ReadError;
use sqltokens::{Cursor, Keyword, Sign, digits, next_is, next_is_sign, sign, word};
use std::alloc::Global;

/// A literal with a comma before it.
struct AnotherLiteral;

impl<'a> Repeated<'a> for AnotherLiteral {
    ghost use Rattle.sqltokens.specs.declared.token.Sign.TheVariants.{Comma};
    ghost use Rattle.sqlsyntax.specs.Shared.{LiteralForm};

    type Item = Literal<'a>;

    ghost Form = { LiteralForm };

    ghost form = { literal_form };

    ghost begins = { is_symbol Comma };

    ghost reads = { another_literal.read };

    fn is_next(cursor: &Cursor<'_, 'a>) -> bool {
        next_is_sign(cursor, Sign::Comma)
    }

    #[tactic(auto, unfolding(crate::specs::Transactions::another_literal))]
    fn read(_alloc: Global, cursor: &mut Cursor<'_, 'a>) -> Result<Literal<'a>, ReadError> {
        sign(cursor, Sign::Comma)?;
        literal(cursor)
    }
}

#[tactic(auto, unfolding(crate::specs::Transactions::literals))]
fn literals<'a>(alloc: Global, cursor: &mut Cursor<'_, 'a>) -> Result<Vec<Literal<'a>>, ReadError>
    ensures { Gives (λ x. (map literal_form x.items, whats cursor.new.rest.now)) result (literals.read (whats cursor.old.rest.now)) }
{
    let first = literal(cursor)?;
    row::<AnotherLiteral>(alloc, first, cursor)
}

#[tactic(auto, unfolding(crate::specs::Transactions::portion))]
fn portion<'a>(cursor: &mut Cursor<'_, 'a>) -> Result<Portion<'a>, ReadError>
    ensures { Gives (λ x. (portion_form x, whats cursor.new.rest.now)) result (portion.read (whats cursor.old.rest.now)) }
{
    word(cursor, Keyword::For)?;
    word(cursor, Keyword::Portion)?;
    word(cursor, Keyword::Of)?;
    let period = name(cursor)?;
    word(cursor, Keyword::From)?;
    let from = date(cursor)?;
    word(cursor, Keyword::To)?;
    let to = date(cursor)?;
    Ok(Portion { period, from, to })
}

fn asked_portion<'a>(cursor: &mut Cursor<'_, 'a>) -> Result<Option<Portion<'a>>, ReadError>
    ensures { Gives (λ x. (option_map portion_form x, whats cursor.new.rest.now)) result ((optional (is_word Keyword.For) portion).read (whats cursor.old.rest.now)) }
{
    if !next_is(cursor, Keyword::For) {
        return Ok(None);
    }
    Ok(Some(portion(cursor)?))
}

#[tactic(auto, unfolding(crate::specs::Transactions::new_value))]
fn new_value<'a>(cursor: &mut Cursor<'_, 'a>) -> Result<NewValue<'a>, ReadError>
    ensures { Gives (λ x. (value_form x, whats cursor.new.rest.now)) result (new_value.read (whats cursor.old.rest.now)) }
{
    if !next_is_name(cursor) {
        return Ok(NewValue::Literal(literal(cursor)?));
    }
    let column = name(cursor)?;
    let subtracted = !next_is_sign(cursor, Sign::Plus);
    if subtracted {
        sign(cursor, Sign::Minus)?;
    } else {
        sign(cursor, Sign::Plus)?;
    }
    let digits = digits(cursor)?;
    Ok(NewValue::Changed {
        column,
        subtracted,
        digits,
    })
}

#[tactic(auto, unfolding(crate::specs::Transactions::assignment))]
fn assignment<'a>(cursor: &mut Cursor<'_, 'a>) -> Result<Assignment<'a>, ReadError>
    ensures { Gives (λ x. (assignment_form x, whats cursor.new.rest.now)) result (assignment.read (whats cursor.old.rest.now)) }
{
    let column = name(cursor)?;
    sign(cursor, Sign::Equal)?;
    let value = new_value(cursor)?;
    Ok(Assignment { column, value })
}

/// An assignment with a comma before it.
struct AnotherAssignment;

impl<'a> Repeated<'a> for AnotherAssignment {
    ghost use Rattle.sqltokens.specs.declared.token.Sign.TheVariants.{Comma};
    ghost use Rattle.sqlsyntax.specs.Transactions.{AssignmentForm};

    type Item = Assignment<'a>;

    ghost Form = { AssignmentForm };

    ghost form = { assignment_form };

    ghost begins = { is_symbol Comma };

    ghost reads = { another_assignment.read };

    fn is_next(cursor: &Cursor<'_, 'a>) -> bool {
        next_is_sign(cursor, Sign::Comma)
    }

    #[tactic(auto, unfolding(crate::specs::Transactions::another_assignment))]
    fn read(_alloc: Global, cursor: &mut Cursor<'_, 'a>) -> Result<Assignment<'a>, ReadError> {
        sign(cursor, Sign::Comma)?;
        assignment(cursor)
    }
}

#[tactic(auto, unfolding(crate::specs::Transactions::assignments))]
fn assignments<'a>(
    alloc: Global,
    cursor: &mut Cursor<'_, 'a>,
) -> Result<Vec<Assignment<'a>>, ReadError>
    ensures { Gives (λ x. (map assignment_form x.items, whats cursor.new.rest.now)) result (assignments.read (whats cursor.old.rest.now)) }
{
    let first = assignment(cursor)?;
    row::<AnotherAssignment>(alloc, first, cursor)
}

#[tactic(auto, unfolding(crate::specs::Transactions::insert))]
fn insert<'a>(alloc: Global, cursor: &mut Cursor<'_, 'a>) -> Result<Insert<'a>, ReadError>
    ensures { Gives (λ x. (insert_form x, whats cursor.new.rest.now)) result (insert.read (whats cursor.old.rest.now)) }
{
    word(cursor, Keyword::Insert)?;
    word(cursor, Keyword::Into)?;
    let table = name(cursor)?;
    sign(cursor, Sign::Open)?;
    let columns = name_list(alloc, cursor)?;
    sign(cursor, Sign::Close)?;
    word(cursor, Keyword::Values)?;
    sign(cursor, Sign::Open)?;
    let values = literals(alloc, cursor)?;
    sign(cursor, Sign::Close)?;
    sign(cursor, Sign::Semicolon)?;
    Ok(Insert {
        table,
        columns,
        values,
    })
}

#[tactic(auto, unfolding(crate::specs::Transactions::update))]
fn update<'a>(alloc: Global, cursor: &mut Cursor<'_, 'a>) -> Result<Update<'a>, ReadError>
    ensures { Gives (λ x. (update_form x, whats cursor.new.rest.now)) result (update.read (whats cursor.old.rest.now)) }
{
    word(cursor, Keyword::Update)?;
    let table = name(cursor)?;
    let portion = asked_portion(cursor)?;
    word(cursor, Keyword::Set)?;
    let assignments = assignments(alloc, cursor)?;
    let comparisons = condition(alloc, cursor)?;
    sign(cursor, Sign::Semicolon)?;
    Ok(Update {
        table,
        portion,
        assignments,
        comparisons,
    })
}

#[tactic(auto, unfolding(crate::specs::Transactions::delete))]
fn delete<'a>(alloc: Global, cursor: &mut Cursor<'_, 'a>) -> Result<Delete<'a>, ReadError>
    ensures { Gives (λ x. (delete_form x, whats cursor.new.rest.now)) result (delete.read (whats cursor.old.rest.now)) }
{
    word(cursor, Keyword::Delete)?;
    word(cursor, Keyword::From)?;
    let table = name(cursor)?;
    let portion = asked_portion(cursor)?;
    let comparisons = condition(alloc, cursor)?;
    sign(cursor, Sign::Semicolon)?;
    Ok(Delete {
        table,
        portion,
        comparisons,
    })
}

fn next_is_statement(cursor: &Cursor) -> bool
    ensures { result ≡ next is_statement (whats cursor.now.rest.now) }
{
    next_is(cursor, Keyword::Insert)
        || next_is(cursor, Keyword::Update)
        || next_is(cursor, Keyword::Delete)
}

#[tactic(auto, unfolding(crate::specs::Transactions::statement))]
fn statement<'a>(alloc: Global, cursor: &mut Cursor<'_, 'a>) -> Result<Statement<'a>, ReadError>
    ensures { Gives (λ x. (statement_form x, whats cursor.new.rest.now)) result (statement.read (whats cursor.old.rest.now)) }
{
    if next_is(cursor, Keyword::Insert) {
        return Ok(Statement::Insert(insert(alloc, cursor)?));
    }
    if next_is(cursor, Keyword::Update) {
        return Ok(Statement::Update(update(alloc, cursor)?));
    }
    Ok(Statement::Delete(delete(alloc, cursor)?))
}

/// A further statement.
struct AnotherStatement;

impl<'a> Repeated<'a> for AnotherStatement {
    ghost use Rattle.sqlsyntax.specs.Transactions.{StatementForm};

    type Item = Statement<'a>;

    ghost Form = { StatementForm };

    ghost form = { statement_form };

    ghost begins = { is_statement };

    ghost reads = { statement.read };

    fn is_next(cursor: &Cursor<'_, 'a>) -> bool {
        next_is_statement(cursor)
    }

    fn read(alloc: Global, cursor: &mut Cursor<'_, 'a>) -> Result<Statement<'a>, ReadError> {
        statement(alloc, cursor)
    }
}

#[tactic(auto, unfolding(crate::specs::Transactions::statements))]
pub(crate) fn statements<'a>(
    alloc: Global,
    cursor: &mut Cursor<'_, 'a>,
) -> Result<Vec<Statement<'a>>, ReadError>
    ensures { Gives (λ x. (map statement_form x.items, whats cursor.new.rest.now)) result (statements.read (whats cursor.old.rest.now)) }
{
    let first = statement(alloc, cursor)?;
    row::<AnotherStatement>(alloc, first, cursor)
}
