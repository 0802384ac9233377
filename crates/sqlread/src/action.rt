//! UPDATE and DELETE, and the statements of a transaction.
ghost use Rattle.std.specs.Prelude.{map};
ghost use Rattle.std.specs.Option.{option_map};
ghost use Rattle.sqlsyntax.specs.Shared.{comparison_form};
ghost use Rattle.sqlsyntax.specs.Transactions.{portion_form, update_form, delete_form, statement_form};
ghost use Rattle.sqlchecks.specs.Answering.{Gives};
ghost use Rattle.namesyntax.specs.Parsing.{GivesInMemory};
ghost use Rattle.sqlchecks.specs.Comparisons.{comparisons_in};
ghost use Rattle.model.specs.Periods.{period_of};
ghost use Rattle.sqlread.specs.Shapes.{update_of, delete_of, statement_of};
ghost use Rattle.sqlread.specs.Changes.{portion_in, if_given, all_given, update_in, delete_in, statement_in, statements_in};

use crate::assignment::assignments_in;
use crate::insert::insert_in;
use crate::statement::{Delete, Statement, Update};
use fault::Refusal;
use period::Period;
use schema::{Schema, Table};
use sqlchecks::column::find_table;
use sqlchecks::comparison::{Comparison, read_comparisons};
use sqlchecks::literal::read_period;
use sqlsyntax::{
    Comparison as ComparisonText, Delete as DeleteText, Portion as PortionText,
    Statement as StatementText, Update as UpdateText,
};
use std::alloc::Global;

/// How many statements a transaction may have.
const MAX_STATEMENTS: usize = 16;

/// The days of a portion.
#[tactic(auto, unfolding(crate::specs::Changes::portion_in))]
fn portion_in(table: &Table, text: PortionText) -> Result<Period, Refusal>
    ensures { Gives period_of result (portion_in table.now (portion_form text.entry)) }
{
    let name = text.period.written;
    if !name.eq_ignore_ascii_case(table.period().as_str()) {
        return Err(Refusal::UnknownColumn);
    }
    read_period(text.from, text.to)
}

/// The days of the portion, where there is one.
fn portion_given(table: &Table, text: Option<PortionText>) -> Result<Option<Period>, Refusal>
    ensures { Gives (option_map period_of) result (if_given (portion_in table.now) (option_map portion_form text.entry)) }
{
    match text {
        Some(portion) => Ok(Some(portion_in(table, portion)?)),
        None => Ok(None),
    }
}

/// The comparisons of WHERE: none where there is no WHERE.
fn conditions_given(
    alloc: Global,
    table: &Table,
    texts: &Option<Vec<ComparisonText>>,
) -> Result<Vec<Comparison>, Refusal>
    ensures { GivesInMemory (λ v. v.items) result (all_given (comparisons_in table.now) (option_map (λ v. map comparison_form v.items) texts.now)) }
{
    match texts {
        Some(comparisons) => read_comparisons(alloc, table, comparisons),
        None => Ok(Vec::new(alloc)),
    }
}

/// What an UPDATE does, or the first of its checks that fails.
#[tactic(auto, unfolding(crate::specs::Changes::in_table, crate::specs::Changes::update_in))]
fn update_in(alloc: Global, schema: &Schema, text: &UpdateText) -> Result<Update, Refusal>
    ensures { GivesInMemory update_of result (update_in schema.now (update_form text.now)) }
{
    let place = find_table(schema, text.table.written)?;
    let (_, table) = schema.table(place);
    let portion = portion_given(table, text.portion)?;
    let assignments = assignments_in(alloc, table, &text.assignments)?;
    let conditions = conditions_given(alloc, table, &text.comparisons)?;
    Ok(Update {
        table: place,
        portion,
        assignments,
        conditions,
    })
}

/// What a DELETE does, or the first of its checks that fails.
#[tactic(auto, unfolding(crate::specs::Changes::in_table, crate::specs::Changes::delete_in))]
fn delete_in(alloc: Global, schema: &Schema, text: &DeleteText) -> Result<Delete, Refusal>
    ensures { GivesInMemory delete_of result (delete_in schema.now (delete_form text.now)) }
{
    let place = find_table(schema, text.table.written)?;
    let (_, table) = schema.table(place);
    let portion = portion_given(table, text.portion)?;
    let conditions = conditions_given(alloc, table, &text.comparisons)?;
    Ok(Delete {
        table: place,
        portion,
        conditions,
    })
}

/// What a statement does, or the first of its checks that fails.
#[tactic(auto, unfolding(crate::specs::Changes::statement_in))]
fn statement_in(alloc: Global, schema: &Schema, text: &StatementText) -> Result<Statement, Refusal>
    ensures { GivesInMemory statement_of result (statement_in schema.now (statement_form text.now)) }
{
    match text {
        StatementText::Insert(insert) => Ok(Statement::Insert(insert_in(alloc, schema, insert)?)),
        StatementText::Update(update) => Ok(Statement::Update(update_in(alloc, schema, update)?)),
        StatementText::Delete(delete) => Ok(Statement::Delete(delete_in(alloc, schema, delete)?)),
    }
}

/// What the statements of a transaction do, in their order. `TooLarge` for more than 16 of them, before any check of one;
/// then the first of the checks that fails, in the order of the text; `NoMemory`.
#[tactic(auto, using(crate::proofs::Lists::each_is), unfolding(crate::specs::Changes::statements_in))]
pub(crate) fn statements(
    alloc: Global,
    schema: &Schema,
    texts: &[StatementText],
) -> Result<Vec<Statement>, Refusal>
    ensures { GivesInMemory (λ v. map statement_of v.items) result (statements_in schema.now (map statement_form texts.now)) }
{
    if texts.len() > MAX_STATEMENTS {
        return Err(Refusal::TooLarge);
    }
    let mut statements = Vec::new(alloc);
    for text in texts {
        let statement = statement_in(alloc, schema, text)?;
        statements.push(statement)?;
    }
    Ok(statements)
}
