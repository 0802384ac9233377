//! Transactions written as SQL.
ghost use Rattle.std.specs.Prelude.{◌≡◌, ◌<◌, ◌++◌, ◌∷◌, [], Some, Err, IfSome, IfErr, MatchResult, true, false, is_some, length, map, flat_map, option_map, option_and_then, codes};
ghost use Rattle.std.specs.Option.{option_copied};
ghost use Rattle.sqlchecks.specs.Columns.{field_at, kept_at};
ghost use Rattle.sqltokens.specs.declared.token.Sign.TheVariants as sign;
ghost use Rattle.sqltokens.specs.What.{What, Symbol, Name};
ghost use Rattle.phrase.specs.Grammar.{Phrase, spell_some};
ghost use Rattle.namesyntax.specs.Names.{name_list};
ghost use Rattle.sqlsyntax.specs.Shared.{operator_sign, literal as literal_phrase, comparison as comparison_phrase, condition};
ghost use Rattle.sqlsyntax.specs.Transactions.{literals, portion as portion_phrase, assignment as assignment_phrase, assignments as assignments_phrase, insert as insert_phrase, update as update_phrase, delete as delete_phrase};
ghost use Rattle.sqlread.specs.Changes.{is_system};
ghost use Rattle.model.specs.Periods.{period_of};
ghost use Rattle.sqlread.specs.Shapes.{statement_of, insert_of, update_of, delete_of};
ghost use Rattle.std.specs.List.{list_all};
ghost use Rattle.rowtext.specs.Named.{has_field, has_named as names};
ghost use Rattle.answertext.specs.Outlets.{IsWriteFault};
ghost use Rattle.answertext.specs.Sinks.{Puts, WritesOrBegins};
ghost use Rattle.answertext.specs.declared.outlet.WriteFault.{WriteFault as AnyFault};
ghost use Rattle.rowtext.specs.declared.transactions.TransactionFault.TheVariants.{NotNamed, Write};
ghost use Rattle.rowtext.specs.Spacing.{Start, Sign, Word, token_text, line};
ghost use Rattle.rowtext.specs.Transactions.{literal_of, cell_of, column_name, field_name, portion_of, value_of, assignment_of, comparison_of, conditions_of, insert_form, update_form, delete_form, given_columns, statement_text, transaction_text};

use crate::named::has_named;
use crate::parts::{Part, put_more};
use answertext::outlet::{Outlet, WriteFault};
use answertext::sink::Sink;
use model::literal::Literal;
use model::value::Value;
use period::Period;
use schema::{Name, Schema, Table};
use sqlchecks::column::field_of;
use sqlchecks::comparison::Comparison;
use sqlchecks::field::Field;
use sqlread::statement::{Assignment, Delete, Insert, NewValue, Statement, Transaction, Update};
use sqlsyntax::Operator;
use std::alloc::Global;
use std::fmt;
use thiserror::Error;

/// A value as a literal of SQL: a number in decimal, a text in quotes with each quote doubled, a day as
/// DATE 'YYYY-MM-DD'. A number past the last day is that of no day, and stands between the quotes in decimal.
#[derive(Clone, Copy)]
pub struct SqlLiteral<'a>(pub &'a Value);

impl fmt::Display for SqlLiteral<'_> {
    ghost output = { λ l. Some (line Start (literal_phrase.spell (literal_of l.0.now))) };

    fn fmt<W: fmt::Write>(&self, f: &mut fmt::Formatter<W>) -> fmt::Result {
        let value = Literal(self.0);
        match self.0 {
            Value::Day(_) => write!(f, "DATE '{value}'"),
            _ => write!(f, "{value}"),
        }
    }
}

/// A transaction over the tables of a schema, as text: each statement on a line of its own, which ends with LF; words
/// in upper case, names as they are declared, the columns of an INSERT in declared order, and one space between tokens,
/// but none before `,`, `;` and `)`, behind `(`, and behind the minus of a number.
///
/// It fails where the writer does, and where the schema does not have a table, a column or a value that the transaction
/// names, or the transaction has an UPDATE that assigns nothing. No transaction that was read has such a statement.
#[derive(Clone, Copy)]
pub struct Written<'a> {
    pub schema: &'a Schema,
    pub transaction: &'a Transaction,
}

impl fmt::Display for Written<'_> {
    ghost output = { λ w. Some (transaction_text w.schema.now (map statement_of w.transaction.now.statements.items)) };

    fn fmt<W: fmt::Write>(&self, f: &mut fmt::Formatter<W>) -> fmt::Result {
        put_statements(self.schema, &self.transaction.statements, f)
    }
}

/// Why a transaction was not written.
#[derive(Debug, Drop, Error)]
pub enum TransactionFault {
    /// The schema lacks what a statement names, and nothing was written.
    #[error("the schema lacks what the transaction names")]
    NotNamed,
    /// Its text was not written.
    #[error("{0}")]
    Write(WriteFault),
}

impl From<WriteFault> for TransactionFault {
    ghost from_gives = { λ fault found. found ≡ Write fault };

    fn from(fault: WriteFault) -> TransactionFault {
        TransactionFault::Write(fault)
    }
}

/// Writes a transaction over the tables of the schema, as `Written` prints it. Where the schema lacks what a statement
/// names, which `has_named` tells, it fails and writes nothing. Any other error is the outlet's, of which a beginning of the
/// text was put; for want of memory nothing is.
pub fn write_transaction<O: Outlet>(
    alloc: Global,
    schema: &Schema,
    transaction: &Transaction,
    outlet: &mut O,
) -> Result<(), TransactionFault>
    ensures text { WritesOrBegins (O.holds outlet.old) (O.holds outlet.new) result (transaction_text schema.now (map statement_of transaction.now.statements.items)) }
    ensures named { list_all (λ s. names schema.now (statement_of s)) transaction.now.statements.items ≡ false → (result ≡ Err NotNamed) × (outlet.new ≡ outlet.old) }
    ensures failed { list_all (λ s. names schema.now (statement_of s)) transaction.now.statements.items ≡ true → IfErr result (λ found. (fault : AnyFault) × (found ≡ Write fault) × IsWriteFault O.fails outlet.old fault outlet.new) }
{
    if !has_named(schema, transaction) {
        return Err(TransactionFault::NotNamed);
    }
    let written = Written {
        schema,
        transaction,
    };
    write_text(alloc, written, outlet)?;
    Ok(())
}

// Writes the text of a transaction.
fn write_text<O: Outlet>(
    alloc: Global,
    written: Written<'_>,
    outlet: &mut O,
) -> Result<(), WriteFault>
    ensures text { WritesOrBegins (O.holds outlet.old) (O.holds outlet.new) result (transaction_text written.entry.schema.now (map statement_of written.entry.transaction.now.statements.items)) }
    ensures failed { IfErr result (λ fault. IsWriteFault O.fails outlet.old fault outlet.new) }
{
    let text = format!(in alloc; "{written}")?;
    outlet.put(text.as_str())?;
    Ok(())
}

fn put_statements<S: Sink>(
    schema: &Schema,
    statements: &[Statement],
    sink: &mut S,
) -> Result<(), S::Fault>
    ensures { Puts S.takes S.begins sink.old result (transaction_text schema.now (map statement_of statements.now)) sink.new }
{
    for statement in statements {
        put_statement(schema, statement, sink)?;
    }
    Ok(())
}

fn put_statement<S: Sink>(
    schema: &Schema,
    statement: &Statement,
    sink: &mut S,
) -> Result<(), S::Fault>
    ensures { Puts S.takes S.begins sink.old result (statement_text schema.now (statement_of statement.now)) sink.new }
{
    let place = statement.table();
    if place >= schema.len() {
        return Err(S::Fault::from(fmt::Error));
    }
    let (name, table) = schema.table(place);
    match statement {
        Statement::Insert(insert) => put_insert(name, table, insert, sink),
        Statement::Update(update) => put_update(name, table, update, sink),
        Statement::Delete(delete) => put_delete(name, table, delete, sink),
    }
}

// ---- INSERT

fn put_insert<S: Sink>(
    name: &Name,
    table: &Table,
    insert: &Insert,
    sink: &mut S,
) -> Result<(), S::Fault>
    ensures { Puts S.takes S.begins sink.old result (line Start (insert_phrase.spell (insert_form name.now table.now (insert_of insert.now))) ++ 10 ∷ []) sink.new }
{
    sink.put(format_args!("INSERT INTO {name} ("))?;
    put_columns(table, sink)?;
    sink.put(") VALUES (")?;
    put_row(table, insert, sink)?;
    sink.put(");\n")
}

pub(crate) fn is_system(table: &Table, column: usize) -> bool
    ensures { result ≡ is_system table.now column }
{
    column == table.system_start() || column == table.system_end()
}

// The names of the columns of a row.
fn put_columns<S: Sink>(table: &Table, sink: &mut S) -> Result<(), S::Fault>
    ensures { Puts S.takes S.begins sink.old result (line Start (name_list.spell (map (column_name table.now) (given_columns table.now)))) sink.new }
{
    let mut separator = "";
    for column in 0..table.column_count() {
        if !is_system(table, column) {
            let name = table.column(column).0;
            sink.put(format_args!("{separator}{name}"))?;
            separator = ", ";
        }
    }
    some_written(separator)?;
    Ok(())
}

// The values of a row, in the order of the columns.
fn put_row<S: Sink>(table: &Table, insert: &Insert, sink: &mut S) -> Result<(), S::Fault>
    ensures { Puts S.takes S.begins sink.old result (line Start (literals.spell (map (cell_of table.now (insert_of insert.now)) (given_columns table.now)))) sink.new }
{
    let mut separator = "";
    for column in 0..table.column_count() {
        if !is_system(table, column) {
            sink.put(separator)?;
            put_cell(table, insert, column, sink)?;
            separator = ", ";
        }
    }
    some_written(separator)?;
    Ok(())
}

// Whether anything stands before the next item of a list.
fn some_written(separator: &str) -> fmt::Result
    ensures { MatchResult result (λ _. 0 < length separator.now) (λ _. length separator.now ≡ 0) }
{
    if separator.is_empty() {
        return Err(fmt::Error);
    }
    Ok(())
}

// The value of a column.
fn put_cell<S: Sink>(
    table: &Table,
    insert: &Insert,
    column: usize,
    sink: &mut S,
) -> Result<(), S::Fault>
    ensures { Puts S.takes S.begins sink.old result (line Start (literal_phrase.spell (cell_of table.now (insert_of insert.now) column))) sink.new }
{
    let start = insert.period.start;
    let end = insert.period.end;
    if column == table.start() {
        sink.put(format_args!("DATE '{start}'"))
    } else if column == table.end() {
        sink.put(format_args!("DATE '{end}'"))
    } else {
        let literal = SqlLiteral(value_at(table, insert, column).ok_or(fmt::Error)?);
        sink.put(literal)
    }
}

// The value that the row keeps for a column.
pub(crate) fn value_at<'a>(table: &Table, insert: &'a Insert, column: usize) -> Option<&'a Value>
    ensures { option_copied result ≡ option_and_then (kept_at insert.now.key.items insert.now.values.items) (field_at table.now column) }
{
    match field_of(table, column) {
        Some(field) => kept_at(insert, field),
        None => None,
    }
}

#[tactic(auto, unfolding(sqlchecks::specs::Columns::kept_at))]
fn kept_at(insert: &Insert, field: Field) -> Option<&Value>
    ensures { option_copied result ≡ kept_at insert.now.key.items insert.now.values.items field }
{
    match field {
        Field::Key(place) => insert.key.get(place),
        Field::Value(place) => insert.values.get(place),
    }
}

// ---- UPDATE and DELETE

fn put_update<S: Sink>(
    name: &Name,
    table: &Table,
    update: &Update,
    sink: &mut S,
) -> Result<(), S::Fault>
    ensures { Puts S.takes S.begins sink.old result (line Start (update_phrase.spell (update_form name.now table.now (update_of update.now))) ++ 10 ∷ []) sink.new }
{
    sink.put(format_args!("UPDATE {name}"))?;
    put_portion(table, update.portion, sink)?;
    sink.put(" SET ")?;
    put_assignments(table, &update.assignments, sink)?;
    put_conditions(table, &update.conditions, sink)?;
    sink.put(";\n")
}

fn put_delete<S: Sink>(
    name: &Name,
    table: &Table,
    delete: &Delete,
    sink: &mut S,
) -> Result<(), S::Fault>
    ensures { Puts S.takes S.begins sink.old result (line Start (delete_phrase.spell (delete_form name.now table.now (delete_of delete.now))) ++ 10 ∷ []) sink.new }
{
    sink.put(format_args!("DELETE FROM {name}"))?;
    put_portion(table, delete.portion, sink)?;
    put_conditions(table, &delete.conditions, sink)?;
    sink.put(";\n")
}

// The portion, if there is one, behind a name.
fn put_portion<S: Sink>(
    table: &Table,
    portion: Option<Period>,
    sink: &mut S,
) -> Result<(), S::Fault>
    ensures { Puts S.takes S.begins sink.old result (line Word (spell_some portion_phrase (option_map (portion_of table.now) (option_map period_of portion)))) sink.new }
{
    match portion {
        None => Ok(()),
        Some(period) => {
            let name = table.period();
            let start = period.start;
            let end = period.end;
            sink.put(format_args!(" FOR PORTION OF {name} FROM DATE '{start}' TO DATE '{end}'"))
        }
    }
}

fn put_assignments<S: Sink>(
    table: &Table,
    assignments: &[Assignment],
    sink: &mut S,
) -> Result<(), S::Fault>
    ensures { Puts S.takes S.begins sink.old result (line Start (assignments_phrase.spell (map (assignment_of table.now) assignments.now))) sink.new }
{
    let (first, others) = assignments.split_first().ok_or(fmt::Error)?;
    first.put(table, sink)?;
    put_more(table, ", ", others, sink)
}

impl Part for Assignment {
    ghost text = { λ table a. line Start (assignment_phrase.spell (assignment_of table a)) };

    fn put<S: Sink>(&self, table: &Table, sink: &mut S) -> Result<(), S::Fault> {
        let name = field_name(table, Field::Value(self.place)).ok_or(fmt::Error)?;
        match &self.value {
            NewValue::Literal(value) => {
                let literal = SqlLiteral(value);
                sink.put(format_args!("{name} = {literal}"))
            }
            NewValue::Plus(more) => sink.put(format_args!("{name} = {name} + {more}")),
            NewValue::Minus(less) => sink.put(format_args!("{name} = {name} - {less}")),
        }
    }
}

// The name of the column that a row keeps there.
pub(crate) fn field_name(table: &Table, field: Field) -> Option<&Name>
    ensures name { IfSome result (λ name. name.now ≡ field_name table.now field) }
    ensures there { is_some result ≡ has_field table.now field }
{
    let column = match field {
        Field::Key(place) => *table.key().get(place)?,
        Field::Value(place) => *table.values().get(place)?,
    };
    if column < table.column_count() {
        Some(table.column(column).0)
    } else {
        None
    }
}

// The conditions, if there are any, behind a word.
fn put_conditions<S: Sink>(
    table: &Table,
    conditions: &[Comparison],
    sink: &mut S,
) -> Result<(), S::Fault>
    ensures { Puts S.takes S.begins sink.old result (line Word (spell_some condition (conditions_of table.now conditions.now))) sink.new }
{
    let Some((first, others)) = conditions.split_first() else {
        return Ok(());
    };
    sink.put(" WHERE ")?;
    first.put(table, sink)?;
    put_more(table, " AND ", others, sink)
}

impl Part for Comparison {
    ghost text = { λ table c. line Start (comparison_phrase.spell (comparison_of table c)) };

    fn put<S: Sink>(&self, table: &Table, sink: &mut S) -> Result<(), S::Fault> {
        let name = field_name(table, self.field).ok_or(fmt::Error)?;
        let operator = operator_text(self.operator);
        let literal = SqlLiteral(&self.value);
        sink.put(format_args!("{name} {operator} {literal}"))
    }
}

fn operator_text(operator: Operator) -> &'static str
    ensures { result.now ≡ token_text (Symbol (operator_sign operator)) }
{
    match operator {
        Operator::Equal => "=",
        Operator::NotEqual => "<>",
        Operator::Less => "<",
        Operator::LessEqual => "<=",
        Operator::Greater => ">",
        Operator::GreaterEqual => ">=",
    }
}
