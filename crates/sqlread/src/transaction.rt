//! Reading transactions.
ghost use Rattle.std.specs.Prelude.{◌≡◌, map, IfOk};
ghost use Rattle.namesyntax.specs.Parsing.{GivesInMemory};
ghost use Rattle.model.specs.Transactions.{misreading};
ghost use Rattle.sqlread.specs.Meaning.{language_of};
ghost use Rattle.sqlread.specs.Shapes.{statement_of};
ghost use Rattle.sqlread.specs.Texts.{transaction_in};

use crate::action::statements;
use crate::statement::Transaction;
use fault::Refusal;
use schema::Schema;
use sqlsyntax::read_transaction_form;
use std::alloc::{AllocError, Global};

/// How many bytes the text of a transaction or of a query may have.
pub const MAX_TEXT: usize = 4096;

/// Reads the text of a transaction, with blanks wherever they may stand and words without regard to case: one or more of
///
/// ```text
/// INSERT INTO name "(" name { "," name } ")" VALUES "(" literal { "," literal } ")" ";"
/// UPDATE name [ portion ] SET assignment { "," assignment } [ WHERE comparison { AND comparison } ] ";"
/// DELETE FROM name [ portion ] [ WHERE comparison { AND comparison } ] ";"
/// portion    = FOR PORTION OF name FROM date TO date
/// assignment = name "=" ( literal | name ( "+" | "-" ) digits )
/// comparison = name ( "=" | "<>" | "<" | "<=" | ">" | ">=" ) literal
/// ```
///
/// where a literal is digits with a minus or none, a text, or DATE and a text of the shape dddd-dd-dd.
///
/// The first of these that holds is the refusal: `TooLarge` for a text of more than `MAX_TEXT` bytes; `Syntax` with the
/// byte at which the first token begins after which no such text goes on, or the text's length; `TooLarge` for more
/// than 16 statements; then for each statement in turn `UnknownTable`, and
///
/// - of an INSERT for each name `UnknownColumn`, then `NotAssignable` for a system column or one named before;
///   `UnknownColumn` where a column that is no system column is left out; `WrongType` for another number of values; for
///   each literal the refusals of a literal; and `EmptyPeriod` where the row's period does not start before its end;
/// - of a portion `UnknownColumn` for a name that is not the table's application period, `OutOfRange` for each date that
///   is no day between 0001-01-01 and 9999-12-31, and `EmptyPeriod` where the first is not before the second;
/// - of each assignment `UnknownColumn`, then `NotAssignable` for a column of the key, of a period or of the system, and
///   for one that is set before; with + or - `UnknownColumn` and then `NotAssignable` where the right side names another
///   column, `WrongType` for a column that is no INTEGER, and `OutOfRange` for digits above 9223372036854775807; else the
///   refusals of a literal;
/// - of each comparison `UnknownColumn` for a name that is no column of the key and no value column, and the refusals of
///   a literal, where a text may have up to 255 bytes.
///
/// A literal is refused with `WrongType` where its type is another than the column's, then with `OutOfRange` for a number
/// outside 64 bits with a sign, a day that the calendar does not have between 0001-01-01 and 9999-12-31, or a text of
/// more bytes than the column's length. `NoMemory` can come at any point before the answer.
#[tactic(auto, unfolding(crate::specs::Texts::transaction_in))]
pub fn read_transaction(alloc: Global, schema: &Schema, text: &str) -> Result<Transaction, Refusal>
    ensures { GivesInMemory (λ t. map statement_of t.statements.items) result (transaction_in schema.now text.now) }
{
    if text.len() > MAX_TEXT {
        return Err(Refusal::TooLarge);
    }
    let forms = read_transaction_form(alloc, text)?;
    let statements = statements(alloc, schema, &forms)?;
    Ok(Transaction { statements })
}

/// Why the text is no transaction, as `read_transaction` refuses it, or none where it is one. An error is want of
/// memory, and says nothing of the text.
#[tactic(auto, unfolding(crate::specs::Meaning::language_of))]
pub fn misreading(alloc: Global, schema: &Schema, text: &str) -> Result<Option<Refusal>, AllocError>
    ensures { IfOk result (λ r. r ≡ misreading ((language_of schema.now).reads text.now)) }
{
    match read_transaction(alloc, schema, text) {
        Ok(_) => Ok(None),
        Err(Refusal::NoMemory) => Err(AllocError),
        Err(refusal) => Ok(Some(refusal)),
    }
}
