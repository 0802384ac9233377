//! Whole texts: their tokens, and what they spell.

ghost use Rattle.phrase.specs.Reading.{Gives};
ghost use Rattle.sqltokens.specs.What.{whats};
ghost use Rattle.sqltokens.specs.Syntax.{all_of};
ghost use Rattle.sqlsyntax.specs.Queries.{query, query_form};
ghost use Rattle.sqlsyntax.specs.Transactions.{statements, transaction_form};
ghost use Rattle.namesyntax.specs.Parsing.{GivesInMemory, parsed};

use crate::forms::{Query, Statement};
use crate::query::query;
use crate::transaction::statements;
use fault::Refusal;
use namesyntax::refusal;
use phrase::ReadError;
use sqltokens::{Cursor, Token, tokens};
use std::alloc::Global;

/// All of the tokens as a query.
fn whole_query<'a>(alloc: Global, tokens: &[Token<'a>]) -> Result<Query<'a>, ReadError>
    ensures { Gives query_form result (all_of query (whats tokens.now)) }
{
    let mut cursor = Cursor { rest: tokens };
    let whole = query(alloc, &mut cursor)?;
    if !cursor.rest.is_empty() {
        return Err(ReadError::Wrong(cursor.rest.len()));
    }
    Ok(whole)
}

/// Reads the text of one query, of any length, with blanks wherever they may stand and words without
/// regard to case:
///
/// ```text
/// SELECT "*" FROM name [ FOR SYSTEM_TIME ( AS OF point | FROM point TO point | BETWEEN point AND point ) ]
///     [ WHERE term { AND term } ] ";"
/// term  = name operator literal | name CONTAINS ( date | span ) | name relation span
/// relation = OVERLAPS | EQUALS | PRECEDES | SUCCEEDS | IMMEDIATELY PRECEDES | IMMEDIATELY SUCCEEDS
/// span  = PERIOD "(" date "," date ")"
/// point = TIMESTAMP text of the shape dddd-dd-dd dd:dd:dd.dddddd
/// ```
///
/// with names, operators, literals and dates as in a transaction.
///
/// Refused with `Syntax` and the byte at which the first token begins after which no such text goes on,
/// or the text's length where it ends too early; or with `NoMemory`, which can come of any text.
pub fn read_query_form(alloc: Global, text: &str) -> Result<Query<'_>, Refusal>
    ensures { GivesInMemory query_form result (parsed query text.now) }
{
    let text = text.as_bytes();
    let tokens = tokens(alloc, text)?;
    match whole_query(alloc, &tokens) {
        Ok(whole) => Ok(whole),
        Err(error) => Err(refusal(error, &tokens, text.len())),
    }
}

/// All of the tokens as a transaction.
fn whole_transaction<'a>(
    alloc: Global,
    tokens: &[Token<'a>],
) -> Result<Vec<Statement<'a>>, ReadError>
    ensures { Gives (λ x. transaction_form x.items) result (all_of statements (whats tokens.now)) }
{
    let mut cursor = Cursor { rest: tokens };
    let whole = statements(alloc, &mut cursor)?;
    if !cursor.rest.is_empty() {
        return Err(ReadError::Wrong(cursor.rest.len()));
    }
    Ok(whole)
}

/// Reads the text of a transaction, of any length, with blanks wherever they may stand and words without
/// regard to case: one or more of
///
/// ```text
/// INSERT INTO name "(" name { "," name } ")" VALUES "(" literal { "," literal } ")" ";"
/// UPDATE name [ portion ] SET assignment { "," assignment } [ WHERE comparison { AND comparison } ] ";"
/// DELETE FROM name [ portion ] [ WHERE comparison { AND comparison } ] ";"
/// portion    = FOR PORTION OF name FROM date TO date
/// assignment = name "=" ( literal | name ( "+" | "-" ) digits )
/// comparison = name ( "=" | "<>" | "<" | "<=" | ">" | ">=" ) literal
/// literal    = [ "-" ] digits | text | date
/// date       = DATE text of the shape dddd-dd-dd
/// ```
///
/// where a name is a letter and then letters, digits and underscores, at most 32 bytes and not reserved.
///
/// Refused with `Syntax` and the byte at which the first token begins after which no such text goes on,
/// or the text's length where it ends too early; or with `NoMemory`, which can come of any text.
pub fn read_transaction_form(alloc: Global, text: &str) -> Result<Vec<Statement<'_>>, Refusal>
    ensures { GivesInMemory (λ x. transaction_form x.items) result (parsed statements text.now) }
{
    let text = text.as_bytes();
    let tokens = tokens(alloc, text)?;
    match whole_transaction(alloc, &tokens) {
        Ok(whole) => Ok(whole),
        Err(error) => Err(refusal(error, &tokens, text.len())),
    }
}
