//! Whole texts: their tokens, and what they spell.

ghost use Rattle.phrase.specs.Reading.{Gives};
ghost use Rattle.sqltokens.specs.What.{whats};
ghost use Rattle.sqltokens.specs.Syntax.{all_of};
ghost use Rattle.schemasyntax.specs.Schemas.{tables, schema_form};
ghost use Rattle.namesyntax.specs.Parsing.{GivesInMemory, parsed};

use crate::forms::Table;
use crate::schema::tables;
use fault::Refusal;
use namesyntax::refusal;
use phrase::ReadError;
use sqltokens::{Cursor, Token, tokens};
use std::alloc::Global;

/// All of the tokens as a schema.
fn whole_schema<'a>(alloc: Global, tokens: &[Token<'a>]) -> Result<Vec<Table<'a>>, ReadError>
    ensures { Gives (λ x. schema_form x.items) result (all_of tables (whats tokens.now)) }
{
    let mut cursor = Cursor { rest: tokens };
    let whole = tables(alloc, &mut cursor)?;
    if !cursor.rest.is_empty() {
        return Err(ReadError::Wrong(cursor.rest.len()));
    }
    Ok(whole)
}

/// Reads the text of a schema, of any length, with blanks wherever they may stand and words without
/// regard to case: one or more of
///
/// ```text
/// CREATE TABLE name "(" column { "," column }
///     "," PERIOD FOR name "(" name "," name ")"
///     "," PERIOD FOR SYSTEM_TIME "(" name "," name ")"
///     "," PRIMARY KEY "(" names "," name WITHOUT OVERLAPS ")"
///     { "," FOREIGN KEY "(" names "," PERIOD name ")" REFERENCES name "(" names "," PERIOD name ")" }
///     ")" WITH SYSTEM VERSIONING ";"
/// names  = name { "," name }
/// column = name ( INTEGER | VARCHAR "(" digits ")" | DATE
///     | TIMESTAMP "(" "6" ")" GENERATED ALWAYS AS ROW ( START | END ) )
/// ```
///
/// where a name is a letter and then letters, digits and underscores, at most 32 bytes and not reserved.
///
/// Refused with `Syntax` and the byte at which the first token begins after which no such text goes on,
/// or the text's length where it ends too early; or with `NoMemory`, which can come of any text.
pub fn read_schema_form(alloc: Global, text: &str) -> Result<Vec<Table<'_>>, Refusal>
    ensures { GivesInMemory (λ x. schema_form x.items) result (parsed tables text.now) }
{
    let text = text.as_bytes();
    let tokens = tokens(alloc, text)?;
    match whole_schema(alloc, &tokens) {
        Ok(whole) => Ok(whole),
        Err(error) => Err(refusal(error, &tokens, text.len())),
    }
}
