//! Readers of recorded answers.
ghost use Rattle.std.specs.Prelude.{◌≡◌, ◌≢◌, ◌⊎◌, IfOk, IfErr, Ok, All};
ghost use Rattle.fault.specs.declared.refusal.Refusal.TheVariants.{NoMemory, BadFlight};
ghost use Rattle.sqlread.specs.Shapes.{QueryShape};
ghost use Rattle.sqlread.specs.Texts.{query_in};
ghost use Rattle.flight.specs.Spelling.{answer_text, closing_text};
ghost use Rattle.flight.specs.Ranges.{IsAnswer};
ghost use Rattle.flight.specs.Reading.{Spells, SpellsOnly, IsUnread};

use crate::flight::Answered;
use crate::parts::{begins, past, read_block, read_mark};
use fault::Refusal;
use schema::Schema;
use sqlread::query::read_query;
use std::alloc::Global;

// A query has to read over the tables.
fn check_query(alloc: Global, schema: &Schema, text: &str) -> Result<(), Refusal>
    ensures ok { IfOk result (λ _. (query : QueryShape) × (query_in schema.now text.now ≡ Ok query)) }
    ensures err { IfErr result (λ r. (r ≡ NoMemory) ⊎ ((r ≡ BadFlight) × ((query : QueryShape) → query_in schema.now text.now ≢ Ok query))) }
{
    match read_query(alloc, schema, text) {
        Ok(_) => Ok(()),
        Err(Refusal::NoMemory) => Err(Refusal::NoMemory),
        Err(_) => Err(Refusal::BadFlight),
    }
}

fn read_answer<'a>(
    alloc: Global,
    schema: &Schema,
    text: &'a str,
) -> Result<(Answered, &'a str), Refusal>
    ensures ok { IfOk result (λ p. Spells (IsAnswer schema.now) answer_text text.now p.0 p.1.now) }
    ensures only { IfOk result (λ p. SpellsOnly (IsAnswer schema.now) answer_text text.now p.0 p.1.now) }
    ensures err { IfErr result (IsUnread (IsAnswer schema.now) answer_text text.now) }
{
    let rest = past(text, "answer ")?;
    let (mark, rest) = read_mark(rest, '\n')?;
    let rest = past(rest, "query ")?;
    let (query, rest) = read_block(alloc, rest)?;
    check_query(alloc, schema, query.as_str())?;
    let rest = past(rest, "text ")?;
    let (answer, rest) = read_block(alloc, rest)?;
    let recorded = Answered {
        mark,
        query,
        answer,
    };
    Ok((recorded, rest))
}

/// The answers, each with its mark, its query, which has to read over the tables, and its lines; then the line that ends the
/// file. What is none of these is refused 50; want of memory is 43.
pub fn read_answers<'a>(
    alloc: Global,
    schema: &Schema,
    text: &'a str,
) -> Result<(Vec<Answered>, &'a str), Refusal>
    ensures ok { IfOk result (λ p. Spells (All (IsAnswer schema.now)) closing_text text.now p.0.items p.1.now) }
    ensures only { IfOk result (λ p. SpellsOnly (All (IsAnswer schema.now)) closing_text text.now p.0.items p.1.now) }
    ensures err { IfErr result (IsUnread (All (IsAnswer schema.now)) closing_text text.now) }
{
    let mut answers = Vec::new(alloc);
    let mut rest = text;
    while begins(rest, "answer ") {
        let (answer, left) = read_answer(alloc, schema, rest)?;
        answers.push(answer)?;
        rest = left;
    }
    let rest = past(rest, "end\n")?;
    Ok((answers, rest))
}
