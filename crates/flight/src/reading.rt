//! Reading a flight file.
ghost use Rattle.std.specs.Prelude.{◌≡◌, ◌⊎◌, IfOk, IfErr, Ok};
ghost use Rattle.fault.specs.declared.refusal.Refusal.TheVariants.{NoMemory, BadFlight};
ghost use Rattle.sqlchecks.specs.Columns.{Tables};
ghost use Rattle.schemaread.specs.Schemas.{SchemaSays};
ghost use Rattle.flight.specs.Contents.{in_flight};
ghost use Rattle.flight.specs.Files.{IsFileOf, IsOnlyOf, IsNoFile};
ghost use Rattle.flight.specs.Heads.{heading_text, IsHead};
ghost use Rattle.flight.specs.Reading.{Spells, SpellsOnly, IsUnread};

use crate::flight::Flight;
use crate::lives::{are_one_at_a_time, read_lives};
use crate::parts::{past, read_block, read_number, read_version};
use fault::Refusal;
use model::member::Member;
use schema::Schema;
use schemaread::laws::schema_says;
use schemaread::schemas::read_schema;
use std::alloc::Global;

// Whose flight a file is.
#[derive(Clone, Copy)]
struct Head {
    node: Member,
    members: usize,
}

// The line of the node and its group.
fn read_head(text: &str) -> Result<(Head, &str), Refusal>
    ensures ok { IfOk result (λ p. Spells IsHead heading_text text.now p.0 p.1.now) }
    ensures only { IfOk result (λ p. SpellsOnly IsHead heading_text text.now p.0 p.1.now) }
    ensures err { IfErr result (IsUnread IsHead heading_text text.now) }
{
    let rest = past(text, "node ")?;
    let (node, rest) = read_number(rest, ' ')?;
    let rest = past(rest, "of ")?;
    let (members, rest) = read_number(rest, '\n')?;
    if members < 3 || members > 7 || node < 1 || node > members {
        return Err(Refusal::BadFlight);
    }
    let head = Head {
        node: node as usize,
        members: members as usize,
    };
    Ok((head, rest))
}

// The tables that the text of a schema declares.
fn read_tables(alloc: Global, text: &str) -> Result<Schema, Refusal>
    ensures ok { IfOk result (λ s. SchemaSays text.now (Ok s)) }
    ensures only { IfOk result (λ s. (tables : Tables) → SchemaSays text.now (Ok tables) → tables ≡ s) }
    ensures err { IfErr result (λ r. (r ≡ NoMemory) ⊎ ((r ≡ BadFlight) × ((tables : Tables) → SchemaSays text.now (Ok tables) → ⊥))) }
{
    schema_says();
    match read_schema(alloc, text) {
        Ok(schema) => Ok(schema),
        Err(Refusal::NoMemory) => Err(Refusal::NoMemory),
        Err(_) => Err(Refusal::BadFlight),
    }
}

/// The flight whose file this is, which has one spelling: each of its lines ends with LF, numbers are in decimal
/// without leading zeros, each count and each length is the true one, the schema is one that `read_schema`
/// accepts and each query one that `read_query` accepts over it, there is a life, none but the last is still up, and
/// where steps bear outcomes the version is 2 or 3, and where there are floors it is 3.
///
/// Any other text is refused 50. The only other refusal is 43, for want of memory.
pub fn read_flight(alloc: Global, text: &str) -> Result<Flight, Refusal>
    ensures ok { IfOk result (λ f. IsFileOf text.now (in_flight f)) }
    ensures only { IfOk result (λ f. IsOnlyOf text.now (in_flight f)) }
    ensures err { IfErr result (IsNoFile text.now) }
{
    let (version, rest) = read_version(text)?;
    let (head, rest) = read_head(rest)?;
    let Head { node, members } = head;
    let rest = past(rest, "schema ")?;
    let (schema, rest) = read_block(alloc, rest)?;
    let tables = read_tables(alloc, schema.as_str())?;
    let (lives, answers, rest) = read_lives(alloc, version, node, &tables, rest)?;
    if !rest.is_empty() {
        return Err(Refusal::BadFlight);
    }
    if !are_one_at_a_time(&lives) {
        return Err(Refusal::BadFlight);
    }
    Ok(Flight {
        version,
        node,
        members,
        schema,
        lives,
        answers,
    })
}
