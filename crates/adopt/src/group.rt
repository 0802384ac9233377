//! The run that the flight files of a group hold.
ghost use Rattle.std.specs.Prelude.{◌≡◌, ◌⊎◌, ◌↔◌, true, ◌≤◌, ◌∷◌, List, [], Ok, IfOk, IfErr, IsTrue, length, map, string_bytes};
ghost use Rattle.std.specs.List.{All, AllZip};
ghost use Rattle.fault.specs.declared.refusal.Refusal.TheVariants.{NoMemory, BadFlight};
ghost use Rattle.auditor.specs.Faults.{IsOrderFault, OfRun};
ghost use Rattle.auditor.specs.Audited.{IsFirst};
ghost use Rattle.flight.specs.declared.flight.Flight.{Flight as AnyFlight};
ghost use Rattle.journal.specs.Blocks.{lines_block};
ghost use Rattle.journal.specs.declared.line.Line.{Line as AnyLine};
ghost use Rattle.schemaread.specs.Schemas.{SchemaSays};
ghost use Rattle.moments.specs.Judged.{judged_from};
ghost use Rattle.adopt.specs.Group.{IsRead, InOrder, AreGroup, IsRunOf};
ghost use Rattle.adopt.specs.Spelled.{IsJournalOf};
ghost use Rattle.adopt.specs.Versions.{has_outcomes};

use crate::adopting::first_journal;
use crate::run::Run;
use fault::{Refusal, Text};
use flight::flight::{Flight, Version};
use flight::life::Life;
use flight::{Records, read_flight};
use model::member::Member;
use moments::{AuditFault, Recorded, all_answers};
use schema::Schema;
use schemaread::laws::schema_says;
use schemaread::schemas::read_schema;
use std::alloc::{AllocError, Global};

fn read_flights(alloc: Global, texts: &[String]) -> Result<Vec<Flight>, Refusal>
    ensures ok { IfOk result (λ flights. AllZip IsRead texts.now flights.items) }
    ensures err { IfErr result (λ r. (r ≡ NoMemory) ⊎ (r ≡ BadFlight)) }
{
    let mut flights = Vec::new(alloc);
    for text in texts {
        flights.push(read_flight(alloc, text.as_str())?)?;
    }
    Ok(flights)
}

// Whether all are flights of a group of so many nodes as there are flights, of this one's version and with its schema.
fn are_alike(flights: &[Flight], first: &Flight) -> bool
    ensures { IsTrue result ↔ All (λ f. (f.version ≡ first.now.version) × (f.members ≡ length flights.now) × (f.schema ≡ first.now.schema)) flights.now }
{
    let members = flights.len();
    flights.iter().all(|flight| {
        flight.version == first.version
            && flight.members == members
            && flight.schema == first.schema
    })
}

// Whether they stand in the order of their nodes.
fn are_in_order(flights: &[Flight]) -> bool
    ensures { IsTrue result ↔ InOrder flights.now }
{
    for (at, flight) in flights.iter().enumerate() {
        if flight.node != at + 1 {
            return false;
        }
    }
    true
}

fn has_outcomes(version: Version) -> bool
    ensures { result ≡ has_outcomes version }
{
    match version {
        Version::One => false,
        Version::Two | Version::Three => true,
    }
}

// The version and the schema that these flights have, which are those of a group, one of each node in order: else 50.
fn heading_of(flights: &[Flight]) -> Result<(Version, Text), Refusal>
    ensures ok { IfOk result (λ h. AreGroup flights.now h.0 h.1 × (has_outcomes h.0 ≡ true)) }
    ensures err { IfErr result (λ r. (r ≡ NoMemory) ⊎ (r ≡ BadFlight)) }
{
    let Some(first) = flights.first() else {
        return Err(Refusal::BadFlight);
    };
    let is_group = flights.len() >= 3 && flights.len() <= 7;
    if !is_group
        || !are_alike(flights, first)
        || !are_in_order(flights)
        || !has_outcomes(first.version)
    {
        return Err(Refusal::BadFlight);
    }
    Ok((first.version, first.schema.clone()?))
}

// The lives and the answers of these flights, the first of which is node 1's.
fn parts_of(
    alloc: Global,
    flights: Vec<Flight>,
) -> Result<(Vec<Vec<Life>>, Vec<Recorded>), AllocError>
    ensures lives { IfOk result (λ p. p.0.items ≡ map (λ f. f.lives) flights.items) }
    ensures answers { IfOk result (λ p. p.1.items ≡ judged_from 1 (map (λ f. f.answers) flights.items)) }
{
    let records = Records::of(alloc, flights)?;
    let Records { lives, answers } = records;
    let judged = all_answers(alloc, answers.as_slice())?;
    Ok((lives, judged))
}

// The tables that a schema declares.
fn tables_of(alloc: Global, schema: &Text) -> Result<Schema, Refusal>
    ensures { IfOk result (λ tables. SchemaSays schema.now (Ok tables)) }
{
    schema_says();
    read_schema(alloc, schema.as_str())
}

/// What these texts hold, which have to be the flight files of a group, one of each node in their order, of version 2 or 3: else 50. 43
/// for want of memory.
pub fn read_run(alloc: Global, texts: &[String]) -> Result<Run, Refusal>
    ensures { IfOk result (λ run. IsRunOf texts.now run) }
{
    let flights = read_flights(alloc, texts)?;
    let (version, schema_text) = heading_of(&flights)?;
    let schema = tables_of(alloc, &schema_text)?;
    let (lives, answers) = parts_of(alloc, flights)?;
    Ok(Run {
        version,
        schema_text,
        schema,
        lives,
        answers,
    })
}

impl Run {
    ghost use Rattle.std.specs.Prelude.{◌≡◌, List, [], length, IfOk, IfErr, string_bytes};

    /// How many nodes the group has.
    pub fn members(&self) -> Member
        ensures { result ≡ length self.now.lives.items }
    {
        self.lives.len()
    }

    /// The text of its tables.
    pub fn schema_text(&self) -> &Text
        ensures { result.now ≡ self.now.schema_text }
    {
        &self.schema_text
    }

    /// The text of the first journal of a store, after a form of this sum, in which all of it happens, as `first_journal` says. 51 to 54
    /// where an audit of the flights says so; or want of memory.
    pub fn journal(&self, alloc: Global, sum: u64) -> Result<String, AuditFault>
        ensures text { IfOk result (λ text. (lines : List AnyLine) × IsJournalOf (record { version = self.now.version; tables = self.now.schema; lives = self.now.lives.items; answers = self.now.answers.items }) sum lines × (string_bytes text ≡ lines_block sum lines [])) }
        ensures order { IfErr result (IsOrderFault self.now.lives.items) }
        ensures first { IfErr result (OfRun (IsFirst (record { version = self.now.version; tables = self.now.schema; lives = self.now.lives.items; answers = self.now.answers.items }))) }
    {
        first_journal(
            alloc,
            sum,
            self.version,
            &self.schema,
            &self.lives,
            &self.answers,
        )
    }
}
