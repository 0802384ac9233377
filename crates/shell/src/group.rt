//! Reading the flight files of a group.
ghost use Rattle.std.specs.Prelude.{◌≡◌, ◌≢◌, ◌<◌, ◌⊎◌, ◌↔◌, IfOk, IfErr, IsTrue, IsPermutation, Ok, MatchOption, length, map, slice_index_or, string_bytes};
ghost use Rattle.std.specs.List.{All};
ghost use Rattle.fault.specs.declared.refusal.Refusal.TheVariants.{NoMemory, BadFlight};
ghost use Rattle.flight.specs.Contents.{in_flight};
ghost use Rattle.flight.specs.declared.flight.Flight.{Flight as AnyFlight};
ghost use Rattle.flight.specs.Ranges.{IsFlight};
ghost use Rattle.schemaread.specs.Schemas.{SchemaSays};
ghost use Rattle.shell.specs.Group.{AreFilesOf, IsNoGroup, IsRunIn};
ghost use Rattle.shell.specs.Reading.{AreRead, InOrder, LacksNode};

use fault::Refusal;
use flight::flight::{Flight, Version};
use flight::{Records, read_flight};
use model::member::Member;
use schema::Schema;
use schemaread::laws::schema_says;
use schemaread::schemas::read_schema;
use std::alloc::Global;

fn read_flights(alloc: Global, texts: &[String]) -> Result<Vec<Flight>, Refusal>
    ensures ok { IfOk result (λ flights. AreRead texts.now flights.items) }
    ensures err { IfErr result (λ refusal. (refusal ≡ NoMemory) ⊎ ((refusal ≡ BadFlight) × IsNoGroup (map string_bytes texts.now))) }
{
    let mut flights = Vec::new(alloc);
    for text in texts {
        flights.push(read_flight(alloc, text.as_str())?)?;
    }
    Ok(flights)
}

// Whether all are flights of a group of so many nodes as there are flights, of this one's version and with its schema.
fn are_alike(flights: &[Flight], first: &Flight) -> bool
    ensures { IsTrue result ↔ All (λ f. (f.version ≡ first.now.version) × (f.members ≡ length flights.now) × (f.schema ≡ first.now.schema)) flights.now }
{
    let members = flights.len();
    flights.iter().all(|flight| {
        flight.version == first.version
            && flight.members == members
            && flight.schema == first.schema
    })
}

// The tables that a flight's schema declares. The error is want of memory.
fn tables_of(alloc: Global, flight: &Flight) -> Result<Schema, Refusal>
    requires { IsFlight (in_flight flight.now) }
    ensures ok { IfOk result (λ tables. SchemaSays flight.now.schema (Ok tables)) }
    ensures err { IfErr result (λ refusal. refusal ≡ NoMemory) }
{
    schema_says();
    read_schema(alloc, flight.schema.as_str())
}

fn node_at(flights: &[Flight], node: Member) -> Option<usize>
    ensures { MatchOption result (All (λ f. f.node ≢ node) flights.now)
        (λ at. (at < length flights.now) × ((d : AnyFlight) → (slice_index_or flights.now at d).node ≡ node)) }
{
    flights.iter().position(|flight| flight.node == node)
}

// Puts the flights in the order of their nodes. 50 where a node has none.
fn in_order(alloc: Global, flights: Vec<Flight>) -> Result<Vec<Flight>, Refusal>
    ensures ok { IfOk result (λ ordered. IsPermutation flights.items ordered.items × InOrder ordered.items) }
    ensures err { IfErr result (λ refusal. (refusal ≡ NoMemory) ⊎ ((refusal ≡ BadFlight) × LacksNode flights.items)) }
{
    let mut left = flights;
    let mut ordered = Vec::new(alloc);
    for at in 0..left.len() {
        let Some(place) = node_at(&left, at + 1) else {
            return Err(Refusal::BadFlight);
        };
        ordered.push(left.swap_remove(place))?;
    }
    Ok(ordered)
}

// The flights of which the texts are the files, in the order of their nodes, their version, and the tables of their schema.
// 43, or 50 where the texts are not the flight files of a group.
pub(crate) fn read_group(
    alloc: Global,
    texts: &[String],
) -> Result<(Version, Schema, Vec<Flight>), Refusal>
    ensures ok { IfOk result (λ group. AreFilesOf (map string_bytes texts.now) group.0 group.1 (map in_flight group.2.items)) }
    ensures err { IfErr result (λ refusal. (refusal ≡ NoMemory) ⊎ ((refusal ≡ BadFlight) × IsNoGroup (map string_bytes texts.now))) }
{
    let flights = read_flights(alloc, texts)?;
    let Some(first) = flights.first() else {
        return Err(Refusal::BadFlight);
    };
    if !are_alike(&flights, first) {
        return Err(Refusal::BadFlight);
    }
    let version = first.version;
    let tables = tables_of(alloc, first)?;
    Ok((version, tables, in_order(alloc, flights)?))
}

/// The version and the tables of the group of which these texts are the flight files, one of each node in any order, and
/// what the flights hold, node by node. 50 where the texts are not the flight files of a group, 43 for want of memory.
pub(crate) fn read_run(
    alloc: Global,
    texts: &[String],
) -> Result<(Version, Schema, Records), Refusal>
    ensures ok { IfOk result (λ run. IsRunIn (map string_bytes texts.now) run.0 run.1 run.2.lives.items run.2.answers.items) }
    ensures err { IfErr result (λ refusal. (refusal ≡ NoMemory) ⊎ ((refusal ≡ BadFlight) × IsNoGroup (map string_bytes texts.now))) }
{
    let (version, tables, flights) = read_group(alloc, texts)?;
    Ok((version, tables, Records::of(alloc, flights)?))
}
