//! What is said of flights beside what was kept of them.
ghost use Rattle.std.specs.Prelude.{◌≡◌, ◌++◌, ◌↔◌, All, IfOk, IsTrue, OnOk, codes, length, map, string_bytes};
ghost use Rattle.flight.specs.Contents.{in_flight};
ghost use Rattle.beginnings.specs.Words.{IsTold, node_line, node_lines};
ghost use Rattle.beginnings.specs.declared.beginning.Found.TheVariants.{Begins};

use crate::beginning::{Beginning, Found};
use crate::group::found_in;
use flight::flight::Flight;
use model::member::Member;
use std::alloc::{AllocError, Global};

/// What is said of flights beside what was kept of them.
#[derive(Debug, Drop)]
pub struct Told {
    /// Whether there are as many flights as beginnings, and each flight begins so.
    pub is_beginning: bool,
    /// The one line that says so; or one for each node of which it is not so; or the one that says how many nodes were seen.
    pub words: String,
}

// Adds the line of a node, of one that begins so none.
fn put_node(node: Member, found: Found, text: &mut String) -> Result<(), AllocError>
    ensures { OnOk result (string_bytes text.new ≡ string_bytes text.old ++ node_line node found) }
{
    match found {
        Found::Begins => Ok(()),
        Found::Differs => write!(text, "since: node {node} differs from what was seen then\n"),
        Found::Less => write!(text, "since: node {node} has less than was seen then\n"),
    }
}

// The lines of nodes from node 1 on.
fn lines_of(alloc: Global, found: &[Found]) -> Result<String, AllocError>
    ensures { IfOk result (λ text. string_bytes text ≡ node_lines 1 found.now) }
{
    let mut text = String::new(alloc);
    for (place, own) in found.iter().enumerate() {
        put_node(place + 1, *own, &mut text)?;
    }
    Ok(text)
}

fn all_begin(found: &[Found]) -> bool
    ensures { IsTrue result ↔ All (λ own. own ≡ Begins) found.now }
{
    found.iter().all(|own| *own == Found::Begins)
}

// What is said where there are as many flights as beginnings.
fn told_of_nodes(alloc: Global, flights: &[Flight], seen: &[Beginning]) -> Result<Told, AllocError>
    requires { length flights.now ≡ length seen.now }
    ensures { IfOk result (λ told. IsTold (map in_flight flights.now) seen.now told.is_beginning (string_bytes told.words)) }
{
    let found = found_in(alloc, flights, seen)?;
    if all_begin(found.as_slice()) {
        return Ok(Told {
            is_beginning: true,
            words: String::from_str(alloc, "since: what was seen then is a beginning of this\n")?,
        });
    }
    Ok(Told {
        is_beginning: false,
        words: lines_of(alloc, found.as_slice())?,
    })
}

/// What is said of flights, in the order of their nodes, beside what was kept of them. The error is want of memory.
pub fn told_of(alloc: Global, flights: &[Flight], seen: &[Beginning]) -> Result<Told, AllocError>
    ensures { IfOk result (λ told. IsTold (map in_flight flights.now) seen.now told.is_beginning (string_bytes told.words)) }
{
    if flights.len() == seen.len() {
        return told_of_nodes(alloc, flights, seen);
    }
    let nodes = seen.len();
    Ok(Told {
        is_beginning: false,
        words: format!(in alloc; "since: {nodes} nodes were seen then\n")?,
    })
}
