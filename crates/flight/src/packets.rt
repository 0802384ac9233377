//! Readers of packets.
ghost use Rattle.std.specs.Prelude.{◌≡◌, true, codes, IfSome, IfNone, IfOk, IfErr};
ghost use Rattle.lines.specs.Number.{IsSigned};
ghost use Rattle.flight.specs.Spelling.{packet_text, made_text};
ghost use Rattle.flight.specs.Ranges.{has_floors, IsPacket, IsSilent};
ghost use Rattle.flight.specs.Packets.{delivery_text, IsDelivery};
ghost use Rattle.flight.specs.Reading.{Spells, SpellsOnly, IsUnread, IsAfter, IsNotBegun};

use crate::bodies::read_said;
use crate::entries::read_request;
use crate::flight::Version;
use crate::life::{Packet, Step};
use crate::outcome::Outcomes;
use crate::parts::{after, past, read_mark, read_number, read_signed};
use fault::Refusal;
use model::mark::Mark;
use model::member::Member;
use model::message::{Input, Message};
use std::alloc::Global;

// A message to this node, with the mark of the step that sent it.
fn read_delivery(
    alloc: Global,
    version: Version,
    node: Member,
    text: &str,
) -> Result<((Mark, Message), &str), Refusal>
    ensures ok { IfOk result (λ p. Spells (IsDelivery version node) (delivery_text version) text.now p.0 p.1.now) }
    ensures only { IfOk result (λ p. SpellsOnly (IsDelivery version node) (delivery_text version) text.now p.0 p.1.now) }
    ensures err { IfErr result (IsUnread (IsDelivery version node) (delivery_text version) text.now) }
{
    let (sender, rest) = read_number(text, ' ')?;
    let (mark, rest) = read_mark(rest, ' ')?;
    let ((term, body), rest) = read_said(alloc, version, rest)?;
    let message = Message {
        sender: sender as usize,
        addressee: node,
        term,
        body,
    };
    Ok(((mark, message), rest))
}

// What follows the word of a Floor, in a version that knows one.
fn after_floor(version: Version, text: &str) -> Option<&str>
    ensures some { IfSome result (λ rest. (has_floors version ≡ true) × IsAfter (codes "floor\n") text.now rest.now) }
    ensures none { IfNone result (has_floors version ≡ true → IsNotBegun (codes "floor\n") text.now) }
{
    if version.has_floors() {
        after(text, "floor\n")
    } else {
        None
    }
}

// What the node took while its clock showed this reading.
fn read_packet(
    alloc: Global,
    version: Version,
    node: Member,
    reading: i64,
    text: &str,
) -> Result<(Packet, &str), Refusal>
    ensures ok { IfOk result (λ p. Spells (IsPacket version node reading) (packet_text version) text.now p.0 p.1.now) }
    ensures only { IfOk result (λ p. SpellsOnly (IsPacket version node reading) (packet_text version) text.now p.0 p.1.now) }
    ensures err { IfErr result (IsUnread (IsPacket version node reading) (packet_text version) text.now) }
{
    if let Some(rest) = after(text, "timeout\n") {
        return Ok((Packet::Local(Input::Timeout), rest));
    }
    if let Some(rest) = after(text, "beat\n") {
        return Ok((Packet::Local(Input::Beat), rest));
    }
    if let Some(rest) = after(text, "close\n") {
        return Ok((Packet::Local(Input::Close { reading }), rest));
    }
    if let Some(rest) = after_floor(version, text) {
        return Ok((Packet::Local(Input::Floor { reading }), rest));
    }
    if let Some(rest) = after(text, "submit ") {
        let (request, rest) = read_request(alloc, rest)?;
        return Ok((Packet::Local(Input::Submit { reading, request }), rest));
    }
    let rest = past(text, "from ")?;
    let ((mark, message), rest) = read_delivery(alloc, version, node, rest)?;
    let packet = Packet::Delivered {
        mark,
        reading,
        message,
    };
    Ok((packet, rest))
}

// A step after its word, without outcomes.
pub(crate) fn read_made(
    alloc: Global,
    version: Version,
    node: Member,
    text: &str,
) -> Result<(Step, &str), Refusal>
    ensures ok { IfOk result (λ p. Spells (IsSilent version node) (made_text version) text.now p.0 p.1.now) }
    ensures only { IfOk result (λ p. SpellsOnly (IsSilent version node) (made_text version) text.now p.0 p.1.now) }
    ensures err { IfErr result (IsUnread (IsSilent version node) (made_text version) text.now) }
{
    let (mark, rest) = read_mark(text, ' ')?;
    let (reading, rest) = read_signed(rest, ' ')?;
    let (packet, rest) = read_packet(alloc, version, node, reading, rest)?;
    let step = Step {
        mark,
        reading,
        packet,
        outcomes: Outcomes::none(alloc),
    };
    Ok((step, rest))
}
