//! What the writer does.
use anyhow::{Result, anyhow, bail};
use nodes::{
    Client, ClusterHandle, Given, Input, Mark, Member, Message, Out, Packet, Request,
    RequestNumber, Text,
};
use std::alloc::{AllocError, Global};
use std::collections::VecDeque;
use std::sync::Wait;

// What is submitted, one after another: the number of each request, what all clocks show, in microseconds, and its text.
const REQUESTS: [(u64, i64, &str); 3] = [
    (
        1,
        200,
        "INSERT INTO Dept (DNo, DStart, DEnd, DName) VALUES (1, DATE '2000-01-01', DATE '2020-01-01', 'Sales');",
    ),
    (2, 300, "UPDATE Dept SET DName = 'Trade' WHERE DNo = 1;"),
    (3, 400, "DELETE FROM Dept WHERE DNo = 1;"),
];

// How many packets one request comes to at most.
const PACKETS: u32 = 1_000;

/// Elects node 1, and submits each request to it.
pub(crate) fn write_all<R: Wait>(rt: &R, alloc: Global, handle: &ClusterHandle) -> Result<()> {
    bring(rt, alloc, handle, 100, Packet::Local(Input::Timeout))?;
    for (number, reading, text) in REQUESTS {
        let packet = submit(alloc, number, reading, text)?;
        bring(rt, alloc, handle, reading, packet)?;
    }
    // Time is closed up to 500 microseconds, and then the others hear that this is decided.
    let close = Input::Close { reading: 500 };
    bring(rt, alloc, handle, 500, Packet::Local(close))?;
    bring(rt, alloc, handle, 500, Packet::Local(Input::Beat))
}

// A request of client 7.
fn submit(alloc: Global, number: u64, reading: i64, text: &str) -> Result<Packet> {
    let (Some(client), Some(number)) = (Client::new(7), RequestNumber::new(number)) else {
        bail!("no such request");
    };
    let request = Request {
        client,
        number,
        text: Text::new(alloc, text)?,
    };
    Ok(Packet::Local(Input::Submit { reading, request }))
}

// Sends node 1 a packet, and brings the messages that come of it, and those that come of these, till there are none.
fn bring<R: Wait>(
    rt: &R,
    alloc: Global,
    handle: &ClusterHandle,
    reading: i64,
    packet: Packet,
) -> Result<()> {
    let mut due = VecDeque::new(alloc);
    due.push_back((1, packet))?;
    for _ in 0..PACKETS {
        let Some((node, packet)) = due.pop_front() else {
            return Ok(());
        };
        let out = feed(rt, handle, node, reading, packet)?;
        let Out { mark, given } = out;
        let Given { messages, .. } = given;
        for message in messages {
            due.push_back(delivered(mark, reading, message))?;
        }
    }
    Err(anyhow!("messages do not end"))
}

// Where a message goes, and as which packet.
fn delivered(mark: Mark, reading: i64, message: Message) -> (Member, Packet) {
    let node = message.addressee;
    let packet = Packet::Delivered {
        mark,
        reading,
        message,
    };
    (node, packet)
}

// Sends a node a packet, and waits for what comes of it.
fn feed<R: Wait>(
    rt: &R,
    handle: &ClusterHandle,
    node: Member,
    reading: i64,
    packet: Packet,
) -> Result<Out> {
    if let Err(unsent) = handle.send(rt, node, reading, packet) {
        return Err(unsent.refusal.into());
    }
    let report = handle.report(rt, node)?;
    Ok(report.outcome?)
}
