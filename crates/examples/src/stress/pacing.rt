//! What the thread does that hands the nodes their inputs.
use crate::stress::asking::Watch;
use crate::stress::mail::{Mail, NODES};
use nodes::{Client, Input, Packet, Request, RequestNumber, Text};
use rand_core::SeedableRng;
use rand_core::utils::NextWord;
use rand_pcg::Pcg32;
use std::alloc::{AllocError, Global};
use std::sync::Wait;
use std::thread;
use std::time::{Clock, Duration};

// How often the nodes are handed something, and every how many milliseconds: five seconds in all, or more till each view has
// answered, up to four times as long.
const TICKS: u64 = 100;

const TICKS_MOST: u64 = 400;

const MILLIS: u64 = 50;

// How many beats each node is handed in each tick, so that its four threads have to wait for one another.
const BEATS: usize = 5;

/// How many packets each node is handed at least.
pub(crate) const LEAST_PACKETS: usize = 700;

// Every how many ticks a node is handed a timeout, and after how many the next request takes its turn.
const TIMEOUTS: u64 = 30;

const REPEATS: u64 = 10;

// The request of this number of client 7, if there is one.
fn request(alloc: Global, number: u64) -> Result<Option<Request>, AllocError> {
    let (Some(client), Some(of_client)) = (Client::new(7), RequestNumber::new(number)) else {
        return Ok(None);
    };
    let text = format!(in alloc;
        "INSERT INTO Dept (DNo, DStart, DEnd, DName) \
        VALUES ({number}, DATE '2000-01-01', DATE '2020-01-01', 'Test');"
    )?;
    Ok(Some(Request {
        client,
        number: of_client,
        text: Text::from_string(text)?,
    }))
}

// Submits the request of this number to the node at this place.
fn submit<R: Wait>(
    rt: &R,
    alloc: Global,
    mail: &Mail,
    at: usize,
    number: u64,
) -> Result<(), AllocError> {
    if let Some(request) = request(alloc, number)? {
        let reading = mail.reading();
        mail.hand(rt, at, Packet::Local(Input::Submit { reading, request }));
    }
    Ok(())
}

// Hands a node what it is due for in this tick: the node that leads takes it, and the others have nothing to do.
fn hand_one<R: Wait>(
    rt: &R,
    alloc: Global,
    mail: &Mail,
    at: usize,
    tick: u64,
) -> Result<(), AllocError> {
    submit(rt, alloc, mail, at, tick / REPEATS + 1)?;
    let reading = mail.reading();
    mail.hand(rt, at, Packet::Local(Input::Floor { reading }));
    for _ in 0..BEATS {
        mail.hand(rt, at, Packet::Local(Input::Beat));
    }
    Ok(())
}

// What is due in this tick: from time to time a timeout, and something for each node.
fn hand_all<R: Wait>(
    rt: &R,
    alloc: Global,
    mail: &Mail,
    words: &mut Pcg32,
    tick: u64,
) -> Result<(), AllocError> {
    if tick % TIMEOUTS == 0 {
        let at = words.next_word() as usize % NODES;
        mail.hand(rt, at, Packet::Local(Input::Timeout));
    }
    for at in 0..NODES {
        hand_one(rt, alloc, mail, at, tick)?;
    }
    Ok(())
}

// All ticks.
fn tick_all<R: Wait + Clock>(
    rt: &R,
    alloc: Global,
    mail: &Mail,
    watch: &Watch,
    seed: u64,
) -> Result<(), AllocError> {
    let mut words = Pcg32::seed_from_u64(seed);
    for tick in 0..TICKS_MOST {
        if tick >= TICKS && watch.is_answered() {
            break;
        }
        hand_all(rt, alloc, mail, &mut words, tick)?;
        thread::sleep(rt, Duration::from_millis(MILLIS));
    }
    Ok(())
}

/// Hands the nodes their inputs, and tells when there are no more. The error is want of memory.
pub(crate) fn pace<R: Wait + Clock>(
    rt: &R,
    alloc: Global,
    mail: &Mail,
    watch: &Watch,
    seed: u64,
) -> Result<(), AllocError> {
    let paced = tick_all(rt, alloc, mail, watch, seed);
    watch.end();
    paced
}
