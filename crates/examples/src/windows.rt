//! Views of a store's members: requests are handed in while threads ask views what was believed. What they are answered is what the members
//! themselves answer afterwards.

mod reading;

use crate::pay::{FEBRUARY, HIRED, JANUARY, RAISED, SCHEMA};
use crate::windows::reading::{QUESTIONS, Read, Reader, readers};
use answertext::Lines;
use anyhow::{Result, bail};
use schemaread::schemas::read_schema;
use std::alloc::Global;
use std::sync::Wait;
use std::thread;
use std::thread::Threads;
use std::time::Clock;
use store::Store;
use store::announcing::Announces;
use storefolder::open_in_memory;
use storeviews::Windows;

// What the clock shows in April; January and February are those of `pay`.
const APRIL: i64 = 1_776_697_200_000_000;

// What is handed in, and when.
const REQUESTS: [(i64, &str); 3] = [
    (JANUARY, HIRED),
    (FEBRUARY, RAISED),
    (
        APRIL,
        "UPDATE Pay FOR PORTION OF Paid FROM DATE '2026-02-01' TO DATE '2026-03-01' SET Salary = Salary - 500 WHERE ENo = 1;",
    ),
];

// Hands in each request, and shows what comes of it. At last each member is asked what its reader asks, so that the instant is closed there.
fn submit_all<K: Announces, R: Wait>(
    rt: &R,
    pay: &mut Store<K>,
    windows: &mut Windows,
) -> Result<()>
where
    K::Image: Drop,
{
    for (reading, text) in REQUESTS {
        pay.execute(reading, text)?;
        windows.publish(rt, pay)?;
    }
    for (member, text) in QUESTIONS {
        let _ = pay.ask(APRIL, member, text)?;
    }
    windows.publish(rt, pay)?;
    Ok(())
}

// Does so. After an error the views end, so that nobody asks them any more.
fn write<K: Announces, R: Wait>(rt: &R, pay: &mut Store<K>, windows: Windows) -> Result<Windows>
where
    K::Image: Drop,
{
    let mut windows = windows;
    match submit_all(rt, pay, &mut windows) {
        Ok(()) => Ok(windows),
        Err(error) => {
            windows.stop(rt);
            Err(error)
        }
    }
}

// Writes while each reader asks on a thread of its own. What they were answered, in their order.
fn write_and_read<K: Announces, R: Threads + Wait + Clock + Sync>(
    rt: &R,
    alloc: Global,
    pay: &mut Store<K>,
) -> Result<Vec<Read>>
where
    K::Image: Drop,
{
    let mut windows = Windows::new(alloc, pay.members())?;
    let readers = readers(rt, alloc, pay, &mut windows)?;
    let (answers, written) = thread::join(
        rt,
        || thread::map_vec(rt, readers, &|reader: Reader| reader.read(rt)),
        || write(rt, pay, windows),
    );
    written?.stop(rt);
    let mut all = Vec::new(alloc);
    for answer in answers? {
        all.push(answer?)?;
    }
    Ok(all)
}

// Prints what a view answered, which has to be what its member answers.
fn tell<K: Announces>(rt: &impl Print, alloc: Global, pay: &mut Store<K>, read: &Read) -> Result<()>
where
    K::Image: Drop,
{
    let member = read.member;
    let own = pay.ask(APRIL, member, read.text)?;
    let seen = format!(in alloc; "{}", Lines(&read.marked.answer))?;
    let said = format!(in alloc; "{}", Lines(&own))?;
    if seen != said {
        bail!("member {member} answers otherwise");
    }
    print!(rt; "member {member}\n{seen}")?;
    Ok(())
}

/// Hands in requests to a store in memory while views of its members are asked, and prints what these answered.
pub(crate) fn run<R>(rt: &R) -> Result<()>
where
    R: AllocGlobal + Print + Threads + Wait + Clock + Sync,
{
    let alloc: Global = rt.alloc();
    let schema = read_schema(alloc, SCHEMA)?;
    let mut pay = open_in_memory(alloc, 3, schema, JANUARY)?;
    let answers = write_and_read(rt, alloc, &mut pay)?;
    for read in &answers {
        tell(rt, alloc, &mut pay, read)?;
    }
    Ok(())
}
