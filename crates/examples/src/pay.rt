//! Tables that are kept: a store is made in a folder, requests are handed in, a member is asked what was believed, and the folder is gone on
//! with the next month.

use answertext::Lines;
use anyhow::Result;
use std::alloc::Global;
use store::Store;
use store::announcing::Announces;
use storefolder::{Found, Task, reading_of, with_store};

const DIR: &str = "pay";

pub(crate) const SCHEMA: &str =
    "CREATE TABLE Pay (ENo INTEGER, PStart DATE, PEnd DATE, Salary INTEGER, \
    SysStart TIMESTAMP(6) GENERATED ALWAYS AS ROW START, SysEnd TIMESTAMP(6) GENERATED ALWAYS AS ROW END, \
    PERIOD FOR Paid (PStart, PEnd), PERIOD FOR SYSTEM_TIME (SysStart, SysEnd), \
    PRIMARY KEY (ENo, Paid WITHOUT OVERLAPS)) WITH SYSTEM VERSIONING;";

// What the clock is set to in January and in February, so that the program prints the same each time. With none set, `reading_of` reads
// the system's clock.
pub(crate) const JANUARY: i64 = 1_767_603_600_000_000;

pub(crate) const FEBRUARY: i64 = 1_770_714_000_000_000;

pub(crate) const HIRED: &str =
    "INSERT INTO Pay (ENo, PStart, PEnd, Salary) VALUES (1, DATE '2026-01-01', DATE '2028-01-01', 5000);";

pub(crate) const RAISED: &str =
    "UPDATE Pay FOR PORTION OF Paid FROM DATE '2026-02-01' TO DATE '2028-01-01' SET Salary = Salary + 500 WHERE ENo = 1;";

const THEN: &str =
    "SELECT * FROM Pay FOR SYSTEM_TIME AS OF TIMESTAMP '2026-01-31 00:00:00.000000';";

const NOW: &str = "SELECT * FROM Pay;";

// Hands in a request, and prints what came of it.
fn request<K: Announces>(
    rt: &HostRuntime,
    pay: &mut Store<K>,
    reading: i64,
    text: &str,
) -> Result<()>
where
    K::Image: Drop,
{
    let (number, outcome) = pay.execute(reading, text)?;
    let number = number.get();
    println!(rt; "request {number} {outcome}")?;
    Ok(())
}

// Asks member 2, and prints its answer.
fn question<K: Announces>(
    rt: &HostRuntime,
    pay: &mut Store<K>,
    reading: i64,
    text: &str,
) -> Result<()>
where
    K::Image: Drop,
{
    let answer = pay.ask(reading, 2, text)?;
    let lines = Lines(&answer);
    print!(rt; "{lines}")?;
    Ok(())
}

// In January somebody is hired.
#[derive(Drop)]
struct January;

impl Task for January {
    type Output = Result<()>;

    fn work<K: Announces>(self, rt: &HostRuntime, pay: &mut Store<K>, _found: &Found) -> Result<()>
    where
        K::Image: Drop,
    {
        let reading = reading_of(rt, Some(JANUARY))?;
        request(rt, pay, reading, HIRED)
    }
}

// In February there is a raise, and questions.
#[derive(Drop)]
struct February;

impl Task for February {
    type Output = Result<()>;

    fn work<K: Announces>(self, rt: &HostRuntime, pay: &mut Store<K>, _found: &Found) -> Result<()>
    where
        K::Image: Drop,
    {
        let reading = reading_of(rt, Some(FEBRUARY))?;
        request(rt, pay, reading, RAISED)?;
        question(rt, pay, reading, THEN)?;
        question(rt, pay, reading, NOW)
    }
}

/// Makes the store in the folder `pay`, and works with it in January and in February.
pub(crate) fn run(rt: &HostRuntime) -> Result<()> {
    let alloc: Global = rt.alloc();
    storefolder::make(rt, alloc, DIR, 3, SCHEMA)?;
    with_store(rt, alloc, DIR, true, JANUARY, January)??;
    with_store(rt, alloc, DIR, true, FEBRUARY, February)?
}
