//! How fast views answer on threads of their own, and what they cost the publisher.
use crate::cluster::SCHEMA;
use anyhow::{Result, ensure};
use nodes::{
    Client, Entry, Mark, Name, Query, Request, RequestNumber, Schema, Stamp, Text, View,
    read_query, read_schema,
};
use std::alloc::{AllocError, Global};
use std::rt::Clock;
use std::sync::Wait;
use std::sync::atomic::{AtomicBool, Ordering};
use std::thread;
use std::thread::Threads;
use std::time::{Duration, Instant};
use view::{Item, Publisher};

// How many rows are published before anything is measured.
const FIRST: u32 = 1_000;

// How many updates are then published while views are asked.
const MORE: u32 = 100_000;

// How many of them are published at once.
const AT_ONCE: [usize; 3] = [1, 16, 256];

// For how many milliseconds views are asked before anything is counted, and while nothing is published.
const READY: u64 = 200;

const QUIET: u64 = 500;

// How far it is, for all threads: answers count from its begin on, and views are asked until it is done.
#[derive(Drop)]
struct Stage {
    is_begun: AtomicBool,
    is_done: AtomicBool,
}

// A view that is asked, and how many answers it gave. It is asked no more after a refusal.
#[derive(Drop)]
struct Reader {
    view: View,
    answers: u64,
    is_refused: bool,
}

// What was measured.
#[derive(Drop)]
struct Figures {
    nanos: u128,
    answers: u64,
}

/// Prints how many questions views answer in a second, without and with a writer, and how much that publishes.
pub(crate) fn tell<R>(rt: &R) -> Result<()>
where
    R: AllocGlobal + Print + Clock + Wait + Threads + Sync,
{
    let alloc = rt.alloc();
    let schema = read_schema(alloc, SCHEMA)?;
    println!(rt; "each in a second, all views together, each on a thread of its own")?;
    println!(rt; " views   questions   while one publishes   published   16 at once  256 at once")?;
    for views in [0, 1, 2, 4, 8] {
        let quiet = measure(rt, alloc, &schema, views, 0, 1)?;
        let asked = quiet.rate(quiet.answers);
        print!(rt; "{views:>6}{asked:>12}")?;
        tell_published(rt, alloc, &schema, views)?;
    }
    Ok(())
}

// Prints how many questions so many views answer while one publishes updates one by one, and how many updates are published,
// one by one and more of them at once.
fn tell_published<R: Print + Clock + Wait + Threads + Sync>(
    rt: &R,
    alloc: Global,
    schema: &Schema,
    views: usize,
) -> Result<()> {
    for at_once in AT_ONCE {
        let busy = measure(rt, alloc, schema, views, MORE, at_once)?;
        let published = busy.rate(MORE.into());
        if at_once == 1 {
            let meanwhile = busy.rate(busy.answers);
            print!(rt; "{meanwhile:>22}{published:>12}")?;
        } else {
            print!(rt; "{published:>13}")?;
        }
    }
    println!(rt; "")?;
    Ok(())
}

impl Figures {
    // How many of so many there were in a second.
    fn rate(&self, count: u64) -> u128 {
        u128::from(count).saturating_mul(1_000_000_000) / self.nanos.max(1)
    }
}

// Publishes so many updates, some at once, while so many views are asked.
fn measure<R: Clock + Wait + Threads + Sync>(
    rt: &R,
    alloc: Global,
    schema: &Schema,
    views: usize,
    more: u32,
    at_once: usize,
) -> Result<Figures> {
    let query = read_query(alloc, schema, "SELECT * FROM Dept WHERE DNo = 999;")?;
    let items = items(alloc, FIRST, more)?;
    let mut publisher = open(rt, alloc, schema)?;
    let readers = take_readers(alloc, &mut publisher, views)?;
    write_and_ask(rt, publisher, items, at_once, readers, &query)
}

// Publishes these items, so many at once, while the views are asked.
fn write_and_ask<R: Clock + Wait + Threads + Sync>(
    rt: &R,
    publisher: Publisher,
    items: Vec<Item>,
    at_once: usize,
    readers: Vec<Reader>,
    query: &Query,
) -> Result<Figures> {
    let stage = Stage {
        is_begun: AtomicBool::new(false),
        is_done: AtomicBool::new(false),
    };
    let ((publisher, nanos), readers) = thread::join(
        rt,
        || write_all(rt, publisher, items, at_once, &stage),
        || ask_all(rt, readers, query, &stage),
    );
    publisher.stop(rt);
    let readers = readers?;
    Ok(Figures {
        nanos: nanos?,
        answers: answers_of(&readers)?,
    })
}

// A life that has published some rows.
fn open<R: Wait>(rt: &R, alloc: Global, schema: &Schema) -> Result<Publisher> {
    let name = Name {
        node: 1,
        opening: Mark::new(1),
    };
    let mut publisher = Publisher::start(rt, alloc, name, schema.clone()?)?;
    for item in items(alloc, 0, FIRST)? {
        add(&mut publisher, item)?;
    }
    publisher.publish(rt)?;
    Ok(publisher)
}

// Appends an item that may come after all that was appended.
fn add(publisher: &mut Publisher, item: Item) -> Result<()> {
    ensure!(item.follows(publisher.closed()), "a stamp does not rise");
    publisher.append(item)?;
    Ok(())
}

// So many requests from this number on.
fn items(alloc: Global, first: u32, count: u32) -> Result<Vec<Item>> {
    let mut items = Vec::new(alloc);
    for n in first..first.saturating_add(count) {
        items.push(item(alloc, n)?)?;
    }
    Ok(items)
}

// The request of this number, stamped with one more.
fn item(alloc: Global, n: u32) -> Result<Item> {
    let number = u64::from(n).saturating_add(1);
    let text = text_of(alloc, n)?;
    let entry = Entry {
        term: 1,
        stamp: Stamp::new(number),
        request: request(alloc, number, text.as_str())?,
    };
    Ok(Item::Applied {
        mark: Mark::new(number),
        entry,
    })
}

// The first ones insert a row each, the others update one of them, in turn. Row 999 is not updated.
fn text_of(alloc: Global, n: u32) -> Result<String, AllocError> {
    if n < FIRST {
        return format!(in alloc;
            "INSERT INTO Dept (DNo, DStart, DEnd, DName) VALUES ({n}, DATE '2000-01-01', DATE '2020-01-01', 'Test');"
        );
    }
    let key = n % 999;
    format!(in alloc; "UPDATE Dept SET DName = 'Name {n}' WHERE DNo = {key};")
}

fn request(alloc: Global, number: u64, text: &str) -> Result<Option<Request>, AllocError> {
    let (Some(client), Some(number)) = (Client::new(7), RequestNumber::new(number)) else {
        return Ok(None);
    };
    let text = Text::new(alloc, text)?;
    Ok(Some(Request {
        client,
        number,
        text,
    }))
}

fn take_readers(alloc: Global, publisher: &mut Publisher, count: usize) -> Result<Vec<Reader>> {
    let mut readers = Vec::new(alloc);
    for _ in 0..count {
        let view = publisher.take_view()?;
        readers.push(Reader {
            view,
            answers: 0,
            is_refused: false,
        })?;
    }
    Ok(readers)
}

// Publishes these items, so many at once, when the views are being asked.
fn write_all<R: Clock + Wait>(
    rt: &R,
    mut publisher: Publisher,
    items: Vec<Item>,
    at_once: usize,
    stage: &Stage,
) -> (Publisher, Result<u128>) {
    thread::sleep(rt, Duration::from_millis(READY));
    stage.is_begun.store(true, Ordering::SeqCst);
    let nanos = publish_all(rt, &mut publisher, items, at_once);
    stage.is_done.store(true, Ordering::SeqCst);
    (publisher, nanos)
}

// The nanoseconds of publishing these items, so many at once, or of some time where there are none.
fn publish_all<R: Clock + Wait>(
    rt: &R,
    publisher: &mut Publisher,
    items: Vec<Item>,
    at_once: usize,
) -> Result<u128> {
    let start = Instant::now(rt)?;
    if items.is_empty() {
        thread::sleep(rt, Duration::from_millis(QUIET));
    }
    let mut pending = 0usize;
    for item in items {
        add(publisher, item)?;
        pending = pending.saturating_add(1);
        if pending >= at_once {
            publisher.publish(rt)?;
            pending = 0;
        }
    }
    publisher.publish(rt)?;
    Ok(start.elapsed(rt)?.as_nanos())
}

// Asks each view on a thread of its own.
fn ask_all<R: Threads + Sync>(
    rt: &R,
    readers: Vec<Reader>,
    query: &Query,
    stage: &Stage,
) -> Result<Vec<Reader>, AllocError> {
    thread::map_vec(rt, readers, &|reader| asked(reader, query, stage))
}

// A view after it was asked again and again, until all is done.
fn asked(mut reader: Reader, query: &Query, stage: &Stage) -> Reader {
    for _ in 0..u64::MAX {
        if reader.is_refused || stage.is_done.load(Ordering::SeqCst) {
            break;
        }
        if !stage.is_begun.load(Ordering::SeqCst) {
            reader.answers = 0;
        }
        reader.ask(query);
    }
    reader
}

impl Reader {
    // Asks once. One row is to be the answer.
    fn ask(&mut self, query: &Query) {
        let rows = match self.view.ask(query) {
            Ok(marked) => marked.answer.rows.len(),
            Err(_) => 0,
        };
        if rows == 1 {
            self.answers = self.answers.saturating_add(1);
        } else {
            self.is_refused = true;
        }
    }
}

// How many answers they gave together.
fn answers_of(readers: &[Reader]) -> Result<u64> {
    let mut answers = 0u64;
    for reader in readers {
        ensure!(!reader.is_refused, "a view does not give the row");
        answers = answers.saturating_add(reader.answers);
    }
    Ok(answers)
}
