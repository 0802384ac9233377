//! A database file that is cut, and one of which a byte is changed.
use crate::files::{Database, Pair, files_with, open};
use crate::found::Found;
use crate::life::live_on;
use crate::member::Ended;
use crate::states::{SCHEMA, STEPS};
use schema::Schema;
use schemaread::schemas::read_schema;
use std::alloc::{AllocError, Global};
use std::process::Abort;
use std::test::Fail;

// What the opens of damaged files found.
#[derive(Clone, Copy, Debug, Default)]
struct Counts {
    /// What was stored last.
    last: u64,
    /// What was stored after fewer steps.
    earlier: u64,
    /// Another state that a member may have.
    other: u64,
    /// 44.
    bad: u64,
    /// 40.
    fault: u64,
    /// Anything else.
    wrong: u64,
}

fn one_more(count: u64) -> u64 {
    count.saturating_add(1)
}

impl Counts {
    fn count(&mut self, found: Found) {
        match found {
            Found::Steps(steps) if steps == STEPS => self.last = one_more(self.last),
            Found::Steps(_) => self.earlier = one_more(self.earlier),
            Found::Other => self.other = one_more(self.other),
            Found::Refused(44) => self.bad = one_more(self.bad),
            Found::Refused(40) | Found::Unopened(40) => self.fault = one_more(self.fault),
            _ => self.wrong = one_more(self.wrong),
        }
    }
}

// The files of a database, its log copied into the database file, and whether that could be done.
fn closed(database: Database) -> (bool, Pair) {
    match database.close_files() {
        Ok(files) => (true, files),
        Err((_, store)) => (false, store.close()),
    }
}

// The database file of a member that took all steps, with an empty log.
fn saved(alloc: Global, schema: &Schema) -> Result<Vec<u8>, Fail> {
    let files = files_with(alloc, &[], &[])?;
    let (life, files) = live_on(alloc, files, schema, true);
    let Some(Ended::Whole) = life.ended else {
        return Err(Fail::from("the member did not take all steps"));
    };
    copied(alloc, files)
}

// The database file once its log is copied into it.
fn copied(alloc: Global, files: Pair) -> Result<Vec<u8>, Fail> {
    let Ok(database) = open(alloc, files) else {
        return Err(Fail::from("the files do not open"));
    };
    let (is_copied, files) = closed(database);
    if !is_copied {
        return Err(Fail::from("the log is not copied"));
    }
    Ok(files.db.inner().bytes().to_vec(alloc)?)
}

// What an open of a database file finds that has these bytes and no log.
fn find_in(alloc: Global, bytes: &[u8], schema: &Schema) -> Result<Found, AllocError> {
    let files = files_with(alloc, &[], bytes)?;
    let (life, _) = live_on(alloc, files, schema, false);
    Ok(life.found)
}

// The file is cut after each of its bytes but the last.
fn cut_each(alloc: Global, bytes: &[u8], schema: &Schema) -> Result<Counts, AllocError> {
    let mut counts = Counts::default();
    for length in 0..bytes.len() {
        let head = bytes.get(..length).unwrap_or(bytes);
        counts.count(find_in(alloc, head, schema)?);
    }
    Ok(counts)
}

// The byte at a place is changed in these bits: what an open finds. The byte is as before then.
fn change(
    alloc: Global,
    bytes: &mut [u8],
    at: usize,
    bits: u8,
    schema: &Schema,
) -> Result<Found, AllocError> {
    if let Some(byte) = bytes.get_mut(at) {
        *byte ^= bits;
    }
    let found = find_in(alloc, bytes, schema)?;
    if let Some(byte) = bytes.get_mut(at) {
        *byte ^= bits;
    }
    Ok(found)
}

// Each byte is changed in these bits.
fn change_each(
    alloc: Global,
    bytes: &mut [u8],
    bits: u8,
    schema: &Schema,
) -> Result<Counts, AllocError> {
    let mut counts = Counts::default();
    for at in 0..bytes.len() {
        counts.count(change(alloc, bytes, at, bits, schema)?);
    }
    Ok(counts)
}

// Prints what opens found. None found what no member may have.
fn tell(rt: &(impl Print + Abort), damage: &str, counts: Counts) -> Result<(), Fail> {
    println!(rt; "{damage}: {counts:?}")?;
    assert!(rt; counts.wrong == 0);
    Ok(())
}

/// A file that is cut never shows a state that was never stored, and one with a changed byte no state but one that a member may
/// have.
#[test]
fn damaged_files(rt: HostRuntime) -> Result<(), Fail> {
    let schema = read_schema(rt.alloc(), SCHEMA)?;
    let mut bytes = saved(rt.alloc(), &schema)?;
    let counts = cut_each(rt.alloc(), &bytes, &schema)?;
    tell(&rt, "cut", counts)?;
    assert!(rt; counts.other == 0);
    for (damage, bits) in [("lowest bits", 1), ("highest bits", 128)] {
        tell(
            &rt,
            damage,
            change_each(rt.alloc(), &mut bytes, bits, &schema)?,
        )?;
    }
    Ok(())
}
