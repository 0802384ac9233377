//! Rows of a store as CSV.
use crate::asked::{Export, Versions};
use crate::printing::print_bytes;
use crate::questions::{ever_text, now_text, then_text};
use crate::stop::Fault;
use answer::Answer;
use looks::answer_as_csv;
use period::Instant;
use schema::Name;
use sqlchecks::column::find_table;
use std::alloc::Global;
use store::announcing::Announces;
use store::{Store, StoreRefusal};

/// The instant of `--as-of`. 10 where it is not written as an instant, 16 where there is none of it.
pub(crate) fn instant_of(versions: Versions<'_>) -> Result<Option<Instant>, Fault> {
    match versions {
        Versions::AsOf(text) => Ok(Some(Instant::read(text, 0)?)),
        Versions::Current | Versions::All => Ok(None),
    }
}

// All that was believed up to the instant that is closed.
fn ask_all<K: Announces>(
    alloc: Global,
    name: &Name,
    reading: i64,
    store: &mut Store<K>,
) -> Result<Answer, StoreRefusal>
where
    K::Image: Drop,
{
    let (member, answer) = store.ask_any(reading, now_text(alloc, name)?.as_str())?;
    let text = ever_text(alloc, name, answer.last.instant())?;
    store.ask(reading, member, text.as_str())
}

// The answer that is printed.
fn ask<K: Announces>(
    alloc: Global,
    name: &Name,
    versions: Versions<'_>,
    instant: Option<Instant>,
    reading: i64,
    store: &mut Store<K>,
) -> Result<Answer, StoreRefusal>
where
    K::Image: Drop,
{
    let text = match (versions, instant) {
        (Versions::All, _) => return ask_all(alloc, name, reading, store),
        (_, Some(instant)) => then_text(alloc, name, instant)?,
        _ => now_text(alloc, name)?,
    };
    let (_, answer) = store.ask_any(reading, text.as_str())?;
    Ok(answer)
}

/// Prints the rows of a table as CSV.
pub(crate) fn export_rows<K: Announces>(
    rt: &HostRuntime,
    alloc: Global,
    export: Export<'_>,
    instant: Option<Instant>,
    reading: i64,
    store: &mut Store<K>,
) -> Result<u8, Fault>
where
    K::Image: Drop,
{
    let schema = store.schema();
    let place = find_table(schema, export.table)?;
    let name = schema.table(place).0.clone()?;
    let answer = ask(alloc, &name, export.versions, instant, reading, store)?;
    let text = answer_as_csv(alloc, &answer)?;
    print_bytes(rt, text.as_slice())?;
    Ok(0)
}
