//! What an import or an export is asked for, and what it does with a store that is open.
use crate::export::{export_rows, instant_of};
use crate::import::{import_rows, read_rows};
use crate::requests::Request;
use crate::stop::Fault;
use period::Instant;
use progressline::Progress;
use schema::Schema;
use sqlchecks::column::find_table;
use std::alloc::Global;
use store::Store;
use store::announcing::Announces;

/// What is imported.
#[derive(Clone, Copy, Debug)]
pub struct Import<'a> {
    /// The folder of the store.
    pub dir: &'a str,
    pub table: &'a str,
    /// The name of the CSV file.
    pub file: &'a str,
    /// The line from which on rows are taken; the first is 1, and is the header.
    pub from: usize,
}

/// Which versions of rows are exported.
#[derive(Clone, Copy, Debug)]
pub enum Versions<'a> {
    /// What is believed now.
    Current,
    /// What was believed at this instant.
    AsOf(&'a str),
    /// All that was ever believed.
    All,
}

/// What is exported.
#[derive(Clone, Copy, Debug)]
pub struct Export<'a> {
    /// The folder of the store.
    pub dir: &'a str,
    pub table: &'a str,
    pub versions: Versions<'a>,
}

/// What is asked for.
#[derive(Clone, Copy, Debug)]
pub enum Order<'a> {
    Import(Import<'a>),
    Export(Export<'a>),
}

impl<'a> Order<'a> {
    /// The folder of the store.
    pub fn dir(self) -> &'a str {
        match self {
            Order::Import(import) => import.dir,
            Order::Export(export) => export.dir,
        }
    }
}

/// What is to be done with a store once it is open.
#[derive(Debug, Drop)]
pub enum Work<'a> {
    /// To hand in these requests.
    Import(Import<'a>, Vec<Request>),
    /// To print the rows of a table, as of this instant if one is named.
    Export(Export<'a>, Option<Instant>),
}

/// Looks at an order over the tables of a store, before that is opened: none where its file has a fault, which is told on standard output.
///
/// 11 where there is no such table, 10 and 16 where `--as-of` names no instant, 43 for want of memory.
pub fn look_at<'a>(
    rt: &HostRuntime,
    alloc: Global,
    order: Order<'a>,
    schema: &Schema,
) -> Result<Option<Work<'a>>, Fault> {
    match order {
        Order::Import(import) => match read_rows(rt, alloc, import, schema)? {
            Some(requests) => Ok(Some(Work::Import(import, requests))),
            None => Ok(None),
        },
        Order::Export(export) => {
            let _ = find_table(schema, export.table)?;
            Ok(Some(Work::Export(export, instant_of(export.versions)?)))
        }
    }
}

/// Does it with the store, on standard output, and gives the exit status: 0, or 1 where not all rows of a file are stored. What clocks
/// show is given. How many rows of a file are stored is told to who asks for it.
pub fn work_on<K: Announces, Q: Progress>(
    rt: &HostRuntime,
    alloc: Global,
    work: &Work<'_>,
    reading: i64,
    store: &mut Store<K>,
    progress: &Q,
) -> Result<u8, Fault>
where
    K::Image: Drop,
{
    match work {
        Work::Import(import, requests) => {
            import_rows(rt, alloc, *import, requests, reading, store, progress)
        }
        Work::Export(export, instant) => {
            export_rows(rt, alloc, *export, *instant, reading, store)
        }
    }
}
