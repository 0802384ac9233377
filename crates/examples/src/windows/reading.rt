//! What the readers do.
use anyhow::Result;
use fault::Refusal;
use model::member::Member;
use sqlread::query::{Query, read_query};
use std::alloc::Global;
use std::sync::Wait;
use std::thread;
use std::time::{Clock, Duration};
use store::Store;
use store::announcing::Announces;
use storeviews::{Marked, View, Windows};

/// Which member each reader asks, and what was believed at which instant.
pub(crate) const QUESTIONS: [(Member, &str); 3] = [
    (
        1,
        "SELECT * FROM Pay FOR SYSTEM_TIME AS OF TIMESTAMP '2026-01-31 00:00:00.000000';",
    ),
    (
        2,
        "SELECT * FROM Pay FOR SYSTEM_TIME AS OF TIMESTAMP '2026-03-15 00:00:00.000000';",
    ),
    (
        3,
        "SELECT * FROM Pay FOR SYSTEM_TIME AS OF TIMESTAMP '2026-04-20 15:00:00.000000';",
    ),
];

// How often a reader asks at most, once in a millisecond.
const TIMES: u32 = 60_000;

/// A view of a member, and what it is asked.
#[derive(Drop)]
pub(crate) struct Reader {
    member: Member,
    text: &'static str,
    view: View,
    query: Query,
}

/// What a view was asked, and its answer.
#[derive(Drop)]
pub(crate) struct Read {
    pub member: Member,
    pub text: &'static str,
    pub marked: Marked,
}

/// The readers, one for each member.
pub(crate) fn readers<K: Announces, R: Wait>(
    rt: &R,
    alloc: Global,
    store: &mut Store<K>,
    windows: &mut Windows,
) -> Result<Vec<Reader>>
where
    K::Image: Drop,
{
    let mut readers = Vec::new(alloc);
    for (member, text) in QUESTIONS {
        let query = read_query(alloc, store.schema(), text)?;
        let view = windows.view(rt, store, member)?;
        readers.push(Reader {
            member,
            text,
            view,
            query,
        })?;
    }
    Ok(readers)
}

impl Reader {
    /// Asks till the instant is closed at the member. The answer is final: none that comes later changes it.
    pub(crate) fn read<R: Clock>(self, rt: &R) -> Result<Read, Refusal> {
        let Reader {
            member,
            text,
            mut view,
            query,
        } = self;
        let marked = ask(rt, &mut view, &query)?;
        Ok(Read {
            member,
            text,
            marked,
        })
    }
}

fn ask<R: Clock>(rt: &R, view: &mut View, query: &Query) -> Result<Marked, Refusal> {
    for _ in 0..TIMES {
        match view.ask(query) {
            Err(Refusal::NotClosed(_)) => thread::sleep(rt, Duration::from_millis(1)),
            answered => return answered,
        }
    }
    view.ask(query)
}
