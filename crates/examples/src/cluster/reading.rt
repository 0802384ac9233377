//! What the readers do.
use anyhow::Result;
use nodes::{Cluster, Marked, Member, Query, Refusal, Schema, View, read_query};
use std::alloc::Global;
use std::sync::Wait;
use std::thread;
use std::time::{Clock, Duration};

// Which node each reader asks, and what held at which instant.
const QUESTIONS: [(Member, &str); 4] = [
    (
        1,
        "SELECT * FROM Dept FOR SYSTEM_TIME AS OF TIMESTAMP '1970-01-01 00:00:00.000150';",
    ),
    (
        2,
        "SELECT * FROM Dept FOR SYSTEM_TIME AS OF TIMESTAMP '1970-01-01 00:00:00.000250';",
    ),
    (
        3,
        "SELECT * FROM Dept FOR SYSTEM_TIME AS OF TIMESTAMP '1970-01-01 00:00:00.000350';",
    ),
    (
        2,
        "SELECT * FROM Dept FOR SYSTEM_TIME AS OF TIMESTAMP '1970-01-01 00:00:00.000450';",
    ),
];

// How often a reader asks at most, once in a millisecond.
const TIMES: u32 = 60_000;

/// A view of a node, and what it is asked.
#[derive(Drop)]
pub(crate) struct Reader {
    node: Member,
    view: View,
    query: Query,
}

/// The four readers.
pub(crate) fn readers<R: Wait>(
    rt: &R,
    alloc: Global,
    cluster: &Cluster,
    schema: &Schema,
) -> Result<Vec<Reader>> {
    let mut readers = Vec::new(alloc);
    for (node, text) in QUESTIONS {
        let query = read_query(alloc, schema, text)?;
        let view = cluster.view(rt, node)?;
        readers.push(Reader { node, view, query })?;
    }
    Ok(readers)
}

impl Reader {
    /// Asks till the instant is closed at the node. The answer is final: none that comes later changes it.
    pub(crate) fn read<R: Clock>(mut self, rt: &R) -> Result<(Member, Marked), Refusal> {
        for _ in 0..TIMES {
            match self.view.ask(&self.query) {
                Err(Refusal::NotClosed(_)) => thread::sleep(rt, Duration::from_millis(1)),
                Ok(marked) => return Ok((self.node, marked)),
                Err(refusal) => return Err(refusal),
            }
        }
        let marked = self.view.ask(&self.query)?;
        Ok((self.node, marked))
    }
}
