//! Three nodes, a thread that writes and four that read, by the crate `nodes` alone.
//!
//! The writer elects node 1, submits three requests to it, and brings each message to the node that it is for. Meanwhile each
//! reader asks a view of a node what held at an instant, till that is closed there. What they are answered is printed once all
//! are done: it is the same however the threads went.

ghost use Rattle.std.specs.Prelude.{◌≡◌, ℕ, All, IfOk, vec_len};
ghost use Rattle.model.specs.Transactions.{Language};
ghost use Rattle.keep.specs.Durable.{stored_in};
ghost use Rattle.keep.specs.Log.{IsLog};

mod reading;
mod writing;

use crate::cluster::reading::{Reader, readers};
use anyhow::Result;
use nodes::{
    Cluster, Config, Gate, Lines, Marked, MemImage, MemKeeper, Member, Point, Schema, read_schema,
};
use std::alloc::{AllocError, Global};
use std::sync::{Arc, Wait};
use std::thread;
use std::thread::Threads;
use std::time::Clock;

pub(crate) const SCHEMA: &str =
    "CREATE TABLE Dept (DNo INTEGER, DStart DATE, DEnd DATE, DName VARCHAR(20), \
    SysStart TIMESTAMP(6) GENERATED ALWAYS AS ROW START, SysEnd TIMESTAMP(6) GENERATED ALWAYS AS ROW END, \
    PERIOD FOR DPeriod (DStart, DEnd), PERIOD FOR SYSTEM_TIME (SysStart, SysEnd), \
    PRIMARY KEY (DNo, DPeriod WITHOUT OVERLAPS)) WITH SYSTEM VERSIONING;";

// Holds nobody.
#[derive(Drop)]
struct Open;

impl Gate for Open {
    fn pass(&self, _node: Member, _point: Point) {}
}

// A store without anything, for each of three nodes.
fn images(alloc: Global) -> Result<Vec<MemImage>, AllocError>
    ensures three { IfOk result (λ images. vec_len images ≡ 3) }
    ensures logs { IfOk result (λ images. (members : ℕ) (language : Language) → All (λ image. IsLog members language (stored_in image)) images.items) }
{
    let images = vec![in alloc;
        MemImage::new(alloc),
        MemImage::new(alloc),
        MemImage::new(alloc),
    ]?;
    Ok(images)
}

fn start<R: Wait + Threads + Copy + Send + Drop + 'static>(
    rt: &R,
    alloc: Global,
    schema: &Schema,
) -> Result<Cluster> {
    let config = Config {
        schema: schema.clone()?,
        images: images(alloc)?,
    };
    let gate = Arc::new(alloc, Open)?;
    Ok(Cluster::start::<MemKeeper, Open, R>(rt, alloc, config, gate)?)
}

// Writes while each reader reads on a thread of its own. What they were answered, in their order.
fn write_and_read<R: Threads + Wait + Clock + Sync>(
    rt: &R,
    alloc: Global,
    cluster: &Cluster,
    schema: &Schema,
) -> Result<Vec<(Member, Marked)>> {
    let readers = readers(rt, alloc, cluster, schema)?;
    let handle = cluster.handle()?;
    let (written, answers) = thread::join(
        rt,
        || writing::write_all(rt, alloc, &handle),
        || thread::map_vec(rt, readers, &|reader: Reader| reader.read(rt)),
    );
    written?;
    let mut all = Vec::new(alloc);
    for answer in answers? {
        all.push(answer?)?;
    }
    Ok(all)
}

/// Has threads write and read while three nodes run, and prints what was read.
pub(crate) fn run<R>(rt: &R) -> Result<()>
where
    R: AllocGlobal + Print + Wait + Threads + Clock + Sync + Copy + Send + Drop + 'static,
{
    let alloc = rt.alloc();
    let schema = read_schema(alloc, SCHEMA)?;
    let cluster = start(rt, alloc, &schema)?;
    let answers = write_and_read(rt, alloc, &cluster, &schema);
    let ended = cluster.stop(rt);
    for (node, marked) in &answers? {
        let lines = Lines(&marked.answer);
        print!(rt; "node {node}\n{lines}")?;
    }
    let nodes = ended.lives.len();
    println!(rt; "{nodes} nodes ended")?;
    Ok(())
}
