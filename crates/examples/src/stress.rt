//! Seven nodes, each under a lock at which four threads feed it, in weather that loses and repeats messages, while eight views
//! are asked, for five seconds and till each view was answered; and again with another seed. Then the audit judges the lives of
//! the nodes and all that the views answered.
ghost use Rattle.std.specs.Prelude.{◌≤◌, length};

mod asking;
mod feeding;
mod mail;
mod pacing;
mod seats;

use crate::cluster::SCHEMA;
use crate::stress::asking::{Asker, Watch, answers_of};
use crate::stress::mail::{Mail, open_mail};
use crate::stress::pacing::{LEAST_PACKETS, pace};
use crate::stress::seats::{Led, Seat, seats_and_askers};
use anyhow::{Result, bail, ensure};
use auditor::{Recorded, audit};
use flight::flight::Version;
use nodes::{Life, Refusal, Schema, read_schema};
use std::alloc::{AllocError, Global};
use std::sync::Wait;
use std::thread;
use std::thread::Threads;
use std::time::Clock;

type Asked = Result<Vec<Result<Asker, Refusal>>, AllocError>;

// What the threads leave that ask, and the one that hands out inputs.
#[derive(Drop)]
struct Shown {
    asked: Asked,
    paced: Result<(), AllocError>,
    // Whether each view has answered.
    is_answered: bool,
}

// Hands the nodes their inputs while the views are asked, and then lets each thread end that feeds a node.
fn pace_and_ask<R: Threads + Wait + Clock + Sync>(
    rt: &R,
    alloc: Global,
    mail: &Mail,
    seed: u64,
    askers: Vec<Asker>,
) -> Shown {
    let watch = Watch::new(askers.len());
    let (asked, paced) = thread::join(
        rt,
        || thread::map_vec(rt, askers, &|asker: Asker| asker.ask_on(rt, &watch)),
        || pace(rt, alloc, mail, &watch, seed),
    );
    mail.end_all(rt);
    Shown {
        asked,
        paced,
        is_answered: watch.is_answered(),
    }
}

impl Shown {
    // All that the views answered, each of them something.
    fn into_answers(self, alloc: Global) -> Result<Vec<Recorded>> {
        let Shown {
            asked,
            paced,
            is_answered,
        } = self;
        paced?;
        ensure!(is_answered, "a view did not answer");
        Ok(answers_of(alloc, asked?)?)
    }
}

// Leads the lives of the nodes, while the views are asked.
fn fly<R: Threads + Wait + Clock + Sync>(
    rt: &R,
    alloc: Global,
    mail: &Mail,
    seed: u64,
    seats: Vec<Seat>,
    askers: Vec<Asker>,
) -> (Result<Vec<Led>, AllocError>, Shown) {
    thread::join(
        rt,
        || thread::map_vec(rt, seats, &|seat: Seat| seat.run(rt, mail)),
        || pace_and_ask(rt, alloc, mail, seed, askers),
    )
}

// The life of a node, which has what it was handed, and each step in a share of a thread that fed it.
fn life_of(led: Led) -> Result<Life> {
    let Led { life, shared } = led;
    ensure!(shared == life.steps.len(), "a step is in no share");
    ensure!(shared >= LEAST_PACKETS, "a packet is lost");
    Ok(life)
}

// Those of all.
fn lives_of(alloc: Global, all: Vec<Led>) -> Result<Vec<Vec<Life>>> {
    let mut lives = Vec::new(alloc);
    for led in all {
        let life = life_of(led)?;
        lives.push(vec![in alloc; life]?)?;
    }
    Ok(lives)
}

// The lives of the nodes with one seed, and all that the views answered.
fn play<R: Threads + Wait + Clock + Sync>(
    rt: &R,
    alloc: Global,
    schema: &Schema,
    seed: u64,
) -> Result<(Vec<Vec<Life>>, Vec<Recorded>)> {
    let (mail, inboxes) = open_mail(alloc, seed)?;
    let (seats, askers) = seats_and_askers(rt, alloc, schema, inboxes)?;
    let (led, shown) = fly(rt, alloc, &mail, seed, seats, askers);
    let lives = lives_of(alloc, led?)?;
    Ok((lives, shown.into_answers(alloc)?))
}

// The audit of a run. What it finds is an error.
fn judge(alloc: Global, schema: &Schema, lives: &[Vec<Life>], answers: &[Recorded]) -> Result<()> {
    if lives.len() < 3 || lives.len() > 7 {
        bail!("no group");
    }
    if let Err(fault) = audit(alloc, Version::Three, schema, lives, answers) {
        bail!("audit: {}", Refusal::from(fault));
    }
    Ok(())
}

// A run with one seed, and its audit.
fn try_seed<R: Threads + Wait + Clock + Sync>(
    rt: &R,
    alloc: Global,
    schema: &Schema,
    seed: u64,
) -> Result<()> {
    let (lives, answers) = play(rt, alloc, schema, seed)?;
    judge(alloc, schema, &lives, &answers)
}

/// Two runs, each of which the audit has to say yes to.
pub(crate) fn run<R>(rt: &R) -> Result<()>
where
    R: AllocGlobal + Print + Threads + Wait + Clock + Sync,
{
    let schema = read_schema(rt.alloc(), SCHEMA)?;
    for seed in [1, 2] {
        try_seed(rt, rt.alloc(), &schema, seed)?;
        println!(rt; "seed {seed}: the lives and answers explain one another")?;
    }
    Ok(())
}
