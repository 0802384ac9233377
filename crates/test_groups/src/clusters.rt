//! Nodes on threads of their own.
ghost use Rattle.std.specs.Prelude.{◌≡◌, ℕ, All, IfOk, vec_len};
ghost use Rattle.model.specs.Transactions.{Language};
ghost use Rattle.keep.specs.Durable.{stored_in};
ghost use Rattle.keep.specs.Log.{IsLog};

use crate::held::{Door, HeldImage, HeldKeeper};
use crate::packets::{beat, timeout};
use crate::setting::{Setting, prepare};
use fault::Refusal;
use flight::life::{Ending, Life, Packet};
use keep::{MemImage, MemKeeper};
use model::member::Member;
use nodes::cluster::{Cluster, Config};
use nodes::desk::{NotSent, Stopped};
use schema::Schema;
use sqlread::query::Query;
use std::alloc::{AllocError, Global};
use std::process::Abort;
use std::sync::{Arc, Wait};
use std::test::Fail;
use std::thread::Threads;
use view::View;

// What the clocks of all nodes show.
const READING: i64 = 100;

// How many packets node 3 is sent before it is stopped.
const BEATS: u64 = 1_000;

// Sends node 2 what it is held in. Whether it comes to the door.
fn hold<R: Wait>(rt: &R, cluster: &Cluster, door: &Door) -> bool {
    cluster.send(rt, 2, READING, timeout()).is_ok() && door.is_reached()
}

// Whether the next feed of a node was made.
fn is_fed<R: Wait>(rt: &R, cluster: &Cluster, node: Member) -> bool {
    match cluster.report(rt, node) {
        Ok(report) => report.outcome.is_ok(),
        Err(_) => false,
    }
}

// Whether node 1 feeds.
fn feeds<R: Wait>(rt: &R, cluster: &Cluster, packet: Packet) -> bool {
    cluster.send(rt, 1, READING, packet).is_ok() && is_fed(rt, cluster, 1)
}

// Whether a view answers that nothing is closed.
fn is_early(view: &mut View, query: &Query) -> bool {
    matches!(view.ask(query), Err(Refusal::NotClosed(None)))
}

// Whether node 2 is let go, which did not go by itself.
fn let_go<R: Wait>(rt: &R, cluster: &Cluster, door: &Door) -> bool {
    let gave_up = door.gave_up();
    door.open();
    is_fed(rt, cluster, 2) && !gave_up
}

// While node 2 is held in a feed, node 1 feeds, and a view of node 2 answers.
fn while_held<R: Wait + Abort>(
    rt: &R,
    cluster: &Cluster,
    door: &Door,
    seen: &mut View,
    query: &Query,
) {
    assert!(rt; hold(rt, cluster, door));
    assert!(rt; feeds(rt, cluster, timeout()));
    assert!(rt; is_early(seen, query));
    assert!(rt; let_go(rt, cluster, door));
}

// With a view of it.
fn held<R: Wait + Abort>(rt: &R, cluster: &Cluster, door: &Door, query: &Query) {
    let mut seen = cluster.view(rt, 2).expect(rt, "no view");
    while_held(rt, cluster, door, &mut seen, query);
}

// Whether a packet was refused since the node does not run.
fn is_refused(sent: Result<u64, NotSent>) -> bool {
    match sent {
        Ok(_) => false,
        Err(unsent) => unsent.refusal == Refusal::NodeDown,
    }
}

// Node 1 is stopped, which sends it no packet any more.
fn stops<R: Wait + Abort>(rt: &R, cluster: &Cluster) {
    assert!(rt; leaves_nothing(rt, cluster));
    assert!(rt; is_refused(cluster.send(rt, 1, READING, beat())));
    assert!(rt; matches!(cluster.stop_node(rt, 1), Err(Refusal::NodeDown)));
}

// Whether node 1 stops with nothing unfed or lost.
fn leaves_nothing<R: Wait>(rt: &R, cluster: &Cluster) -> bool {
    match cluster.stop_node(rt, 1) {
        Ok(left) => left.unfed.is_empty() && left.lost == 0,
        Err(_) => false,
    }
}

// Sends node 3 a thousand beats, and stops it at once. Each was fed, in the order in which they were sent.
fn all_fed<R: Wait + Abort>(rt: &R, cluster: &Cluster) -> bool {
    for _ in 0..BEATS {
        assert!(rt; cluster.send(rt, 3, READING, beat()).is_ok());
    }
    match cluster.stop_node(rt, 3) {
        Ok(left) => are_reported(rt, &left) && left.unfed.is_empty(),
        Err(_) => false,
    }
}

// Whether it left a report of each beat, in order, and no other.
fn are_reported<R: Wait>(rt: &R, left: &Stopped) -> bool {
    for number in 1..=BEATS {
        match left.report(rt) {
            Some(report) if report.number == number => {}
            _ => return false,
        }
    }
    left.report(rt).is_none()
}

// It starts again.
fn starts<R: Wait + Abort>(rt: &R, cluster: &Cluster) {
    assert!(rt; cluster.start_node(rt, 1).is_ok());
    assert!(rt; cluster.start_node(rt, 1).is_ok());
    assert!(rt; feeds(rt, cluster, beat()));
}

// The one and then the others.
fn held_and_restarted<R: Wait + Abort>(rt: &R, cluster: &Cluster, door: &Door, query: &Query) {
    held(rt, cluster, door, query);
    stops(rt, cluster);
    starts(rt, cluster);
    assert!(rt; all_fed(rt, cluster));
}

// Of each life its node, counted from 0, its opening's mark, how many steps it has, and whether it was stopped.
fn told_of(
    alloc: Global,
    nodes: &[Vec<Life>],
) -> Result<Vec<(usize, u64, usize, bool)>, AllocError> {
    let mut told = Vec::new(alloc);
    for (at, lives) in nodes.iter().enumerate() {
        for life in lives {
            let is_stopped = matches!(life.ending, Ending::Stopped);
            let mark = life.opening.mark.number();
            told.push((at, mark, life.steps.len(), is_stopped))?;
        }
    }
    Ok(told)
}

// That as text.
fn text_of(alloc: Global, nodes: &[Vec<Life>]) -> Result<String, AllocError> {
    let told = told_of(alloc, nodes)?;
    format!(in alloc; "{told:?}")
}

// A store without anything, for each of three members; the saves of the second come to the door.
fn new_images(alloc: Global, door: Arc<Door>) -> Result<Vec<HeldImage<MemImage>>, AllocError>
    ensures three { IfOk result (λ images. vec_len images ≡ 3) }
    ensures logs { IfOk result (λ images. (members : ℕ) (language : Language) → All (λ held. IsLog members language (stored_in held.image)) images.items) }
{
    let images = vec![in alloc;
        HeldImage::new(alloc, None),
        HeldImage::new(alloc, Some(door)),
        HeldImage::new(alloc, None),
    ]?;
    Ok(images)
}

// Three members on threads of their own, held at a gate and within saves.
fn open<R: Wait + Threads + Copy + Send + Drop + 'static>(
    rt: &R,
    alloc: Global,
    schema: Schema,
    gate: Arc<Door>,
    save: Arc<Door>,
) -> Result<Cluster, Refusal> {
    let images = new_images(alloc, save)?;
    let config = Config { schema, images };
    Cluster::start::<HeldKeeper<MemKeeper>, Door, R>(rt, alloc, config, gate)
}

// Holds node 2 at the closed door, stops and starts node 1, and ends all nodes. Their lives.
fn lead_all<R: Wait + Abort + Threads>(
    rt: &R,
    cluster: Cluster,
    closed: &Door,
    query: &Query,
) -> Vec<Vec<Life>> {
    held_and_restarted(rt, &cluster, closed, query);
    let ended = cluster.stop(rt);
    ended.lives
}

// The gate before feeds and the door within saves, of which this one is closed and the other is open.
fn doors(
    alloc: Global,
    closed: &Arc<Door>,
    in_save: bool,
) -> Result<(Arc<Door>, Arc<Door>), AllocError> {
    let open = Arc::new(alloc, Door::new(true))?;
    let closed = Arc::try_clone(closed)?;
    if in_save {
        Ok((open, closed))
    } else {
        Ok((closed, open))
    }
}

// The lives of three members, with a closed door before each feed or within each save.
fn lives<R: Wait + Abort + Threads + Copy + Send + Drop + 'static>(
    rt: &R,
    setting: &Setting,
    in_save: bool,
) -> Result<Vec<Vec<Life>>, Refusal> {
    let alloc = setting.alloc;
    let closed = Arc::new(alloc, Door::new(false))?;
    let (gate, save) = doors(alloc, &closed, in_save)?;
    let cluster = open(rt, alloc, setting.schema.clone()?, gate, save)?;
    Ok(lead_all(rt, cluster, &closed, &setting.query))
}

// Before each feed, and within each save.
#[test]
fn two_at_once(rt: HostRuntime) -> Result<(), Fail> {
    let setting = prepare(rt.alloc())?;
    for in_save in [false, true] {
        let lives = lives(&rt, &setting, in_save)?;
        assert_eq!(rt;
            text_of(setting.alloc, &lives)?.as_str(),
            "[(0, 1, 1, true), (0, 3, 1, false), (1, 1, 1, false), (2, 1, 1000, true)]"
        );
    }
    Ok(())
}
