//! A member that lacks more of a log than its leader has in memory.
use crate::group::Group;
use crate::packets::{beat, close, timeout};
use crate::setting::{Setting, prepare};
use flight::life::{Life, Packet};
use keep::LogReader;
use model::message::{Body, CARRIED_MOST};
use std::alloc::{AllocError, Global};
use std::process::Abort;
use std::sync::Wait;
use std::test::Fail;

// How often member 1 closes while what it sends to member 3 is lost.
const CLOSES: usize = 1500;

// How often member 1 asked its keeper for an entry.
fn asked(group: &Group<'_>) -> u64 {
    match group.seats.first() {
        Some(Some(seat)) => seat.cell.node.keeper.asked(),
        _ => 0,
    }
}

// Whether each member has applied so many entries.
fn have_applied(group: &Group<'_>, entries: usize) -> bool {
    group.seats.iter().all(|place| match place {
        Some(seat) => seat.cell.node.commit() == Some(entries),
        None => false,
    })
}

// Member 1 is elected, and closes again and again while what it sends to member 3 is lost.
fn close_all(rt: &(impl Wait + Abort), group: &mut Group<'_>) -> Result<(), AllocError> {
    group.send(rt, timeout())?;
    group.away = Some(3);
    for _ in 0..CLOSES {
        group.send(rt, close(100))?;
    }
    group.away = None;
    Ok(())
}

// Member 3 starts again, and member 1 beats once. How often it asks its keeper for an entry then: once for each of those that it has
// not in memory.
fn send_all(rt: &(impl Wait + Abort), group: &mut Group<'_>) -> Result<u64, AllocError> {
    let _ = group.restart(rt, 3);
    let before = asked(group);
    group.send(rt, beat())?;
    Ok(asked(group).saturating_sub(before))
}

// How many entries each message brought that brought some.
fn brought(alloc: Global, life: &Life) -> Result<Vec<usize>, AllocError> {
    let mut counts = Vec::new(alloc);
    for step in &life.steps {
        if let Packet::Delivered { message, .. } = &step.packet {
            if let Body::Append { entries, .. } = &message.body {
                counts.push(entries.as_slice().len())?;
            }
        }
    }
    counts.retain(|count| *count > 0);
    Ok(counts)
}

// Each message but the last is full.
fn judge_messages(rt: &impl Abort, alloc: Global, life: &Life) -> Result<(), AllocError> {
    let counts = brought(alloc, life)?;
    assert!(rt; counts.len() == 24 && counts.iter().take(23).all(|count| *count == CARRIED_MOST));
    assert!(rt; counts.last() == Some(&28));
    Ok(())
}

// The log that a life began with, as text.
fn log_text(alloc: Global, life: &Life) -> Result<String, AllocError> {
    format!(in alloc; "{:?}", life.opening.entries)
}

// Members 1 and 3, which started again, have the same log.
fn judge_logs(rt: &impl Abort, alloc: Global, lives: &[Life]) -> Result<(), AllocError> {
    let [first, _, third] = lives else {
        panic!(rt; "lives are missing");
    };
    assert!(rt; first.opening.entries.len() == CLOSES + 1);
    assert!(rt; log_text(alloc, first)? == log_text(alloc, third)?);
    Ok(())
}

// Starts members 1 and 3 again. Their logs, and what was brought to member 3.
fn judge(rt: &(impl Wait + Abort), alloc: Global, mut group: Group<'_>) -> Result<(), AllocError> {
    let life = group.restart(rt, 3).expect(rt, "member 3 is missing");
    let _ = group.restart(rt, 1);
    judge_messages(rt, alloc, &life)?;
    judge_logs(rt, alloc, &group.stop(rt)?)
}

fn catch_up(rt: &(impl Wait + Abort), setting: &Setting) -> Result<(), Fail> {
    let mut group = Group::start(rt, setting, None)?;
    close_all(rt, &mut group)?;
    assert!(rt; send_all(rt, &mut group)? == 912);
    assert!(rt; have_applied(&group, CLOSES + 1));
    judge(rt, setting.alloc, group)?;
    Ok(())
}

#[test]
fn catches_up(rt: HostRuntime) -> Result<(), Fail> {
    let setting = prepare(rt.alloc())?;
    catch_up(&rt, &setting)
}
