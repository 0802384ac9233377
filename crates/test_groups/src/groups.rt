//! Groups of three of which a member's store fails at each call, and groups where a request for memory is refused.
use crate::effect::{Effect, tell};
use crate::group::Group;
use crate::seats::Failing;
use crate::setting::{Setting, prepare};
use fault::Refusal;
use keep::StoreError;
use model::member::Member;
use node::Fault;
use std::process::Abort;
use std::sync::Wait;
use std::test::Fail;

// Plays a group of which this call of a store fails. What came of it.
fn play(
    rt: &(impl Wait + Abort),
    setting: &Setting,
    failing: Option<Failing>,
) -> Result<Effect, Refusal> {
    let mut group = Group::start(rt, setting, failing)?;
    group.play(rt)?;
    Ok(group.notes.effect)
}

// How many calls the store of this member's life has, each of which failed once.
fn try_calls(
    rt: &(impl Wait + Abort),
    setting: &Setting,
    member: Member,
    life: u64,
) -> Result<u64, Fail> {
    for call in 1..1000 {
        match play(rt, setting, Some(Failing { member, life, call }))? {
            Effect::Whole => return Ok(call.saturating_sub(1)),
            Effect::NotStarted => {}
            effect => assert_eq!(rt; effect, Effect::Down(member)),
        }
    }
    Err(Fail::from("a store has too many calls"))
}

#[test]
fn stores_fail(rt: HostRuntime) -> Result<(), Fail> {
    let setting = prepare(rt.alloc())?;
    for (member, life) in [(1, 1), (2, 1), (2, 2), (3, 1)] {
        let calls = try_calls(&rt, &setting, member, life)?;
        assert!(rt; calls > 1);
        println!(rt; "member {member}, life {life}: {calls} calls of its store, each failed once")?;
    }
    Ok(())
}

/// The gate refuses each of its requests for memory in turn (`tools/lack_memory`).
#[test]
fn lacks_memory(rt: HostRuntime) -> Result<(), Fail> {
    let came = match prepare(rt.alloc()) {
        Ok(setting) => play(&rt, &setting, None),
        Err(refusal) => Err(refusal),
    };
    tell(&rt, came)
}

// A fault prints as the refusal or the error of the store that it holds.
#[test]
fn faults_print(rt: HostRuntime) -> Result<(), Fail> {
    let kept = format!(in rt.alloc(); "{}", Fault::Kept(Refusal::NodeDown))?;
    let down = format!(in rt.alloc(); "{}", Fault::Down(StoreError::StoreFault))?;
    assert_eq!(rt; kept.as_str(), "41 node down");
    assert_eq!(rt; down.as_str(), "40 store fault");
    Ok(())
}
