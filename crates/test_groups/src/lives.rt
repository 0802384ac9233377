//! Two lives of a locked cell: where requests for memory are refused, and where they are full.
ghost use Rattle.std.specs.Prelude.{◌≡◌, []};
ghost use Rattle.flight.specs.Lives.{all_steps};
ghost use Rattle.node.specs.Member.{me_of, members_of, tables_of};
ghost use Rattle.view.specs.Publishing.{book_of};
ghost use Rattle.view.specs.Viewing.{name_told};

use crate::effect::{Effect, Notes, tell};
use crate::player::{Player, Resting};
use crate::seats::{start, start_first};
use crate::setting::{Setting, prepare};
use cells::cell::Cell;
use cells::locked::Naming;
use fault::Refusal;
use keep::MemKeeper;
use model::mark::Mark;
use std::marker::Brand;
use std::process::Abort;
use std::sync::Wait;
use std::sync::ledger::Blank;
use std::test::Fail;
use view::Notice;

// Plays a life, and stops it.
fn play_life<'a, L: Naming>(
    rt: &(impl Wait + Abort),
    setting: &'a Setting,
    cell: Cell<MemKeeper>,
    blank: Blank,
    notes: &mut Notes,
    is_full: bool,
) -> Resting<'a>
    requires group { (members_of cell.node ≡ 3) × (tables_of cell.node ≡ setting.now.schema) }
    requires name { blank.name ≡ L.name }
    requires parts { (blank.parts ≡ L.parts) × (blank.parts ≡ 1) }
    requires history { book_of cell.publisher ≡ L.history }
    requires none { all_steps cell.life ≡ [] }
{
    let mut player = Player::<L>::new(rt, setting, cell, blank, notes);
    player.play(rt, notes, is_full);
    player.stop(rt)
}

// Starts the member, and plays its life.
fn play_next<'a>(
    rt: &(impl Wait + Abort),
    resting: Resting<'a>,
    notes: &mut Notes,
    is_full: bool,
) -> Resting<'a> {
    let Resting {
        setting,
        image,
        last,
    } = resting;
    let cell = start(rt, setting, 1, image, &last, notes);
    play_life::<Brand>(rt, setting, cell, Blank::new(1), notes, is_full)
}

// Two lives. What came of a refusal, and the last mark.
fn play_both(rt: &(impl Wait + Abort), setting: &Setting, is_full: bool) -> (Effect, u64) {
    let mut notes = Notes::new(43);
    let resting = play_next(rt, Resting::new(setting), &mut notes, is_full);
    let resting = play_next(rt, resting, &mut notes, is_full);
    (notes.effect, resting.last.map_or(0, Mark::number))
}

/// The gate refuses each of its requests for memory in turn (`tools/lack_memory`).
#[test]
fn lacks_memory(rt: HostRuntime) -> Result<(), Fail> {
    let came = match prepare(rt.alloc()) {
        Ok(setting) => Ok(play_both(&rt, &setting, false).0),
        Err(refusal) => Err(refusal),
    };
    tell(&rt, came)
}

/// The marks of both lives go on: each has one for its opening, and one a step. In the first one three are left out, since member
/// 2 sends in a step with a later one.
#[test]
fn are_full(rt: HostRuntime) -> Result<(), Fail> {
    let setting = prepare(rt.alloc())?;
    let (effect, last_mark) = play_both(&rt, &setting, true);
    assert!(rt; matches!(effect, Effect::Whole) && last_mark == 400_005);
    Ok(())
}

// Why a new view of member 1 refuses a notice of member 2, if it does.
fn refusal_of_another(rt: &impl Abort, cell: &mut Cell<MemKeeper>, told: &Notice) -> Option<Refusal>
    requires one { me_of cell.old.node ≡ 1 }
    requires another { (name_told told.now).node ≡ 2 }
{
    let mut view = cell.take_view().expect(rt, "no view");
    view.learn(told).err()
}

// Why there is no further view, if there is none.
fn no_view(cell: &mut Cell<MemKeeper>) -> Option<Refusal> {
    cell.take_view().err()
}

// After one view seven more are given, and no ninth.
fn take_rest(rt: &impl Abort, cell: &mut Cell<MemKeeper>) {
    for _ in 1..8 {
        assert!(rt; no_view(cell) == None);
    }
    assert!(rt; no_view(cell) == Some(Refusal::NoView));
}

/// What views answer that were told, the lives above say.
#[test]
fn read_back(rt: HostRuntime) -> Result<(), Fail> {
    let setting = prepare(rt.alloc())?;
    let mut cell = start_first(&rt, &setting, 1);
    let other = start_first(&rt, &setting, 2);
    let refusal = refusal_of_another(&rt, &mut cell, &other.told());
    assert!(rt; refusal == Some(Refusal::NoView));
    take_rest(&rt, &mut cell);
    let _ = cell.stop(&rt);
    let _ = other.stop(&rt);
    Ok(())
}
