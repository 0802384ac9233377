//! Members of three that run, can be started again, and whose store can be told to fail.
ghost use Rattle.std.specs.Prelude.{◌≡◌, ◌≤◌, [], IfOk, IfErr};
ghost use Rattle.flight.specs.Lives.{all_steps};
ghost use Rattle.sqlread.specs.Meaning.{language_of};
ghost use Rattle.keep.specs.Durable.{stored_in};
ghost use Rattle.keep.specs.Log.{IsLog};
ghost use Rattle.node.specs.Member.{me_of, members_of, tables_of};

use crate::effect::{Effect, Notes};
use crate::setting::Setting;
use cells::cell::{Cell, Out};
use fault::Refusal;
use flight::life::{Life, Packet};
use keep::{MemImage, MemKeeper};
use model::mark::Mark;
use model::member::Member;
use node::Fault;
use std::process::Abort;
use std::sync::Wait;

// A life of a member of three.
fn open<R: Wait>(
    rt: &R,
    setting: &Setting,
    me: Member,
    image: MemImage,
    last: &Option<Mark>,
) -> Result<Cell<MemKeeper>, (Refusal, MemImage)>
    requires member { (1 ≤ me) × (me ≤ 3) }
    requires log { IsLog 3 (language_of setting.now.schema) (stored_in image) }
    ensures group { IfOk result (λ c. (members_of c.node ≡ 3) × (tables_of c.node ≡ setting.now.schema) × (me_of c.node ≡ me)) }
    ensures none { IfOk result (λ c. all_steps c.life ≡ []) }
    ensures log { IfErr result (λ e. IsLog 3 (language_of setting.now.schema) (stored_in e.1)) }
{
    match setting.schema.clone() {
        Ok(schema) => Cell::start(rt, setting.alloc, image, schema, 3, me, *last),
        Err(_) => Err((Refusal::NoMemory, image)),
    }
}

// The same after a start that was refused.
fn open_again(
    rt: &(impl Wait + Abort),
    setting: &Setting,
    me: Member,
    image: MemImage,
    last: &Option<Mark>,
) -> Cell<MemKeeper>
    requires member { (1 ≤ me) × (me ≤ 3) }
    requires log { IsLog 3 (language_of setting.now.schema) (stored_in image) }
    ensures group { (members_of result.node ≡ 3) × (tables_of result.node ≡ setting.now.schema) × (me_of result.node ≡ me) }
    ensures none { all_steps result.life ≡ [] }
{
    match open(rt, setting, me, image, last) {
        Ok(cell) => cell,
        Err(_) => panic!(rt; "it does not start"),
    }
}

/// A life of a member of three, which goes on from an image. A start that fails is made again.
pub(crate) fn start(
    rt: &(impl Wait + Abort),
    setting: &Setting,
    me: Member,
    image: MemImage,
    last: &Option<Mark>,
    notes: &mut Notes,
) -> Cell<MemKeeper>
    requires member { (1 ≤ me) × (me ≤ 3) }
    requires log { IsLog 3 (language_of setting.now.schema) (stored_in image) }
    ensures group { (members_of result.node ≡ 3) × (tables_of result.node ≡ setting.now.schema) × (me_of result.node ≡ me) }
    ensures none { all_steps result.life ≡ [] }
{
    match open(rt, setting, me, image, last) {
        Ok(cell) => cell,
        Err((refusal, image)) => {
            notes.note(rt, refusal.number(), Effect::NotStarted);
            open_again(rt, setting, me, image, last)
        }
    }
}

/// The first life of a member of three, of which nothing fails.
pub(crate) fn start_first(
    rt: &(impl Wait + Abort),
    setting: &Setting,
    me: Member,
) -> Cell<MemKeeper>
    requires { (1 ≤ me) × (me ≤ 3) }
    ensures group { (members_of result.node ≡ 3) × (tables_of result.node ≡ setting.now.schema) × (me_of result.node ≡ me) }
    ensures none { all_steps result.life ≡ [] }
{
    let image = MemImage::new(setting.alloc);
    start(rt, setting, me, image, &None, &mut Notes::new(0))
}

/// Which call of a store is told to fail: of this member's life with this number, this call. Both count from 1.
#[derive(Clone, Copy, Debug)]
pub(crate) struct Failing {
    pub member: Member,
    pub life: u64,
    pub call: u64,
}

// Which call of the store is to fail in the life of this number, 0 for none.
fn failing_call(failing: Option<Failing>, me: Member, life: u64) -> u64 {
    match failing {
        Some(failing) if failing.member == me && failing.life == life => failing.call,
        _ => 0,
    }
}

/// A member that runs or went down, in which of its lives, and which call of its stores is told to fail.
#[derive(Drop)]
pub(crate) struct Seat<'a> {
    setting: &'a Setting,
    me: Member,
    failing: Option<Failing>,
    lives: u64,
    pub cell: Cell<MemKeeper>,
    pub ghost member: { (1 ≤ me) × (me ≤ 3) },
    pub ghost group: { (members_of cell.node ≡ 3) × (tables_of cell.node ≡ setting.now.schema) },
}

impl<'a> Seat<'a> {
    /// A member in its first life.
    pub(crate) fn new(
        rt: &(impl Wait + Abort),
        setting: &'a Setting,
        me: Member,
        failing: Option<Failing>,
        notes: &mut Notes,
    ) -> Seat<'a>
        requires { (1 ≤ me) × (me ≤ 3) }
    {
        let mut image = MemImage::new(setting.alloc);
        image.fail_at(failing_call(failing, me, 1));
        let cell = start(rt, setting, me, image, &None, notes);
        Seat {
            setting,
            me,
            failing,
            lives: 1,
            cell,
        }
    }

    /// Stops it and starts it again. The life that is over.
    pub(crate) fn restart(self, rt: &(impl Wait + Abort), notes: &mut Notes) -> (Seat<'a>, Life) {
        let Seat {
            setting,
            me,
            failing,
            lives,
            cell,
        } = self;
        let (mut image, life) = cell.stop(rt);
        let lives = lives.saturating_add(1);
        image.fail_at(failing_call(failing, me, lives));
        let last = Some(life.last_mark());
        let cell = start(rt, setting, me, image, &last, notes);
        let seat = Seat {
            setting,
            me,
            failing,
            lives,
            cell,
        };
        (seat, life)
    }

    /// Feeds it while its clock shows 100.
    pub(crate) fn feed<R: Wait>(&mut self, rt: &R, packet: Packet) -> Result<Out, Fault> {
        self.cell.feed(rt, 100, packet)
    }

    /// Stops it. Its life.
    pub(crate) fn stop<R: Wait>(self, rt: &R) -> Life {
        let Seat { cell, .. } = self;
        let (_image, life) = cell.stop(rt);
        life
    }
}
