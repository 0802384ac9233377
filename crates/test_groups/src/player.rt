//! A cell under a lock, with a share of its steps and two views of it, and how its life is played.
ghost use Rattle.std.specs.Prelude.{◌≡◌, []};
ghost use Rattle.sqlread.specs.Meaning.{language_of};
ghost use Rattle.keep.specs.Durable.{stored_in};
ghost use Rattle.keep.specs.Log.{IsLog, log_prop};
ghost use Rattle.flight.specs.Lives.{all_steps};
ghost use Rattle.node.specs.Member.{members_of, tables_of};
ghost use Rattle.view.specs.Publishing.{book_of};
ghost use Rattle.view.specs.Viewing.{book_seen};

use crate::effect::{Effect, Notes};
use crate::record::{Fed, Record};
use crate::setting::Setting;
use crate::turns::{TURNS, Turn};
use crate::views::Views;
use cells::cell::Cell;
use cells::locked::{LockedNode, Naming};
use flight::life::LIFE_STEPS;
use keep::{MemImage, MemKeeper};
use model::mark::Mark;
use std::process::Abort;
use std::sync::Wait;
use std::sync::ledger::{Blank, Share};
use view::View;

// A view that has seen what is published. Where memory is refused, it is taken by another call.
fn take_view<L: Naming>(
    rt: &impl Abort,
    node: &mut LockedNode<MemKeeper, L>,
    notes: &mut Notes,
) -> View
    ensures same { (node.new.cell.node ≡ node.old.cell.node) × (node.new.cell.life ≡ node.old.cell.life) }
    ensures life { book_seen result ≡ L.history }
{
    if let Ok(view) = node.take_view() {
        return view;
    }
    notes.note(rt, 43, Effect::NoView);
    match node.take_view() {
        Ok(view) => view,
        Err(_) => panic!(rt; "no view is given"),
    }
}

/// A cell that is locked no more. The share is all its steps.
pub(crate) fn unlock<L: Naming>(
    rt: &impl Abort,
    mut node: LockedNode<MemKeeper, L>,
    mut share: Share<L>,
) -> Cell<MemKeeper>
    requires { share.parts ≡ L.parts }
    ensures { result ≡ node.cell }
{
    let counted = node.all_recorded(&mut share);
    let cell = node.into_cell();
    assert!(rt; counted == Record::of(&cell).all_steps());
    cell
}

/// What member 1 has stored, and the last mark of its lives before.
#[derive(Drop)]
pub(crate) struct Resting<'a> {
    pub setting: &'a Setting,
    pub image: MemImage,
    pub last: Option<Mark>,
    pub ghost forms_log: { IsLog 3 (language_of setting.now.schema) (stored_in image) } by { log_prop 3 (language_of setting.now.schema) (stored_in image) },
}

impl<'a> Resting<'a> {
    /// Nothing is stored yet.
    pub(crate) fn new(setting: &'a Setting) -> Resting<'a> {
        Resting {
            setting,
            image: MemImage::new(setting.alloc),
            last: None,
        }
    }
}

/// A cell of member 1 under a lock, the one share of its steps, and two views of it.
#[derive(Drop)]
pub(crate) struct Player<'a, L: Naming> {
    setting: &'a Setting,
    node: LockedNode<MemKeeper, L>,
    share: Share<L>,
    views: Views,
    ghost group: { (members_of node.cell.node ≡ 3) × (tables_of node.cell.node ≡ setting.now.schema) },
    ghost parts: { share.parts ≡ 1 },
    ghost life: { book_seen views.second ≡ L.history },
}

impl<'a, L: Naming> Player<'a, L> {
    /// A member that has recorded no step.
    pub(crate) fn new(
        rt: &impl Abort,
        setting: &'a Setting,
        cell: Cell<MemKeeper>,
        blank: Blank,
        notes: &mut Notes,
    ) -> Player<'a, L>
        requires group { (members_of cell.node ≡ 3) × (tables_of cell.node ≡ setting.now.schema) }
        requires name { blank.name ≡ L.name }
        requires parts { (blank.parts ≡ L.parts) × (blank.parts ≡ 1) }
        requires history { book_of cell.publisher ≡ L.history }
        requires none { all_steps cell.life ≡ [] }
    {
        let (book, share) = blank.open::<L>();
        let mut node = LockedNode::new(cell, book);
        let first = take_view(rt, &mut node, notes);
        let second = take_view(rt, &mut node, notes);
        Player {
            setting,
            node,
            share,
            views: Views::new(first, second),
        }
    }

    // Feeds it its packet of this turn, while its clock shows 100.
    fn feed(&mut self, rt: &(impl Wait + Abort), notes: &mut Notes, turn: Turn) -> Fed {
        let packet = turn.packet(rt, self.setting.alloc, notes, &self.node.cell.life.opening);
        let answer = self.node.feed(rt, &mut self.share, 100, packet);
        Fed::of(rt, &answer)
    }

    // Feeds it a packet, asks its views, and compares.
    fn step(&mut self, rt: &(impl Wait + Abort), notes: &mut Notes, turn: Turn) -> Fed {
        let before = Record::of(&self.node.cell);
        let fed = self.feed(rt, notes, turn);
        assert!(rt; fed.is_right(turn.sent_at(), before, Record::of(&self.node.cell)));
        let told = self.node.told();
        self.views.look(rt, self.setting, &told, notes, fed);
        fed
    }

    // It takes nothing more: a beat is refused by this number, records nothing, and the views answer as before.
    fn takes_nothing(&mut self, rt: &(impl Wait + Abort), notes: &mut Notes, number: u8) {
        let fed = self.step(rt, notes, Turn::Beat);
        assert!(rt; matches!(fed, Fed::Kept(refusal) if refusal == number));
    }

    // Feeds the leader timeouts, which it ignores and records, until its life is full.
    fn fill(&mut self, rt: &(impl Wait + Abort), notes: &mut Notes) {
        for _ in self.node.cell.life.steps.len()..LIFE_STEPS {
            let fed = self.feed(rt, notes, Turn::Timeout);
            assert!(rt; matches!(fed, Fed::Done { applied: None, .. }));
        }
        assert!(rt; self.node.cell.life.steps.len() == LIFE_STEPS);
    }

    // Plays the plan. What is turned away for want of memory is handed out again. Whether no step was torn.
    fn play_turns(&mut self, rt: &(impl Wait + Abort), notes: &mut Notes) -> bool {
        for turn in TURNS {
            let mut fed = self.step(rt, notes, turn);
            if matches!(fed, Fed::Kept(43)) {
                fed = self.step(rt, notes, turn);
            }
            match fed {
                Fed::Done { .. } => {}
                Fed::Torn => return false,
                Fed::Kept(_) => panic!(rt; "a packet is turned away"),
            }
        }
        true
    }

    /// Plays the plan, at whose end both requests are seen, and then until its life is full where that is asked for. After a
    /// torn step nothing more is taken.
    pub(crate) fn play(&mut self, rt: &(impl Wait + Abort), notes: &mut Notes, is_full: bool) {
        if !self.play_turns(rt, notes) {
            return self.takes_nothing(rt, notes, 41);
        }
        assert!(rt; self.views.has_seen(400));
        if is_full {
            self.fill(rt, notes);
            self.takes_nothing(rt, notes, 42);
        }
    }

    /// Stops it. Its share is all its steps, and its views answer no more.
    pub(crate) fn stop(self, rt: &(impl Wait + Abort)) -> Resting<'a>
        requires { L.parts ≡ 1 }
    {
        let Player {
            setting,
            node,
            share,
            mut views,
        } = self;
        let (image, life) = unlock(rt, node, share).stop(rt);
        views.end(rt, &setting.query);
        Resting {
            setting,
            image,
            last: Some(life.last_mark()),
        }
    }
}
