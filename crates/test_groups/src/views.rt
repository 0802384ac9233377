//! Two views that are asked again and again.
ghost use Rattle.std.specs.Prelude.{◌≡◌};
ghost use Rattle.view.specs.Viewing.{book_seen, IsOwn, IsSameView};

use crate::effect::{Effect, Notes};
use crate::record::Fed;
use crate::setting::{Setting, judge};
use fault::Refusal;
use sqlread::query::Query;
use std::process::Abort;
use view::{Marked, Notice, View};

// What an answer rests on: the mark and the stamp of the last entry seen.
#[derive(Clone, Copy, PartialEq)]
struct Seen {
    mark: u64,
    last: u64,
}

// Asks a view. Where memory is refused it sees nothing that it did not see before, and is asked again.
fn ask(
    rt: &impl Abort,
    query: &Query,
    view: &mut View,
    notes: &mut Notes,
) -> Result<Marked, Refusal>
    ensures { IsSameView view.old view.new }
{
    let before = view.mark();
    let answer = view.ask(query);
    if !matches!(answer, Err(Refusal::NoMemory)) {
        return answer;
    }
    assert!(rt; view.mark() == before);
    notes.note(rt, 43, Effect::Unanswered);
    view.ask(query)
}

// What an answer rests on, which has to be right.
fn see(rt: &impl Abort, setting: &Setting, notes: &mut Notes, marked: &Marked) -> Seen {
    judge(rt, setting.alloc, notes, &setting.query, &marked.answer);
    Seen {
        mark: marked.mark.number(),
        last: marked.answer.last.micros(),
    }
}

// What a view sees, none where nothing is closed.
fn look(rt: &impl Abort, setting: &Setting, view: &mut View, notes: &mut Notes) -> Option<Seen>
    ensures { IsSameView view.old view.new }
{
    match ask(rt, &setting.query, view, notes) {
        Ok(marked) => Some(see(rt, setting, notes, &marked)),
        Err(refusal) => {
            assert!(rt; matches!(refusal, Refusal::NotClosed(None)));
            None
        }
    }
}

// Whether its life has ended.
fn is_over(query: &Query, view: &mut View) -> bool {
    matches!(view.ask(query), Err(Refusal::NoView))
}

/// Two views of one life.
#[derive(Drop)]
pub(crate) struct Views {
    first: View,
    pub second: View,
    // What became applied last.
    applied: Option<Seen>,
    // What both saw last, none where nothing was closed.
    seen: Option<Seen>,
}

impl Views {
    /// Views of a life in which nothing is closed yet.
    pub(crate) fn new(first: View, second: View) -> Views
        ensures { result.second ≡ second }
    {
        Views {
            first,
            second,
            applied: None,
            seen: None,
        }
    }

    /// Whether both saw an entry with this stamp or a later one.
    pub(crate) fn has_seen(&self, stamp: u64) -> bool {
        matches!(self.seen, Some(seen) if stamp <= seen.last)
    }

    // What both see, the second once it is told what is published.
    fn look_both(
        &mut self,
        rt: &impl Abort,
        setting: &Setting,
        told: &Notice,
        notes: &mut Notes,
    ) -> Option<Seen>
        requires { IsOwn told.now self.old.second }
        ensures { book_seen self.new.second ≡ book_seen self.old.second }
    {
        assert!(rt; self.second.learn(told).is_ok());
        let first = look(rt, setting, &mut self.first, notes);
        let second = look(rt, setting, &mut self.second, notes);
        assert!(rt; first == second);
        first
    }

    /// Asks both after a packet. They see what became applied last, or what they saw before where the packet was turned away
    /// or the step torn. So it is for one step where what became applied was not published. A life that is over or full turns
    /// packets away without a refusal of memory.
    pub(crate) fn look(
        &mut self,
        rt: &impl Abort,
        setting: &Setting,
        told: &Notice,
        notes: &mut Notes,
        fed: Fed,
    )
        requires { IsOwn told.now self.old.second }
        ensures { book_seen self.new.second ≡ book_seen self.old.second }
    {
        let seen = self.look_both(rt, setting, told, notes);
        let effect = match fed {
            Fed::Done { mark, applied } => {
                if let Some(last) = applied {
                    self.applied = Some(Seen { mark, last });
                }
                if seen == self.applied {
                    self.seen = seen;
                    return;
                }
                Effect::Late
            }
            Fed::Kept(43) => Effect::Kept,
            Fed::Kept(_) => {
                assert!(rt; seen == self.seen);
                return;
            }
            Fed::Torn => Effect::Down(1),
        };
        assert!(rt; seen == self.seen);
        notes.note(rt, 43, effect);
    }

    /// Their life has ended: both answer 45.
    pub(crate) fn end(&mut self, rt: &impl Abort, query: &Query) {
        assert!(rt; is_over(query, &mut self.first));
        assert!(rt; is_over(query, &mut self.second));
    }
}
