//! What journals tell of all members.
ghost use Rattle.std.specs.Prelude.{◌≡◌, ◌-◌, ◌<◌, ℕ, Some, IfOk, map, slice_get, unwrap_or};
ghost use Rattle.store.specs.Tales.{untold, laid_down, nothing_told, marks_after, told_of, told_after};
ghost use Rattle.store.specs.Pasts.{told_by, IsHeard};

use crate::refusal::StoreRefusal;
pub use crate::tale::Tale;
pub use crate::telling::{End, Hears, tell_journal};
use fault::Refusal;
use journal::Line;
use model::member::Member;
use std::alloc::Global;

/// What journals tell of all members.
#[derive(Drop)]
pub struct Past {
    members: Vec<Tale>,
    /// How many marks were given out.
    pub marks: u64,
    /// How many journals were begun.
    pub sessions: u64,
    /// How many outcomes of requests were given out.
    pub requests: u64,
}

fn bad_line() -> StoreRefusal
    ensures { result ≡ StoreRefusal.Refused Refusal.BadFlight }
{
    StoreRefusal::Refused(Refusal::BadFlight)
}

// As a journal begins: none of them is up.
fn lay_all_down(tales: &mut [Tale])
    ensures { tales.new ≡ map laid_down tales.old }
{
    for tale in tales.iter_mut() {
        tale.lay_down();
    }
}

impl Past {
    /// Before anything is told of so many members. The error is want of memory.
    pub fn new(alloc: Global, members: usize) -> Result<Past, StoreRefusal>
        ensures { IfOk result (λ past. told_by past ≡ nothing_told members) }
    {
        let mut tales = Vec::new(alloc);
        tales.resize(members, Tale::blank())?;
        Ok(Past {
            members: tales,
            marks: 0,
            sessions: 0,
            requests: 0,
        })
    }

    /// What is told of each member, in their order.
    pub fn members(&self) -> &[Tale]
        ensures { result.now ≡ (told_by self.now).tales }
    {
        self.members.as_slice()
    }

    /// What is told of a member; of one that is not there, nothing.
    pub fn tale(&self, member: Member) -> Tale
        ensures { 0 < member → result ≡ unwrap_or (slice_get (told_by self.now).tales (member - 1)) untold }
    {
        match member.checked_sub(1) {
            None => Tale::blank(),
            Some(at) => self.members.get(at).copied().unwrap_or(Tale::blank()),
        }
    }

    // A journal begins: all lives are over.
    fn open(&mut self, marks: u64) -> Result<(), StoreRefusal>
        ensures { (journal sum : ℕ) → IsHeard (told_by self.old) (told_after (told_by self.old) (Line.Opens journal sum marks)) result (told_by self.new) }
    {
        if self.sessions != 0 && self.marks != marks {
            return Err(bad_line());
        }
        lay_all_down(self.members.as_mut_slice());
        self.sessions = self.sessions.saturating_add(1);
        self.marks = marks;
        Ok(())
    }

    // A line about this member.
    fn hear_of(&mut self, member: Member, line: &Line) -> Result<(), StoreRefusal>
        ensures { IsHeard (told_by self.old) (told_of (told_by self.old) member line.now) result (told_by self.new) }
    {
        let Some(at) = member.checked_sub(1) else {
            return Err(bad_line());
        };
        if at >= self.members.len() {
            return Err(bad_line());
        }
        let mut tale = self.members[at];
        if !tale.hear(line) {
            return Err(bad_line());
        }
        self.members[at] = tale;
        self.marks = marks_after(self.marks, line);
        Ok(())
    }
}

// How many marks are given out with this line about a member.
fn marks_after(marks: u64, line: &Line) -> u64
    ensures { result ≡ marks_after marks line.now }
{
    match line {
        Line::Life { .. } | Line::Takes { .. } => marks.saturating_add(1),
        _ => marks,
    }
}

impl Hears for Past {
    ghost hears = { λ old line new. told_after (told_by old) line ≡ Some (told_by new) };

    fn hear(&mut self, line: Line) -> Result<(), StoreRefusal>
        ensures { IsHeard (told_by self.old) (told_after (told_by self.old) line) result (told_by self.new) }
    {
        match &line {
            Line::Opens { marks, .. } => self.open(*marks),
            Line::Clock { .. } => Ok(()),
            Line::Printed { .. } => {
                self.requests = self.requests.saturating_add(1);
                Ok(())
            }
            Line::Rests { member, .. } => self.hear_of(*member, &line),
            Line::Life { member, .. } => self.hear_of(*member, &line),
            Line::Takes { member, .. } => self.hear_of(*member, &line),
            Line::Saves { member, .. } => self.hear_of(*member, &line),
            Line::Made { member, .. } => self.hear_of(*member, &line),
            Line::Ends { member } => self.hear_of(*member, &line),
            Line::Answer { member, .. } => self.hear_of(*member, &line),
        }
    }
}
