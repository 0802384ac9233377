//! What databases hold at the end.
ghost use Rattle.std.specs.Prelude.{◌≡◌, true, IfOk, OnOk, length};
ghost use Rattle.playback.specs.Histories.{BeginsLog, HasStored};
ghost use Rattle.journal.specs.declared.stored.Summary.{Summary as TheSummary};
ghost use Rattle.playback.specs.Playing.{IsLeft, Meets};
ghost use Rattle.playback.specs.Scenes.{scene_of, Scene};

use crate::making::are_same_entries;
use crate::play::Play;
use journal::Summary;
use keep::HardState;
use model::entry::Entry;
use model::member::Member;
use std::alloc::{AllocError, Global};
use store::StoreRefusal;
use store::chain::Chain;
use world::event::Event;

/// What a member has stored.
#[derive(Drop)]
pub struct Stored {
    pub hard: HardState,
    /// Its log.
    pub entries: Vec<Entry>,
}

// The place of the first entry that differs, counted from 1; none where all are the same.
fn first_difference(
    alloc: Global,
    some: &[Entry],
    others: &[Entry],
) -> Result<Option<usize>, AllocError> {
    let one = Chain::of(alloc, some)?;
    let other = Chain::of(alloc, others)?;
    let least = some.len().min(others.len());
    for at in 0..least {
        let length = at.saturating_add(1);
        if one.digest_at(length) != other.digest_at(length) {
            return Ok(Some(length));
        }
    }
    if some.len() == others.len() {
        Ok(None)
    } else {
        Ok(Some(least.saturating_add(1)))
    }
}

// Whether a member has this stored, and nothing else.
fn is_just(stored: &Stored, hard: HardState, entries: &[Entry]) -> bool
    ensures { result ≡ true → (stored.now.hard ≡ hard) × (stored.now.entries.items ≡ entries.now) }
{
    stored.hard == hard && are_same_entries(stored.entries.as_slice(), entries)
}

impl Play {
    /// Whether a member's database, which holds this in short, with a log of these entries, is what the journals give: 49 where it isn't,
    /// with the first entry that differs. The member is down then.
    pub fn check_found(
        &mut self,
        member: Member,
        found: &Summary,
        entries: &[Entry],
    ) -> Result<(), StoreRefusal>
        ensures { OnOk result (IsLeft (scene_of self.old) member (record { hard = found.now.hard; log = entries.now }) (scene_of self.new)) }
    {
        self.close(member, found)?;
        self.start(member)?;
        let stored = self.all_stored(member)?;
        let _ = self.happen(Event::Stop(member))?;
        if is_just(&stored, found.hard, entries) {
            return Ok(());
        }
        let entry = first_difference(self.alloc, entries, stored.entries.as_slice())?;
        Err(StoreRefusal::Altered { member, entry })
    }

    // The first so many entries of a member's log: 51 where it is down, or has fewer.
    fn first_entries(&mut self, member: Member, count: usize) -> Result<Vec<Entry>, StoreRefusal>
        ensures same { scene_of self.new ≡ scene_of self.old }
        ensures count { IfOk result (λ entries. length entries.items ≡ count) }
        ensures first { IfOk result (λ entries. BeginsLog (scene_of self.old).history member entries.items) }
    {
        let mut entries = Vec::new(self.alloc);
        for before in 0..count {
            let Some(entry) = self.group.entry(member, before + 1)? else {
                return Err(self.broken(member));
            };
            entries.push(entry)?;
        }
        Ok(entries)
    }

    // What a member that is up has stored: 51 of one that is down.
    fn all_stored(&mut self, member: Member) -> Result<Stored, StoreRefusal>
        ensures same { scene_of self.new ≡ scene_of self.old }
        ensures has { IfOk result (λ stored. HasStored (scene_of self.old).history member (record { hard = stored.hard; log = stored.entries.items })) }
    {
        let Some(state) = self.group.durable(member)? else {
            return Err(self.broken(member));
        };
        Ok(Stored {
            hard: state.hard,
            entries: self.first_entries(member, state.length)?,
        })
    }

    /// What a member has stored where all journals were played. A step that was cut short left what was stored before it. The member is
    /// down then.
    ///
    /// 50 where there is no such member; 55 of the journal before the first one, where that is away and no log that is held begins as this
    /// member's did.
    pub fn left_by(&mut self, member: Member) -> Result<Stored, StoreRefusal>
        ensures { IfOk result (λ stored. (found : TheSummary) × (there : Scene) × Meets (scene_of self.old) member found there
            × IsLeft there member (record { hard = stored.hard; log = stored.entries.items }) (scene_of self.new)) }
    {
        self.meet_told(member)?;
        self.lay_down(member)?;
        self.start(member)?;
        let stored = self.all_stored(member)?;
        let _ = self.happen(Event::Stop(member))?;
        Ok(stored)
    }
}
