//! Journals that go on from others, which are away.
ghost use Rattle.std.specs.Prelude.{◌≡◌, ◌⊎◌, ◌+◌, ◌≤◌, [], nat_lt, true, IfOk, OnErr, OnOk};
ghost use Rattle.journal.specs.declared.stored.Summary.{Summary as TheSummary};
ghost use Rattle.keep.specs.Durable.{Durable};
ghost use Rattle.world.specs.Resumed.{deeds_of, members_of, tables_of};
ghost use Rattle.playback.specs.Histories.{and_stored, history_of, History};
ghost use Rattle.playback.specs.Laters.{all_stopped, IsMet};
ghost use Rattle.playback.specs.Playing.{IsLeft, Meets};
ghost use Rattle.playback.specs.Scenes.{outset, scene_of, standings, Scene};

use crate::actor::Actor;
use crate::making::remake;
use crate::play::{Play, bad_line};
use fault::Refusal;
use journal::Summary;
use keep::{HardState, MemImage, MemKeeper};
use model::entry::Entry;
use model::member::Member;
use schema::Schema;
use std::alloc::{AllocError, Global};
use store::StoreRefusal;
use store::beginnings::beginning_of;
use store::held::HeldLog;
use world::event::Event;
use world::resumed::Resumed;

// It is not known what members go on from.
fn forget_all(actors: &mut [Actor])
    ensures { standings actors.new ≡ standings actors.old }
{
    for actor in actors.iter_mut() {
        actor.forget();
    }
}

// Stops all members, of which nothing is stored yet.
fn stop_all(group: &mut Resumed) -> Result<(), AllocError>
    requires { deeds_of group.old ≡ [] }
    ensures deeds { OnOk result (deeds_of group.new ≡ all_stopped (members_of group.old)) }
    ensures same { (tables_of group.new ≡ tables_of group.old) × (members_of group.new ≡ members_of group.old) }
{
    for before in 0..group.members() {
        group.happen(Event::Stop(before.saturating_add(1)))?;
    }
    Ok(())
}

// A member goes on from this hard state and this log: 44 of what no member can have stored. After that nothing changed.
fn resume(
    alloc: Global,
    group: &mut Resumed,
    member: Member,
    hard: HardState,
    entries: &[Entry],
) -> Result<(), StoreRefusal>
    ensures ok { OnOk result (history_of group.new ≡ and_stored (history_of group.old) member (record { hard = hard; log = entries.now })) }
    ensures err { OnErr result (history_of group.new ≡ history_of group.old) }
{
    let members = group.members();
    if members > 7 || member < 1 || member > members {
        return Err(bad_line());
    }
    let image = remake::<MemKeeper>(
        alloc,
        MemImage::new(alloc),
        group.schema(),
        members,
        member,
        hard,
        entries,
    )?;
    let log = entries.to_vec(alloc)?;
    Ok(group.store(member, image, hard, log)?)
}

impl Play {
    /// Before the journal of this number, where those before it are away: each member goes on from what this journal tells that it has
    /// stored, with the beginning of a log that is held, of its own database or of another one. No lives are kept. 16 for another number
    /// of members than 3 to 7.
    pub fn later(
        alloc: Global,
        members: usize,
        schema: Schema,
        journal: u64,
        held: Vec<Option<HeldLog>>,
    ) -> Result<Play, StoreRefusal>
        ensures { IfOk result (λ play. scene_of play ≡ outset members (record { tables = schema; members = members; deeds = all_stopped members }) (nat_lt 0 journal)) }
    {
        if members < 3 || members > 7 {
            return Err(StoreRefusal::Refused(Refusal::OutOfRange));
        }
        let mut group = Resumed::new(alloc, members, schema)?;
        stop_all(&mut group)?;
        let mut play = Play::on(alloc, members, group, false)?;
        forget_all(play.actors.as_mut_slice());
        play.first = journal;
        play.held = held;
        Ok(play)
    }

    /// A member is met for the first time, with this stored: it goes on from there. 51 where it was told to have something else, or no
    /// member can have it; 55 of the journal before the first one, where no log that is held begins so.
    pub(crate) fn meet(&mut self, member: Member, found: &Summary) -> Result<(), StoreRefusal>
        ensures { OnOk result (Meets (scene_of self.old) member found.now (scene_of self.new)) }
    {
        let at = self.place(member)?;
        if self.first == 0 || self.actors[at].is_known {
            return Ok(());
        }
        if !self.actors[at].may_have(found) {
            return Err(self.broken(member));
        }
        self.go_on(member, at, found)?;
        self.know(member)
    }

    // A member, whose place is this, goes on from the log that is held and that is this in short.
    fn go_on(&mut self, member: Member, at: usize, found: &Summary) -> Result<(), StoreRefusal>
        ensures { OnOk result (IsMet (scene_of self.old) member found.now (scene_of self.new)) }
    {
        let Some(entries) = beginning_of(self.held.as_slice(), at, found) else {
            return Err(self.refusal_before());
        };
        match resume(self.alloc, &mut self.group, member, found.hard, entries) {
            Err(StoreRefusal::Refused(Refusal::BadStore)) => Err(self.broken(member)),
            resumed => resumed,
        }
    }

    /// A member that was not met goes on from what is told that it has stored. 55 of the journal before the first one where nothing is told,
    /// or no log that is held begins so.
    pub(crate) fn meet_told(&mut self, member: Member) -> Result<(), StoreRefusal>
        ensures { OnOk result ((found : TheSummary) × Meets (scene_of self.old) member found (scene_of self.new)) }
    {
        let at = self.place(member)?;
        if self.actors[at].is_known {
            return Ok(());
        }
        match self.actors[at].tale {
            Some(tale) => self.meet(member, &tale.stored),
            None => Err(self.refusal_before()),
        }
    }

    // 55 of the journal before the first one.
    fn refusal_before(&self) -> StoreRefusal {
        StoreRefusal::BadJournal {
            journal: self.first.saturating_sub(1),
            at: 0,
        }
    }

    // It is known what a member goes on from.
    fn know(&mut self, member: Member) -> Result<(), StoreRefusal>
        ensures { scene_of self.new ≡ scene_of self.old }
    {
        let at = self.place(member)?;
        self.actors[at].know();
        Ok(())
    }

    // A member whose database holds this is met: 49 where it can't have that.
    fn meet_found(&mut self, member: Member, found: &Summary) -> Result<(), StoreRefusal>
        ensures { OnOk result (Meets (scene_of self.old) member found.now (scene_of self.new)) }
    {
        match self.meet(member, found) {
            Err(StoreRefusal::Refused(Refusal::BrokenLife { .. })) => Err(StoreRefusal::Altered {
                member,
                entry: None,
            }),
            met => met,
        }
    }

    // The log of a member's database, where it is held; it is not held any more.
    fn take_held(&mut self, member: Member) -> Result<Option<HeldLog>, StoreRefusal>
        ensures { scene_of self.new ≡ scene_of self.old }
    {
        let at = self.place(member)?;
        Ok(match self.held.get_mut(at) {
            Some(held) => held.take(),
            None => None,
        })
    }

    /// Whether a member's database, whose log is held and which holds this, is what the journals give: 49 where it isn't, with the first
    /// entry that differs, where it is known.
    pub fn check_held(&mut self, member: Member, found: &Summary) -> Result<(), StoreRefusal>
        ensures { OnOk result ((there : Scene) × Meets (scene_of self.old) member found.now there
            × (((stored : Durable) × IsLeft there member stored (scene_of self.new)) ⊎ (scene_of self.new ≡ there))) }
    {
        self.meet_found(member, found)?;
        let held = self.take_held(member)?;
        match held {
            Some(log) => self.check_found(member, found, log.entries()),
            None => Ok(()),
        }
    }
}
