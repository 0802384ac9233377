//! The lives of members.
ghost use Rattle.std.specs.Prelude.{◌≡◌, IfOk, OnErr, OnOk};
ghost use Rattle.model.specs.declared.event.Left.{Left as TheLeft};
ghost use Rattle.model.specs.Worlds.{Event as TheEvent, Start, Stop, Torn};
ghost use Rattle.playback.specs.Playing.{GoesDown, Idles, IsDowning, Meets, Rested};
ghost use Rattle.playback.specs.Scenes.{happened, met, scene_of, with_member, Scene, StandsAs};
ghost use Rattle.playback.specs.Standings.{standing_of, Down, Standing, Up};

use crate::actor::{Begun, Doing};
use crate::play::{Play, bad_line, mark_of};
use flight::life::{Ending, Life, Opening};
use journal::Summary;
use model::member::Member;
use store::StoreRefusal;
use world::event::{Event, Left};

impl Play {
    // A member goes down. What it did; 50 where there is no such member.
    fn lower(&mut self, member: Member) -> Result<Doing, StoreRefusal>
        ensures ok { IfOk result (λ doing. StandsAs (scene_of self.old) member (standing_of doing) × (scene_of self.new ≡ with_member (scene_of self.old) member Down)) }
        ensures err { OnErr result (self.new ≡ self.old) }
    {
        let at = self.place(member)?;
        Ok(self.actors[at].lower())
    }

    // A member's last life ended so.
    fn end(&mut self, member: Member, ending: Ending) -> Result<(), StoreRefusal>
        ensures { scene_of self.new ≡ scene_of self.old }
    {
        let at = self.place(member)?;
        self.actors[at].end(ending);
        Ok(())
    }

    fn stop(&mut self, member: Member) -> Result<(), StoreRefusal>
        ensures ok { OnOk result (scene_of self.new ≡ happened (scene_of self.old) (Stop member)) }
        ensures err { OnErr result (scene_of self.new ≡ scene_of self.old) }
    {
        let _ = self.happen(Event::Stop(member))?;
        Ok(())
    }

    // A member's step is cut short: it left what was stored before, or what it stored.
    fn tear(&mut self, member: Member, begun: Begun, is_old: bool) -> Result<(), StoreRefusal>
        ensures ok { OnOk result ((left : TheLeft) × (scene_of self.new ≡ happened (scene_of self.old) (Torn member begun.job left))) }
    {
        let Begun { job, step, .. } = begun;
        let left = if is_old { Left::Old } else { Left::New };
        let _ = self.happen(Event::Torn(member, job, left))?;
        match step {
            Some(step) => self.end(member, Ending::Torn(step)),
            None => self.end(member, Ending::Stopped),
        }
    }

    // A member that did this goes down. The first life of one begins as the world does, where all are up.
    fn cease(&mut self, member: Member, doing: Doing, is_old: bool) -> Result<(), StoreRefusal>
        ensures { OnOk result ((event : TheEvent) × IsDowning member (standing_of doing) event × (scene_of self.new ≡ happened (scene_of self.old) event)) }
    {
        match doing {
            Doing::Down => self.stop(member),
            Doing::Up => {
                self.end(member, Ending::Stopped)?;
                self.stop(member)
            }
            Doing::Within(begun) => self.tear(member, begun, is_old),
        }
    }

    // A member's life is over, if it has one; after a step that was cut short it left this.
    pub(crate) fn close(&mut self, member: Member, found: &Summary) -> Result<(), StoreRefusal>
        ensures { OnOk result (GoesDown (scene_of self.old) member (scene_of self.new)) }
    {
        let before = self.stored(member)?;
        let doing = self.lower(member)?;
        self.cease(member, doing, before == Some(*found))
    }

    /// A member's life is over as the journals end, if it has one; a step that was cut short left what was stored before it.
    pub(crate) fn lay_down(&mut self, member: Member) -> Result<(), StoreRefusal>
        ensures { OnOk result (GoesDown (scene_of self.old) member (scene_of self.new)) }
    {
        let doing = self.lower(member)?;
        self.cease(member, doing, true)
    }

    /// A member comes up.
    pub(crate) fn start(&mut self, member: Member) -> Result<(), StoreRefusal>
        ensures { OnOk result (scene_of self.new ≡ happened (scene_of self.old) (Start member)) }
    {
        let _ = self.happen(Event::Start(member))?;
        Ok(())
    }

    // The life of a member that has this stored, as a flight has it, where flights are kept.
    fn life_of(&self, member: Member, found: &Summary) -> Result<Option<Life>, StoreRefusal> {
        if !self.keeps {
            return Ok(None);
        }
        let opening = Opening {
            mark: mark_of(self.marks)?,
            hard: found.hard,
            entries: self.entries(member, found.length)?,
        };
        Ok(Some(Life {
            opening,
            steps: Vec::new(self.alloc),
            ending: Ending::Up,
        }))
    }

    /// A member is started, with this stored.
    pub(crate) fn begin_life(&mut self, member: Member, found: &Summary) -> Result<(), StoreRefusal>
        ensures { OnOk result ((mid : Scene) × (there : Scene) × GoesDown (scene_of self.old) member mid × Meets mid member found.now there × (scene_of self.new ≡ with_member (met (happened there (Start member)) found.now.length) member Up)) }
    {
        self.close(member, found)?;
        self.marks = self.marks.saturating_add(1);
        self.meet(member, found)?;
        self.start(member)?;
        self.check_begun(member, found)?;
        let life = self.life_of(member, found)?;
        self.begin(member, life)
    }

    // A member that is started has to have this stored: 51.
    fn check_begun(&mut self, member: Member, found: &Summary) -> Result<(), StoreRefusal>
        ensures { OnOk result (scene_of self.new ≡ met (scene_of self.old) found.now.length) }
    {
        if self.stored(member)? != Some(*found) {
            return Err(self.broken(member));
        }
        if self.is_head {
            self.noted = self.noted.max(found.length);
        }
        Ok(())
    }

    // A life begins.
    fn begin(&mut self, member: Member, life: Option<Life>) -> Result<(), StoreRefusal>
        ensures { OnOk result (scene_of self.new ≡ with_member (scene_of self.old) member Up) }
    {
        let mark = self.marks;
        let at = self.place(member)?;
        self.actors[at].begin(mark, life)?;
        Ok(())
    }

    // Whether a member is up and in no step; 50 where there is none.
    fn is_idle(&self, member: Member) -> Result<bool, StoreRefusal>
        ensures { IfOk result (λ is. Idles (scene_of self.now) member is) }
    {
        let at = self.place(member)?;
        Ok(self.actors[at].is_idle())
    }

    /// A member is not up as a journal begins. After a step that was cut short it is not known what it left.
    pub(crate) fn rest(&mut self, member: Member, stored: &Summary) -> Result<(), StoreRefusal>
        ensures { OnOk result ((standing : Standing) × StandsAs (scene_of self.old) member standing × Rested (scene_of self.old) member standing (scene_of self.new)) }
    {
        self.hear_rest(member, stored)?;
        if !self.is_idle(member)? {
            return Ok(());
        }
        if self.stored(member)? != Some(*stored) {
            return Err(self.broken(member));
        }
        self.close(member, stored)
    }

    fn hear_rest(&mut self, member: Member, stored: &Summary) -> Result<(), StoreRefusal>
        ensures { scene_of self.new ≡ scene_of self.old }
    {
        let at = self.place(member)?;
        self.actors[at].rest(stored);
        Ok(())
    }

    /// A member is stopped, which has to be up and in no step.
    pub(crate) fn end_life(&mut self, member: Member) -> Result<(), StoreRefusal>
        ensures { OnOk result (StandsAs (scene_of self.old) member Up × (scene_of self.new ≡ happened (with_member (scene_of self.old) member Down) (Stop member))) }
    {
        if !self.is_idle(member)? {
            return Err(bad_line());
        }
        let _ = self.stored(member)?;
        let doing = self.lower(member)?;
        self.cease(member, doing, true)
    }
}
