//! What members have stored.
ghost use Rattle.std.specs.Prelude.{◌≡◌};
ghost use Rattle.playback.specs.Scenes.{scene_of};

use crate::play::Play;
use journal::Summary;
use model::entry::Entry;
use model::member::Member;
use store::StoreRefusal;

impl Play {
    /// Brings a member's log with its chain up to what it has, and gives what it has stored; none where it is down.
    pub(crate) fn stored(&mut self, member: Member) -> Result<Option<Summary>, StoreRefusal>
        ensures { scene_of self.new ≡ scene_of self.old }
    {
        let Some(stored) = self.group.durable(member)? else {
            return Ok(None);
        };
        let kept = self.kept(member, stored.length)?;
        if !self.add_entries(member, kept, stored.length)? {
            return Ok(None);
        }
        let at = self.place(member)?;
        Ok(Some(self.actors[at].chain.summary(stored.hard)))
    }

    // Adds the entries after so many to a member's log. Whether all are there.
    fn add_entries(
        &mut self,
        member: Member,
        kept: usize,
        length: usize,
    ) -> Result<bool, StoreRefusal>
        ensures { scene_of self.new ≡ scene_of self.old }
    {
        for index in kept..length {
            let Some(entry) = self.group.entry(member, index.saturating_add(1))? else {
                return Ok(false);
            };
            self.add(member, &entry)?;
        }
        Ok(true)
    }

    fn add(&mut self, member: Member, entry: &Entry) -> Result<(), StoreRefusal>
        ensures { scene_of self.new ≡ scene_of self.old }
    {
        let at = self.place(member)?;
        self.actors[at].add(entry)?;
        Ok(())
    }

    fn cut(&mut self, member: Member, kept: usize) -> Result<(), StoreRefusal>
        ensures { scene_of self.new ≡ scene_of self.old }
    {
        let at = self.place(member)?;
        self.actors[at].cut(kept);
        Ok(())
    }

    // How much of a member's log is as it has it; the log is cut to that.
    fn kept(&mut self, member: Member, length: usize) -> Result<usize, StoreRefusal>
        ensures { scene_of self.new ≡ scene_of self.old }
    {
        let at = self.place(member)?;
        let most = self.actors[at].log.len().min(length);
        let kept = self.last_known(member, most)?;
        self.cut(member, kept)?;
        Ok(kept)
    }

    // The last index, up to this one, at which a member has the entry that its log here has; 0 where there is none.
    fn last_known(&mut self, member: Member, most: usize) -> Result<usize, StoreRefusal>
        ensures { scene_of self.new ≡ scene_of self.old }
    {
        for less in 0..most {
            let index = most.saturating_sub(less);
            if self.is_known(member, index)? {
                return Ok(index);
            }
        }
        Ok(0)
    }

    // Whether a member has the entry at an index that its log here has.
    fn is_known(&mut self, member: Member, index: usize) -> Result<bool, StoreRefusal>
        ensures { scene_of self.new ≡ scene_of self.old }
    {
        let Some(entry) = self.group.entry(member, index)? else {
            return Ok(false);
        };
        let place = index.saturating_sub(1);
        let at = self.place(member)?;
        Ok(self.actors[at].has(place, &entry))
    }

    /// Copies of the first so many entries of a member's log, or of all where there are fewer, as it was last brought up to what the
    /// member has.
    pub(crate) fn entries(
        &self,
        member: Member,
        length: usize,
    ) -> Result<Vec<Entry>, StoreRefusal> {
        let at = self.place(member)?;
        let log = self.actors[at].log.as_slice();
        let most = length.min(log.len());
        Ok(log[..most].to_vec(self.alloc)?)
    }
}
