//! A journal as it is told, moment by moment, beside the run that it is of.
ghost use Rattle.std.specs.Prelude.{◌≡◌, ◌≤◌, ◌++◌, ◌∷◌, [], length, IfOk, IfErr, OnOk};
ghost use Rattle.model.specs.Worlds.{happens};
ghost use Rattle.model.specs.Worlds.Event.{Start};
ghost use Rattle.world.specs.Run.{language_in, tables_in, members_in, now_of};
ghost use Rattle.moments.specs.Behind.{IsBehind};
ghost use Rattle.moments.specs.Faults.{IsFaultAt, IsNo, Lacks};
ghost use Rattle.moments.specs.View.{past_of, IsLive, IsSameRun};
ghost use Rattle.adopt.specs.Lines.{down_lines, summary_at};
ghost use Rattle.adopt.specs.Spelled.{start, last_lines};

use crate::deeds::{Sight, noted_by, put_deed, put_down};
use crate::stored::{summary, summary_if_started};
use crate::taken::taken_at;
use flight::flight::Version;
use flight::life::Life;
use journal::{Line, Summary};
use model::member::Member;
use moments::{AuditFault, Deed, Moment, Recorded, Replay};
use schema::Schema;
use std::alloc::{AllocError, Global};

/// The lines of a journal so far, and the run that they are of.
#[derive(Drop)]
pub(crate) struct Telling {
    alloc: Global,
    replay: Replay,
    pub lines: Vec<Line>,
    /// Up to which entry outcomes are told.
    noted: usize,
}

impl Telling {
    ghost use Rattle.adopt.specs.View.{place_of, IsEnd, IsOpening, IsTear, IsSameTelling, IsTold};

    /// Before anything happened to so many members, 3 to 7, with these tables: the first line of a first journal, after a block of this
    /// sum. The error is want of memory.
    pub fn new(
        alloc: Global,
        members: usize,
        schema: Schema,
        sum: u64,
    ) -> Result<Telling, AllocError>
        requires least { 3 ≤ members }
        requires most { members ≤ 7 }
        ensures place { IfOk result (λ t. place_of t ≡ start members) }
        ensures tables { IfOk result (λ t. tables_in t.replay.world ≡ schema) }
        ensures members { IfOk result (λ t. members_in t.replay.world ≡ members) }
        ensures lines { IfOk result (λ t. t.lines.items ≡ Line.Opens 1 sum 0 ∷ []) }
        ensures live { IfOk result (λ t. IsLive t.replay) }
    {
        let mut lines = Vec::new(alloc);
        lines.push(Line::Opens {
            journal: 1,
            sum,
            marks: 0,
        })?;
        Ok(Telling {
            alloc,
            replay: Replay::new(alloc, members, schema)?,
            lines,
            noted: 0,
        })
    }

    // What a member that is up has stored, in short.
    fn stored(&mut self, node: Member) -> Result<Option<Summary>, AllocError>
        requires live { IsLive self.old.replay }
        ensures found { IfOk result (λ found. found ≡ summary_at (past_of self.old.replay).world node) }
        ensures same { OnOk result (IsSameTelling self.old self.new) }
    {
        summary(self.alloc, &mut self.replay.world, node)
    }

    // What a member has stored before its life ends; otherwise it is not looked at.
    fn stored_before(&mut self, node: Member, deed: Deed) -> Result<Option<Summary>, AllocError>
        requires live { IsLive self.old.replay }
        ensures found { IfOk result (λ found. IsEnd deed → found ≡ summary_at (past_of self.old.replay).world node) }
        ensures same { OnOk result (IsSameTelling self.old self.new) }
    {
        match deed {
            Deed::Tears { .. } | Deed::Stops { .. } => self.stored(node),
            Deed::Opens { .. } | Deed::Takes { .. } | Deed::Answers { .. } => Ok(None),
        }
    }

    // What a member has stored as its life begins; otherwise it is not looked at.
    fn stored_after(&mut self, node: Member, deed: Deed) -> Result<Option<Summary>, AllocError>
        requires live { IsLive self.old.replay }
        ensures found { IfOk result (λ found. IsOpening deed → found ≡ summary_at (past_of self.old.replay).world node) }
        ensures same { OnOk result (IsSameTelling self.old self.new) }
    {
        match deed {
            Deed::Opens { .. } => self.stored(node),
            Deed::Takes { .. } | Deed::Tears { .. } | Deed::Answers { .. } | Deed::Stops { .. } => {
                Ok(None)
            }
        }
    }

    // What a member has stored once it is started after a step that was cut short; otherwise it is not looked at.
    fn stored_if_started(
        &self,
        members: usize,
        node: Member,
        deed: Deed,
    ) -> Result<Option<Summary>, AllocError>
        requires least { 3 ≤ members }
        requires most { members ≤ 7 }
        requires members { members_in self.now.replay.world ≡ members }
        ensures { IfOk result (λ found. IsTear deed → found ≡ summary_at (happens (language_in self.now.replay.world) (members_in self.now.replay.world) (now_of self.now.replay.world) (Start node)) node) }
    {
        match deed {
            Deed::Tears { .. } => {
                summary_if_started(self.alloc, &self.replay.world, members, node)
            }
            Deed::Opens { .. } | Deed::Takes { .. } | Deed::Answers { .. } | Deed::Stops { .. } => {
                Ok(None)
            }
        }
    }

    /// What is recorded of a moment happens, and is told. A fault is that of `Replay::follow`.
    pub fn tell(
        &mut self,
        version: Version,
        schema: &Schema,
        lives: &[Vec<Life>],
        answers: &[Recorded],
        moment: &Moment,
    ) -> Result<(), AuditFault>
        requires live { IsLive self.old.replay }
        requires tables { schema.now ≡ tables_in self.old.replay.world }
        requires least { 3 ≤ length lives.now }
        requires most { length lives.now ≤ 7 }
        requires members { members_in self.old.replay.world ≡ length lives.now }
        ensures ok { OnOk result (IsTold (record { version = version; tables = tables_in self.old.replay.world; lives = lives.now; answers = answers.now }) (members_in self.old.replay.world) self.old self.new moment.now) }
        ensures fault { IfErr result (IsNo (Lacks (IsFaultAt lives.now (past_of self.old.replay) moment.now) (IsBehind (record { version = version; tables = tables_in self.old.replay.world; lives = lives.now; answers = answers.now }) (members_in self.old.replay.world) (past_of self.old.replay) moment.now))) }
    {
        let Moment { node, deed, .. } = *moment;
        let before = self.stored_before(node, deed)?;
        let count = self.replay.world.events().len();
        self.replay.follow(version, schema, lives, answers, moment)?;
        let taken = taken_at(&self.replay.world, count)?;
        let after = self.stored_after(node, deed)?;
        let started = self.stored_if_started(lives.len(), node, deed)?;
        let sight = Sight {
            taken,
            before,
            after,
            started,
        };
        put_deed(
            self.alloc,
            &mut self.lines,
            lives,
            answers,
            self.noted,
            node,
            deed,
            sight,
        )?;
        self.noted = noted_by(lives, self.noted, node, deed);
        Ok(())
    }

    // A member that is still up is stopped.
    fn stop(&mut self, node: Member) -> Result<(), AllocError>
        requires live { IsLive self.old.replay }
        ensures lines { OnOk result (self.new.lines.items ≡ self.old.lines.items ++ down_lines node (summary_at (past_of self.old.replay).world node)) }
        ensures run { OnOk result (IsSameRun self.old.replay self.new.replay) }
    {
        match self.stored(node) {
            Ok(stored) => put_down(&mut self.lines, node, stored),
            Err(error) => Err(error),
        }
    }

    /// The members whose lives these are, and that are still up, are stopped. The error is want of memory.
    pub fn tell_last(&mut self, lives: &[Vec<Life>]) -> Result<(), AllocError>
        requires live { IsLive self.old.replay }
        ensures { OnOk result (self.new.lines.items ≡ self.old.lines.items ++ last_lines (past_of self.old.replay).world (length lives.now)) }
    {
        for at in 0..lives.len() {
            self.stop(at + 1)?;
        }
        Ok(())
    }
}
