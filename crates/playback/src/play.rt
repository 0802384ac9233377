//! Playing journals.
ghost use Rattle.std.specs.Prelude.{◌≡◌, ◌<◌, ◌+◌, [], ◌∷◌, None, Some, false, IfOk, OnErr, OnOk, pos, replicate, vec_len};
ghost use Rattle.world.specs.View.{event_of, outputs_of};
ghost use Rattle.playback.specs.Histories.{history_of, HasShown, IsGiven};
ghost use Rattle.playback.specs.Scenes.{happened, outset, scene_of, standings};
ghost use Rattle.playback.specs.Standings.{standing_of, Down};

use crate::actor::Actor;
use crate::decided::Decided;
use crate::post::Post;
use crate::texts::Texts;
use crate::told::Word;
use fault::Refusal;
use flight::{Answered, Records};
use model::mark::Mark;
use model::member::Member;
use schema::Schema;
use std::alloc::{AllocError, Global};
use store::StoreRefusal;
use store::held::HeldLog;
use world::event::Event;
use world::output::Output;
use world::resumed::Resumed;

/// The journals of a store, played line by line on members that begin with nothing stored or, where the first journals are away, go on from
/// what they had stored. A line whose events don't give what it tells is refused:
/// 51 where a member begins with what it does not have there, or is about to store what it does not come to; 52 where it takes a
/// message that was not sent to it; 54 where it tells other outcomes, or an answer or a printed outcome is another one. One that may not
/// stand there is refused 50. One that is not refused lets exactly the events happen that it tells of: a step whole as its end is told,
/// or cut short as the member is started again. After a refusal it is of no use.
#[derive(Drop)]
pub struct Play {
    pub(crate) alloc: Global,
    pub(crate) group: Resumed,
    pub(crate) actors: Vec<Actor>,
    /// Whether flights are kept.
    pub(crate) keeps: bool,
    /// The messages of all journals.
    pub(crate) posts: Vec<Post>,
    /// How many were sent before the last journal.
    pub(crate) before: usize,
    pub(crate) marks: u64,
    /// The number of the first journal, where those before it are away; else 0.
    pub(crate) first: u64,
    /// The logs that the members' databases hold, where the first journals are away.
    pub(crate) held: Vec<Option<HeldLog>>,
    pub(crate) reading: i64,
    /// Up to which entry outcomes are written.
    pub(crate) noted: usize,
    pub(crate) is_head: bool,
    /// What may be printed of requests.
    pub(crate) words: Vec<Word>,
    pub(crate) texts: Texts,
    pub(crate) decided: Vec<Decided>,
    pub(crate) answers: Vec<Vec<Answered>>,
    pub(crate) sessions: u64,
    pub(crate) requests: u64,
}

/// A line that may not stand there.
pub(crate) fn bad_line() -> StoreRefusal {
    StoreRefusal::Refused(Refusal::BadFlight)
}

/// The mark of this number; one past the last is refused 42.
pub(crate) fn mark_of(number: u64) -> Result<Mark, StoreRefusal> {
    match Mark::after(number.saturating_sub(1)) {
        Some(mark) => Ok(mark),
        None => Err(StoreRefusal::Refused(Refusal::LifeFull)),
    }
}

// So many members of which nothing is told.
#[tactic(auto, using(crate::proofs::Members::standings_push))]
fn new_actors(alloc: Global, members: usize) -> Result<Vec<Actor>, AllocError>
    ensures { IfOk result (λ actors. standings actors.items ≡ replicate members Down) }
{
    let mut actors = Vec::new(alloc);
    for _ in 0..members {
        actors.push(Actor::new(alloc))?;
    }
    Ok(actors)
}

fn no_answers(alloc: Global, members: usize) -> Result<Vec<Vec<Answered>>, AllocError> {
    let mut answers = Vec::new(alloc);
    for _ in 0..members {
        answers.push(Vec::new(alloc))?;
    }
    Ok(answers)
}

fn lives_of(alloc: Global, actors: Vec<Actor>) -> Result<Vec<Vec<flight::life::Life>>, AllocError> {
    let mut lives = Vec::new(alloc);
    for actor in actors {
        lives.push(actor.into_lives())?;
    }
    Ok(lives)
}

impl Play {
    /// Before anything happened to a store of so many members, 3 to 7, with these tables. Lives and answers are kept as flights have
    /// them where `keeps`. 16 for another number of members.
    pub fn new(
        alloc: Global,
        members: usize,
        schema: Schema,
        keeps: bool,
    ) -> Result<Play, StoreRefusal>
        ensures { IfOk result (λ play. scene_of play ≡ outset members (record { tables = schema; members = members; deeds = [] }) false) }
    {
        if members < 3 || members > 7 {
            return Err(StoreRefusal::Refused(Refusal::OutOfRange));
        }
        let group = Resumed::new(alloc, members, schema)?;
        Ok(Play::on(alloc, members, group, keeps)?)
    }

    // Before a journal is heard of so many members, which are these.
    pub(crate) fn on(
        alloc: Global,
        members: usize,
        group: Resumed,
        keeps: bool,
    ) -> Result<Play, AllocError>
        ensures { IfOk result (λ play. scene_of play ≡ outset members (history_of group) false) }
    {
        let actors = new_actors(alloc, members)?;
        let answers = no_answers(alloc, members)?;
        Ok(Play {
            alloc,
            group,
            actors,
            keeps,
            posts: Vec::new(alloc),
            before: 0,
            marks: 0,
            first: 0,
            held: Vec::new(alloc),
            reading: 0,
            noted: 0,
            is_head: false,
            words: Vec::new(alloc),
            texts: Texts::new(alloc),
            decided: Vec::new(alloc),
            answers,
            sessions: 0,
            requests: 0,
        })
    }

    /// How many journals were begun, and how many outcomes of requests were given out.
    pub fn counts(&self) -> (u64, u64) {
        (self.sessions, self.requests)
    }

    /// The requests that are decided, in the order of the log.
    pub fn decided(&self) -> &[Decided] {
        self.decided.as_slice()
    }

    /// The lives of each member and what it answered, where flights are kept.
    pub fn into_records(self) -> Result<Records, AllocError> {
        let Play {
            alloc,
            actors,
            answers,
            ..
        } = self;
        Ok(Records {
            lives: lives_of(alloc, actors)?,
            answers,
        })
    }

    /// The place of a member, counted from 0; 50 where there is no such member.
    pub(crate) fn place(&self, member: Member) -> Result<usize, StoreRefusal>
        ensures { IfOk result (λ at. (member ≡ at + 1) × (at < vec_len self.now.actors)) }
    {
        match member.checked_sub(1) {
            Some(at) if at < self.actors.len() => Ok(at),
            _ => Err(bad_line()),
        }
    }

    /// 51 of a member at the last mark.
    pub(crate) fn broken(&self, node: Member) -> StoreRefusal {
        let mark = self.marks;
        StoreRefusal::Refused(Refusal::BrokenLife { node, mark })
    }

    /// 54 of a member at a mark.
    pub(crate) fn wrong(&self, node: Member, mark: u64) -> StoreRefusal {
        StoreRefusal::Refused(Refusal::WrongAnswer { node, mark })
    }

    /// The number of the mark of a member's last life or step.
    pub(crate) fn mark(&self, member: Member) -> Result<u64, StoreRefusal> {
        let at = self.place(member)?;
        Ok(self.actors[at].mark)
    }

    /// Lets an event happen, and gives what comes of it.
    pub(crate) fn happen(&mut self, event: Event) -> Result<Vec<Output>, AllocError>
        ensures ok { OnOk result (scene_of self.new ≡ happened (scene_of self.old) (event_of event)) }
        ensures err { OnErr result (scene_of self.new ≡ scene_of self.old) }
        ensures gives { IfOk result (λ outs. IsGiven (scene_of self.old).history (event_of event) (outputs_of outs.items)) }
        ensures shown { IfOk result (λ outs. HasShown (scene_of self.old).history event outs.items) }
    {
        self.group.happen(event)
    }
}
