//! A node with its life, and with what it publishes of it.
ghost use Rattle.std.specs.Prelude.{◌≡◌, ◌≢◌, ◌≤◌, ◌<◌, ◌+◌, ◌⊎◌, [], ◌++◌, ◌∷◌, true, false, Some, None, Err, IfOk, IfErr, OnOk, OnErr, MatchOption, MatchResult, slice_range, unwrap_or};
ghost use Rattle.sqlread.specs.Meaning.{language_of};
ghost use Rattle.keep.specs.Durable.{Durable};
ghost use Rattle.node.specs.View.{durable_of, spares_memory, Gave, IsKept, LeavesUp, risen, told_between};
ghost use Rattle.node.specs.Member.{effect_at, me_of, member_of, members_of, tables_of, IsSameSeat};
ghost use Rattle.model.specs.Marks.{mark_after};
ghost use Rattle.model.specs.Members.{applied};
ghost use Rattle.fault.specs.declared.refusal.Refusal.TheVariants.{NoMemory, NoView, BadStore};
ghost use Rattle.history.specs.Items.{entries_in, sealed_in};
ghost use Rattle.view.specs.Publishing.{published, pending, given_of as views_of, book_of, IsSameLife};
ghost use Rattle.view.specs.Viewing.{seen_by, name_seen, schema_seen, book_seen, IsTold};
ghost use Rattle.flight.specs.Lives.{torn_step, all_steps, mark_for, step_of};
ghost use Rattle.cells.specs.Lives.{work_of, opened_with, replay, IsLeft, AreTold, AreUntold, AreRead, marks_rise};
ghost use Rattle.cells.specs.Feeds.{IsLifeWith, IsRecorded, given_of, IsTurnedAway, IsStartRefusal, ending_of, HasCauseOrOrder};
ghost use Rattle.cells.specs.Publishing.{items_of, AreFirst, IsPublisherOf, RisesWith};
ghost use Rattle.model.specs.Kept.{node_after};
ghost use Rattle.flight.specs.declared.life.Ending.TheVariants.{Up};

use crate::copies::work_of;
use crate::publishing::{note, publish_all};
use fault::Refusal;
use flight::life::{Ending, Life, Opening, Packet, Step};
use keep::keeper::Keeper;
use model::mark::Mark;
use model::member::Member;
use node::{Fault, Node, Out as NodeOut};
use schema::Schema;
use std::alloc::{AllocError, Global};
use std::sync::Wait;
use view::{Name, Notice, Publisher, View};

/// What a step gives: its mark, and what the node gave.
#[derive(Debug, Drop)]
pub struct Out {
    pub mark: Mark,
    pub given: NodeOut,
}

/// A node, its life, and what it publishes of it. While the node is up it is what its life replays to. What is recorded of
/// each step is exactly what the replay tells in it, none of a torn one, and the reading with which its packet came. What is
/// published and what is pending are together the entries that it has applied and the times that it has sealed, in their
/// order and each with the mark of its step: what these close is the node's closed time. Once it is down what is published are
/// the first of those before the torn step. All this holds while its store is
/// honest. The store never holds anything but what was stored before the last step or after it.
///
/// End it by `stop`; views of one that is dropped still answer.
#[derive(Drop)]
pub struct Cell<K: Keeper> {
    alloc: Global,
    pub node: Node<K>,
    pub life: Life,
    pub publisher: Publisher,
    pub ghost replayed: { node.is_up ≡ true → (K.is_honest node.keeper → member_of node ≡ replay (tables_of node) (members_of node) (me_of node) life) × (life.ending ≡ Up) },
    pub ghost torn: { node.is_up ≡ false → torn_step life.ending ≢ [] },
    pub ghost told: { K.is_honest node.keeper → AreTold (tables_of node) (members_of node) (me_of node) life },
    pub ghost untold: { AreUntold (torn_step life.ending) },
    pub ghost clocked: { AreRead (all_steps life) },
    pub ghost rising: { marks_rise life.opening.mark (all_steps life) ≡ true },
    pub ghost held: { node.is_up ≡ false → (d : Durable) → K.may_hold node.keeper d → ∥ IsLeft (tables_of node) (members_of node) (me_of node) life d ∥₁ },
    pub ghost listed: { K.is_honest node.keeper → entries_in (items_of node life) ≡ applied (replay (tables_of node) (members_of node) (me_of node) life) },
    pub ghost sealed: { K.is_honest node.keeper → sealed_in (items_of node life) ≡ (replay (tables_of node) (members_of node) (me_of node) life).sealed },
    pub ghost whole: { node.is_up ≡ true → K.is_honest node.keeper → published publisher ++ pending publisher ≡ items_of node life },
    pub ghost shown: { node.is_up ≡ false → K.is_honest node.keeper → AreFirst (published publisher) (items_of node life) },
    pub ghost named: { IsPublisherOf (tables_of node) (me_of node) life.opening.mark publisher },
}

/// A publisher of a life that opens. The error is want of memory.
fn open_publisher<R: Wait>(
    rt: &R,
    alloc: Global,
    node: Member,
    opening: Mark,
    schema: &Schema,
) -> Result<Publisher, AllocError>
    ensures life { IfOk result (λ p. IsPublisherOf schema.now node opening p) }
    ensures none { IfOk result (λ p. (published p ≡ []) × (pending p ≡ [])) }
    ensures given { IfOk result (λ p. views_of p ≡ 0) }
{
    Publisher::start(rt, alloc, Name { node, opening }, schema.clone()?)
}

impl<K: Keeper> Cell<K> {
    /// Opens a life with what the image holds. `last` is the greatest mark that the node had before,
    /// none if it had none; the opening's is one more. `me` is one of the group: from 1 to `members`, of
    /// which there are up to 7; the caller sees to this, and to what the keeper asks of an image. 42 where
    /// no mark is left, else 40, 43 or 44, the last where the image holds no state of a member of such a group; the image
    /// comes back with each.
    pub fn start<R: Wait>(
        rt: &R,
        alloc: Global,
        image: K::Image,
        schema: Schema,
        members: usize,
        me: Member,
        last: Option<Mark>,
    ) -> Result<Cell<K>, (Refusal, K::Image)>
        requires few { members ≤ 7 }
        requires member { (1 ≤ me) × (me ≤ members) }
        requires suits { K.suits image members (language_of schema) }
        ensures opened { IfOk result (λ c. (c.node.is_up ≡ true) × (c.life.steps.items ≡ []) × (Some c.life.opening.mark ≡ mark_after (unwrap_or last 0))) }
        ensures stored { IfOk result (λ c. K.is_honest c.node.keeper → K.holds image (opened_with c.life.opening)) }
        ensures group { IfOk result (λ c. (tables_of c.node ≡ schema) × (members_of c.node ≡ members) × (me_of c.node ≡ me)) }
        ensures none { IfOk result (λ c. (published c.publisher ≡ []) × (pending c.publisher ≡ []) × (views_of c.publisher ≡ 0)) }
        ensures refused { IfErr result (λ e. IsStartRefusal (mark_after (unwrap_or last 0)) e.0) }
        ensures bad { IfErr result (λ e. e.0 ≡ BadStore → K.is_bad e.1 members (language_of schema) ⊎ ((d : Durable) → K.holds e.1 d → ⊥)) }
        ensures back { IfErr result (λ e. (d : Durable) → K.holds e.1 d → K.holds image d) }
        ensures suits { IfErr result (λ e. K.suits e.1 members (language_of schema)) }
    {
        let Some(mark) = Mark::after(last.map_or(0, Mark::number)) else {
            return Err((Refusal::LifeFull, image));
        };
        let mut node = match Node::start(alloc, image, schema, members, me) {
            Ok(node) => node,
            Err((error, image)) => return Err((Refusal::from(error), image)),
        };
        let entries = match node.entries() {
            Ok(entries) => entries,
            Err(error) => return Err((Refusal::from(error), node.stop())),
        };
        let Ok(publisher) = open_publisher(rt, alloc, me, mark, node.schema()) else {
            return Err((Refusal::NoMemory, node.stop()));
        };
        let opening = Opening {
            mark,
            hard: node.hard_state(),
            entries,
        };
        let life = Life {
            opening,
            steps: Vec::new(alloc),
            ending: Ending::Up,
        };
        Ok(Cell {
            alloc,
            node,
            life,
            publisher,
        })
    }

    /// One step of the node by this packet, recorded with the mark that is one more than the greater of
    /// the last mark and the packet's, with the reading that the packet bears or, where it bears none, this one, which the
    /// node's clock shows, and with what it told of requests. A refused step and one without effect are recorded
    /// too. Then the entries that
    /// became applied are published, and what became sealed; where there is no memory to publish them they stay pending, and a later
    /// step publishes them. It may wait for a view that is just then copying the token of what is published.
    ///
    /// 41 where the node is down; 42 where the life has its last step or no mark is left; 43 where there is no
    /// memory to record the step: these record and change nothing. A step that goes down is recorded as torn, and so is
    /// one where there is no memory to record what it told or to append what became applied or sealed, and one, told as 44, by which
    /// an entry becomes applied whose stamp does not rise over what the life closed before, as in no run of a group; nothing is
    /// published then.
    pub fn feed<R: Wait>(&mut self, rt: &R, reading: i64, packet: Packet) -> Result<Out, Fault>
        ensures fed { (IsTurnedAway self.old.node.is_up (mark_for self.old.life packet) result
            × IsLifeWith self.old.life self.new.life [] self.old.life.ending
            × (self.new.node ≡ self.old.node) × (self.new.publisher ≡ self.old.publisher))
            ⊎ ((self.old.node.is_up ≡ true)
            × MatchOption (mark_for self.old.life packet) ⊥ (λ m. IsRecorded self.old.life self.new.life (step_of m reading packet) result)
            × (K.is_honest self.new.node.keeper → Gave (member_of self.old.node) (member_of self.new.node) (effect_at self.old.node (work_of packet)) (given_of result))) }
        ensures applied { IfOk result (λ out. K.is_honest self.new.node.keeper → out.given.applied.items ≡ slice_range (member_of self.new.node).log (member_of self.old.node).commit (member_of self.new.node).commit) }
        ensures sealed { IfOk result (λ out. K.is_honest self.new.node.keeper → out.given.sealed ≡ risen (member_of self.old.node).sealed (member_of self.new.node).sealed) }
        ensures told { IfOk result (λ out. K.is_honest self.new.node.keeper → out.given.told.items ≡ told_between (language_of (tables_of self.old.node)) (member_of self.new.node).log (member_of self.old.node).commit (member_of self.new.node).commit) }
        ensures published { (published self.new.publisher ≡ published self.old.publisher) ⊎ (K.is_honest self.new.node.keeper → published self.new.publisher ≡ items_of self.new.node self.new.life) }
        ensures silent { OnErr result (published self.new.publisher ≡ published self.old.publisher) }
        ensures life { IsSameLife self.old.publisher self.new.publisher × (views_of self.new.publisher ≡ views_of self.old.publisher) }
        ensures spares { K.is_honest self.new.node.keeper → spares_memory (members_of self.old.node) (me_of self.old.node) (work_of packet) (member_of self.old.node) ≡ true → IfErr result IsKept }
        ensures up { OnOk result ((self.old.node.is_up ≡ true) × (self.new.node.is_up ≡ true)) }
        ensures leaves { IfErr result (LeavesUp self.old.node.is_up self.new.node.is_up) }
        ensures honest { K.is_honest self.new.node.keeper → K.is_honest self.old.node.keeper }
        ensures cause { IfErr result (HasCauseOrOrder (K.is_honest self.new.node.keeper) (K.failed self.old.node.keeper) (K.failed self.new.node.keeper) (RisesWith self.old.node self.old.life (mark_for self.old.life packet) (member_of self.old.node) (node_after (member_of self.old.node) (effect_at self.old.node (work_of packet))))) }
        ensures group { IsSameSeat self.old.node self.new.node }
    {
        if !self.node.is_up {
            return Err(Fault::Kept(Refusal::NodeDown));
        }
        let Some(mark) = self.life.mark_for(&packet) else {
            return Err(Fault::Kept(Refusal::LifeFull));
        };
        let Ok(work) = work_of(&packet) else {
            return Err(Fault::Kept(Refusal::NoMemory));
        };
        if self.life.steps.reserve(1).is_err() {
            return Err(Fault::Kept(Refusal::NoMemory));
        }
        let step = Step::new(self.alloc, mark, reading, packet);
        match self.node.step(work) {
            Ok(given) => {
                let outcomes = match note(self.alloc, &mut self.publisher, mark, &given) {
                    Ok(outcomes) => outcomes,
                    Err(error) => {
                        self.node.take_down();
                        self.life.ending = Ending::Torn(step);
                        return Err(Fault::Down(error));
                    }
                };
                self.life.steps.push_reserved(step.with_outcomes(outcomes));
                publish_all(&mut self.publisher, rt);
                Ok(Out { mark, given })
            }
            Err(Fault::Kept(refusal)) => {
                self.life.steps.push_reserved(step);
                Err(Fault::Kept(refusal))
            }
            Err(Fault::Down(error)) => {
                self.life.ending = Ending::Torn(step);
                Err(Fault::Down(error))
            }
        }
    }

    /// Tells of what is published. Takes no memory.
    pub fn told(&self) -> Notice
        ensures { IsTold (record { node = me_of self.now.node; opening = self.now.life.opening.mark }) (book_of self.now.publisher) (published self.now.publisher) result }
    {
        self.publisher.told()
    }

    /// A view of this life that has seen what is published. 45 once eight were taken, of which none comes back; 43 for want
    /// of memory. A refusal changes nothing.
    pub fn take_view(&mut self) -> Result<View, Refusal>
        ensures same { (self.new.node ≡ self.old.node) × (self.new.life ≡ self.old.life) }
        ensures publisher { IsSameLife self.old.publisher self.new.publisher × (published self.new.publisher ≡ published self.old.publisher) × (pending self.new.publisher ≡ pending self.old.publisher) }
        ensures given { MatchResult result (λ v. (views_of self.old.publisher < 8) × (views_of self.new.publisher ≡ views_of self.old.publisher + 1)) (λ e. views_of self.new.publisher ≡ views_of self.old.publisher) }
        ensures ninth { 8 ≤ views_of self.old.publisher → result ≡ Err NoView }
        ensures refused { IfErr result (λ e. (e ≡ NoView) ⊎ (e ≡ NoMemory)) }
        ensures life { IfOk result (λ v. (name_seen v ≡ record { node = me_of self.old.node; opening = self.old.life.opening.mark }) × (schema_seen v ≡ tables_of self.old.node) × (book_seen v ≡ book_of self.old.publisher)) }
        ensures seen { IfOk result (λ v. seen_by v ≡ published self.old.publisher) }
    {
        self.publisher.take_view()
    }

    /// Gives the store and the life back as they are, the life not marked as stopped: the store holds what the life replays to or, after a torn step, what was
    /// stored before that step or after it. From then on views are refused 45. Takes no memory.
    pub fn leave<R: Wait>(self, rt: &R) -> (K::Image, Life)
        ensures life { result.1 ≡ self.life }
        ensures suits { K.suits result.0 (members_of self.node) (language_of (tables_of self.node)) }
        ensures stored { self.node.is_up ≡ true → (d : Durable) → K.holds result.0 d → d ≡ durable_of (replay (tables_of self.node) (members_of self.node) (me_of self.node) self.life) }
        ensures torn { self.node.is_up ≡ false → (d : Durable) → K.holds result.0 d → ∥ IsLeft (tables_of self.node) (members_of self.node) (me_of self.node) self.life d ∥₁ }
    {
        let Cell {
            alloc: _,
            node,
            life,
            publisher,
        } = self;
        publisher.stop(rt);
        (node.stop(), life)
    }

    /// Ends the life, and gives the store back: it holds what the life replays to or, after a torn
    /// step, what was stored before that step or after it. From then on views are refused 45. Takes no memory.
    pub fn stop<R: Wait>(self, rt: &R) -> (K::Image, Life)
        ensures life { IsLifeWith self.life result.1 [] (ending_of self.node.is_up self.life.ending) }
        ensures suits { K.suits result.0 (members_of self.node) (language_of (tables_of self.node)) }
        ensures stored { self.node.is_up ≡ true → (d : Durable) → K.holds result.0 d → d ≡ durable_of (replay (tables_of self.node) (members_of self.node) (me_of self.node) self.life) }
        ensures torn { self.node.is_up ≡ false → (d : Durable) → K.holds result.0 d → ∥ IsLeft (tables_of self.node) (members_of self.node) (me_of self.node) self.life d ∥₁ }
    {
        let is_up = self.node.is_up;
        let (image, mut life) = self.leave(rt);
        if is_up {
            life.ending = Ending::Stopped;
        }
        (image, life)
    }
}
