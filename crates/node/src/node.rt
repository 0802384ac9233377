//! A member over a keeper.
ghost use Rattle.std.specs.Prelude.{◌≡◌, ◌≤◌, ◌+◌, ◌*◌, ◌⊎◌, true, false, length, reverse, take, slice_range, if◌then◌else◌, [], Some, None, Err, IfOk, IfErr, IfSome, IsOk, OnOk, OnErr, MatchOption};
ghost use Rattle.std.specs.Coded.{→_prop};
ghost use Rattle.keep.specs.Log.{IsSmall};
ghost use Rattle.sqlread.specs.Meaning.{language_of};
ghost use Rattle.sqlread.specs.Shapes.{query_of};
ghost use Rattle.answer.specs.Answers.{columns_in};
ghost use Rattle.apply.specs.Reads.{FewForAll};
ghost use Rattle.apply.specs.View.{AreTables, IsAskedOf};
ghost use Rattle.node.specs.Once.{noted_prop, step_prop, tables_prop};
ghost use Rattle.model.specs.Kept.{node_after};
ghost use Rattle.model.specs.Members.{applied, closed_time};
ghost use Rattle.keep.specs.Durable.{Durable, IsBeforeOrAfter};
ghost use Rattle.raft.specs.Memory.{spares_memory};
ghost use Rattle.raft.specs.View.{brought, hard_of, node_of, works, Grows, IsInStep, after_change};
ghost use Rattle.node.specs.View.{durable_of, saves_after, IsSavedOnce, IsSavedAtMostOnce, Gave, IsKept, IsSame, IsTorn, IsCause, IsCauseOr, IsCauseOrBad, HasCauseOr, LeavesUp, risen, started_from, told_between};
ghost use Rattle.node.specs.Applying.{AreApplied, AreMade};
ghost use Rattle.node.specs.Recall.{AreNoted, IsRecall};
ghost use Rattle.node.specs.Saving.{IsDue};
ghost use Rattle.node.specs.Stepping.{applied_in, sent_in, IsStep, TellsSealed};

use crate::reading::{all_entries, read_state};
use crate::recall::{Applied, Notes, Recall};
use crate::telling::apply_after;
use answer::Answer;
use apply::Tables;
use closedtime::greater;
use fault::Refusal;
use keep::change::Change;
use keep::error::StoreError;
use keep::hard_state::HardState;
use keep::keeper::Keeper;
use model::entry::{Entry, Told};
use model::member::Member;
use model::message::Message;
use model::stamp::Stamp;
use raft::state::{Core, Effect, Taken, Work};
use schema::Schema;
use sqlread::query::Query;
use std::alloc::Global;
use thiserror::Error;

/// What a step gives, once what it changed is stored.
#[derive(Debug, Drop)]
pub struct Out {
    /// In the order of their addressees.
    pub messages: Vec<Message>,
    /// The entries that became applied, in the order of the log.
    pub applied: Vec<Entry>,
    /// What is told of each request that became applied, in the order of the log.
    pub told: Vec<Told>,
    /// What is sealed after the step, where that rose in it, else none.
    pub sealed: Option<Stamp>,
}

/// Why a step gives nothing. It prints as what it holds.
#[derive(Debug, Drop, Error)]
pub enum Fault {
    /// Nothing changed.
    #[error("{0}")]
    Kept(Refusal),
    /// The node is down till it is started again. No message leaves, and nothing is told.
    #[error("{0}")]
    Down(StoreError),
}

/// A member over a keeper: what it knows, where its hard state and log are stored, and the tables that the applied
/// entries leave.
#[derive(Drop)]
pub struct Node<K: Keeper> {
    pub(crate) alloc: Global,
    /// What the member knows.
    pub(crate) core: Core,
    /// Where its hard state and log are stored.
    pub keeper: K,
    /// The tables of the schema after the applied entries.
    pub(crate) tables: Tables,
    /// What it notes of these for when it starts again.
    pub(crate) notes: Notes,
    /// No step has failed.
    pub is_up: bool,
    ghost fresh: { is_up ≡ true → core.is_spent ≡ false },
    ghost kept_up: { is_up ≡ true → K.is_up keeper ≡ true },
    ghost synced: { is_up ≡ true → K.is_honest keeper → IsInStep core (K.stored keeper) } by { →_prop (→_prop (step_prop _ _)) },
    ghost serves: { ∥ K.serves keeper core.members (language_of core.schema) ∥₁ },
    ghost made: { is_up ≡ true → AreMade core.schema tables },
    ghost current: { is_up ≡ true → K.is_honest keeper → AreTables core.schema (applied (node_of core (K.stored keeper).log)) tables } by { →_prop (→_prop (tables_prop _ _ _)) },
    ghost noted: { is_up ≡ true → AreNoted core.schema tables notes } by { →_prop (noted_prop _ _ _) },
}

/// Stores a change of a member, if there is one.
pub(crate) fn store<K: Keeper>(
    alloc: Global,
    core: &Core,
    keeper: &mut K,
    change: &Option<Change>,
) -> Result<(), StoreError>
    requires due { K.is_honest keeper.old → IsDue core.now change.now (K.stored keeper.old) }
    requires small { MatchOption change.now (Unit {0}) IsSmall }
    requires serves { K.serves keeper.old core.now.members (language_of core.now.schema) }
    requires up { K.is_up keeper.old ≡ true }
    ensures serves { K.serves keeper.new core.now.members (language_of core.now.schema) }
    ensures ok { OnOk result (K.is_honest keeper.new → K.stored keeper.new ≡ after_change change.now (K.stored keeper.old)) }
    ensures up { OnOk result (K.is_up keeper.new ≡ true) }
    ensures honest { K.is_honest keeper.new → K.is_honest keeper.old }
    ensures came { (o : K.Origin) → K.came_from keeper.old o → K.came_from keeper.new o }
    ensures torn { OnErr result ((d : Durable) → K.may_hold keeper.new d → IsBeforeOrAfter (K.stored keeper.old) (after_change change.now (K.stored keeper.old)) d) }
    ensures cause { IfErr result (IsCause (K.failed keeper.old) (K.failed keeper.new)) }
    ensures counts { K.failed keeper.old ≤ K.failed keeper.new }
    ensures asks { K.asks keeper.new ≡ K.asks keeper.old }
    ensures saves { K.saves keeper.new ≡ saves_after change.now (K.saves keeper.old) }
{
    match change {
        None => Ok(()),
        Some(change) => keeper.save(alloc, change),
    }
}

/// The instant that is sealed now, where it is above what was sealed before; else none.
fn risen(before: Option<Stamp>, now: Option<Stamp>) -> Option<Stamp>
    ensures { result ≡ risen before now }
{
    match (before, now) {
        (Some(before), Some(now)) if now.micros() <= before.micros() => None,
        (_, now) => now,
    }
}

/// Stores what a step of the core changed, and only then applies the entries that became committed, and gives its
/// messages, what is told, and what is sealed where it rose.
pub(crate) fn finish<K: Keeper>(
    alloc: Global,
    core: &Core,
    keeper: &mut K,
    tables: &mut Tables,
    notes: &mut Notes,
    taken: Taken,
    sealed_before: Option<Stamp>,
) -> Result<Out, StoreError>
    requires due { K.is_honest keeper.old → IsDue core.now taken.change (K.stored keeper.old) }
    requires current { K.is_honest keeper.old → AreTables core.now.schema (take taken.committed_before (after_change taken.change (K.stored keeper.old)).log) tables.old }
    requires noted { AreNoted core.now.schema tables.old notes.old }
    requires rises { K.is_honest keeper.old → taken.committed_before ≤ core.now.commit }
    requires small { MatchOption taken.change (Unit {0}) IsSmall }
    requires serves { K.serves keeper.old core.now.members (language_of core.now.schema) }
    requires up { K.is_up keeper.old ≡ true }
    ensures serves { K.serves keeper.new core.now.members (language_of core.now.schema) }
    ensures messages { IfOk result (λ out. out.messages.items ≡ taken.messages.items) }
    ensures applied { IfOk result (λ out. K.is_honest keeper.new → AreApplied core.now.schema (after_change taken.change (K.stored keeper.old)).log taken.committed_before core.now.commit out.applied.items out.told.items tables.new) }
    ensures sealed { IfOk result (λ out. out.sealed ≡ risen sealed_before core.now.sealed) }
    ensures noted { OnOk result (AreNoted core.now.schema tables.new notes.new) }
    ensures made { OnOk result (AreMade core.now.schema tables.old → AreMade core.now.schema tables.new) }
    ensures ok { OnOk result (K.is_honest keeper.new → K.stored keeper.new ≡ after_change taken.change (K.stored keeper.old)) }
    ensures up { OnOk result (K.is_up keeper.new ≡ true) }
    ensures honest { K.is_honest keeper.new → K.is_honest keeper.old }
    ensures came { (o : K.Origin) → K.came_from keeper.old o → K.came_from keeper.new o }
    ensures torn { OnErr result ((d : Durable) → K.may_hold keeper.new d → IsBeforeOrAfter (K.stored keeper.old) (after_change taken.change (K.stored keeper.old)) d) }
    ensures cause { IfErr result (IsCauseOr (K.is_honest keeper.new) (K.failed keeper.old) (K.failed keeper.new)) }
    ensures asks { IfOk result (λ out. K.asks keeper.new ≤ K.asks keeper.old + length out.applied.items) }
    ensures saves { K.saves keeper.new ≡ saves_after taken.change (K.saves keeper.old) }
{
    let Taken {
        change,
        messages,
        committed_before,
    } = taken;
    store(alloc, core, keeper, &change)?;
    let applied = apply_after(alloc, core, keeper, tables, notes, committed_before)?;
    let Applied { entries, told } = applied;
    Ok(Out {
        messages,
        applied: entries,
        told,
        sealed: risen(sealed_before, core.sealed()),
    })
}

/// Takes a step of the parts of a node: the core's, then what `finish` does of it.
fn take_step<K: Keeper>(
    alloc: Global,
    core: &mut Core,
    keeper: &mut K,
    tables: &mut Tables,
    notes: &mut Notes,
    work: Work,
) -> Result<Effect<Out>, StoreError>
    requires up { K.is_up keeper.old ≡ true }
    requires fresh { core.old.is_spent ≡ false }
    requires stored { K.is_honest keeper.old → IsInStep core.old (K.stored keeper.old) }
    requires serves { K.serves keeper.old core.old.members (language_of core.old.schema) }
    requires current { K.is_honest keeper.old → AreTables core.old.schema (applied (node_of core.old (K.stored keeper.old).log)) tables.old }
    requires noted { AreNoted core.old.schema tables.old notes.old }
    ensures step { IfOk result (λ e. K.is_honest keeper.new → IsStep core.old.schema (node_of core.old (K.stored keeper.old).log) (node_of core.new (K.stored keeper.new).log) (works core.old.schema core.old.members core.old.me work (node_of core.old (K.stored keeper.old).log)) e) }
    ensures sealed { IfOk result (TellsSealed core.old.sealed core.new.sealed) }
    ensures grows { OnOk result (K.is_honest keeper.new → Grows (node_of core.old (K.stored keeper.old).log) (node_of core.new (K.stored keeper.new).log)) }
    ensures stored { OnOk result (K.is_honest keeper.new → IsInStep core.new (K.stored keeper.new)) }
    ensures current { OnOk result (K.is_honest keeper.new → AreTables core.new.schema (applied (node_of core.new (K.stored keeper.new).log)) tables.new) }
    ensures noted { OnOk result (AreNoted core.new.schema tables.new notes.new) }
    ensures made { OnOk result (AreMade core.old.schema tables.old → AreMade core.new.schema tables.new) }
    ensures fresh { OnOk result (core.new.is_spent ≡ false) }
    ensures up { OnOk result (K.is_up keeper.new ≡ true) }
    ensures serves { K.serves keeper.new core.new.members (language_of core.new.schema) }
    ensures group { (core.new.members ≡ core.old.members) × (core.new.me ≡ core.old.me) × (core.new.schema ≡ core.old.schema) }
    ensures spares { K.is_honest keeper.new → spares_memory core.old.members core.old.me work (node_of core.old (K.stored keeper.old).log) ≡ true → IsOk result }
    ensures torn { OnErr result ((d : Durable) → K.may_hold keeper.new d → IsBeforeOrAfter (durable_of (node_of core.old (K.stored keeper.old).log)) (durable_of (node_after (node_of core.old (K.stored keeper.old).log) (works core.old.schema core.old.members core.old.me work (node_of core.old (K.stored keeper.old).log)))) d) }
    ensures honest { K.is_honest keeper.new → K.is_honest keeper.old }
    ensures came { (o : K.Origin) → K.came_from keeper.old o → K.came_from keeper.new o }
    ensures cause { IfErr result (IsCauseOr (K.is_honest keeper.new) (K.failed keeper.old) (K.failed keeper.new)) }
    ensures asks { IfOk result (λ e. K.asks keeper.new ≤ K.asks keeper.old + (65 * (brought work + sent_in e) + 1 + applied_in e)) }
    ensures saves { OnOk result (K.is_honest keeper.new → IsSavedOnce (durable_of (node_of core.old (K.stored keeper.old).log)) (durable_of (node_of core.new (K.stored keeper.new).log)) (K.saves keeper.old) (K.saves keeper.new)) }
    ensures saves_most { IsSavedAtMostOnce (K.saves keeper.old) (K.saves keeper.new) }
{
    let sealed_before = core.sealed();
    match core.step(keeper, work)? {
        Effect::Done(taken) => {
            let out = finish(alloc, core, keeper, tables, notes, taken, sealed_before)?;
            Ok(Effect::Done(out))
        }
        Effect::Ignored => Ok(Effect::Ignored),
        Effect::Refused(refusal) => Ok(Effect::Refused(refusal)),
    }
}

impl<K: Keeper> Node<K> {
    ghost use Rattle.node.specs.Member.{effect_at, me_of, member_of, members_of, reads_of, tables_of, IsSameSeat};

    /// Opens what the image holds, as a follower with the hard state and the log that are stored,
    /// which knows of no leader and has applied nothing. `me` is one of the group: from 1 to `members`, of
    /// which there are up to 7; the caller sees to this, and to what the keeper asks of an image.
    ///
    /// `StoreFault` where the store fails, `NoMemory` where memory is refused, `BadStore` where the keeper's
    /// open finds that the image holds no state of a member of such a group, or the store was not honest, so
    /// that the image holds nothing. An error gives the image back, and what it holds is as it was.
    pub fn start(
        alloc: Global,
        image: K::Image,
        schema: Schema,
        members: usize,
        me: Member,
    ) -> Result<Node<K>, (StoreError, K::Image)>
        requires few { members ≤ 7 }
        requires member { (1 ≤ me) × (me ≤ members) }
        requires suits { K.suits image members (language_of schema) }
        ensures opened { IfOk result (λ n. K.is_honest n.keeper → member_of n ≡ started_from (durable_of (member_of n))) }
        ensures found { IfOk result (λ n. K.is_honest n.keeper → K.holds image (durable_of (member_of n))) }
        ensures group { IfOk result (λ n. (n.is_up ≡ true) × (tables_of n ≡ schema) × (members_of n ≡ members) × (me_of n ≡ me)) }
        ensures saves { IfOk result (λ n. K.saves n.keeper ≡ 0) }
        ensures limit { IfOk result (λ n. K.limit n.keeper ≡ K.limit_of image) }
        ensures blank { IfOk result (λ n. AreTables schema [] n.tables) }
        ensures back { IfErr result (λ e. (d : Durable) → K.holds e.1 d → K.holds image d) }
        ensures kept { IfErr result (λ e. K.is_sound e.1 → (d : Durable) → K.holds image d → K.holds e.1 d) }
        ensures limited { IfErr result (λ e. K.limit_of e.1 ≡ K.limit_of image) }
        ensures suits { IfErr result (λ e. K.suits e.1 members (language_of schema)) }
        ensures bad { IfErr result (λ e. e.0 ≡ StoreError.BadStore → K.is_bad e.1 members (language_of schema) ⊎ ((d : Durable) → K.holds e.1 d → ⊥)) }
        ensures not_down { IfErr result (λ e. e.0 ≡ StoreError.NodeDown → ⊥) }
    {
        let Ok(tables) = Tables::new(alloc, &schema) else {
            return Err((StoreError::NoMemory, image));
        };
        let mut keeper = K::open(alloc, image, members, &schema)?;
        let state = match read_state(alloc, &mut keeper, members) {
            Ok(state) => state,
            Err(error) => return Err((error, keeper.close())),
        };
        let core = Core::start(alloc, schema, members, me, state);
        Ok(Node {
            alloc,
            core,
            keeper,
            tables,
            notes: Notes::Off,
            is_up: true,
        })
    }

    /// Starts it as `start` does, and keeps in memory what it applies and tells, for when it starts again. What it had
    /// applied when it went down is not executed again where its log begins with the same: the tables of then are taken.
    pub fn start_again(
        alloc: Global,
        image: K::Image,
        schema: Schema,
        members: usize,
        me: Member,
        recall: Option<Recall>,
    ) -> Result<Node<K>, (StoreError, K::Image)>
        requires few { members ≤ 7 }
        requires member { (1 ≤ me) × (me ≤ members) }
        requires suits { K.suits image members (language_of schema) }
        requires recall { IfSome recall (IsRecall schema) }
        ensures opened { IfOk result (λ n. K.is_honest n.keeper → member_of n ≡ started_from (durable_of (member_of n))) }
        ensures found { IfOk result (λ n. K.is_honest n.keeper → K.holds image (durable_of (member_of n))) }
        ensures group { IfOk result (λ n. (n.is_up ≡ true) × (tables_of n ≡ schema) × (members_of n ≡ members) × (me_of n ≡ me)) }
        ensures saves { IfOk result (λ n. K.saves n.keeper ≡ 0) }
        ensures limit { IfOk result (λ n. K.limit n.keeper ≡ K.limit_of image) }
        ensures back { IfErr result (λ e. (d : Durable) → K.holds e.1 d → K.holds image d) }
        ensures kept { IfErr result (λ e. K.is_sound e.1 → (d : Durable) → K.holds image d → K.holds e.1 d) }
        ensures limited { IfErr result (λ e. K.limit_of e.1 ≡ K.limit_of image) }
        ensures suits { IfErr result (λ e. K.suits e.1 members (language_of schema)) }
        ensures bad { IfErr result (λ e. e.0 ≡ StoreError.BadStore → K.is_bad e.1 members (language_of schema) ⊎ ((d : Durable) → K.holds e.1 d → ⊥)) }
        ensures not_down { IfErr result (λ e. e.0 ≡ StoreError.NodeDown → ⊥) }
    {
        match Node::start(alloc, image, schema, members, me) {
            Ok(mut node) => {
                node.notes = Notes::of(alloc, recall);
                Ok(node)
            }
            Err(back) => Err(back),
        }
    }

    /// Takes one step: the core's, then one save if what is stored changes, then what became committed
    /// is applied to the tables and told, and what is sealed where that rose. What it gives is empty where the message is one
    /// that no honest member can send, or the input is one that its role has no use for: nothing changed then. An entry of
    /// the log that the core no longer has comes from the keeper.
    ///
    /// `Fault::Kept` is a refusal that leaves the node as it was: `NodeDown` where it is down, and
    /// those of `Core::step`. `Fault::Down` takes the node down: `StoreFault` where the store fails,
    /// `NoMemory` where memory is refused. What is stored is then what was so before the step, or
    /// after it. A timeout, a beat, a close or a floor that is refused or ignored takes no memory, and never takes the node
    /// down.
    pub fn step(&mut self, work: Work) -> Result<Out, Fault>
        ensures done { self.old.is_up ≡ true → K.is_honest self.new.keeper → Gave (member_of self.old) (member_of self.new) (effect_at self.old work) result }
        ensures grows { OnOk result (K.is_honest self.new.keeper → Grows (member_of self.old) (member_of self.new)) }
        ensures applied { IfOk result (λ out. K.is_honest self.new.keeper → out.applied.items ≡ slice_range (member_of self.new).log (member_of self.old).commit (member_of self.new).commit) }
        ensures told { IfOk result (λ out. K.is_honest self.new.keeper → out.told.items ≡ told_between (language_of (tables_of self.old)) (member_of self.new).log (member_of self.old).commit (member_of self.new).commit) }
        ensures sealed { IfOk result (λ out. K.is_honest self.new.keeper → out.sealed ≡ risen (member_of self.old).sealed (member_of self.new).sealed) }
        ensures spares { K.is_honest self.new.keeper → spares_memory (members_of self.old) (me_of self.old) work (member_of self.old) ≡ true → IfErr result IsKept }
        ensures same { IfErr result (λ fault. K.is_honest self.new.keeper → IsSame (member_of self.old) (member_of self.new) fault) }
        ensures torn { IsTorn (durable_of (member_of self.old)) (durable_of (node_after (member_of self.old) (effect_at self.old work))) (K.may_hold self.new.keeper) result }
        ensures up { OnOk result ((self.old.is_up ≡ true) × (self.new.is_up ≡ true)) }
        ensures down { self.old.is_up ≡ false → result ≡ Err (Fault.Kept Refusal.NodeDown) }
        ensures stays { self.old.is_up ≡ false → self.new ≡ self.old }
        ensures ends { IfErr result (λ f. f ≡ Fault.Kept Refusal.NodeDown → self.new.is_up ≡ self.old.is_up) }
        ensures leaves { IfErr result (LeavesUp self.old.is_up self.new.is_up) }
        ensures cause { IfErr result (HasCauseOr (K.is_honest self.new.keeper) (K.failed self.old.keeper) (K.failed self.new.keeper)) }
        ensures group { IsSameSeat self.old self.new }
        ensures honest { K.is_honest self.new.keeper → K.is_honest self.old.keeper }
        ensures came { (o : K.Origin) → K.came_from self.old.keeper o → K.came_from self.new.keeper o }
        ensures asks { IfOk result (λ out. K.asks self.new.keeper ≤ K.asks self.old.keeper + (65 * (brought work + length out.messages.items) + 1 + length out.applied.items)) }
        ensures saves { IfOk result (λ out. K.is_honest self.new.keeper → IsSavedOnce (durable_of (member_of self.old)) (durable_of (member_of self.new)) (K.saves self.old.keeper) (K.saves self.new.keeper)) }
        ensures saves_most { IsSavedAtMostOnce (K.saves self.old.keeper) (K.saves self.new.keeper) }
    {
        if !self.is_up {
            return Err(Fault::Kept(Refusal::NodeDown));
        }
        match take_step(
            self.alloc,
            &mut self.core,
            &mut self.keeper,
            &mut self.tables,
            &mut self.notes,
            work,
        ) {
            Ok(Effect::Done(out)) => Ok(out),
            Ok(Effect::Ignored) => Ok(Out {
                messages: Vec::new(self.alloc),
                applied: Vec::new(self.alloc),
                told: Vec::new(self.alloc),
                sealed: None,
            }),
            Ok(Effect::Refused(refusal)) => Err(Fault::Kept(refusal)),
            Err(error) => {
                self.is_up = false;
                Err(Fault::Down(error))
            }
        }
    }

    /// Answers a question from the applied entries, and changes nothing; one without system time is AS OF the closed
    /// time. `NodeDown` where the node is down, `NotClosed` with the closed time where the question's last instant is later
    /// than it, or where nothing is closed, `NoMemory` where memory is refused.
    pub fn ask(&self, query: &Query) -> Result<Answer, Refusal>
        ensures asked { self.now.is_up ≡ true → K.is_honest self.now.keeper → IsAskedOf (language_of (tables_of self.now)) (query_of query.now) (applied (member_of self.now)) (closed_time (member_of self.now)) result }
        ensures columns { IfOk result (λ a. a.columns.items ≡ columns_in (tables_of self.now) query.now.table) }
        ensures down { self.now.is_up ≡ false → result ≡ Err Refusal.NodeDown }
    {
        if !self.is_up {
            return Err(Refusal::NodeDown);
        }
        self.tables.ask(query, self.closed_time())
    }

    /// How many rows of its tables and versions were read as it applied its entries, few for each of them; at the greatest `u64` it
    /// stays. Where it took over what it had applied before it went down, those reads are among it. Questions read besides.
    pub fn reads(&self) -> u64
        ensures is { result ≡ reads_of self.now }
        ensures few { self.now.is_up ≡ true → K.is_honest self.now.keeper → ∥ FewForAll (tables_of self.now) (reverse (applied (member_of self.now))) result ∥₁ }
    {
        self.tables.reads()
    }

    /// Whether it takes steps and answers: no step has failed.
    pub fn is_up(&self) -> bool
        ensures { result ≡ self.now.is_up }
    {
        self.is_up
    }

    /// Up to which index of the log it has applied, none where it is down.
    pub fn commit(&self) -> Option<usize>
        ensures { result ≡ (if self.now.is_up then Some (member_of self.now).commit else None) }
    {
        if !self.is_up {
            return None;
        }
        Some(self.core.commit())
    }

    /// Up to which instant it answers: the greater of the stamp of the last applied entry and what is sealed, none where
    /// nothing is applied or sealed, and none where it is down. Takes no memory.
    pub fn closed_time(&self) -> Option<Stamp>
        ensures closed { self.now.is_up ≡ true → K.is_honest self.now.keeper → result ≡ closed_time (member_of self.now) }
        ensures down { self.now.is_up ≡ false → result ≡ None }
    {
        if !self.is_up {
            return None;
        }
        greater(self.tables.closed(), self.core.sealed())
    }

    /// Takes it down, as a step that fails does.
    pub fn take_down(&mut self)
        ensures member { member_of self.new ≡ member_of self.old }
        ensures group { IsSameSeat self.old self.new }
        ensures keeper { self.new.keeper ≡ self.old.keeper }
        ensures down { self.new.is_up ≡ false }
        ensures held { self.old.is_up ≡ true → (d : Durable) → K.may_hold self.new.keeper d → d ≡ durable_of (member_of self.old) }
    {
        self.is_up = false;
    }

    /// The tables that it was started with.
    pub fn schema(&self) -> &Schema
        ensures { result.now ≡ tables_of self.now }
    {
        &self.core.schema
    }

    /// Which member of its group it is.
    pub fn me(&self) -> Member
        ensures { result ≡ me_of self.now }
    {
        self.core.me
    }

    /// Its term, its vote and its floor, which it keeps over a restart.
    pub fn hard_state(&self) -> HardState
        ensures { result ≡ hard_of (member_of self.now) }
    {
        self.core.hard_state()
    }

    /// A copy of its log; those entries that the core no longer has are read from the keeper, one at a time. `NodeDown` where
    /// the node is down, with nothing changed; after another error it is down: `StoreFault` where the store fails, `NoMemory`
    /// where memory is refused, or `BadStore` where the store was not honest.
    pub fn entries(&mut self) -> Result<Vec<Entry>, StoreError>
        ensures ok { IfOk result (λ entries. K.is_honest self.new.keeper → entries.items ≡ (member_of self.old).log) }
        ensures up { OnOk result ((self.old.is_up ≡ true) × (self.new.is_up ≡ true)) }
        ensures ends { OnErr result (self.new.is_up ≡ false) }
        ensures stays { self.old.is_up ≡ false → self.new ≡ self.old }
        ensures down { IfErr result (λ e. e ≡ StoreError.NodeDown → self.old.is_up ≡ false) }
        ensures bad { IfErr result (λ e. e ≡ StoreError.BadStore → K.is_honest self.new.keeper → ⊥) }
        ensures was_down { self.old.is_up ≡ false → result ≡ Err StoreError.NodeDown }
        ensures cause { self.old.is_up ≡ true → IfErr result (IsCauseOrBad (K.is_honest self.new.keeper) (K.failed self.old.keeper) (K.failed self.new.keeper)) }
        ensures asks { K.is_honest self.new.keeper → K.asks self.new.keeper ≤ K.asks self.old.keeper + length (member_of self.old).log }
        ensures saves { K.saves self.new.keeper ≡ K.saves self.old.keeper }
        ensures core { self.new.core ≡ self.old.core }
        ensures group { IsSameSeat self.old self.new }
        ensures member { OnOk result (K.is_honest self.new.keeper → member_of self.new ≡ member_of self.old) }
        ensures honest { K.is_honest self.new.keeper → K.is_honest self.old.keeper }
        ensures came { (o : K.Origin) → K.came_from self.old.keeper o → K.came_from self.new.keeper o }
        ensures left { (d : Durable) → K.may_hold self.new.keeper d → K.may_hold self.old.keeper d }
        ensures held { self.old.is_up ≡ true → (d : Durable) → K.may_hold self.new.keeper d → d ≡ durable_of (member_of self.old) }
    {
        if !self.is_up {
            return Err(StoreError::NodeDown);
        }
        match all_entries(self.alloc, &self.core, &mut self.keeper) {
            Ok(entries) => Ok(entries),
            Err(error) => {
                self.is_up = false;
                Err(error)
            }
        }
    }

    /// Stops it, and gives the image up, which holds what its keeper stored, neither more nor less. Of a node that is up
    /// that is the hard state and the log that it has.
    pub fn stop(self) -> K::Image
        ensures held { (d : Durable) → K.holds result d → K.may_hold self.keeper d }
        ensures kept { (d : Durable) → K.may_hold self.keeper d → K.holds result d }
        ensures whole { self.is_up ≡ true → K.is_honest self.keeper → K.holds result (durable_of (member_of self)) }
        ensures good { K.is_honest self.keeper → K.is_bad result (members_of self) (language_of (tables_of self)) → ⊥ }
        ensures sound { K.is_sound result → K.is_honest self.keeper }
        ensures limit { K.limit_of result ≡ K.limit self.keeper }
        ensures suits { K.suits result (members_of self) (language_of (tables_of self)) }
        ensures last { self.is_up ≡ true → (d : Durable) → K.holds result d → d ≡ durable_of (member_of self) }
    {
        let (image, _) = self.rest();
        image
    }

    /// Stops it as `stop` does, and gives besides what it has noted for when it starts again: none where it is down, was
    /// not to note it, or had no memory for it.
    pub fn rest(self) -> (K::Image, Option<Recall>)
        ensures recall { IfSome result.1 (IsRecall (tables_of self)) }
        ensures held { (d : Durable) → K.holds result.0 d → K.may_hold self.keeper d }
        ensures kept { (d : Durable) → K.may_hold self.keeper d → K.holds result.0 d }
        ensures whole { self.is_up ≡ true → K.is_honest self.keeper → K.holds result.0 (durable_of (member_of self)) }
        ensures good { K.is_honest self.keeper → K.is_bad result.0 (members_of self) (language_of (tables_of self)) → ⊥ }
        ensures sound { K.is_sound result.0 → K.is_honest self.keeper }
        ensures limit { K.limit_of result.0 ≡ K.limit self.keeper }
        ensures suits { K.suits result.0 (members_of self) (language_of (tables_of self)) }
        ensures last { self.is_up ≡ true → (d : Durable) → K.holds result.0 d → d ≡ durable_of (member_of self) }
    {
        let recall = self.notes.recall(self.tables, self.is_up);
        (self.keeper.close(), recall)
    }
}
