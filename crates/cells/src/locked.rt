//! A cell for several threads to feed under a lock, and the shares of those that feed it.
ghost use Rattle.std.specs.Prelude.{◌≡◌, ◌≤◌, ◌<◌, ◌+◌, ◌⊎◌, [], ◌∷◌, length, true, Some, Err, IfOk, IfErr, OnOk, OnErr, MatchOption, MatchResult, slice_range};
ghost use Rattle.sqlread.specs.Meaning.{language_of};
ghost use Rattle.node.specs.View.{spares_memory, Gave, IsKept, LeavesUp, risen, told_between};
ghost use Rattle.node.specs.Member.{effect_at, me_of, member_of, members_of, tables_of, IsSameSeat};
ghost use Rattle.fault.specs.declared.refusal.Refusal.TheVariants.{NoMemory, NoView};
ghost use Rattle.view.specs.Publishing.{published, pending, book_of, given_of as views_of, IsSameLife};
ghost use Rattle.view.specs.Viewing.{seen_by, name_seen, schema_seen, book_seen, book_told, IsTold};
ghost use Rattle.flight.specs.Lives.{all_steps, mark_for, step_of};
ghost use Rattle.cells.specs.Lives.{work_of};
ghost use Rattle.cells.specs.Feeds.{IsLifeWith, IsRecorded, given_of, IsTurnedAway, HasCauseOrOrder};
ghost use Rattle.cells.specs.Publishing.{items_of, RisesWith};
ghost use Rattle.model.specs.Kept.{node_after};

use crate::cell::{Cell, Out};
use fault::Refusal;
use flight::life::{Ending, Life, Packet};
use keep::keeper::Keeper;
use node::Fault;
use std::marker::Brand;
use std::sync::Wait;
use std::sync::ledger::{Book, Ledger, Share};
use view::{Notice, View};

/// Which life lies under a lock: the ledger of its steps, and the history that its tokens tell of. A call of a function that
/// is generic in it picks both, so that all that is taken from under the lock is known to be of that life.
pub trait Naming: Ledger {
    ghost use Rattle.logbook.specs.Pages.{Book};

    ghost history: { Book };
}

impl Naming for Brand {
    ghost history = { record { number = 0; log_name = 0; cells_name = 0 } };
}

/// A cell and the book of its shares, to be kept in a `Mutex`. All shares of the book are together the number of steps
/// recorded.
#[derive(Drop)]
pub struct LockedNode<K: Keeper, L: Naming> {
    pub cell: Cell<K>,
    book: Book<L>,
    pub ghost counted: { length (all_steps cell.life) ≡ book.total },
    pub ghost named: { book_of cell.publisher ≡ L.history },
}

// How many steps are recorded, a torn one too.
fn recorded(life: &Life) -> usize
    ensures { result ≡ length (all_steps life.now) }
{
    match life.ending {
        Ending::Torn(_) => life.steps.len() + 1,
        Ending::Up | Ending::Stopped => life.steps.len(),
    }
}

impl<K: Keeper, L: Naming> LockedNode<K, L> {
    /// A cell that has recorded no step, with a book of its own of which no share has anything.
    pub fn new(cell: Cell<K>, book: Book<L>) -> LockedNode<K, L>
        requires none { (all_steps cell.life ≡ []) × (book.total ≡ 0) }
        requires named { book_of cell.publisher ≡ L.history }
        ensures { result.cell ≡ cell }
    {
        LockedNode { cell, book }
    }

    /// One `Cell::feed` of this packet at this reading. Book and share rise by one exactly where it recorded a step.
    pub fn feed<R: Wait>(
        &mut self,
        rt: &R,
        share: &mut Share<L>,
        reading: i64,
        packet: Packet,
    ) -> Result<Out, Fault>
        requires { 0 < share.old.parts }
        ensures fed { (IsTurnedAway self.old.cell.node.is_up (mark_for self.old.cell.life packet) result
            × IsLifeWith self.old.cell.life self.new.cell.life [] self.old.cell.life.ending
            × (self.new.cell.node ≡ self.old.cell.node) × (self.new.cell.publisher ≡ self.old.cell.publisher))
            ⊎ ((self.old.cell.node.is_up ≡ true)
            × MatchOption (mark_for self.old.cell.life packet) ⊥ (λ m. IsRecorded self.old.cell.life self.new.cell.life (step_of m reading packet) result)
            × (K.is_honest self.new.cell.node.keeper → Gave (member_of self.old.cell.node) (member_of self.new.cell.node) (effect_at self.old.cell.node (work_of packet)) (given_of result))) }
        ensures applied { IfOk result (λ out. K.is_honest self.new.cell.node.keeper → out.given.applied.items ≡ slice_range (member_of self.new.cell.node).log (member_of self.old.cell.node).commit (member_of self.new.cell.node).commit) }
        ensures sealed { IfOk result (λ out. K.is_honest self.new.cell.node.keeper → out.given.sealed ≡ risen (member_of self.old.cell.node).sealed (member_of self.new.cell.node).sealed) }
        ensures told { IfOk result (λ out. K.is_honest self.new.cell.node.keeper → out.given.told.items ≡ told_between (language_of (tables_of self.old.cell.node)) (member_of self.new.cell.node).log (member_of self.old.cell.node).commit (member_of self.new.cell.node).commit) }
        ensures published { (published self.new.cell.publisher ≡ published self.old.cell.publisher) ⊎ (K.is_honest self.new.cell.node.keeper → published self.new.cell.publisher ≡ items_of self.new.cell.node self.new.cell.life) }
        ensures silent { OnErr result (published self.new.cell.publisher ≡ published self.old.cell.publisher) }
        ensures life { IsSameLife self.old.cell.publisher self.new.cell.publisher × (views_of self.new.cell.publisher ≡ views_of self.old.cell.publisher) }
        ensures spares { K.is_honest self.new.cell.node.keeper → spares_memory (members_of self.old.cell.node) (me_of self.old.cell.node) (work_of packet) (member_of self.old.cell.node) ≡ true → IfErr result IsKept }
        ensures up { OnOk result ((self.old.cell.node.is_up ≡ true) × (self.new.cell.node.is_up ≡ true)) }
        ensures leaves { IfErr result (LeavesUp self.old.cell.node.is_up self.new.cell.node.is_up) }
        ensures honest { K.is_honest self.new.cell.node.keeper → K.is_honest self.old.cell.node.keeper }
        ensures cause { IfErr result (HasCauseOrOrder (K.is_honest self.new.cell.node.keeper) (K.failed self.old.cell.node.keeper) (K.failed self.new.cell.node.keeper) (RisesWith self.old.cell.node self.old.cell.life (mark_for self.old.cell.life packet) (member_of self.old.cell.node) (node_after (member_of self.old.cell.node) (effect_at self.old.cell.node (work_of packet))))) }
        ensures group { IsSameSeat self.old.cell.node self.new.cell.node }
        ensures counted { share.new.amount + length (all_steps self.old.cell.life) ≡ share.old.amount + length (all_steps self.new.cell.life) }
        ensures parts { share.new.parts ≡ share.old.parts }
    {
        let before = recorded(&self.cell.life);
        let answer = self.cell.feed(rt, reading, packet);
        if before < recorded(&self.cell.life) {
            self.book.add(share, 1);
        }
        answer
    }

    /// How many steps are recorded: as many as a share that has every part.
    pub fn all_recorded(&mut self, all: &mut Share<L>) -> usize
        requires { all.old.parts ≡ L.parts }
        ensures { (result ≡ all.old.amount) × (result ≡ length (all_steps self.new.cell.life)) × (all.new.amount ≡ all.old.amount) × (all.new.parts ≡ all.old.parts) × (self.new.cell ≡ self.old.cell) }
    {
        self.book.audit(all);
        recorded(&self.cell.life)
    }

    /// `Cell::told`.
    pub fn told(&self) -> Notice
        ensures told { IsTold (record { node = me_of self.now.cell.node; opening = self.now.cell.life.opening.mark }) L.history (published self.now.cell.publisher) result }
    {
        self.cell.told()
    }

    /// `Cell::take_view`.
    pub fn take_view(&mut self) -> Result<View, Refusal>
        ensures same { (self.new.cell.node ≡ self.old.cell.node) × (self.new.cell.life ≡ self.old.cell.life) }
        ensures publisher { IsSameLife self.old.cell.publisher self.new.cell.publisher × (published self.new.cell.publisher ≡ published self.old.cell.publisher) × (pending self.new.cell.publisher ≡ pending self.old.cell.publisher) }
        ensures given { MatchResult result (λ v. (views_of self.old.cell.publisher < 8) × (views_of self.new.cell.publisher ≡ views_of self.old.cell.publisher + 1)) (λ e. views_of self.new.cell.publisher ≡ views_of self.old.cell.publisher) }
        ensures ninth { 8 ≤ views_of self.old.cell.publisher → result ≡ Err NoView }
        ensures refused { IfErr result (λ e. (e ≡ NoView) ⊎ (e ≡ NoMemory)) }
        ensures life { IfOk result (λ v. (name_seen v ≡ record { node = me_of self.old.cell.node; opening = self.old.cell.life.opening.mark }) × (schema_seen v ≡ tables_of self.old.cell.node) × (book_seen v ≡ L.history)) }
        ensures seen { IfOk result (λ v. seen_by v ≡ published self.old.cell.publisher) }
    {
        self.cell.take_view()
    }

    /// The cell, which no share counts any more.
    pub fn into_cell(self) -> Cell<K>
        ensures { result ≡ self.cell }
    {
        let LockedNode { cell, book: _book } = self;
        cell
    }
}
