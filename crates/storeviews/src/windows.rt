//! What is shown of the members of an open store.
ghost use Rattle.std.specs.Prelude.{◌≡◌, ◌≢◌, ◌⊎◌, ◌<◌, ◌-◌, ◌+◌, ℕ, None, IfOk, IfErr, OnOk, OnErr, MatchBool, MatchOption, length, slice_get, vec_len};
ghost use Rattle.std.specs.Option.{ForSome};
ghost use Rattle.store.specs.Applied.{found, IsKept, SaysDown};
ghost use Rattle.sqlchecks.specs.Columns.{Tables};
ghost use Rattle.view.specs.Viewing.{seen_by, name_seen, schema_seen};
ghost use Rattle.storeviews.specs.Showing.{window_in, AreOf, IsBrought, IsDown, IsLater, IsLive, IsOf, IsShown, IsStill, IsViewOf};

use crate::window::Window;
use fault::Refusal;
use model::mark::Mark;
use model::member::Member;
use std::alloc::{AllocError, Global};
use std::sync::Wait;
use store::announcing::Announces;
use store::{Store, StoreRefusal};
use view::{Name, View};

/// What is shown of the members of an open store, for views that answer on threads of their own and wait for nobody. It stands beside its
/// store: `publish` brings it up to what each member has applied and closed since. It is of one store; the views of another one's members
/// are other values.
///
/// End it by `stop`: views of one that is dropped still answer from what it showed.
#[derive(Drop)]
pub struct Windows {
    alloc: Global,
    /// That of each member, in their order, where a view was asked for in its present life.
    windows: Vec<Option<Window>>,
    /// The last mark that was given out.
    last: u64,
}

impl Windows {
    /// For a store of so many members, of none of which anything is shown yet. The error is want of memory.
    #[tactic(auto, using(crate::proofs::Places::found_none))]
    pub fn new(alloc: Global, members: usize) -> Result<Windows, AllocError>
        ensures members { IfOk result (λ w. length w.windows.items ≡ members) }
        ensures none { IfOk result (λ w. (at : ℕ) → window_in w at ≡ None) }
        ensures mark { IfOk result (λ w. w.last ≡ 0) }
    {
        let mut windows = Vec::new(alloc);
        while windows.len() < members {
            windows.push(None)?;
        }
        Ok(Windows {
            alloc,
            windows,
            last: 0,
        })
    }

    // The next mark. 42 where none is left.
    fn next_mark(&mut self) -> Result<Mark, Refusal>
        ensures next { IfOk result (λ mark. (mark ≡ self.old.last + 1) × (self.new.last ≡ mark)) }
        ensures refused { IfErr result (λ refusal. refusal ≡ Refusal.LifeFull) }
        ensures same { self.new ≡ record self.old { last = self.new.last } }
    {
        let Some(mark) = Mark::after(self.last) else {
            return Err(Refusal::LifeFull);
        };
        self.last = mark.number();
        Ok(mark)
    }

    // How many members stand before one. 41 where there is no such member.
    fn place_of(&self, member: Member) -> Result<usize, Refusal>
        ensures place { IfOk result (λ at. (member ≡ at + 1) × (at < vec_len self.now.windows)) }
        ensures none { OnErr result ((member ≡ 0) ⊎ (vec_len self.now.windows < member)) }
    {
        if member == 0 || member > self.windows.len() {
            return Err(Refusal::NodeDown);
        }
        Ok(member - 1)
    }

    // Takes out what is shown of the member that has so many before it, if anything is.
    #[tactic(auto, using(crate::proofs::Places::found_there, crate::proofs::Places::found_written, crate::proofs::Places::found_others))]
    fn take(&mut self, at: usize) -> Option<Window>
        requires { at < vec_len self.old.windows }
        ensures taken { result ≡ window_in self.old at }
        ensures none { window_in self.new at ≡ None }
        ensures others { (i : ℕ) → i ≢ at → window_in self.new i ≡ window_in self.old i }
        ensures same { (vec_len self.new.windows ≡ vec_len self.old.windows) × (self.new.last ≡ self.old.last) }
    {
        self.windows[at].take()
    }

    // Puts what is shown of the member that has so many before it.
    #[tactic(auto, using(crate::proofs::Places::found_written, crate::proofs::Places::found_others))]
    fn put(&mut self, at: usize, window: Option<Window>)
        requires { at < vec_len self.old.windows }
        ensures put { window_in self.new at ≡ window }
        ensures others { (i : ℕ) → i ≢ at → window_in self.new i ≡ window_in self.old i }
        ensures same { (vec_len self.new.windows ≡ vec_len self.old.windows) × (self.new.last ≡ self.old.last) }
    {
        self.windows[at] = window;
    }

    // Brings up what is shown of the member that has so many before it, if anything is.
    fn bring<K: Announces, R: Wait>(
        &mut self,
        rt: &R,
        store: &mut Store<K>,
        at: usize,
        mark: Mark,
    ) -> Result<(), StoreRefusal>
    where
        K::Image: Drop,
        requires { at < vec_len self.old.windows }
        ensures brought { OnOk result (IsBrought K.is_honest (found store.new.seats.items at (λ seat. seat.node)) (window_in self.old at) (window_in self.new at)) }
        ensures failed { IfErr result (λ refusal. (refusal ≡ StoreRefusal.Refused Refusal.BadStore → ⊥) → IsStill (window_in self.old at) (window_in self.new at)) }
        ensures later { IsLater (window_in self.old at) (window_in self.new at) }
        ensures why { IfErr result (λ refusal. SaysDown refusal → ⊥) }
        ensures others { (i : ℕ) → i ≢ at → window_in self.new i ≡ window_in self.old i }
        ensures seats { (i : ℕ) → i ≢ at → slice_get store.new.seats.items i ≡ slice_get store.old.seats.items i }
        ensures kept { OnOk result ((i : ℕ) → IsKept K.is_honest (found store.old.seats.items i (λ seat. seat.node)) (found store.new.seats.items i (λ seat. seat.node))) }
        ensures rest { OnOk result (store.new ≡ record store.old { seats = store.new.seats }) }
        ensures same { (vec_len self.new.windows ≡ vec_len self.old.windows) × (self.new.last ≡ self.old.last) }
    {
        match self.take(at) {
            Some(window) => {
                let (window, result) = window.bring(rt, store, at, mark);
                self.put(at, window);
                result
            }
            None => Ok(()),
        }
    }

    /// Shows what each member of which a view was taken in its present life has applied and closed since. It costs what is new.
    ///
    /// Where such a member is not up the life has ended, and its views are refused 45 from then on; so it has where the member was stopped
    /// and started, and has applied or closed less since than was shown, or other entries. As long as it has no less, its views go on.
    ///
    /// What `Store::applied_since` refuses; 43 for want of memory; 42 where no mark is left. Of each member is shown what was, or what it has:
    /// a later call goes on. 44 where stamps do not rise in what a member has, of which nothing is shown any more then.
    pub fn publish<K: Announces, R: Wait>(
        &mut self,
        rt: &R,
        store: &mut Store<K>,
    ) -> Result<(), StoreRefusal>
    where
        K::Image: Drop,
        ensures brought { OnOk result ((at : ℕ) → IsBrought K.is_honest (found store.new.seats.items at (λ seat. seat.node)) (window_in self.old at) (window_in self.new at)) }
        ensures failed { IfErr result (λ refusal. (refusal ≡ StoreRefusal.Refused Refusal.BadStore → ⊥) → (at : ℕ) → IsBrought K.is_honest (found store.new.seats.items at (λ seat. seat.node)) (window_in self.old at) (window_in self.new at) ⊎ IsStill (window_in self.old at) (window_in self.new at)) }
        ensures later { (at : ℕ) → IsLater (window_in self.old at) (window_in self.new at) }
        ensures kept { OnOk result ((i : ℕ) → IsKept K.is_honest (found store.old.seats.items i (λ seat. seat.node)) (found store.new.seats.items i (λ seat. seat.node))) }
        ensures rest { OnOk result (store.new ≡ record store.old { seats = store.new.seats }) }
        ensures why { IfErr result (λ refusal. SaysDown refusal → ⊥) }
    {
        let mark = self.next_mark()?;
        self.bring_all(rt, store, mark)
    }

    // Brings up what is shown of each member of which anything is.
    fn bring_all<K: Announces, R: Wait>(
        &mut self,
        rt: &R,
        store: &mut Store<K>,
        mark: Mark,
    ) -> Result<(), StoreRefusal>
    where
        K::Image: Drop,
        ensures brought { OnOk result ((at : ℕ) → IsBrought K.is_honest (found store.new.seats.items at (λ seat. seat.node)) (window_in self.old at) (window_in self.new at)) }
        ensures failed { IfErr result (λ refusal. (refusal ≡ StoreRefusal.Refused Refusal.BadStore → ⊥) → (at : ℕ) → IsBrought K.is_honest (found store.new.seats.items at (λ seat. seat.node)) (window_in self.old at) (window_in self.new at) ⊎ IsStill (window_in self.old at) (window_in self.new at)) }
        ensures later { (at : ℕ) → IsLater (window_in self.old at) (window_in self.new at) }
        ensures kept { OnOk result ((i : ℕ) → IsKept K.is_honest (found store.old.seats.items i (λ seat. seat.node)) (found store.new.seats.items i (λ seat. seat.node))) }
        ensures rest { OnOk result (store.new ≡ record store.old { seats = store.new.seats }) }
        ensures why { IfErr result (λ refusal. SaysDown refusal → ⊥) }
    {
        for at in 0..self.windows.len() {
            if let Err(refusal) = self.bring(rt, store, at, mark) {
                return Err(refusal);
            }
        }
        Ok(())
    }

    // Begins to show the member that has so many before it, of which nothing is shown yet.
    fn begin<K: Announces, R: Wait>(
        &mut self,
        rt: &R,
        store: &mut Store<K>,
        at: usize,
        mark: Mark,
    ) -> Result<(), StoreRefusal>
    where
        K::Image: Drop,
        requires { at < vec_len self.old.windows }
        ensures live { OnOk result (IsLive K.is_honest (found store.new.seats.items at (λ seat. seat.node)) (window_in self.new at)) }
        ensures of { IsOf store.old.schema at (window_in self.old at) → IsOf store.old.schema at (window_in self.new at) }
        ensures kept { OnOk result ((i : ℕ) → IsKept K.is_honest (found store.old.seats.items i (λ seat. seat.node)) (found store.new.seats.items i (λ seat. seat.node))) }
        ensures rest { OnOk result (store.new ≡ record store.old { seats = store.new.seats }) }
        ensures why { IfErr result (λ refusal. SaysDown refusal → ⊥) }
        ensures others { (i : ℕ) → i ≢ at → window_in self.new i ≡ window_in self.old i }
        ensures same { (vec_len self.new.windows ≡ vec_len self.old.windows) × (self.new.last ≡ self.old.last) }
    {
        let name = Name {
            node: at + 1,
            opening: mark,
        };
        let schema = store.schema().clone()?;
        let window = Window::start(rt, self.alloc, name, schema)?;
        let (window, result) = window.bring(rt, store, at, mark);
        self.put(at, window);
        result
    }

    // Whether anything is shown of the member that has so many before it.
    #[tactic(auto, using(crate::proofs::Places::found_there))]
    fn is_shown(&self, at: usize) -> bool
        requires { at < vec_len self.now.windows }
        ensures { MatchBool result (MatchOption (window_in self.now at) ⊥ (λ _. Unit {0})) (window_in self.now at ≡ None) }
    {
        self.windows[at].is_some()
    }

    // Brings up what is shown of a member's present life, which may begin with this.
    fn go_live<K: Announces, R: Wait>(
        &mut self,
        rt: &R,
        store: &mut Store<K>,
        at: usize,
        mark: Mark,
    ) -> Result<(), StoreRefusal>
    where
        K::Image: Drop,
        requires { at < vec_len self.old.windows }
        ensures live { OnOk result (IsLive K.is_honest (found store.new.seats.items at (λ seat. seat.node)) (window_in self.new at)) }
        ensures of { IsOf store.old.schema at (window_in self.old at) → IsOf store.old.schema at (window_in self.new at) }
        ensures kept { OnOk result ((i : ℕ) → IsKept K.is_honest (found store.old.seats.items i (λ seat. seat.node)) (found store.new.seats.items i (λ seat. seat.node))) }
        ensures rest { OnOk result (store.new ≡ record store.old { seats = store.new.seats }) }
        ensures why { IfErr result (λ refusal. SaysDown refusal → ⊥) }
        ensures others { (i : ℕ) → i ≢ at → window_in self.new i ≡ window_in self.old i }
        ensures same { (vec_len self.new.windows ≡ vec_len self.old.windows) × (self.new.last ≡ self.old.last) }
    {
        self.bring(rt, store, at, mark)?;
        if self.is_shown(at) {
            return Ok(());
        }
        self.begin(rt, store, at, mark)
    }

    // A view of what is shown of the member that has so many before it. 41 where nothing is.
    fn give(&mut self, at: usize) -> Result<View, Refusal>
        requires { at < vec_len self.old.windows }
        ensures seen { IfOk result (λ v. MatchOption (window_in self.old at) ⊥ (λ w. IsViewOf w v)) }
        ensures down { IfErr result (λ refusal. refusal ≡ Refusal.NodeDown → window_in self.old at ≡ None) }
        ensures of { (tables : Tables) → IsOf tables at (window_in self.old at) → IsOf tables at (window_in self.new at) }
        ensures others { (i : ℕ) → i ≢ at → window_in self.new i ≡ window_in self.old i }
    {
        match &mut self.windows[at] {
            Some(window) => window.take_view(),
            None => Err(Refusal::NodeDown),
        }
    }

    /// A view of a member's present life, which has seen all that the member has applied and closed. It goes to any thread, and sees more
    /// with each `publish`.
    ///
    /// 41 where the member is not up, or there is none; 45 where eight views of this life were taken, of which none comes back; what `publish`
    /// refuses of it.
    pub fn view<K: Announces, R: Wait>(
        &mut self,
        rt: &R,
        store: &mut Store<K>,
        member: Member,
    ) -> Result<View, StoreRefusal>
    where
        K::Image: Drop,
        ensures shown { IfOk result (λ v. IsShown K.is_honest (found store.new.seats.items (member - 1) (λ seat. seat.node)) (seen_by v)) }
        ensures down { IfErr result (λ refusal. SaysDown refusal → (member ≡ 0) ⊎ (length self.old.windows.items < member) ⊎ ForSome (found store.new.seats.items (member - 1) (λ seat. seat.node)) (λ n. IsDown K.is_honest n)) }
        ensures life { AreOf store.old.schema self.old → IfOk result (λ v. (schema_seen v ≡ store.old.schema) × ((name_seen v).node ≡ member)) }
        ensures of { AreOf store.old.schema self.old → AreOf store.old.schema self.new }
        ensures kept { OnOk result ((i : ℕ) → IsKept K.is_honest (found store.old.seats.items i (λ seat. seat.node)) (found store.new.seats.items i (λ seat. seat.node))) }
        ensures rest { OnOk result (store.new ≡ record store.old { seats = store.new.seats }) }
        ensures others { (i : ℕ) → i ≢ member - 1 → window_in self.new i ≡ window_in self.old i }
    {
        let at = self.place_of(member)?;
        let mark = self.next_mark()?;
        self.go_live(rt, store, at, mark)?;
        match self.give(at) {
            Ok(view) => Ok(view),
            Err(refusal) => Err(StoreRefusal::Refused(refusal)),
        }
    }

    /// Ends all: views are refused 45 from then on.
    pub fn stop<R: Wait>(self, rt: &R) {
        let Windows {
            alloc: _,
            windows,
            last: _,
        } = self;
        for window in windows {
            if let Some(window) = window {
                window.stop(rt);
            }
        }
    }
}
