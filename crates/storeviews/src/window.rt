//! What is shown of one life of a member.
ghost use Rattle.std.specs.Prelude.{◌≡◌, ◌≢◌, ◌⊎◌, ◌<◌, ◌≤◌, ◌+◌, ℕ, [], ◌∷◌, ◌++◌, length, slice_get, false, Some, None, Err, IfOk, IfErr, IfSome, OnOk, OnErr, MatchBool, MatchOption, MatchResult};
ghost use Rattle.std.specs.Option.{ForSome};
ghost use Rattle.fault.specs.declared.refusal.Refusal.TheVariants.{NoMemory, NoView};
ghost use Rattle.model.specs.Lists.{IsBeginning};
ghost use Rattle.history.specs.Items.{entries_in, closed_in};
ghost use Rattle.journal.specs.Digests.{digest_of};
ghost use Rattle.view.specs.Publishing.{published, pending, name_of, schema_of, book_of, given_of, IsSameLife};
ghost use Rattle.view.specs.Viewing.{seen_by, name_seen, schema_seen, book_seen};
ghost use Rattle.store.specs.Applied.{found, IsKept, IsSince, SaysDown};
ghost use Rattle.storeviews.specs.Listing.{listed, items_since, marked, marked_rise};

use crate::times::{is_below, risen};
use fault::Refusal;
use history::Item;
use journal::digest::{BLANK_DIGEST, next_digest};
use model::entry::Entry;
use model::mark::Mark;
use model::stamp::Stamp;
use schema::Schema;
use std::alloc::{AllocError, Global};
use std::sync::Wait;
use store::announcing::Announces;
use store::since::Since;
use store::{Store, StoreRefusal};
use view::{Name, Publisher, View};

/// What is shown of one life of a member. End it by `stop`: views of one that is dropped still answer.
#[derive(Drop)]
pub struct Window {
    alloc: Global,
    pub publisher: Publisher,
    /// How many entries were given to the publisher.
    count: usize,
    /// The digest of these, as journals have it.
    digest: [u8; 32],
    pub ghost counted: { count ≡ length (entries_in (listed publisher)) },
    pub ghost digested: { digest ≡ digest_of (entries_in (listed publisher)) },
}

// What the member that has so many before it has applied after the first entries, as `Store::applied_since` gives it.
#[tactic(auto, using(crate::proofs::Places::before_next))]
fn since_at<K: Announces>(
    store: &mut Store<K>,
    at: usize,
    after: usize,
) -> Result<Option<Since>, StoreRefusal>
where
    K::Image: Drop,
    requires { at < usize.MAX }
    ensures since { IfOk result (λ r. IfSome r (λ since. MatchOption (found store.new.seats.items at (λ seat. seat.node)) ⊥ (λ n. IsSince K.is_honest n after since))) }
    ensures none { IfOk result (λ r. r ≡ None → ForSome (found store.new.seats.items at (λ seat. seat.node)) (λ n. n.is_up ≡ false)) }
    ensures others { (i : ℕ) → i ≢ at → slice_get store.new.seats.items i ≡ slice_get store.old.seats.items i }
    ensures kept { OnOk result ((i : ℕ) → IsKept K.is_honest (found store.old.seats.items i (λ seat. seat.node)) (found store.new.seats.items i (λ seat. seat.node))) }
    ensures rest { OnOk result (store.new ≡ record store.old { seats = store.new.seats }) }
    ensures why { IfErr result (λ refusal. SaysDown refusal → ⊥) }
{
    store.applied_since(at + 1, after)
}

impl Window {
    ghost use Rattle.storeviews.specs.Showing.{list_of, shown_of, GoesOn, IsBrought, IsLater, IsSameWindow, IsStill};

    /// That of a life of this name, of which nothing is shown yet. The error is want of memory.
    pub(crate) fn start<R: Wait>(
        rt: &R,
        alloc: Global,
        name: Name,
        schema: Schema,
    ) -> Result<Window, AllocError>
        ensures life { IfOk result (λ w. (name_of w.publisher ≡ name) × (schema_of w.publisher ≡ schema) × (given_of w.publisher ≡ 0)) }
        ensures none { IfOk result (λ w. (list_of w ≡ []) × (shown_of w ≡ [])) }
    {
        let publisher = Publisher::start(rt, alloc, name, schema)?;
        Ok(Window {
            alloc,
            publisher,
            count: 0,
            digest: BLANK_DIGEST,
        })
    }

    // Puts an entry at the end of what is pending. 36 where there are as many as can be counted, 43 for want of memory, 44 where it may
    // not come after what was given before: these change nothing.
    #[tactic(auto, using(crate::proofs::Listing::joined, crate::proofs::Listing::counted_one, crate::proofs::Listing::digested_one))]
    fn append(&mut self, mark: Mark, entry: Entry) -> Result<(), Refusal>
        ensures ok { OnOk result (list_of self.new ≡ list_of self.old ++ Item.Applied mark entry ∷ []) }
        ensures err { OnErr result (list_of self.new ≡ list_of self.old) }
        ensures same { IsSameWindow self.old self.new × (shown_of self.new ≡ shown_of self.old) }
        ensures why { IfErr result (λ refusal. refusal ≡ Refusal.NodeDown → ⊥) }
    {
        let Some(count) = self.count.checked_add(1) else {
            return Err(Refusal::LogFull);
        };
        let digest = next_digest(self.alloc, &self.digest, &entry)?;
        let item = Item::Applied { mark, entry };
        if !item.follows(self.publisher.closed()) {
            return Err(Refusal::BadStore);
        }
        self.publisher.append(item)?;
        self.count = count;
        self.digest = digest;
        Ok(())
    }

    // Puts the entries at the end of what is pending, in their order and each with this mark. After a refusal some of them may be there.
    fn append_all(&mut self, mark: Mark, entries: &[Entry]) -> Result<(), Refusal>
        ensures ok { OnOk result (list_of self.new ≡ list_of self.old ++ marked mark entries.now) }
        ensures grows { IsBeginning (list_of self.old) (list_of self.new) }
        ensures same { IsSameWindow self.old self.new × (shown_of self.new ≡ shown_of self.old) }
        ensures why { IfErr result (λ refusal. refusal ≡ Refusal.NodeDown → ⊥) }
    {
        for entry in entries {
            let entry = entry.clone()?;
            self.append(mark, entry)?;
        }
        Ok(())
    }

    // Puts the closed time at the end of what is pending, where that is above what is closed there. 44 where it is below that, 43 for
    // want of memory: these change nothing.
    #[tactic(auto, using(crate::proofs::Listing::joined, crate::proofs::Listing::closes, crate::proofs::Listing::rises_parts))]
    fn close(&mut self, mark: Mark, closed: Option<Stamp>) -> Result<(), Refusal>
        ensures ok { OnOk result (list_of self.new ≡ list_of self.old ++ marked_rise mark (closed_in (list_of self.old)) closed) }
        ensures closed { OnOk result (closed_in (list_of self.new) ≡ closed) }
        ensures err { OnErr result (list_of self.new ≡ list_of self.old) }
        ensures same { IsSameWindow self.old self.new × (shown_of self.new ≡ shown_of self.old) }
        ensures why { IfErr result (λ refusal. refusal ≡ Refusal.NodeDown → ⊥) }
    {
        let shown = self.publisher.closed();
        if is_below(&closed, &shown) {
            return Err(Refusal::BadStore);
        }
        if let Some(time) = risen(shown, closed) {
            self.publisher.append(Item::Sealed { mark, time })?;
        }
        Ok(())
    }

    // Shows what a member has applied and closed since, with this mark. 43 for want of memory and 44 where stamps do not rise; what is
    // shown stays then.
    fn show<R: Wait>(&mut self, rt: &R, mark: Mark, since: &Since) -> Result<(), Refusal>
        ensures ok { OnOk result ((shown_of self.new ≡ list_of self.old ++ items_since mark (list_of self.old) since.now) × (list_of self.new ≡ shown_of self.new)) }
        ensures closed { OnOk result (closed_in (shown_of self.new) ≡ since.now.closed) }
        ensures err { OnErr result (shown_of self.new ≡ shown_of self.old) }
        ensures same { IsSameWindow self.old self.new }
        ensures why { IfErr result (λ refusal. refusal ≡ Refusal.NodeDown → ⊥) }
    {
        self.append_all(mark, &since.entries)?;
        self.close(mark, since.closed)?;
        self.publisher.publish(rt)?;
        Ok(())
    }

    // Whether a member that has this since goes on with what was given to the publisher: of the entries that it has applied these are the
    // first, by their digest, and it closes no less.
    fn goes_on(&self, since: &Since) -> bool
        ensures { MatchBool result (GoesOn self.now since.now) (GoesOn self.now since.now → ⊥) }
    {
        if since.applied < self.count {
            return false;
        }
        if since.digest != self.digest {
            return false;
        }
        let shown = self.publisher.closed();
        !is_below(&since.closed, &shown)
    }

    // Shows what its member has since, or ends where that does not go on with what was shown, or for the reason of 44.
    #[tactic(auto, using(crate::proofs::Bringing::later_same, crate::proofs::Bringing::still_same))]
    fn go_on<R: Wait>(
        mut self,
        rt: &R,
        mark: Mark,
        since: &Since,
    ) -> (Option<Window>, Result<(), StoreRefusal>)
        ensures shows { OnOk result.1 (ForSome result.0 (λ w. GoesOn self since.now × (shown_of w ≡ list_of self ++ items_since mark (list_of self) since.now) × (list_of w ≡ shown_of w) × (closed_in (shown_of w) ≡ since.now.closed))) }
        ensures ended { OnOk result.1 (result.0 ≡ None → GoesOn self since.now → ⊥) }
        ensures failed { IfErr result.1 (λ refusal. (refusal ≡ StoreRefusal.Refused Refusal.BadStore → ⊥) → IsStill (Some self) result.0) }
        ensures later { IsLater (Some self) result.0 }
        ensures why { IfErr result.1 (λ refusal. SaysDown refusal → ⊥) }
    {
        if !self.goes_on(since) {
            self.stop(rt);
            return (None, Ok(()));
        }
        match self.show(rt, mark, since) {
            Ok(()) => (Some(self), Ok(())),
            Err(Refusal::BadStore) => {
                self.stop(rt);
                (None, Err(StoreRefusal::Refused(Refusal::BadStore)))
            }
            Err(refusal) => (Some(self), Err(StoreRefusal::Refused(refusal))),
        }
    }

    /// Shows what the member has applied and closed since that has `at` others before it, with this mark; none, and its views are refused 45
    /// from then on, where the member is not up, or has applied or closed less than was shown, or other entries.
    ///
    /// What `Store::applied_since` refuses, and 43 for want of memory: what is shown stays then. 44 where stamps do not rise in what the
    /// member has, and nothing is shown any more then.
    #[tactic(auto, using(crate::proofs::Bringing::brought_at, crate::proofs::Bringing::ended_at, crate::proofs::Bringing::down_at, crate::proofs::Bringing::later_same, crate::proofs::Bringing::still_same))]
    pub(crate) fn bring<K: Announces, R: Wait>(
        self,
        rt: &R,
        store: &mut Store<K>,
        at: usize,
        mark: Mark,
    ) -> (Option<Window>, Result<(), StoreRefusal>)
    where
        K::Image: Drop,
        requires { at < usize.MAX }
        ensures brought { OnOk result.1 (IsBrought K.is_honest (found store.new.seats.items at (λ seat. seat.node)) (Some self) result.0) }
        ensures failed { IfErr result.1 (λ refusal. (refusal ≡ StoreRefusal.Refused Refusal.BadStore → ⊥) → IsStill (Some self) result.0) }
        ensures later { IsLater (Some self) result.0 }
        ensures why { IfErr result.1 (λ refusal. SaysDown refusal → ⊥) }
        ensures others { (i : ℕ) → i ≢ at → slice_get store.new.seats.items i ≡ slice_get store.old.seats.items i }
        ensures kept { OnOk result.1 ((i : ℕ) → IsKept K.is_honest (found store.old.seats.items i (λ seat. seat.node)) (found store.new.seats.items i (λ seat. seat.node))) }
        ensures rest { OnOk result.1 (store.new ≡ record store.old { seats = store.new.seats }) }
    {
        match since_at(store, at, self.count) {
            Ok(Some(since)) => self.go_on(rt, mark, &since),
            Ok(None) => {
                self.stop(rt);
                (None, Ok(()))
            }
            Err(refusal) => (Some(self), Err(refusal)),
        }
    }

    /// A view that has seen what is shown. 45 once eight were taken, 43 for want of memory; a refusal changes nothing.
    pub(crate) fn take_view(&mut self) -> Result<View, Refusal>
        ensures same { IsSameLife self.old.publisher self.new.publisher × (list_of self.new ≡ list_of self.old) × (shown_of self.new ≡ shown_of self.old) }
        ensures given { MatchResult result (λ v. (given_of self.old.publisher < 8) × (given_of self.new.publisher ≡ given_of self.old.publisher + 1)) (λ e. given_of self.new.publisher ≡ given_of self.old.publisher) }
        ensures ninth { 8 ≤ given_of self.old.publisher → result ≡ Err NoView }
        ensures refused { IfErr result (λ e. (e ≡ NoView) ⊎ (e ≡ NoMemory)) }
        ensures life { IfOk result (λ v. (name_seen v ≡ name_of self.old.publisher) × (schema_seen v ≡ schema_of self.old.publisher) × (book_seen v ≡ book_of self.old.publisher)) }
        ensures seen { IfOk result (λ v. seen_by v ≡ shown_of self.old) }
    {
        self.publisher.take_view()
    }

    /// Ends it: its views are refused 45 from then on.
    pub(crate) fn stop<R: Wait>(self, rt: &R) {
        let Window {
            alloc: _,
            publisher,
            count: _,
            digest: _,
        } = self;
        publisher.stop(rt);
    }
}
