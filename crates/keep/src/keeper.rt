//! What each keeper promises.
ghost use Rattle.std.specs.Prelude.{◌≡◌, ◌≤◌, ℕ, Bool, true, false, Option, length, slice_get, IfOk, IfErr, OnOk, OnErr};
ghost use Rattle.model.specs.Transactions.{Language};
ghost use Rattle.sqlread.specs.Meaning.{language_of};
ghost use Rattle.keep.specs.Durable.{Durable, after, tail_of, one_more, IsBeforeOrAfter};
ghost use Rattle.keep.specs.Errors.{IsAnswered};
ghost use Rattle.keep.specs.Log.{IsLog, IsSmall};

use crate::change::Change;
use crate::error::StoreError;
use crate::state::State;
use model::entry::Entry;
use schema::Schema;
use std::alloc::Global;

/// What fetches single entries of a member's log.
///
/// Once a call has answered an error the reader is down: each later call answers `NodeDown`, and only
/// `failures` and `asked` go on.
///
/// What a clause says of the stored state holds while the reader is honest, that is while nothing
/// wrong was taken as true and its store has not shut: a file may give back other bytes than it took, and
/// a store that failed may answer nothing more till it is opened anew. One that is honest after a
/// call was so before it. What an open finds once an honest reader is closed is what is stored, neither
/// more nor less, whether the reader is up or down.
///
/// What else a reader carries, as a journal that is lent to it, its own calls alone change, and each in
/// the same ways: what it came from stays.
pub trait LogReader: Drop {
    /// What is stored. It says something of a reader that is honest.
    ghost stored: { Self → Durable };

    /// Nothing wrong was taken as true so far, and the store has not shut.
    ghost is_honest: { Self → Type 0 };

    /// No call has failed.
    ghost is_up: { Self → Bool };

    /// How often the store has failed.
    ghost failed: { Self → ℕ };

    /// How often an entry was asked for.
    ghost asks: { Self → ℕ };

    /// How often a save was asked for.
    ghost saves: { Self → ℕ };

    /// The limit that the opener set on how long a call may take; none where it set none.
    ghost limit: { Self → Option ℕ };

    /// What the next open may find, once this is closed.
    ghost may_hold: { Self → Durable → Type 0 };

    /// It was opened for a member of a group of so many, over these tables.
    ghost serves: { Self → ℕ → Language → Type 0 };

    /// What it carries besides its store, as it was at some time.
    ghost Origin: { Type 0 };

    /// What it carries besides its store is that still, or came of it by its own calls alone.
    ghost came_from: { Self → Origin → Type 0 };

    /// Reads the entry that has `i` others before it, none past the end of the log, and changes
    /// nothing. `NodeDown` where the reader is down, `StoreFault` where the store fails, `NoMemory`
    /// where memory is refused.
    fn entry(&mut self, alloc: Global, i: usize) -> Result<Option<Entry>, StoreError>
        ensures ok { IfOk result (λ e. is_honest self.new → e ≡ slice_get (stored self.old).log i) }
        ensures same { is_honest self.new → stored self.new ≡ stored self.old }
        ensures answered { IsAnswered (is_up self.old) (is_up self.new) (failed self.old) (failed self.new) result }
        ensures honest { is_honest self.new → is_honest self.old }
        ensures left { (d : Durable) → may_hold self.new d → may_hold self.old d }
        ensures serves { (members : ℕ) (language : Language) → serves self.old members language → serves self.new members language }
        ensures came { (o : Origin) → came_from self.old o → came_from self.new o }
        ensures asks { asks self.new ≡ one_more (asks self.old) }
        ensures saves { saves self.new ≡ saves self.old }
        ensures limit { limit self.new ≡ limit self.old };

    /// How often the store has failed.
    fn failures(&self) -> u64
        ensures { result ≡ failed self.now };

    /// How often `entry` was called, whatever it answered; at its greatest value the count stays.
    fn asked(&self) -> u64
        ensures { result ≡ asks self.now };

    /// How often `save` was called, whatever it answered; at its greatest value the count stays.
    fn saved(&self) -> u64
        ensures { result ≡ saves self.now };

    /// One that is not honest holds nothing that an open finds.
    ghost only_honest: { (k : Self) (d : Durable) → may_hold k d → is_honest k };

    /// An open finds nothing else than what is stored.
    ghost only_stored: { (k : Self) (d : Durable) → may_hold k d → d ≡ stored k };

    /// While it is honest, an open finds what is stored.
    ghost holds_stored: { (k : Self) → is_honest k → may_hold k (stored k) };

    /// That it was opened for such a group is a fact with one proof at most, so that a struct can keep it.
    ghost served_once: { (k : Self) (members : ℕ) (language : Language) → IsProp (serves k members language) };

    /// While it is honest, what is stored forms a log.
    ghost only_logs: { (k : Self) (members : ℕ) (language : Language) → serves k members language → is_honest k → IsLog members language (stored k) };
}

/// Keeps a member's hard state and log over a restart.
///
/// Once `state`, `entry` or `save` has answered an error the keeper is down: each later call of them
/// answers `NodeDown`, and only `failures`, `asked` and `close` go on. Its image, opened again, holds
/// what was stored before that call, or after it where it was a `save`, and never anything else.
pub trait Keeper: LogReader {
    /// What is left of a keeper that is closed, and what the next one opens.
    type Image;

    /// What an open of the image may find.
    ghost holds: { Self.Image → Durable → Type 0 };

    /// What the opener owes of an image, where the keeper does not judge what it finds.
    ghost suits: { Self.Image → ℕ → Language → Type 0 };

    /// The image holds no state of a member of a group of so many with these tables. Of others no open
    /// answers `BadStore`.
    ghost is_bad: { Self.Image → ℕ → Language → Type 0 };

    /// Nothing wrong was taken as true so far, and the store has not shut.
    ghost is_sound: { Self.Image → Type 0 };

    /// The limit that was set on how long a call may take; none where none was set.
    ghost limit_of: { Self.Image → Option ℕ };

    /// Opens what an image holds, for a member of a group of so many with these tables: what is stored
    /// forms a log. `StoreFault` where the store fails, and `NoMemory` where memory is refused. A keeper
    /// over bytes from outside judges what it finds, and answers `BadStore` where that is no state of
    /// such a member. An error gives the image back, and what it holds is as it was, neither more nor less.
    fn open(
        alloc: Global,
        image: Self::Image,
        members: usize,
        schema: &Schema,
    ) -> Result<Self, (StoreError, Self::Image)>
        requires { suits image members (language_of schema.now) }
        ensures up { IfOk result (λ k. Self.LogReader.is_up k ≡ true) }
        ensures found { IfOk result (λ k. Self.LogReader.is_honest k → holds image (Self.LogReader.stored k)) }
        ensures log { IfOk result (λ k. Self.LogReader.is_honest k → IsLog members (language_of schema.now) (Self.LogReader.stored k)) }
        ensures serves { IfOk result (λ k. Self.LogReader.serves k members (language_of schema.now)) }
        ensures fresh { IfOk result (λ k. (Self.LogReader.failed k ≡ 0) × (Self.LogReader.asks k ≡ 0) × (Self.LogReader.saves k ≡ 0)) }
        ensures limit { IfOk result (λ k. Self.LogReader.limit k ≡ limit_of image) }
        ensures back { IfErr result (λ e. (d : Durable) → holds e.1 d → holds image d) }
        ensures kept { IfErr result (λ e. is_sound e.1 → (d : Durable) → holds image d → holds e.1 d) }
        ensures limited { IfErr result (λ e. limit_of e.1 ≡ limit_of image) }
        ensures suits { IfErr result (λ e. suits e.1 members (language_of schema.now)) }
        ensures bad { IfErr result (λ e. e.0 ≡ StoreError.BadStore → is_bad e.1 members (language_of schema.now)) }
        ensures was_bad { IfErr result (λ e. e.0 ≡ StoreError.BadStore → is_sound e.1 → is_bad image members (language_of schema.now)) }
        ensures not_down { IfErr result (λ e. e.0 ≡ StoreError.NodeDown → ⊥) };

    /// Reads the hard state, the length of the log and its last 1,024 entries, or all where there are
    /// fewer, and changes nothing. `NodeDown` where the keeper is down, `StoreFault` where the store
    /// fails, `NoMemory` where memory is refused.
    fn state(&mut self, alloc: Global) -> Result<State, StoreError>
        ensures ok { IfOk result (λ s. Self.LogReader.is_honest self.new → (s.hard ≡ (Self.LogReader.stored self.old).hard) × (s.length ≡ length (Self.LogReader.stored self.old).log) × (s.tail.items ≡ tail_of (Self.LogReader.stored self.old).log)) }
        ensures log { OnOk result (Self.LogReader.is_honest self.new → (members : ℕ) (language : Language) → Self.LogReader.serves self.old members language → IsLog members language (Self.LogReader.stored self.old)) }
        ensures same { Self.LogReader.is_honest self.new → Self.LogReader.stored self.new ≡ Self.LogReader.stored self.old }
        ensures answered { IsAnswered (Self.LogReader.is_up self.old) (Self.LogReader.is_up self.new) (Self.LogReader.failed self.old) (Self.LogReader.failed self.new) result }
        ensures honest { Self.LogReader.is_honest self.new → Self.LogReader.is_honest self.old }
        ensures left { (d : Durable) → Self.LogReader.may_hold self.new d → Self.LogReader.may_hold self.old d }
        ensures serves { (members : ℕ) (language : Language) → Self.LogReader.serves self.old members language → Self.LogReader.serves self.new members language }
        ensures came { (o : Self.LogReader.Origin) → Self.LogReader.came_from self.old o → Self.LogReader.came_from self.new o }
        ensures asks { Self.LogReader.asks self.new ≡ Self.LogReader.asks self.old }
        ensures saves { Self.LogReader.saves self.new ≡ Self.LogReader.saves self.old }
        ensures limit { Self.LogReader.limit self.new ≡ Self.LogReader.limit self.old };

    /// Stores a change, all of it at once. Its errors are those of `state`. After an error what is
    /// stored is what was so before, or what the change makes of it. Owed: the change keeps no more of
    /// the log than there is, its numbers are in range, and what it makes of what is stored forms a log
    /// of a member that the keeper was opened for.
    fn save(&mut self, alloc: Global, change: &Change) -> Result<(), StoreError>
        requires kept { Self.LogReader.is_honest self.old → Self.LogReader.is_up self.old ≡ true → change.now.kept ≤ length (Self.LogReader.stored self.old).log }
        requires small { IsSmall change.now }
        requires log { (members : ℕ) × ((language : Language) × (Self.LogReader.serves self.old members language × (Self.LogReader.is_honest self.old → Self.LogReader.is_up self.old ≡ true → IsLog members language (after change.now (Self.LogReader.stored self.old))))) }
        ensures ok { OnOk result (Self.LogReader.is_honest self.new → Self.LogReader.stored self.new ≡ after change.now (Self.LogReader.stored self.old)) }
        ensures answered { IsAnswered (Self.LogReader.is_up self.old) (Self.LogReader.is_up self.new) (Self.LogReader.failed self.old) (Self.LogReader.failed self.new) result }
        ensures honest { Self.LogReader.is_honest self.new → Self.LogReader.is_honest self.old }
        ensures left { Self.LogReader.is_up self.old ≡ true → (d : Durable) → Self.LogReader.may_hold self.new d → IsBeforeOrAfter (Self.LogReader.stored self.old) (after change.now (Self.LogReader.stored self.old)) d }
        ensures torn { OnErr result (Self.LogReader.is_up self.old ≡ true → Self.LogReader.is_honest self.new → IsBeforeOrAfter (Self.LogReader.stored self.old) (after change.now (Self.LogReader.stored self.old)) (Self.LogReader.stored self.new)) }
        ensures still { Self.LogReader.is_up self.old ≡ false → Self.LogReader.is_honest self.new → Self.LogReader.stored self.new ≡ Self.LogReader.stored self.old }
        ensures late { Self.LogReader.is_up self.old ≡ false → (d : Durable) → Self.LogReader.may_hold self.new d → Self.LogReader.may_hold self.old d }
        ensures serves { (members : ℕ) (language : Language) → Self.LogReader.serves self.old members language → (Self.LogReader.is_honest self.old → Self.LogReader.is_up self.old ≡ true → IsLog members language (after change.now (Self.LogReader.stored self.old))) → Self.LogReader.serves self.new members language }
        ensures came { (o : Self.LogReader.Origin) → Self.LogReader.came_from self.old o → Self.LogReader.came_from self.new o }
        ensures asks { Self.LogReader.asks self.new ≡ Self.LogReader.asks self.old }
        ensures saves { Self.LogReader.saves self.new ≡ one_more (Self.LogReader.saves self.old) }
        ensures limit { Self.LogReader.limit self.new ≡ Self.LogReader.limit self.old };

    /// Gives the image up, which holds what the keeper stored, neither more nor less. It answers also after
    /// an error.
    fn close(self) -> Self::Image
        ensures holds { (d : Durable) → holds result d → Self.LogReader.may_hold self d }
        ensures kept { (d : Durable) → Self.LogReader.may_hold self d → holds result d }
        ensures good { (members : ℕ) (language : Language) → Self.LogReader.serves self members language → Self.LogReader.is_honest self → is_bad result members language → ⊥ }
        ensures sound { is_sound result → Self.LogReader.is_honest self }
        ensures limit { limit_of result ≡ Self.LogReader.limit self }
        ensures suits { (members : ℕ) (language : Language) → Self.LogReader.serves self members language → suits result members language };

    /// Only a sound image holds anything.
    ghost only_sound: { (i : Self.Image) (d : Durable) → holds i d → is_sound i };

    /// An image holds one state at most.
    ghost holds_one: { (i : Self.Image) (d : Durable) (e : Durable) → holds i d → holds i e → d ≡ e };

    /// One that holds a log of a member is not bad for that member.
    ghost never_bad: { (i : Self.Image) (members : ℕ) (language : Language) (d : Durable) → holds i d → IsLog members language d → is_bad i members language → ⊥ };
}
