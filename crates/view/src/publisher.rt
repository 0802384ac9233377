//! The end at which a life publishes.
ghost use Rattle.std.specs.Prelude.{◌≡◌, ◌⊎◌, ◌≤◌, ◌<◌, ◌+◌, [], ◌∷◌, ◌++◌, take, drop, slice_get, vec_len, Some, Err, IfOk, IfErr, OnOk, MatchResult};
ghost use Rattle.std.specs.Arc.{arc_value};
ghost use Rattle.left_right.specs.Sides.{view};
ghost use Rattle.fault.specs.declared.refusal.Refusal.TheVariants.{NoMemory, NoView};
ghost use Rattle.history.specs.Items.{Follows, Rises, closed_in};
ghost use Rattle.history.specs.Once.{rises_prop};
ghost use Rattle.view.specs.Lists.{ArePlaced, IsGrown};
ghost use Rattle.view.specs.Rules.{named_book};

use crate::published::{Desk, Items, Place, Published, Shown};
use crate::replay::Replay;
use crate::rule::{Named, Notes, Sees};
use crate::told::{Name, Notice};
use crate::view::View;
use boxcar::table::Table;
use boxcar::tag::Tag;
use core::mem::{ManuallyDrop, replace_with};
use fault::Refusal;
use history::{Front, History, Item};
use model::stamp::Stamp;
use schema::Schema;
use std::alloc::{AllocError, Global};
use std::sync::{Arc, Wait};

/// How many views a life gives.
pub const VIEWS: usize = 8;

/// What a life publishes: a list of items, of which the first are published and the others pending. No entry in it is
/// stamped at or below what is closed by the items before it. End it by `stop`; views of one that is dropped still answer,
/// and it keeps the memory of two tokens, since only a call that may wait for views could give that back.
pub struct Publisher {
    alloc: Global,
    name: Name,
    schema: Schema,
    list: Arc<Items>,
    writer: Desk,
    /// All that was appended.
    items: Vec<Item>,
    /// The closed time of that.
    closed: Option<Stamp>,
    /// How many of the items are published.
    shown: usize,
    /// Where the first of them stand in the list that views read.
    places: Vec<Place>,
    history: History,
    /// Of no items.
    origin: Front,
    /// How many views were taken.
    given: usize,
    ghost named: { named_book (arc_value list).tag ≡ history.front.seen.book },
    ghost placed: { ArePlaced (arc_value list) items.items places.items },
    ghost grown: { IsGrown (vec_len places) items.items history.front.count history.front.seen.log },
    ghost told: { (shown ≤ vec_len places) × (writer.desk.shown.value.front.seen.log ≡ take shown items.items) × (writer.desk.shown.value.front.seen.book ≡ history.front.seen.book) },
    ghost known: { view writer.desk.place ≡ Some writer.desk.shown.value.front },
    ghost settled: { drop writer.behind writer.log.items ≡ [] },
    ghost empty: { (origin.seen.log ≡ []) × (origin.seen.book ≡ history.front.seen.book) },
    ghost closing: { closed ≡ closed_in items.items },
    pub ghost rising: { Rises items.items } by { rises_prop _ _ },
}

impl Drop for Publisher {
    fn drop(self) {
        let Publisher {
            alloc: _,
            name: _,
            schema: _schema,
            list: _list,
            writer,
            items: _items,
            closed: _,
            shown: _,
            places: _places,
            history: _history,
            origin: _origin,
            given: _,
        } = self;
        // It is not dropped, so that nothing is freed which a view may still read.
        let _kept = unsafe { ManuallyDrop::new_unchecked(writer) };
    }
}

impl Publisher {
    ghost use Rattle.view.specs.Publishing.{published, pending, name_of, schema_of, book_of, given_of, IsSameLife};
    ghost use Rattle.view.specs.Viewing.{seen_by, IsTold, name_seen, schema_seen, book_seen};

    /// A life of this name that has published nothing, of a node with this schema. It waits for nobody, since nobody has a
    /// view yet. The error is want of memory.
    pub fn start<R: Wait>(
        rt: &R,
        alloc: Global,
        name: Name,
        schema: Schema,
    ) -> Result<Publisher, AllocError>
        ensures life { IfOk result (λ p. (name_of p ≡ name) × (schema_of p ≡ schema) × (given_of p ≡ 0)) }
        ensures none { IfOk result (λ p. (published p ≡ []) × (pending p ≡ [])) }
    {
        let history = History::new();
        let origin = history.front.again();
        let list = Arc::new(alloc, Table::new(alloc, Tag::of::<Front, Named>(&origin))?)?;
        let first = Published {
            front: history.front.again(),
        };
        let second = Published {
            front: history.front.again(),
        };
        let writer = Desk::new(alloc, first, second, VIEWS)?;
        let (writer, _done) = writer.publish_as::<Sees, R>(rt);
        Ok(Publisher {
            alloc,
            name,
            schema,
            list,
            writer,
            items: Vec::new(alloc),
            closed: None,
            shown: 0,
            places: Vec::new(alloc),
            history,
            origin,
            given: 0,
        })
    }

    /// Ends the life. It may wait for a view that reads how much is published. From then on `View::ask` is refused 45.
    pub fn stop<R: Wait>(self, rt: &R) {
        let Publisher {
            alloc: _,
            name: _,
            schema: _schema,
            list: _list,
            writer,
            items: _items,
            closed: _,
            shown: _,
            places: _places,
            history: _history,
            origin: _origin,
            given: _,
        } = self;
        drop(writer.take(rt));
    }

    /// A view that has seen what is published. 45 once eight were taken, of which none comes back, or where there is no
    /// reader; 43 for want of memory. A refusal changes nothing.
    pub fn take_view(&mut self) -> Result<View, Refusal>
        ensures same { IsSameLife self.old self.new × (published self.new ≡ published self.old) × (pending self.new ≡ pending self.old) }
        ensures given { MatchResult result (λ v. (given_of self.old < 8) × (given_of self.new ≡ given_of self.old + 1)) (λ e. given_of self.new ≡ given_of self.old) }
        ensures ninth { 8 ≤ given_of self.old → result ≡ Err NoView }
        ensures refused { IfErr result (λ e. (e ≡ NoView) ⊎ (e ≡ NoMemory)) }
        ensures life { IfOk result (λ v. (name_seen v ≡ name_of self.old) × (schema_seen v ≡ schema_of self.old) × (book_seen v ≡ book_of self.old)) }
        ensures seen { IfOk result (λ v. seen_by v ≡ published self.old) }
    {
        if self.given >= VIEWS {
            return Err(Refusal::NoView);
        }
        let schema = self.schema.clone()?;
        let replay = Replay::new(self.alloc, schema, self.origin.again())?;
        let Ok(list) = Arc::try_clone(&self.list) else {
            return Err(Refusal::NoMemory);
        };
        let Ok(mut reader) = self.writer.factory().reader() else {
            return Err(Refusal::NoView);
        };
        reader.learn::<Notes>(self.writer.tell::<Notes>());
        self.given += 1;
        let front = self.writer.published().front.again();
        Ok(View::of(self.name, list, reader, replay, front))
    }

    /// The closed time of all that was appended: only what may come where this is closed may be appended. Takes no memory.
    pub fn closed(&self) -> Option<Stamp>
        ensures { result ≡ closed_in (published self.now ++ pending self.now) }
    {
        self.closed
    }

    /// Puts an item at the end of what is pending: an entry that is stamped above the closed time of all that was appended
    /// before, or a time that became sealed. The error is want of memory, and changes nothing.
    pub fn append(&mut self, item: Item) -> Result<(), AllocError>
        requires follows { Follows (closed_in (published self.old ++ pending self.old)) item }
        ensures same { IsSameLife self.old self.new × (given_of self.new ≡ given_of self.old) × (published self.new ≡ published self.old) }
        ensures pending { MatchResult result (λ _. pending self.new ≡ pending self.old ++ item ∷ []) (λ _. pending self.new ≡ pending self.old) }
    {
        if self.items.reserve(1).is_err() {
            return Err(AllocError);
        }
        self.closed = item.closed_after(self.closed);
        self.items.push_reserved(item);
        Ok(())
    }

    // Adds an item to the history, the next one that has no place, unless it is there.
    fn remember(&mut self, item: &Item) -> Result<(), AllocError>
        requires { slice_get self.old.items.items (vec_len self.old.places) ≡ Some item.now }
        ensures same { IsSameLife self.old self.new × (given_of self.new ≡ given_of self.old) × (self.new.items ≡ self.old.items) × (self.new.shown ≡ self.old.shown) }
        ensures places { (self.new.places ≡ self.old.places) × (self.new.list ≡ self.old.list) }
        ensures remembered { OnOk result (self.new.history.front.seen.log ≡ take (vec_len self.old.places + 1) self.old.items.items) }
        ensures counted { OnOk result (self.new.history.front.count ≡ vec_len self.old.places + 1) }
    {
        if self.history.front.count == self.places.len() as u64 {
            if !self.history.extend(item) {
                return Err(AllocError);
            }
        }
        Ok(())
    }

    // Puts the next item that has no place into the list.
    fn place_one<R: Wait>(&mut self, rt: &R) -> Result<(), AllocError>
        requires { vec_len self.old.places < vec_len self.old.items }
        ensures same { IsSameLife self.old self.new × (given_of self.new ≡ given_of self.old) × (self.new.items ≡ self.old.items) × (self.new.shown ≡ self.old.shown) }
        ensures placed { OnOk result (vec_len self.new.places ≡ vec_len self.old.places + 1) }
    {
        let at = self.places.len();
        let item = self.items[at].clone()?;
        self.places.reserve(1)?;
        self.remember(&item)?;
        let front = self.history.front.again();
        let shown = Shown { item, front };
        match self.list.set_placed(rt, at, shown) {
            Ok(place) => {
                self.places.push_reserved(place);
                Ok(())
            }
            Err(_) => Err(AllocError),
        }
    }

    // Puts all that has no place into the list.
    fn place_all<R: Wait>(&mut self, rt: &R) -> Result<(), AllocError>
        ensures same { IsSameLife self.old self.new × (given_of self.new ≡ given_of self.old) × (self.new.items ≡ self.old.items) × (self.new.shown ≡ self.old.shown) }
        ensures placed { OnOk result (vec_len self.new.items ≤ vec_len self.new.places) }
    {
        while self.places.len() < self.items.len() {
            self.place_one(rt)?;
        }
        Ok(())
    }

    // `show`, by value.
    fn showing<R: Wait>(self, rt: &R) -> (Publisher, Result<(), AllocError>)
        requires { vec_len self.items ≤ vec_len self.places }
        ensures same { IsSameLife self result.0 × (given_of result.0 ≡ given_of self) × (result.0.items ≡ self.items) }
        ensures shown { MatchResult result.1 (λ _. vec_len result.0.items ≤ result.0.shown) (λ _. result.0.shown ≡ self.shown) }
    {
        let Publisher {
            alloc,
            name,
            schema,
            list,
            mut writer,
            items,
            closed,
            shown,
            places,
            history,
            origin,
            given,
        } = self;
        if writer.append(history.front.again()).is_err() {
            let publisher = Publisher {
                alloc,
                name,
                schema,
                list,
                writer,
                items,
                closed,
                shown,
                places,
                history,
                origin,
                given,
            };
            return (publisher, Err(AllocError));
        }
        let (writer, _done) = writer.publish_as::<Sees, R>(rt);
        let shown = places.len();
        let publisher = Publisher {
            alloc,
            name,
            schema,
            list,
            writer,
            items,
            closed,
            shown,
            places,
            history,
            origin,
            given,
        };
        (publisher, Ok(()))
    }

    // Lets views see all that was appended, each item of which has its place.
    fn show<R: Wait>(&mut self, rt: &R) -> Result<(), AllocError>
        requires { vec_len self.old.items ≤ vec_len self.old.places }
        ensures same { IsSameLife self.old self.new × (given_of self.new ≡ given_of self.old) × (self.new.items ≡ self.old.items) }
        ensures shown { MatchResult result (λ _. vec_len self.new.items ≤ self.new.shown) (λ _. self.new.shown ≡ self.old.shown) }
    {
        replace_with(self, rt, |publisher, rt| publisher.showing(rt))
    }

    /// Publishes all that is pending. It may wait for a view that just then reads how much is published. The error is want of
    /// memory, and changes neither what is published nor what is pending: a later call publishes all.
    #[tactic(auto, using(crate::proofs::Parts::all_taken, crate::proofs::Parts::none_left))]
    pub fn publish<R: Wait>(&mut self, rt: &R) -> Result<(), AllocError>
        ensures same { IsSameLife self.old self.new × (given_of self.new ≡ given_of self.old) }
        ensures published { MatchResult result (λ _. published self.new ≡ published self.old ++ pending self.old) (λ _. published self.new ≡ published self.old) }
        ensures pending { MatchResult result (λ _. pending self.new ≡ []) (λ _. pending self.new ≡ pending self.old) }
    {
        if self.shown == self.items.len() {
            return Ok(());
        }
        self.place_all(rt)?;
        self.show(rt)
    }

    /// Tells of the whole published list. Takes no memory.
    pub fn told(&self) -> Notice
        ensures { IsTold self.now.name (book_of self.now) (published self.now) result }
    {
        Notice {
            name: self.name,
            front: self.writer.published().front.again(),
        }
    }
}
