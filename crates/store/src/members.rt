//! The members of a store as it is opened: what each database holds has to be what the journal says.
ghost use Rattle.std.specs.Prelude.{◌≡◌, ◌≢◌, ◌⊎◌, ◌<◌, Err, IfErr, IfOk, IsSome, OnOk, length};
ghost use Rattle.store.specs.Became.{Became, EachBecame};
ghost use Rattle.store.specs.Opening.{AreLaid, AreMost, AreOpened, Starts, there_in};
ghost use Rattle.store.specs.Pasts.{told_by};
ghost use Rattle.store.specs.Refusals.{no_memory};
ghost use Rattle.store.specs.Seats.{IsClean, missing_in};
ghost use Rattle.store.specs.Starting.{FitsTale, IsStarted};

use crate::announcing::Announces;
use crate::known::KnownLog;
use crate::past::Past;
use crate::refusal::StoreRefusal;
use crate::seat::Seat;
use fault::Refusal;
use model::member::Member;
use schema::Schema;
use std::alloc::Global;

/// The members of a store that is about to begin.
#[derive(Drop)]
pub struct Members<K: Announces>
where
    K::Image: Drop,
{
    pub(crate) alloc: Global,
    pub(crate) schema: Schema,
    pub(crate) seats: Vec<Seat<K>>,
}

// The first entry that differs, where the lengths tell it.
fn first_difference(found: usize, told: usize) -> Option<usize> {
    if found < told {
        Some(found.saturating_add(1))
    } else if told < found {
        Some(told.saturating_add(1))
    } else {
        None
    }
}

// Starts a member, whose database has to hold what is told of it: 49.
fn start_seat<K: Announces>(
    seat: &mut Seat<K>,
    schema: Schema,
    members: usize,
    known: &mut KnownLog,
) -> Result<(), StoreRefusal>
where
    K::Image: Drop,
    ensures up { OnOk result (IsSome seat.new.node) }
    ensures same { seat.new.member ≡ seat.old.member }
    ensures fits { OnOk result (FitsTale K.is_honest seat.old.tale seat.new) }
    ensures other { result ≢ Err StoreRefusal.TooFew }
    ensures starts { OnOk result (Starts K.is_honest K.may_hold K.holds schema members seat.old seat.new) }
{
    let member = seat.member;
    match seat.start(schema, members, known) {
        Ok(()) => {}
        Err(StoreRefusal::Refused(Refusal::BadStore)) => {
            return Err(StoreRefusal::Altered {
                member,
                entry: None,
            });
        }
        Err(refusal) => return Err(refusal),
    }
    match seat.stored() {
        Some(found) if !seat.tale.fits(&found) => Err(StoreRefusal::Altered {
            member,
            entry: first_difference(found.length, seat.tale.stored.length),
        }),
        _ => Ok(()),
    }
}

// A seat for each database, and how many databases are there.
fn seats_of<K: Announces>(
    alloc: Global,
    images: Vec<Option<K::Image>>,
    past: &Past,
) -> Result<(Vec<Seat<K>>, usize), StoreRefusal>
where
    K::Image: Drop,
    ensures laid { IfOk result (λ p. AreLaid (told_by past.now) images.items p.0.items) }
    ensures there { IfOk result (λ p. p.1 ≡ there_in images.items) }
    ensures want { IfErr result (λ r. r ≡ no_memory) }
{
    let mut seats = Vec::new(alloc);
    let mut there = 0usize;
    for image in images {
        let member: Member = seats.len() + 1;
        if image.is_some() {
            there = there.saturating_add(1);
        }
        seats.push(Seat::<K>::new(alloc, member, image, past.tale(member)))?;
    }
    Ok((seats, there))
}

// Starts the member that has so many before it, where it has a database.
fn start_at<K: Announces>(
    seats: &mut Vec<Seat<K>>,
    at: usize,
    schema: &Schema,
    known: &mut KnownLog,
) -> Result<(), StoreRefusal>
where
    K::Image: Drop,
    requires { at < length seats.old.items }
    ensures up { OnOk result (Became (IsStarted K.is_honest) at seats.old.items seats.new.items) }
    ensures other { result ≢ Err StoreRefusal.TooFew }
    ensures starts { OnOk result (Became (Starts K.is_honest K.may_hold K.holds schema.now (length seats.old.items)) at seats.old.items seats.new.items) }
{
    let count = seats.len();
    let schema = schema.clone()?;
    let seat = &mut seats[at];
    if seat.is_missing() {
        return Ok(());
    }
    start_seat(seat, schema, count, known)
}

// Starts each member that has a database.
fn start_seats<K: Announces>(
    alloc: Global,
    seats: &mut Vec<Seat<K>>,
    schema: &Schema,
) -> Result<(), StoreRefusal>
where
    K::Image: Drop,
    ensures up { OnOk result (EachBecame (IsStarted K.is_honest) seats.old.items seats.new.items) }
    ensures other { result ≢ Err StoreRefusal.TooFew }
    ensures starts { OnOk result (EachBecame (Starts K.is_honest K.may_hold K.holds schema.now (length seats.old.items)) seats.old.items seats.new.items) }
{
    let mut known = KnownLog::new(alloc);
    for at in 0..seats.len() {
        start_at(seats, at, schema, &mut known)?;
    }
    Ok(())
}

impl<K: Announces> Members<K>
where
    K::Image: Drop,
{
    /// Starts each member over its database, in their order; none stands for a database that is missing. Nothing is written.
    ///
    /// 39 where not more than half of the databases are there. 49 where one holds something else than `past` says, or no state of a
    /// member; 40 and 43 where one can't be read.
    pub fn open(
        alloc: Global,
        schema: Schema,
        images: Vec<Option<K::Image>>,
        past: &Past,
    ) -> Result<Members<K>, StoreRefusal>
        ensures opened { IfOk result (AreOpened K.is_honest K.may_hold K.holds (told_by past.now) images.items) }
        ensures most { OnOk result (AreMost images.items) }
        ensures few { result ≡ Err StoreRefusal.TooFew → AreMost images.items → ⊥ }
        ensures refused { (AreMost images.items → ⊥) → (result ≡ Err StoreRefusal.TooFew) ⊎ (result ≡ Err no_memory) }
    {
        let count = images.len();
        let (mut seats, there) = seats_of::<K>(alloc, images, past)?;
        if there <= count / 2 {
            return Err(StoreRefusal::TooFew);
        }
        start_seats(alloc, &mut seats, &schema)?;
        Ok(Members {
            alloc,
            schema,
            seats,
        })
    }

    /// The members whose database is missing, in their order. The error is want of memory.
    pub fn missing(&self) -> Result<Vec<Member>, StoreRefusal>
        ensures all { IfOk result (λ missing. missing.items ≡ missing_in self.now.seats.items) }
        ensures want { IfErr result (λ r. r ≡ no_memory) }
    {
        let mut missing = Vec::new(self.alloc);
        for seat in &self.seats {
            if seat.is_missing() {
                missing.push(seat.member)?;
            }
        }
        Ok(missing)
    }
}
