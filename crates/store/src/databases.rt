//! What a store that is closed leaves.
ghost use Rattle.std.specs.Prelude.{◌≡◌, ◌⊎◌, ◌+◌, ◌<◌, ℕ, None, length};
ghost use Rattle.store.specs.Became.{EachBecame};
ghost use Rattle.store.specs.Closing.{IsAtRest, IsTaken};

use crate::announcing::Announces;
use crate::seat::Seat;
use model::member::Member;

/// The databases of a store that is closed, each under its member's number.
#[derive(Drop)]
pub struct Databases<K: Announces>
where
    K::Image: Drop,
{
    pub(crate) seats: Vec<Seat<K>>,
}

impl<K: Announces> Databases<K>
where
    K::Image: Drop,
{
    // Those of these members, each of which is stopped.
    pub(crate) fn of(seats: Vec<Seat<K>>) -> Databases<K>
        ensures { EachBecame (IsAtRest K.may_hold K.holds) seats.items result.seats.items }
    {
        let mut seats = seats;
        for at in 0..seats.len() {
            let seat = &mut seats[at];
            seat.stop();
        }
        Databases { seats }
    }

    /// How many members the store has.
    pub fn members(&self) -> usize
        ensures { result ≡ length self.now.seats.items }
    {
        self.seats.len()
    }

    /// Takes out a member's database: none where it was missing or is taken already, or there is no such member. The others stay.
    pub fn take(&mut self, member: Member) -> Option<K::Image>
        ensures taken { (at : ℕ) → member ≡ at + 1 → at < length self.old.seats.items → IsTaken at result self.old.seats.items self.new.seats.items }
        ensures nobody { length self.old.seats.items < member ⊎ (member ≡ 0) → (result ≡ None) × (self.new ≡ self.old) }
    {
        if member == 0 || member > self.seats.len() {
            return None;
        }
        let seat = &mut self.seats[member - 1];
        seat.take_image()
    }
}
