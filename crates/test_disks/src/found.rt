//! What an open finds.
ghost use Rattle.std.specs.Prelude.{ℕ};
ghost use Rattle.model.specs.Transactions.{Language};
ghost use Rattle.sqlread.specs.Meaning.{language_of};

use crate::states::{is_possible, steps_to};
use fault::Refusal;
use keep::{Keeper, State, StoreError};
use schema::Schema;
use sqlite::{Error, ErrorCode};
use std::alloc::Global;

/// What an open finds.
#[derive(Clone, Copy, Debug)]
pub(crate) enum Found {
    /// What is stored after so many steps.
    Steps(usize),
    /// Another state that a member of three may have.
    Other,
    /// A state that no member of three may have.
    Broken,
    /// The keeper refuses it, with this number.
    Refused(u8),
    /// The database does not open, which a member tells with this number.
    Unopened(u8),
}

/// As which number a member tells an error of the store.
pub(crate) fn number_of(error: StoreError) -> u8 {
    Refusal::from(error).number()
}

/// As which number a member tells that a database does not open.
pub(crate) fn number_of_open(error: &Error) -> u8 {
    match error {
        Error::SqliteFailure(ErrorCode::OutOfMemory) => number_of(StoreError::NoMemory),
        _ => number_of(StoreError::StoreFault),
    }
}

// Which state it is.
fn found_in(alloc: Global, schema: &Schema, state: &State) -> Found {
    if let Some(steps) = steps_to(state) {
        return Found::Steps(steps);
    }
    match is_possible(alloc, schema, state) {
        Ok(true) => Found::Other,
        Ok(false) => Found::Broken,
        Err(_) => Found::Refused(number_of(StoreError::NoMemory)),
    }
}

// What a keeper has stored.
fn stored<K: Keeper>(alloc: Global, schema: &Schema, keeper: &mut K) -> Found
    ensures { (members : ℕ) (language : Language) → K.serves keeper.old members language → K.serves keeper.new members language }
{
    match keeper.state(alloc) {
        Ok(state) => found_in(alloc, schema, &state),
        Err(error) => Found::Refused(number_of(error)),
    }
}

/// What an image holds for a member of three. The image that the look leaves.
pub(crate) fn look<K: Keeper>(alloc: Global, image: K::Image, schema: &Schema) -> (Found, K::Image)
    requires { K.suits image 3 (language_of schema.now) }
    ensures { K.suits result.1 3 (language_of schema.now) }
{
    let opened: Result<K, (StoreError, K::Image)> = K::open(alloc, image, 3, schema);
    match opened {
        Ok(mut keeper) => {
            let found = stored(alloc, schema, &mut keeper);
            (found, keeper.close())
        }
        Err((error, image)) => (Found::Refused(number_of(error)), image),
    }
}
