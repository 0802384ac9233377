//! A life of the member over the files of its database.
ghost use Rattle.sqlread.specs.Meaning.{language_of};

use crate::files::{Pair, open};
use crate::found::{Found, look, number_of_open};
use crate::member::{Ended, run};
use durable::SqlKeeper;
use keep::Keeper;
use schema::Schema;
use sqlite::{Alter, Connection};
use std::alloc::Global;

/// What came of a life.
#[derive(Clone, Copy, Debug)]
pub(crate) struct Life {
    /// What the files held as it began.
    pub found: Found,
    /// How the run ended from there, if the member was to go on and it could.
    pub ended: Option<Ended>,
}

// Looks at what an image holds. Where that is what is stored after some steps, and the member is to go on, it starts and
// takes the others. The image that it leaves.
fn live<K: Keeper>(
    alloc: Global,
    image: K::Image,
    schema: &Schema,
    goes_on: bool,
) -> (Life, K::Image)
    requires { K.suits image 3 (language_of schema.now) }
{
    let (found, image) = look::<K>(alloc, image, schema);
    match found {
        Found::Steps(before) if goes_on => {
            let (ended, image) = run::<K>(alloc, image, schema, before);
            let ended = Some(ended);
            (Life { found, ended }, image)
        }
        _ => (Life { found, ended: None }, image),
    }
}

// The same over a database. The store that it leaves.
fn live_in<S: Alter + Drop>(
    alloc: Global,
    database: Connection<S>,
    schema: &Schema,
    goes_on: bool,
) -> (Life, S) {
    let (life, database) = live::<SqlKeeper<S>>(alloc, database, schema, goes_on);
    (life, database.into_store())
}

/// Opens the files of a database, and looks at what they hold. Where that is what is stored after some steps, and the
/// member is to go on, it starts and takes the others. The files that it leaves, with no call of them at the end.
pub(crate) fn live_on(alloc: Global, files: Pair, schema: &Schema, goes_on: bool) -> (Life, Pair) {
    match open(alloc, files) {
        Ok(database) => {
            let (life, store) = live_in(alloc, database, schema, goes_on);
            (life, store.close())
        }
        Err((error, files)) => {
            let found = Found::Unopened(number_of_open(&error));
            (Life { found, ended: None }, files)
        }
    }
}
