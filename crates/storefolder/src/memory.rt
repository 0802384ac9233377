//! A store that is in memory alone.
use durable::SqlKeeper;
use journal::blocks::FIRST_SUM;
use model::member::Member;
use schema::Schema;
use sqlite::{Connection, MemStore};
use std::alloc::{AllocError, Global};
use store::announcing::{Announces, Announcing};
use store::members::Members;
use store::scribe::Scribe;
use store::{NoDevice, Past, Store, StoreRefusal};

/// What keeps a member of a store in memory.
pub type InMemory = Announcing<SqlKeeper<MemStore>, NoDevice>;

// A store over databases that hold nothing, and the journal's device.
fn begin<K: Announces>(
    alloc: Global,
    schema: Schema,
    images: Vec<Option<K::Image>>,
    journal: K::Journal,
    reading: i64,
) -> Result<Store<K>, StoreRefusal>
where
    K::Image: Drop,
{
    let past = Past::new(alloc, images.len())?;
    let members = Members::<K>::open(alloc, schema, images, &past)?;
    Store::begin(
        members,
        Scribe::new(alloc, journal, FIRST_SUM),
        1,
        0,
        reading,
    )
}

// A database in memory for each member.
fn databases(
    alloc: Global,
    members: Member,
) -> Result<Vec<Option<Connection<MemStore>>>, AllocError> {
    let mut databases = Vec::new(alloc);
    for _ in 0..members {
        databases.push(Some(Connection::open_in_memory(alloc)?))?;
    }
    Ok(databases)
}

/// A store with these tables and so many members, 3 to 7, that is in memory alone and has no journal: what it tells is gone once it is
/// dropped. The clock shows `reading`.
///
/// 16 for another number of members; 43 for want of memory.
pub fn open_in_memory(
    alloc: Global,
    members: Member,
    schema: Schema,
    reading: i64,
) -> Result<Store<InMemory>, StoreRefusal> {
    if members < 3 || members > 7 {
        return Err(StoreRefusal::Refused(fault::Refusal::OutOfRange));
    }
    let images = databases(alloc, members)?;
    begin::<InMemory>(alloc, schema, images, NoDevice, reading)
}
