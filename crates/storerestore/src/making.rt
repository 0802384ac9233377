//! Databases that are made anew.
use durable::SqlKeeper;
use fault::Refusal;
use model::member::Member;
use playback::{Stored, remake};
use sqlite::{Alter, Connection};
use std::alloc::Global;
use store::StoreRefusal;
use store::announcing::Judging;
use storefolder::Form;

// Puts into an image of a member, in the place of what it holds, what the member has stored.
fn fill<K: Judging>(
    alloc: Global,
    image: K::Image,
    form: &Form,
    member: Member,
    stored: &Stored,
) -> Result<K::Image, StoreRefusal>
where
    K::Image: Drop,
{
    if form.members > 7 || member < 1 || member > form.members {
        return Err(StoreRefusal::Refused(Refusal::NodeDown));
    }
    remake::<K>(
        alloc,
        image,
        &form.schema,
        form.members,
        member,
        stored.hard,
        stored.entries.as_slice(),
    )
}

/// Puts into a database of a member, in the place of what it holds, what the member has stored.
pub(crate) fn fill_database<S: Alter + Drop>(
    alloc: Global,
    database: Connection<S>,
    form: &Form,
    member: Member,
    stored: &Stored,
) -> Result<Connection<S>, StoreRefusal> {
    fill::<SqlKeeper<S>>(alloc, database, form, member, stored)
}
