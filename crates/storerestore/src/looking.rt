//! Which databases of a store hold what its journals tell.
ghost use Rattle.std.specs.Prelude.{◌≡◌, IfOk};
ghost use Rattle.storerestore.specs.Looking.{unreadable, IsJudged, IsLookedAt};

use durable::SqlKeeper;
use fault::Refusal;
use model::member::Member;
use sqlite::{Alter, Connection};
use std::alloc::Global;
use store::StoreRefusal;
use store::announcing::Judging;
use store::found::found_in;
use store::held::HeldLog;
use store::known::KnownLog;
use store::past::Tale;
use storefolder::Form;

/// What is found of a member's database.
#[derive(Drop)]
pub(crate) struct Looked {
    /// Whether it is what the journals tell.
    pub fits: bool,
    /// The log that it holds; none where it is missing, or can't be read.
    pub log: Option<HeldLog>,
}

impl Looked {
    /// Of a database that can't be read, or may hold anything.
    pub(crate) fn unreadable() -> Looked
        ensures { result ≡ unreadable }
    {
        Looked {
            fits: false,
            log: None,
        }
    }
}

// Whether it is the database that is refused, and not a want of memory, of room or of the lock.
fn is_of_database(refusal: &StoreRefusal) -> bool {
    matches!(
        refusal,
        StoreRefusal::Altered { .. } | StoreRefusal::Refused(Refusal::StoreFault)
    )
}

// Looks at a database that is there.
fn look_into<K: Judging>(
    alloc: Global,
    database: K::Image,
    form: &Form,
    tale: &Tale,
    member: Member,
    known: &mut KnownLog,
) -> Result<Looked, StoreRefusal>
where
    K::Image: Drop,
    ensures { IfOk result (λ looked. IsJudged K.holds K.is_sound database tale.now looked) }
{
    match found_in::<K>(alloc, database, &form.schema, form.members, member, known) {
        Ok(found) => Ok(Looked {
            fits: tale.fits(&found.summary),
            log: Some(found.log),
        }),
        Err(refusal) if is_of_database(&refusal) => Ok(Looked::unreadable()),
        Err(refusal) => Err(refusal),
    }
}

/// Looks at a member's database, if it could be opened. One that is missing is what the journals tell where these tell that nothing was
/// ever stored in it.
pub(crate) fn look_at<K: Judging>(
    alloc: Global,
    database: Result<Option<K::Image>, StoreRefusal>,
    form: &Form,
    tale: &Tale,
    member: Member,
    known: &mut KnownLog,
) -> Result<Looked, StoreRefusal>
where
    K::Image: Drop,
    ensures { IfOk result (λ looked. IsLookedAt K.holds K.is_sound database tale.now looked) }
{
    match database {
        Ok(Some(database)) => look_into::<K>(alloc, database, form, tale, member, known),
        Ok(None) => Ok(Looked {
            fits: tale.is_blank(),
            log: None,
        }),
        Err(refusal) if is_of_database(&refusal) => Ok(Looked::unreadable()),
        Err(refusal) => Err(refusal),
    }
}

/// Looks at a database in a file.
pub(crate) fn look_at_file<S: Alter + Drop>(
    alloc: Global,
    database: Result<Option<Connection<S>>, StoreRefusal>,
    form: &Form,
    tale: &Tale,
    member: Member,
    known: &mut KnownLog,
) -> Result<Looked, StoreRefusal> {
    look_at::<SqlKeeper<S>>(alloc, database, form, tale, member, known)
}
