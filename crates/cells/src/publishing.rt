//! What a step appends to a life's publisher and publishes, and what it told.
ghost use Rattle.std.specs.Prelude.{◌≡◌, ◌⊎◌, None, [], ◌∷◌, ◌++◌, IfOk, IfErr, OnOk, IsOk};
ghost use Rattle.flight.specs.Telling.{outcomes_of};
ghost use Rattle.view.specs.Publishing.{published, pending, given_of, IsSameLife};
ghost use Rattle.cells.specs.Publishing.{marked, marked_seal, IsUnlisted};

use flight::outcome::Outcomes;
use keep::StoreError;
use model::entry::Entry;
use model::mark::Mark;
use model::stamp::Stamp;
use node::Out as NodeOut;
use std::alloc::{AllocError, Global};
use std::sync::Wait;
use view::{Item, Publisher};

/// Puts an item at the end of what is pending. The error is want of memory, or 44 where it may not come after what was appended
/// before; nothing is changed then.
fn append_one(publisher: &mut Publisher, item: Item) -> Result<(), StoreError>
    ensures same { IsSameLife publisher.old publisher.new × (given_of publisher.new ≡ given_of publisher.old) × (published publisher.new ≡ published publisher.old) }
    ensures pending { OnOk result (pending publisher.new ≡ pending publisher.old ++ item ∷ []) }
    ensures refused { IfErr result (IsUnlisted (published publisher.old ++ pending publisher.old) (item ∷ [])) }
{
    if !item.follows(publisher.closed()) {
        return Err(StoreError::BadStore);
    }
    publisher.append(item)?;
    Ok(())
}

/// Puts the entries at the end of what is pending, in their order and each with this mark. The error is want of memory, or 44
/// where a stamp does not rise over what was appended before; some of them may be pending then.
pub(crate) fn append_all(
    publisher: &mut Publisher,
    mark: Mark,
    entries: &[Entry],
) -> Result<(), StoreError>
    ensures same { IsSameLife publisher.old publisher.new × (given_of publisher.new ≡ given_of publisher.old) × (published publisher.new ≡ published publisher.old) }
    ensures pending { OnOk result (pending publisher.new ≡ pending publisher.old ++ marked mark entries.now) }
    ensures none { entries.now ≡ [] → IsOk result }
    ensures refused { IfErr result (IsUnlisted (published publisher.old ++ pending publisher.old) (marked mark entries.now)) }
{
    for entry in entries {
        let entry = entry.clone()?;
        if let Err(error) = append_one(publisher, Item::Applied { mark, entry }) {
            return Err(error);
        }
    }
    Ok(())
}

/// Puts what became sealed, if anything did, at the end of what is pending, with this mark. The error is want of memory, which
/// changes nothing.
fn append_seal(
    publisher: &mut Publisher,
    mark: Mark,
    sealed: Option<Stamp>,
) -> Result<(), AllocError>
    ensures same { IsSameLife publisher.old publisher.new × (given_of publisher.new ≡ given_of publisher.old) × (published publisher.new ≡ published publisher.old) }
    ensures pending { OnOk result (pending publisher.new ≡ pending publisher.old ++ marked_seal mark sealed) }
    ensures none { sealed ≡ None → IsOk result }
{
    let Some(time) = sealed else {
        return Ok(());
    };
    publisher.append(Item::Sealed { mark, time })
}

/// What is recorded of what the node told, with the entries that became applied and then what became sealed at the end of what
/// is pending, each with this mark. The error is want of memory, or 44 where a stamp does not rise over what was appended before;
/// some of these may be pending then.
pub(crate) fn note(
    alloc: Global,
    publisher: &mut Publisher,
    mark: Mark,
    given: &NodeOut,
) -> Result<Outcomes, StoreError>
    ensures same { IsSameLife publisher.old publisher.new × (given_of publisher.new ≡ given_of publisher.old) × (published publisher.new ≡ published publisher.old) }
    ensures pending { OnOk result (pending publisher.new ≡ pending publisher.old ++ (marked mark given.now.applied.items ++ marked_seal mark given.now.sealed)) }
    ensures told { IfOk result (λ outcomes. outcomes ≡ outcomes_of given.now.told.items) }
    ensures none { given.now.applied.items ≡ [] → given.now.told.items ≡ [] → given.now.sealed ≡ None → IsOk result }
    ensures refused { IfErr result (IsUnlisted (published publisher.old ++ pending publisher.old) (marked mark given.now.applied.items ++ marked_seal mark given.now.sealed)) }
{
    let outcomes = Outcomes::of(alloc, &given.told)?;
    if let Err(error) = append_all(publisher, mark, &given.applied) {
        return Err(error);
    }
    append_seal(publisher, mark, given.sealed)?;
    Ok(outcomes)
}

/// Publishes all that is pending or, for want of memory, nothing. It may wait for a view that is just then copying
/// the token of what is published.
pub(crate) fn publish_all<R: Wait>(publisher: &mut Publisher, rt: &R)
    ensures same { IsSameLife publisher.old publisher.new × (given_of publisher.new ≡ given_of publisher.old) }
    ensures all { published publisher.new ++ pending publisher.new ≡ published publisher.old ++ pending publisher.old }
    ensures published { (published publisher.new ≡ published publisher.old) ⊎ (published publisher.new ≡ published publisher.old ++ pending publisher.old) }
{
    match publisher.publish(rt) {
        Ok(()) => {}
        // It stays pending, and a later call publishes it.
        Err(_) => {}
    }
}
