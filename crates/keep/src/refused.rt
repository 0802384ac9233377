//! Wrong bodies that no contract here lets through: functions that do nothing but call what they speak of.
ghost use Rattle.std.specs.Prelude.{◌≡◌, ◌≢◌, ◌≤◌, ℕ, ◌++◌, true, false, Err, IsOk, OnOk, OnErr, length, take};
ghost use Rattle.model.specs.Transactions.{Language};
ghost use Rattle.sqlread.specs.Meaning.{language_of};
ghost use Rattle.keep.specs.Calls.{failing_next, stored_by};
ghost use Rattle.keep.specs.Durable.{after, failing_call, stored_in};
ghost use Rattle.keep.specs.Log.{IsLog, IsSmall};

use crate::change::Change;
use crate::error::StoreError;
use crate::keeper::{Keeper, LogReader};
use crate::memory::{MemImage, MemKeeper};
use model::entry::Entry;
use schema::Schema;
use std::alloc::Global;

/// A function that opens no image does not meet the contract of `MemKeeper::open`.
fn opens_nothing(
    alloc: Global,
    image: MemImage,
    members: usize,
    schema: &Schema,
) -> Result<MemKeeper, (StoreError, MemImage)>
    requires log { IsLog members (language_of schema.now) (stored_in image) }
    requires may { failing_call image ≢ 1 }
    ensures { IsOk result }
{
    MemKeeper::open(alloc, image, members, schema)
}

/// A function that answers after a failure, or does not fail at the call that it is told, does not meet the contract of `MemKeeper::entry`.
fn answers_always(
    alloc: Global,
    keeper: &mut MemKeeper,
    i: usize,
) -> Result<Option<Entry>, StoreError>
    ensures down { keeper.old.is_up ≡ false → result ≡ Err StoreError.NodeDown }
    ensures told { keeper.old.is_up ≡ true → failing_next keeper.old ≡ 1 → result ≡ Err StoreError.StoreFault }
{
    keeper.entry(alloc, i)
}

/// A function that stores less than the change, or a part of it before it fails, does not meet the contract of `MemKeeper::save`.
fn saves_a_part(alloc: Global, keeper: &mut MemKeeper, change: &Change) -> Result<(), StoreError>
    requires kept { keeper.old.is_up ≡ true → change.now.kept ≤ length (stored_by keeper.old).log }
    requires small { IsSmall change.now }
    requires log { (members : ℕ) × ((language : Language) × (IsLog members language (stored_by keeper.old) × (keeper.old.is_up ≡ true → IsLog members language (after change.now (stored_by keeper.old))))) }
    ensures hard { OnOk result ((stored_by keeper.new).hard ≡ change.now.hard) }
    ensures entries { OnOk result ((stored_by keeper.new).log ≡ take change.now.kept (stored_by keeper.old).log ++ change.now.entries.items) }
    ensures torn { OnErr result ((stored_by keeper.new).hard ≡ (stored_by keeper.old).hard) }
{
    keeper.save(alloc, change)
}
