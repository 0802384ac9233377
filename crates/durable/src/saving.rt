//! One save.
ghost use Rattle.std.specs.Prelude.{◌≤◌, ◌≡◌, ◌⊎◌, false, length, OnOk, OnErr, IsTrue};
ghost use Rattle.sqlite.specs.State.{HasCleanDisk, Survives};
ghost use Rattle.sqlite.specs.Held.{state};
ghost use Rattle.sqlite.specs.Tree.{Trees};
ghost use Rattle.keep.specs.Log.{IsSmall};
ghost use Rattle.durable.specs.Contents.{Contents, changed};
ghost use Rattle.durable.specs.Rows.{Holds};
ghost use Rattle.durable.specs.Steps.{IsKept, IsKnown};
ghost use Rattle.durable.specs.Stored.{AreTexts};
ghost use Rattle.durable.specs.Saving.{IsSaved, Leaves};

use crate::steps::write_change;
use keep::{Change, HardState};
use sqlite::{Alter, Connection, Error};

/// Makes a change in one transaction.
fn transact<S: Alter>(
    conn: &mut Connection<S>,
    change: &Change,
    known: &Option<HardState>,
    count: usize,
) -> Result<(), Error>
    requires small { IsSmall change.now }
    requires autocommit { conn.old.in_transaction ≡ false }
    requires open { HasCleanDisk (state S.Store conn.old) → IsTrue (state S.Store conn.old).is_open }
    requires held { HasCleanDisk (state S.Store conn.old) → (d : Contents) × Holds (state S.Store conn.old).now d × (change.now.kept ≤ length d.log) }
    requires known { HasCleanDisk (state S.Store conn.old) → (d : Contents) → Holds (state S.Store conn.old).now d → IsKnown known.now count d }
    ensures autocommit { conn.new.in_transaction ≡ false }
    ensures ok { HasCleanDisk (state S.Store conn.new) → OnOk result (IsSaved (state S.Store conn.old) (state S.Store conn.new) (changed change.now)) }
    ensures texts { OnOk result (AreTexts change.now.entries.items) }
    ensures err { HasCleanDisk (state S.Store conn.new) → OnErr result (IsKept (state S.Store conn.old) (state S.Store conn.new)) }
    ensures crash { Survives (state S.Store conn.old) (state S.Store conn.new) (Leaves (state S.Store conn.old) (changed change.now)) }
{
    let mut tx = conn.transaction();
    write_change(&mut tx, change, known, count)?;
    tx.commit()?;
    Ok(())
}

/// Makes a change in one commit. After an error nothing is changed. A crash leaves what was there
/// before the call or what the change makes of it, and after the call answered `Ok` that alone. What changes is
/// told from the hard state that is known to be stored, if one is, and from how many entries the log has.
pub(crate) fn commit_change<S: Alter>(
    conn: &mut Connection<S>,
    change: &Change,
    known: &Option<HardState>,
    count: usize,
) -> Result<(), Error>
    requires small { IsSmall change.now }
    requires autocommit { conn.old.in_transaction ≡ false }
    requires open { HasCleanDisk (state S.Store conn.old) → IsTrue (state S.Store conn.old).is_open }
    requires held { HasCleanDisk (state S.Store conn.old) → (d : Contents) × Holds (state S.Store conn.old).now d × (change.now.kept ≤ length d.log) }
    requires known { HasCleanDisk (state S.Store conn.old) → (d : Contents) → Holds (state S.Store conn.old).now d → IsKnown known.now count d }
    ensures autocommit { conn.new.in_transaction ≡ false }
    ensures ok { HasCleanDisk (state S.Store conn.new) → OnOk result (IsSaved (state S.Store conn.old) (state S.Store conn.new) (changed change.now)) }
    ensures texts { OnOk result (AreTexts change.now.entries.items) }
    ensures err { HasCleanDisk (state S.Store conn.new) → OnErr result (IsKept (state S.Store conn.old) (state S.Store conn.new)) }
    ensures clean { HasCleanDisk (state S.Store conn.new) → HasCleanDisk (state S.Store conn.old) }
    ensures limit { conn.new.step_limit ≡ conn.old.step_limit }
    ensures torn { HasCleanDisk (state S.Store conn.new) → (trees : Trees) → (state S.Store conn.new).may_leave trees → (trees ≡ (state S.Store conn.old).committed.trees) ⊎ Leaves (state S.Store conn.old) (changed change.now) trees }
    ensures lasting { HasCleanDisk (state S.Store conn.new) → OnOk result ((trees : Trees) → (state S.Store conn.new).may_leave trees → trees ≡ (state S.Store conn.new).now.trees) }
{
    transact(conn, change, known, count)
}
