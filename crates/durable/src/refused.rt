//! Wrong bodies that no contract here lets through: functions that do nothing but call what they speak of.
ghost use Rattle.std.specs.Prelude.{◌≡◌, ◌≢◌, ◌≤◌, ℕ, false, true, length, [], Err, IfErr, IsTrue};
ghost use Rattle.sqlite.specs.State.{HasCleanDisk};
ghost use Rattle.sqlite.specs.Held.{state};
ghost use Rattle.sqlite.specs.Tree.{Trees};
ghost use Rattle.model.specs.Transactions.{Language};
ghost use Rattle.keep.specs.Durable.{Durable, after};
ghost use Rattle.keep.specs.Log.{IsLog, IsSmall};
ghost use Rattle.durable.specs.Contents.{Contents, changed};
ghost use Rattle.durable.specs.Rows.{Holds};
ghost use Rattle.durable.specs.Steps.{IsKnown};
ghost use Rattle.durable.specs.Stored.{stored_in, IsSound, Offers};

use crate::keeper::SqlKeeper;
use crate::saving::commit_change;
use keep::{Change, HardState, Keeper, StoreError};
use schema::Schema;
use sqlite::{Alter, Connection, Error};
use std::alloc::Global;

/// A function that commits the term and the vote before the log does not meet the contract of `commit_change`: what a crash
/// leaves with the log as it was has the row of meta as it was.
fn commits_the_term_first<S: Alter>(
    conn: &mut Connection<S>,
    change: &Change,
    known: &Option<HardState>,
    count: usize,
) -> Result<(), Error>
    ghost before: { Contents }
    requires small { IsSmall change.now }
    requires autocommit { conn.old.in_transaction ≡ false }
    requires open { HasCleanDisk (state S.Store conn.old) → IsTrue (state S.Store conn.old).is_open }
    requires held { HasCleanDisk (state S.Store conn.old) → (d : Contents) × Holds (state S.Store conn.old).now d × (change.now.kept ≤ length d.log) }
    requires known { HasCleanDisk (state S.Store conn.old) → (d : Contents) → Holds (state S.Store conn.old).now d → IsKnown known.now count d }
    requires settled { (state S.Store conn.old).committed ≡ (state S.Store conn.old).now }
    requires before { Holds (state S.Store conn.old).now before }
    requires grows { (changed change.now before).log ≢ before.log }
    ensures { HasCleanDisk (state S.Store conn.new) → (left : Trees) → (state S.Store conn.new).may_leave left → left 1 ≡ (state S.Store conn.old).committed.trees 1 → left 0 ≡ (state S.Store conn.old).committed.trees 0 }
{
    commit_change(conn, change, known, count)
}

/// A function that answers 40 though the store has not failed does not meet the contract of `Keeper::save`.
fn faults_without_a_cause<S: Alter + Drop>(
    alloc: Global,
    keeper: &mut SqlKeeper<S>,
    change: &Change,
) -> Result<(), StoreError>
    requires kept { IsSound (state S.Store keeper.old.conn) → keeper.old.is_up ≡ true → change.now.kept ≤ length (stored_in (state S.Store keeper.old.conn).committed).log }
    requires small { IsSmall change.now }
    requires log { (members : ℕ) × ((tables : Language) × ((IsSound (state S.Store keeper.old.conn) → IsLog members tables (stored_in (state S.Store keeper.old.conn).committed)) × (IsSound (state S.Store keeper.old.conn) → keeper.old.is_up ≡ true → IsLog members tables (after change.now (stored_in (state S.Store keeper.old.conn).committed))))) }
    ensures { keeper.new.failures ≡ keeper.old.failures → result ≢ Err StoreError.StoreFault }
{
    keeper.save(alloc, change)
}

/// A function that deletes the row of meta before it gives the database up does not meet the contract of `Keeper::close`.
fn deletes_a_row<S: Alter + Drop>(keeper: SqlKeeper<S>) -> Connection<S>
    ghost held: { Durable }
    requires held { Offers (state S.Store keeper.conn) held }
    requires some { held.hard.term ≢ 0 }
    ensures { (state S.Store result).committed.trees 0 ≢ [] }
{
    keeper.close()
}

/// A function that deletes the row of meta and gives the database back with an error does not meet the contract of `Keeper::open`.
fn ruins_what_it_gives_back<S: Alter + Drop>(
    alloc: Global,
    image: Connection<S>,
    members: usize,
    schema: &Schema,
) -> Result<SqlKeeper<S>, (StoreError, Connection<S>)>
    ghost held: { Durable }
    requires held { Offers (state S.Store image) held }
    requires some { held.hard.term ≢ 0 }
    ensures { IfErr result (λ e. IsSound (state S.Store e.1) → (state S.Store e.1).committed.trees 0 ≢ []) }
{
    SqlKeeper::open(alloc, image, members, schema)
}
