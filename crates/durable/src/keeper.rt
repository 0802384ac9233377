//! A keeper over any store of `sqlite`.
ghost use Rattle.std.specs.Prelude.{◌≡◌, ◌≢◌, ◌⊎◌, ◌≤◌, true, false, length};
ghost use Rattle.sqlite.specs.State.{HasCleanDisk};
ghost use Rattle.sqlite.specs.Held.{state};
ghost use Rattle.std.specs.Coded.{Π_prop};
ghost use Rattle.keep.specs.Log.{IsLog, log_prop};
ghost use Rattle.durable.specs.Stored.{contents_in, stored_in, IsBad, IsSettled, IsSound, IsStored, Offers};
ghost use Rattle.durable.specs.Found.{offers_held, stored_offers, is_one};
ghost use Rattle.durable.specs.Saving.{IsBeginning, IsHard};
ghost use Rattle.durable.specs.Props.{IsSettled-prop, IsStored-prop, IsHard-prop, IsBeginning-prop};

use crate::cache::{entry_at, keep_read};
use crate::finding::{find_log, read_state};
use crate::saving::commit_change;
use keep::{Change, HardState, Keeper, LogReader, State, StoreError};
use model::entry::Entry;
use schema::Schema;
use sqlite::{Alter, Connection, Error, ErrorCode};
use std::alloc::Global;

/// Keeps a member's hard state and log in three tables of a database, over every store that `sqlite` has.
/// What it opens, and what is left of it, is the connection. It is honest while the store is clean:
/// memory always is, and a file while it gave back what was written to it.
///
/// An open of a database that has no table makes the three and the rows of meta and floor in one commit.
/// One that has meta and log alone, as they were made before members had floors, holds a hard state with
/// no floor: an open of it makes the table floor with its row in one commit. An open reads all rows, and
/// answers `BadStore` where the schema is not the three tables alone or the rows are not those of a log of
/// the member. Each `save` is one commit: a crash within it, or an
/// error of it, leaves the state before or after. It states only what changed since the save before it, and the first
/// one states all. `state` reads single rows by their number, and so does `entry`, but for those entries that the open read: they
/// stay in memory for the first saves, so that a member that is started reads its log once.
#[derive(Drop)]
pub struct SqlKeeper<S: Alter + Drop> {
    conn: Connection<S>,
    /// How many entries the log has.
    count: usize,
    /// The first entries of the log, as the open read them; none after some saves.
    read: Vec<Entry>,
    /// The hard state of the last save: none before the first, and none after one that failed.
    known: Option<HardState>,
    failures: u64,
    asked: u64,
    saved: u64,
    is_up: bool,
    ghost autocommit: { conn.in_transaction ≡ false },
    ghost unfailed: { is_up ≡ true → failures ≡ 0 },
    ghost short: { is_up ≡ true → count ≤ 100000 },
    ghost settled: { is_up ≡ true → HasCleanDisk (state S.Store conn) → IsSettled (state S.Store conn) } by { Π_prop (λ _. Π_prop (λ _. IsSettled-prop (state S.Store conn))) },
    ghost held: { IsSound (state S.Store conn) → IsStored (state S.Store conn).committed } by { Π_prop (λ _. IsStored-prop (state S.Store conn).committed) },
    ghost counted: { is_up ≡ true → HasCleanDisk (state S.Store conn) → count ≡ length (contents_in (state S.Store conn).now).log },
    ghost remembered: { IsSound (state S.Store conn) → IsHard known (stored_in (state S.Store conn).committed) } by { Π_prop (λ _. IsHard-prop known (stored_in (state S.Store conn).committed)) },
    ghost begun: { is_up ≡ true → IsSound (state S.Store conn) → IsBeginning read.items (stored_in (state S.Store conn).committed).log } by { Π_prop (λ _. Π_prop (λ _. IsBeginning-prop read.items (stored_in (state S.Store conn).committed).log)) },
}

/// What an error of the database is told as: `NoMemory` where it is want of memory or of room on the
/// disk, and else `StoreFault`.
fn error_of(error: &Error) -> StoreError
    ensures memory { error.now ≡ Error.SqliteFailure ErrorCode.OutOfMemory → result ≡ StoreError.NoMemory }
    ensures room { error.now ≡ Error.SqliteFailure ErrorCode.DiskFull → result ≡ StoreError.NoMemory }
    ensures fault { error.now ≢ Error.SqliteFailure ErrorCode.OutOfMemory → error.now ≢ Error.SqliteFailure ErrorCode.DiskFull → result ≡ StoreError.StoreFault }
    ensures either { (result ≡ StoreError.NoMemory) ⊎ (result ≡ StoreError.StoreFault) }
{
    match error {
        Error::SqliteFailure(ErrorCode::OutOfMemory) => StoreError::NoMemory,
        Error::SqliteFailure(ErrorCode::DiskFull) => StoreError::NoMemory,
        _ => StoreError::StoreFault,
    }
}

impl<S: Alter + Drop> SqlKeeper<S> {
    /// What an error of the database is told as; a fault of the store is counted.
    fn refuse(&mut self, error: &Error) -> StoreError
        requires { self.old.is_up ≡ false }
        ensures down { self.new.is_up ≡ false }
        ensures conn { self.new.conn ≡ self.old.conn }
        ensures asked { (self.new.asked ≡ self.old.asked) × (self.new.saved ≡ self.old.saved) }
        ensures named { (result ≡ StoreError.NoMemory) ⊎ ((result ≡ StoreError.StoreFault) × (self.new.failures ≡ 1)) }
        ensures counts { self.new.failures ≡ self.old.failures ⊎ (self.new.failures ≡ 1) }
    {
        let error = error_of(error);
        if error == StoreError::StoreFault {
            self.failures = 1;
        }
        error
    }
}

impl<S: Alter + Drop> LogReader for SqlKeeper<S> {
    ghost stored = { λ k. stored_in (state S.Store k.conn).committed };

    ghost is_honest = { λ k. IsSound (state S.Store k.conn) };

    ghost is_up = { λ k. k.is_up };

    ghost failed = { λ k. k.failures };

    ghost asks = { λ k. k.asked };

    ghost saves = { λ k. k.saved };

    ghost limit = { λ k. k.conn.step_limit };

    ghost may_hold = { λ k d. Offers (state S.Store k.conn) d };

    ghost serves = { λ k members tables. IsSound (state S.Store k.conn) → IsLog members tables (stored_in (state S.Store k.conn).committed) };

    ghost Origin = { Unit {0} };

    ghost came_from = { λ _ _. Unit {0} };

    ghost only_honest = { λ _ _ h. record { clean = h.clean; is_open = h.is_open } };

    ghost only_stored = { λ k d h. offers_held _ d (k.held (record { clean = h.clean; is_open = h.is_open })) h };

    ghost holds_stored = { λ k sound. stored_offers _ sound k.autocommit (k.held sound) };

    ghost served_once = { λ _ members tables. Π_prop (λ _. log_prop members tables _) };

    ghost only_logs = { λ _ _ _ forms sound. forms sound };

    fn entry(&mut self, alloc: Global, i: usize) -> Result<Option<Entry>, StoreError> {
        let _ = alloc;
        self.asked = self.asked.saturating_add(1);
        if !self.is_up {
            return Err(StoreError::NodeDown);
        }
        if i >= self.count {
            return Ok(None);
        }
        self.is_up = false;
        match entry_at(&mut self.conn, self.read.as_slice(), i) {
            Ok(entry) => {
                self.is_up = true;
                Ok(entry)
            }
            Err(error) => Err(self.refuse(&error)),
        }
    }

    fn failures(&self) -> u64 {
        self.failures
    }

    fn asked(&self) -> u64 {
        self.asked
    }

    fn saved(&self) -> u64 {
        self.saved
    }
}

impl<S: Alter + Drop> Keeper for SqlKeeper<S> {
    type Image = Connection<S>;

    ghost holds = { λ c d. Offers (state S.Store c) d };

    ghost suits = { λ _ _ _. Unit {0} };

    ghost is_bad = { λ c members tables. IsBad (state S.Store c) members tables };

    ghost is_sound = { λ c. IsSound (state S.Store c) };

    ghost limit_of = { λ c. c.step_limit };

    ghost only_sound = { λ _ _ h. record { clean = h.clean; is_open = h.is_open } };

    ghost holds_one = { λ _ d e p q. is_one _ d e p.found q.found };

    ghost never_bad = { λ _ _ _ d offer forms bad. bad d offer forms };

    fn open(
        alloc: Global,
        image: Connection<S>,
        members: usize,
        schema: &Schema,
    ) -> Result<SqlKeeper<S>, (StoreError, Connection<S>)> {
        let mut image = image;
        if !image.is_autocommit() {
            return Err((StoreError::BadStore, image));
        }
        match find_log(alloc, &mut image, members, schema) {
            Ok(Some(log)) => Ok(SqlKeeper {
                conn: image,
                count: log.len(),
                read: log,
                known: None,
                failures: 0,
                asked: 0,
                saved: 0,
                is_up: true,
            }),
            Ok(None) => Err((StoreError::BadStore, image)),
            Err(error) => {
                let error = error_of(&error);
                Err((error, image))
            }
        }
    }

    fn state(&mut self, alloc: Global) -> Result<State, StoreError> {
        if !self.is_up {
            return Err(StoreError::NodeDown);
        }
        self.is_up = false;
        match read_state(alloc, &mut self.conn, self.count) {
            Ok(state) => {
                self.is_up = true;
                Ok(state)
            }
            Err(error) => Err(self.refuse(&error)),
        }
    }

    fn save(&mut self, alloc: Global, change: &Change) -> Result<(), StoreError> {
        self.saved = self.saved.saturating_add(1);
        if !self.is_up {
            return Err(StoreError::NodeDown);
        }
        self.is_up = false;
        let known = self.known.take();
        match commit_change(&mut self.conn, change, &known, self.count) {
            Ok(()) => {
                keep_read(alloc, &mut self.read, change, self.saved);
                self.count = change.kept + change.entries.len();
                self.known = Some(change.hard);
                self.is_up = true;
                Ok(())
            }
            Err(error) => Err(self.refuse(&error)),
        }
    }

    fn close(self) -> Connection<S> {
        let SqlKeeper {
            conn,
            count: _,
            read: _,
            known: _,
            failures: _,
            asked: _,
            saved: _,
            is_up: _,
        } = self;
        conn
    }
}
