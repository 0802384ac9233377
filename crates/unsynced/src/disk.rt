//! A disk whose syncs are left out.
ghost use Rattle.std.specs.Prelude.{◌≡◌, ◌&&◌, false};
ghost use Rattle.std.proofs.Common.{refl};
ghost use Rattle.unsynced.specs.Leaving.{left_of, left_as_seen};

use sqlite_disk::{Disk, Tally};
use std::io;

/// A disk whose syncs may be left out: then a sync answers at once, and nothing is brought to what the disk lies on.
///
/// Where they are left out, `may_leave` speaks of a kill of the process alone: what was written is there afterwards, as the operating system
/// goes on. That is its premise. After a power cut the file may hold anything, and nothing here says what. Where they are not, it is what
/// the disk under it may leave.
#[derive(Drop)]
pub struct Unsynced<D: Disk> {
    inner: D,
    syncs: bool,
}

impl<D: Disk> Unsynced<D> {
    ghost use Rattle.unsynced.specs.Leaving.{inner_of, syncs_of};

    /// Over this disk; whether a sync is passed on to it.
    pub fn new(inner: D, syncs: bool) -> Unsynced<D>
        ensures inner { inner_of result ≡ inner }
        ensures syncs { syncs_of result ≡ syncs }
    {
        Unsynced { inner, syncs }
    }

    /// The disk under it, with what was written and maybe not synced.
    pub fn into_inner(self) -> D
        ensures { result ≡ inner_of self }
    {
        let Unsynced { inner, .. } = self;
        inner
    }
}

impl<D: Disk> Disk for Unsynced<D> {
    ghost seen = { λ f. D.Disk.seen f.inner };

    ghost may_leave = { λ f. left_of f.syncs (D.Disk.seen f.inner) (D.Disk.may_leave f.inner) };

    ghost is_usable = { λ f. D.Disk.is_usable f.inner };

    ghost faults = { λ f. D.Disk.faults f.inner };

    ghost tally_of = { λ f. D.Disk.tally_of f.inner };

    ghost is_clean = { λ f. D.Disk.is_clean f.inner };

    ghost key_of = { λ f. D.Disk.key_of f.inner };

    ghost is_fair = { λ f. D.Disk.is_fair f.inner };

    ghost is_frozen = { λ f. f.syncs && D.Disk.is_frozen f.inner };

    ghost is_rotten = { λ f. D.Disk.is_rotten f.inner };

    ghost is_mixing = { λ f. f.syncs && D.Disk.is_mixing f.inner };

    ghost seen_may_stay = { λ f. left_as_seen f.syncs (D.Disk.seen f.inner) (D.Disk.may_leave f.inner) (D.Disk.seen_may_stay f.inner) };

    ghost fair_if_clean = { λ f. D.Disk.fair_if_clean f.inner };

    fn mixes(&self) -> bool {
        self.syncs && self.inner.mixes()
    }

    fn key(&self) -> u64 {
        self.inner.key()
    }

    fn tally(&self) -> Tally {
        self.inner.tally()
    }

    fn may_be_used(&self) -> bool {
        self.inner.may_be_used()
    }

    fn len(&mut self) -> io::Result<usize> {
        self.inner.len()
    }

    fn read_at(&mut self, at: usize, buf: &mut [u8]) -> io::Result<()> {
        self.inner.read_at(at, buf)
    }

    fn read_checked(&mut self, key: u64, want: u64, at: usize, buf: &mut [u8]) -> io::Result<()> {
        self.inner.read_checked(key, want, at, buf)
    }

    fn write_at(&mut self, at: usize, bytes: &[u8]) -> io::Result<()> {
        self.inner.write_at(at, bytes)
    }

    fn set_len(&mut self, len: usize) -> io::Result<()> {
        self.inner.set_len(len)
    }

    fn sync(&mut self) -> io::Result<()> {
        if !self.syncs {
            return Ok(());
        }
        self.inner.sync()
    }
}
