//! Digests of logs.
ghost use Rattle.std.specs.Prelude.{◌≡◌, [], ◌++◌, IfOk};
ghost use Rattle.sha2.specs.Sha256.{sha256};
ghost use Rattle.flight.specs.Spelling.{entry_text};
ghost use Rattle.journal.specs.Digests.{next_digest};

use crate::pieces::put_entry;
use model::entry::Entry;
use sha2::{Digest, Sha256};
use std::alloc::{AllocError, Global};

/// The digest of a log without entries.
pub const BLANK_DIGEST: [u8; 32] = [0u8; 32];

/// The digest of a log that has this entry after those of which `before` is the digest: SHA-256, of FIPS 180-4, of that digest and
/// then the entry as a flight file spells it. The error is want of memory.
pub fn next_digest(alloc: Global, before: &[u8; 32], entry: &Entry) -> Result<[u8; 32], AllocError>
    ensures { IfOk result (λ digest. digest ≡ next_digest before.now entry.now) }
{
    let mut text = String::new(alloc);
    put_entry(entry, &mut text)?;
    let mut hasher = Sha256::new();
    hasher.update(before.as_slice());
    hasher.update(text.as_bytes());
    Ok(hasher.finalize())
}
