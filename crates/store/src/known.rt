//! Chains of logs that begin as another one.
ghost use Rattle.std.specs.Prelude.{◌≡◌, ◌≤◌, length, take, IfOk};
ghost use Rattle.store.specs.Chains.{links_of};

use crate::chain::Chain;
use model::entry::Entry;
use node::recall::is_same_entry;
use std::alloc::{AllocError, Global};

/// A log with its chain. The chain of another log that begins with the same entries is taken from it, so that the digests of these
/// are reckoned once.
#[derive(Drop)]
pub struct KnownLog {
    entries: Vec<Entry>,
    chain: Chain,
    ghost linked: { chain.links.items ≡ links_of entries.items },
}

// How many of the first entries are the same.
fn same_first(some: &[Entry], others: &[Entry]) -> usize
    ensures within { result ≤ length others.now }
    ensures same { take result some.now ≡ take result others.now }
{
    let most = some.len().min(others.len());
    for place in 0..most {
        if !is_same_entry(&some[place], &others[place]) {
            return place;
        }
    }
    most
}

fn copies_of(alloc: Global, entries: &[Entry]) -> Result<Vec<Entry>, AllocError>
    ensures { IfOk result (λ copies. copies.items ≡ entries.now) }
{
    entries.to_vec(alloc)
}

impl KnownLog {
    /// A log without entries.
    pub fn new(alloc: Global) -> KnownLog {
        KnownLog {
            entries: Vec::new(alloc),
            chain: Chain::new(alloc),
        }
    }

    // The chain of a log with these entries.
    fn chain_of(&self, entries: &[Entry]) -> Result<Chain, AllocError>
        ensures { IfOk result (λ chain. chain.links.items ≡ links_of entries.now) }
    {
        let same = same_first(self.entries.as_slice(), entries);
        let mut chain = self.chain.beginning(same)?;
        chain.push_all(&entries[same..])?;
        Ok(chain)
    }

    /// The chain of a log with these entries. They are known from then on, where none were. The error is want of memory.
    pub fn link(&mut self, alloc: Global, entries: &[Entry]) -> Result<Chain, AllocError>
        ensures { IfOk result (λ chain. chain.links.items ≡ links_of entries.now) }
    {
        let chain = self.chain_of(entries)?;
        if self.entries.is_empty() {
            *self = KnownLog {
                entries: copies_of(alloc, entries)?,
                chain: chain.beginning(entries.len())?,
            };
        }
        Ok(chain)
    }
}
