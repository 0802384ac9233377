//! The digests of a log's beginnings.
ghost use Rattle.std.specs.Prelude.{◌≡◌, ◌≢◌, ◌↔◌, [], take, length, fold, None, Some, IsTrue, IfOk, OnOk, OnErr};
ghost use Rattle.keep.specs.Durable.{Durable, after};
ghost use Rattle.journal.specs.Digests.{summary_of};
ghost use Rattle.store.specs.Chains.{own_after, first_link, next_link, last_link, link_entry, links_of};

use journal::Summary;
use journal::digest::{BLANK_DIGEST, next_digest};
use keep::change::Change;
use keep::hard_state::HardState;
use model::entry::{Entry, Request};
use model::stamp::Stamp;
use std::alloc::{AllocError, Global};

/// The client of requests that are made in the store's own name.
pub const OWN_CLIENT: u16 = 65535;

// What is known of a log up to an entry: its digest, how many requests of the store's own client are executed in it, how many requests
// it has, and the stamp of the last of them, or 0.
#[derive(Clone, Copy)]
struct Link {
    digest: [u8; 32],
    own: u64,
    requests: usize,
    last: Stamp,
}

/// The digests of the beginnings of a log, from the first entry on.
#[derive(Drop)]
pub struct Chain {
    alloc: Global,
    links: Vec<Link>,
}

// How many requests of the store's own client are executed with this one more: one with the next number is, another one is not.
fn own_after(own: u64, request: &Option<Request>) -> u64
    ensures { result ≡ own_after own request.now }
{
    match request {
        Some(request) => {
            let next = own.saturating_add(1);
            if request.client.get() == OWN_CLIENT && request.number.get() == next {
                next
            } else {
                own
            }
        }
        None => own,
    }
}

impl Link {
    // What is known of a log without entries.
    fn first() -> Link
        ensures { result ≡ first_link }
    {
        Link {
            digest: BLANK_DIGEST,
            own: 0,
            requests: 0,
            last: Stamp::new(0),
        }
    }

    // What is known of the log with this entry more.
    fn next(&self, alloc: Global, entry: &Entry) -> Result<Link, AllocError>
        ensures { IfOk result (λ link. link ≡ next_link self.now entry.now) }
    {
        let (requests, last) = match &entry.request {
            Some(_) => (self.requests.saturating_add(1), entry.stamp),
            None => (self.requests, self.last),
        };
        Ok(Link {
            digest: next_digest(alloc, &self.digest, entry)?,
            own: own_after(self.own, &entry.request),
            requests,
            last,
        })
    }
}

impl Chain {
    /// That of a log without entries.
    pub fn new(alloc: Global) -> Chain
        ensures { result.links.items ≡ links_of [] }
    {
        Chain {
            alloc,
            links: Vec::new(alloc),
        }
    }

    /// That of a log with these entries. The error is want of memory.
    pub fn of(alloc: Global, entries: &[Entry]) -> Result<Chain, AllocError>
        ensures { IfOk result (λ chain. chain.links.items ≡ links_of entries.now) }
    {
        let mut chain = Chain::new(alloc);
        chain.push_all(entries)?;
        Ok(chain)
    }

    /// That of the first so many entries, or of all where there are fewer. The error is want of memory.
    pub fn beginning(&self, length: usize) -> Result<Chain, AllocError>
        ensures { IfOk result (λ chain. chain.links.items ≡ take length self.now.links.items) }
    {
        let most = length.min(self.links.len());
        Ok(Chain {
            alloc: self.alloc,
            links: self.links[..most].to_vec(self.alloc)?,
        })
    }

    /// How many entries the log has.
    pub fn len(&self) -> usize
        ensures { result ≡ length self.now.links.items }
    {
        self.links.len()
    }

    /// Whether the log has none.
    pub fn is_empty(&self) -> bool
        ensures { IsTrue result ↔ (self.now.links.items ≡ []) }
    {
        self.links.is_empty()
    }

    // What is known of the first so many entries, or of all where there are fewer.
    fn link_at(&self, length: usize) -> Link
        ensures { result ≡ last_link (take length self.now.links.items) }
    {
        let most = length.min(self.links.len());
        match self.links[..most].last() {
            Some(link) => *link,
            None => Link::first(),
        }
    }

    /// The number of the last request of the store's own client that is executed if all of the log is decided; 0 where there is
    /// none.
    pub fn own(&self) -> u64
        ensures { result ≡ (last_link (take (length self.now.links.items) self.now.links.items)).own }
    {
        self.link_at(self.links.len()).own
    }

    /// The digest of the first so many entries, or of all where there are fewer.
    pub fn digest_at(&self, length: usize) -> [u8; 32]
        ensures { result ≡ (last_link (take length self.now.links.items)).digest }
    {
        self.link_at(length).digest
    }

    /// How many requests the first so many entries bear, or all where there are fewer.
    pub fn requests_at(&self, length: usize) -> usize
        ensures { result ≡ (last_link (take length self.now.links.items)).requests }
    {
        self.link_at(length).requests
    }

    /// The stamp of the last request that the first so many entries bear, or all where there are fewer; none where they bear none.
    pub fn last_at(&self, length: usize) -> Option<Stamp>
        ensures none { (last_link (take length self.now.links.items)).requests ≡ 0 → result ≡ None }
        ensures some { (last_link (take length self.now.links.items)).requests ≢ 0 → result ≡ Some ((last_link (take length self.now.links.items)).last) }
    {
        let link = self.link_at(length);
        if link.requests == 0 {
            None
        } else {
            Some(link.last)
        }
    }

    /// The digest of the whole log.
    pub fn digest(&self) -> [u8; 32]
        ensures { result ≡ (last_link (take (length self.now.links.items) self.now.links.items)).digest }
    {
        self.digest_at(self.links.len())
    }

    /// One entry more. The error is want of memory, and nothing changed then.
    pub fn push(&mut self, entry: &Entry) -> Result<(), AllocError>
        ensures ok { OnOk result (self.new.links.items ≡ link_entry self.old.links.items entry.now) }
        ensures err { OnErr result (self.new.links.items ≡ self.old.links.items) }
    {
        let link = self.link_at(self.links.len()).next(self.alloc, entry)?;
        self.links.push(link)?;
        Ok(())
    }

    /// These entries more. The error is want of memory.
    pub fn push_all(&mut self, entries: &[Entry]) -> Result<(), AllocError>
        ensures { OnOk result (self.new.links.items ≡ fold link_entry self.old.links.items entries.now) }
    {
        self.links.reserve(entries.len())?;
        for entry in entries {
            self.push(entry)?;
        }
        Ok(())
    }

    /// Only the first so many entries, or all where there are fewer.
    pub fn truncate(&mut self, length: usize)
        ensures { self.new.links.items ≡ take length self.old.links.items }
    {
        self.links.truncate(length);
    }

    /// As a save changes the log, and what is stored after it. The error is want of memory; the chain is then that of no log.
    pub fn change(&mut self, change: &Change) -> Result<Summary, AllocError>
        ensures ok { OnOk result (self.new.links.items ≡ fold link_entry (take change.now.kept self.old.links.items) change.now.entries.items) }
        ensures stored { (d : Durable) → self.old.links.items ≡ links_of d.log → IfOk result (λ s. s ≡ summary_of (after change.now d)) }
        ensures links { (d : Durable) → self.old.links.items ≡ links_of d.log → OnOk result (self.new.links.items ≡ links_of (after change.now d).log) }
    {
        self.truncate(change.kept);
        for entry in &change.entries {
            self.push(entry)?;
        }
        Ok(self.summary(change.hard))
    }

    /// What a member has stored whose log this is.
    pub fn summary(&self, hard: HardState) -> Summary
        ensures { (d : Durable) → d.hard ≡ hard → self.now.links.items ≡ links_of d.log → result ≡ summary_of d }
    {
        Summary {
            hard,
            length: self.len(),
            digest: self.digest(),
        }
    }
}
