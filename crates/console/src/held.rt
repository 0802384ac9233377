//! What came of requests that the journal has not settled, and is not told before.
ghost use Rattle.std.specs.Prelude.{◌≡◌, ◌==◌, ◌≤◌, ◌+◌, ◌++◌, ◌↔◌, [], min, IsTrue, OnErr, OnOk, if◌then◌else◌};

use std::alloc::{AllocError, Global};

/// How many requests share a sync at most.
const SHARING_MOST: usize = 64;

/// What came of requests, in their order, to be told once the journal has settled.
#[derive(Drop)]
pub(crate) struct Held {
    /// What is to be told, in the form that is asked for.
    pub text: Vec<u8>,
    /// Of how many requests.
    pub requests: usize,
    /// The line, from 1, at which the first of them begins.
    pub line: usize,
}

impl Held {
    /// Of no request.
    pub fn none(alloc: Global) -> Held
        ensures { (result.text.items ≡ []) × (result.requests ≡ 0) }
    {
        Held {
            text: Vec::new(alloc),
            requests: 0,
            line: 0,
        }
    }

    /// Whether it is of as many requests as may share a sync.
    pub fn is_full(&self) -> bool
        ensures { IsTrue result ↔ (64 ≤ self.now.requests) }
    {
        self.requests >= SHARING_MOST
    }

    /// Adds what came of a request that begins at this line. Unchanged where memory is refused.
    pub fn push(&mut self, line: usize, shown: &[u8]) -> Result<(), AllocError>
        ensures text { OnOk result (self.new.text.items ≡ self.old.text.items ++ shown.now) }
        ensures requests { OnOk result (self.new.requests ≡ min (self.old.requests + 1) usize.MAX) }
        ensures line { OnOk result (self.new.line ≡ (if self.old.requests == 0 then line else self.old.line)) }
        ensures err { OnErr result ((self.new.text.items ≡ self.old.text.items) × (self.new.requests ≡ self.old.requests) × (self.new.line ≡ self.old.line)) }
    {
        self.text.extend_from_slice(shown)?;
        if self.requests == 0 {
            self.line = line;
        }
        self.requests = self.requests.saturating_add(1);
        Ok(())
    }

    /// Forgets what it has.
    pub fn clear(&mut self)
        ensures { (self.new.text.items ≡ []) × (self.new.requests ≡ 0) }
    {
        self.text.clear();
        self.requests = 0;
    }
}
