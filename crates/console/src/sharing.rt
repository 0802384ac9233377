//! Requests of a sitting that share a sync, and what came of them, which is told after it.
ghost use Rattle.std.specs.Prelude.{◌≡◌, ◌≢◌, ◌<◌, ◌⊎◌, ◌++◌, IfOk, IsErr, IsOk, MatchOption, OnOk, string_bytes, true, false};
ghost use Rattle.std.specs.Io.Buffered.{reader_buffer};
ghost use Rattle.store.specs.Journals.{IsSettled, IsSpent};
ghost use Rattle.console.specs.Lines.{has_end, left_of, IsNextLine, IsNoLine};

use crate::line_reader::LineReader;
use crate::printing::print_bytes;
use crate::session::Session;
use crate::stop::Fault;
use std::io::Read;
use store::StoreRefusal;
use store::announcing::Announces;

impl<'a, K: Announces> Session<'a, K>
where
    K::Image: Drop,
{
    // Says on standard error that it is not known what came of what is held, since the store can't settle, and ends the sitting.
    fn lose_held(&mut self, rt: &HostRuntime, refusal: StoreRefusal) -> Result<(), Fault>
        ensures held { self.new.held.requests ≡ 0 }
        ensures ends { IsSpent self.old.store.scribe → IsErr result }
    {
        let name = self.place.name;
        let line = self.held.line;
        let _ = eprintln!(*rt;
            "{name}:{line}: what came of the requests from this line on is not known; bitable log lists those that are stored"
        );
        self.held.clear();
        self.refuse(rt, "", refusal)
    }

    /// Has the store settle, and tells what is held. Nothing is held then, whatever comes of it; where nothing was, nothing changes.
    pub fn tell_held(&mut self, rt: &HostRuntime) -> Result<(), Fault>
        ensures held { self.new.held.requests ≡ 0 }
        ensures settled { OnOk result (self.old.held.requests ≢ 0 → IsSettled K.Journal.is_settled self.new.store.scribe) }
        ensures idle { self.old.held.requests ≡ 0 → IsOk result × (self.new ≡ self.old) }
        ensures spent { IsSpent self.old.store.scribe → self.old.held.requests ≢ 0 → IsErr result }
    {
        if self.held.requests == 0 {
            return Ok(());
        }
        if let Err(refusal) = self.store.settle() {
            return self.lose_held(rt, refusal);
        }
        let told = print_bytes(rt, self.held.text.as_slice());
        self.held.clear();
        told
    }

    /// Holds what came of the request that begins at the session's line. At a terminal, and where enough is held, it is told at once.
    pub fn hold(&mut self, rt: &HostRuntime, shown: &[u8]) -> Result<(), Fault>
        ensures kept { OnOk result (self.new.held.requests ≢ 0 → (self.new.held.text.items ≡ self.old.held.text.items ++ shown.now) × (self.new.held.requests < 64) × (self.old.place.is_terminal ≡ false)) }
        ensures settled { OnOk result (self.new.held.requests ≡ 0 → IsSettled K.Journal.is_settled self.new.store.scribe) }
    {
        self.held.push(self.line, shown)?;
        if self.place.is_terminal || self.held.is_full() {
            return self.tell_held(rt);
        }
        Ok(())
    }

    /// The next line. Before that may wait, what is held is told.
    pub fn next_line<R: Read + Drop>(
        &mut self,
        rt: &HostRuntime,
        input: &mut LineReader<R>,
    ) -> Result<Option<String>, Fault>
        ensures line { IfOk result (λ found. MatchOption found (IsNoLine (left_of R.remaining input.old.reader) (left_of R.remaining input.new.reader)) (λ line. IsNextLine (left_of R.remaining input.old.reader) (string_bytes line) (left_of R.remaining input.new.reader))) }
        ensures told { (self.new.held.requests ≡ 0) ⊎ (has_end (reader_buffer input.old.reader) ≡ true) }
        ensures settled { OnOk result (self.old.held.requests ≢ 0 → self.new.held.requests ≡ 0 → IsSettled K.Journal.is_settled self.new.store.scribe) }
    {
        if !input.has_line() {
            self.tell_held(rt)?;
        }
        Ok(input.next()?)
    }
}
