//! What a member announces its saves by.
ghost use Rattle.std.specs.Prelude.{◌≡◌, ◌⊎◌, ◌∷◌, Some, [], IfErr, OnErr, OnOk, string_bytes};
ghost use Rattle.keep.specs.Durable.{Durable, after};
ghost use Rattle.journal.specs.Digests.{summary_of};
ghost use Rattle.journal.specs.declared.stored.Summary.{Summary};
ghost use Rattle.store.specs.Chains.{links_of};
ghost use Rattle.store.specs.Continuing.{Continues, IsUnfiled};
ghost use Rattle.store.specs.Lines.{one_block};
ghost use Rattle.store.specs.Writing.{IsWritten, with_line};

use crate::chain::Chain;
use crate::device::{Device, DeviceError};
use crate::scribe::Scribe;
use journal::Line;
use keep::{Change, StoreError};
use model::member::Member;

/// What a member announces its saves by: the journal, which is lent to it for a step, and the digests of its log.
#[derive(Drop)]
pub struct Voice<J: Device> {
    pub scribe: Scribe<J>,
    pub chain: Chain,
    pub member: Member,
}

impl<J: Device> Voice<J> {
    /// Writes what is in the journal's buffer, and then what the member is about to store.
    pub(crate) fn announce(&mut self, change: &Change) -> Result<(), StoreError>
        ensures announced { (d : Durable) → self.old.chain.links.items ≡ links_of d.log → OnOk result (IsWritten (J.contents self.old.scribe.device) (J.contents self.new.scribe.device) self.old.scribe.sum (with_line (string_bytes self.old.scribe.buffer) (Line.Saves self.old.member (summary_of (after change.now d))))) }
        ensures empty { OnOk result (string_bytes self.new.scribe.buffer ≡ []) }
        ensures links { (d : Durable) → self.old.chain.links.items ≡ links_of d.log → OnOk result (self.new.chain.links.items ≡ links_of (after change.now d).log) }
        ensures error { IfErr result (λ error. (error ≡ StoreError.NoMemory) ⊎ (error ≡ StoreError.StoreFault)) }
        ensures filed { OnOk result ((stored : Summary) × Continues J.contents self.old.scribe self.new.scribe (one_block (Line.Saves self.old.member stored ∷ []))) }
        ensures unfiled { OnErr result (IsUnfiled J.contents (Some self.old.scribe) (Some self.new.scribe)) }
    {
        let stored = self.chain.change(change)?;
        let line = Line::Saves {
            member: self.member,
            stored,
        };
        match self.scribe.tell(&line) {
            Ok(()) => Ok(()),
            Err(error) => Err(error_of(error)),
        }
    }
}

fn error_of(error: DeviceError) -> StoreError
    ensures { (result ≡ StoreError.NoMemory) ⊎ (result ≡ StoreError.StoreFault) }
{
    match error {
        DeviceError::NoMemory => StoreError::NoMemory,
        DeviceError::Full | DeviceError::Failed => StoreError::StoreFault,
    }
}
