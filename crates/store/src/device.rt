//! Where a journal goes.
ghost use Rattle.std.specs.Prelude.{◌≡◌, Option, List, ℕ, None, OnOk, OnErr};
ghost use Rattle.std.specs.Io.KnownBytes.{append_known};
ghost use Rattle.store.specs.Writing.{AppendsPart};

/// Why a block was not written.
#[derive(Clone, Copy, PartialEq, Eq, Debug)]
pub enum DeviceError {
    /// 38: there is no room for it.
    Full,
    /// 40: the device failed.
    Failed,
    /// 43: memory was refused.
    NoMemory,
}

/// Takes the blocks of a journal, one after the other.
pub trait Device: Drop {
    /// What it holds; none of one of which that is not known, neither before a write nor after it.
    ghost contents: { Self → Option (List ℕ) };

    /// What it holds outlasts a power cut, as far as the device knows.
    ghost is_settled: { Self → Type 0 } = { λ _. Unit {0} };

    /// Writes a block behind those before it. Once it has answered, the block outlasts a kill of the process. After an error a beginning
    /// of it may be there, and nothing more is to be written.
    fn write(&mut self, block: &[u8]) -> Result<(), DeviceError>
        ensures ok { OnOk result (contents self.new ≡ append_known (contents self.old) block.now) }
        ensures err { OnErr result (AppendsPart (contents self.old) (contents self.new) block.now) };

    /// Once it has answered, all that was written outlasts a power cut too, of a device that syncs. What it holds stays in any case; after
    /// an error nothing more is to be written.
    fn settle(&mut self) -> Result<(), DeviceError>
        ensures same { contents self.new ≡ contents self.old }
        ensures ok { OnOk result (is_settled self.new) };
}

/// A device that keeps nothing: a store over it has no journal.
#[derive(Clone, Copy, Debug)]
pub struct NoDevice;

impl Device for NoDevice {
    ghost contents = { λ _. None };

    fn write(&mut self, _block: &[u8]) -> Result<(), DeviceError> {
        Ok(())
    }

    fn settle(&mut self) -> Result<(), DeviceError> {
        Ok(())
    }
}
