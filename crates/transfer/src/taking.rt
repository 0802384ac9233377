//! What takes requests.
ghost use Rattle.std.specs.Prelude.{IfOk, List, OnOk, ℕ};
ghost use Rattle.store.specs.Journals.{IsSettled};
ghost use Rattle.store.specs.declared.outcome.Outcome.{Outcome as Came};

use store::announcing::Announces;
use store::{Outcome, Store, StoreRefusal};

/// What takes requests, one after the other.
pub(crate) trait Takes {
    /// It was so before, took a request of this text, this came of it, and it is so since.
    ghost takes: { Self → List ℕ → Came → Self → Type 0 };

    /// What was taken outlasts a power cut.
    ghost is_settled: { Self → Type 0 };

    /// Takes a request of this text, while clocks show this. What the store refuses. The outcome is not to be told before `settle`.
    fn take(&mut self, reading: i64, text: &str) -> Result<Outcome, StoreRefusal>
        ensures { IfOk result (λ outcome. takes self.old text.now outcome self.new) };

    /// Has what was taken outlast a power cut, and stay taken. What the store refuses.
    fn settle(&mut self) -> Result<(), StoreRefusal>
        ensures settled { OnOk result (is_settled self.new) }
        ensures stays { OnOk result ((before : Self) (text : List ℕ) (outcome : Came) → takes before text outcome self.old → takes before text outcome self.new) };
}

impl<K: Announces> Takes for Store<K>
where
    K::Image: Drop,
{
    ghost takes = { λ _ _ _ _. Unit {0} };

    ghost is_settled = { λ store. IsSettled K.Journal.is_settled store.scribe };

    fn take(&mut self, reading: i64, text: &str) -> Result<Outcome, StoreRefusal> {
        let (_, outcome) = self.execute_unsettled(reading, text)?;
        Ok(outcome)
    }

    fn settle(&mut self) -> Result<(), StoreRefusal> {
        Store::settle(self)
    }
}
