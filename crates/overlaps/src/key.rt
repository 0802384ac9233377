//! The keys of rows.
ghost use Rattle.std.specs.Prelude.{◌≡◌, refl, IfOk};
ghost use Rattle.std.specs.Cmp.{partial_equiv_from_equiv};
ghost use Rattle.std.specs.Ordering.{as_partial_cmp};
ghost use Rattle.model.specs.Values.{key_cmp, same_key};
ghost use Rattle.overlaps.specs.Key.{key_cmp_total, key_cmp_partial, same_key_equiv, same_key-ties};

use model::value::Value;
use std::alloc::AllocError;
use std::cmp::Ordering;
use std::marker::Model;
use std::sync::ArcSlice;

/// The values of a row's key columns, in their order. Keys order by their columns in turn, and two
/// are equal where no column differs. The values are stored once: a copy shares them and takes no memory. A contract
/// sees the list of the values.
#[derive(Debug, Drop)]
pub struct Key {
    values: ArcSlice<Value>,
}

impl Model for Key {
    ghost use Rattle.std.specs.Prelude.{List};
    ghost use Rattle.std.specs.Arc.{arc_slice_items};
    ghost use Rattle.model.specs.declared.value.Value.{Value as ColumnValue};

    ghost Value = { List ColumnValue };

    ghost view = { λ k. arc_slice_items k.values };
}

impl Key {
    /// The key with these values. The error is want of memory.
    pub fn new(values: Vec<Value>) -> Result<Key, AllocError>
        ensures { IfOk result (λ key. key ≡ values.items) }
    {
        let values = ArcSlice::from_vec(values)?;
        Ok(Key { values })
    }

    /// Its values. Takes no memory.
    pub fn as_slice(&self) -> &[Value]
        ensures { result.now ≡ self.now }
    {
        self.values.as_slice()
    }
}

impl Clone for Key {
    ghost is_clone = { λ k copy. copy ≡ k };

    fn clone(&self) -> Result<Key, AllocError> {
        let values = self.values.clone()?;
        Ok(Key { values })
    }
}

impl PartialEq for Key {
    ghost eq = { same_key };

    ghost laws = { partial_equiv_from_equiv same_key_equiv };

    #[tactic(auto, unfolding(model::specs::Values::same_key))]
    fn eq(&self, other: &Key) -> bool {
        self.cmp(other).is_eq()
    }
}

impl Eq for Key {
    ghost laws = { same_key_equiv };
}

impl PartialOrd for Key {
    ghost partial_cmp = { as_partial_cmp key_cmp };

    ghost laws = { key_cmp_partial };

    fn partial_cmp(&self, other: &Key) -> Option<Ordering> {
        Some(self.cmp(other))
    }
}

impl Ord for Key {
    ghost cmp = { key_cmp };

    ghost total = { key_cmp_total };

    ghost matches_partial_cmp = { λ x y. refl };

    ghost matches_eq = { same_key-ties };

    #[tactic(auto, unfolding(model::specs::Values::key_cmp))]
    fn cmp(&self, other: &Key) -> Ordering {
        self.as_slice().cmp(&other.as_slice())
    }
}
