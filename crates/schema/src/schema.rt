//! The checked schema of a list of CREATE TABLE statements.
ghost use Rattle.std.specs.Prelude.{◌≡◌, ◌<◌, length, map, position, slice_get, Some, [], ◌↔◌, IsTrue, IfSome, IfNone, MatchResult, Err};
ghost use Rattle.fault.specs.declared.refusal.Refusal.TheVariants.{NoMemory};
ghost use Rattle.schema.specs.Name.{same_name};
ghost use Rattle.schema.specs.Checks.{first_failing};
ghost use Rattle.schema.specs.Rules.{schema_checks};
ghost use Rattle.schema.specs.Tables.{schema_of};
ghost use Rattle.schema.specs.Sound.{IsSound};

use crate::build::tables_of;
use crate::checks::check_schema;
use crate::syntax::CreateTable;
use crate::{Name, Table};
use fault::Refusal;
use indexmap::IndexMap;
use std::alloc::{AllocError, Global};
use std::marker::Model;

/// Tables in declared order, which are named by their places: 0 is the first.
#[derive(Drop)]
pub struct Schema {
    tables: IndexMap<Name, Table>,
}

impl Model for Schema {
    ghost use Rattle.std.specs.Prelude.{List, ℕ};
    ghost use Rattle.schema.specs.Shape.{TableShape};
    ghost use Rattle.schema.specs.Sound.{AreSound};

    ghost Value = { List (List ℕ × TableShape) };

    ghost view = { λ s. s.tables.entries };

    ghost invariant = { λ s. AreSound s.tables.entries };
}

/// The copy has the same tables. Fails only for want of memory.
impl Clone for Schema {
    ghost is_clone = { λ s copy. copy ≡ s };

    fn clone(&self) -> Result<Schema, AllocError> {
        let tables = self.tables.clone()?;
        Ok(Schema { tables })
    }
}

impl Schema {
    /// The schema of these statements.
    ///
    /// Refused with the number of the first check that fails in the order of the text: `TooLarge`, `BadSchema`,
    /// `UnknownColumn`, `UnknownTable` or `WrongType`. Only where all checks pass can memory be refused.
    pub fn of(alloc: Global, tables: Vec<CreateTable>) -> Result<Schema, Refusal>
        ensures refused { IfSome (first_failing (schema_checks tables.items)) (λ refusal. result ≡ Err refusal) }
        ensures accepted { IfNone (first_failing (schema_checks tables.items)) (MatchResult result (λ s. s ≡ schema_of tables.items) (λ refusal. refusal ≡ NoMemory)) }
    {
        let written = tables.as_slice();
        check_schema(written)?;
        let tables = tables_of(alloc, written)?;
        Ok(Schema { tables })
    }

    /// The number of tables.
    pub fn len(&self) -> usize
        ensures { result ≡ length self.now }
    {
        self.tables.len()
    }

    /// Whether there is no table.
    pub fn is_empty(&self) -> bool
        ensures { IsTrue result ↔ (self.now ≡ []) }
    {
        self.tables.is_empty()
    }

    /// The table at this place, with its name.
    pub fn table(&self, place: usize) -> (&Name, &Table)
        requires { place < length self.now }
        ensures table { slice_get self.now place ≡ Some (result.0.now, result.1.now) }
        ensures sound { IsSound self.now place result.1.now }
    {
        match self.tables.get_index(place) {
            Some(table) => table,
            None => unreachable!(),
        }
    }

    /// The place of the table of this name.
    pub fn find_table(&self, name: &Name) -> Option<usize>
        ensures place { result ≡ position (same_name name.now) (map (λ t. t.0) self.now) }
        ensures within { IfSome result (λ i. i < length self.now) }
    {
        self.tables.get_index_of(name)
    }
}
