//! A table of a schema.
ghost use Rattle.std.specs.Prelude.{◌≡◌, ◌<◌, ℕ, List, length, map, position, slice_get, IfSome, Some};
ghost use Rattle.std.specs.List.{IsDistinct};
ghost use Rattle.schema.specs.Name.{same_name};

use crate::Name;
use indexmap::IndexMap;
use std::alloc::AllocError;
use std::marker::Model;

/// What the values of a column are.
#[derive(Clone, Copy, Debug, PartialEq, Eq)]
pub enum Kind {
    Integer,
    /// Texts of at most this many bytes, 1 to 255.
    Varchar(u8),
    Date,
    SystemStart,
    SystemEnd,
}

/// Columns that refer to the key of another table.
#[derive(Drop)]
pub struct Reference {
    columns: Vec<usize>,
    parent: usize,
}

impl Model for Reference {
    ghost use Rattle.schema.specs.Shape.{ReferenceShape};

    ghost Value = { ReferenceShape };

    ghost view = { λ r. record { columns = r.columns.items; parent = r.parent } };
}

impl Clone for Reference {
    ghost is_clone = { λ r copy. copy ≡ r };

    fn clone(&self) -> Result<Reference, AllocError> {
        Ok(Reference {
            columns: self.columns.clone()?,
            parent: self.parent,
        })
    }
}

impl Reference {
    pub(crate) fn new(columns: Vec<usize>, parent: usize) -> Reference
        ensures columns { result.columns ≡ columns.items }
        ensures parent { result.parent ≡ parent }
    {
        Reference { columns, parent }
    }

    /// The columns by their places, in the order of the parent's key.
    pub fn columns(&self) -> &[usize]
        ensures { result.now ≡ self.now.columns }
    {
        self.columns.as_slice()
    }

    /// The place of the parent among the tables.
    pub fn parent(&self) -> usize
        ensures { result ≡ self.now.parent }
    {
        self.parent
    }
}

/// A table, whose columns are named by their places: 0 is the first.
#[derive(Drop)]
pub struct Table {
    pub(crate) columns: IndexMap<Name, Kind>,
    pub(crate) period: Name,
    pub(crate) start: usize,
    pub(crate) end: usize,
    pub(crate) system_start: usize,
    pub(crate) system_end: usize,
    pub(crate) key: Vec<usize>,
    pub(crate) values: Vec<usize>,
    pub(crate) references: Vec<Reference>,
}

impl Model for Table {
    ghost use Rattle.schema.specs.Shape.{TableShape};

    ghost Value = { TableShape };

    ghost view = { λ t. record { columns = t.columns.entries; period = t.period; start = t.start; end = t.end; system_start = t.system_start; system_end = t.system_end; key = t.key.items; values = t.values.items; references = t.references.items } };
}

impl Clone for Table {
    ghost is_clone = { λ t copy. copy ≡ t };

    fn clone(&self) -> Result<Table, AllocError> {
        Ok(Table {
            columns: self.columns.clone()?,
            period: self.period.clone()?,
            start: self.start,
            end: self.end,
            system_start: self.system_start,
            system_end: self.system_end,
            key: self.key.clone()?,
            values: self.values.clone()?,
            references: self.references.clone()?,
        })
    }
}

impl Table {
    /// The number of columns.
    pub fn column_count(&self) -> usize
        ensures { result ≡ length self.now.columns }
    {
        self.columns.len()
    }

    /// The name and the kind of the column at this place.
    pub fn column(&self, place: usize) -> (&Name, Kind)
        requires { place < length self.now.columns }
        ensures { slice_get self.now.columns place ≡ Some (result.0.now, result.1) }
    {
        match self.columns.get_index(place) {
            Some((name, kind)) => (name, *kind),
            None => unreachable!(),
        }
    }

    /// The place of the column of this name.
    pub fn find_column(&self, name: &Name) -> Option<usize>
        ensures place { result ≡ position (same_name name.now) (map (λ c. c.0) self.now.columns) }
        ensures within { IfSome result (λ i. i < length self.now.columns) }
        ensures distinct { IsDistinct same_name (map (λ c. c.0) self.now.columns) }
    {
        self.columns.get_index_of(name)
    }

    /// The name of the application period.
    pub fn period(&self) -> &Name
        ensures { result.now ≡ self.now.period }
    {
        &self.period
    }

    /// The column in which rows of the application period start.
    pub fn start(&self) -> usize
        ensures { result ≡ self.now.start }
    {
        self.start
    }

    /// The column in which they end.
    pub fn end(&self) -> usize
        ensures { result ≡ self.now.end }
    {
        self.end
    }

    /// The column of the system start.
    pub fn system_start(&self) -> usize
        ensures { result ≡ self.now.system_start }
    {
        self.system_start
    }

    /// The column of the system end.
    pub fn system_end(&self) -> usize
        ensures { result ≡ self.now.system_end }
    {
        self.system_end
    }

    /// The columns of the key, in its order.
    pub fn key(&self) -> &[usize]
        ensures { result.now ≡ self.now.key }
    {
        self.key.as_slice()
    }

    /// The columns that are not of the key, a period or the system, in declared order.
    pub fn values(&self) -> &[usize]
        ensures { result.now ≡ self.now.values }
    {
        self.values.as_slice()
    }

    /// The foreign keys, in declared order.
    pub fn references(&self) -> &[Reference]
        ensures { result.now ≡ self.now.references }
    {
        self.references.as_slice()
    }
}
