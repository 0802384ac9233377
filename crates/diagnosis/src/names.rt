//! Names that are near to one that is not there.
use crate::walk::joined;
use schema::{Schema, Table};
use std::alloc::{AllocError, Global};
use strsim::damerau_levenshtein;

fn folded(alloc: Global, word: &str) -> Result<String, AllocError> {
    let mut folded = String::from_str(alloc, word)?;
    folded.make_ascii_lowercase();
    Ok(folded)
}

// How far a name is from a word: how many letters are left out, put in, changed or swapped; one where the one begins the other
// with three letters or more.
fn distance(alloc: Global, word: &str, name: &str) -> Result<usize, AllocError> {
    let word = folded(alloc, word)?;
    let name = folded(alloc, name)?;
    let shorter = word.len().min(name.len());
    if shorter >= 3
        && (word.as_str().starts_with(name.as_str()) || name.as_str().starts_with(word.as_str()))
    {
        return Ok(1);
    }
    damerau_levenshtein(alloc, word.as_str(), name.as_str())
}

// How far a name may be to be meant by a word of so many letters.
fn reach(letters: usize) -> usize {
    (letters / 3).max(1).min(3)
}

/// A word, and of the names that were looked at the first that is nearest to it, where one is near enough to be meant.
#[derive(Clone, Copy)]
pub(crate) struct Nearest<'n> {
    word: &'n str,
    far: usize,
    pub name: Option<&'n str>,
}

impl<'n> Nearest<'n> {
    /// Before the first name.
    pub fn new(word: &'n str) -> Nearest<'n> {
        Nearest {
            word,
            far: reach(word.len()).saturating_add(1),
            name: None,
        }
    }

    /// With one more name.
    pub fn with(self, alloc: Global, name: &'n str) -> Result<Nearest<'n>, AllocError> {
        let far = distance(alloc, self.word, name)?;
        Ok(if far < self.far {
            Nearest {
                word: self.word,
                far,
                name: Some(name),
            }
        } else {
            self
        })
    }

    /// What is told of the word in pieces, and which name may be meant.
    pub fn told(self, alloc: Global, pieces: &[&str]) -> Result<String, AllocError> {
        let told = joined(alloc, pieces)?;
        match self.name {
            Some(name) => joined(alloc, &[told.as_str(), " Did you mean ", name, "?"]),
            None => Ok(told),
        }
    }
}

/// The nearest of some names.
pub(crate) fn nearest_of<'n>(
    alloc: Global,
    word: &'n str,
    names: &[&'n str],
) -> Result<Nearest<'n>, AllocError> {
    let mut near = Nearest::new(word);
    for name in names {
        near = near.with(alloc, *name)?;
    }
    Ok(near)
}

/// The nearest of the names of tables.
pub(crate) fn nearest_table<'s>(
    alloc: Global,
    schema: &'s Schema,
    word: &'s str,
) -> Result<Nearest<'s>, AllocError> {
    let mut near = Nearest::new(word);
    for place in 0..schema.len() {
        near = near.with(alloc, schema.table(place).0.as_str())?;
    }
    Ok(near)
}

/// The nearest of the names of columns.
pub(crate) fn nearest_column<'s>(
    alloc: Global,
    table: &'s Table,
    word: &'s str,
) -> Result<Nearest<'s>, AllocError> {
    let mut near = Nearest::new(word);
    for place in 0..table.column_count() {
        near = near.with(alloc, table.column(place).0.as_str())?;
    }
    Ok(near)
}

/// The name of the column at this place.
pub(crate) fn column_name(table: &Table, place: usize) -> &str {
    if place < table.column_count() {
        table.column(place).0.as_str()
    } else {
        ""
    }
}
