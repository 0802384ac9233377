//! The names of tables, columns and periods.
ghost use Rattle.std.specs.Prelude.{◌≡◌, ℕ, List, Bool, IsTrue, IfOk, Some, string_bytes};
ghost use Rattle.std.proofs.Common.{rules, ap};
ghost use Rattle.std.specs.Cmp.{partial_equiv_from_equiv};
ghost use Rattle.std.specs.Cmp.Lexicographic.{on_texts_equal};
ghost use Rattle.std.specs.Cmp.Rules.{comparing, hashing};
ghost use Rattle.std.specs.Hash as fed;
ghost use Rattle.std.specs.Str.{str_to_ascii_lowercase};
ghost use Rattle.std.specs.List.{list_all};
ghost use Rattle.schema.specs.Name.{is_word, is_word_byte, begins_with_letter, same_name};

use std::alloc::{AllocError, Global};
use std::fmt;
use std::hash::{Hash, Hasher};
use std::marker::Model;

/// A name as it is written: a letter and then letters, digits and underscores, at most 32 bytes.
///
/// Names are equal without regard to the case of their letters. A contract sees the bytes as they are written.
#[derive(Debug, Drop)]
pub struct Name {
    written: String,
    folded: String,
}

impl Model for Name {
    ghost use Rattle.std.specs.Prelude.{◌≡◌, List, ℕ, IsTrue, string_bytes};
    ghost use Rattle.std.specs.Str.{str_to_ascii_lowercase};
    ghost use Rattle.schema.specs.Name.{is_word};

    ghost Value = { List ℕ };

    ghost view = { λ n. string_bytes n.written };

    ghost invariant = { λ n. (string_bytes n.folded ≡ str_to_ascii_lowercase (string_bytes n.written)) × IsTrue (is_word (string_bytes n.written)) };
}

/// Whether a text can be a name: a letter and then letters, digits and underscores, at most 32 bytes.
pub fn is_word(text: &str) -> bool
    ensures { result ≡ is_word text.now }
{
    let bytes = text.as_bytes();
    begins_with_letter(bytes) && has_word_bytes(bytes) && bytes.len() <= 32
}

fn begins_with_letter(bytes: &[u8]) -> bool
    ensures { result ≡ begins_with_letter bytes.now }
{
    bytes.first().is_some_and(|b| b.is_ascii_alphabetic())
}

fn has_word_bytes(bytes: &[u8]) -> bool
    ensures { result ≡ list_all is_word_byte bytes.now }
{
    bytes
        .iter()
        .all(|b| b.is_ascii_alphanumeric() || *b == b'_')
}

impl Name {
    /// The name that is written so. `is_word` is the test.
    pub fn new(alloc: Global, written: &str) -> Result<Name, AllocError>
        requires { IsTrue (is_word written.now) }
        ensures { IfOk result (λ n. n ≡ written.now) }
    {
        let written = String::from_str(alloc, written)?;
        let mut folded = written.clone()?;
        folded.make_ascii_lowercase();
        Ok(Name { written, folded })
    }

    /// The name as it is written.
    pub fn as_str(&self) -> &str
        ensures written { result.now ≡ self.now }
        ensures word { IsTrue (is_word self.now) }
    {
        self.written.as_str()
    }
}

impl Clone for Name {
    ghost is_clone = { λ n copy. copy ≡ n };

    fn clone(&self) -> Result<Name, AllocError> {
        let written = self.written.clone()?;
        let folded = self.folded.clone()?;
        Ok(Name { written, folded })
    }
}

impl PartialEq for Name {
    ghost eq = { same_name };

    ghost laws = { partial_equiv_from_equiv (on_texts_equal str_to_ascii_lowercase) };

    fn eq(&self, other: &Name) -> bool {
        self.folded.as_str() == other.folded.as_str()
    }
}

impl Eq for Name {
    ghost laws = { on_texts_equal str_to_ascii_lowercase };
}

impl Hash for Name {
    ghost hash_input = { λ n. fed.str (str_to_ascii_lowercase n) };

    ghost respects_eq = { Prim.search (hashing, rules) };

    fn hash<H: Hasher>(&self, state: &mut H) {
        self.folded.as_str().hash(state);
    }
}

/// As the name is written.
impl fmt::Display for Name {
    ghost output = { λ n. Some n };

    fn fmt<W: fmt::Write>(&self, f: &mut fmt::Formatter<W>) -> fmt::Result {
        f.write_str(self.written.as_str())
    }
}
