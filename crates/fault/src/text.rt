//! A text that is stored once and shared by its copies, and which contracts see as its bytes.
ghost use Rattle.std.specs.Prelude.{◌≡◌, Some, IfOk, bytes_eq};
ghost use Rattle.std.specs.Cmp.{partial_equiv_from_equiv};
ghost use Rattle.std.specs.Cmp.Lexicographic.{nat_list_eq_equiv};

use std::alloc::{AllocError, Global};
use std::fmt;
use std::marker::Model;
use std::sync::ArcStr;

/// A text, as a request's or the name of a table in a refusal. Its bytes are stored once: a copy shares them, takes no
/// memory, and is the same text.
#[derive(Debug, Drop)]
pub struct Text {
    shared: ArcStr,
}

impl Model for Text {
    ghost use Rattle.std.specs.Prelude.{List, ℕ};
    ghost use Rattle.std.specs.Arc.{arc_str_bytes};

    ghost Value = { List ℕ };

    ghost view = { λ t. arc_str_bytes t.shared };
}

impl Text {
    ghost use Rattle.std.specs.Prelude.{string_bytes};

    /// A text with these bytes. Takes memory for them once; the error is want of memory.
    pub fn new(alloc: Global, text: &str) -> Result<Text, AllocError>
        ensures { IfOk result (λ made. made ≡ text.now) }
    {
        let shared = ArcStr::from_str(alloc, text)?;
        Ok(Text { shared })
    }

    /// The text that was printed into this string, which it keeps. The error is want of memory.
    pub fn from_string(string: String) -> Result<Text, AllocError>
        ensures { IfOk result (λ made. made ≡ string_bytes string) }
    {
        let shared = ArcStr::from_string(string)?;
        Ok(Text { shared })
    }

    /// The text.
    pub fn as_str(&self) -> &str
        ensures { result.now ≡ self.now }
    {
        self.shared.as_str()
    }
}

impl Clone for Text {
    ghost is_clone = { λ t copy. copy ≡ t };

    fn clone(&self) -> Result<Text, AllocError> {
        let shared = self.shared.clone()?;
        Ok(Text { shared })
    }
}

impl PartialEq for Text {
    ghost eq = { bytes_eq };

    ghost laws = { partial_equiv_from_equiv nat_list_eq_equiv };

    fn eq(&self, other: &Text) -> bool {
        self.as_str() == other.as_str()
    }
}

impl Eq for Text {
    ghost laws = { nat_list_eq_equiv };
}

impl fmt::Display for Text {
    ghost output = { λ t. Some t };

    fn fmt<W: fmt::Write>(&self, f: &mut fmt::Formatter<W>) -> fmt::Result {
        f.write_str(self.as_str())
    }
}
